//! An element that becomes another one, in the memory in which the stored digests of its log lie.

ghost use Rattle.std.specs.Prelude.{◌≡◌, ◌<◌, ◌≤◌, ◌/◌, ◌^◌, ℕ, List, [], length, get_or, set, true, false, IfErr, IfOk, OnErr, Ok, Err};
ghost use Rattle.ark_base.specs.declared.error.Error.{Error};
ghost use Rattle.ark_paths.specs.Pair.{Digest};
ghost use Rattle.ark_sponge.specs.Permutation.{Parameters};
ghost use Rattle.circom.specs.Hash.{IsTableOf, is_element, node_outcome, table_outcome};
ghost use Rattle.circom.specs.Changed.{Climbs, HasOverLeaf, IsOverLeaf, PutsOver, RefusesClimb, hashed_over};
ghost use Rattle.merkle_log.specs.Kept.{KeepsBy};
ghost use Rattle.merkle_log.specs.Stored.{row_at, stored_count};

use crate::refusal::NoElement;
use crate::table::{CircomTable, is_element};
use merkle_log::kept::{Kept, position_of};
use merkle_log::rows::Rows;

// Returns the hash of two digests, left first.
fn hash_pair(table: &CircomTable, left: &[u8; 32], right: &[u8; 32]) -> Result<[u8; 32], NoElement>
    ensures digest { IfOk result
        (λ digest. table_outcome table.now left.now right.now ≡ Ok digest) }
    ensures refused { IfErr result (λ _. (error : Error)
        × (table_outcome table.now left.now right.now ≡ Err error)) }
{
    match table.hash_two(left, right) {
        Ok(digest) => Ok(digest),
        Err(_) => Err(NoElement),
    }
}

// Returns the hash over a place of a row, where this digest stands at the place, and the row's own beside it.
fn hash_over(
    table: &CircomTable,
    kept: &Kept,
    level: usize,
    place: usize,
    own: &[u8; 32],
) -> Result<[u8; 32], NoElement>
    requires fits { place < 2 ^ 63 }
    requires paired { place / 2 < length (row_at kept.now level) / 2 }
    ensures digest { IfOk result (λ digest. hashed_over (table_outcome table.now)
        (row_at kept.now level) place own.now ≡ Ok digest) }
    ensures refused { IfErr result (λ _. (error : Error) × (hashed_over (table_outcome table.now)
        (row_at kept.now level) place own.now ≡ Err error)) }
{
    if place % 2 == 1 {
        hash_pair(table, kept.at(level, place - 1), own)
    } else {
        hash_pair(table, own, kept.at(level, place + 1))
    }
}

// Writes the digests over the leaf of an index that becomes another one: those of the complete subtrees, the lowest first.
fn climb(
    table: &CircomTable,
    kept: &Kept,
    index: usize,
    element: &[u8; 32],
    over: &mut [[u8; 32]],
) -> Result<(), NoElement>
    requires inside { index < kept.now.size }
    requires room { length over.old ≡ 64 }
    ensures climbs { IfOk result (λ _. (level : ℕ) → HasOverLeaf kept.now.size index level
        → Climbs (table_outcome table.now) (row_at kept.now) index element.now over.new level) }
    ensures refused { IfErr result (λ _. RefusesClimb (table_outcome table.now)
        (row_at kept.now) kept.now.size index element.now) }
    ensures long { length over.new ≡ length over.old }
{
    over[0] = *element;
    let mut level = 0;
    let mut place = index;
    let mut count = kept.size();
    'levels: while place / 2 < count / 2 {
        let own = over[level];
        match hash_over(table, kept, level, place, &own) {
            Ok(digest) => over[level + 1] = digest,
            Err(refused) => return Err(refused),
        }
        place /= 2;
        count /= 2;
        level += 1;
    }
    Ok(())
}

// Writes those digests to their positions.
fn put_over(digests: &mut [[u8; 32]], size: usize, index: usize, over: &[[u8; 32]])
    requires fits { size < 2 ^ 63 }
    requires whole { stored_count size ≤ length digests.old }
    requires room { length over.now ≡ 64 }
    ensures { PutsOver size index digests.old digests.new over.now }
{
    let mut level = 0;
    let mut place = index;
    let mut count = size;
    'levels: while place < count {
        digests[position_of(level, place)] = over[level];
        place /= 2;
        count /= 2;
        level += 1;
    }
}

/// Writes an element to its index in the memory of a log of so many elements, and the hashes of the complete subtrees over it. It
/// allocates nothing.
///
/// `NoElement` is refused where the element is not below the modulus, and leaves the memory as before. If the memory is not that
/// of a log, some digests are written, or `NoElement` is refused for one that is hashed.
pub fn change_element(
    table: &CircomTable,
    digests: &mut [[u8; 32]],
    size: usize,
    index: usize,
    element: &[u8; 32],
) -> Result<(), NoElement>
    requires two { table.now.inputs ≡ 2 }
    requires fits { size < 2 ^ 63 }
    requires whole { stored_count size ≤ length digests.old }
    requires inside { index < size }

    // Memory that keeps a list keeps then the list with the element at the index.
    ensures changes { (c : Parameters) → IsTableOf c table.now → IfOk result (λ _.
        (leaves : List Digest) → length leaves ≡ size
        → KeepsBy (node_outcome c) leaves digests.old
        → KeepsBy (node_outcome c) (set leaves index element.now) digests.new) }

    // Whatever it keeps: no other digests are written.
    ensures others { (at : ℕ) → (IsOverLeaf size index at → ⊥)
        → get_or digests.new at [] ≡ get_or digests.old at [] }
    ensures long { length digests.new ≡ length digests.old }

    // Where it keeps a list, only what is no element is refused, and that always is.
    ensures element { IfOk result (λ _. is_element element.now ≡ true) }
    ensures refused { (c : Parameters) → IsTableOf c table.now → IfErr result (λ _.
        (leaves : List Digest) → length leaves ≡ size
        → KeepsBy (node_outcome c) leaves digests.old → is_element element.now ≡ false) }
    ensures kept { OnErr result (digests.new ≡ digests.old) }
{
    if !is_element(element) {
        return Err(NoElement);
    }
    let mut over = [[0u8; 32]; 64];
    match climb(table, &Kept::new(size, digests), index, element, &mut over) {
        Ok(()) => {
            put_over(digests, size, index, &over);
            Ok(())
        }
        Err(refused) => Err(refused),
    }
}
