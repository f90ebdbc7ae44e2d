//! An element of a kept log over circomlib's hash that becomes another one.

ghost use Rattle.std.specs.Prelude.{◌≡◌, ◌≢◌, ℕ, List, [], length, get_or, set, pos, Result, Ok};
ghost use Rattle.ark_paths.specs.Pair.{Digest};
ghost use Rattle.ark_sponge.specs.Permutation.{Parameters};
ghost use Rattle.circom.specs.Hash.{IsTableOf, SpellsTable, node_outcome};
ghost use Rattle.circom.specs.Changed.{IsOverLeaf};
ghost use Rattle.merkle_log.specs.Kept.{KeepsBy, has_front};
ghost use Rattle.paxidore_calls.specs.Answer.{GivesCode, done_code};
ghost use Rattle.paxidore_c.specs.PoseidonLog.{OrInvalid, changed_element, element_changed};
ghost use Rattle.paxidore_calls.specs.declared.refused.Refused.{Refused};

use crate::poseidon_log::table_of_two;
use circom::CircomTable;
use merkle_log::kept::Kept;
use paxidore_calls::refused::Refused;
use std::alloc::Global;

// Returns whether a log of this size has its stored digests in front of these.
fn has_stored(kept: &[[u8; 32]], size: usize) -> bool
    ensures { result ≡ has_front size (length kept.now) }
{
    Kept::of(size, kept).is_some()
}

// Writes an element to its index by a table of two inputs, and the hashes over it, and returns the code.
fn set_element(
    kept: &mut [[u8; 32]],
    table: &CircomTable,
    size: usize,
    index: usize,
    element: &[u8; 32],
) -> i32
    requires { table.now.inputs ≡ 2 }
    ensures answer { (c : Parameters) → IsTableOf c table.now
        → (leaves : List Digest) → length leaves ≡ size → KeepsBy (node_outcome c) leaves kept.old
        → result ≡ done_code (changed_element size kept.old index element.now (Ok element.now)) }
    ensures changes { (c : Parameters) → IsTableOf c table.now
        → result ≡ pos 0 → (leaves : List Digest) → length leaves ≡ size
        → KeepsBy (node_outcome c) leaves kept.old
        → KeepsBy (node_outcome c) (set leaves index element.now) kept.new }
    ensures given { (given : Result Digest Refused) × OrInvalid given
        × (result ≡ done_code (changed_element size kept.old index element.now given)) }
    ensures others { (at : ℕ) → (IsOverLeaf size index at → ⊥)
        → get_or kept.new at [] ≡ get_or kept.old at [] }
    ensures long { length kept.new ≡ length kept.old }
    ensures kept { result ≢ pos 0 → kept.new ≡ kept.old }
{
    if !has_stored(kept, size) {
        return Refused::Size.code();
    }
    if index >= size {
        return Refused::Index.code();
    }
    match circom::change_element(table, kept, size, index, element) {
        Ok(()) => 0,
        Err(_) => Refused::Invalid.code(),
    }
}

/// Writes an element to its index in the memory of a log of `size` elements, and the hashes of the complete subtrees over it.
///
/// Answers: 0; else the first of `E_COUNT` for a table of another count of inputs, `E_SIZE` for fewer digests than such a log has
/// stored, `E_INDEX`, `E_INVALID` for an element that is not below the modulus; `E_MEMORY` in place of any. Where other digests are kept,
/// `E_INVALID` too for one that is not below the modulus. Each leaves the memory as before.
#[unsafe(no_mangle)]
pub extern "C" fn paxidore_poseidon_log_set(
    alloc: Global,
    kept: &mut [[u8; 32]],
    table: &[u8],
    size: usize,
    index: usize,
    element: &[u8; 32],
) -> i32
    // In a list of `size` elements whose stored digests are kept, the element at the index is changed.
    ensures answer { (inputs : ℕ) (c : Parameters) → SpellsTable inputs c table.now
        → (leaves : List Digest) → length leaves ≡ size → KeepsBy (node_outcome c) leaves kept.old
        → GivesCode (done_code (element_changed inputs size kept.old index element.now
        (Ok element.now))) result }

    // The memory keeps then the list with the element at the index.
    ensures changes { (inputs : ℕ) (c : Parameters) → SpellsTable inputs c table.now
        → result ≡ pos 0 → (leaves : List Digest) → length leaves ≡ size
        → KeepsBy (node_outcome c) leaves kept.old
        → KeepsBy (node_outcome c) (set leaves index element.now) kept.new }

    // Whatever is kept, some digests are written, or one that is hashed is no element.
    ensures given { (inputs : ℕ) (c : Parameters) → SpellsTable inputs c table.now
        → (given : Result Digest Refused) × OrInvalid given × GivesCode (done_code
        (element_changed inputs size kept.old index element.now given)) result }

    // No digest is written but those of the complete subtrees over the element, its own among them.
    ensures others { (at : ℕ) → (IsOverLeaf size index at → ⊥)
        → get_or kept.new at [] ≡ get_or kept.old at [] }
    ensures long { length kept.new ≡ length kept.old }
    ensures kept { result ≢ pos 0 → kept.new ≡ kept.old }
{
    match table_of_two(alloc, table) {
        Ok(table) => set_element(kept, &table, size, index, element),
        Err(refused) => refused.code(),
    }
}
