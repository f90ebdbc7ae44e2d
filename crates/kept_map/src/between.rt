//! Proofs of all that a map in memory has from one key to another.

ghost use Rattle.std.specs.Prelude.{◌≡◌, ◌≢◌, ◌≤◌, ◌+◌, take, length, false, true, Bool, IfErr, IfOk, List, OnOk, ℕ};
ghost use Rattle.kept_map.specs.Between.{between, IsBetween, IsTreeBetween};
ghost use Rattle.kept_map.specs.KeptMap.{fork_count, kept_hashes, KeepsMap, LaidAt};
ghost use Rattle.kept_map.specs.Many.{IsShownAt, IsWrittenAt};
ghost use Rattle.kept_map.specs.declared.prove.ProveFault.TheVariants.{OutOfMemory, Order};
ghost use Rattle.merkle_map.specs.Map.{Entry};
ghost use Rattle.merkle_map.specs.Tree.{Shape, StandsAt};

use crate::digests::LEVELS;
use crate::hash::KeptHash;
use crate::head::Head;
use crate::many::write_shown;
use crate::nodes::{Part, key_at, left_at, part_of, right_at, value_at};
use crate::prove::ProveFault;
use merkle_map::{push_entry, turns};
use std::alloc::Global;

// Writes the bytes of what a number names behind others, some levels below the root: without what lies outside from one key to
// another, which may be all of it. It takes the digests that are there. It meets no more forks than may still be met, and counts
// them.
//
// Errors: `NoMap`; `OutOfMemory`.
fn write_between<H: KeptHash>(
    entries: &[[u8; 64]],
    forks: &[[u8; 48]],
    number: u64,
    count: usize,
    level: usize,
    first: &[u8; 32],
    last: &[u8; 32],
    is_outside: bool,
    on_first: bool,
    on_last: bool,
    budget: &mut usize,
    bytes: &mut Vec<u8>,
) -> Result<(), ProveFault>
    requires inside { count ≤ length forks.now }
    ensures written { let h = kept_hashes H.leaf_hash H.node_hash H.nothing_hash in
        OnOk result (IsWrittenAt h entries.now forks.now number
        (between h is_outside on_first on_last level first.now last.now)
        bytes.old.items bytes.new.items) }
    ensures found { let h = kept_hashes H.leaf_hash H.node_hash H.nothing_hash in
        (first : ℕ) (tree : Shape) (bits : List Bool)
        → LaidAt h (take first entries.now) forks.now count number tree → StandsAt bits tree
        → length bits ≡ level → fork_count tree ≤ budget.old
        → IfErr result (λ fault. fault ≡ OutOfMemory) }
    ensures spent { let h = kept_hashes H.leaf_hash H.node_hash H.nothing_hash in
        OnOk result ((first : ℕ) (tree : Shape)
        → LaidAt h (take first entries.now) forks.now count number tree
        → budget.old ≤ budget.new + fork_count tree) }
    ensures fault { IfErr result (λ fault. fault ≢ Order) }
{
    if is_outside {
        return write_shown::<H>(entries, forks, number, count, level, &[], budget, bytes);
    }
    match part_of(number, entries.len(), count)? {
        Part::Nothing => {
            bytes.push(2)?;
            Ok(())
        }
        Part::Entry(place) => {
            let key = key_at(entries, place);
            push_entry(&key, &value_at(entries, place), bytes)?;
            Ok(())
        }
        Part::Fork(place) => {
            if level >= LEVELS || *budget == 0 {
                return Err(ProveFault::NoMap);
            }
            *budget -= 1;
            bytes.push(1)?;
            let low = turns(on_first, first, level, true);
            let high = turns(on_last, last, level, false);
            let left = left_at(forks, place);
            write_between::<H>(
                entries,
                forks,
                left,
                place,
                level + 1,
                first,
                last,
                low,
                on_first,
                high,
                budget,
                bytes,
            )?;
            let right = right_at(forks, place);
            write_between::<H>(
                entries,
                forks,
                right,
                place,
                level + 1,
                first,
                last,
                high,
                low,
                on_last,
                budget,
                bytes,
            )
        }
    }
}

/// Returns the proof of all that a map has from one key to another, both with them: the bytes of the map's tree without what lies
/// outside. `merkle_map::MapTree::next` finds the entries in it. It hashes what has no digest yet, and writes nothing: behind a call
/// of `root` it hashes leaves alone. It meets no more forks than the head says are there.
///
/// Errors: `OutOfMemory`; `NoMap` on memory that holds no map under the head.
pub fn prove_between<H: KeptHash>(
    alloc: Global,
    entries: &[[u8; 64]],
    forks: &[[u8; 48]],
    head: &Head,
    first: &[u8; 32],
    last: &[u8; 32],
) -> Result<Vec<u8>, ProveFault>
    ensures answer { let h = kept_hashes H.leaf_hash H.node_hash H.nothing_hash in
        IfOk result (λ bytes. (xs : List Entry) → KeepsMap h entries.now forks.now head.now xs
        → IsTreeBetween h first.now last.now xs bytes.items) }

    // Whoever reads it finds the map's root, and what the map has at each key there.
    ensures accepted { let h = kept_hashes H.leaf_hash H.node_hash H.nothing_hash in
        IfOk result (λ bytes. (xs : List Entry) → KeepsMap h entries.now forks.now head.now xs
        → IsShownAt h (IsBetween first.now last.now) xs bytes.items) }
    ensures found { let h = kept_hashes H.leaf_hash H.node_hash H.nothing_hash in
        (xs : List Entry) → KeepsMap h entries.now forks.now head.now xs
        → IfErr result (λ fault. fault ≡ OutOfMemory) }
    ensures fault { IfErr result (λ fault. fault ≢ Order) }
{
    if head.forks > forks.len() {
        return Err(ProveFault::NoMap);
    }
    let mut budget = head.forks;
    let mut bytes = Vec::new(alloc);
    write_between::<H>(
        entries,
        forks,
        head.top,
        head.forks,
        0,
        first,
        last,
        false,
        true,
        true,
        &mut budget,
        &mut bytes,
    )?;
    Ok(bytes)
}
