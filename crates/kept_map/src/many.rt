//! Proofs of what a map in memory has at many keys.

ghost use Rattle.std.specs.Prelude.{◌≡◌, ◌≢◌, ◌<◌, ◌≤◌, ◌+◌, take, length, true, false, Bool, IfErr, IfNone, IfOk, IfSome, IsOk, List, OnOk, ℕ, Err};
ghost use Rattle.kept_map.specs.KeptMap.{fork_count, kept_hashes, KeepsMap, LaidAt};
ghost use Rattle.kept_map.specs.Many.{AreSorted, IsHiddenBy, IsParted, IsRising, IsShownAt, IsTreeFor, IsWrittenAt};
ghost use Rattle.kept_map.specs.declared.head.MapFault.TheVariants.{NoMap as NoMapHere};
ghost use Rattle.kept_map.specs.declared.prove.ProveFault.TheVariants.{OutOfMemory, Order};
ghost use Rattle.merkle_map.specs.Map.{Entry};
ghost use Rattle.merkle_map.specs.Pruned.{keys_with, pruned, IsAmong};
ghost use Rattle.merkle_map.specs.Tree.{Shape, StandsAt};

use crate::digests::{LEVELS, are_same_digests};
use crate::hash::KeptHash;
use crate::head::{Head, MapFault};
use crate::nodes::{Part, key_at, left_at, part_of, right_at, value_at};
use crate::prove::{ProveFault, digest_of};
use merkle_map::{bit_of, is_key_below, push_entry, push_hidden};
use std::alloc::Global;

// Returns whether no key is below the one before it.
fn are_rising(keys: &[[u8; 32]]) -> bool
    ensures yes { result ≡ true → IsRising keys.now }
    ensures no { result ≡ false → ¬ IsRising keys.now }
{
    'keys: for n in 1..keys.len() {
        if is_key_below(&keys[n], &keys[n - 1]) {
            return false;
        }
    }
    true
}

// Returns how many keys have 0 at a bit.
fn zeros_of(keys: &[[u8; 32]], level: usize) -> usize
    requires within { level < 256 }
    requires sorted { AreSorted level keys.now }
    ensures { IsParted level keys.now result }
{
    'keys: for n in 0..keys.len() {
        if bit_of(&keys[n], level) {
            return n;
        }
    }
    keys.len()
}

// Returns the keys that have 0 at a bit, and those that have 1.
fn sides_of(keys: &[[u8; 32]], level: usize) -> (&[[u8; 32]], &[[u8; 32]])
    requires within { level < 256 }
    requires sorted { AreSorted level keys.now }
    ensures left { keys_with false level keys.now ≡ result.0.now }
    ensures right { keys_with true level keys.now ≡ result.1.now }
    ensures left_sorted { AreSorted (level + 1) result.0.now }
    ensures right_sorted { AreSorted (level + 1) result.1.now }
{
    keys.split_at(zeros_of(keys, level))
}

// Returns the digest that hides a fork some levels below the root, or `None`: the fork is on the way of a key, or has the digest of
// nothing. It hashes no more forks than may still be met, and counts them. Errors: `NoMap`.
fn digest_to_hide<H: KeptHash>(
    entries: &[[u8; 64]],
    forks: &[[u8; 48]],
    number: u64,
    count: usize,
    level: usize,
    keys: &[[u8; 32]],
    budget: &mut usize,
) -> Result<Option<[u8; 32]>, MapFault>
    requires { count ≤ length forks.now }
    ensures hidden { let h = kept_hashes H.leaf_hash H.node_hash H.nothing_hash in
        IfOk result (IsHiddenBy h entries.now forks.now number keys.now) }
    ensures sized { IfOk result (λ found. IfSome found (λ digest. length digest ≡ 32)) }
    ensures found { let h = kept_hashes H.leaf_hash H.node_hash H.nothing_hash in
        (first : ℕ) (tree : Shape) (bits : List Bool)
        → LaidAt h (take first entries.now) forks.now count number tree → StandsAt bits tree
        → length bits ≡ level → fork_count tree ≤ budget.old → IsOk result }
    ensures spent { let h = kept_hashes H.leaf_hash H.node_hash H.nothing_hash in
        IfOk result (λ _. (first : ℕ) (tree : Shape)
        → LaidAt h (take first entries.now) forks.now count number tree
        → budget.old ≤ budget.new + fork_count tree) }
    ensures same { IfOk result (λ found. IfNone found (budget.new ≡ budget.old)) }
    ensures fault { IfErr result (λ fault. fault ≡ NoMapHere) }
{
    if !keys.is_empty() {
        return Ok(None);
    }
    let before = *budget;
    let digest = digest_of::<H>(entries, forks, number, count, level, budget)?;
    if are_same_digests(&digest, &H::nothing()) {
        *budget = before;
        return Ok(None);
    }
    Ok(Some(digest))
}

/// Writes the bytes of what a number names behind others, some levels below the root: without what no key's way meets. It takes the
/// digests that are there. It meets no more forks than may still be met, and counts them.
///
/// Errors: `NoMap`; `OutOfMemory`.
pub(crate) fn write_shown<H: KeptHash>(
    entries: &[[u8; 64]],
    forks: &[[u8; 48]],
    number: u64,
    count: usize,
    level: usize,
    keys: &[[u8; 32]],
    budget: &mut usize,
    bytes: &mut Vec<u8>,
) -> Result<(), ProveFault>
    requires inside { count ≤ length forks.now }
    requires sorted { AreSorted level keys.now }
    ensures written { let h = kept_hashes H.leaf_hash H.node_hash H.nothing_hash in
        OnOk result (IsWrittenAt h entries.now forks.now number
        (pruned h false false level keys.now) bytes.old.items bytes.new.items) }
    ensures found { let h = kept_hashes H.leaf_hash H.node_hash H.nothing_hash in
        (first : ℕ) (tree : Shape) (bits : List Bool)
        → LaidAt h (take first entries.now) forks.now count number tree → StandsAt bits tree
        → length bits ≡ level → fork_count tree ≤ budget.old
        → IfErr result (λ fault. fault ≡ OutOfMemory) }
    ensures spent { let h = kept_hashes H.leaf_hash H.node_hash H.nothing_hash in
        OnOk result ((first : ℕ) (tree : Shape)
        → LaidAt h (take first entries.now) forks.now count number tree
        → budget.old ≤ budget.new + fork_count tree) }
    ensures fault { IfErr result (λ fault. fault ≢ Order) }
{
    match part_of(number, entries.len(), count)? {
        Part::Nothing => {
            bytes.push(2)?;
            Ok(())
        }
        Part::Entry(place) => {
            let key = key_at(entries, place);
            push_entry(&key, &value_at(entries, place), bytes)?;
            Ok(())
        }
        Part::Fork(place) => {
            if level >= LEVELS || *budget == 0 {
                return Err(ProveFault::NoMap);
            }
            match digest_to_hide::<H>(entries, forks, number, count, level, keys, budget)? {
                Some(digest) => {
                    push_hidden(&digest, bytes)?;
                    Ok(())
                }
                None => {
                    *budget -= 1;
                    let (on_left, on_right) = sides_of(keys, level);
                    bytes.push(1)?;
                    let below = level + 1;
                    let left = left_at(forks, place);
                    write_shown::<H>(entries, forks, left, place, below, on_left, budget, bytes)?;
                    let right = right_at(forks, place);
                    write_shown::<H>(entries, forks, right, place, below, on_right, budget, bytes)
                }
            }
        }
    }
}

/// Returns the proof of what a map has at some keys that rise: the bytes of the tree that `merkle_map::MapTree::prove` makes of the
/// map's. It hashes what has no digest yet, and writes nothing: behind a call of `root` it hashes leaves alone. It meets no more
/// forks than the head says are there.
///
/// Errors: `Order`, where a key is below the one before it; `OutOfMemory`; `NoMap` on memory that holds no map under the head.
pub fn prove_many<H: KeptHash>(
    alloc: Global,
    entries: &[[u8; 64]],
    forks: &[[u8; 48]],
    head: &Head,
    keys: &[[u8; 32]],
) -> Result<Vec<u8>, ProveFault>
    ensures answer { let h = kept_hashes H.leaf_hash H.node_hash H.nothing_hash in
        IfOk result (λ bytes. (xs : List Entry) → KeepsMap h entries.now forks.now head.now xs
        → IsTreeFor h keys.now xs bytes.items) }

    // Whoever reads it finds the map's root, and what the map has at each of the keys.
    ensures accepted { let h = kept_hashes H.leaf_hash H.node_hash H.nothing_hash in
        IfOk result (λ bytes. (xs : List Entry) → KeepsMap h entries.now forks.now head.now xs
        → IsShownAt h (λ key. IsAmong key keys.now) xs bytes.items) }
    ensures found { let h = kept_hashes H.leaf_hash H.node_hash H.nothing_hash in
        (xs : List Entry) → KeepsMap h entries.now forks.now head.now xs → IsRising keys.now
        → IfErr result (λ fault. fault ≡ OutOfMemory) }

    // Keys that do not rise are refused, and no others.
    ensures order { ¬ IsRising keys.now → result ≡ Err Order }
    ensures rising { IsRising keys.now → IfErr result (λ fault. fault ≢ Order) }
{
    if !are_rising(keys) {
        return Err(ProveFault::Order);
    }
    if head.forks > forks.len() {
        return Err(ProveFault::NoMap);
    }
    let mut budget = head.forks;
    let mut bytes = Vec::new(alloc);
    write_shown::<H>(
        entries,
        forks,
        head.top,
        head.forks,
        0,
        keys,
        &mut budget,
        &mut bytes,
    )?;
    Ok(bytes)
}
