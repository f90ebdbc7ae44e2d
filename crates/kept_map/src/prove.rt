//! Proofs of what a map in memory has at a key.

ghost use Rattle.std.specs.Prelude.{◌≡◌, ◌≢◌, ◌<◌, ◌≤◌, ◌+◌, take, length, Bool, IfErr, IfOk, IsOk, List, ℕ, Ok};
ghost use Rattle.ark_base.specs.Digits.{itself};
ghost use Rattle.kept_map.specs.Digests.{IsDigestAt, IsProofAt};
ghost use Rattle.kept_map.specs.KeptMap.{fork_count, kept_hashes, entry_in, KeepsMap, LaidAt};
ghost use Rattle.kept_map.specs.declared.head.MapFault.TheVariants.{NoMap};
ghost use Rattle.kept_map.specs.declared.prove.ProveFault.TheVariants.{OutOfMemory, NoMap as NoMapHere, Order};
ghost use Rattle.merkle_map.specs.Kept.{IsShownIn, IsTreeOf};
ghost use Rattle.merkle_map.specs.KeyProof.{end_at, end_seen, proof_at, proof_seen, seen_with};
ghost use Rattle.merkle_map.specs.Map.{Entry as EntryOf};
ghost use Rattle.merkle_map.specs.Tree.{Shape, StandsAt, way};

use crate::digests::{LEVELS, is_unhashed};
use crate::hash::KeptHash;
use crate::head::{Head, MapFault};
use crate::nodes::{Part, kept_digest, key_at, left_at, part_of, right_at, value_at};
use ark_base::error::Error;
use merkle_map::{End, Entry, KeyProof, are_same_keys, bit_of};
use std::alloc::{AllocError, AllocFailed, Global};

/// Why there is no proof.
#[derive(Clone, Copy, Debug, PartialEq, Eq)]
pub enum ProveFault {
    /// There is no room for the digests beside the key's way.
    OutOfMemory,
    /// The memory holds no map under this head.
    NoMap,
    /// A key is below the one before it.
    Order,
}

impl From<MapFault> for ProveFault {
    ghost from_gives = { λ _ fault. fault ≡ NoMapHere };

    fn from(_fault: MapFault) -> ProveFault {
        ProveFault::NoMap
    }
}

// The writers of bytes have no error but `OutOfMemory`.
impl From<Error> for ProveFault {
    ghost from_gives = { λ _ fault. fault ≡ OutOfMemory };

    fn from(_refused: Error) -> ProveFault {
        ProveFault::OutOfMemory
    }
}

impl<T: Drop> From<AllocFailed<T>> for ProveFault {
    ghost from_gives = { λ _ fault. fault ≡ OutOfMemory };

    fn from(_refused: AllocFailed<T>) -> ProveFault {
        ProveFault::OutOfMemory
    }
}

/// Hashes what a number names some levels below the root, as far as no digest is there. It hashes no more forks than may still be
/// hashed, and counts them. Errors: `NoMap`.
pub(crate) fn digest_of<H: KeptHash>(
    entries: &[[u8; 64]],
    forks: &[[u8; 48]],
    number: u64,
    count: usize,
    level: usize,
    budget: &mut usize,
) -> Result<[u8; 32], MapFault>
    requires { count ≤ length forks.now }
    ensures digest { let h = kept_hashes H.leaf_hash H.node_hash H.nothing_hash in
        IfOk result (λ digest. IsDigestAt h entries.now forks.now number digest) }
    ensures found { let h = kept_hashes H.leaf_hash H.node_hash H.nothing_hash in
        (first : ℕ) (tree : Shape) (bits : List Bool)
        → LaidAt h (take first entries.now) forks.now count number tree → StandsAt bits tree
        → length bits ≡ level → fork_count tree ≤ budget.old → IsOk result }
    ensures spent { let h = kept_hashes H.leaf_hash H.node_hash H.nothing_hash in
        IfOk result (λ _. (first : ℕ) (tree : Shape)
        → LaidAt h (take first entries.now) forks.now count number tree
        → budget.old ≤ budget.new + fork_count tree) }
    ensures fault { IfErr result (λ fault. fault ≡ NoMap) }
{
    match part_of(number, entries.len(), count)? {
        Part::Nothing => Ok(H::nothing()),
        Part::Entry(place) => Ok(H::leaf(&entries[place])),
        Part::Fork(place) => {
            let kept = kept_digest(forks, place);
            if !is_unhashed(&kept) {
                return Ok(kept);
            }
            if level >= LEVELS || *budget == 0 {
                return Err(MapFault::NoMap);
            }
            *budget -= 1;
            let left = digest_of::<H>(
                entries,
                forks,
                left_at(forks, place),
                place,
                level + 1,
                budget,
            )?;
            let right = digest_of::<H>(
                entries,
                forks,
                right_at(forks, place),
                place,
                level + 1,
                budget,
            )?;
            Ok(H::node(&left, &right))
        }
    }
}

// Makes the end at an entry.
fn end_of(key: &[u8; 32], entries: &[[u8; 64]], place: usize) -> End
    requires { place < length entries.now }
    ensures { end_seen result ≡ end_at key.now (entry_in entries.now place) }
{
    let own = key_at(entries, place);
    if are_same_keys(&own, key) {
        return End::Own;
    }
    End::Other {
        entry: Entry {
            key: own,
            value: value_at(entries, place),
        },
    }
}

// Finds the end of a key's way below a number, as many levels below the root as there are digests, and puts the digests beside
// the way behind those. Errors, which may leave some: `NoMap`, `OutOfMemory`.
fn climb_down<H: KeptHash>(
    entries: &[[u8; 64]],
    forks: &[[u8; 48]],
    number: u64,
    count: usize,
    key: &[u8; 32],
    budget: &mut usize,
    siblings: &mut Vec<[u8; 32]>,
) -> Result<End, ProveFault>
    requires { count ≤ length forks.now }
    ensures proof { let h = kept_hashes H.leaf_hash H.node_hash H.nothing_hash in
        IfOk result (λ end. IsProofAt h entries.now forks.now number key.now siblings.old.items
        (seen_with siblings.new.items end)) }
    ensures found { let h = kept_hashes H.leaf_hash H.node_hash H.nothing_hash in
        (first : ℕ) (tree : Shape) → LaidAt h (take first entries.now) forks.now count number tree
        → StandsAt (way (length siblings.old.items) key.now) tree → fork_count tree ≤ budget.old
        → IfErr result (λ fault. fault ≡ OutOfMemory) }
    ensures fault { IfErr result (λ fault. fault ≢ Order) }
{
    match part_of(number, entries.len(), count)? {
        Part::Nothing => Ok(End::Nothing),
        Part::Entry(place) => Ok(end_of(key, entries, place)),
        Part::Fork(place) => {
            let level = siblings.len();
            if level >= LEVELS {
                return Err(ProveFault::NoMap);
            }
            let left = left_at(forks, place);
            let right = right_at(forks, place);
            if bit_of(key, level) {
                let digest = digest_of::<H>(entries, forks, left, place, level + 1, budget)?;
                siblings.push(digest)?;
                climb_down::<H>(entries, forks, right, place, key, budget, siblings)
            } else {
                let digest = digest_of::<H>(entries, forks, right, place, level + 1, budget)?;
                siblings.push(digest)?;
                climb_down::<H>(entries, forks, left, place, key, budget, siblings)
            }
        }
    }
}

/// Returns the proof of what a map has at a key. It hashes what has no digest yet, and writes nothing: behind a call of `root` it
/// hashes leaves alone, and never more forks than the head says are there.
///
/// Errors: `OutOfMemory`; `NoMap` on memory that holds no map under the head.
pub fn prove<H: KeptHash>(
    alloc: Global,
    entries: &[[u8; 64]],
    forks: &[[u8; 48]],
    head: &Head,
    key: &[u8; 32],
) -> Result<KeyProof<[u8; 32]>, ProveFault>
    // It is that of the map's tree.
    ensures answer { let h = kept_hashes H.leaf_hash H.node_hash H.nothing_hash in
        IfOk result (λ proof. (xs : List EntryOf) → KeepsMap h entries.now forks.now head.now xs
        → (tree : Shape) × IsTreeOf xs tree
        × (proof_at h 0 key.now tree ≡ Ok (proof_seen itself proof))) }

    // The map's root accepts it.
    ensures accepted { let h = kept_hashes H.leaf_hash H.node_hash H.nothing_hash in
        IfOk result (λ proof. (xs : List EntryOf) → KeepsMap h entries.now forks.now head.now xs
        → IsShownIn h key.now xs (proof_seen itself proof)) }
    ensures found { let h = kept_hashes H.leaf_hash H.node_hash H.nothing_hash in
        (xs : List EntryOf) → KeepsMap h entries.now forks.now head.now xs
        → IfErr result (λ fault. fault ≡ OutOfMemory) }
    ensures fault { IfErr result (λ fault. fault ≢ Order) }
{
    if head.forks > forks.len() {
        return Err(ProveFault::NoMap);
    }
    let mut budget = head.forks;
    let mut siblings = Vec::new(alloc);
    let end = climb_down::<H>(
        entries,
        forks,
        head.top,
        head.forks,
        key,
        &mut budget,
        &mut siblings,
    )?;
    Ok(KeyProof { end, siblings })
}
