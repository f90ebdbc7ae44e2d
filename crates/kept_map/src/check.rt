//! Whether memory holds a map.

ghost use Rattle.std.specs.Prelude.{◌≡◌, ◌<◌, ◌≤◌, ◌+◌, ◌*◌, ◌∷◌, true, false, length, IfErr, IfOk, IsOk, List, ℕ, Ok};
ghost use Rattle.kept_map.specs.Checking.{path_bits, IsTreeAt};
ghost use Rattle.kept_map.specs.Digests.{IsDigestAt};
ghost use Rattle.kept_map.specs.KeptMap.{fork_count, kept_hashes, KeepsMap, LaidAt};
ghost use Rattle.kept_map.specs.declared.head.MapFault.TheVariants.{NoMap};
ghost use Rattle.merkle_map.specs.Map.{root_of_map, Entry};
ghost use Rattle.merkle_map.specs.Tree.{IsKey, Shape, StandsAt, way};

use crate::digests::{LEVELS, is_kept_for};
use crate::hash::KeptHash;
use crate::head::{Head, MapFault};
use crate::nodes::{Part, kept_digest, key_at, left_at, part_of, right_at};
use merkle_map::bit_of;

// Returns how many entries a number stands for at least: 2 for a fork.
fn weight_of(number: u64) -> usize
    ensures nothing { number ≡ 0 → result ≡ 0 }
    ensures entry { (k : ℕ) → number ≡ 2 * k + 1 → result ≡ 1 }
    ensures fork { (k : ℕ) → number ≡ 2 * k + 2 → result ≡ 2 }
    ensures small { result ≤ 2 }
{
    if number == 0 {
        return 0;
    }
    if number % 2 == 1 {
        return 1;
    }
    2
}

// Returns whether the first bits of a key, so many, are these.
fn is_on(key: &[u8; 32], path: &[bool; 256], level: usize) -> bool
    requires { level ≤ 256 }
    ensures on { result ≡ true → way level key.now ≡ path_bits level path.now }
    ensures off { result ≡ false → ¬ (way level key.now ≡ path_bits level path.now) }
    ensures key { IsKey key.now }
{
    'bits: for n in 0..level {
        if bit_of(key, n) != path[n] {
            return false;
        }
    }
    true
}

// Returns a path with another bit at a level.
fn with_bit(path: &[bool; 256], level: usize, bit: bool) -> [bool; 256]
    requires { level < 256 }
    ensures { path_bits (level + 1) result ≡ bit ∷ path_bits level path.now }
{
    let mut changed = *path;
    changed[level] = bit;
    changed
}

// Hashes again what a number names where the first bits of a path lead, so many, and returns its digest. It hashes no more forks
// than may still be hashed, and counts them. Errors: `NoMap`.
fn check_in<H: KeptHash>(
    entries: &[[u8; 64]],
    forks: &[[u8; 48]],
    number: u64,
    count: usize,
    path: &[bool; 256],
    level: usize,
    budget: &mut usize,
) -> Result<[u8; 32], MapFault>
    requires inside { count ≤ length forks.now }
    requires short { level ≤ 256 }
    ensures digest { let h = kept_hashes H.leaf_hash H.node_hash H.nothing_hash in
        IfOk result (λ digest. IsDigestAt h entries.now forks.now number digest) }
    ensures tree { let h = kept_hashes H.leaf_hash H.node_hash H.nothing_hash in
        IfOk result (λ _. IsTreeAt h entries.now forks.now count number (path_bits level path.now)
        budget.old budget.new) }
    ensures found { let h = kept_hashes H.leaf_hash H.node_hash H.nothing_hash in
        (tree : Shape) → LaidAt h entries.now forks.now count number tree
        → StandsAt (path_bits level path.now) tree → fork_count tree ≤ budget.old → IsOk result }
    ensures spent { let h = kept_hashes H.leaf_hash H.node_hash H.nothing_hash in
        IfOk result (λ _. (tree : Shape) → LaidAt h entries.now forks.now count number tree
        → budget.old ≤ budget.new + fork_count tree) }
    ensures fault { IfErr result (λ fault. fault ≡ NoMap) }
{
    match part_of(number, entries.len(), count)? {
        Part::Nothing => Ok(H::nothing()),
        Part::Entry(place) => {
            if !is_on(&key_at(entries, place), path, level) {
                return Err(MapFault::NoMap);
            }
            Ok(H::leaf(&entries[place]))
        }
        Part::Fork(place) => {
            let left = left_at(forks, place);
            let right = right_at(forks, place);
            if level >= LEVELS || *budget == 0 || weight_of(left) + weight_of(right) < 2 {
                return Err(MapFault::NoMap);
            }
            *budget -= 1;
            let low = with_bit(path, level, false);
            let l = check_in::<H>(entries, forks, left, place, &low, level + 1, budget)?;
            let high = with_bit(path, level, true);
            let r = check_in::<H>(entries, forks, right, place, &high, level + 1, budget)?;
            let digest = H::node(&l, &r);
            if !is_kept_for(&kept_digest(forks, place), &digest) {
                return Err(MapFault::NoMap);
            }
            Ok(digest)
        }
    }
}

/// Returns the root of the map that memory of strangers holds under a head. It hashes the whole map again, and never more forks than
/// the head says are there: `Ok` says that the memory holds a map, with digests that are right or still to be hashed.
///
/// The error is `NoMap`: the memory holds no map under the head.
pub fn check<H: KeptHash>(
    entries: &[[u8; 64]],
    forks: &[[u8; 48]],
    head: &Head,
) -> Result<[u8; 32], MapFault>
    ensures map { let h = kept_hashes H.leaf_hash H.node_hash H.nothing_hash in
        IfOk result (λ digest. (xs : List Entry) × KeepsMap h entries.now forks.now head.now xs
        × (root_of_map h xs ≡ Ok digest)) }
    ensures found { let h = kept_hashes H.leaf_hash H.node_hash H.nothing_hash in
        (xs : List Entry) → KeepsMap h entries.now forks.now head.now xs → IsOk result }
    ensures fault { IfErr result (λ fault. fault ≡ NoMap) }
{
    if head.entries > entries.len() || head.forks > forks.len() {
        return Err(MapFault::NoMap);
    }
    let mut budget = head.forks;
    let path = [false; 256];
    check_in::<H>(
        &entries[..head.entries],
        &forks[..head.forks],
        head.top,
        head.forks,
        &path,
        0,
        &mut budget,
    )
}
