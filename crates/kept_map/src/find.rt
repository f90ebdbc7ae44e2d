//! What a map has at a key.

ghost use Rattle.std.specs.Prelude.{◌≡◌, ◌≤◌, ℕ, List, length, IfErr, IfOk, OnErr, Ok};
ghost use Rattle.kept_map.specs.KeptMap.{KeepsMap};
ghost use Rattle.kept_map.specs.Lying.{LiesOn};
ghost use Rattle.kept_map.specs.declared.head.MapFault.TheVariants.{NoMap};
ghost use Rattle.merkle_map.specs.Changes.{known_at};
ghost use Rattle.merkle_map.specs.Map.{value_at as value_in, Entry, MapHashes};
ghost use Rattle.merkle_map.specs.Tree.{Shape};

use crate::head::{Head, MapFault};
use crate::nodes::{Part, key_at, left_at, part_of, right_at, value_at};
use merkle_map::{are_same_keys, bit_of};

// Returns what a tree some levels below the top has at a key. The error is that no tree lies there.
fn find_in(
    entries: &[[u8; 64]],
    forks: &[[u8; 48]],
    number: u64,
    level: usize,
    key: &[u8; 32],
) -> Result<Option<[u8; 32]>, MapFault>
    requires within { level ≤ 256 }
    ensures found { IfOk result (λ found. (h : MapHashes) (tree : Shape)
        → LiesOn h entries.now forks.now (length forks.now) number level key.now tree
        → known_at level key.now tree ≡ Ok found) }
    ensures sound { OnErr result ((h : MapHashes) (tree : Shape)
        → LiesOn h entries.now forks.now (length forks.now) number level key.now tree → ⊥) }
    ensures fault { IfErr result (λ fault. fault ≡ NoMap) }
{
    match part_of(number, entries.len(), forks.len())? {
        Part::Nothing => Ok(None),
        Part::Entry(place) => {
            if are_same_keys(&key_at(entries, place), key) {
                return Ok(Some(value_at(entries, place)));
            }
            Ok(None)
        }
        Part::Fork(place) => {
            if level >= 256 {
                return Err(MapFault::NoMap);
            }
            if bit_of(key, level) {
                find_in(entries, forks, right_at(forks, place), level + 1, key)
            } else {
                find_in(entries, forks, left_at(forks, place), level + 1, key)
            }
        }
    }
}

/// Returns what a map has at a key. The error is that memory holds no map under this head.
pub fn get(
    entries: &[[u8; 64]],
    forks: &[[u8; 48]],
    head: &Head,
    key: &[u8; 32],
) -> Result<Option<[u8; 32]>, MapFault>
    ensures found { (h : MapHashes) (xs : List Entry) → KeepsMap h entries.now forks.now head.now xs
        → result ≡ Ok (value_in key.now xs) }
    ensures fault { IfErr result (λ fault. fault ≡ NoMap) }
{
    if head.entries > entries.len() || head.forks > forks.len() {
        return Err(MapFault::NoMap);
    }
    find_in(
        &entries[..head.entries],
        &forks[..head.forks],
        head.top,
        0,
        key,
    )
}
