//! The entries of a map in memory, one after another.

ghost use Rattle.std.specs.Prelude.{◌≡◌, ◌<◌, ◌≤◌, take, length, Bool, IfErr, IfOk, IsOk, List, MatchOption, IfSome, ℕ};
ghost use Rattle.kept_map.specs.KeptMap.{KeepsMap, LaidAt};
ghost use Rattle.kept_map.specs.Order.{IsFirstAt, IsNextAt};
ghost use Rattle.kept_map.specs.declared.head.MapFault.TheVariants.{NoMap};
ghost use Rattle.merkle_map.specs.Changes.{entry_of};
ghost use Rattle.merkle_map.specs.Map.{Entry, MapHashes};
ghost use Rattle.merkle_map.specs.Order.{HasNoneFrom, IsNextEntry};
ghost use Rattle.merkle_map.specs.Tree.{Shape, StandsAt, way};

use crate::digests::LEVELS;
use crate::head::{Head, MapFault};
use crate::nodes::{Part, key_at, left_at, part_of, right_at, value_at};
use merkle_map::{bit_of, is_key_below};

// Returns the place of the first entry that a number leads to, some levels below the root. Errors: `NoMap`, also where it names
// nothing.
fn first_in(
    entries: &[[u8; 64]],
    forks: &[[u8; 48]],
    number: u64,
    count: usize,
    level: usize,
) -> Result<usize, MapFault>
    requires { count ≤ length forks.now }
    ensures place { IfOk result (λ place. place < length entries.now) }
    ensures first { IfOk result (λ place. IsFirstAt entries.now forks.now number place) }
    ensures found { (h : MapHashes) (first : ℕ) (tree : Shape) (bits : List Bool)
        → LaidAt h (take first entries.now) forks.now count number tree → StandsAt bits tree
        → length bits ≡ level → ¬ (number ≡ 0) → IsOk result }
    ensures fault { IfErr result (λ fault. fault ≡ NoMap) }
{
    match part_of(number, entries.len(), count)? {
        Part::Nothing => Err(MapFault::NoMap),
        Part::Entry(place) => Ok(place),
        Part::Fork(place) => {
            if level >= LEVELS {
                return Err(MapFault::NoMap);
            }
            let left = left_at(forks, place);
            if left == 0 {
                first_in(entries, forks, right_at(forks, place), place, level + 1)
            } else {
                first_in(entries, forks, left, place, level + 1)
            }
        }
    }
}

// Returns the place of the first entry at or above a key that a number leads to, some levels below the root. Errors: `NoMap`.
fn next_in(
    entries: &[[u8; 64]],
    forks: &[[u8; 48]],
    number: u64,
    count: usize,
    level: usize,
    from: &[u8; 32],
) -> Result<Option<usize>, MapFault>
    requires { count ≤ length forks.now }
    ensures place { IfOk result (λ found. IfSome found (λ place. place < length entries.now)) }
    ensures next { IfOk result (IsNextAt entries.now forks.now number level from.now) }
    ensures found { (h : MapHashes) (first : ℕ) (tree : Shape)
        → LaidAt h (take first entries.now) forks.now count number tree
        → StandsAt (way level from.now) tree → IsOk result }
    ensures fault { IfErr result (λ fault. fault ≡ NoMap) }
{
    match part_of(number, entries.len(), count)? {
        Part::Nothing => Ok(None),
        Part::Entry(place) => {
            if is_key_below(&key_at(entries, place), from) {
                return Ok(None);
            }
            Ok(Some(place))
        }
        Part::Fork(place) => {
            if level >= LEVELS {
                return Err(MapFault::NoMap);
            }
            let left = left_at(forks, place);
            let right = right_at(forks, place);
            if bit_of(from, level) {
                return next_in(entries, forks, right, place, level + 1, from);
            }
            let found = next_in(entries, forks, left, place, level + 1, from)?;
            if found.is_some() || right == 0 {
                return Ok(found);
            }
            let first = first_in(entries, forks, right, place, level + 1)?;
            Ok(Some(first))
        }
    }
}

/// Returns the entry with the least key that is not below another, or `None` where there is none: its key and its value. From the
/// key of 32 zeros on, and from one above each key that was found, these are all entries.
///
/// The error, on memory that holds no map under the head, is `NoMap`.
pub fn next(
    entries: &[[u8; 64]],
    forks: &[[u8; 48]],
    head: &Head,
    from: &[u8; 32],
) -> Result<Option<([u8; 32], [u8; 32])>, MapFault>
    ensures next { IfOk result (λ found. (h : MapHashes) (xs : List Entry)
        → KeepsMap h entries.now forks.now head.now xs
        → MatchOption found (HasNoneFrom from.now xs)
        (λ pair. IsNextEntry from.now xs (entry_of pair.0 pair.1))) }
    ensures found { (h : MapHashes) (xs : List Entry)
        → KeepsMap h entries.now forks.now head.now xs → IsOk result }
    ensures fault { IfErr result (λ fault. fault ≡ NoMap) }
{
    if head.forks > forks.len() {
        return Err(MapFault::NoMap);
    }
    let found = next_in(entries, forks, head.top, head.forks, 0, from)?;
    match found {
        None => Ok(None),
        Some(place) => Ok(Some((key_at(entries, place), value_at(entries, place)))),
    }
}
