//! Where two maps in one memory differ.

ghost use Rattle.std.specs.Prelude.{◌≡◌, ◌<◌, ◌≤◌, ◌+◌, take, length, false, true, Bool, IfErr, IfOk, IfSome, IsOk, List, MatchOption, ℕ, None};
ghost use Rattle.kept_map.specs.Differ.{half_shape, DifferAtBoth, HaveSameFrom, HaveSameReached, IsDifference, IsEnds, IsFirstReached, IsFoundAt, LieBoth};
ghost use Rattle.kept_map.specs.KeptMap.{entry_in, fork_count, KeepsMap, LaidAt};
ghost use Rattle.kept_map.specs.Parts.{part_number, IsThere};
ghost use Rattle.kept_map.specs.declared.head.MapFault.TheVariants.{NoMap};
ghost use Rattle.kept_map.specs.declared.nodes.Part.TheVariants.{Entry as EntryAt};
ghost use Rattle.merkle_map.specs.Map.{Entry, MapHashes};
ghost use Rattle.merkle_map.specs.Tree.{IsKey, Shape};

use crate::digests::LEVELS;
use crate::find::get;
use crate::head::{Head, MapFault};
use crate::nodes::{Part, key_at, left_at, part_of, right_at, value_at};
use merkle_map::{are_same_keys, is_key_below, turns};

/// A key at which two maps differ, with what each has there.
#[derive(Clone, Copy, Debug, PartialEq, Eq)]
pub struct Difference {
    pub key: [u8; 32],
    pub older: Option<[u8; 32]>,
    pub newer: Option<[u8; 32]>,
}

/// What two trees of at most one entry are, or that one is a fork.
#[derive(Clone, Copy, Debug, PartialEq, Eq)]
pub enum Ends {
    /// They have the same.
    Alike,
    /// They differ at the keys of two entries, or of one, and nowhere else.
    Apart { lower: usize, higher: usize },
    /// One is a fork.
    Forks,
}

// Returns the key of an entry.
fn own_key(entries: &[[u8; 64]], place: usize) -> [u8; 32]
    requires { place < length entries.now }
    ensures own { result ≡ (entry_in entries.now place).key }
    ensures key { IsKey result }
{
    key_at(entries, place)
}

// Returns how two entries differ.
fn entries_apart(entries: &[[u8; 64]], older: usize, newer: usize) -> Ends
    requires older { older < length entries.now }
    requires newer { newer < length entries.now }
    ensures { IsEnds entries.now (EntryAt older) (EntryAt newer) result }
{
    let a = own_key(entries, older);
    let b = own_key(entries, newer);
    if are_same_keys(&a, &b) {
        if are_same_keys(&value_at(entries, older), &value_at(entries, newer)) {
            return Ends::Alike;
        }
        return Ends::Apart {
            lower: older,
            higher: older,
        };
    }
    if is_key_below(&a, &b) {
        return Ends::Apart {
            lower: older,
            higher: newer,
        };
    }
    Ends::Apart {
        lower: newer,
        higher: older,
    }
}

// Returns what two parts are.
fn ends_of(entries: &[[u8; 64]], older: Part, newer: Part, forks: usize) -> Ends
    requires older { IsThere (length entries.now) forks older }
    requires newer { IsThere (length entries.now) forks newer }
    ensures { IsEnds entries.now older newer result }
{
    match older {
        Part::Nothing => match newer {
            Part::Nothing => Ends::Alike,
            Part::Entry(place) => Ends::Apart {
                lower: place,
                higher: place,
            },
            Part::Fork(_) => Ends::Forks,
        },
        Part::Entry(place) => match newer {
            Part::Nothing => Ends::Apart {
                lower: place,
                higher: place,
            },
            Part::Entry(other) => entries_apart(entries, place, other),
            Part::Fork(_) => Ends::Forks,
        },
        Part::Fork(_) => Ends::Forks,
    }
}

// Returns the first of two entries whose key is reached, where the trees may stand on a key's way.
fn reached(
    entries: &[[u8; 64]],
    lower: usize,
    higher: usize,
    from: &[u8; 32],
    is_on: bool,
) -> Option<usize>
    requires lower { lower < length entries.now }
    requires higher { higher < length entries.now }
    ensures place { IfSome result (λ place. place < length entries.now) }
    ensures found { (xs ys : List Entry)
        → DifferAtBoth xs ys (entry_in entries.now lower).key (entry_in entries.now higher).key
        → MatchOption result (HaveSameReached is_on from.now xs ys)
        (λ place. IsFirstReached is_on from.now xs ys (entry_in entries.now place).key) }
{
    if !is_on || !is_key_below(&key_at(entries, lower), from) {
        return Some(lower);
    }
    if !is_key_below(&key_at(entries, higher), from) {
        return Some(higher);
    }
    None
}

// Returns the number of one side of a part with this number, some levels below the root.
fn half_of(
    forks: &[[u8; 48]],
    entries: &[[u8; 64]],
    part: Part,
    number: u64,
    level: usize,
    bit: bool,
) -> u64
    requires within { level < 256 }
    requires number { part_number part ≡ number }
    requires there { IsThere (length entries.now) (length forks.now) part }
    ensures { (h : MapHashes) (first count : ℕ) (tree : Shape)
        → LaidAt h (take first entries.now) forks.now count number tree → count ≤ length forks.now
        → (some : ℕ) × (some ≤ length forks.now)
        × LaidAt h (take first entries.now) forks.now some result (half_shape bit level tree) }
{
    match part {
        Part::Nothing => 0,
        Part::Entry(place) => {
            if turns(true, &key_at(entries, place), level, bit) {
                return number;
            }
            0
        }
        Part::Fork(place) => {
            if bit {
                return right_at(forks, place);
            }
            left_at(forks, place)
        }
    }
}

// Returns the place of the entry whose key is the first at which the trees at two numbers differ, some levels below the root, where
// they may lie outside, or stand on a key's way. What has the same number is the same, and is passed over. It meets no more forks than
// may still be met, and counts them. Errors: `NoMap`.
fn differ_in(
    entries: &[[u8; 64]],
    forks: &[[u8; 48]],
    older: u64,
    newer: u64,
    level: usize,
    from: &[u8; 32],
    is_outside: bool,
    is_on: bool,
    budget: &mut usize,
) -> Result<Option<usize>, MapFault>
    ensures place { IfOk result (λ found. IfSome found (λ place. place < length entries.now)) }
    ensures next { is_outside ≡ false
        → IfOk result (IsFoundAt entries.now forks.now older newer level is_on from.now) }
    ensures none { is_outside ≡ true → IfOk result (λ found. found ≡ None) }
    ensures found { (h : MapHashes) (bits : List Bool) (s t : Shape)
        → LieBoth h entries.now forks.now older newer bits s t → length bits ≡ level
        → fork_count s + fork_count t ≤ budget.old → IsOk result }
    ensures spent { IfOk result (λ _. (h : MapHashes) (bits : List Bool) (s t : Shape)
        → LieBoth h entries.now forks.now older newer bits s t → length bits ≡ level
        → budget.old ≤ budget.new + (fork_count s + fork_count t)) }
    ensures fault { IfErr result (λ fault. fault ≡ NoMap) }
{
    if is_outside || older == newer {
        return Ok(None);
    }
    let a = part_of(older, entries.len(), forks.len())?;
    let b = part_of(newer, entries.len(), forks.len())?;
    match ends_of(entries, a, b, forks.len()) {
        Ends::Alike => Ok(None),
        Ends::Apart { lower, higher } => Ok(reached(entries, lower, higher, from, is_on)),
        Ends::Forks => {
            if level >= LEVELS || *budget == 0 {
                return Err(MapFault::NoMap);
            }
            *budget -= 1;
            let below = turns(is_on, from, level, true);
            let next = level + 1;
            let left = half_of(forks, entries, a, older, level, false);
            let other = half_of(forks, entries, b, newer, level, false);
            let found = differ_in(
                entries, forks, left, other, next, from, below, is_on, budget,
            )?;
            if found.is_some() {
                return Ok(found);
            }
            let right = half_of(forks, entries, a, older, level, true);
            let other = half_of(forks, entries, b, newer, level, true);
            differ_in(
                entries, forks, right, other, next, from, false, below, budget,
            )
        }
    }
}

/// Returns the least key that is not below another at which two maps differ, an older and a newer one, with what each has there, or
/// `None` where they have the same from that key on. From a key above each that was found, these are all differences. What both have
/// at one number is passed over, so that the cost is that of the difference.
///
/// The error, on memory that holds no map under one of the heads, is `NoMap`.
pub fn differ(
    entries: &[[u8; 64]],
    forks: &[[u8; 48]],
    older: &Head,
    newer: &Head,
    from: &[u8; 32],
) -> Result<Option<Difference>, MapFault>
    ensures differ { IfOk result (λ found. (h : MapHashes) (xs ys : List Entry)
        → KeepsMap h entries.now forks.now older.now xs
        → KeepsMap h entries.now forks.now newer.now ys
        → MatchOption found (HaveSameFrom from.now xs ys) (IsDifference from.now xs ys)) }
    ensures found { (h : MapHashes) (xs ys : List Entry)
        → KeepsMap h entries.now forks.now older.now xs
        → KeepsMap h entries.now forks.now newer.now ys → IsOk result }
    ensures fault { IfErr result (λ fault. fault ≡ NoMap) }
{
    if older.forks > forks.len() || newer.forks > forks.len() {
        return Err(MapFault::NoMap);
    }
    let mut budget = older.forks + newer.forks;
    let found = differ_in(
        entries,
        forks,
        older.top,
        newer.top,
        0,
        from,
        false,
        true,
        &mut budget,
    )?;
    match found {
        None => Ok(None),
        Some(place) => {
            let key = key_at(entries, place);
            Ok(Some(Difference {
                key,
                older: get(entries, forks, older, &key)?,
                newer: get(entries, forks, newer, &key)?,
            }))
        }
    }
}
