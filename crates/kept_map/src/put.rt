//! A value is put into a map.

ghost use Rattle.std.specs.Prelude.{◌≡◌, ◌≢◌, ◌⊎◌, ◌<◌, ◌≤◌, ◌+◌, ◌-◌, ◌↔◌, ℕ, List, false, length, take, not, IfErr, IfOk, OnErr, OnOk, Ok, Err};
ghost use Rattle.std.specs.Str.{bytes_eq};
ghost use Rattle.kept_map.specs.Changed.{HasPutRoom, IsOlder, KeepsSame, fork_of, side_of};
ghost use Rattle.kept_map.specs.KeptMap.{KeepsMap, LaidAt, entry_in, fork_count};
ghost use Rattle.kept_map.specs.Lying.{LiesMade, LiesOn};
ghost use Rattle.kept_map.specs.declared.head.MapFault.TheVariants.{NoMap, Room};
ghost use Rattle.merkle_map.specs.Changes.{two_of, with_value};
ghost use Rattle.merkle_map.specs.Map.{put, Entry, MapHashes};
ghost use Rattle.merkle_map.specs.Tree.{way, Shape};

use crate::head::{Head, MapFault};
use crate::nodes::{
    Part, key_at, left_at, number_of_entry, part_of, push_entry, push_fork, right_at,
};
use merkle_map::{are_same_keys, bit_of};

// Returns the number of what stands below a fork on a side.
pub(crate) fn side_at(forks: &[[u8; 48]], place: usize, is_right: bool) -> u64
    requires { place < length forks.now }
    ensures { result ≡ side_of is_right forks.now place }
{
    if is_right {
        right_at(forks, place)
    } else {
        left_at(forks, place)
    }
}

// Writes the fork of what a number names on a side, and of what another names beside it.
pub(crate) fn push_sides(
    forks: &mut [[u8; 48]],
    count: &mut usize,
    is_right: bool,
    own: u64,
    beside: u64,
) -> u64
    requires room { count.old < length forks.old }
    ensures before { take count.old forks.new ≡ take count.old forks.old }
    ensures count { count.new ≡ count.old + 1 }
    ensures lies { (h : MapHashes) (entries : List (List ℕ)) (tree other : Shape)
        → LaidAt h entries forks.old count.old own tree
        → LaidAt h entries forks.old count.old beside other
        → LaidAt h entries forks.new count.new result (fork_of is_right tree other) }
{
    if is_right {
        push_fork(forks, count, beside, own)
    } else {
        push_fork(forks, count, own, beside)
    }
}

// Writes the tree of two entries with different keys, which stands some levels below the top. The error is that one of them
// does not stand there.
fn apart(
    entries: &[[u8; 64]],
    forks: &mut [[u8; 48]],
    count: &mut usize,
    level: usize,
    own: usize,
    other: usize,
) -> Result<u64, MapFault>
    requires within { level ≤ 256 }
    requires own { own < length entries.now }
    requires other { other < length entries.now }
    requires room { count.old + (256 - level) ≤ length forks.old }
    ensures before { take count.old forks.new ≡ take count.old forks.old }
    ensures more { count.old ≤ count.new }
    ensures most { count.new ≤ count.old + (256 - level) }
    ensures made { IfOk result (λ new. (h : MapHashes)
        → LiesMade h entries.now forks.new count.new new (Ok (two_of (256 - level) level
        (entry_in entries.now own) (entry_in entries.now other))) count.old 0) }
    ensures sound { OnErr result (bytes_eq (entry_in entries.now other).key
        (entry_in entries.now own).key ≡ false → way level (entry_in entries.now own).key
        ≢ way level (entry_in entries.now other).key) }
    ensures fault { IfErr result (λ fault. fault ≡ NoMap) }
{
    let key = key_at(entries, own);
    let other_key = key_at(entries, other);
    if level >= 256 {
        return Err(MapFault::NoMap);
    }
    let is_right = bit_of(&key, level);
    if is_right != bit_of(&other_key, level) {
        let own = number_of_entry(entries, own);
        let other = number_of_entry(entries, other);
        return Ok(push_sides(forks, count, is_right, own, other));
    }
    let below = apart(entries, forks, count, level + 1, own, other)?;
    Ok(push_sides(forks, count, is_right, below, 0))
}

// Puts an entry into a tree some levels below the top, and returns the number of the new one. The error is that no tree
// lies there.
fn put_at(
    entries: &[[u8; 64]],
    forks: &mut [[u8; 48]],
    count: &mut usize,
    number: u64,
    level: usize,
    own: usize,
) -> Result<u64, MapFault>
    requires within { level ≤ 256 }
    requires own { own < length entries.now }
    requires room { count.old + (256 - level) ≤ length forks.old }
    ensures before { take count.old forks.new ≡ take count.old forks.old }
    ensures more { count.old ≤ count.new }
    ensures most { count.new ≤ count.old + (256 - level) }
    ensures made { IfOk result (λ new. (h : MapHashes) (tree : Shape)
        → LiesOn h entries.now forks.old count.old number level (entry_in entries.now own).key tree
        → LiesMade h entries.now forks.new count.new new
        (with_value level (entry_in entries.now own) tree) count.old (fork_count tree)) }
    ensures sound { OnErr result ((h : MapHashes) (tree : Shape)
        → LiesOn h entries.now forks.old count.old number level (entry_in entries.now own).key tree
        → ⊥) }
    ensures fault { IfErr result (λ fault. fault ≡ NoMap) }
{
    match part_of(number, entries.len(), *count)? {
        Part::Nothing => Ok(number_of_entry(entries, own)),
        Part::Entry(other) => {
            if are_same_keys(&key_at(entries, other), &key_at(entries, own)) {
                return Ok(number_of_entry(entries, own));
            }
            apart(entries, forks, count, level, own, other)
        }
        Part::Fork(place) => {
            if level >= 256 {
                return Err(MapFault::NoMap);
            }
            let is_right = bit_of(&key_at(entries, own), level);
            let beside = side_at(forks, place, !is_right);
            let side = side_at(forks, place, is_right);
            let new = put_at(entries, forks, count, side, level + 1, own)?;
            Ok(push_sides(forks, count, is_right, new, beside))
        }
    }
}

/// Puts a value at a key: writes the entry and the forks above it behind those of the head. Errors: there is no room for
/// an entry and 256 forks more (`Room`); memory holds no map under this head (`NoMap`). They leave the head as it was.
pub fn put(
    entries: &mut [[u8; 64]],
    forks: &mut [[u8; 48]],
    head: &mut Head,
    key: &[u8; 32],
    value: &[u8; 32],
) -> Result<(), MapFault>
    ensures put { (h : MapHashes) (xs : List Entry) → KeepsMap h entries.old forks.old head.old xs
        → OnOk result (KeepsSame h entries.new forks.new head.new (put key.now value.now xs)) }
    ensures sound { (h : MapHashes) (xs : List Entry)
        → KeepsMap h entries.old forks.old head.old xs → result ≢ Err NoMap }
    ensures room { (result ≡ Err Room) ↔ (HasPutRoom entries.old forks.old head.old → ⊥) }
    ensures refused { IfErr result (λ fault. (fault ≡ NoMap) ⊎ (fault ≡ Room)) }
    ensures kept { OnErr result (head.new ≡ head.old) }

    // What was written before stays, and so does each older head's map.
    ensures before_entries { take head.old.entries entries.new ≡ take head.old.entries entries.old }
    ensures before_forks { take head.old.forks forks.new ≡ take head.old.forks forks.old }
    ensures grows { IsOlder head.old head.new }
    ensures older { (h : MapHashes) (xs : List Entry) (older : Head) → IsOlder older head.old
        → KeepsMap h entries.old forks.old older xs → KeepsMap h entries.new forks.new older xs }
{
    if entries.len() <= head.entries || forks.len() < 256 || forks.len() - 256 < head.forks {
        return Err(MapFault::Room);
    }
    let mut entry_count = head.entries;
    let mut fork_count = head.forks;
    let own = head.entries;
    push_entry(entries, &mut entry_count, key, value);
    let top = put_at(
        &entries[..entry_count],
        forks,
        &mut fork_count,
        head.top,
        0,
        own,
    )?;
    *head = Head {
        top,
        entries: entry_count,
        forks: fork_count,
    };
    Ok(())
}
