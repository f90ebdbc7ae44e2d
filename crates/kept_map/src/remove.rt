//! A key is removed from a map.

ghost use Rattle.std.specs.Prelude.{◌≡◌, ◌≢◌, ◌⊎◌, ◌<◌, ◌≤◌, ◌+◌, ◌-◌, ◌↔◌, ℕ, List, None, length, take, not, IfErr, IfOk, OnErr, OnOk, Ok, Err};
ghost use Rattle.kept_map.specs.Changed.{HasForkRoom, IsOlder, KeepsSame, rejoined_of};
ghost use Rattle.kept_map.specs.KeptMap.{KeepsMap, LaidAt, fork_count};
ghost use Rattle.kept_map.specs.Lying.{LiesMade, LiesOn};
ghost use Rattle.kept_map.specs.declared.head.MapFault.TheVariants.{NoMap, Room};
ghost use Rattle.merkle_map.specs.Changes.{is_alone, losing, rejoined};
ghost use Rattle.merkle_map.specs.Map.{value_at, without, Digest, Entry, MapHashes};
ghost use Rattle.merkle_map.specs.Tree.{Shape};

use crate::find::get;
use crate::head::{Head, MapFault};
use crate::nodes::{Part, key_at, part_of, push_fork};
use crate::put::side_at;
use merkle_map::{are_same_keys, bit_of};

// Returns whether what a number names is the tree of both beside what another names: that is nothing, and this one has one
// entry at most.
fn stands_alone(number: u64, beside: u64) -> bool
    ensures { (h : MapHashes) (entries forks : List (List ℕ)) (count : ℕ) (tree other : Shape)
        → LaidAt h entries forks count number tree → LaidAt h entries forks count beside other
        → result ≡ is_alone tree other }
{
    beside == 0 && (number == 0 || number % 2 == 1)
}

// Joins two sides, of which one may have lost an entry, and returns the number of the tree.
fn join(forks: &mut [[u8; 48]], count: &mut usize, left: u64, right: u64) -> u64
    requires room { count.old < length forks.old }
    ensures before { take count.old forks.new ≡ take count.old forks.old }
    ensures more { count.old ≤ count.new }
    ensures most { count.new ≤ count.old + 1 }
    ensures made { (h : MapHashes) (nothing : Digest) (entries : List (List ℕ))
        (on_left on_right : Shape) → LaidAt h entries forks.old count.old left on_left
        → LaidAt h entries forks.old count.old right on_right
        → LiesMade h entries forks.new count.new result (rejoined nothing on_left on_right)
        count.old (fork_count on_left + fork_count on_right) }
{
    if stands_alone(right, left) {
        return right;
    }
    if stands_alone(left, right) {
        return left;
    }
    push_fork(forks, count, left, right)
}

// Joins what is left on a side and what another number names beside it.
fn join_sides(
    forks: &mut [[u8; 48]],
    count: &mut usize,
    is_right: bool,
    own: u64,
    beside: u64,
) -> u64
    requires room { count.old < length forks.old }
    ensures before { take count.old forks.new ≡ take count.old forks.old }
    ensures more { count.old ≤ count.new }
    ensures most { count.new ≤ count.old + 1 }
    ensures made { (h : MapHashes) (nothing : Digest) (entries : List (List ℕ)) (tree other : Shape)
        → LaidAt h entries forks.old count.old own tree
        → LaidAt h entries forks.old count.old beside other
        → LiesMade h entries forks.new count.new result (rejoined_of is_right nothing tree other)
        count.old (fork_count tree + fork_count other) }
{
    if is_right {
        join(forks, count, beside, own)
    } else {
        join(forks, count, own, beside)
    }
}

// Removes the entry of a key from a tree some levels below the top that has it, and returns the number of what is left. The
// error is that no tree lies there.
fn remove_at(
    entries: &[[u8; 64]],
    forks: &mut [[u8; 48]],
    count: &mut usize,
    number: u64,
    level: usize,
    key: &[u8; 32],
) -> Result<u64, MapFault>
    requires within { level ≤ 256 }
    requires room { count.old + (256 - level) ≤ length forks.old }
    ensures before { take count.old forks.new ≡ take count.old forks.old }
    ensures more { count.old ≤ count.new }
    ensures most { count.new ≤ count.old + (256 - level) }
    ensures made { IfOk result (λ new. (h : MapHashes) (nothing : Digest) (tree : Shape)
        → LiesOn h entries.now forks.old count.old number level key.now tree
        → LiesMade h entries.now forks.new count.new new (losing nothing level key.now tree)
        count.old (fork_count tree)) }
    ensures sound { OnErr result ((h : MapHashes) (tree : Shape)
        → LiesOn h entries.now forks.old count.old number level key.now tree → ⊥) }
    ensures fault { IfErr result (λ fault. fault ≡ NoMap) }
{
    match part_of(number, entries.len(), *count)? {
        Part::Nothing => Ok(0),
        Part::Entry(place) => {
            if are_same_keys(&key_at(entries, place), key) {
                return Ok(0);
            }
            Ok(number)
        }
        Part::Fork(place) => {
            if level >= 256 {
                return Err(MapFault::NoMap);
            }
            let is_right = bit_of(key, level);
            let beside = side_at(forks, place, !is_right);
            let side = side_at(forks, place, is_right);
            let new = remove_at(entries, forks, count, side, level + 1, key)?;
            Ok(join_sides(forks, count, is_right, new, beside))
        }
    }
}

/// Removes a key: writes the forks above what is left behind those of the head. Where the map has nothing at the key, it stays
/// as it is. Errors: there is no room for 256 forks more (`Room`); memory holds no map under this head (`NoMap`). They leave
/// the head as it was.
pub fn remove(
    entries: &[[u8; 64]],
    forks: &mut [[u8; 48]],
    head: &mut Head,
    key: &[u8; 32],
) -> Result<(), MapFault>
    ensures removed { (h : MapHashes) (xs : List Entry)
        → KeepsMap h entries.now forks.old head.old xs
        → OnOk result (KeepsSame h entries.now forks.new head.new (without key.now xs)) }
    ensures absent { (h : MapHashes) (xs : List Entry)
        → KeepsMap h entries.now forks.old head.old xs → value_at key.now xs ≡ None
        → head.new ≡ head.old }
    ensures sound { (h : MapHashes) (xs : List Entry)
        → KeepsMap h entries.now forks.old head.old xs → result ≢ Err NoMap }
    ensures room { (result ≡ Err Room) ↔ (HasForkRoom forks.old head.old → ⊥) }
    ensures refused { IfErr result (λ fault. (fault ≡ NoMap) ⊎ (fault ≡ Room)) }
    ensures kept { OnErr result (head.new ≡ head.old) }

    // What was written before stays, and so does each older head's map.
    ensures before { take head.old.forks forks.new ≡ take head.old.forks forks.old }
    ensures grows { IsOlder head.old head.new }
    ensures older { (h : MapHashes) (xs : List Entry) (older : Head) → IsOlder older head.old
        → KeepsMap h entries.now forks.old older xs → KeepsMap h entries.now forks.new older xs }
{
    if forks.len() < 256 || forks.len() - 256 < head.forks {
        return Err(MapFault::Room);
    }
    if entries.len() < head.entries {
        return Err(MapFault::NoMap);
    }
    match get(entries, forks, head, key)? {
        None => Ok(()),
        Some(_) => {
            let mut fork_count = head.forks;
            let top = remove_at(
                &entries[..head.entries],
                forks,
                &mut fork_count,
                head.top,
                0,
                key,
            )?;
            *head = Head {
                top,
                entries: head.entries,
                forks: fork_count,
            };
            Ok(())
        }
    }
}
