//! A map is copied to other memory, without what older maps left there.

ghost use Rattle.std.specs.Prelude.{◌≡◌, ◌≢◌, ◌<◌, ◌≤◌, ◌-◌, ◌⊎◌, ℕ, List, length, take, IfErr, IfOk, IsOk, OnErr, Err};
ghost use Rattle.kept_map.specs.Copied.{HasRoomFor, IsBehind, IsCopied, FitsMemory, LiesBelow};
ghost use Rattle.kept_map.specs.KeptMap.{KeepsMap, fork_count};
ghost use Rattle.kept_map.specs.declared.head.MapFault.TheVariants.{NoMap, Room};
ghost use Rattle.merkle_map.specs.Map.{Entry, MapHashes};
ghost use Rattle.merkle_map.specs.Tree.{Shape};

use crate::head::{Head, MapFault};
use crate::nodes::{
    Part, kept_digest, key_at, left_at, part_of, push_entry, push_hashed, right_at, value_at,
};

// Copies a tree some levels below the top behind what a head names, and returns its number. Errors: there is no room
// (`Room`); no tree lies there (`NoMap`).
fn copy_at(
    entries: &[[u8; 64]],
    forks: &[[u8; 48]],
    number: u64,
    level: usize,
    to_entries: &mut [[u8; 64]],
    to_forks: &mut [[u8; 48]],
    to: &mut Head,
) -> Result<u64, MapFault>
    requires within { level ≤ 256 }
    requires inside { FitsMemory to_entries.old to_forks.old to.old }
    ensures inside { FitsMemory to_entries.new to_forks.new to.new }
    ensures behind { IsBehind to.old to.new to_entries.old to_entries.new
        to_forks.old to_forks.new }
    ensures copied { IfOk result (λ new. (h : MapHashes) (tree : Shape)
        → LiesBelow h entries.now forks.now number level tree
        → IsCopied h to_entries.new to_forks.new to.old to.new new tree) }
    ensures sound { OnErr result ((h : MapHashes) (tree : Shape)
        → LiesBelow h entries.now forks.now number level tree
        → HasRoomFor to_entries.old to_forks.old to.old tree → ⊥) }
    ensures there { (h : MapHashes) (tree : Shape)
        → LiesBelow h entries.now forks.now number level tree → result ≢ Err NoMap }
{
    match part_of(number, entries.len(), forks.len())? {
        Part::Nothing => Ok(0),
        Part::Entry(place) => {
            if to_entries.len() <= to.entries {
                return Err(MapFault::Room);
            }
            let key = key_at(entries, place);
            let value = value_at(entries, place);
            Ok(push_entry(to_entries, &mut to.entries, &key, &value))
        }
        Part::Fork(place) => {
            if level >= 256 {
                return Err(MapFault::NoMap);
            }
            let left = left_at(forks, place);
            let left = copy_at(entries, forks, left, level + 1, to_entries, to_forks, to)?;
            let right = right_at(forks, place);
            let right = copy_at(entries, forks, right, level + 1, to_entries, to_forks, to)?;
            if to_forks.len() <= to.forks {
                return Err(MapFault::Room);
            }
            let digest = kept_digest(forks, place);
            Ok(push_hashed(to_forks, &mut to.forks, &digest, left, right))
        }
    }
}

/// Copies the map of a head to the front of other memory, with the digests that are known, and returns its head there: it
/// names the map's entries and forks and no more. Errors: there is no room for them (`Room`); memory holds no map under this
/// head (`NoMap`).
pub fn copy_to(
    entries: &[[u8; 64]],
    forks: &[[u8; 48]],
    head: &Head,
    to_entries: &mut [[u8; 64]],
    to_forks: &mut [[u8; 48]],
) -> Result<Head, MapFault>
    ensures copied { IfOk result (λ new. (h : MapHashes) (xs : List Entry)
        → KeepsMap h entries.now forks.now head.now xs
        → KeepsMap h to_entries.new to_forks.new new xs) }
    ensures few { IfOk result (λ new. (h : MapHashes) (xs : List Entry)
        → (keeps : KeepsMap h entries.now forks.now head.now xs)
        → (new.entries ≡ length xs) × (new.forks ≡ fork_count keeps.tree)) }
    ensures sound { (h : MapHashes) (xs : List Entry)
        → KeepsMap h entries.now forks.now head.now xs → result ≢ Err NoMap }
    ensures room { OnErr result ((h : MapHashes) (xs : List Entry)
        → KeepsMap h entries.now forks.now head.now xs → length xs ≤ length to_entries.old
        → head.now.forks ≤ length to_forks.old → ⊥) }
    ensures refused { IfErr result (λ fault. (fault ≡ NoMap) ⊎ (fault ≡ Room)) }
{
    if head.entries > entries.len() || head.forks > forks.len() {
        return Err(MapFault::NoMap);
    }
    let mut to = Head {
        top: 0,
        entries: 0,
        forks: 0,
    };
    to.top = copy_at(
        &entries[..head.entries],
        &forks[..head.forks],
        head.top,
        0,
        to_entries,
        to_forks,
        &mut to,
    )?;
    Ok(to)
}
