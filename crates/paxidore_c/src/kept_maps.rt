//! Maps over SHA-256 that are kept in memory of the caller's: entries, forks, and a head. A proof is allocated, and freed before the
//! call returns; nothing else is.

ghost use Rattle.std.specs.Prelude.{◌≡◌, ◌≢◌, ◌≤◌, ◌⊎◌, List, ℕ, None, Ok, Some, length, pos, take, IfErr, IfOk};
ghost use Rattle.kept_map.specs.Between.{IsBetween, IsTreeBetween};
ghost use Rattle.kept_map.specs.Changed.{HasForkRoom, HasPutRoom, IsOlder, KeepsSame};
ghost use Rattle.kept_map.specs.Differ.{HaveSameFrom, IsDifference};
ghost use Rattle.kept_map.specs.Many.{IsRising, IsShownAt, IsTreeFor};
ghost use Rattle.kept_map.specs.declared.head.MapFault.TheVariants.{NoMap, Room};
ghost use Rattle.kept_map.specs.declared.prove.ProveFault.TheVariants.{OutOfMemory, Order};
ghost use Rattle.paxidore_calls.specs.Answer.{refusal_code, Hands};
ghost use Rattle.paxidore_calls.specs.declared.refused.Refused.TheVariants.{Index, Memory};
ghost use Rattle.merkle_map.specs.Changes.{entry_of};
ghost use Rattle.merkle_map.specs.Map.{put as with_value, Entry, root_of_map, value_at, without};
ghost use Rattle.merkle_map.specs.Order.{HasNoneFrom, IsNextEntry};
ghost use Rattle.merkle_map.specs.Pruned.{IsAmong};
ghost use Rattle.merkle_map.specs.Sha256.{sha256_map};
ghost use Rattle.paxidore_c.specs.KeptMaps.{fault_code, proof_fault_code, HandsSome, IsOwnProof, IsShownBy, KeepsSha256Map, value_if};

use kept_map::between::prove_between;
use kept_map::check::check;
use kept_map::copy::copy_to;
use kept_map::differ::differ;
use kept_map::find::get;
use kept_map::hash::KeptSha256;
use kept_map::head::{Head, MapFault};
use kept_map::many::prove_many;
use kept_map::next::next;
use kept_map::prove::{ProveFault, prove};
use kept_map::put::put;
use kept_map::remove::remove;
use kept_map::root::root;
use merkle_map::Sha256Map;
use paxidore_calls::buffer::hand_over;
use paxidore_calls::refused::Refused;
use std::alloc::Global;

// Returns the code of a fault.
fn code_of(fault: MapFault) -> i32
    ensures { result ≡ fault_code fault }
{
    match fault {
        MapFault::Room => -9,
        MapFault::NoMap => -14,
    }
}

// Returns the code of a change.
fn done_code(done: Result<(), MapFault>) -> i32
    ensures done { done ≡ Ok tt → result ≡ pos 0 }
    ensures fault { IfErr done (λ fault. result ≡ fault_code fault) }
{
    match done {
        Ok(()) => 0,
        Err(fault) => code_of(fault),
    }
}

/// Puts a value at a key: writes an entry and the forks above it behind those that are there, and the head.
///
/// Answers: 0; `E_ROOM`, where there is no room for an entry more or for 256 forks more; `E_DAMAGED`, where memory holds no map under
/// the head. Each leaves the head as before.
#[unsafe(no_mangle)]
pub extern "C" fn paxidore_kept_map_put(
    map: &mut Head,
    map_entries: &mut [[u8; 64]],
    map_forks: &mut [[u8; 48]],
    key: &[u8; 32],
    value: &[u8; 32],
) -> i32
    ensures put { (xs : List Entry) → KeepsSha256Map map_entries.old map_forks.old map.old xs
        → result ≡ pos 0 → KeepsSame sha256_map map_entries.new map_forks.new map.new
        (with_value key.now value.now xs) }

    // Of a map it is refused for want of room alone.
    ensures done { (xs : List Entry) → KeepsSha256Map map_entries.old map_forks.old map.old xs
        → HasPutRoom map_entries.old map_forks.old map.old → result ≡ pos 0 }
    ensures room { (HasPutRoom map_entries.old map_forks.old map.old → ⊥)
        → result ≡ fault_code Room }

    // Each map under an older head stays, and so does this one where it is refused.
    ensures older { (older : Head) (xs : List Entry) → IsOlder older map.old
        → KeepsSha256Map map_entries.old map_forks.old older xs
        → KeepsSha256Map map_entries.new map_forks.new older xs }
    ensures kept { result ≢ pos 0 → map.new ≡ map.old }
{
    done_code(put(map_entries, map_forks, map, key, value))
}

/// Removes a key: writes the forks above what is left behind those that are there, and the head. A map that has nothing at the key
/// stays as it is.
///
/// Answers: 0; `E_ROOM`, where there is no room for 256 forks more; `E_DAMAGED`, where memory holds no map under the head. Each leaves
/// the head as before.
#[unsafe(no_mangle)]
pub extern "C" fn paxidore_kept_map_remove(
    map: &mut Head,
    map_entries: &[[u8; 64]],
    map_forks: &mut [[u8; 48]],
    key: &[u8; 32],
) -> i32
    ensures removed { (xs : List Entry) → KeepsSha256Map map_entries.now map_forks.old map.old xs
        → result ≡ pos 0 → KeepsSame sha256_map map_entries.now map_forks.new map.new
        (without key.now xs) }
    ensures done { (xs : List Entry) → KeepsSha256Map map_entries.now map_forks.old map.old xs
        → HasForkRoom map_forks.old map.old → result ≡ pos 0 }
    ensures room { (HasForkRoom map_forks.old map.old → ⊥) → result ≡ fault_code Room }
    ensures older { (older : Head) (xs : List Entry) → IsOlder older map.old
        → KeepsSha256Map map_entries.now map_forks.old older xs
        → KeepsSha256Map map_entries.now map_forks.new older xs }
    ensures kept { result ≢ pos 0 → map.new ≡ map.old }
{
    done_code(remove(map_entries, map_forks, map, key))
}

/// Writes the root to `digest`, and to each fork below the topmost that has none its digest.
///
/// Answers: 0; `E_DAMAGED`, where memory holds no map under the head, which leaves `digest` as before.
#[unsafe(no_mangle)]
pub extern "C" fn paxidore_kept_map_root(
    digest: &mut [u8; 32],
    map: &Head,
    map_entries: &[[u8; 64]],
    map_forks: &mut [[u8; 48]],
) -> i32
    ensures root { (xs : List Entry) → KeepsSha256Map map_entries.now map_forks.old map.now xs
        → (result ≡ pos 0) × (root_of_map sha256_map xs ≡ Ok digest.new) }

    // The map of each head stays.
    ensures maps { (other : Head) (xs : List Entry)
        → KeepsSha256Map map_entries.now map_forks.old other xs
        → KeepsSha256Map map_entries.now map_forks.new other xs }
    ensures kept { result ≢ pos 0 → digest.new ≡ digest.old }
{
    match root::<KeptSha256>(map_entries, map_forks, map) {
        Ok(made) => {
            *digest = made;
            0
        }
        Err(fault) => code_of(fault),
    }
}

/// Writes what a map has at a key to `value`.
///
/// Answers: 0; 1 where it has nothing there; `E_DAMAGED`, where memory holds no map under the head. The last two leave `value` as
/// before.
#[unsafe(no_mangle)]
pub extern "C" fn paxidore_kept_map_get(
    value: &mut [u8; 32],
    map: &Head,
    map_entries: &[[u8; 64]],
    map_forks: &[[u8; 48]],
    key: &[u8; 32],
) -> i32
    ensures found { (xs : List Entry) → KeepsSha256Map map_entries.now map_forks.now map.now xs
        → result ≡ pos 0 → value_at key.now xs ≡ Some value.new }
    ensures none { (xs : List Entry) → KeepsSha256Map map_entries.now map_forks.now map.now xs
        → result ≢ pos 0 → (result ≡ pos 1) × (value_at key.now xs ≡ None) }
    ensures kept { result ≢ pos 0 → value.new ≡ value.old }
{
    match get(map_entries, map_forks, map, key) {
        Ok(Some(found)) => {
            *value = found;
            0
        }
        Ok(None) => 1,
        Err(fault) => code_of(fault),
    }
}

/// Writes the entry with the least key that is not below `from` to `next_key` and `next_value`.
///
/// Answers: 0; 1 where there is none; `E_DAMAGED`, where memory holds no map under the head. The last two leave both as before.
#[unsafe(no_mangle)]
pub extern "C" fn paxidore_kept_map_next(
    next_key: &mut [u8; 32],
    next_value: &mut [u8; 32],
    map: &Head,
    map_entries: &[[u8; 64]],
    map_forks: &[[u8; 48]],
    from: &[u8; 32],
) -> i32
    ensures found { (xs : List Entry) → KeepsSha256Map map_entries.now map_forks.now map.now xs
        → result ≡ pos 0 → IsNextEntry from.now xs (entry_of next_key.new next_value.new) }
    ensures none { (xs : List Entry) → KeepsSha256Map map_entries.now map_forks.now map.now xs
        → result ≢ pos 0 → (result ≡ pos 1) × HasNoneFrom from.now xs }
    ensures kept_key { result ≢ pos 0 → next_key.new ≡ next_key.old }
    ensures kept_value { result ≢ pos 0 → next_value.new ≡ next_value.old }
{
    match next(map_entries, map_forks, map, from) {
        Ok(Some(found)) => {
            let (key, value) = found;
            *next_key = key;
            *next_value = value;
            0
        }
        Ok(None) => 1,
        Err(fault) => code_of(fault),
    }
}

// Returns the bytes of the proof of what a map has at a key. Errors: `OutOfMemory`; `NoMap`, where memory holds no map under the head.
fn proof_bytes_of(
    alloc: Global,
    map: &Head,
    map_entries: &[[u8; 64]],
    map_forks: &[[u8; 48]],
    key: &[u8; 32],
) -> Result<Vec<u8>, ProveFault>
    ensures own { IfOk result (λ bytes. (xs : List Entry)
        → KeepsSha256Map map_entries.now map_forks.now map.now xs
        → IsOwnProof key.now xs bytes.items) }
    ensures shown { IfOk result (λ bytes. (xs : List Entry)
        → KeepsSha256Map map_entries.now map_forks.now map.now xs
        → IsShownBy key.now xs bytes.items) }
    ensures found { (xs : List Entry) → KeepsSha256Map map_entries.now map_forks.now map.now xs
        → IfErr result (λ fault. fault ≡ OutOfMemory) }
    ensures fault { IfErr result (λ fault. fault ≢ Order) }
{
    match prove::<KeptSha256>(alloc, map_entries, map_forks, map, key) {
        Ok(proof) => match proof.to_bytes(alloc, &Sha256Map::new()) {
            Ok(bytes) => Ok(bytes),
            Err(_) => Err(ProveFault::OutOfMemory),
        },
        Err(fault) => Err(fault),
    }
}

// Hands the bytes of a proof over, or returns the code of its fault.
fn hand_proof(made: Result<Vec<u8>, ProveFault>, proof: &mut [u8], proof_len: &mut usize) -> i32
    ensures handed { IfOk made (λ bytes. Hands (Ok bytes.items) proof.old proof.new proof_len.old
        proof_len.new result) }
    ensures fault { IfErr made (λ fault. result ≡ proof_fault_code fault) }
    ensures codes { (result ≡ pos 0) ⊎ (result ≡ fault_code Room) ⊎ (result ≡ fault_code NoMap)
        ⊎ (result ≡ refusal_code Memory) ⊎ (result ≡ refusal_code Index) }
    ensures unordered { IfErr made (λ fault. fault ≢ Order) → (result ≡ pos 0)
        ⊎ (result ≡ fault_code Room) ⊎ (result ≡ fault_code NoMap)
        ⊎ (result ≡ refusal_code Memory) }
    ensures kept { result ≢ pos 0 → proof.new ≡ proof.old }
    ensures uncounted { result ≢ pos 0 → result ≢ fault_code Room → proof_len.new ≡ proof_len.old }
{
    match made {
        Ok(bytes) => hand_over(Ok(bytes), proof, proof_len),
        Err(ProveFault::OutOfMemory) => Refused::Memory.code(),
        Err(ProveFault::NoMap) => -14,
        Err(ProveFault::Order) => Refused::Index.code(),
    }
}

/// Writes the bytes of the proof of what a map has at a key to the front of `proof`, and their count.
///
/// Answers: 0; `E_DAMAGED`, where memory holds no map under the head; `E_ROOM`, which alone writes the count that is needed; `E_MEMORY`
/// in place of either. Any other refusal than `E_ROOM` leaves both buffers as before.
#[unsafe(no_mangle)]
pub extern "C" fn paxidore_kept_map_prove(
    alloc: Global,
    proof: &mut [u8],
    proof_len: &mut usize,
    map: &Head,
    map_entries: &[[u8; 64]],
    map_forks: &[[u8; 48]],
    key: &[u8; 32],
) -> i32
    // The map's root accepts what is written.
    ensures accepted { (xs : List Entry) → KeepsSha256Map map_entries.now map_forks.now map.now xs
        → result ≡ pos 0 → IsShownBy key.now xs (take proof_len.new proof.new) }

    // Of a map it is refused for want of room for the proof that its tree has, or of memory, alone.
    ensures done { (xs : List Entry) → KeepsSha256Map map_entries.now map_forks.now map.now xs
        → HandsSome (IsOwnProof key.now xs) proof.old proof.new proof_len.old proof_len.new result }
    ensures codes { (result ≡ pos 0) ⊎ (result ≡ fault_code Room) ⊎ (result ≡ fault_code NoMap)
        ⊎ (result ≡ refusal_code Memory) }
    ensures kept { result ≢ pos 0 → proof.new ≡ proof.old }
    ensures uncounted { result ≢ pos 0 → result ≢ fault_code Room → proof_len.new ≡ proof_len.old }
{
    let made = proof_bytes_of(alloc, map, map_entries, map_forks, key);
    hand_proof(made, proof, proof_len)
}

/// Writes the bytes of the proof of what a map has at some keys that rise to the front of `proof`, and their count: the bytes of a tree,
/// for `paxidore_map_next` and the other calls on trees.
///
/// Answers: 0; `E_INDEX`, where a key is below the one before it; `E_DAMAGED`, where memory holds no map under the head; `E_ROOM`, which
/// alone writes the count that is needed; `E_MEMORY` in place of any. Any other refusal than `E_ROOM` leaves both buffers as before.
#[unsafe(no_mangle)]
pub extern "C" fn paxidore_kept_map_prove_many(
    alloc: Global,
    proof: &mut [u8],
    proof_len: &mut usize,
    map: &Head,
    map_entries: &[[u8; 64]],
    map_forks: &[[u8; 48]],
    keys: &[[u8; 32]],
) -> i32
    // Whoever reads it finds the map's root, and what the map has at each of the keys.
    ensures accepted { (xs : List Entry) → KeepsSha256Map map_entries.now map_forks.now map.now xs
        → result ≡ pos 0 → IsShownAt sha256_map (λ key. IsAmong key keys.now) xs
        (take proof_len.new proof.new) }
    ensures done { (xs : List Entry) → KeepsSha256Map map_entries.now map_forks.now map.now xs
        → IsRising keys.now → HandsSome (IsTreeFor sha256_map keys.now xs)
        proof.old proof.new proof_len.old proof_len.new result }
    ensures order { ¬ IsRising keys.now → result ≡ refusal_code Index }
    ensures codes { (result ≡ pos 0) ⊎ (result ≡ fault_code Room) ⊎ (result ≡ fault_code NoMap)
        ⊎ (result ≡ refusal_code Memory) ⊎ (result ≡ refusal_code Index) }
    ensures kept { result ≢ pos 0 → proof.new ≡ proof.old }
    ensures uncounted { result ≢ pos 0 → result ≢ fault_code Room → proof_len.new ≡ proof_len.old }
{
    let made = prove_many::<KeptSha256>(alloc, map_entries, map_forks, map, keys);
    hand_proof(made, proof, proof_len)
}

/// Writes the bytes of the proof of all that a map has from `first` to `last`, both with them, to the front of `proof`, and their count:
/// the bytes of a tree that hides nothing there, in which `paxidore_map_next` finds the entries.
///
/// Answers: 0; `E_DAMAGED`, where memory holds no map under the head; `E_ROOM`, which alone writes the count that is needed; `E_MEMORY`
/// in place of either. Any other refusal than `E_ROOM` leaves both buffers as before.
#[unsafe(no_mangle)]
pub extern "C" fn paxidore_kept_map_prove_range(
    alloc: Global,
    proof: &mut [u8],
    proof_len: &mut usize,
    map: &Head,
    map_entries: &[[u8; 64]],
    map_forks: &[[u8; 48]],
    first: &[u8; 32],
    last: &[u8; 32],
) -> i32
    // Whoever reads it finds the map's root, and what the map has at each key there.
    ensures accepted { (xs : List Entry) → KeepsSha256Map map_entries.now map_forks.now map.now xs
        → result ≡ pos 0 → IsShownAt sha256_map (IsBetween first.now last.now) xs
        (take proof_len.new proof.new) }
    ensures done { (xs : List Entry) → KeepsSha256Map map_entries.now map_forks.now map.now xs
        → HandsSome (IsTreeBetween sha256_map first.now last.now xs)
        proof.old proof.new proof_len.old proof_len.new result }
    ensures codes { (result ≡ pos 0) ⊎ (result ≡ fault_code Room) ⊎ (result ≡ fault_code NoMap)
        ⊎ (result ≡ refusal_code Memory) }
    ensures kept { result ≢ pos 0 → proof.new ≡ proof.old }
    ensures uncounted { result ≢ pos 0 → result ≢ fault_code Room → proof_len.new ≡ proof_len.old }
{
    let made = prove_between::<KeptSha256>(alloc, map_entries, map_forks, map, first, last);
    hand_proof(made, proof, proof_len)
}

/// Writes a map to other memory, and no entry or fork that does not belong to it.
///
/// Answers: 0; `E_ROOM`, where the other memory has no room; `E_DAMAGED`, where memory holds no map under the head. Each leaves `to_map`
/// as before.
#[unsafe(no_mangle)]
pub extern "C" fn paxidore_kept_map_copy(
    to_map: &mut Head,
    to_entries: &mut [[u8; 64]],
    to_forks: &mut [[u8; 48]],
    map: &Head,
    map_entries: &[[u8; 64]],
    map_forks: &[[u8; 48]],
) -> i32
    ensures copied { (xs : List Entry) → KeepsSha256Map map_entries.now map_forks.now map.now xs
        → result ≡ pos 0 → KeepsSha256Map to_entries.new to_forks.new to_map.new xs }

    // Of a map it is refused for want of room alone.
    ensures done { (xs : List Entry) → KeepsSha256Map map_entries.now map_forks.now map.now xs
        → length xs ≤ length to_entries.old → map.now.forks ≤ length to_forks.old
        → result ≡ pos 0 }
    ensures codes { (result ≡ pos 0) ⊎ (result ≡ fault_code Room) ⊎ (result ≡ fault_code NoMap) }
    ensures kept { result ≢ pos 0 → to_map.new ≡ to_map.old }
{
    match copy_to(map_entries, map_forks, map, to_entries, to_forks) {
        Ok(head) => {
            *to_map = head;
            0
        }
        Err(fault) => code_of(fault),
    }
}

// Writes a value, where there is one, and whether there is.
fn put_value(found: Option<[u8; 32]>, value: &mut [u8; 32], is_there: &mut u8)
    ensures { value_if is_there.new value.new ≡ found }
{
    match found {
        Some(own) => {
            *value = own;
            *is_there = 1;
        }
        None => *is_there = 0,
    }
}

/// Writes the least key that is not below `from` at which two maps in one memory differ, and what either has there: a value, where
/// 1 is written beside it, or none, where that is 0. What both have at one number is passed over.
///
/// Answers: 0; 1 where they have the same from that key on; `E_DAMAGED`, where memory holds no map under one of the heads. The last two
/// leave all as before.
#[unsafe(no_mangle)]
pub extern "C" fn paxidore_kept_map_differ(
    next_key: &mut [u8; 32],
    old_value: &mut [u8; 32],
    has_old: &mut u8,
    new_value: &mut [u8; 32],
    has_new: &mut u8,
    old_map: &Head,
    map: &Head,
    map_entries: &[[u8; 64]],
    map_forks: &[[u8; 48]],
    from: &[u8; 32],
) -> i32
    ensures found { (xs ys : List Entry)
        → KeepsSha256Map map_entries.now map_forks.now old_map.now xs
        → KeepsSha256Map map_entries.now map_forks.now map.now ys → result ≡ pos 0
        → IsDifference from.now xs ys (record {
          key = next_key.new;
          older = value_if has_old.new old_value.new;
          newer = value_if has_new.new new_value.new;
        }) }
    ensures none { (xs ys : List Entry)
        → KeepsSha256Map map_entries.now map_forks.now old_map.now xs
        → KeepsSha256Map map_entries.now map_forks.now map.now ys
        → result ≢ pos 0 → (result ≡ pos 1) × HaveSameFrom from.now xs ys }
    ensures kept_key { result ≢ pos 0 → next_key.new ≡ next_key.old }
    ensures kept_old { result ≢ pos 0 → old_value.new ≡ old_value.old }
    ensures kept_has_old { result ≢ pos 0 → has_old.new ≡ has_old.old }
    ensures kept_new { result ≢ pos 0 → new_value.new ≡ new_value.old }
    ensures kept_has_new { result ≢ pos 0 → has_new.new ≡ has_new.old }
{
    match differ(map_entries, map_forks, old_map, map, from) {
        Ok(Some(found)) => {
            let key = found.key;
            let older = found.older;
            let newer = found.newer;
            *next_key = key;
            put_value(older, old_value, has_old);
            put_value(newer, new_value, has_new);
            0
        }
        Ok(None) => 1,
        Err(fault) => code_of(fault),
    }
}

/// Looks at a map in memory of others, hashes all of it anew, and writes its root to `digest`.
///
/// Answers: 0; `E_DAMAGED`, where memory holds no map under the head, which leaves `digest` as before.
#[unsafe(no_mangle)]
pub extern "C" fn paxidore_kept_map_check(
    digest: &mut [u8; 32],
    map: &Head,
    map_entries: &[[u8; 64]],
    map_forks: &[[u8; 48]],
) -> i32
    // After 0 memory keeps a map, and this is its root.
    ensures checked { result ≡ pos 0 → (xs : List Entry)
        × KeepsSha256Map map_entries.now map_forks.now map.now xs
        × (root_of_map sha256_map xs ≡ Ok digest.new) }
    ensures found { (xs : List Entry) → KeepsSha256Map map_entries.now map_forks.now map.now xs
        → result ≡ pos 0 }
    ensures kept { result ≢ pos 0 → digest.new ≡ digest.old }
{
    match check::<KeptSha256>(map_entries, map_forks, map) {
        Ok(made) => {
            *digest = made;
            0
        }
        Err(fault) => code_of(fault),
    }
}
