//! Checks of what a map has at one key, by the digests beside the key's way, from below the root down.

ghost use Rattle.std.specs.Prelude.{◌≡◌, ◌≤◌, true, length, map, IfOk, Some, None};
ghost use Rattle.ark_base.specs.Outcome.{Answers};
ghost use Rattle.merkle_map.specs.Binding.{BindsValue};
ghost use Rattle.merkle_map.specs.Map.{Nothing, leaf_of};
ghost use Rattle.merkle_map.specs.Way.{way_verdict, verdict_from, other_verdict};

use crate::hasher::{MapHasher, MapViews, hash_with_sibling};
use crate::key::{are_same_keys, bit_of};
use ark_base::error::Error;
use ark_base::serialize::DigestItem;
use std::alloc::Global;

/// The most digests that a proof of one key has: the bits of a key.
pub const KEY_BITS: usize = 256;

// Returns whether digests lead from the digest of a way's end to a root. Errors: those of the hash of pairs, the lowest first;
// `OutOfMemory`.
fn leads_to_root<D: DigestItem, H: MapViews<Input = [u8; 32], Output = D>>(
    alloc: Global,
    hasher: &MapHasher<H>,
    root: &D,
    key: &[u8; 32],
    mut own: D,
    siblings: &[D],
) -> Result<bool, Error>
    requires { length siblings.now ≤ 256 }
    ensures { Answers (verdict_from (H.hashes hasher.now) (D.numbers root.now) key.now
        (map D.numbers siblings.now) (D.numbers own)) result }
{
    let mut level = siblings.len();
    'levels: while level > 0 {
        level -= 1;
        own = hash_with_sibling(alloc, hasher, bit_of(key, level), &own, &siblings[level])?;
    }
    Ok(own == *root)
}

// Returns whether digests lead from the entry at a way's end to a root. Errors: those of the hashes, the lowest first;
// `OutOfMemory`.
fn leaf_leads_to<D: DigestItem, H: MapViews<Input = [u8; 32], Output = D>>(
    alloc: Global,
    hasher: &MapHasher<H>,
    root: &D,
    key: &[u8; 32],
    end_key: &[u8; 32],
    end_value: &[u8; 32],
    siblings: &[D],
) -> Result<bool, Error>
    ensures { Answers (way_verdict (H.hashes hasher.now) (D.numbers root.now) key.now
        (map D.numbers siblings.now) (leaf_of end_key.now end_value.now)) result }
{
    if siblings.len() > KEY_BITS {
        return Ok(false);
    }
    let own = hasher.leaf(alloc, end_key, end_value)?;
    leads_to_root(alloc, hasher, root, key, own, siblings)
}

/// Returns whether the digests beside a key's way prove that a map with this root has a value at the key.
///
/// The answer is `false` for more digests than a key has bits. Errors: those of the hash of the entry; those of the hash of
/// pairs, the lowest first; `OutOfMemory`.
pub fn verify_value<D: DigestItem, H: MapViews<Input = [u8; 32], Output = D>>(
    alloc: Global,
    hasher: &MapHasher<H>,
    root: &D,
    key: &[u8; 32],
    value: &[u8; 32],
    siblings: &[D],
) -> Result<bool, Error>
    ensures answer { Answers (way_verdict (H.hashes hasher.now) (D.numbers root.now) key.now
        (map D.numbers siblings.now) (leaf_of key.now value.now)) result }

    // In each map with this root the key has this value, or at some level of the key's way the proof and the map's own tree
    // have two different nodes with one hash.
    ensures bound { IfOk result (λ accepted. accepted ≡ true
        → BindsValue (H.hashes hasher.now) (D.numbers root.now) key.now (Some value.now)
        (map D.numbers siblings.now) (leaf_of key.now value.now)) }
{
    leaf_leads_to(alloc, hasher, root, key, key, value, siblings)
}

// Returns whether digests lead from a way's end at no entry to a root. Errors: those of the hash of pairs, the lowest first;
// `OutOfMemory`.
fn nothing_leads_to<D: DigestItem, H: MapViews<Input = [u8; 32], Output = D>>(
    alloc: Global,
    hasher: &MapHasher<H>,
    root: &D,
    key: &[u8; 32],
    siblings: &[D],
) -> Result<bool, Error>
    ensures { Answers (way_verdict (H.hashes hasher.now) (D.numbers root.now) key.now
        (map D.numbers siblings.now) Nothing) result }
{
    if siblings.len() > KEY_BITS {
        return Ok(false);
    }
    let own = hasher.nothing(alloc)?;
    leads_to_root(alloc, hasher, root, key, own, siblings)
}

/// Returns whether the digests beside a key's way, which ends at no entry, prove that a map with this root has nothing at the
/// key.
///
/// The answer is `false` for more digests than a key has bits. Errors: those of the hash of pairs, the lowest first;
/// `OutOfMemory`.
pub fn verify_absent<D: DigestItem, H: MapViews<Input = [u8; 32], Output = D>>(
    alloc: Global,
    hasher: &MapHasher<H>,
    root: &D,
    key: &[u8; 32],
    siblings: &[D],
) -> Result<bool, Error>
    ensures answer { Answers (way_verdict (H.hashes hasher.now) (D.numbers root.now) key.now
        (map D.numbers siblings.now) Nothing) result }
    ensures bound { IfOk result (λ accepted. accepted ≡ true
        → BindsValue (H.hashes hasher.now) (D.numbers root.now) key.now None
        (map D.numbers siblings.now) Nothing) }
{
    nothing_leads_to(alloc, hasher, root, key, siblings)
}

/// Returns whether the digests beside a key's way, which ends at the entry of another key, prove that a map with this root has
/// nothing at the key.
///
/// The answer is `false` if the other key is the key itself, or for more digests than a key has bits. Errors: as of
/// `verify_value`.
pub fn verify_other<D: DigestItem, H: MapViews<Input = [u8; 32], Output = D>>(
    alloc: Global,
    hasher: &MapHasher<H>,
    root: &D,
    key: &[u8; 32],
    other_key: &[u8; 32],
    other_value: &[u8; 32],
    siblings: &[D],
) -> Result<bool, Error>
    ensures answer { Answers (other_verdict (H.hashes hasher.now) (D.numbers root.now) key.now
        (map D.numbers siblings.now) other_key.now other_value.now) result }
    ensures bound { IfOk result (λ accepted. accepted ≡ true
        → BindsValue (H.hashes hasher.now) (D.numbers root.now) key.now None
        (map D.numbers siblings.now) (leaf_of other_key.now other_value.now)) }
{
    if are_same_keys(other_key, key) {
        Ok(false)
    } else {
        leaf_leads_to(alloc, hasher, root, key, other_key, other_value, siblings)
    }
}
