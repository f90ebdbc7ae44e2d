//! What a pass hashed, kept where it belongs.

ghost use Rattle.std.specs.Prelude.{◌≡◌, true, All, IfOk, Ok};
ghost use Rattle.ark_base.specs.Outcome.{Outcome};
ghost use Rattle.merkle_map.specs.Kept.{IsFor, IsKept};
ghost use Rattle.merkle_map.specs.Map.{Digest, MapHashes};
ghost use Rattle.merkle_map.specs.Parts.{shape};
ghost use Rattle.merkle_map.specs.Together.{IsHashedPair, AreHashedEntries};
ghost use Rattle.merkle_map.specs.Tree.{shape_digest};

use crate::hasher::{MapHasher, MapViews};
use crate::key::{are_same_digests, are_same_keys, copy_digest};
use crate::part::{Entry, Part, Sides};
use crate::together::{HashedPair, Made, Passed, Work};
use ark_base::error::Error;
use ark_base::serialize::DigestItem;
use std::alloc::Global;

// Returns whether a key with its value is the entry.
fn is_entry(own: &([u8; 32], [u8; 32]), entry: &Entry) -> bool
    ensures key { result ≡ true → own.now.0 ≡ entry.now.key }
    ensures value { result ≡ true → own.now.1 ≡ entry.now.value }
{
    are_same_keys(&own.0, &entry.key) && are_same_keys(&own.1, &entry.value)
}

// Returns an entry's digest, if it is the entry that was hashed at a place. The only error is `OutOfMemory`.
fn entry_digest<D: DigestItem>(
    alloc: Global,
    entry: &Entry,
    entries: &[([u8; 32], [u8; 32])],
    digests: &[D],
    place: usize,
) -> Result<Option<D>, Error>
    ensures { (hashes : MapHashes) → AreHashedEntries D.numbers hashes entries.now digests.now
        → IfOk result (IsFor D.numbers (hashes.leaf entry.now.key entry.now.value)) }
{
    if place >= entries.len() || place >= digests.len() {
        return Ok(None);
    }
    if is_entry(&entries[place], entry) {
        let digest = copy_digest(alloc, &digests[place])?;
        return Ok(Some(digest));
    }
    Ok(None)
}

// Returns the digest of two, if they were hashed at a place. The only error is `OutOfMemory`.
fn pair_digest<D: DigestItem>(
    alloc: Global,
    left: &D,
    right: &D,
    forks: &[HashedPair<D>],
    place: usize,
) -> Result<Option<D>, Error>
    ensures { (hashes : MapHashes) → All (IsHashedPair D.numbers hashes) forks.now
        → IfOk result (IsFor D.numbers (hashes.pair (D.numbers left.now) (D.numbers right.now))) }
{
    let Some(made) = forks.get(place) else {
        return Ok(None);
    };
    if are_same_digests(&made.left, left) && are_same_digests(&made.right, right) {
        let own = copy_digest(alloc, &made.digest)?;
        return Ok(Some(own));
    }
    Ok(None)
}

// Returns the digest of the next fork of these two, if they were hashed at its place. The only error is `OutOfMemory`.
fn next_digest<D: DigestItem>(
    alloc: Global,
    left: &D,
    right: &D,
    made: &Made<D>,
    passed: &mut Passed,
) -> Result<Option<D>, Error>
    ensures { (hashes : MapHashes) → All (IsHashedPair D.numbers hashes) made.now.forks.items
        → IfOk result (IsFor D.numbers (hashes.pair (D.numbers left.now) (D.numbers right.now))) }
{
    let Some(place) = made.places.get(passed.forks) else {
        return Ok(None);
    };
    passed.forks = passed.forks.wrapping_add(1);
    pair_digest(alloc, left, right, &made.forks, *place)
}

// Keeps a digest, if it is known. The only error is `OutOfMemory`.
fn keep_known<D: DigestItem>(
    alloc: Global,
    kept: &mut Option<D>,
    own: Option<D>,
    passed: &mut Passed,
) -> Result<Option<D>, Error>
    ensures kept { (outcome : Outcome Digest) → IsFor D.numbers outcome kept.old
        → IsFor D.numbers outcome own → IsFor D.numbers outcome kept.new }
    ensures digest { IfOk result (λ known. (outcome : Outcome Digest) → IsFor D.numbers outcome own
        → IsFor D.numbers outcome known) }
{
    let Some(own) = own else {
        return Ok(None);
    };
    let copy = copy_digest(alloc, &own)?;
    *kept = Some(copy);
    passed.kept = passed.kept.wrapping_add(1);
    Ok(Some(own))
}

// Copies a digest that is known. The only error is `OutOfMemory`.
fn known_copy<D: DigestItem>(alloc: Global, digest: &D) -> Result<Option<D>, Error>
    ensures { IfOk result (IsFor D.numbers (Ok (D.numbers digest.now))) }
{
    Ok(Some(copy_digest(alloc, digest)?))
}

/// Keeps what was hashed, in the order of `gather`, and returns the tree's digest, if it is known now. The only error is
/// `OutOfMemory`.
pub fn scatter<D: DigestItem, H: MapViews<Input = [u8; 32], Output = D>>(
    alloc: Global,
    hasher: &MapHasher<H>,
    part: &mut Part<D>,
    work: &Work<D>,
    made: &Made<D>,
    passed: &mut Passed,
) -> Result<Option<D>, Error>
    requires kept { IsKept D.numbers (H.hashes hasher.now) part.old }
    requires entries { AreHashedEntries D.numbers (H.hashes hasher.now) work.now.entries.items
        made.now.entries.items }
    requires forks { All (IsHashedPair D.numbers (H.hashes hasher.now)) made.now.forks.items }
    ensures same { shape D.numbers part.new ≡ shape D.numbers part.old }
    ensures kept { IsKept D.numbers (H.hashes hasher.now) part.new }
    ensures digest { IfOk result (IsFor D.numbers (shape_digest (H.hashes hasher.now)
        (shape D.numbers part.old))) }
{
    match part {
        Part::Empty => {
            let digest = hasher.nothing(alloc)?;
            Ok(Some(digest))
        }
        Part::One { entry } => {
            let entry = &mut **entry;
            let place = passed.entries;
            passed.entries = place.wrapping_add(1);
            entry_digest(alloc, entry, &work.entries, &made.entries, place)
        }
        Part::Fork { sides } => {
            let Sides {
                left,
                right,
                digest,
            } = &mut **sides;
            if let Some(digest) = digest {
                return known_copy(alloc, digest);
            }
            if passed.forks >= made.places.len() {
                return Ok(None);
            }
            let on_left = scatter(alloc, hasher, left, work, made, passed)?;
            let on_right = scatter(alloc, hasher, right, work, made, passed)?;
            let (Some(l), Some(r)) = (on_left, on_right) else {
                return Ok(None);
            };
            let own = next_digest(alloc, &l, &r, made, passed)?;
            keep_known(alloc, digest, own, passed)
        }
        Part::Hidden { digest } => {
            let digest = &mut **digest;
            known_copy(alloc, digest)
        }
    }
}
