//! Checks that a leaf stands in a log.

ghost use Rattle.std.specs.Prelude.{◌≡◌, ◌<◌, ◌≤◌, ◌^◌, ℕ, true, map, IfOk, Ok};
ghost use Rattle.ark_base.specs.Outcome.{Answers};
ghost use Rattle.merkle_log.specs.Bind.{BindsDigest, BindsLogLeaf, IsInclusion, IsLeafInclusion};
ghost use Rattle.merkle_log.specs.Verdict.{leads_to, inclusion_verdict, leaf_verdict};

use crate::digests::copy_of;
use crate::way::{has_beside, hash_beside};
use ark_base::error::Error;
use ark_base::serialize::DigestItem;
use ark_paths::digests::are_same;
use ark_paths::hasher::TreeHasher;
use std::alloc::Global;

/// Checks that a leaf stands at an index of the log with this root and size (RFC 9162, section 2.1.3.2).
///
/// Size and index may be any numbers, and the path any list. The answer is false for an index not below the size and for a path
/// that is not as long as the way is. It hashes the leaf and at most 64 pairs. Errors: that of the leaf's hash; those of
/// the pairs' hash, the lowest first; `OutOfMemory`.
pub fn verify_inclusion<D: DigestItem, T: TreeHasher<D, D>>(
    alloc: Global,
    hasher: &T,
    root: &D,
    size: u64,
    index: u64,
    leaf: &T::Leaf,
    path: &[D],
) -> Result<bool, Error>
    ensures answer { Answers (leaf_verdict (T.hashes hasher.now) (D.numbers root.now) size index
        leaf.now (map D.numbers path.now)) result }

    // In each list of this size with this root the leaf's hash stands at the index, or at some level the path's pair and that
    // of the list's tree differ and hash alike.
    ensures bound { IfOk result (λ accepted. accepted ≡ true → BindsLogLeaf (T.hashes hasher.now)
        (D.numbers root.now) size index leaf.now (map D.numbers path.now)) }

    // A log's own path is accepted.
    ensures own { IsLeafInclusion (T.hashes hasher.now) (D.numbers root.now) size index leaf.now
        (map D.numbers path.now) → Answers (Ok true) result }
{
    if index >= size {
        return Ok(false);
    }
    let digest = hasher.leaf(alloc, leaf)?;
    leads_to(alloc, hasher, root, size - 1, index, digest, path)
}

/// Checks that a leaf's digest stands at an index of the log with this root and size, as `verify_inclusion` does of a leaf.
///
/// Errors: those of the pairs' hash, the lowest first; `OutOfMemory`.
pub fn verify_inclusion_digest<D: DigestItem, T: TreeHasher<D, D>>(
    alloc: Global,
    hasher: &T,
    root: &D,
    size: u64,
    index: u64,
    digest: &D,
    path: &[D],
) -> Result<bool, Error>
    ensures answer { Answers (inclusion_verdict (T.hashes hasher.now).pair.upper
        (D.numbers root.now) size index (D.numbers digest.now) (map D.numbers path.now)) result }

    // In each list of this size with this root the digest stands at the index, or at some level the path's pair and that of
    // the list's tree differ and hash alike.
    ensures bound { IfOk result (λ accepted. accepted ≡ true
        → BindsDigest (T.hashes hasher.now).pair.upper (D.numbers root.now) size index
        (D.numbers digest.now) (map D.numbers path.now)) }

    // A log's own path is accepted.
    ensures own { IsInclusion (T.hashes hasher.now).pair.upper (D.numbers root.now) size index
        (D.numbers digest.now) (map D.numbers path.now) → Answers (Ok true) result }
{
    if index >= size {
        return Ok(false);
    }
    let own = copy_of(alloc, digest)?;
    leads_to(alloc, hasher, root, size - 1, index, own, path)
}

// Whether a path leads from a digest at an index of a row, whose last index is given, to a root.
fn leads_to<D: DigestItem, T: TreeHasher<D, D>>(
    alloc: Global,
    hasher: &T,
    root: &D,
    mut last: u64,
    mut index: u64,
    mut own: D,
    path: &[D],
) -> Result<bool, Error>
    requires { index ≤ last }
    ensures { (k : ℕ) → last < 2 ^ k
        → Answers (leads_to (T.hashes hasher.now).pair.upper (D.numbers root.now) k index last
        (D.numbers own) (map D.numbers path.now)) result }
{
    let mut used = 0;
    'levels: while last > 0 {
        if has_beside(index, last) {
            if used == path.len() {
                return Ok(false);
            }
            own = hash_beside(alloc, hasher, index % 2 == 1, &own, &path[used])?;
            used += 1;
        }
        index /= 2;
        last /= 2;
    }
    Ok(used == path.len() && are_same(&own, root))
}
