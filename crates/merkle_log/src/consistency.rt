//! Checks that a log is the front of another.

ghost use Rattle.std.specs.Prelude.{◌≡◌, ◌<◌, ◌≤◌, ◌^◌, ℕ, true, map, IfOk, Ok};
ghost use Rattle.ark_base.specs.Outcome.{Answers, AnswersBy};
ghost use Rattle.merkle_log.specs.Walk.{hash_both as hash_of_both};
ghost use Rattle.merkle_log.specs.Bind.{BindsFront, BindsOldRoot, IsConsistency};
ghost use Rattle.merkle_log.specs.Verdict.{both_seen, leads_to_both, leads_from_seed, consistency_verdict};

use crate::digests::{are_both_same, copy_of};
use crate::way::has_beside;
use ark_base::error::Error;
use ark_base::serialize::DigestItem;
use ark_paths::digests::are_same;
use ark_paths::hasher::TreeHasher;
use std::alloc::Global;

/// Checks that the log of an old size and root is the front of that of a new size and root (RFC 9162, section 2.1.4.2).
///
/// The sizes may be any numbers, and the path any list. The answer is false for the old size 0 and for an old size above the new
/// one; for equal sizes it is whether the roots are equal and the path is empty. It hashes at most 128 pairs. Errors:
/// those of the hash, the lowest pair's first, that for the old root before that for the new one; `OutOfMemory`.
pub fn verify_consistency<D: DigestItem, T: TreeHasher<D, D>>(
    alloc: Global,
    hasher: &T,
    old_size: u64,
    old_root: &D,
    new_size: u64,
    new_root: &D,
    path: &[D],
) -> Result<bool, Error>
    ensures answer { Answers (consistency_verdict (T.hashes hasher.now).pair.upper old_size
        (D.numbers old_root.now) new_size (D.numbers new_root.now) (map D.numbers path.now))
        result }

    // Each list of the old size with the old root is the front of each list of the new size with the new root, or two pairs
    // that are named differ and hash alike: of the walk and one list's tree, or of both lists' trees.
    ensures bound { IfOk result (λ accepted. accepted ≡ true
        → BindsFront (T.hashes hasher.now).pair.upper old_size (D.numbers old_root.now) new_size
        (D.numbers new_root.now) (map D.numbers path.now)) }

    // One list is enough: the front of each list with the new root has the old root, or such a pair of the walk is named.
    ensures front { IfOk result (λ accepted. accepted ≡ true
        → BindsOldRoot (T.hashes hasher.now).pair.upper old_size (D.numbers old_root.now) new_size
        (D.numbers new_root.now) (map D.numbers path.now)) }

    // A log's own path is accepted.
    ensures own { IsConsistency (T.hashes hasher.now).pair.upper old_size (D.numbers old_root.now)
        new_size (D.numbers new_root.now) (map D.numbers path.now) → Answers (Ok true) result }
{
    is_front(alloc, hasher, old_size, old_root, new_size, new_root, path)
}

// By the sizes: an old log with as many digests has the new root and no path.
fn is_front<D: DigestItem, T: TreeHasher<D, D>>(
    alloc: Global,
    hasher: &T,
    old_size: u64,
    old_root: &D,
    new_size: u64,
    new_root: &D,
    path: &[D],
) -> Result<bool, Error>
    ensures { Answers (consistency_verdict (T.hashes hasher.now).pair.upper old_size
        (D.numbers old_root.now) new_size (D.numbers new_root.now) (map D.numbers path.now))
        result }
{
    if old_size == 0 || new_size < old_size {
        return Ok(false);
    }
    if old_size == new_size {
        return Ok(path.is_empty() && are_same(old_root, new_root));
    }
    let mut index = old_size - 1;
    let mut last = new_size - 1;
    'complete: while index % 2 == 1 {
        index /= 2;
        last /= 2;
    }
    leads_from_seed(alloc, hasher, old_root, new_root, index, last, path)
}

// From an index of a row where both logs have one digest: the old root, where the old log is that digest, and else the
// first of the path.
fn leads_from_seed<D: DigestItem, T: TreeHasher<D, D>>(
    alloc: Global,
    hasher: &T,
    old_root: &D,
    new_root: &D,
    index: u64,
    last: u64,
    path: &[D],
) -> Result<bool, Error>
    requires { index ≤ last }
    ensures { (k : ℕ) → last < 2 ^ k
        → Answers (leads_from_seed (T.hashes hasher.now).pair.upper (D.numbers old_root.now)
        (D.numbers new_root.now) k index last (map D.numbers path.now)) result }
{
    if index == 0 {
        return leads_to_both(
            alloc, hasher, old_root, new_root, index, last, old_root, path,
        );
    }
    if path.is_empty() {
        return Ok(false);
    }
    leads_to_both(
        alloc,
        hasher,
        old_root,
        new_root,
        index,
        last,
        &path[0],
        &path[1..],
    )
}

// From an index of a row, where both logs have this digest.
fn leads_to_both<D: DigestItem, T: TreeHasher<D, D>>(
    alloc: Global,
    hasher: &T,
    old_root: &D,
    new_root: &D,
    mut index: u64,
    mut last: u64,
    shared: &D,
    path: &[D],
) -> Result<bool, Error>
    requires { index ≤ last }
    ensures { (k : ℕ) → last < 2 ^ k
        → Answers (leads_to_both (T.hashes hasher.now).pair.upper (D.numbers old_root.now)
        (D.numbers new_root.now) k index last (D.numbers shared.now) (map D.numbers path.now))
        result }
{
    let mut ends = (copy_of(alloc, shared)?, copy_of(alloc, shared)?);
    let mut used = 0;
    'levels: while last > 0 {
        if has_beside(index, last) {
            if used == path.len() {
                return Ok(false);
            }
            ends = hash_both(alloc, hasher, index % 2 == 1, ends, &path[used])?;
            used += 1;
        }
        index /= 2;
        last /= 2;
    }
    Ok(used == path.len() && are_both_same(&ends, old_root, new_root))
}

// The hashes of two digests and the one beside both: left of both, or right of the second.
fn hash_both<D: DigestItem, T: TreeHasher<D, D>>(
    alloc: Global,
    hasher: &T,
    is_right: bool,
    own: (D, D),
    beside: &D,
) -> Result<(D, D), Error>
    ensures { AnswersBy (both_seen D.numbers) (hash_of_both (T.hashes hasher.now).pair.upper
        is_right (both_seen D.numbers own) (D.numbers beside.now)) result }
{
    let (old, new) = own;
    if is_right {
        let old = hasher.upper(alloc, beside, &old)?;
        let new = hasher.upper(alloc, beside, &new)?;
        Ok((old, new))
    } else {
        let new = hasher.upper(alloc, &new, beside)?;
        Ok((old, new))
    }
}
