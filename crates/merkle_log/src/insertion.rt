//! Insertions: the root of a list with digests behind it, for whoever has its root and its size alone.

ghost use Rattle.std.specs.Option.{option_map};
ghost use Rattle.std.specs.Prelude.{◌≡◌, ◌<◌, ◌≤◌, ◌+◌, ◌^◌, ◌++◌, List, [], count_ones, length, map, Some, IfOk, Ok};
ghost use Rattle.ark_base.specs.Outcome.{AnswersBy};
ghost use Rattle.ark_paths.specs.Pair.{Digest};
ghost use Rattle.merkle_log.specs.Given.{GivesBy};
ghost use Rattle.merkle_log.specs.Insertion.{BindsInsertion, IsInsertion, can_insert, first_known, insertion_root, makes_root, peaks_hash, received_insertion, root_over, some_digest, ShowsInsertion};
ghost use Rattle.merkle_log.specs.Log.{merkle_tree_hash};
ghost use Rattle.merkle_log.specs.Received.{digests_in};

use crate::multi_parts::levels_above;
use crate::nodes::NodeHasher;
use crate::received::read_digests;
use crate::refusing::Refusing;
use ark_base::error::Error;
use ark_base::serialize::DigestItem;
use ark_paths::digests::are_same;
use ark_paths::hasher::TreeHasher;
use std::alloc::Global;

// Returns a power of two.
fn power(level: usize) -> usize
    requires { level < 64 }
    ensures { result ≡ 2 ^ level }
{
    1 << level
}

// Returns the only digest of a tree: one that was hashed, or else the one that is known.
fn first_known<'a, D: DigestItem>(peaks: &'a [D], more: &'a [D], hashed: &'a Option<D>) -> &'a D
    requires { 0 < length peaks.now + length more.now }
    ensures { (none : Digest) → D.numbers result.now ≡ first_known D.numbers peaks.now more.now none
        hashed.now }
{
    match hashed {
        Some(digest) => digest,
        None => {
            if peaks.is_empty() {
                &more[0]
            } else {
                &peaks[0]
            }
        }
    }
}

// Hashes a tree of at most 2 ^ level digests, of which the first `size` are known by the roots of their complete trees: returns its
// hash, `None` where it is the first digest that is known. It recurs once a level.
fn hash_over<D: DigestItem, H: NodeHasher<D>>(
    hasher: &mut H,
    level: usize,
    size: usize,
    peaks: &[D],
    more: &[D],
) -> Result<Option<D>, H::Refusal>
    requires level { level ≤ 64 }
    requires some { 0 < size + length more.now }
    requires few { size + length more.now ≤ 2 ^ level }
    requires fits { size + length more.now < 2 ^ 64 }
    requires peaks { length peaks.now ≡ count_ones size }
    ensures hashed { (none : Digest) → GivesBy H.why
        (first_known D.numbers peaks.now more.now none) (peaks_hash (H.hash hasher.old) none level
        size (map D.numbers peaks.now) (map D.numbers more.now)) result }
    ensures same { H.hash hasher.new ≡ H.hash hasher.old }
{
    if peaks.len() + more.len() == 1 {
        return Ok(None);
    }
    let below = level - 1;
    let half = power(below);
    if size + more.len() <= half {
        return hash_over(hasher, below, size, peaks, more);
    }
    let own = size.min(half);
    let (first, last) = peaks.split_at(own.count_ones() as usize);
    let (front, back) = more.split_at(half - own);
    let left = hash_over(hasher, below, own, first, front)?;
    let right = hash_over(hasher, below, size - own, last, back)?;
    let left_digest = first_known(first, front, &left);
    let right_digest = first_known(last, back, &right);
    Ok(Some(hasher.node(left_digest, right_digest)?))
}

// Returns whether roots of complete trees make the root of a list.
fn makes_root<D: DigestItem, H: NodeHasher<D>>(
    hasher: &mut H,
    old_root: &D,
    size: usize,
    peaks: &[D],
) -> Result<bool, H::Refusal>
    requires { length peaks.now ≡ count_ones size }
    ensures made { GivesBy H.why (λ made. made) (makes_root (H.hash hasher.old)
        (D.numbers old_root.now) size (map D.numbers peaks.now)) result }
    ensures same { H.hash hasher.new ≡ H.hash hasher.old }
{
    if size == 0 {
        return Ok(true);
    }
    let hashed = hash_over(hasher, levels_above(size), size, peaks, &[])?;
    Ok(are_same(first_known(peaks, &[], &hashed), old_root))
}

// Returns the root of a list with digests behind it, by the roots of its complete trees.
fn root_over<D: DigestItem, H: NodeHasher<D>>(
    hasher: &mut H,
    old_root: &D,
    size: usize,
    peaks: &[D],
    more: &[D],
) -> Result<D, H::Refusal>
    requires fits { size + length more.now < 2 ^ 64 }
    requires peaks { length peaks.now ≡ count_ones size }
    ensures { GivesBy H.why D.numbers (root_over (H.hash hasher.old) (D.numbers old_root.now) size
        (map D.numbers peaks.now) (map D.numbers more.now)) result }
{
    let total = size + more.len();
    if total == 0 {
        return hasher.copied(old_root);
    }
    match hash_over(hasher, levels_above(total), size, peaks, more)? {
        Some(root) => Ok(root),
        None => hasher.copied(first_known(peaks, more, &None)),
    }
}

// Returns whether a list of this size has so many complete trees, and so many digests can come behind it.
fn can_insert(size: usize, peaks: usize, more: usize) -> bool
    ensures { result ≡ can_insert size peaks more }
{
    peaks == size.count_ones() as usize && size.checked_add(more).is_some()
}

/// Returns the root of a list with digests behind it, by its root, its size and its frontier, as `root_after_insertion` does by a
/// tree's hasher.
pub fn inserted_root<D: DigestItem, H: NodeHasher<D>>(
    hasher: &mut H,
    old_root: &D,
    size: usize,
    proof: &[D],
    more: &[D],
) -> Result<Option<D>, H::Refusal>
    ensures { GivesBy H.why (option_map D.numbers) (insertion_root (H.hash hasher.old)
        (D.numbers old_root.now) size (map D.numbers proof.now) (map D.numbers more.now)) result }
{
    if !can_insert(size, proof.len(), more.len()) {
        return Ok(None);
    }
    if !makes_root(hasher, old_root, size, proof)? {
        return Ok(None);
    }
    Ok(Some(root_over(hasher, old_root, size, proof, more)?))
}

/// Returns the root of a list with more digests behind it, of which the root and the size are known (over the trees of RFC 9162,
/// section 2.1).
///
/// The proof is the list's frontier: the roots of the complete trees into which it falls, the largest first. A list of no digests
/// has the empty proof, and any root. `None` says that the proof has another count of digests than the size has ones, or does not
/// make the old root, or that 2^64 digests or more would be. Errors: those of the hash, of the pairs for the old root first, then
/// the pairs below a pair before it and left ones first; `OutOfMemory`.
pub fn root_after_insertion<D: DigestItem, T: TreeHasher<D, D>>(
    alloc: Global,
    hasher: &T,
    old_root: &D,
    size: usize,
    proof: &[D],
    more: &[D],
) -> Result<Option<D>, Error>
    ensures answer { AnswersBy (option_map D.numbers) (insertion_root
        (T.hashes hasher.now).pair.upper (D.numbers old_root.now) size (map D.numbers proof.now)
        (map D.numbers more.now)) result }

    // It is the root of each list of this size with the old root and the digests behind it, or on some level that is named the
    // proof's pair and that of the list's tree differ and hash alike.
    ensures bound { IfOk result (λ new. (root : Digest) → option_map D.numbers new ≡ Some root
        → BindsInsertion (T.hashes hasher.now).pair.upper (D.numbers old_root.now) size
        (map D.numbers proof.now) (map D.numbers more.now) root) }

    // By a list's own frontier it is the root of the list with the digests behind it.
    ensures own { let hash = (T.hashes hasher.now).pair.upper in
        let added = map D.numbers more.now in
        (empty : Digest) (digests : List Digest) → IsInsertion hash (D.numbers old_root.now) size
        (map D.numbers proof.now) (length more.now) empty digests
        → AnswersBy (option_map D.numbers)
        (some_digest (merkle_tree_hash hash empty (digests ++ added))) result }
{
    inserted_root(
        &mut Refusing::new(alloc, hasher),
        old_root,
        size,
        proof,
        more,
    )
}

/// Returns the root after an insertion by the bytes of a proof, as `root_after_insertion` does by a proof.
///
/// The bytes are the proof's digests, the largest tree's first, and no other byte. Errors, the first that applies: `Truncated` for
/// bytes of fewer digests than the size has ones, `InvalidData` for more bytes; those of `root_after_insertion`.
pub fn root_after_insertion_bytes<D: DigestItem, T: TreeHasher<D, D>>(
    alloc: Global,
    hasher: &T,
    old_root: &D,
    size: usize,
    bytes: &[u8],
    more: &[D],
) -> Result<Option<D>, Error>
    ensures answer { AnswersBy (option_map D.numbers) (received_insertion
        (T.hashes hasher.now).pair.upper (D.numbers old_root.now) size (digests_in D.reads
        (λ value. D.numbers_of (D.spelling value)) (count_ones size) bytes.now)
        (map D.numbers more.now)) result }

    // What the bytes spell binds the new root, as in `root_after_insertion`.
    ensures bound { IfOk result (λ new. (root : Digest) → option_map D.numbers new ≡ Some root
        → ShowsInsertion (T.hashes hasher.now).pair.upper (D.numbers old_root.now) size (digests_in
        D.reads (λ value. D.numbers_of (D.spelling value)) (count_ones size) bytes.now)
        (map D.numbers more.now) root) }
{
    let proof = read_digests(alloc, bytes, size.count_ones() as u64)?;
    root_after_insertion(alloc, hasher, old_root, size, &proof, more)
}
