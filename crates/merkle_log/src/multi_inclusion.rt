//! Checks that several leaves stand in a log, by one proof of all.

ghost use Rattle.std.specs.Prelude.{◌≡◌, true, map, IfOk, Ok};
ghost use Rattle.ark_base.specs.Outcome.{Answers, AnswersBy};
ghost use Rattle.merkle_log.specs.Multi.{known_of, leaves_verdict, multi_length, multi_pairs, known_verdict, received_leaves};
ghost use Rattle.merkle_log.specs.MultiBind.{BindsDigests, BindsLogLeaves, IsLeavesProof, IsMultiProof, ShowsLogLeaves};
ghost use Rattle.merkle_log.specs.Received.{digests_in};

use crate::multi_check::are_shown;
use crate::multi_parts::{are_multi_indexes, have_counts, multi_length};
use crate::received::read_digests;
use crate::refusing::Refusing;
use ark_base::error::{Error, SerializationError};
use ark_base::serialize::DigestItem;
use ark_paths::hasher::TreeHasher;
use ark_paths::runs::leaves_in_runs;
use std::alloc::Global;

/// Checks that leaves stand at indexes of the log with this root and size, by one proof of all (over the trees of RFC 9162,
/// section 2.1).
///
/// The indexes rise, and each has a leaf; the proof has the hashes of the largest subtrees that hold none of them, from left to
/// right. The answer is false for no index, indexes that do not rise or are not below the size, and for other counts of leaves or
/// digests. Then no leaf is hashed. Errors: the first of the leaves' hash; those of the pairs' hash, the pairs below a pair
/// before it and left ones first; `OutOfMemory`.
pub fn verify_multi_inclusion<D: DigestItem, T: TreeHasher<D, D>>(
    alloc: Global,
    hasher: &T,
    root: &D,
    size: usize,
    indexes: &[usize],
    leaves: &[T::Leaf],
    proof: &[D],
) -> Result<bool, Error>
    ensures answer { Answers (leaves_verdict (T.hashes hasher.now) (D.numbers root.now) size
        indexes.now leaves.now (map D.numbers proof.now)) result }

    // In each list of this size with this root the leaves' hashes stand at the indexes, or below some place that is named the
    // check's pair and that of the list's tree differ and hash alike.
    ensures bound { IfOk result (λ accepted. accepted ≡ true
        → BindsLogLeaves (T.hashes hasher.now) (D.numbers root.now) size indexes.now leaves.now
        (map D.numbers proof.now)) }

    // A log's own proof is accepted.
    ensures own { IsLeavesProof (T.hashes hasher.now) (D.numbers root.now) size indexes.now
        leaves.now (map D.numbers proof.now) → Answers (Ok true) result }
{
    if !have_counts(size, indexes, leaves.len(), proof.len()) {
        return Ok(false);
    }
    let digests = leaves_in_runs(alloc, hasher, leaves)?;
    verify_multi_inclusion_digests(alloc, hasher, root, size, indexes, &digests, proof)
}

/// Checks that leaves' digests stand at indexes of the log with this root and size, as `verify_multi_inclusion` does of leaves.
///
/// Errors: those of the pairs' hash; `OutOfMemory`.
pub fn verify_multi_inclusion_digests<D: DigestItem, T: TreeHasher<D, D>>(
    alloc: Global,
    hasher: &T,
    root: &D,
    size: usize,
    indexes: &[usize],
    digests: &[D],
    proof: &[D],
) -> Result<bool, Error>
    ensures answer { Answers (known_verdict (T.hashes hasher.now).pair.upper (D.numbers root.now)
        size (known_of D.numbers indexes.now digests.now proof.now)) result }

    // In each list of this size with this root the digests stand at the indexes, or below some place that is named the check's
    // pair and that of the list's tree differ and hash alike.
    ensures bound { IfOk result (λ accepted. accepted ≡ true
        → BindsDigests (T.hashes hasher.now).pair.upper (D.numbers root.now) size
        (known_of D.numbers indexes.now digests.now proof.now)) }

    // A log's own proof is accepted.
    ensures own { IsMultiProof (T.hashes hasher.now).pair.upper (D.numbers root.now) size
        (known_of D.numbers indexes.now digests.now proof.now) → Answers (Ok true) result }
{
    let (shown, _) = verify_multi_inclusion_digests_counting(
        alloc, hasher, root, size, indexes, digests, proof,
    )?;
    Ok(shown)
}

/// Acts as `verify_multi_inclusion_digests`, and returns how many pairs were hashed: one fewer than there are digests of leaves
/// and of the proof, and none where the counts do not fit.
pub fn verify_multi_inclusion_digests_counting<D: DigestItem, T: TreeHasher<D, D>>(
    alloc: Global,
    hasher: &T,
    root: &D,
    size: usize,
    indexes: &[usize],
    digests: &[D],
    proof: &[D],
) -> Result<(bool, usize), Error>
    ensures answer { AnswersBy (λ counted. counted.0) (known_verdict
        (T.hashes hasher.now).pair.upper (D.numbers root.now) size
        (known_of D.numbers indexes.now digests.now proof.now)) result }
    ensures count { IfOk result (λ counted. counted.1 ≡ multi_pairs size
        (known_of D.numbers indexes.now digests.now proof.now)) }
{
    let mut pairs = Refusing::new(alloc, hasher);
    let shown = are_shown(&mut pairs, root, size, indexes, digests, proof)?;
    Ok((shown, pairs.calls()))
}

/// Checks the bytes of a multi-proof, as `verify_multi_inclusion` checks a proof.
///
/// The bytes are the proof's digests, from left to right, and no other byte. Errors, the first that applies: `InvalidData` for no
/// index, indexes that do not rise or are not below the size, and for another count of leaves; `Truncated` for bytes of fewer
/// digests than the one count for size and indexes, `InvalidData` for more bytes; those of `verify_multi_inclusion`.
pub fn verify_multi_inclusion_bytes<D: DigestItem, T: TreeHasher<D, D>>(
    alloc: Global,
    hasher: &T,
    root: &D,
    size: usize,
    indexes: &[usize],
    leaves: &[T::Leaf],
    bytes: &[u8],
) -> Result<bool, Error>
    ensures answer { Answers (received_leaves (T.hashes hasher.now) (D.numbers root.now) size
        indexes.now leaves.now (digests_in D.reads (λ value. D.numbers_of (D.spelling value))
        (multi_length size indexes.now) bytes.now)) result }

    // What the bytes spell binds the leaves, as in `verify_multi_inclusion`.
    ensures bound { IfOk result (λ accepted. accepted ≡ true → ShowsLogLeaves (T.hashes hasher.now)
        (D.numbers root.now) size indexes.now leaves.now (digests_in D.reads
        (λ value. D.numbers_of (D.spelling value)) (multi_length size indexes.now) bytes.now)) }
{
    if !are_multi_indexes(size, indexes) || leaves.len() != indexes.len() {
        return Err(Error::SerializationError(SerializationError::InvalidData));
    }
    let proof = read_digests(alloc, bytes, multi_length(size, indexes) as u64)?;
    verify_multi_inclusion(alloc, hasher, root, size, indexes, leaves, &proof)
}
