//! Client-side checks of proofs that come as bytes: their digests alone, from the leaf up, as the structures of RFC 9162 have
//! them.

ghost use Rattle.std.specs.Prelude.{◌≡◌, true, map, IfOk};
ghost use Rattle.ark_base.specs.Outcome.{Answers, AnswersBy};
ghost use Rattle.ark_paths.specs.Rows.{digests_of};
ghost use Rattle.merkle_log.specs.Received.{digests_in, inclusion_length, consistency_length, received_inclusion, received_consistency, ShowsLogLeaf, ShowsFront};

use crate::consistency::verify_consistency;
use crate::inclusion::verify_inclusion;
use crate::path_lengths::{consistency_length, inclusion_length};
use ark_base::error::{Error, SerializationError};
use ark_base::serialize::DigestItem;
use ark_paths::hasher::TreeHasher;
use std::alloc::Global;

/// Reads so many digests and nothing else.
///
/// Errors: the first fault of a digest's bytes, `Truncated` where bytes are missing; `InvalidData` where bytes are
/// left; `OutOfMemory`.
pub fn read_digests<D: DigestItem>(alloc: Global, bytes: &[u8], count: u64) -> Result<Vec<D>, Error>
    ensures { AnswersBy (digests_of D.numbers) (digests_in D.reads
        (λ value. D.numbers_of (D.spelling value)) count bytes.now) result }
{
    let (digests, used) = D::read_items(alloc, count, bytes)?;
    if used < bytes.len() {
        return Err(Error::SerializationError(SerializationError::InvalidData));
    }
    Ok(digests)
}

/// Checks the bytes of a path, as `verify_inclusion` checks a path.
///
/// The bytes are the path's digests, from the leaf up, and no other byte. Errors, the first that applies: `InvalidData` for an
/// index not below the size; `Truncated` for bytes of fewer digests than the one count for index and size, `InvalidData`
/// for more bytes; those of `verify_inclusion`.
pub fn verify_inclusion_bytes<D: DigestItem, T: TreeHasher<D, D>>(
    alloc: Global,
    hasher: &T,
    root: &D,
    size: u64,
    index: u64,
    leaf: &T::Leaf,
    bytes: &[u8],
) -> Result<bool, Error>
    ensures answer { Answers (received_inclusion (T.hashes hasher.now) (D.numbers root.now) size
        index leaf.now (digests_in D.reads (λ value. D.numbers_of (D.spelling value))
        (inclusion_length size index) bytes.now)) result }

    // What the bytes spell binds the leaf, as in `verify_inclusion`.
    ensures bound { IfOk result (λ accepted. accepted ≡ true → ShowsLogLeaf (T.hashes hasher.now)
        (D.numbers root.now) size index leaf.now (digests_in D.reads
        (λ value. D.numbers_of (D.spelling value)) (inclusion_length size index) bytes.now)) }
{
    if index >= size {
        return Err(Error::SerializationError(SerializationError::InvalidData));
    }
    let path = read_digests(alloc, bytes, inclusion_length(size, index))?;
    verify_inclusion(alloc, hasher, root, size, index, leaf, &path)
}

/// Checks the bytes of a consistency proof, as `verify_consistency` checks a proof.
///
/// The bytes are the proof's digests, in its order, and no other byte. Errors, the first that applies: `InvalidData` for the old
/// size 0 and for one above the new size; `Truncated` and `InvalidData` for bytes of another length, as in
/// `verify_inclusion_bytes`; those of `verify_consistency`.
pub fn verify_consistency_bytes<D: DigestItem, T: TreeHasher<D, D>>(
    alloc: Global,
    hasher: &T,
    old_size: u64,
    old_root: &D,
    new_size: u64,
    new_root: &D,
    bytes: &[u8],
) -> Result<bool, Error>
    ensures answer { Answers (received_consistency (T.hashes hasher.now).pair.upper old_size
        (D.numbers old_root.now) new_size (D.numbers new_root.now) (digests_in D.reads
        (λ value. D.numbers_of (D.spelling value)) (consistency_length old_size new_size)
        bytes.now)) result }

    // What the bytes spell binds the old root, as in `verify_consistency`.
    ensures bound { IfOk result (λ accepted. accepted ≡ true
        → ShowsFront (T.hashes hasher.now).pair.upper old_size (D.numbers old_root.now) new_size
        (D.numbers new_root.now) (digests_in D.reads (λ value. D.numbers_of (D.spelling value))
        (consistency_length old_size new_size) bytes.now)) }
{
    if old_size == 0 || new_size < old_size {
        return Err(Error::SerializationError(SerializationError::InvalidData));
    }
    let path = read_digests(alloc, bytes, consistency_length(old_size, new_size))?;
    verify_consistency(alloc, hasher, old_size, old_root, new_size, new_root, &path)
}
