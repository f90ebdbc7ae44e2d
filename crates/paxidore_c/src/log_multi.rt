//! One proof of several entries of a log of any size (over the trees of RFC 9162, section 2.1): its check, and its bytes out of
//! the log's stored digests.

ghost use Rattle.std.specs.Prelude.{◌≡◌, ◌≤◌, ℕ, List, length, pos, IfOk, Ok};
ghost use Rattle.ark_paths.specs.Pair.{Digest};
ghost use Rattle.ark_trees.specs.Rfc6962.{log_hashes};
ghost use Rattle.merkle_log.specs.Kept.{Keeps};
ghost use Rattle.merkle_log.specs.Multi.{multi_length};
ghost use Rattle.merkle_log.specs.MultiBind.{ShowsLogLeaves};
ghost use Rattle.paxidore_c.specs.LogMulti.{entries_at, entries_shown, if_rising, multi_inclusion_bytes};
ghost use Rattle.paxidore_calls.specs.Answer.{GivesCode, Hands, verdict_code};
ghost use Rattle.paxidore_calls.specs.LogProofs.{proof_digests};

use crate::log_keeper::DigestHasher;
use ark_trees::LogHasher;
use merkle_log::kept::Kept;
use merkle_log::multi_parts::{are_multi_indexes, multi_length};
use merkle_log::verify_multi_inclusion_bytes;
use paxidore_calls::buffer::hand_over_digests;
use paxidore_calls::leaves::digests_of_leaves;
use paxidore_calls::refused::{Refused, verdict_code};
use std::alloc::Global;

/// Returns whether the bytes of one proof show entries at some indexes of a log with this root and size.
///
/// Answers: 0 for a yes, 1 for another root; else the first of `E_COUNT` for another count of entries than of indexes, `E_INDEX`
/// for no index and for indexes that do not rise or are not below the size, `E_LENGTHS`, `E_TRUNCATED`, `E_INVALID` for bytes of
/// more digests than such a proof has; `E_MEMORY` in place of any.
#[unsafe(no_mangle)]
pub extern "C" fn paxidore_log_verify_multi_inclusion(
    alloc: Global,
    root: &[u8; 32],
    size: usize,
    indexes: &[usize],
    entries: &[u8],
    lengths: &[usize],
    proof: &[u8],
) -> i32
    ensures answer { GivesCode (verdict_code (entries_shown root.now size indexes.now entries.now
        lengths.now proof.now)) result }

    // 0 says: in every log with this root and size the entries' hashes stand at the indexes, or below some place the proof's pair
    // and that of the log's tree differ and hash alike.
    ensures shows { result ≡ pos 0
        → IfOk (entries_at size indexes.now entries.now lengths.now)
        (λ xs. ShowsLogLeaves (log_hashes (λ bytes. bytes)) root.now size indexes.now xs
        (proof_digests (multi_length size indexes.now) proof.now)) }
{
    if lengths.len() != indexes.len() {
        return Refused::Count.code();
    }
    if !are_multi_indexes(size, indexes) {
        return Refused::Index.code();
    }
    let digests = match digests_of_leaves::<LogHasher>(alloc, entries, lengths) {
        Ok(digests) => digests,
        Err(refused) => return refused.code(),
    };
    verdict_code(verify_multi_inclusion_bytes(
        alloc,
        &DigestHasher,
        root,
        size,
        indexes,
        &digests,
        proof,
    ))
}

/// Writes the bytes of the one proof of some indexes of the first `size` entries to the front of `proof`, and their count.
///
/// Answers: 0; else the first of `E_SIZE` for fewer digests than are stored, `E_INDEX` for no index and for indexes that do not
/// rise or are not below the size, `E_ROOM`, which alone writes the count that is needed; `E_MEMORY` in place of any. Any other
/// refusal leaves both buffers as before.
#[unsafe(no_mangle)]
pub extern "C" fn paxidore_log_multi_inclusion(
    alloc: Global,
    proof: &mut [u8],
    proof_len: &mut usize,
    kept: &[[u8; 32]],
    size: usize,
    indexes: &[usize],
) -> i32
    // Of a list of at least `size` leaf digests whose stored ones are kept, they are those of the proof of its first ones.
    ensures proof { (leaves : List Digest) → size ≤ length leaves → Keeps leaves kept.now
        → Hands (if_rising size indexes.now kept.now (multi_inclusion_bytes size indexes.now
        leaves)) proof.old proof.new proof_len.old proof_len.new result }

    // Whatever is kept, some bytes are handed over.
    ensures given { (bytes : List ℕ)
        × (Hands (if_rising size indexes.now kept.now (Ok bytes)) proof.old proof.new proof_len.old
        proof_len.new result) }
{
    let Some(kept) = Kept::of(size, kept) else {
        return Refused::Size.code();
    };
    if !are_multi_indexes(kept.size(), indexes) {
        return Refused::Index.code();
    }
    let Ok(mut digests) = vec![in alloc; [0u8; 32]; multi_length(kept.size(), indexes)] else {
        return Refused::Memory.code();
    };
    kept.write_multi_proof(indexes, &mut digests);
    hand_over_digests(&digests, proof, proof_len)
}
