//! Clients of a transparency log of any size (RFC 6962 and RFC 9162, section 2.1): checks of its proofs.

ghost use Rattle.std.specs.Prelude.{◌≡◌, pos};
ghost use Rattle.ark_trees.specs.Rfc6962.{log_hashes, node_of};
ghost use Rattle.merkle_log.specs.Received.{ShowsFront, ShowsLogLeaf, consistency_length, inclusion_length};
ghost use Rattle.paxidore_calls.specs.Answer.{GivesCode, refusing, verdict_code};
ghost use Rattle.paxidore_calls.specs.LogProofs.{continuing_shown, entry_shown, proof_digests};
ghost use Rattle.paxidore_calls.specs.declared.refused.Refused.TheVariants.{Index, Size};

use ark_trees::LogHasher;
use merkle_log::{verify_consistency_bytes, verify_inclusion_bytes};
use paxidore_calls::refused::{Refused, verdict_code};
use std::alloc::Global;

/// Returns whether the bytes of a path show an entry at an index of a log with this root and size.
///
/// Answers: 0 for a yes, 1 for another root; else the first of `E_INDEX`, `E_TRUNCATED`, `E_INVALID` for bytes of more
/// digests than such a path has; `E_MEMORY` in place of any.
#[unsafe(no_mangle)]
pub extern "C" fn paxidore_log_verify_inclusion(
    alloc: Global,
    root: &[u8; 32],
    size: usize,
    index: usize,
    entry: &[u8],
    path: &[u8],
) -> i32
    ensures answer { GivesCode (verdict_code (entry_shown Index refusing root.now size index
        entry.now path.now)) result }

    // 0 says: in every log with this root and size the entry's hash stands at the index, or at some level the path's
    // pair and that of the log's tree differ and hash alike.
    ensures shows { result ≡ pos 0 → ShowsLogLeaf (log_hashes (λ bytes. bytes)) root.now size index
        entry.now (proof_digests (inclusion_length size index) path.now) }
{
    if index >= size {
        return Refused::Index.code();
    }
    let Ok(entry) = Vec::from_slice(alloc, entry) else {
        return Refused::Memory.code();
    };
    let (size, index) = (size as u64, index as u64);
    verdict_code(verify_inclusion_bytes(alloc, &LogHasher, root, size, index, &entry, path))
}

/// Returns whether the bytes of a consistency proof show that a log with a new root and size continues one with an old
/// root and size.
///
/// Answers: 0 for a yes, 1 for another root; else the first of `E_SIZE` for the old size 0 and for one above the new
/// size, `E_TRUNCATED`, `E_INVALID` for bytes of more digests than such a proof has; `E_MEMORY` in place of any.
#[unsafe(no_mangle)]
pub extern "C" fn paxidore_log_verify_consistency(
    alloc: Global,
    old_root: &[u8; 32],
    old_size: usize,
    new_root: &[u8; 32],
    new_size: usize,
    proof: &[u8],
) -> i32
    ensures answer { GivesCode (verdict_code (continuing_shown Size refusing old_size
        old_root.now new_size new_root.now proof.now)) result }

    // 0 says: each list of the old size with the old root is the front of each list of the new size with the new root,
    // or two different pairs of the proof and of these lists' trees are named that hash alike.
    ensures shows { result ≡ pos 0 → ShowsFront node_of old_size old_root.now new_size new_root.now
        (proof_digests (consistency_length old_size new_size) proof.now) }
{
    if old_size == 0 || new_size < old_size {
        return Refused::Size.code();
    }
    let (old_size, new_size) = (old_size as u64, new_size as u64);
    verdict_code(verify_consistency_bytes(
        alloc, &LogHasher, old_size, old_root, new_size, new_root, proof,
    ))
}
