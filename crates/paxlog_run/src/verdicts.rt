//! Checks of a log's proofs that stand in hexadecimal.

ghost use Rattle.std.specs.Prelude.{◌≡◌, ℕ, List, true, Ok, IfOk};
ghost use Rattle.hex.specs.Hex.{decode_of};
ghost use Rattle.ark_trees.specs.Rfc6962.{log_hashes, node_of};
ghost use Rattle.merkle_log.specs.Received.{ShowsFront, ShowsLogLeaf, consistency_length, inclusion_length, proof_digests};
ghost use Rattle.log_file.specs.Faults.{FileGivesBy};
ghost use Rattle.log_file.specs.Shown.{continuing_shown, entry_shown};
ghost use Rattle.log_file.specs.declared.fault.Fault.TheVariants.{Index, Size};
ghost use Rattle.paxlog_run.specs.Verdicts.{continuing_shown_by, entry_shown_by, in_hex, with_fault};

use ark_trees::LogHasher;
use hex::FromHexError;
use log_file::fault::Fault;
use merkle_log::{verify_consistency_bytes, verify_inclusion_bytes};
use std::alloc::Global;

// The bytes that a word spells in hexadecimal.
fn bytes_in_hex(alloc: Global, word: &[u8]) -> Result<Vec<u8>, Fault>
    ensures { FileGivesBy (λ bytes. bytes.items) (in_hex (decode_of word.now)) result }
{
    match hex::decode(alloc, word) {
        Ok(bytes) => Ok(bytes),
        Err(FromHexError::OutOfMemory) => Err(Fault::Memory),
        Err(_) => Err(Fault::Word),
    }
}

// Whether the bytes of a path show an entry at an index of the log with this root and size.
fn shows_entry(
    alloc: Global,
    root: &[u8; 32],
    size: usize,
    index: usize,
    entry: &Vec<u8>,
    path: &[u8],
) -> Result<bool, Fault>
    ensures answer { FileGivesBy (λ holds. holds) (entry_shown Index with_fault root.now size index
        entry.now.items path.now) result }
    ensures shows { let hashes = log_hashes (λ bytes. bytes) in
        let digests = proof_digests (inclusion_length size index) path.now in
        result ≡ Ok true → ShowsLogLeaf hashes root.now size index entry.now.items digests }
{
    if index >= size {
        return Err(Fault::Index);
    }
    let (size, index) = (size as u64, index as u64);
    Ok(verify_inclusion_bytes(alloc, &LogHasher, root, size, index, entry, path)?)
}

/// Returns whether the path that a word spells shows an entry at an index of the log with this root and size.
///
/// Errors, the first that applies: `Word`, `Index`, `Length`; `Memory` in place of any.
pub fn check_inclusion(
    alloc: Global,
    root: &[u8; 32],
    size: usize,
    index: usize,
    entry: &Vec<u8>,
    word: &[u8],
) -> Result<bool, Fault>
    ensures answer { FileGivesBy (λ holds. holds) (entry_shown_by root.now size index
        entry.now.items word.now) result }

    // What the word spells binds the entry.
    ensures shows { let hashes = log_hashes (λ bytes. bytes) in
        let digests = proof_digests (inclusion_length size index) in
        result ≡ Ok true → (path : List ℕ) × (decode_of word.now ≡ Ok path)
        × ShowsLogLeaf hashes root.now size index entry.now.items (digests path) }
{
    let path = bytes_in_hex(alloc, word)?;
    shows_entry(alloc, root, size, index, entry, &path)
}

// Whether the bytes of a consistency proof show that the log with one root and size continues another.
fn shows_continuing(
    alloc: Global,
    old_size: usize,
    old_root: &[u8; 32],
    size: usize,
    root: &[u8; 32],
    proof: &[u8],
) -> Result<bool, Fault>
    ensures answer { FileGivesBy (λ holds. holds) (continuing_shown Size with_fault old_size
        old_root.now size root.now proof.now) result }
    ensures shows { let digests = proof_digests (consistency_length old_size size) proof.now in
        result ≡ Ok true → ShowsFront node_of old_size old_root.now size root.now digests }
{
    if old_size == 0 || size < old_size {
        return Err(Fault::Size);
    }
    let (old_size, size) = (old_size as u64, size as u64);
    Ok(verify_consistency_bytes(alloc, &LogHasher, old_size, old_root, size, root, proof)?)
}

/// Returns whether the consistency proof that a word spells shows that the log with one root and size continues another.
///
/// Errors, the first that applies: `Word`, `Size` for the old size 0 and for one above the size, `Length`; `Memory` in place
/// of any.
pub fn check_consistency(
    alloc: Global,
    old_size: usize,
    old_root: &[u8; 32],
    size: usize,
    root: &[u8; 32],
    word: &[u8],
) -> Result<bool, Fault>
    ensures answer { FileGivesBy (λ holds. holds) (continuing_shown_by old_size old_root.now size
        root.now word.now) result }

    // What the word spells binds the old root.
    ensures shows { let digests = proof_digests (consistency_length old_size size) in
        result ≡ Ok true → (proof : List ℕ) × (decode_of word.now ≡ Ok proof)
        × ShowsFront node_of old_size old_root.now size root.now (digests proof) }
{
    let proof = bytes_in_hex(alloc, word)?;
    shows_continuing(alloc, old_size, old_root, size, root, &proof)
}
