//! Several entries of a log of any size, shown by one proof: what a client asks for that checks a batch.

ghost use Rattle.std.specs.Prelude.{◌≡◌, true, map, OnOk, Ok};
ghost use Rattle.ark_crypto_primitives.specs.Words.{BindsLogLeaves, log_hashes};

use ark_crypto_primitives::Error;
use ark_crypto_primitives::log::{Log, LogHasher, are_multi_indexes, verify_multi_inclusion};
use std::alloc::Global;

/// Returns the proof of entries at rising indexes of a log. `None` for no index, and for indexes that do not rise or are not
/// below the size. The only error is `OutOfMemory`.
pub fn receipt(
    alloc: Global,
    log: &Log<[u8; 32], LogHasher>,
    indexes: &[usize],
) -> Result<Option<Vec<[u8; 32]>>, Error> {
    let size = log.size();
    if !are_multi_indexes(size, indexes) {
        return Ok(None);
    }
    Ok(Some(log.multi_inclusion_proof(alloc, size, indexes)?))
}

/// Returns whether entries stand at these indexes of the log with this root and size.
///
/// The only error is `OutOfMemory`.
pub fn are_logged(
    alloc: Global,
    root: &[u8; 32],
    size: usize,
    indexes: &[usize],
    entries: &[Vec<u8>],
    receipt: &[[u8; 32]],
) -> Result<bool, Error>
    // In each log of this size with this root the entries' hashes stand at the indexes, or below some place that is named the
    // check's pair and that of the log's tree differ and hash alike.
    ensures { result ≡ Ok true → BindsLogLeaves (log_hashes (λ entry. entry.items)) root.now size
        indexes.now entries.now receipt.now }
{
    verify_multi_inclusion(alloc, &LogHasher, root, size, indexes, entries, receipt)
}
