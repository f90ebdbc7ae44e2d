//! A log publishes a root and hands out receipts, which a client checks without the log.

ghost use Rattle.std.specs.Prelude.{◌≡◌, ◌<◌, ◌≤◌, true, false, length, map, IfOk, Ok, Err};
ghost use Rattle.ark_crypto_primitives.specs.Words.{AnswersBy, IncorrectInputLength, ShowsLeaf, is_tree_size, log2, path_in, root_in, tree_hash_of_entries, tree_of};

use ark_crypto_primitives::Error;
use ark_crypto_primitives::merkle_tree::{MerkleTree, Path, Views, is_tree_size};
use ark_crypto_primitives::serialize::canonical_bytes;
use ark_crypto_primitives::trees::{Sha256Log, log_tree};
use std::alloc::Global;

/// What a log publishes: the root over its entries, and their count.
#[derive(Debug, Clone, Copy)]
pub struct Head {
    pub root: [u8; 32],
    pub size: usize,
}

/// Returns the log of these entries.
///
/// Errors: `IncorrectInputLength` where their count is no power of two above one; `OutOfMemory`.
pub fn open(alloc: Global, entries: &[Vec<u8>]) -> Result<MerkleTree<Sha256Log>, Error>
    ensures size { let size = length entries.now in
        is_tree_size size ≡ false → result ≡ Err (IncorrectInputLength size) }
    ensures tree { let hashes = ⟦<Sha256Log as Views>⟧.hashes tt tt in
        is_tree_size (length entries.now) ≡ true
        → AnswersBy ⟦<Sha256Log as Views>⟧.tree (tree_of hashes entries.now) result }

    // Its root is the Merkle tree hash of the entries (RFC 6962, section 2.1).
    ensures root { let entries = map (λ entry. entry.items) entries.now in
        let hash = tree_hash_of_entries (log2 (length entries)) entries in
        IfOk result (λ log. root_in (⟦<Sha256Log as Views>⟧.tree log) ≡ Ok hash) }
{
    if !is_tree_size(entries.len()) {
        return Err(Error::IncorrectInputLength(entries.len()));
    }
    log_tree(alloc, entries)
}

/// Returns what the log publishes.
pub fn head_to_publish(log: &MerkleTree<Sha256Log>) -> Head
    ensures root { root_in (⟦<Sha256Log as Views>⟧.tree log.now) ≡ Ok result.root }
    ensures size { result.size ≡ length log.now.leaves }
{
    Head {
        root: *log.root(),
        size: log.size(),
    }
}

/// Returns the receipt of the entry at an index: the canonical bytes of its path.
///
/// Errors: `IncorrectInputLength(index)` at the size and past it; `OutOfMemory`.
pub fn receipt(alloc: Global, log: &MerkleTree<Sha256Log>, index: usize) -> Result<Vec<u8>, Error>
    ensures past { length log.now.leaves ≤ index → result ≡ Err (IncorrectInputLength index) }
    ensures bytes { let path = path_in (⟦<Sha256Log as Views>⟧.tree log.now) index in
        let bytes = ⟦<Sha256Log as Views>⟧.path_bytes path in
        index < length log.now.leaves → AnswersBy (λ receipt. receipt.items) (Ok bytes) result }
{
    if index >= log.size() {
        return Err(Error::IncorrectInputLength(index));
    }
    canonical_bytes(alloc, &log.generate_proof(alloc, index)?)
}

/// Returns a client's check, with the head alone: whether the receipt shows that the entry stands at the index.
pub fn is_logged(
    alloc: Global,
    head: &Head,
    index: usize,
    entry: &Vec<u8>,
    receipt: &[u8],
) -> Result<bool, Error>
    // Every log with that head has at the index an entry with this one's hash, or two pairs that hash alike are named.
    ensures { let hashes = ⟦<Sha256Log as Views>⟧.hashes tt tt in
        let reading = ⟦<Sha256Log as Views>⟧.path_reading receipt.now in
        IfOk result (λ is_logged. is_logged ≡ true
        → ShowsLeaf hashes head.now.root head.now.size index entry.now reading) }
{
    Path::<Sha256Log>::verify_bytes(
        alloc,
        &(),
        &(),
        &head.root,
        head.size,
        index,
        receipt,
        entry,
    )
}
