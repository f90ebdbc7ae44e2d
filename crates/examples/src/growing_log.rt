//! A log that grows, and a client that follows it: no accepted proof leads the client from one history to another.

ghost use Rattle.std.specs.Prelude.{◌≡◌, ◌≢◌, true, length, map, IfOk, Ok};
ghost use Rattle.ark_crypto_primitives.specs.Words.{AnswersBy, ShowsFront, ShowsLogLeaf, bytes_at, consistency_length, digests_in, inclusion_length, itself, log_hashes, node_of, root_at};

use ark_crypto_primitives::Error;
use ark_crypto_primitives::log::{
    Log, LogHasher, verify_consistency_bytes, verify_inclusion_bytes,
};
use std::alloc::Global;

/// What a log publishes: the root over its entries, and their count.
#[derive(Debug, Clone, Copy)]
pub struct Head {
    pub root: [u8; 32],
    pub size: u64,
}

/// Returns the head of a log. The only error is `OutOfMemory`.
pub fn head_to_publish(alloc: Global, log: &Log<[u8; 32], LogHasher>) -> Result<Head, Error>
    ensures root { let root = root_at node_of log.now (length log.now.digests) in
        AnswersBy (λ head. head.root) root result }
    ensures size { IfOk result (λ head. head.size ≡ length log.now.digests) }
{
    Ok(Head {
        root: log.root(alloc, log.size())?,
        size: log.size() as u64,
    })
}

/// A client, which keeps the last head that it took.
#[derive(Debug, Clone, Copy)]
pub struct Client {
    pub head: Head,
}

impl Client {
    /// Returns whether an entry stands at an index of the log: the log sent the bytes of its path.
    ///
    /// Errors: those of `verify_inclusion_bytes`.
    pub fn holds(
        &self,
        alloc: Global,
        index: u64,
        entry: &Vec<u8>,
        path: &[u8],
    ) -> Result<bool, Error>
        // In each log of this size with this root the entry's hash stands at the index, or at some level the path's pair and
        // that of the log's tree differ and hash alike.
        ensures shows { let head = self.now.head in
            let hashes = log_hashes (λ entry. entry.items) in
            let path = digests_in (bytes_at 32) itself
            (inclusion_length head.size index) path.now in
            result ≡ Ok true → ShowsLogLeaf hashes head.root head.size index entry.now path }
    {
        let Head { root, size } = self.head;
        verify_inclusion_bytes(alloc, &LogHasher, &root, size, index, entry, path)
    }

    /// Takes the head of a log that has grown, where the bytes of a consistency proof show that it did nothing else.
    ///
    /// Returns whether it was taken. Errors, which leave the client unchanged: those of `verify_consistency_bytes`.
    pub fn follow(&mut self, alloc: Global, next: &Head, proof: &[u8]) -> Result<bool, Error>
        ensures moves { result ≡ Ok true → self.new.head ≡ next.now }

        // Each list of the old size with the old root is the front of each list of the new size with the new root, or two
        // different pairs of the proof and of these lists' trees are named that hash alike.
        ensures continues { let old = self.old.head in
            let path = digests_in (bytes_at 32) itself
            (consistency_length old.size next.now.size) proof.now in
            result ≡ Ok true
            → ShowsFront node_of old.size old.root next.now.size next.now.root path }
        ensures stays { result ≢ Ok true → self.new ≡ self.old }
    {
        let Head { root, size } = self.head;
        let continues = verify_consistency_bytes(
            alloc, &LogHasher, size, &root, next.size, &next.root, proof,
        )?;
        if continues {
            self.head = *next;
        }
        Ok(continues)
    }
}
