//! Logs whose stored digests lie in the caller's memory: roots, proofs and growth, in the hashing of RFC 6962 (section 2.1).
//!
//! The stored digests are those of all complete subtrees, in the order in which they are completed. They only grow, so that
//! they can lie in a file. Roots, checks and what writes a proof to the caller's list allocate nothing and refuse nothing.
//! `append_by` does it by any hash of pairs.

ghost use Rattle.std.specs.Prelude.{◌≡◌, ◌<◌, ◌≤◌, ◌^◌, List, [], true, false, nat_lt, length, take, IfOk, MatchOption, Ok};
ghost use Rattle.sha2.specs.Sha256.{sha256};
ghost use Rattle.ark_paths.specs.Pair.{Digest};
ghost use Rattle.ark_trees.specs.Rfc6962.{node_of};
ghost use Rattle.merkle_log.specs.Edge.{all_of};
ghost use Rattle.merkle_log.specs.Kept.{front, has_front, Keeps};
ghost use Rattle.merkle_log.specs.Log.{consistency_path, inclusion_path, merkle_tree_hash};
ghost use Rattle.merkle_log.specs.Received.{consistency_length, inclusion_length};
ghost use Rattle.merkle_log.specs.Stored.{stored_count, StoredValue};

mod check;
mod growth;
mod insertion;
mod multi;
mod node;

pub use crate::kept::node::{KeptNodes, Never};
use crate::path_lengths::{consistency_length, inclusion_length};
use crate::paths::{consistency_path_of, inclusion_path_of};
use crate::places::digest_at;
pub use crate::places::{position_of, stored_count};
use crate::rows::{Rows, root_of};
pub use growth::{append_by, append_kept, append_over, can_stand_behind, join_kept};
use sha2::{Digest, Sha256};
use std::alloc::{AllocError, Global};
use std::marker::Model;

/// The stored digests of a log of some size, in front of the digests that are borrowed.
///
/// Any digests are taken: `is_sound` tells whether each of a pair is the hash of its two.
#[derive(Drop)]
pub struct Kept<'a> {
    size: usize,
    digests: &'a [[u8; 32]],
}

impl<'a> Model for Kept<'a> {
    ghost Value = { StoredValue };

    ghost view = { λ kept. record {
      size = kept.size;
      digests = kept.digests.now;
    } };

    ghost invariant = { λ kept. (kept.size < 2 ^ 63)
        × (stored_count kept.size ≤ length kept.digests.now) };
}

/// Returns whether a size has 63 bits, as those of logs have here.
pub fn is_size(size: usize) -> bool
    ensures test { result ≡ nat_lt size (2 ^ 63) }
    ensures fits { result ≡ true → size < 2 ^ 63 }
{
    size < 9223372036854775808
}

impl<'a> Kept<'a> {
    /// Takes the stored digests of a log of this size; `None` where there are fewer digests than it has, or the size has more
    /// than 63 bits.
    pub fn of(size: usize, digests: &'a [[u8; 32]]) -> Option<Kept<'a>>
        ensures { let test = has_front size (length digests.now) in
            MatchOption result (test ≡ false)
            (λ kept. (test ≡ true) × (kept ≡ front size digests.now)) }
    {
        if !is_size(size) || digests.len() < stored_count(size) {
            return None;
        }
        Some(Kept::new(size, digests))
    }

    /// Takes the stored digests of a log of this size, which are known to be as many as it has.
    pub fn new(size: usize, digests: &'a [[u8; 32]]) -> Kept<'a>
        requires fits { size < 2 ^ 63 }
        requires whole { stored_count size ≤ length digests.now }
        ensures { result ≡ front size digests.now }
    {
        Kept { size, digests }
    }

    /// Returns the stored digests of its first leaves.
    pub fn first(self, size: usize) -> Kept<'a>
        requires { size ≤ self.size }
        ensures { result ≡ front size self.entry.digests }
    {
        Kept {
            size,
            digests: self.digests,
        }
    }

    /// Returns the count of leaves.
    pub fn size(&self) -> usize
        ensures size { result ≡ self.now.size }
        ensures fits { result < 2 ^ 63 }
        ensures inside { stored_count result ≤ length self.now.digests }
    {
        self.size
    }

    /// Returns the stored digests, and nothing behind them.
    pub fn stored(&self) -> &[[u8; 32]]
        ensures digests { result.now ≡ take (stored_count self.now.size) self.now.digests }
        ensures count { length result.now ≡ stored_count self.now.size }
    {
        &self.digests[..stored_count(self.size)]
    }

    /// Returns the root: MTH(D[0:size]). If the memory is not that of a log, it is some digest.
    pub fn root(&self) -> [u8; 32]
        ensures { (leaves : List Digest) → self.now.size ≤ length leaves
            → Keeps leaves self.now.digests
            → merkle_tree_hash node_of (sha256 []) (take self.now.size leaves) ≡ Ok result }
    {
        if self.size() == 0 {
            return Sha256::digest([].as_slice());
        }
        match root_of(&mut KeptNodes::new(), self, self.size()) {
            Ok(root) => root,
            Err(never) => match never {},
        }
    }

    /// Writes the path of an index, from the leaf up, to `path`: PATH(index, D[0:size]). It has a place for each digest.
    ///
    /// If the memory is not that of a log, it is some digests.
    pub fn write_inclusion_path(&self, index: usize, path: &mut [[u8; 32]])
        requires inside { index < self.now.size }
        requires room { length path.old ≡ inclusion_length self.now.size index }
        ensures { (leaves : List Digest) → self.now.size ≤ length leaves
            → Keeps leaves self.now.digests → all_of (inclusion_path node_of (sha256 []) index
            (take self.now.size leaves)) ≡ Ok path.new }
    {
        match inclusion_path_of(&mut KeptNodes::new(), self, self.size(), index, path) {
            Ok(()) => {}
            Err(never) => match never {},
        }
    }

    /// Returns the path of an index, from the leaf up: PATH(index, D[0:size]).
    ///
    /// If the memory is not that of a log, it is some digests.
    pub fn inclusion_path(&self, alloc: Global, index: usize) -> Result<Vec<[u8; 32]>, AllocError>
        requires { index < self.now.size }
        ensures { (leaves : List Digest) → self.now.size ≤ length leaves
            → Keeps leaves self.now.digests → IfOk result
            (λ digests. all_of (inclusion_path node_of (sha256 []) index
            (take self.now.size leaves)) ≡ Ok digests.items) }
    {
        let length = inclusion_length(self.size as u64, index as u64) as usize;
        let mut path = vec![in alloc; [0u8; 32]; length]?;
        self.write_inclusion_path(index, &mut path);
        Ok(path)
    }

    /// Writes the consistency proof of an old size to `path`: PROOF(old_size, D[0:size]). It has a place for each digest, and none
    /// where the old size is the log's.
    ///
    /// If the memory is not that of a log, it is some digests.
    pub fn write_consistency_path(&self, old_size: usize, path: &mut [[u8; 32]])
        requires some { 0 < old_size }
        requires inside { old_size ≤ self.now.size }
        requires room { length path.old ≡ consistency_length old_size self.now.size }
        ensures { (leaves : List Digest) → self.now.size ≤ length leaves
            → Keeps leaves self.now.digests → all_of (consistency_path node_of (sha256 []) old_size
            (take self.now.size leaves)) ≡ Ok path.new }
    {
        if old_size == self.size() {
            return;
        }
        match consistency_path_of(&mut KeptNodes::new(), self, old_size, self.size(), path) {
            Ok(()) => {}
            Err(never) => match never {},
        }
    }

    /// Returns the consistency proof of an old size: PROOF(old_size, D[0:size]).
    ///
    /// If the memory is not that of a log, it is some digests.
    pub fn consistency_path(
        &self,
        alloc: Global,
        old_size: usize,
    ) -> Result<Vec<[u8; 32]>, AllocError>
        requires some { 0 < old_size }
        requires inside { old_size ≤ self.now.size }
        ensures { (leaves : List Digest) → self.now.size ≤ length leaves
            → Keeps leaves self.now.digests → IfOk result
            (λ digests. all_of (consistency_path node_of (sha256 []) old_size
            (take self.now.size leaves)) ≡ Ok digests.items) }
    {
        let length = consistency_length(old_size as u64, self.size as u64) as usize;
        let mut path = vec![in alloc; [0u8; 32]; length]?;
        self.write_consistency_path(old_size, &mut path);
        Ok(path)
    }
}

impl<'a> Rows<[u8; 32]> for Kept<'a> {
    ghost stored = { λ kept. kept };

    ghost Holds = { λ _ _ _. Unit {0} };

    fn at(&self, level: usize, place: usize) -> &[u8; 32] {
        digest_at(self.digests, level, place)
    }
}
