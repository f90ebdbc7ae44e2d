//! The proofs of insertions of logs whose stored digests lie in the caller's memory.

ghost use Rattle.std.specs.Prelude.{◌≡◌, ◌≤◌, List, count_ones, length, take, IfOk};
ghost use Rattle.ark_paths.specs.Pair.{Digest};
ghost use Rattle.merkle_log.specs.Frontier.{IsFrontier};
ghost use Rattle.merkle_log.specs.Kept.{KeepsBy};
ghost use Rattle.merkle_log.specs.Log.{NodeHash};

use crate::insertion_making::insertion_proof_of;
use crate::kept::Kept;
use crate::kept::node::KeptNodes;
use std::alloc::{AllocError, Global};

impl<'a> Kept<'a> {
    /// Writes the proof of an insertion, whatever is inserted, to `proof`, which has a place for each one of the size: the frontier,
    /// which is the roots of the complete trees into which the leaves fall, the largest first. The log may be one by any hash.
    ///
    /// If the memory is not that of a log, it is some digests.
    pub fn write_insertion_proof(&self, proof: &mut [[u8; 32]])
        requires { length proof.old ≡ count_ones self.now.size }
        ensures { (hash : NodeHash) (leaves : List Digest) → self.now.size ≤ length leaves
            → KeepsBy hash leaves self.now.digests
            → IsFrontier hash (take self.now.size leaves) self.now.size proof.new }
    {
        match insertion_proof_of(&KeptNodes::new(), self, self.size(), proof) {
            Ok(()) => {}
            Err(never) => match never {},
        }
    }

    /// Returns the proof of an insertion, whatever is inserted: the frontier, by whatever hash the log is one.
    ///
    /// If the memory is not that of a log, it is some digests.
    pub fn insertion_proof(&self, alloc: Global) -> Result<Vec<[u8; 32]>, AllocError>
        ensures { (hash : NodeHash) (leaves : List Digest) → self.now.size ≤ length leaves
            → KeepsBy hash leaves self.now.digests → IfOk result
            (λ proof. IsFrontier hash (take self.now.size leaves) self.now.size proof.items) }
    {
        let mut proof = vec![in alloc; [0u8; 32]; self.size.count_ones() as usize]?;
        self.write_insertion_proof(&mut proof);
        Ok(proof)
    }
}
