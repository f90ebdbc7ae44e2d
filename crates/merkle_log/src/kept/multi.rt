//! Multi-proofs of logs whose stored digests lie in the caller's memory.

ghost use Rattle.std.specs.Prelude.{◌≡◌, ◌≤◌, List, [], true, length, take, Ok};
ghost use Rattle.sha2.specs.Sha256.{sha256};
ghost use Rattle.ark_paths.specs.Pair.{Digest};
ghost use Rattle.ark_trees.specs.Rfc6962.{node_of};
ghost use Rattle.merkle_log.specs.Edge.{all_of};
ghost use Rattle.merkle_log.specs.Kept.{Keeps};
ghost use Rattle.merkle_log.specs.Multi.{are_multi_indexes, multi_length, multi_proof};

use crate::kept::Kept;
use crate::kept::node::KeptNodes;
use crate::multi_making::multi_proof_of;

impl<'a> Kept<'a> {
    /// Writes one proof that leaves stand at indexes, the multi-proof, to `proof`, which has a place for each digest. The indexes
    /// rise, and there is one at least.
    ///
    /// If the memory is not that of a log, it is some digests.
    pub fn write_multi_proof(&self, indexes: &[usize], proof: &mut [[u8; 32]])
        requires indexes { are_multi_indexes self.now.size indexes.now ≡ true }
        requires room { length proof.old ≡ multi_length self.now.size indexes.now }
        ensures { (leaves : List Digest) → self.now.size ≤ length leaves
            → Keeps leaves self.now.digests → all_of (multi_proof node_of (sha256 []) indexes.now
            (take self.now.size leaves)) ≡ Ok proof.new }
    {
        match multi_proof_of(&mut KeptNodes::new(), self, self.size(), indexes, proof) {
            Ok(()) => {}
            Err(never) => match never {},
        }
    }
}
