//! The proofs of insertions of logs that keep the digests of their complete subtrees.

ghost use Rattle.std.specs.Prelude.{◌≡◌, ◌≤◌, ◌<◌, ◌+◌, ◌^◌, ◌++◌, List, length, take, IfErr, IfOk, Ok};
ghost use Rattle.ark_base.specs.declared.error.Error.TheVariants.{OutOfMemory};
ghost use Rattle.ark_paths.specs.Pair.{Digest};
ghost use Rattle.ark_paths.specs.Rows.{digests_of};
ghost use Rattle.merkle_log.specs.Frontier.{IsFrontier};
ghost use Rattle.merkle_log.specs.Insertion.{insertion_root, some_digest};
ghost use Rattle.merkle_log.specs.Log.{merkle_tree_hash, root_at};

use crate::digests::blank_digests;
use crate::insertion_making::insertion_proof_of;
use crate::log::Log;
use crate::refusing::Refusing;
use ark_base::error::Error;
use ark_base::serialize::DigestItem;
use ark_paths::hasher::TreeHasher;
use std::alloc::Global;

// Returns the frontier of the first leaves of a log.
fn frontier_in<D: DigestItem, T: TreeHasher<D, D>>(
    alloc: Global,
    log: &Log<D, T>,
    size: usize,
) -> Result<Vec<D>, Error>
    requires { size ≤ length log.now.digests }
    ensures frontier { IfOk result (λ proof. IsFrontier ((T.hashes log.now.hasher).pair.upper)
        (take size log.now.digests) size (digests_of D.numbers proof)) }
    ensures refused { IfErr result (λ error. error ≡ OutOfMemory) }
{
    let mut proof = blank_digests(alloc, size.count_ones() as usize)?;
    let pairs = Refusing::new(alloc, &log.hasher);
    insertion_proof_of(&pairs, &log.stored, size, &mut proof)?;
    Ok(proof)
}

impl<D: DigestItem, T: TreeHasher<D, D>> Log<D, T> {
    /// Returns the proof of an insertion behind the first leaves, whatever is inserted: their frontier, which is the roots of the
    /// complete trees into which they fall, the largest first. No pair is hashed.
    ///
    /// The only error is `OutOfMemory`.
    pub fn insertion_proof(&self, alloc: Global, size: usize) -> Result<Vec<D>, Error>
        requires { size ≤ length self.now.digests }
        ensures frontier { IfOk result (λ proof. IsFrontier
            ((T.hashes self.now.hasher).pair.upper) (take size self.now.digests) size
            (digests_of D.numbers proof)) }

        // `root_after_insertion` returns by it, under the root of the size, the root of the first leaves with any others behind.
        ensures accepted { let hash = (T.hashes self.now.hasher).pair.upper in
            IfOk result (λ proof. (root : Digest) → root_at hash self.now size ≡ Ok root
            → (more : List Digest) → size + length more < 2 ^ 64
            → insertion_root hash root size (digests_of D.numbers proof) more
            ≡ some_digest (merkle_tree_hash hash self.now.empty
            (take size self.now.digests ++ more))) }
        ensures refused { IfErr result (λ error. error ≡ OutOfMemory) }
    {
        let proof = frontier_in(alloc, self, size)?;
        Ok(proof)
    }
}
