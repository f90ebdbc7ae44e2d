//! The multi-proofs of logs that keep the digests of their complete subtrees.

ghost use Rattle.std.specs.Prelude.{◌≡◌, ◌≤◌, true, length, take, IfOk, Ok};
ghost use Rattle.ark_base.specs.Outcome.{AnswersBy};
ghost use Rattle.ark_paths.specs.Pair.{Digest};
ghost use Rattle.ark_paths.specs.Rows.{digests_of};
ghost use Rattle.merkle_log.specs.Edge.{all_of};
ghost use Rattle.merkle_log.specs.Log.{LogValue, root_at};
ghost use Rattle.merkle_log.specs.Multi.{are_multi_indexes, digests_at, multi_proof, known_verdict};

use crate::digests::blank_digests;
use crate::log::Log;
use crate::multi_making::multi_proof_of;
use crate::multi_parts::multi_length;
use crate::refusing::Refusing;
use ark_base::error::Error;
use ark_base::serialize::DigestItem;
use ark_paths::hasher::TreeHasher;
use std::alloc::Global;

// Returns the multi-proof of indexes of the first leaves of a log.
fn multi_proof_in<D: DigestItem, T: TreeHasher<D, D>>(
    alloc: Global,
    log: &Log<D, T>,
    size: usize,
    indexes: &[usize],
) -> Result<Vec<D>, Error>
    requires indexes { are_multi_indexes size indexes.now ≡ true }
    requires within { size ≤ length log.now.digests }
    ensures { AnswersBy (digests_of D.numbers)
        (all_of (multi_proof ((T.hashes log.now.hasher).pair.upper) log.now.empty indexes.now
        (take size log.now.digests))) result }
{
    let mut proof = blank_digests(alloc, multi_length(size, indexes))?;
    let mut pairs = Refusing::new(alloc, &log.hasher);
    multi_proof_of(&mut pairs, &log.stored, size, indexes, &mut proof)?;
    Ok(proof)
}

impl<D: DigestItem, T: TreeHasher<D, D>> Log<D, T> {
    /// Returns one proof that leaves stand at indexes of the first ones: the hashes of the largest subtrees that hold none of the
    /// indexes, from left to right. The indexes rise, and there is one at least: `are_multi_indexes` tells. Errors: those of `root`.
    pub fn multi_inclusion_proof(
        &self,
        alloc: Global,
        size: usize,
        indexes: &[usize],
    ) -> Result<Vec<D>, Error>
        requires indexes { are_multi_indexes size indexes.now ≡ true }
        requires within { size ≤ length self.now.digests }
        ensures proof { AnswersBy (digests_of D.numbers)
            (all_of (multi_proof ((T.hashes self.now.hasher).pair.upper) self.now.empty indexes.now
            (take size self.now.digests))) result }

        // `verify_multi_inclusion_digests` accepts it under the root of the size, for the digests at the indexes.
        ensures accepted { let hash = (T.hashes self.now.hasher).pair.upper in
            let own = digests_at (take size self.now.digests) indexes.now in
            IfOk result (λ proof. (root : Digest) → root_at hash self.now size ≡ Ok root
            → known_verdict hash root size (record {
              indexes = indexes.now;
              leaves = own;
              proof = digests_of D.numbers proof;
            }) ≡ Ok true) }
    {
        let proof = multi_proof_in(alloc, self, size, indexes)?;
        Ok(proof)
    }
}
