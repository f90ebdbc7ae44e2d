//! The proofs of insertions that are read of a log's rows. They are written to a list of the caller's, which has as many places as
//! they have digests.

ghost use Rattle.std.specs.Prelude.{◌≡◌, ◌≤◌, count_ones, length, map, take, IfErr, OnOk};
ghost use Rattle.ark_base.specs.declared.error.Error.TheVariants.{OutOfMemory};
ghost use Rattle.merkle_log.specs.Asked.{Holding, IsPeak};
ghost use Rattle.merkle_log.specs.Frontier.{IsFrontier};
ghost use Rattle.merkle_log.specs.Log.{NodeHash};
ghost use Rattle.merkle_log.specs.Stored.{row_at, IsStored};

use crate::nodes::NodeHasher;
use crate::rows::Rows;
use ark_base::serialize::DigestItem;

/// Writes the proof of an insertion behind the first digests to `proof`: their frontier, which is the roots of the complete trees
/// into which they fall, the largest first. It asks for these trees, and hashes no pair.
pub fn insertion_proof_of<D: DigestItem, R: Rows<D>, H: NodeHasher<D>>(
    hasher: &H,
    rows: &R,
    size: usize,
    proof: &mut [D],
) -> Result<(), H::Refusal>
    requires within { size ≤ length (row_at (R.stored rows.now) 0) }
    requires held { Holding (R.Holds rows.now) 0 (IsPeak size) }
    requires room { length proof.old ≡ count_ones size }

    // By whatever hash the rows are those of a log.
    ensures frontier { OnOk result ((hash : NodeHash) → IsStored hash (row_at (R.stored rows.now))
        → IsFrontier hash (take size (row_at (R.stored rows.now) 0)) size
        (map D.numbers proof.new)) }
    ensures refused { IfErr result (λ refusal. H.why refusal ≡ OutOfMemory) }
{
    let mut at = proof.len();
    let mut left = size;
    let mut level = 0;
    'levels: while left > 0 {
        if left % 2 == 1 {
            at -= 1;
            proof[at] = hasher.copied(rows.at(level, left - 1))?;
        }
        left /= 2;
        level += 1;
    }
    Ok(())
}
