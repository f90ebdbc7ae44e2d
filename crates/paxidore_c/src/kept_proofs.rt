//! Multi-proofs of kept trees.

ghost use Rattle.std.specs.Prelude.{◌≡◌, List};
ghost use Rattle.ark_paths.specs.Pair.{Digest};
ghost use Rattle.kept_tree.specs.KeptTree.{KeepsTree};
ghost use Rattle.paxidore_calls.specs.Answer.{CallGivesBy, Hands};
ghost use Rattle.paxidore_calls.specs.Hashing.{Hashing};
ghost use Rattle.paxidore_c.specs.KeptAnswer.{kept_multi_path, multi_path_of_digests};

use kept_tree::check::is_tree_length;
use kept_tree::multi_path::multi_path_bytes;
use paxidore_calls::buffer::hand_over;
use paxidore_calls::leaves::are_indexes;
use paxidore_calls::refused::Refused;
use std::alloc::Global;

// The bytes of the multi-proof of some indexes, as it stands in memory.
fn kept_multi_path(alloc: Global, tree: &[[u8; 32]], indexes: &[usize]) -> Result<Vec<u8>, Refused>
    ensures { CallGivesBy (λ bytes. bytes.items) (kept_multi_path tree.now indexes.now) result }
{
    if !is_tree_length(tree) {
        return Err(Refused::Size);
    }
    if !are_indexes(tree.len() / 2 + 1, indexes) {
        return Err(Refused::Index);
    }
    Ok(multi_path_bytes(alloc, tree, indexes)?)
}

/// Writes the bytes of the multi-proof of some indexes, in any order, to the front of `proof`, with the digests that stand in
/// memory, and their count. It shows the indexes rising and each once.
///
/// Answers: 0; else the first of `E_SIZE`, where no tree has so many digests, `E_INDEX`, also where there is no index,
/// `E_MEMORY`, `E_ROOM`, which alone writes the count that is needed. Any other refusal leaves both buffers as before.
#[unsafe(no_mangle)]
pub extern "C" fn paxidore_tree_multi_path(
    alloc: Global,
    proof: &mut [u8],
    proof_len: &mut usize,
    tree: &[[u8; 32]],
    indexes: &[usize],
) -> i32
    ensures handed { Hands (kept_multi_path tree.now indexes.now)
        proof.old proof.new proof_len.old proof_len.new result }

    // Of a tree, in any hashing, it is the multi-proof that its leaves give.
    ensures tree { (h : Hashing) (leaves : List Digest) → KeepsTree h.node tree.now leaves
        → Hands (multi_path_of_digests h leaves indexes.now)
        proof.old proof.new proof_len.old proof_len.new result }
{
    hand_over(kept_multi_path(alloc, tree, indexes), proof, proof_len)
}
