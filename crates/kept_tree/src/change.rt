//! Leaf digests that are changed.

ghost use Rattle.std.specs.Prelude.{◌≡◌, ◌≤◌, ◌/◌, ◌%◌, List, length, set};
ghost use Rattle.ark_paths.specs.Pair.{Digest};
ghost use Rattle.kept_tree.specs.KeptTree.{ChangesLeaf, KeepsTree};

use crate::build::hash_at;
use ark_crh::ArrayHash;

/// Writes a leaf digest to its place, and then the hashes above it, from the lowest up.
pub fn set_leaf<H: ArrayHash>(memory: &mut [[u8; 32]], index: usize, digest: &[u8; 32])
    requires odd { length memory.old % 2 ≡ 1 }
    requires index { index ≤ length memory.old / 2 }
    ensures changes { ChangesLeaf H.node_hash memory.old memory.new index digest.now }

    // A tree is then that of the changed leaf digests.
    ensures tree { (leaves : List Digest) → KeepsTree H.node_hash memory.old leaves
        → KeepsTree H.node_hash memory.new (set leaves index digest.now) }
{
    let mut place = memory.len() / 2 + index;
    memory[place] = *digest;
    'up: while place > 0 {
        place = (place - 1) / 2;
        hash_at::<H>(memory, place);
    }
}
