//! Trees of equal size, hashed apart, that are joined to one.

ghost use Rattle.std.specs.Prelude.{◌≡◌, ◌<◌, ◌≤◌, ◌+◌, ◌*◌, ◌/◌, ◌++◌, List, true, length, take, drop};
ghost use Rattle.ark_paths.specs.Pair.{Digest};
ghost use Rattle.kept_tree.specs.JoinedTrees.{CopiesLevel, CopiesLevels, JoinsTrees, KeepsShares, is_joined_length};
ghost use Rattle.kept_tree.specs.KeptTree.{KeepsTree, leaf_count};

use crate::build::rehash_first;
use crate::check::is_tree_length;
use ark_crh::ArrayHash;

/// Returns whether `parts` are as long as so many kept trees of equal size, which join to one that is as long as `tree`.
pub fn are_joinable(tree: &[[u8; 32]], parts: &[[u8; 32]], count: usize) -> bool
    ensures { result ≡ is_joined_length (length parts.now) count (length tree.now) }
{
    if count == 0 || parts.len() % count != 0 {
        return false;
    }
    let size = parts.len() / count;
    is_tree_length(&parts[..size]) && is_tree_length(tree) && parts.len() + count == tree.len() + 1
}

// Copies digests to a place and those behind it.
fn copy_to_place(tree: &mut [[u8; 32]], place: usize, digests: &[[u8; 32]])
    requires { place + length digests.now ≤ length tree.old }
    ensures { tree.new
        ≡ take place tree.old ++ (digests.now ++ drop (place + length digests.now) tree.old) }
{
    tree[place..place + digests.len()].copy_from_slice(digests);
}

// Copies a level of each part to the joined tree, one behind the other: so many digests of each.
fn copy_level(tree: &mut [[u8; 32]], parts: &[[u8; 32]], count: usize, width: usize)
    requires joined { is_joined_length (length parts.now) count (length tree.old) ≡ true }
    requires some { 0 < width }
    requires inside { width ≤ leaf_count (length parts.now / count) }
    ensures { CopiesLevel count (length parts.now / count) width count parts.now tree.old tree.new }
{
    let size = parts.len() / count;
    'parts: for n in 0..count {
        let from = n * size + width - 1;
        copy_to_place(tree, (count + n) * width - 1, &parts[from..from + width]);
    }
}

// Copies all levels of each part to the joined tree.
fn copy_all_levels(tree: &mut [[u8; 32]], parts: &[[u8; 32]], count: usize)
    requires { is_joined_length (length parts.now) count (length tree.old) ≡ true }
    ensures { let size = length parts.now / count in
        CopiesLevels count size (leaf_count size + 1) parts.now tree.old tree.new }
{
    let leaves = parts.len() / count / 2 + 1;
    let mut width = 1;
    'levels: while width <= leaves {
        copy_level(tree, parts, count, width);
        width *= 2;
    }
}

/// Writes the tree over all leaves of so many kept trees of equal size, which lie one behind the other: copies their digests,
/// and hashes only those above them.
pub fn join_trees<H: ArrayHash>(tree: &mut [[u8; 32]], parts: &[[u8; 32]], count: usize)
    requires { is_joined_length (length parts.now) count (length tree.old) ≡ true }

    // Whatever the parts hold.
    ensures joins { JoinsTrees H.node_hash count parts.now tree.old tree.new }

    // Trees above shares of a list of leaf digests become the tree above that list.
    ensures tree { (leaves : List Digest) → KeepsShares H.node_hash parts.now count leaves
        → KeepsTree H.node_hash tree.new leaves }
{
    copy_all_levels(tree, parts, count);
    rehash_first::<H>(tree, count - 1);
}
