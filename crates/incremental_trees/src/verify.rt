//! Checks of the nodes beside a way.

ghost use Rattle.std.specs.Prelude.{◌≡◌, map};
ghost use Rattle.ark_base.specs.Outcome.{Answers, AnswersBy};
ghost use Rattle.ark_paths.specs.Pair.{hash_in_order};
ghost use Rattle.incremental_trees.specs.KeptPaths.{rising_verdict};
ghost use Rattle.incremental_trees.specs.Nodes.{rising_root};

use crate::hasher::LevelHasher;
use crate::nodes::copied;
use ark_base::error::Error;
use ark_base::serialize::DigestItem;
use std::alloc::Global;

/// Returns whether the nodes beside a way, the lowest first, make a root of the leaf digest at an index.
///
/// Bits of the index past the count of nodes do not count. Errors: that of the lowest pair that the hash refuses;
/// `OutOfMemory`.
pub fn verify_rising<D: DigestItem, T: LevelHasher<D>>(
    alloc: Global,
    hasher: &T,
    root: &D,
    leaf: &D,
    index: u64,
    nodes: &[D],
) -> Result<bool, Error>
    ensures { Answers (rising_verdict (T.nodes hasher.now) index (map D.numbers nodes.now)
        (D.numbers leaf.now) (D.numbers root.now)) result }
{
    let top = top_over(alloc, hasher, leaf, index, nodes)?;
    Ok(top == *root)
}

// What nodes beside a way make of a leaf digest.
fn top_over<D: DigestItem, T: LevelHasher<D>>(
    alloc: Global,
    hasher: &T,
    leaf: &D,
    index: u64,
    nodes: &[D],
) -> Result<D, Error>
    ensures { AnswersBy D.numbers (rising_root (T.nodes hasher.now) 0 index
        (map D.numbers nodes.now) (D.numbers leaf.now)) result }
{
    let mut node = copied(alloc, leaf)?;
    let mut place = index;
    for level in 0..nodes.len() {
        node = hash_ordered(alloc, hasher, level, place % 2 == 1, &node, &nodes[level])?;
        place /= 2;
    }
    Ok(node)
}

// The hash of two nodes of a level, in the order that a bit says: where it is set, the first stands right.
fn hash_ordered<D: DigestItem, T: LevelHasher<D>>(
    alloc: Global,
    hasher: &T,
    level: usize,
    is_right: bool,
    node: &D,
    beside: &D,
) -> Result<D, Error>
    ensures { AnswersBy D.numbers (hash_in_order (T.nodes hasher.now level) is_right
        (D.numbers node.now) (D.numbers beside.now)) result }
{
    if is_right {
        hasher.node(alloc, level, beside, node)
    } else {
        hasher.node(alloc, level, node, beside)
    }
}
