//! Hashes of two nodes that may depend on their level.

ghost use Rattle.std.specs.Prelude.{◌≡◌, ℕ};
ghost use Rattle.ark_base.specs.Outcome.{AnswersBy, IsDecided};
ghost use Rattle.ark_paths.specs.Pair.{Digest};
ghost use Rattle.incremental_trees.specs.Laws.Levels.{level_hash-decided};
ghost use Rattle.incremental_trees.specs.Nodes.{LevelHash, level_hash};

use ark_base::error::Error;
use ark_base::serialize::DigestItem;
use ark_paths::hasher::TreeHasher;
use std::alloc::Global;

/// Hashes two nodes of a level. The leaves are level 0.
pub trait LevelHasher<D: DigestItem> {
    // What the call returns.
    ghost nodes: { Self → LevelHash };

    /// Hashes two nodes of a level, left first. Errors: those of `nodes`; `OutOfMemory`.
    fn node(&self, alloc: Global, level: usize, left: &D, right: &D) -> Result<D, Error>
        ensures { AnswersBy D.numbers (nodes self.now level (D.numbers left.now)
            (D.numbers right.now)) result };

    // What the call refuses for want of memory is no refusal of the hash.
    ghost nodes_decided: { (hasher : Self) (level : ℕ) (left right : Digest)
        → IsDecided (nodes hasher level left right) };
}

/// Hashes as a tree's hasher does: on level 0 as two leaf digests, on each other level as two digests above them.
#[derive(Drop)]
pub struct EachLevel<T> {
    hasher: T,
}

impl<T> EachLevel<T> {
    /// Takes a hasher.
    pub fn new(hasher: T) -> EachLevel<T>
        ensures { result.hasher ≡ hasher }
    {
        EachLevel { hasher }
    }
}

impl<D: DigestItem, T: TreeHasher<D, D>> LevelHasher<D> for EachLevel<T> {
    ghost nodes = { λ own. level_hash (T.hashes own.hasher).pair };

    fn node(&self, alloc: Global, level: usize, left: &D, right: &D) -> Result<D, Error> {
        if level == 0 {
            self.hasher.bottom(alloc, left, right)
        } else {
            self.hasher.upper(alloc, left, right)
        }
    }

    ghost nodes_decided = { λ own. level_hash-decided (T.hashes own.hasher).pair
        (T.decided own.hasher).bottom (T.decided own.hasher).upper };
}
