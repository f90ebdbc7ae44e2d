//! Trees of a fixed depth to which leaves are appended.

ghost use Rattle.std.specs.Prelude.{◌≡◌, ◌<◌, ◌≤◌, ◌+◌, ◌^◌, ◌++◌, ◌∷◌, List, [], length, get_or, map, IsTrue, ◌↔◌, IfOk, IfErr, OnOk, OnErr, Ok, Err};
ghost use Rattle.ark_base.specs.Outcome.{AnswersBy};
ghost use Rattle.ark_paths.specs.Pair.{Digest, HashPair};
ghost use Rattle.ark_paths.specs.Root.{root};
ghost use Rattle.ark_paths.specs.Rows.{digests_of};
ghost use Rattle.incremental_trees.specs.Incremental.{HoldsLeaves, IncrementalValue, RefusesLeaf, RefusesEmptyTree};
ghost use Rattle.incremental_trees.specs.Nodes.{depth_root, level_hash, padded_leaves};
ghost use Rattle.incremental_trees.specs.declared.refusal.TreeRefusal.TheVariants.{Full};

use crate::hasher::LevelHasher;
use crate::nodes::{carry, copy_at, edge_node, tables};
use crate::refusal::TreeRefusal;
use ark_base::error::Error;
use ark_base::serialize::DigestItem;
use std::alloc::Global;
use std::marker::Model;

/// A tree of 2^depth leaves, of which the last ones are empty. It keeps two digests a level.
#[derive(Drop)]
pub struct IncrementalTree<D: DigestItem, T: LevelHasher<D>> {
    pub(crate) hasher: T,
    pub(crate) depth: usize,
    pub(crate) size: u64,
    pub(crate) empties: Vec<D>,
    pub(crate) filled: Vec<D>,
}

impl<D: DigestItem, T: LevelHasher<D>> Model for IncrementalTree<D, T> {
    ghost Value = { IncrementalValue T };

    ghost view = { λ tree. record {
      hasher = tree.hasher;
      depth = tree.depth;
      size = tree.size;
      empty = get_or (digests_of D.numbers tree.empties) 0 [];
      empties = digests_of D.numbers tree.empties;
      filled = digests_of D.numbers tree.filled;
    } };

    ghost invariant = { λ tree. record {
      shallow : tree.depth < 64;
      fits : tree.size ≤ 2 ^ tree.depth;
      empties : length tree.empties.items ≡ tree.depth + 1;
      filled : length tree.filled.items ≡ tree.depth + 1;
    } };
}

impl<D: DigestItem, T: LevelHasher<D>> IncrementalTree<D, T> {
    /// Returns the tree of a depth without leaves: all its 2^depth leaves are the empty one.
    ///
    /// Errors: `TooDeep` for a depth over 63; `Hash` with the error of the first level whose node the hash refuses, or with
    /// `OutOfMemory`.
    pub fn new(
        alloc: Global,
        hasher: T,
        depth: usize,
        empty: D,
    ) -> Result<IncrementalTree<D, T>, TreeRefusal>
    where
        T: Drop,
        ensures tree { IfOk result (λ tree. HoldsLeaves (T.nodes hasher) [] tree) }
        ensures hasher { IfOk result (λ tree. tree.hasher ≡ hasher) }
        ensures depth { IfOk result (λ tree. tree.depth ≡ depth) }
        ensures empty { IfOk result (λ tree. tree.empty ≡ D.numbers empty) }
        ensures refused { IfErr result
            (λ refusal. RefusesEmptyTree (T.nodes hasher) depth (D.numbers empty) refusal) }
    {
        if depth > 63 {
            return Err(TreeRefusal::TooDeep);
        }
        match tables(alloc, &hasher, depth, empty) {
            Ok((empties, filled)) => Ok(IncrementalTree {
                hasher,
                depth,
                size: 0,
                empties,
                filled,
            }),
            Err(error) => Err(TreeRefusal::Hash(error)),
        }
    }

    /// Returns how many levels stand above the leaves.
    pub fn depth(&self) -> usize
        ensures { result ≡ self.now.depth }
    {
        self.depth
    }

    /// Returns how many leaves were appended.
    pub fn size(&self) -> u64
        ensures { result ≡ self.now.size }
    {
        self.size
    }

    /// Returns whether no leaf can be appended: there are 2^depth of them.
    pub fn is_full(&self) -> bool
        ensures { IsTrue result ↔ self.now.size ≡ 2 ^ self.now.depth }
    {
        self.size == 1 << self.depth
    }

    /// Puts a leaf digest in the place of the first empty leaf.
    ///
    /// At most as many pairs are hashed as the depth says; for all leaves together fewer than one a leaf. Errors, which leave the
    /// tree as it was: `Full`; `Hash` with the error of the first node that the leaf completes and the hash refuses, or with
    /// `OutOfMemory`.
    pub fn append(&mut self, alloc: Global, leaf: D) -> Result<(), TreeRefusal>
        // A tree of leaves becomes that of the leaves with one more.
        ensures appended { let hash = T.nodes self.old.hasher in
            OnOk result ((leaves : List Digest) → HoldsLeaves hash leaves self.old
            → HoldsLeaves hash (leaves ++ (D.numbers leaf ∷ [])) self.new) }
        ensures size { OnOk result (self.new.size ≡ self.old.size + 1) }
        ensures hasher { self.new.hasher ≡ self.old.hasher }
        ensures depth { self.new.depth ≡ self.old.depth }
        ensures empty { self.new.empty ≡ self.old.empty }
        ensures kept { OnErr result (self.new ≡ self.old) }
        ensures full { self.old.size ≡ 2 ^ self.old.depth → result ≡ Err Full }
        ensures refused { IfErr result (λ refusal. RefusesLeaf (T.nodes self.old.hasher) self.old
            (D.numbers leaf) refusal) }
    {
        if self.is_full() {
            return Err(TreeRefusal::Full);
        }
        match carry(alloc, &self.hasher, &self.filled, self.size, leaf) {
            Ok((level, node)) => {
                self.filled[level] = node;
                self.size += 1;
                Ok(())
            }
            Err(error) => Err(TreeRefusal::Hash(error)),
        }
    }

    /// Returns the root: that of all 2^depth leaves. At most as many pairs are hashed as the depth says.
    ///
    /// Errors: that of the hash; `OutOfMemory`.
    pub fn root(&self, alloc: Global) -> Result<D, Error>
        ensures root { let hash = T.nodes self.now.hasher in
            (leaves : List Digest) → HoldsLeaves hash leaves self.now
            → AnswersBy D.numbers (depth_root hash self.now.depth self.now.empty leaves) result }

        // Where the hash is a tree's, it is the root of the tree over these leaves and as many empty ones as are left.
        ensures tree { (h : HashPair) (leaves : List Digest) → 0 < self.now.depth
            → T.nodes self.now.hasher ≡ level_hash h
            → HoldsLeaves (level_hash h) leaves self.now
            → let padded = padded_leaves self.now.depth self.now.empty leaves in
            AnswersBy D.numbers (root h padded) result }
    {
        if self.is_full() {
            return copy_at(alloc, &self.filled, self.depth);
        }
        edge_node(
            alloc,
            &self.hasher,
            &self.empties,
            &self.filled,
            self.size,
            self.depth,
        )
    }
}
