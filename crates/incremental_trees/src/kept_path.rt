//! Paths of leaves, kept up to date while leaves are appended.

ghost use Rattle.std.specs.Prelude.{◌≡◌, ◌≢◌, ◌⊎◌, ◌<◌, ◌≤◌, ◌+◌, ◌-◌, ◌/◌, ◌^◌, ◌∷◌, ◌++◌, ℕ, List, [], length, map, min, take, get_or, IfOk, IfErr, OnOk, OnErr, Ok};
ghost use Rattle.ark_base.specs.declared.error.Error.TheVariants.{OutOfMemory};
ghost use Rattle.ark_base.specs.Outcome.{AnswersBy};
ghost use Rattle.ark_paths.specs.Index.{neighbour};
ghost use Rattle.ark_paths.specs.Pair.{Digest, HashPair};
ghost use Rattle.ark_paths.specs.Path.{path_root};
ghost use Rattle.ark_paths.specs.Root.{root};
ghost use Rattle.ark_paths.specs.Rows.{digests_of};
ghost use Rattle.incremental_trees.specs.Incremental.{AreEmpty, AreFilled, HoldsLeaves};
ghost use Rattle.incremental_trees.specs.KeptPaths.{AreCompleted, HasBeside, IsKeptPath, KeptPathValue, way_through};
ghost use Rattle.incremental_trees.specs.Nodes.{LevelHash, depth_root, level_hash, node_at, nodes_beside, padded_leaves, rising_root};

use crate::completed::Completed;
use crate::hasher::LevelHasher;
use crate::nodes::{copy_at, edge_node};
use crate::tree::IncrementalTree;
use ark_base::error::Error;
use ark_base::serialize::DigestItem;
use ark_paths::digests::copies_of;
use std::alloc::Global;
use std::marker::Model;

/// The path of a leaf that was appended: of the nodes beside its way those that are complete. The tree has the others.
#[derive(Drop)]
pub struct KeptPath<D: DigestItem> {
    index: u64,
    nodes: Vec<D>,
}

impl<D: DigestItem> Model for KeptPath<D> {
    ghost Value = { KeptPathValue };

    ghost view = { λ path. record {
      index = path.index;
      nodes = digests_of D.numbers path.nodes;
    } };

    ghost invariant = { λ path. length path.nodes.items < 64 };
}

impl<D: DigestItem> KeptPath<D> {
    /// Returns the path of the leaf that was appended last. The only error is `OutOfMemory`.
    pub fn of_last<T: LevelHasher<D>>(
        alloc: Global,
        tree: &IncrementalTree<D, T>,
    ) -> Result<KeptPath<D>, Error>
        requires { 0 < tree.now.size }
        ensures index { IfOk result (λ path. path.index + 1 ≡ tree.now.size) }
        ensures path { let hash = T.nodes tree.now.hasher in
            IfOk result (λ path. (leaves : List Digest) → HoldsLeaves hash leaves tree.now
            → IsKeptPath hash tree.now.empty leaves tree.now.depth path) }
        ensures refused { IfErr result (λ error. error ≡ OutOfMemory) }
    {
        let index = tree.size - 1;
        let nodes = first_copies(alloc, &tree.filled, tree.depth)?;
        Ok(KeptPath { index, nodes })
    }

    /// Returns the leaf's index.
    pub fn index(&self) -> u64
        ensures { result ≡ self.now.index }
    {
        self.index
    }

    /// Takes up what a later leaf completed, which is at most one node beside the way.
    ///
    /// The only error is `OutOfMemory`, which leaves the path as it was.
    pub fn follow(&mut self, alloc: Global, completed: &Completed<D>) -> Result<(), Error>
        // The path of a leaf stays that of the leaf.
        ensures path { OnOk result ((hash : LevelHash) (empty : Digest) (leaves : List Digest)
            (leaf : Digest) (depth : ℕ) → IsKeptPath hash empty leaves depth self.old
            → AreCompleted hash empty (leaves ++ (leaf ∷ [])) completed.now
            → IsKeptPath hash empty (leaves ++ (leaf ∷ [])) depth self.new) }
        ensures index { self.new.index ≡ self.old.index }
        ensures kept { OnErr result (self.new ≡ self.old) }
        ensures refused { IfErr result (λ error. error ≡ OutOfMemory) }
    {
        let count = fewer(&completed.nodes, &self.nodes);
        let level = level_beside(self.index, completed.index, count);
        if level < count {
            let node = copy_at(alloc, &completed.nodes, level)?;
            self.nodes[level] = node;
        }
        Ok(())
    }

    /// Returns the nodes beside the way, the lowest first: as many as the tree is deep.
    ///
    /// At most one node is hashed anew, from at most as many pairs as the depth says. Errors: that of the hash; `OutOfMemory`.
    pub fn nodes<T: LevelHasher<D>>(
        &self,
        alloc: Global,
        tree: &IncrementalTree<D, T>,
    ) -> Result<Vec<D>, Error>
        requires { length self.now.nodes ≡ tree.now.depth }
        ensures nodes { let hash = T.nodes tree.now.hasher in
            (leaves : List Digest) → HoldsLeaves hash leaves tree.now
            → IsKeptPath hash tree.now.empty leaves tree.now.depth self.now
            → AnswersBy (digests_of D.numbers)
            (nodes_beside hash tree.now.empty leaves tree.now.depth self.now.index) result }

        // With the leaf they make the tree's root.
        ensures accepted { let hash = T.nodes tree.now.hasher in
            IfOk result (λ nodes. (leaves : List Digest) → HoldsLeaves hash leaves tree.now
            → IsKeptPath hash tree.now.empty leaves tree.now.depth self.now
            → rising_root hash 0 self.now.index (digests_of D.numbers nodes)
            (get_or leaves self.now.index [])
            ≡ depth_root hash tree.now.depth tree.now.empty leaves) }

        // Where the hash is a tree's, they are a path of the tree over these leaves and as many empty ones as are left.
        ensures path { (h : HashPair) → T.nodes tree.now.hasher ≡ level_hash h
            → 0 < tree.now.depth
            → IfOk result (λ nodes. (leaves : List Digest)
            → HoldsLeaves (level_hash h) leaves tree.now
            → IsKeptPath (level_hash h) tree.now.empty leaves tree.now.depth self.now
            → path_root h (way_through self.now.index (digests_of D.numbers nodes))
            (get_or leaves self.now.index [])
            ≡ root h (padded_leaves tree.now.depth tree.now.empty leaves)) }
    {
        let mut nodes = Vec::with_capacity(alloc, tree.depth)?;
        for level in 0..tree.depth {
            let node = node_beside(
                alloc,
                &tree.hasher,
                &tree.empties,
                &tree.filled,
                tree.size,
                &self.nodes,
                self.index,
                level,
            )?;
            nodes.push(node)?;
        }
        Ok(nodes)
    }
}

// Copies of the first nodes.
fn first_copies<D: DigestItem>(alloc: Global, nodes: &[D], count: usize) -> Result<Vec<D>, Error>
    requires { count ≤ length nodes.now }
    ensures { AnswersBy (digests_of D.numbers) (Ok (map D.numbers (take count nodes.now))) result }
{
    copies_of(alloc, &nodes[..count])
}

// How many digests the shorter of two lists has.
fn fewer<D: DigestItem>(first: &Vec<D>, second: &Vec<D>) -> usize
    ensures { result ≡ min (length first.now.items) (length second.now.items) }
{
    first.len().min(second.len())
}

// The place beside another one.
fn beside(place: u64) -> u64
    ensures { result ≡ neighbour place }
{
    if place % 2 == 1 { place - 1 } else { place + 1 }
}

// The only level below a count on which the way of one index is beside that of another; or the count.
fn level_beside(index: u64, other: u64, count: usize) -> usize
    requires { count < 64 }
    ensures within { result ≤ count }
    ensures found { result < count → neighbour (index / 2 ^ result) ≡ other / 2 ^ result }
    ensures only { (level : ℕ) → level < count → level ≢ result
        → neighbour (index / 2 ^ level) ≢ other / 2 ^ level }
{
    for level in 0..count {
        if beside(index >> level) == other >> level {
            return level;
        }
    }
    count
}

// The node beside the way of an index on a level: one that was kept, that on the edge, or one without leaves.
fn node_beside<D: DigestItem, T: LevelHasher<D>>(
    alloc: Global,
    hasher: &T,
    empties: &[D],
    filled: &[D],
    size: u64,
    nodes: &[D],
    index: u64,
    level: usize,
) -> Result<D, Error>
    requires shallow { level < 64 }
    requires nodes { level < length nodes.now }
    requires empties { level < length empties.now }
    requires filled { level < length filled.now }
    ensures { let hash = T.nodes hasher.now in
        (empty : Digest) (leaves : List Digest) (depth : ℕ) → length leaves ≡ size → level ≤ depth
        → AreEmpty hash empty depth (map D.numbers empties.now)
        → AreFilled hash empty leaves depth (map D.numbers filled.now)
        → HasBeside hash empty leaves index level (map D.numbers nodes.now)
        → AnswersBy D.numbers (node_at hash empty leaves level (neighbour (index / 2 ^ level)))
        result }
{
    let place = beside(index >> level);
    let count = size >> level;
    if place < count {
        return copy_at(alloc, nodes, level);
    }
    if place == count {
        return edge_node(alloc, hasher, empties, filled, size, level);
    }
    copy_at(alloc, empties, level)
}
