//! The nodes that a leaf completes.

ghost use Rattle.std.specs.Prelude.{◌≡◌, ◌⊎◌, ◌<◌, ◌-◌, ◌+◌, ◌/◌, ◌^◌, ◌++◌, ◌∷◌, List, [], length, map, get_or, IfOk, IfErr, OnOk, OnErr, Ok, Err};
ghost use Rattle.ark_base.specs.declared.error.Error.TheVariants.{OutOfMemory};
ghost use Rattle.ark_base.specs.Outcome.{AnswersBy};
ghost use Rattle.ark_paths.specs.Pair.{Digest};
ghost use Rattle.ark_paths.specs.Rows.{digests_of};
ghost use Rattle.incremental_trees.specs.Incremental.{AreFilled, CarriesTo, HoldsLeaves, RefusesComplete, RefusesLeaf};
ghost use Rattle.incremental_trees.specs.KeptPaths.{AreCompleted, CompletedValue};
ghost use Rattle.incremental_trees.specs.Nodes.{node_at};
ghost use Rattle.incremental_trees.specs.declared.refusal.TreeRefusal.TheVariants.{Full};

use crate::hasher::LevelHasher;
use crate::nodes::copy_at;
use crate::refusal::TreeRefusal;
use crate::tree::IncrementalTree;
use ark_base::error::Error;
use ark_base::serialize::DigestItem;
use std::alloc::Global;
use std::marker::Model;

/// The nodes that a leaf completed when it was appended, from the leaf itself up.
#[derive(Drop)]
pub struct Completed<D: DigestItem> {
    pub(crate) index: u64,
    pub(crate) nodes: Vec<D>,
}

impl<D: DigestItem> Model for Completed<D> {
    ghost Value = { CompletedValue };

    ghost view = { λ completed. record {
      index = completed.index;
      nodes = digests_of D.numbers completed.nodes;
    } };
}

// All nodes that a leaf behind so many completes, from the leaf up; and the level of the last one, which stands left.
fn carry_all<D: DigestItem, T: LevelHasher<D>>(
    alloc: Global,
    hasher: &T,
    filled: &[D],
    size: u64,
    leaf: D,
) -> Result<(Vec<D>, usize), Error>
    requires some { 0 < length filled.now }
    requires room { size < 2 ^ (length filled.now - 1) }
    ensures count { IfOk result (λ all. length all.0.items ≡ all.1 + 1) }
    ensures place { IfOk result (λ all. CarriesTo size all.1) }
    ensures level { IfOk result (λ all. all.1 < length filled.now) }
    ensures made { IfOk result (λ all. (empty : Digest) (leaves : List Digest)
        → length leaves ≡ size
        → AreFilled (T.nodes hasher.now) empty leaves (length filled.now - 1)
        (map D.numbers filled.now)
        → AreCompleted (T.nodes hasher.now) empty (leaves ++ (D.numbers leaf ∷ []))
        (record { index = size; nodes = digests_of D.numbers all.0 })) }
    ensures refused { IfErr result (λ error. (error ≡ OutOfMemory)
        ⊎ ((empty : Digest) (leaves : List Digest) → length leaves ≡ size
        → AreFilled (T.nodes hasher.now) empty leaves (length filled.now - 1)
        (map D.numbers filled.now)
        → RefusesComplete (T.nodes hasher.now) empty (leaves ++ (D.numbers leaf ∷ [])) error)) }
{
    let mut nodes = Vec::new(alloc);
    nodes.push(leaf)?;
    let mut level = 0;
    let mut count = size;
    'odd: while count % 2 == 1 {
        let node = hash_with(alloc, hasher, filled, &nodes, level)?;
        nodes.push(node)?;
        level += 1;
        count /= 2;
    }
    Ok((nodes, level))
}

// The hash of the complete node of a level that stands left and of the one that was made.
fn hash_with<D: DigestItem, T: LevelHasher<D>>(
    alloc: Global,
    hasher: &T,
    filled: &[D],
    nodes: &[D],
    level: usize,
) -> Result<D, Error>
    requires filled { level < length filled.now }
    requires nodes { level < length nodes.now }
    ensures { AnswersBy D.numbers (T.nodes hasher.now level
        (get_or (map D.numbers filled.now) level []) (get_or (map D.numbers nodes.now) level []))
        result }
{
    hasher.node(alloc, level, &filled[level], &nodes[level])
}

impl<D: DigestItem, T: LevelHasher<D>> IncrementalTree<D, T> {
    /// Appends a leaf digest as `append` does, and returns the nodes that it completed, by which kept paths follow.
    ///
    /// Errors, which leave the tree as it was: those of `append`.
    pub fn append_following(&mut self, alloc: Global, leaf: D) -> Result<Completed<D>, TreeRefusal>
        ensures appended { let hash = T.nodes self.old.hasher in
            OnOk result ((leaves : List Digest) → HoldsLeaves hash leaves self.old
            → HoldsLeaves hash (leaves ++ (D.numbers leaf ∷ [])) self.new) }

        // It has all nodes that the leaf completed.
        ensures completed { let hash = T.nodes self.old.hasher in
            IfOk result (λ completed. (leaves : List Digest) → HoldsLeaves hash leaves self.old
            → AreCompleted hash self.old.empty (leaves ++ (D.numbers leaf ∷ [])) completed) }
        ensures size { OnOk result (self.new.size ≡ self.old.size + 1) }
        ensures hasher { self.new.hasher ≡ self.old.hasher }
        ensures depth { self.new.depth ≡ self.old.depth }
        ensures empty { self.new.empty ≡ self.old.empty }
        ensures kept { OnErr result (self.new ≡ self.old) }
        ensures full { self.old.size ≡ 2 ^ self.old.depth → result ≡ Err Full }
        ensures refused { IfErr result (λ refusal. RefusesLeaf (T.nodes self.old.hasher) self.old
            (D.numbers leaf) refusal) }
    {
        if self.is_full() {
            return Err(TreeRefusal::Full);
        }
        match carried_copy(alloc, &self.hasher, &self.filled, self.size, leaf) {
            Ok((nodes, level, node)) => {
                let index = self.size;
                self.filled[level] = node;
                self.size += 1;
                Ok(Completed { index, nodes })
            }
            Err(error) => Err(TreeRefusal::Hash(error)),
        }
    }
}

// All nodes that a leaf behind so many completes, the level of the highest, and a copy of it.
fn carried_copy<D: DigestItem, T: LevelHasher<D>>(
    alloc: Global,
    hasher: &T,
    filled: &[D],
    size: u64,
    leaf: D,
) -> Result<(Vec<D>, usize, D), Error>
    requires some { 0 < length filled.now }
    requires room { size < 2 ^ (length filled.now - 1) }
    ensures place { IfOk result (λ all. CarriesTo size all.1) }
    ensures level { IfOk result (λ all. all.1 < length filled.now) }
    ensures node { IfOk result (λ all. (empty : Digest) (leaves : List Digest)
        → length leaves ≡ size
        → AreFilled (T.nodes hasher.now) empty leaves (length filled.now - 1)
        (map D.numbers filled.now)
        → node_at (T.nodes hasher.now) empty (leaves ++ (D.numbers leaf ∷ [])) all.1
        (size / 2 ^ all.1) ≡ Ok (D.numbers all.2)) }
    ensures made { IfOk result (λ all. (empty : Digest) (leaves : List Digest)
        → length leaves ≡ size
        → AreFilled (T.nodes hasher.now) empty leaves (length filled.now - 1)
        (map D.numbers filled.now)
        → AreCompleted (T.nodes hasher.now) empty (leaves ++ (D.numbers leaf ∷ []))
        (record { index = size; nodes = digests_of D.numbers all.0 })) }
    ensures refused { IfErr result (λ error. (error ≡ OutOfMemory)
        ⊎ ((empty : Digest) (leaves : List Digest) → length leaves ≡ size
        → AreFilled (T.nodes hasher.now) empty leaves (length filled.now - 1)
        (map D.numbers filled.now)
        → RefusesComplete (T.nodes hasher.now) empty (leaves ++ (D.numbers leaf ∷ [])) error)) }
{
    let (nodes, level) = carry_all(alloc, hasher, filled, size, leaf)?;
    let node = copy_at(alloc, &nodes, level)?;
    Ok((nodes, level, node))
}
