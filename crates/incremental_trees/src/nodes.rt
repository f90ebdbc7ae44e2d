//! The nodes that an incremental tree keeps, and those that it hashes.

ghost use Rattle.std.specs.Prelude.{if◌then◌else◌, ◌≡◌, ◌⊎◌, ◌<◌, ◌≤◌, ◌+◌, ◌-◌, ◌/◌, ◌^◌, ◌++◌, ◌∷◌, ℕ, List, [], length, map, get_or, IfOk, IfErr, Ok, Err};
ghost use Rattle.ark_base.specs.declared.error.Error.TheVariants.{OutOfMemory};
ghost use Rattle.ark_base.specs.Outcome.{AnswersBy};
ghost use Rattle.ark_paths.specs.Pair.{Digest};
ghost use Rattle.ark_paths.specs.Rows.{digests_of};
ghost use Rattle.incremental_trees.specs.Incremental.{AreEmpty, AreFilled, CarriesTo, RefusesComplete};
ghost use Rattle.incremental_trees.specs.Nodes.{depth_root, node_at};

use crate::hasher::LevelHasher;
use ark_base::error::Error;
use ark_base::serialize::{DigestItem, Duplicate};
use ark_paths::digests::copies_of;
use std::alloc::Global;

// The nodes of a tree without leaves, from level 0 up.
pub fn empty_nodes<D: DigestItem, T: LevelHasher<D>>(
    alloc: Global,
    hasher: &T,
    depth: usize,
    empty: D,
) -> Result<Vec<D>, Error>
    requires { depth < 64 }
    ensures count { IfOk result (λ nodes. length nodes.items ≡ depth + 1) }
    ensures first { IfOk result (λ nodes.
        get_or (digests_of D.numbers nodes) 0 [] ≡ D.numbers empty) }
    ensures made { IfOk result (λ nodes. AreEmpty (T.nodes hasher.now) (D.numbers empty) depth
        (digests_of D.numbers nodes)) }
    ensures refused { IfErr result (λ error. (error ≡ OutOfMemory)
        ⊎ (depth_root (T.nodes hasher.now) depth (D.numbers empty) [] ≡ Err error)) }
{
    let mut nodes = Vec::with_capacity(alloc, depth + 1)?;
    nodes.push(empty)?;
    for level in 0..depth {
        let node = empty_above(alloc, hasher, &nodes, level)?;
        nodes.push(node)?;
    }
    Ok(nodes)
}

// The node of a tree without leaves above those of a level.
fn empty_above<D: DigestItem, T: LevelHasher<D>>(
    alloc: Global,
    hasher: &T,
    nodes: &[D],
    level: usize,
) -> Result<D, Error>
    requires { level < length nodes.now }
    ensures { let below = get_or (map D.numbers nodes.now) level [] in
        AnswersBy D.numbers (T.nodes hasher.now level below below) result }
{
    let below = &nodes[level];
    hasher.node(alloc, level, below, below)
}

// A copy of the node of a level.
pub fn copy_at<D: DigestItem>(alloc: Global, nodes: &[D], level: usize) -> Result<D, Error>
    requires { level < length nodes.now }
    ensures { AnswersBy D.numbers (Ok (get_or (map D.numbers nodes.now) level [])) result }
{
    copied(alloc, &nodes[level])
}

// A copy of a digest.
pub fn copied<D: DigestItem>(alloc: Global, digest: &D) -> Result<D, Error>
    ensures { AnswersBy D.numbers (Ok (D.numbers digest.now)) result }
{
    Ok(digest.duplicate(alloc)?)
}

// The highest node that a leaf behind so many completes, and its level: it stands left.
pub fn carry<D: DigestItem, T: LevelHasher<D>>(
    alloc: Global,
    hasher: &T,
    filled: &[D],
    size: u64,
    leaf: D,
) -> Result<(usize, D), Error>
    requires some { 0 < length filled.now }
    requires room { size < 2 ^ (length filled.now - 1) }
    ensures place { IfOk result (λ carried. CarriesTo size carried.0) }
    ensures level { IfOk result (λ carried. carried.0 < length filled.now) }
    ensures made { IfOk result (λ carried. (empty : Digest) (leaves : List Digest)
        → length leaves ≡ size
        → AreFilled (T.nodes hasher.now) empty leaves (length filled.now - 1)
        (map D.numbers filled.now)
        → node_at (T.nodes hasher.now) empty (leaves ++ (D.numbers leaf ∷ [])) carried.0
        (size / 2 ^ carried.0) ≡ Ok (D.numbers carried.1)) }
    ensures refused { IfErr result (λ error. (error ≡ OutOfMemory)
        ⊎ ((empty : Digest) (leaves : List Digest) → length leaves ≡ size
        → AreFilled (T.nodes hasher.now) empty leaves (length filled.now - 1)
        (map D.numbers filled.now)
        → RefusesComplete (T.nodes hasher.now) empty (leaves ++ (D.numbers leaf ∷ [])) error)) }
{
    let mut level = 0;
    let mut node = leaf;
    let mut count = size;
    'odd: while count % 2 == 1 {
        node = hasher.node(alloc, level, &filled[level], &node)?;
        level += 1;
        count /= 2;
    }
    Ok((level, node))
}

// The first node of a level that is not complete, for so many leaves.
pub fn edge_node<D: DigestItem, T: LevelHasher<D>>(
    alloc: Global,
    hasher: &T,
    empties: &[D],
    filled: &[D],
    size: u64,
    top: usize,
) -> Result<D, Error>
    requires empties { top < length empties.now }
    requires filled { top < length filled.now }
    requires shallow { top < 64 }
    ensures { let hash = T.nodes hasher.now in
        (empty : Digest) (leaves : List Digest) (depth : ℕ) → length leaves ≡ size → top ≤ depth
        → AreEmpty hash empty depth (map D.numbers empties.now)
        → AreFilled hash empty leaves depth (map D.numbers filled.now)
        → AnswersBy D.numbers (node_at hash empty leaves top (size / 2 ^ top)) result }
{
    let mut level = 0;
    let mut count = size;
    'empty: while level < top && count % 2 == 0 {
        level += 1;
        count /= 2;
    }
    let node = copy_at(alloc, empties, level)?;
    edge_from(alloc, hasher, empties, filled, size, level, node, top)
}

// The first node of a level that is not complete, from the one of a lower level.
fn edge_from<D: DigestItem, T: LevelHasher<D>>(
    alloc: Global,
    hasher: &T,
    empties: &[D],
    filled: &[D],
    size: u64,
    first: usize,
    lowest: D,
    top: usize,
) -> Result<D, Error>
    requires empties { top < length empties.now }
    requires filled { top < length filled.now }
    requires first { first ≤ top }
    requires shallow { top < 64 }
    ensures { let hash = T.nodes hasher.now in
        (empty : Digest) (leaves : List Digest) (depth : ℕ) → length leaves ≡ size → top ≤ depth
        → AreEmpty hash empty depth (map D.numbers empties.now)
        → AreFilled hash empty leaves depth (map D.numbers filled.now)
        → node_at hash empty leaves first (size / 2 ^ first) ≡ Ok (D.numbers lowest)
        → AnswersBy D.numbers (node_at hash empty leaves top (size / 2 ^ top)) result }
{
    let mut node = lowest;
    for level in first..top {
        let is_right = (size >> level) % 2 == 1;
        node = edge_hash(
            alloc,
            hasher,
            level,
            is_right,
            &filled[level],
            &node,
            &empties[level],
        )?;
    }
    Ok(node)
}

// What a node on the edge makes with the one beside it: with the complete one to its left, or with an empty one.
fn edge_hash<D: DigestItem, T: LevelHasher<D>>(
    alloc: Global,
    hasher: &T,
    level: usize,
    is_right: bool,
    left: &D,
    node: &D,
    right: &D,
) -> Result<D, Error>
    ensures { let hash = T.nodes hasher.now level in
        AnswersBy D.numbers (if is_right then hash (D.numbers left.now) (D.numbers node.now)
        else hash (D.numbers node.now) (D.numbers right.now)) result }
{
    if is_right {
        hasher.node(alloc, level, left, node)
    } else {
        hasher.node(alloc, level, node, right)
    }
}

// Both lists of nodes of a tree without leaves.
pub fn tables<D: DigestItem, T: LevelHasher<D>>(
    alloc: Global,
    hasher: &T,
    depth: usize,
    empty: D,
) -> Result<(Vec<D>, Vec<D>), Error>
    requires { depth < 64 }
    ensures count { IfOk result (λ both. length both.0.items ≡ depth + 1) }
    ensures same { IfOk result (λ both. digests_of D.numbers both.1 ≡ digests_of D.numbers both.0) }
    ensures first { IfOk result (λ both.
        get_or (digests_of D.numbers both.0) 0 [] ≡ D.numbers empty) }
    ensures made { IfOk result (λ both. AreEmpty (T.nodes hasher.now) (D.numbers empty) depth
        (digests_of D.numbers both.0)) }
    ensures refused { IfErr result (λ error. (error ≡ OutOfMemory)
        ⊎ (depth_root (T.nodes hasher.now) depth (D.numbers empty) [] ≡ Err error)) }
{
    let empties = empty_nodes(alloc, hasher, depth, empty)?;
    let filled = copies_of(alloc, &empties)?;
    Ok((empties, filled))
}
