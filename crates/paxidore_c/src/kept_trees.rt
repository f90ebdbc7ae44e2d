//! Trees whose digests are kept in the caller's memory, in a hashing that a number names: the root first, the leaf digests last. A
//! multi-proof is allocated, and freed before the call returns; nothing else is.

ghost use Rattle.std.specs.Prelude.{◌≡◌, ◌≢◌, ◌<◌, ◌+◌, ◌*◌, ◌++◌, ◌∷◌, ◌↔◌, [], ℕ, List, pos, Bool, length, map, take, get_or, set, IfOk, IfSome, Ok};
ghost use Rattle.std.specs.Option.{is_some};
ghost use Rattle.ark_paths.specs.Index.{log2};
ghost use Rattle.ark_paths.specs.Pair.{Digest};
ghost use Rattle.ark_paths.specs.Tree.{root_in, tree_with};
ghost use Rattle.kept_tree.specs.JoinedTrees.{JoinsTrees, KeepsShares};
ghost use Rattle.kept_tree.specs.KeptTree.{ChangesLeaf, KeepsTree, is_tree_length, kept_leaves, leaf_count};
ghost use Rattle.paxidore_calls.specs.Answer.{Hands, done_code, hashing_of, in_hashing, refusal_code, tree_leaves_in, verdict_code};
ghost use Rattle.paxidore_calls.specs.Cut.{parts_by};
ghost use Rattle.paxidore_calls.specs.Hashing.{Hashing, hashes_of};
ghost use Rattle.paxidore_c.specs.KeptAnswer.{kept_check, kept_index, kept_path, kept_root, leaves_to_keep, path_of_digests, trees_to_join};
ghost use Rattle.paxidore_calls.specs.declared.refused.Refused.TheVariants.{Memory};

use crate::hashing::in_hashing;
use ark_crh::ArrayHash;
use ark_paths::is_tree_size;
use kept_tree::build::rebuild;
use kept_tree::change::set_leaf;
use kept_tree::check::{holds_tree, is_tree_length};
use kept_tree::join::{are_joinable, join_trees};
use kept_tree::path::write_path;
use paxidore_calls::leaves::{are_parts, write_leaf_digests};
use paxidore_calls::refused::Refused;

// Writes the digests of leaves to the last places of memory for their tree.
fn write_leaves<H: ArrayHash>(tree: &mut [[u8; 32]], bytes: &[u8], lengths: &[usize])
    requires some { 0 < length lengths.now }
    requires room { length tree.old + 1 ≡ 2 * length lengths.now }
    ensures { IfSome (parts_by bytes.now lengths.now)
        (λ xs. kept_leaves tree.new ≡ map H.leaf_hash xs) }
{
    write_leaf_digests::<H>(&mut tree[lengths.len() - 1..], bytes, lengths);
}

// Writes the tree above the leaves to memory of as many digests as it has, and returns the code.
fn tree_build<H: ArrayHash>(tree: &mut [[u8; 32]], leaves: &[u8], lengths: &[usize]) -> i32
    ensures answer { result ≡ done_code (leaves_to_keep (length tree.old) leaves.now lengths.now) }
    ensures tree { result ≡ pos 0 → IfOk (tree_leaves_in leaves.now lengths.now)
        (λ xs. KeepsTree H.node_hash tree.new (map H.leaf_hash xs)) }
    ensures kept { result ≢ pos 0 → tree.new ≡ tree.old }
{
    if !is_tree_size(lengths.len()) {
        return Refused::Size.code();
    }
    if tree.len() + 1 != 2 * lengths.len() {
        return Refused::Size.code();
    }
    if !are_parts(leaves, lengths) {
        return Refused::Lengths.code();
    }
    write_leaves::<H>(tree, leaves, lengths);
    rebuild::<H>(tree);
    0
}

// Joins so many trees of equal size, and returns the code.
fn tree_join<H: ArrayHash>(tree: &mut [[u8; 32]], parts: &[[u8; 32]], count: usize) -> i32
    ensures answer { result ≡ done_code (trees_to_join (length tree.old) parts.now count) }
    ensures joins { result ≡ pos 0 → JoinsTrees H.node_hash count parts.now tree.old tree.new }
    ensures tree { (leaves : List Digest) → result ≡ pos 0
        → KeepsShares H.node_hash parts.now count leaves → KeepsTree H.node_hash tree.new leaves }
    ensures kept { result ≢ pos 0 → tree.new ≡ tree.old }
{
    if !are_joinable(tree, parts, count) {
        return Refused::Size.code();
    }
    join_trees::<H>(tree, parts, count);
    0
}

// Writes the tree above the leaf digests that stand in memory, and returns the code.
fn tree_rebuild<H: ArrayHash>(tree: &mut [[u8; 32]]) -> i32
    ensures answer { result ≡ done_code (kept_root tree.old) }
    ensures tree { result ≡ pos 0 → KeepsTree H.node_hash tree.new (kept_leaves tree.old) }
    ensures kept { result ≢ pos 0 → tree.new ≡ tree.old }
{
    if !is_tree_length(tree) {
        return Refused::Size.code();
    }
    rebuild::<H>(tree);
    0
}

// Changes the leaf at an index, and returns the code.
fn tree_set<H: ArrayHash>(tree: &mut [[u8; 32]], index: usize, leaf: &[u8]) -> i32
    ensures answer { result ≡ done_code (kept_index (length tree.old) index) }
    ensures changes { result ≡ pos 0
        → ChangesLeaf H.node_hash tree.old tree.new index (H.leaf_hash leaf.now) }
    ensures tree { (leaves : List Digest) → result ≡ pos 0
        → KeepsTree H.node_hash tree.old leaves
        → KeepsTree H.node_hash tree.new (set leaves index (H.leaf_hash leaf.now)) }
    ensures kept { result ≢ pos 0 → tree.new ≡ tree.old }
{
    if !is_tree_length(tree) {
        return Refused::Size.code();
    }
    if index > tree.len() / 2 {
        return Refused::Index.code();
    }
    set_leaf::<H>(tree, index, &H::leaf(leaf));
    0
}

// Returns the code of whether memory holds the tree above the leaf digests that stand in it.
fn tree_check<H: ArrayHash>(tree: &[[u8; 32]]) -> i32
    ensures answer { (holds : Bool)
        × (result ≡ verdict_code (kept_check (length tree.now) holds)) }
    ensures holds { result ≡ pos 0 ↔ KeepsTree H.node_hash tree.now (kept_leaves tree.now) }
{
    if !is_tree_length(tree) {
        return Refused::Size.code();
    }
    if holds_tree::<H>(tree) { 0 } else { 1 }
}

// Writes the bytes of the path of an index, as it stands in memory.
fn kept_path(path: &mut [u8], path_len: &mut usize, tree: &[[u8; 32]], index: usize) -> i32
    ensures handed { Hands (kept_path tree.now index)
        path.old path.new path_len.old path_len.new result }
    ensures counted { result ≡ pos 0
        → path_len.new ≡ 16 + 32 * log2 (leaf_count (length tree.now)) }
    ensures no_memory { result ≢ refusal_code Memory }
{
    if !is_tree_length(tree) {
        return Refused::Size.code();
    }
    if index > tree.len() / 2 {
        return Refused::Index.code();
    }
    let needed = kept_tree::path::path_len(tree, index);
    *path_len = needed;
    if path.len() < needed {
        return Refused::Room.code();
    }
    write_path(path, tree, index);
    0
}

/// Writes the tree above the leaves to memory of as many digests as it has. An error leaves the memory as before.
///
/// Answers: 0; else the first of `E_INVALID` for a number that names no hashing, `E_SIZE`, also where the tree has more or fewer
/// digests than the memory, `E_LENGTHS`.
#[unsafe(no_mangle)]
pub extern "C" fn paxidore_tree_build(
    tree: &mut [[u8; 32]],
    hashing: u32,
    leaves: &[u8],
    lengths: &[usize],
) -> i32
    ensures answer { result ≡ done_code (in_hashing hashing (λ h.
        leaves_to_keep (length tree.old) leaves.now lengths.now)) }
    ensures tree { result ≡ pos 0 → IfOk (hashing_of hashing) (λ h.
        IfOk (tree_leaves_in leaves.now lengths.now)
        (λ xs. KeepsTree h.node tree.new (map h.leaf_hash xs))) }
    ensures kept { result ≢ pos 0 → tree.new ≡ tree.old }
{
    in_hashing!(hashing, tree_build(tree, leaves, lengths))
}

/// Writes the tree over all leaves of some kept trees of equal size, which lie one behind the other in `parts`: copies their
/// digests, and hashes only those above them.
///
/// Answers: 0; else the first of `E_INVALID` for a number that names no hashing and `E_SIZE`, where the parts are not so many trees of
/// equal size or the memory is not as long as the tree over their leaves, which leave the memory as before.
#[unsafe(no_mangle)]
pub extern "C" fn paxidore_tree_join(
    tree: &mut [[u8; 32]],
    hashing: u32,
    parts: &[[u8; 32]],
    parts_count: usize,
) -> i32
    ensures answer { result ≡ done_code (in_hashing hashing (λ h.
        trees_to_join (length tree.old) parts.now parts_count)) }

    // Whatever the parts hold: their digests are copied, and those above them are hashed from those below.
    ensures joins { result ≡ pos 0 → IfOk (hashing_of hashing) (λ h.
        JoinsTrees h.node parts_count parts.now tree.old tree.new) }

    // Trees above shares of a list of leaf digests become the tree above that list.
    ensures tree { result ≡ pos 0 → IfOk (hashing_of hashing) (λ h.
        (leaves : List Digest) → KeepsShares h.node parts.now parts_count leaves
        → KeepsTree h.node tree.new leaves) }
    ensures kept { result ≢ pos 0 → tree.new ≡ tree.old }
{
    in_hashing!(hashing, tree_join(tree, parts, parts_count))
}

/// Writes the hashes above the leaf digests that stand in memory, from the lowest up.
///
/// Answers: 0; else the first of `E_INVALID` for a number that names no hashing and `E_SIZE`, where no tree has so many
/// digests, which leave the memory as before.
#[unsafe(no_mangle)]
pub extern "C" fn paxidore_tree_rebuild(tree: &mut [[u8; 32]], hashing: u32) -> i32
    ensures answer { result ≡ done_code (in_hashing hashing (λ h. kept_root tree.old)) }
    ensures tree { result ≡ pos 0 → IfOk (hashing_of hashing) (λ h.
        KeepsTree h.node tree.new (kept_leaves tree.old)) }
    ensures kept { result ≢ pos 0 → tree.new ≡ tree.old }
{
    in_hashing!(hashing, tree_rebuild(tree))
}

/// Writes the digest of a leaf to the place of an index, and then the hashes above it, from the lowest up.
///
/// Answers: 0; else the first of `E_INVALID` for a number that names no hashing, `E_SIZE`, where no tree has so many digests,
/// and `E_INDEX`, which leave the memory as before.
#[unsafe(no_mangle)]
pub extern "C" fn paxidore_tree_set(
    tree: &mut [[u8; 32]],
    hashing: u32,
    index: usize,
    leaf: &[u8],
) -> i32
    ensures answer { result ≡ done_code (in_hashing hashing (λ h.
        kept_index (length tree.old) index)) }

    // Whatever memory holds: the leaf's digest and those above it are written, and no other.
    ensures changes { result ≡ pos 0 → IfOk (hashing_of hashing) (λ h.
        ChangesLeaf h.node tree.old tree.new index (h.leaf_hash leaf.now)) }

    // A tree is then that of the changed leaf digests.
    ensures tree { result ≡ pos 0 → IfOk (hashing_of hashing) (λ h.
        (leaves : List Digest) → KeepsTree h.node tree.old leaves
        → KeepsTree h.node tree.new (set leaves index (h.leaf_hash leaf.now))) }
    ensures kept { result ≢ pos 0 → tree.new ≡ tree.old }
{
    in_hashing!(hashing, tree_set(tree, index, leaf))
}

/// Writes the digest that stands first to `root`.
///
/// Answers: 0; else `E_SIZE`, where no tree has so many digests, which leaves `root` as before.
#[unsafe(no_mangle)]
pub extern "C" fn paxidore_tree_root(root: &mut [u8; 32], tree: &[[u8; 32]]) -> i32
    ensures answer { result ≡ done_code (kept_root tree.now) }
    ensures root { result ≡ pos 0 → root.new ≡ get_or tree.now 0 [] }

    // Of a tree, in any hashing, it is the root.
    ensures tree { (h : Hashing) (leaves : List Digest) → result ≡ pos 0
        → KeepsTree h.node tree.now leaves
        → root_in (tree_with (hashes_of h) leaves) ≡ Ok root.new }
    ensures kept { result ≢ pos 0 → root.new ≡ root.old }
{
    if !is_tree_length(tree) {
        return Refused::Size.code();
    }
    *root = *kept_tree::path::kept_root(tree);
    0
}

/// Writes the bytes of the path of an index to the front of `path`, with the digests that stand in memory, and their count.
///
/// Answers: 0; else the first of `E_SIZE`, where no tree has so many digests, `E_INDEX`, `E_ROOM`, which alone writes the
/// count that is needed. Any other refusal leaves both buffers as before.
#[unsafe(no_mangle)]
pub extern "C" fn paxidore_tree_path(
    path: &mut [u8],
    path_len: &mut usize,
    tree: &[[u8; 32]],
    index: usize,
) -> i32
    ensures handed { Hands (kept_path tree.now index)
        path.old path.new path_len.old path_len.new result }

    // Of a tree, in any hashing, it is the path that its leaves give.
    ensures tree { (h : Hashing) (leaves : List Digest) → KeepsTree h.node tree.now leaves
        → Hands (path_of_digests h leaves index)
        path.old path.new path_len.old path_len.new result }

    // PAXIDORE_PATHBYTES of the size's logarithm.
    ensures counted { result ≡ pos 0
        → path_len.new ≡ 16 + 32 * log2 (leaf_count (length tree.now)) }
    ensures no_memory { result ≢ refusal_code Memory }
{
    kept_path(path, path_len, tree, index)
}

/// Returns whether memory holds the tree above the leaf digests that stand in it: whether each other digest is the hash of
/// the two below it.
///
/// Answers: 0 for a yes, 1 for a no; else the first of `E_INVALID` for a number that names no hashing and `E_SIZE`, where no
/// tree has so many digests.
#[unsafe(no_mangle)]
pub extern "C" fn paxidore_tree_check(hashing: u32, tree: &[[u8; 32]]) -> i32
    ensures answer { (holds : Bool) × (result ≡ verdict_code (in_hashing hashing (λ h.
        kept_check (length tree.now) holds))) }
    ensures holds { IfOk (hashing_of hashing) (λ h.
        result ≡ pos 0 ↔ KeepsTree h.node tree.now (kept_leaves tree.now)) }
{
    in_hashing!(hashing, tree_check(tree))
}
