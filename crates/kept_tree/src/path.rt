//! The root and the paths of a kept tree.

ghost use Rattle.std.specs.Prelude.{◌≡◌, ◌<◌, ◌≤◌, ◌+◌, ◌*◌, ◌/◌, ◌++◌, List, [], Ok, true, length, take, drop, get_or};
ghost use Rattle.ark_base.specs.Digits.{itself};
ghost use Rattle.ark_paths.specs.Index.{log2};
ghost use Rattle.ark_paths.specs.Pair.{Digest};
ghost use Rattle.ark_paths.specs.PathBytes.{way_bytes};
ghost use Rattle.ark_paths.specs.Root.{root};
ghost use Rattle.ark_paths.specs.Tree.{own_path};
ghost use Rattle.kept_tree.specs.KeptTree.{KeepsTree, PlainNode, alike, is_tree_length, kept_beside, kept_way, leaf_count};

use ark_paths::index::{levels_between, neighbour_of};

/// Returns the digest that stands first.
pub fn kept_root(memory: &[[u8; 32]]) -> &[u8; 32]
    requires { 0 < length memory.now }
    ensures first { result.now ≡ get_or memory.now 0 [] }

    // Of a tree it is the repeated halving of the leaf digests.
    ensures tree { (node : PlainNode) (leaves : List Digest) → KeepsTree node memory.now leaves
        → root (alike node) leaves ≡ Ok result.now }
{
    &memory[0]
}

// The digest beside the way of an index, so many levels above the leaves.
pub(crate) fn sibling_digest(memory: &[[u8; 32]], index: usize, level: usize) -> &[u8; 32]
    requires size { is_tree_length (length memory.now) ≡ true }
    requires index { index < leaf_count (length memory.now) }
    requires level { level < log2 (leaf_count (length memory.now)) }
    ensures { result.now ≡ kept_beside memory.now index level }
{
    let size = memory.len() / 2 + 1;
    &memory[neighbour_of((size + index) >> level) - 1]
}

// How many levels stand between the leaf digests and the root.
pub(crate) fn levels_of(memory: &[[u8; 32]]) -> usize
    requires { is_tree_length (length memory.now) ≡ true }
    ensures { result + 1 ≡ log2 (leaf_count (length memory.now)) }
{
    levels_between(memory.len() / 2 + 1)
}

// Writes bytes to a place of a buffer.
fn put(buffer: &mut [u8], at: usize, bytes: &[u8])
    requires { at + length bytes.now ≤ length buffer.old }
    ensures { buffer.new
        ≡ take at buffer.old ++ (bytes.now ++ drop (at + length bytes.now) buffer.old) }
{
    buffer[at..at + bytes.len()].copy_from_slice(bytes);
}

// Writes a digest to a place of a buffer.
fn put_digest(buffer: &mut [u8], at: usize, digest: &[u8; 32])
    requires { at + 32 ≤ length buffer.old }
    ensures bytes { buffer.new
        ≡ take at buffer.old ++ (digest.now ++ drop (at + 32) buffer.old) }
    ensures count { length digest.now ≡ 32 }
{
    buffer[at..at + 32].copy_from_slice(digest);
}

/// Returns the count of the canonical bytes of the path of an index: 16, and 32 for each level below the root.
pub fn path_len(memory: &[[u8; 32]], index: usize) -> usize
    requires size { is_tree_length (length memory.now) ≡ true }
    requires index { index < leaf_count (length memory.now) }
    ensures count { result ≡ 16 + 32 * log2 (leaf_count (length memory.now)) }
    ensures bytes { length (way_bytes itself itself (kept_way memory.now index)) ≡ result }
{
    48 + 32 * levels_of(memory)
}

/// Writes the canonical bytes of the path of an index to the front of a buffer: the digests beside its way, as they stand
/// in memory.
pub fn write_path(buffer: &mut [u8], memory: &[[u8; 32]], index: usize)
    requires size { is_tree_length (length memory.now) ≡ true }
    requires index { index < leaf_count (length memory.now) }
    requires room { 16 + 32 * log2 (leaf_count (length memory.now)) ≤ length buffer.old }
    ensures bytes { let bytes = way_bytes itself itself (kept_way memory.now index) in
        buffer.new ≡ bytes ++ drop (length bytes) buffer.old }

    // Of a tree it is the path of its repeated halving.
    ensures tree { (node : PlainNode) (leaves : List Digest) → KeepsTree node memory.now leaves
        → own_path (alike node) index leaves ≡ kept_way memory.now index }
{
    let levels = levels_of(memory);
    put_digest(buffer, 0, sibling_digest(memory, index, 0));
    put(buffer, 32, &levels.to_le_bytes());
    'levels: for done in 0..levels {
        put_digest(
            buffer,
            40 + 32 * done,
            sibling_digest(memory, index, levels - done),
        );
    }
    put(buffer, 40 + 32 * levels, &index.to_le_bytes());
}
