//! Whether memory holds a tree.

ghost use Rattle.std.specs.Bool.{Decides};
ghost use Rattle.std.specs.Prelude.{◌≡◌, ◌<◌, ◌≤◌, ◌+◌, ◌*◌, ◌/◌, ◌%◌, ℕ, true, length};
ghost use Rattle.kept_tree.specs.KeptTree.{KeepsTree, IsHashed, is_tree_length, kept_leaves};

use crate::runs::{RUN, hashes_from};
use ark_crh::ArrayHash;
use ark_paths::is_tree_size;

/// Returns whether a tree has as many digests as memory: 2 n - 1 for n leaves, a power of two above one.
pub fn is_tree_length(memory: &[[u8; 32]]) -> bool
    ensures test { result ≡ is_tree_length (length memory.now) }
    ensures odd { result ≡ true → length memory.now % 2 ≡ 1 }
{
    memory.len() > 2 && is_tree_size(memory.len() + 1)
}

// Whether the digest at each of so many places from one on is the hash of the two below it.
fn are_hashed<H: ArrayHash>(memory: &[[u8; 32]], first: usize, count: usize) -> bool
    requires run { count ≤ 64 }
    requires inside { 2 * (first + count) < length memory.now }
    ensures { Decides result
        ((i : ℕ) → first ≤ i → i < first + count → IsHashed H.node_hash memory.now i) }
{
    let digests = hashes_from::<H>(memory, first, count);
    'places: for n in 0..count {
        if digests[n] != memory[first + n] {
            return false;
        }
    }
    true
}

/// Returns whether memory of a tree's length holds the tree above the leaf digests that stand in it: whether each digest
/// before them is the hash of the two below it.
pub fn holds_tree<H: ArrayHash>(memory: &[[u8; 32]]) -> bool
    requires { is_tree_length (length memory.now) ≡ true }
    ensures { Decides result (KeepsTree H.node_hash memory.now (kept_leaves memory.now)) }
{
    let inner = memory.len() / 2;
    let mut first = 0;
    'runs: while first < inner {
        let count = (inner - first).min(RUN);
        if !are_hashed::<H>(memory, first, count) {
            return false;
        }
        first += count;
    }
    true
}
