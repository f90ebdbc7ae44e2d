//! Hashes that are written above the leaf digests.

ghost use Rattle.std.specs.Prelude.{◌≡◌, ◌<◌, ◌≤◌, ◌+◌, ◌*◌, ◌/◌, ◌%◌, length, true};
ghost use Rattle.kept_tree.specs.KeptTree.{KeepsTree, Rehashes, is_tree_length, kept_leaves};

use crate::runs::{RUN, hashes_from};
use ark_crh::ArrayHash;

/// Writes the hash of the two digests below a place to that place.
pub fn hash_at<H: ArrayHash>(memory: &mut [[u8; 32]], place: usize)
    requires { 2 * place + 2 < length memory.old }
    ensures { Rehashes H.node_hash place 1 memory.old memory.new }
{
    memory[place] = H::node(&memory[2 * place + 1], &memory[2 * place + 2]);
}

// Does so for so many places from one on, of which none stands below another.
fn hash_run<H: ArrayHash>(memory: &mut [[u8; 32]], first: usize, count: usize)
    requires run { count ≤ 64 }
    requires above { count ≤ first + 1 }
    requires inside { 2 * (first + count) < length memory.old }
    ensures { Rehashes H.node_hash first count memory.old memory.new }
{
    let digests = hashes_from::<H>(memory, first, count);
    memory[first..first + count].copy_from_slice(&digests[..count]);
}

/// Writes the hashes at the first places, so many, from the last one up.
pub fn rehash_first<H: ArrayHash>(memory: &mut [[u8; 32]], count: usize)
    requires { 2 * count < length memory.old }
    ensures { Rehashes H.node_hash 0 count memory.old memory.new }
{
    let mut inner = count;
    'runs: while inner > 0 {
        let run = inner.div_ceil(2).min(RUN);
        let first = inner - run;
        hash_run::<H>(memory, first, run);
        inner = first;
    }
}

/// Writes the hashes above the leaf digests that stand in memory, from the lowest up.
pub fn rebuild<H: ArrayHash>(memory: &mut [[u8; 32]])
    requires { length memory.old % 2 ≡ 1 }
    ensures hashed { Rehashes H.node_hash 0 (length memory.old / 2) memory.old memory.new }

    // Where a tree has as many digests as memory, that is then the tree above the leaf digests that stand in it.
    ensures tree { is_tree_length (length memory.old) ≡ true
        → KeepsTree H.node_hash memory.new (kept_leaves memory.old) }
{
    rehash_first::<H>(memory, memory.len() / 2);
}
