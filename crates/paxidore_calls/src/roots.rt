//! The root of the tree above leaves that are handed in. Of a large tree the digests of one block of leaves are kept at a time,
//! and the roots of all blocks.

ghost use Rattle.std.specs.Prelude.{◌≡◌, ◌⊎◌, ◌<◌, ◌≤◌, ◌+◌, ◌*◌, ◌/◌, List, ℕ, length, take, drop, map, Err, Ok, Some, IfErr, IfOk, IfSome};
ghost use Rattle.ark_paths.specs.Index.{IsTreeSize};
ghost use Rattle.ark_paths.specs.Root.{root};
ghost use Rattle.ark_paths.specs.Tree.{root_in};
ghost use Rattle.kept_tree.specs.KeptTree.{alike, kept_leaves};
ghost use Rattle.paxidore_calls.specs.Answer.{tree_leaves_in};
ghost use Rattle.paxidore_calls.specs.Blocks.{AreBlockRoots};
ghost use Rattle.paxidore_calls.specs.Cut.{parts_by};
ghost use Rattle.paxidore_calls.specs.Hashing.{hashing_by, tree_over};
ghost use Rattle.paxidore_calls.specs.declared.refused.Refused.TheVariants.{Memory};

use crate::leaves::{are_parts, write_digests_from};
use crate::refused::Refused;
use ark_crh::ArrayHash;
use ark_paths::is_tree_size;
use kept_tree::build::rebuild;
use kept_tree::path::kept_root;
use std::alloc::Global;

// How many leaves a block has.
const BLOCK: usize = 1024;

// Writes the digests of so many leaves from a place on to the last places of memory for their tree, and returns the bytes behind
// these leaves.
fn write_last<'a, H: ArrayHash>(
    memory: &mut [[u8; 32]],
    count: usize,
    bytes: &'a [u8],
    lengths: &[usize],
    first: usize,
) -> &'a [u8]
    requires some { 0 < count }
    requires room { length memory.old + 1 ≡ 2 * count }
    requires inside { first + count ≤ length lengths.now }
    ensures long { length memory.new ≡ length memory.old }
    ensures leaves { IfSome (parts_by bytes.now (drop first lengths.now)) (λ xs.
        kept_leaves memory.new ≡ map H.leaf_hash (take count xs)) }
    ensures rest { IfSome (parts_by bytes.now (drop first lengths.now)) (λ xs.
        parts_by result.now (drop (first + count) lengths.now) ≡ Some (drop count xs)) }
{
    write_digests_from::<H>(&mut memory[count - 1..], bytes, lengths, first)
}

// Returns the root of so many leaves from a place on, whose tree it writes to memory, and the bytes behind these leaves.
fn root_from<'a, H: ArrayHash>(
    memory: &mut [[u8; 32]],
    count: usize,
    bytes: &'a [u8],
    lengths: &[usize],
    first: usize,
) -> ([u8; 32], &'a [u8])
    requires size { IsTreeSize count }
    requires room { length memory.old + 1 ≡ 2 * count }
    requires inside { first + count ≤ length lengths.now }
    ensures long { length memory.new ≡ length memory.old }
    ensures root { IfSome (parts_by bytes.now (drop first lengths.now)) (λ xs.
        root (alike H.node_hash) (map H.leaf_hash (take count xs)) ≡ Ok result.0) }
    ensures rest { IfSome (parts_by bytes.now (drop first lengths.now)) (λ xs.
        parts_by result.1.now (drop (first + count) lengths.now) ≡ Some (drop count xs)) }
{
    let rest = write_last::<H>(memory, count, bytes, lengths, first);
    rebuild::<H>(memory);
    (*kept_root(memory), rest)
}

// Writes the root of each block of leaves.
fn write_block_roots<H: ArrayHash>(
    roots: &mut [[u8; 32]],
    memory: &mut [[u8; 32]],
    leaves: &[u8],
    lengths: &[usize],
)
    requires count { 1024 * length roots.old ≡ length lengths.now }
    requires room { length memory.old ≡ 2047 }
    ensures long { length roots.new ≡ length roots.old }
    ensures roots { IfSome (parts_by leaves.now lengths.now) (λ xs.
        AreBlockRoots H.node_hash (map H.leaf_hash xs) roots.new) }
{
    let mut rest = leaves;
    'each: for number in 0..roots.len() {
        let (root, behind) = root_from::<H>(memory, BLOCK, rest, lengths, BLOCK * number);
        roots[number] = root;
        rest = behind;
    }
}

// Writes the root of each of so many blocks of leaves to the last places of memory for their tree.
fn write_tops<H: ArrayHash>(
    top: &mut [[u8; 32]],
    count: usize,
    memory: &mut [[u8; 32]],
    leaves: &[u8],
    lengths: &[usize],
)
    requires some { 0 < count }
    requires top { length top.old + 1 ≡ 2 * count }
    requires count { 1024 * count ≡ length lengths.now }
    requires room { length memory.old ≡ 2047 }
    ensures long { length top.new ≡ length top.old }
    ensures roots { IfSome (parts_by leaves.now lengths.now) (λ xs.
        AreBlockRoots H.node_hash (map H.leaf_hash xs) (kept_leaves top.new)) }
{
    write_block_roots::<H>(&mut top[count - 1..], memory, leaves, lengths);
}

// Returns the root of the tree above more leaves than a block has, by memory for the tree of a block and that of the roots of blocks.
fn root_by_blocks<H: ArrayHash>(
    top: &mut [[u8; 32]],
    memory: &mut [[u8; 32]],
    leaves: &[u8],
    lengths: &[usize],
) -> [u8; 32]
    requires size { IsTreeSize (length lengths.now) }
    requires many { 1024 < length lengths.now }
    requires top { length top.old + 1 ≡ 2 * (length lengths.now / 1024) }
    requires room { length memory.old ≡ 2047 }
    ensures { IfSome (parts_by leaves.now lengths.now) (λ xs.
        root (alike H.node_hash) (map H.leaf_hash xs) ≡ Ok result) }
{
    write_tops::<H>(top, lengths.len() / BLOCK, memory, leaves, lengths);
    rebuild::<H>(top);
    *kept_root(top)
}

// Returns the root of the tree above more leaves than a block has. The only error is `Memory`.
fn root_of_many<H: ArrayHash>(
    alloc: Global,
    leaves: &[u8],
    lengths: &[usize],
) -> Result<[u8; 32], Refused>
    requires size { IsTreeSize (length lengths.now) }
    requires many { 1024 < length lengths.now }
    ensures root { IfOk result (λ digest. IfSome (parts_by leaves.now lengths.now) (λ xs.
        root (alike H.node_hash) (map H.leaf_hash xs) ≡ Ok digest)) }
    ensures memory { IfErr result (λ refused. refused ≡ Memory) }
{
    let mut memory = vec![in alloc; [0u8; 32]; 2 * BLOCK - 1]?;
    let mut top = vec![in alloc; [0u8; 32]; 2 * (lengths.len() / BLOCK) - 1]?;
    Ok(root_by_blocks::<H>(&mut top, &mut memory, leaves, lengths))
}

// Returns the root of the tree above leaves, by memory for all of it.
fn root_of_all<H: ArrayHash>(memory: &mut [[u8; 32]], leaves: &[u8], lengths: &[usize]) -> [u8; 32]
    requires size { IsTreeSize (length lengths.now) }
    requires room { length memory.old + 1 ≡ 2 * length lengths.now }
    ensures { IfSome (parts_by leaves.now lengths.now) (λ xs.
        root (alike H.node_hash) (map H.leaf_hash xs) ≡ Ok result) }
{
    root_from::<H>(memory, lengths.len(), leaves, lengths, 0).0
}

// Returns the root of the tree above as many leaves as a block has at most. The only error is `Memory`.
fn root_of_few<H: ArrayHash>(
    alloc: Global,
    leaves: &[u8],
    lengths: &[usize],
) -> Result<[u8; 32], Refused>
    requires size { IsTreeSize (length lengths.now) }
    requires few { length lengths.now ≤ 1024 }
    ensures root { IfOk result (λ digest. IfSome (parts_by leaves.now lengths.now) (λ xs.
        root (alike H.node_hash) (map H.leaf_hash xs) ≡ Ok digest)) }
    ensures memory { IfErr result (λ refused. refused ≡ Memory) }
{
    let mut memory = vec![in alloc; [0u8; 32]; 2 * lengths.len() - 1]?;
    Ok(root_of_all::<H>(&mut memory, leaves, lengths))
}

/// Returns the root of the tree above the leaves. Beside them it allocates 64 KiB, and 64 bytes for each 1,024 leaves.
///
/// Errors: the first of `Size`, where no tree has so many leaves, and `Lengths`, where the lengths are not those of parts that
/// are all of the bytes; `Memory` in place of any.
pub fn root_over_leaves<H: ArrayHash>(
    alloc: Global,
    leaves: &[u8],
    lengths: &[usize],
) -> Result<[u8; 32], Refused>
    ensures root { IfOk result (λ digest. (xs : List (List ℕ))
        × (tree_leaves_in leaves.now lengths.now ≡ Ok xs)
        × (root_in (tree_over (hashing_by H.leaf_hash H.node_hash) xs) ≡ Ok digest)) }
    ensures refused { IfErr result (λ refused. (refused ≡ Memory)
        ⊎ (tree_leaves_in leaves.now lengths.now ≡ Err refused)) }
{
    if !is_tree_size(lengths.len()) {
        return Err(Refused::Size);
    }
    if !are_parts(leaves, lengths) {
        return Err(Refused::Lengths);
    }
    if lengths.len() > BLOCK {
        root_of_many::<H>(alloc, leaves, lengths)
    } else {
        root_of_few::<H>(alloc, leaves, lengths)
    }
}
