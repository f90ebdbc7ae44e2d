//! Trees over byte strings, in a hashing that a number names: roots, paths and multi-proofs of leaves that are handed in, and
//! their checks.

ghost use Rattle.std.specs.Prelude.{◌≡◌, ◌≢◌, ◌+◌, ◌*◌, pos, length, IfOk, Ok};
ghost use Rattle.ark_paths.specs.Index.{log2};
ghost use Rattle.ark_paths.specs.Received.{ShowsLeaf, ShowsLeaves};
ghost use Rattle.ark_paths.specs.Tree.{root_in};
ghost use Rattle.ark_trees.specs.Rfc6962.{tree_hash_of_entries};
ghost use Rattle.paxidore_calls.specs.Answer.{GivesCode, CallGivesBy, Hands, all_shown, done_code, hashing_of, in_hashing, leaves_for, multi_path_of_leaves, path_of_leaves, results_of, shown, tree_leaves_in, verdict_code};
ghost use Rattle.paxidore_calls.specs.Hashing.{hashes_of, hashing_by, read_multi_path, read_path, tree_over};

use crate::hashing::in_hashing;
use ark_base::serialize::canonical_bytes;
use ark_crh::ArrayHash;
use ark_merkle::{MerkleTree, MultiPath, Path, is_tree_size};
use ark_trees::Arrays;
use paxidore_calls::buffer::hand_over;
use paxidore_calls::leaves::{are_indexes, digests_of_leaves, leaves_for};
use paxidore_calls::refused::{Refused, verdict_code};
use paxidore_calls::roots::root_over_leaves;
use std::alloc::Global;

// Returns the code of whether the bytes of a path show a leaf at an index of a tree with this root and size.
fn verify_over<H: ArrayHash>(
    alloc: Global,
    root: &[u8; 32],
    size: usize,
    index: usize,
    leaf: &[u8],
    path: &[u8],
) -> i32
    ensures answer { GivesCode (verdict_code (shown (hashing_by H.leaf_hash H.node_hash)
        root.now size index leaf.now path.now)) result }
    ensures shows { result ≡ pos 0 → ShowsLeaf (hashes_of (hashing_by H.leaf_hash H.node_hash))
        root.now size index leaf.now (read_path path.now) }
{
    if !is_tree_size(size) {
        return Refused::Size.code();
    }
    if index >= size {
        return Refused::Index.code();
    }
    let Ok(leaf) = Vec::from_slice(alloc, leaf) else {
        return Refused::Memory.code();
    };
    verdict_code(Path::<Arrays<H>>::verify_bytes(alloc, &(), &(), root, size, index, path, &leaf))
}

// Returns the code of whether the bytes of a strict multi-proof show leaves, one for each of some rising indexes, in
// such a tree.
fn multi_verify_over<H: ArrayHash>(
    alloc: Global,
    root: &[u8; 32],
    size: usize,
    indexes: &[usize],
    leaves: &[u8],
    lengths: &[usize],
    proof: &[u8],
) -> i32
    ensures answer { GivesCode (verdict_code (all_shown (hashing_by H.leaf_hash H.node_hash)
        root.now size indexes.now leaves.now lengths.now proof.now)) result }
    ensures shows { result ≡ pos 0
        → IfOk (leaves_for size (length indexes.now) leaves.now lengths.now)
        (λ xs. ShowsLeaves (hashes_of (hashing_by H.leaf_hash H.node_hash))
        root.now size indexes.now xs (read_multi_path proof.now)) }
{
    let leaves = match leaves_for(alloc, size, indexes.len(), leaves, lengths) {
        Ok(leaves) => leaves,
        Err(refused) => return refused.code(),
    };
    if !are_indexes(size, indexes) {
        return Refused::Index.code();
    }
    verdict_code(MultiPath::<Arrays<H>>::verify_bytes(
        alloc,
        &(),
        &(),
        root,
        size,
        indexes,
        proof,
        &leaves,
    ))
}

// The tree above some leaves.
fn tree_of<H: ArrayHash>(
    alloc: Global,
    leaves: &[u8],
    lengths: &[usize],
) -> Result<MerkleTree<Arrays<H>>, Refused>
    ensures { CallGivesBy (λ tree. tree.leaves)
        (results_of H.leaf_hash (tree_leaves_in leaves.now lengths.now)) result }
{
    if !is_tree_size(lengths.len()) {
        return Err(Refused::Size);
    }
    let digests = digests_of_leaves::<H>(alloc, leaves, lengths)?;
    Ok(MerkleTree::new_with_leaf_digest(alloc, &(), &(), digests)?)
}

// Writes the root of the tree above the leaves to `root`, and returns the code. A refusal leaves `root` as before.
fn write_root<H: ArrayHash>(
    alloc: Global,
    root: &mut [u8; 32],
    leaves: &[u8],
    lengths: &[usize],
) -> i32
    ensures answer { GivesCode (done_code (tree_leaves_in leaves.now lengths.now)) result }
    ensures root { result ≡ pos 0 → IfOk (tree_leaves_in leaves.now lengths.now)
        (λ xs. root_in (tree_over (hashing_by H.leaf_hash H.node_hash) xs) ≡ Ok root.new) }
    ensures kept { result ≢ pos 0 → root.new ≡ root.old }
{
    match root_over_leaves::<H>(alloc, leaves, lengths) {
        Ok(digest) => {
            *root = digest;
            0
        }
        Err(refused) => refused.code(),
    }
}

// The bytes of the path of an index in that tree.
fn path_of<H: ArrayHash>(
    alloc: Global,
    leaves: &[u8],
    lengths: &[usize],
    index: usize,
) -> Result<Vec<u8>, Refused>
    ensures { CallGivesBy (λ bytes. bytes.items) (path_of_leaves
        (hashing_by H.leaf_hash H.node_hash)
        leaves.now lengths.now index) result }
{
    let tree = tree_of::<H>(alloc, leaves, lengths)?;
    if index >= tree.size() {
        return Err(Refused::Index);
    }
    let path = tree.generate_proof(alloc, index)?;
    Ok(canonical_bytes(alloc, &path)?)
}

// Writes the bytes of the path of an index in the tree above the leaves to the front of `path`, and their count to
// `path_len`, and returns the code.
fn path_over<H: ArrayHash>(
    alloc: Global,
    path: &mut [u8],
    path_len: &mut usize,
    leaves: &[u8],
    lengths: &[usize],
    index: usize,
) -> i32
    ensures handed { Hands
        (path_of_leaves (hashing_by H.leaf_hash H.node_hash) leaves.now lengths.now index)
        path.old path.new path_len.old path_len.new result }
{
    hand_over(path_of::<H>(alloc, leaves, lengths, index), path, path_len)
}

// The bytes of the multi-proof of some indexes in that tree.
fn multi_path_of<H: ArrayHash>(
    alloc: Global,
    leaves: &[u8],
    lengths: &[usize],
    indexes: &[usize],
) -> Result<Vec<u8>, Refused>
    ensures { CallGivesBy (λ bytes. bytes.items)
        (multi_path_of_leaves (hashing_by H.leaf_hash H.node_hash)
        leaves.now lengths.now indexes.now) result }
{
    let tree = tree_of::<H>(alloc, leaves, lengths)?;
    if !are_indexes(tree.size(), indexes) {
        return Err(Refused::Index);
    }
    let proof = tree.generate_multi_proof(alloc, indexes)?;
    Ok(canonical_bytes(alloc, &proof)?)
}

// Writes the bytes of the multi-proof of some indexes in the tree above the leaves to the front of `proof`, and their
// count to `proof_len`, and returns the code.
fn multi_path_over<H: ArrayHash>(
    alloc: Global,
    proof: &mut [u8],
    proof_len: &mut usize,
    leaves: &[u8],
    lengths: &[usize],
    indexes: &[usize],
) -> i32
    ensures { Hands (multi_path_of_leaves (hashing_by H.leaf_hash H.node_hash)
        leaves.now lengths.now indexes.now) proof.old proof.new proof_len.old proof_len.new result }
{
    hand_over(
        multi_path_of::<H>(alloc, leaves, lengths, indexes),
        proof,
        proof_len,
    )
}

/// Returns whether the bytes of a path show a leaf at an index of a tree with this root and size.
///
/// Answers: 0 for a yes, 1 for another root; else the first of `E_INVALID` for a number that names no hashing, `E_SIZE`,
/// `E_INDEX`, `E_TRUNCATED`, `E_INVALID` where bytes are left, `E_HEIGHT`, `E_INVALID` where its own index is another one;
/// `E_MEMORY` in place of any.
#[unsafe(no_mangle)]
pub extern "C" fn paxidore_verify(
    alloc: Global,
    hashing: u32,
    root: &[u8; 32],
    size: usize,
    index: usize,
    leaf: &[u8],
    path: &[u8],
) -> i32
    ensures answer { GivesCode (verdict_code (in_hashing hashing (λ h.
        shown h root.now size index leaf.now path.now))) result }

    // 0 says: in every tree with this root and size the leaf stands at the index, or two different pairs are named that have
    // one SHA-256.
    ensures shows { result ≡ pos 0 → IfOk (hashing_of hashing) (λ h.
        ShowsLeaf (hashes_of h) root.now size index leaf.now (read_path path.now)) }
{
    in_hashing!(hashing, verify_over(alloc, root, size, index, leaf, path))
}

/// Returns whether the bytes of a strict multi-proof show leaves, one for each of some rising indexes, in such a tree.
///
/// Answers: 0 for a yes, 1 for another root; else the first of `E_INVALID` for a number that names no hashing, `E_SIZE`,
/// `E_COUNT`, `E_LENGTHS`, `E_INDEX`, also where there is no index, `E_TRUNCATED`, `E_INVALID` where it is not strict or bytes
/// are left, `E_HEIGHT`, `E_INVALID` where its own indexes are others; `E_MEMORY` in place of any.
#[unsafe(no_mangle)]
pub extern "C" fn paxidore_multi_verify(
    alloc: Global,
    hashing: u32,
    root: &[u8; 32],
    size: usize,
    indexes: &[usize],
    leaves: &[u8],
    lengths: &[usize],
    proof: &[u8],
) -> i32
    ensures answer { GivesCode (verdict_code (in_hashing hashing (λ h.
        all_shown h root.now size indexes.now leaves.now lengths.now proof.now))) result }

    // 0 says the same of each leaf and its index.
    ensures shows { result ≡ pos 0 → IfOk (hashing_of hashing) (λ h.
        IfOk (leaves_for size (length indexes.now) leaves.now lengths.now) (λ xs.
        ShowsLeaves (hashes_of h) root.now size indexes.now xs (read_multi_path proof.now))) }
{
    in_hashing!(
        hashing,
        multi_verify_over(alloc, root, size, indexes, leaves, lengths, proof)
    )
}

/// Writes the root of the tree above the leaves to `root`. An error leaves that as before.
///
/// Answers: 0; else the first of `E_INVALID` for a number that names no hashing, `E_SIZE`, `E_LENGTHS`; `E_MEMORY` in place of
/// any.
#[unsafe(no_mangle)]
pub extern "C" fn paxidore_root(
    alloc: Global,
    root: &mut [u8; 32],
    hashing: u32,
    leaves: &[u8],
    lengths: &[usize],
) -> i32
    ensures answer { GivesCode (done_code (in_hashing hashing (λ h.
        tree_leaves_in leaves.now lengths.now))) result }
    ensures root { result ≡ pos 0 → IfOk (hashing_of hashing) (λ h.
        IfOk (tree_leaves_in leaves.now lengths.now)
        (λ xs. root_in (tree_over h xs) ≡ Ok root.new)) }

    // In the hashing of RFC 6962 that is the Merkle tree hash of the leaves (section 2.1).
    ensures tree_hash { hashing ≡ 2 → result ≡ pos 0 → IfOk (tree_leaves_in leaves.now lengths.now)
        (λ xs. root.new ≡ tree_hash_of_entries (log2 (length xs)) xs) }
    ensures kept { result ≢ pos 0 → root.new ≡ root.old }
{
    in_hashing!(hashing, write_root(alloc, root, leaves, lengths))
}

/// Writes the bytes of the path of an index in the tree above the leaves to the front of `path`, and their count.
///
/// Answers: 0; else the first of `E_INVALID` for a number that names no hashing, `E_SIZE`, `E_LENGTHS`, `E_INDEX`, `E_ROOM`,
/// which alone writes the count that is needed; `E_MEMORY` in place of any. Any other refusal leaves both buffers as before.
#[unsafe(no_mangle)]
pub extern "C" fn paxidore_path(
    alloc: Global,
    path: &mut [u8],
    path_len: &mut usize,
    hashing: u32,
    leaves: &[u8],
    lengths: &[usize],
    index: usize,
) -> i32
    ensures handed { Hands (in_hashing hashing (λ h.
        path_of_leaves h leaves.now lengths.now index))
        path.old path.new path_len.old path_len.new result }

    // PAXIDORE_PATHBYTES of the size's logarithm.
    ensures counted { result ≡ pos 0 → path_len.new ≡ 16 + 32 * log2 (length lengths.now) }
{
    in_hashing!(
        hashing,
        path_over(alloc, path, path_len, leaves, lengths, index)
    )
}

/// Writes the bytes of the multi-proof of some indexes in the tree above the leaves to the front of `proof`, and their
/// count.
///
/// Answers: those of `paxidore_path`.
#[unsafe(no_mangle)]
pub extern "C" fn paxidore_multi_path(
    alloc: Global,
    proof: &mut [u8],
    proof_len: &mut usize,
    hashing: u32,
    leaves: &[u8],
    lengths: &[usize],
    indexes: &[usize],
) -> i32
    ensures { Hands (in_hashing hashing (λ h.
        multi_path_of_leaves h leaves.now lengths.now indexes.now))
        proof.old proof.new proof_len.old proof_len.new result }
{
    in_hashing!(
        hashing,
        multi_path_over(alloc, proof, proof_len, leaves, lengths, indexes)
    )
}
