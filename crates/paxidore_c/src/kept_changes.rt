//! Several leaves of a kept tree that are changed at once. Nothing is allocated.

ghost use Rattle.std.specs.List.{All, zip};
ghost use Rattle.std.specs.Prelude.{◌≡◌, ◌≢◌, ◌<◌, ◌≤◌, ◌+◌, ◌/◌, ℕ, List, [], pos, true, length, map, get_or, IfOk, IfSome};
ghost use Rattle.ark_merkle.specs.Batch.{puts};
ghost use Rattle.ark_paths.specs.Pair.{Digest};
ghost use Rattle.kept_tree.specs.KeptTree.{ChangesLeaves, KeepsTree, is_tree_length, kept_leaves};
ghost use Rattle.paxidore_calls.specs.Answer.{done_code, hashing_of, in_hashing};
ghost use Rattle.paxidore_calls.specs.Cut.{parts_by};
ghost use Rattle.paxidore_c.specs.KeptAnswer.{leaves_to_change};

use crate::hashing::in_hashing;
use ark_crh::ArrayHash;
use kept_tree::check::is_tree_length;
use kept_tree::many::rehash_above;
use paxidore_calls::leaves::{are_indexes, are_parts, write_digests_from};
use paxidore_calls::refused::Refused;

// How many leaves are hashed at a time at most: as many digests lie on the stack.
const RUN: usize = 64;

// Puts digests to the places of the first of some indexes, one after the other.
fn put_digests(digests: &mut [[u8; 32]], indexes: &[usize], run: &[[u8; 32]])
    requires count { length run.now ≤ length indexes.now }
    requires inside { All (λ index. index < length digests.old) indexes.now }
    ensures long { length digests.new ≡ length digests.old }
    ensures put { digests.new ≡ puts digests.old (zip indexes.now run.now) }
{
    'digests: for n in 0..run.len() {
        digests[indexes[n]] = run[n];
    }
}

// Writes the digests of leaves to the places of their indexes, one after the other.
fn put_leaf_digests<H: ArrayHash>(
    digests: &mut [[u8; 32]],
    indexes: &[usize],
    bytes: &[u8],
    lengths: &[usize],
)
    requires count { length indexes.now ≡ length lengths.now }
    requires inside { All (λ index. index < length digests.old) indexes.now }
    ensures { IfSome (parts_by bytes.now lengths.now) (λ xs. digests.new
        ≡ puts digests.old (zip indexes.now (map H.leaf_hash xs))) }
{
    let mut run = [[0u8; 32]; RUN];
    let mut rest = bytes;
    let mut place = 0;
    'runs: while place < lengths.len() {
        let count = (lengths.len() - place).min(RUN);
        rest = write_digests_from::<H>(&mut run[..count], rest, lengths, place);
        put_digests(digests, &indexes[place..], &run[..count]);
        place += count;
    }
}

// Writes them to the places of their indexes in memory for a tree.
fn put_in_place<H: ArrayHash>(
    tree: &mut [[u8; 32]],
    indexes: &[usize],
    bytes: &[u8],
    lengths: &[usize],
)
    requires size { is_tree_length (length tree.old) ≡ true }
    requires count { length indexes.now ≡ length lengths.now }
    requires inside { All (λ index. index < length tree.old / 2 + 1) indexes.now }
    ensures leaves { IfSome (parts_by bytes.now lengths.now) (λ xs. kept_leaves tree.new
        ≡ puts (kept_leaves tree.old) (zip indexes.now (map H.leaf_hash xs))) }
    ensures above { (i : ℕ) → i < length tree.old / 2
        → get_or tree.new i [] ≡ get_or tree.old i [] }
{
    let first = tree.len() / 2;
    put_leaf_digests::<H>(&mut tree[first..], indexes, bytes, lengths);
}

// Changes the leaves at some indexes, one after the other, and returns the code.
fn tree_set_many<H: ArrayHash>(
    tree: &mut [[u8; 32]],
    indexes: &[usize],
    leaves: &[u8],
    lengths: &[usize],
) -> i32
    ensures answer { result ≡ done_code (leaves_to_change (length tree.old) indexes.now leaves.now
        lengths.now) }
    ensures changes { result ≡ pos 0 → IfSome (parts_by leaves.now lengths.now) (λ xs.
        ChangesLeaves H.node_hash tree.old tree.new
        indexes.now (map H.leaf_hash xs)) }
    ensures tree { (held : List Digest) → result ≡ pos 0 → KeepsTree H.node_hash tree.old held
        → IfSome (parts_by leaves.now lengths.now) (λ xs. KeepsTree H.node_hash tree.new
        (puts held (zip indexes.now (map H.leaf_hash xs)))) }
    ensures kept { result ≢ pos 0 → tree.new ≡ tree.old }
{
    if !is_tree_length(tree) {
        return Refused::Size.code();
    }
    if lengths.len() != indexes.len() {
        return Refused::Count.code();
    }
    if !are_parts(leaves, lengths) {
        return Refused::Lengths.code();
    }
    if !are_indexes(tree.len() / 2 + 1, indexes) {
        return Refused::Index.code();
    }
    put_in_place::<H>(tree, indexes, leaves, lengths);
    rehash_above::<H>(tree, indexes);
    0
}

/// Writes the digests of leaves to the places of their indexes, one after the other, and then the hashes above them, level by
/// level from the lowest up. Where the indexes rise, each hash is made once.
///
/// Answers: 0; else the first of `E_INVALID` for a number that names no hashing, `E_SIZE`, where no tree has so many digests,
/// `E_COUNT`, `E_LENGTHS`, `E_INDEX`, which leave the memory as before.
#[unsafe(no_mangle)]
pub extern "C" fn paxidore_tree_set_many(
    tree: &mut [[u8; 32]],
    hashing: u32,
    indexes: &[usize],
    leaves: &[u8],
    lengths: &[usize],
) -> i32
    ensures answer { result ≡ done_code (in_hashing hashing (λ h.
        leaves_to_change (length tree.old) indexes.now leaves.now lengths.now)) }

    // Whatever memory holds: the leaves' digests and those above them are written, and no other.
    ensures changes { result ≡ pos 0 → IfOk (hashing_of hashing) (λ h.
        IfSome (parts_by leaves.now lengths.now) (λ xs.
        ChangesLeaves h.node tree.old tree.new indexes.now (map h.leaf_hash xs))) }

    // A tree is then that of the changed leaf digests.
    ensures tree { result ≡ pos 0 → IfOk (hashing_of hashing) (λ h.
        (held : List Digest) → KeepsTree h.node tree.old held
        → IfSome (parts_by leaves.now lengths.now) (λ xs.
        KeepsTree h.node tree.new (puts held (zip indexes.now (map h.leaf_hash xs))))) }
    ensures kept { result ≢ pos 0 → tree.new ≡ tree.old }
{
    in_hashing!(hashing, tree_set_many(tree, indexes, leaves, lengths))
}
