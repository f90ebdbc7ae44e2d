//! Trees of a log's entries.

ghost use Rattle.std.specs.Prelude.{◌≡◌, length, map, IfOk, Ok};
ghost use Rattle.ark_base.specs.Outcome.{AnswersBy};
ghost use Rattle.ark_paths.specs.Index.{IsTreeSize, log2};
ghost use Rattle.ark_paths.specs.Tree.{root_in, tree_of};
ghost use Rattle.ark_trees.specs.Rfc6962.{tree_hash_of_entries};

use ark_base::error::Error;
use ark_merkle::{MerkleTree, Views};
use ark_trees::Sha256Log;
use std::alloc::Global;

/// Returns the tree of a log over these entries, of which there are a power of two above one. The only error is
/// `OutOfMemory`.
pub fn log_tree(alloc: Global, entries: &[Vec<u8>]) -> Result<MerkleTree<Sha256Log>, Error>
    requires { IsTreeSize (length entries.now) }
    ensures tree { AnswersBy ⟦<Sha256Log as Views>⟧.tree
        (tree_of (⟦<Sha256Log as Views>⟧.hashes tt tt) entries.now) result }

    // Its root is the Merkle tree hash of the entries (RFC 6962, section 2.1).
    ensures root { let entries = map (λ entry. entry.items) entries.now in
        let hash = tree_hash_of_entries (log2 (length entries)) entries in
        IfOk result (λ tree. root_in (⟦<Sha256Log as Views>⟧.tree tree) ≡ Ok hash) }
{
    let tree = MerkleTree::<Sha256Log>::new(alloc, &(), &(), entries)?;
    // The call tells the proof that the size is a power of two.
    let _levels = tree.height();
    Ok(tree)
}
