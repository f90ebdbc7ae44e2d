//! What a tree shows: `root`, `proof I` and `multi I ..`.

ghost use Rattle.std.specs.Prelude.{◌≡◌, ◌<◌, nat_lt, length, IfOk, Ok, true};
ghost use Rattle.std.specs.List.{All, list_all};
ghost use Rattle.ark_base.specs.Outcome.{AnswersBy};
ghost use Rattle.ark_paths.specs.Root.{root};
ghost use Rattle.ark_paths.specs.Tree.{path_in};
ghost use Rattle.ark_merkle.specs.MultiProof.{multi_path_in};
ghost use Rattle.acp_run.specs.Replies.{Tells};
ghost use Rattle.acp_run.specs.Steps.{multi_reply, proof_reply, shown_root};

use crate::session::proofs::proof_bytes;
use crate::session::replies::{plain, refused, with_hex};
use crate::session::shell::Shell;
use ark_base::error::Error;
use ark_crh::{CRHScheme, TwoToOneCRHScheme};
use ark_merkle::{MerkleTree, Views};
use std::alloc::{AllocError, Global};

// How many bytes the reply to `root` has for a root of 32 bytes.
const ROOT_REPLY: usize = 69;

/// Returns the reply to `root`.
pub fn root_reply<C: Shell>(alloc: Global, tree: &MerkleTree<C>) -> Result<Vec<u8>, AllocError>
    ensures { IfOk result (λ reply. (p : C.LeafHash.Parameters) (q : C.TwoToOneHash.Parameters)
        → Tells (shown_root (C.language p q).root_bytes
        (root (⟦<C as Views>⟧.pair tree.now.pair_parameters) tree.now.leaves)) reply.items) }
{
    let mut reply = Vec::with_capacity(alloc, ROOT_REPLY)?;
    reply.extend_from_slice(b"root ")?;
    C::show_root(tree.root(), &mut reply)?;
    Ok(reply)
}

// The canonical bytes of an index's path.
fn path_bytes<C: Shell>(alloc: Global, tree: &MerkleTree<C>, index: usize) -> Result<Vec<u8>, Error>
    requires { index < length tree.now.leaves }
    ensures { AnswersBy (λ bytes. bytes.items)
        (Ok (⟦<C as Views>⟧.path_bytes (path_in (⟦<C as Views>⟧.tree tree.now) index))) result }
{
    let path = tree.generate_proof(alloc, index)?;
    proof_bytes(alloc, &path)
}

/// Returns the reply to `proof`.
pub fn proof<C: Shell>(
    alloc: Global,
    tree: &MerkleTree<C>,
    index: usize,
) -> Result<Vec<u8>, AllocError>
    ensures { IfOk result (λ reply. Tells
        (proof_reply (⟦<C as Views>⟧.path_bytes (path_in (⟦<C as Views>⟧.tree tree.now) index))
        tree.now.leaves index) reply.items) }
{
    if index >= tree.size() {
        return plain(alloc, b"refused index");
    }
    match path_bytes(alloc, tree, index) {
        Ok(bytes) => with_hex(alloc, b"path ", &bytes),
        Err(error) => refused(alloc, error),
    }
}

// Whether each index is below a size.
fn are_below(indexes: &[usize], size: usize) -> bool
    ensures test { result ≡ list_all (λ index. nat_lt index size) indexes.now }
    ensures inside { result ≡ true → All (λ index. index < size) indexes.now }
{
    indexes.iter().all(|index| *index < size)
}

// The canonical bytes of the multi-proof of some indexes.
fn multi_proof_bytes<C: Shell>(
    alloc: Global,
    tree: &MerkleTree<C>,
    indexes: &[usize],
) -> Result<Vec<u8>, Error>
    requires { All (λ i. i < length tree.now.leaves) indexes.now }
    ensures { AnswersBy (λ bytes. bytes.items)
        (Ok (⟦<C as Views>⟧.multi_path_bytes (multi_path_in (⟦<C as Views>⟧.tree tree.now)
        indexes.now))) result }
{
    let proof = tree.generate_multi_proof(alloc, indexes)?;
    proof_bytes(alloc, &proof)
}

/// Returns the reply to `multi`.
pub fn multi_proof<C: Shell>(
    alloc: Global,
    tree: &MerkleTree<C>,
    indexes: &[usize],
) -> Result<Vec<u8>, AllocError>
    ensures { IfOk result (λ reply. Tells
        (multi_reply (⟦<C as Views>⟧.multi_path_bytes (multi_path_in (⟦<C as Views>⟧.tree tree.now)
        indexes.now)) tree.now.leaves indexes.now) reply.items) }
{
    if !are_below(indexes, tree.size()) {
        return plain(alloc, b"refused index");
    }
    match multi_proof_bytes(alloc, tree, indexes) {
        Ok(bytes) => with_hex(alloc, b"multi ", &bytes),
        Err(error) => refused(alloc, error),
    }
}
