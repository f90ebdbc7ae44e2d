//! New trees and new leaves: `tree L ..`, `digests D ..`, `set I L` and `setmany I L ..`.

ghost use Rattle.std.specs.Prelude.{◌≡◌, ◌<◌, map, nat_lt, length, true, Some, IfOk, OnErr};
ghost use Rattle.std.specs.List.{All, list_all};
ghost use Rattle.acp_run.specs.Steps.{HasHashes, Settles, Takes, digests_turn, set_many_turn, set_turn, state_of, tree_turn};

use crate::session::replies::{built, plain, refused};
use crate::session::shell::Shell;
use ark_base::error::Error;
use ark_base::serialize::Numbered;
use ark_crh::{CRHScheme, TwoToOneCRHScheme};
use ark_merkle::{LeafParam, MerkleTree, TwoToOneParam, Views, is_tree_size};
use std::alloc::{AllocError, Global};

/// Puts the tree above these leaves in the place of the one before, and returns the reply.
pub fn new_tree<C: Shell>(
    alloc: Global,
    leaf_parameters: &LeafParam<C>,
    pair_parameters: &TwoToOneParam<C>,
    tree: &mut Option<MerkleTree<C>>,
    leaves: &[C::Leaf],
) -> Result<Vec<u8>, AllocError>
    requires { HasHashes C.LeafHash.meaning ⟦<C as Views>⟧.pair leaf_parameters.now
        pair_parameters.now tree.old }
    ensures turn { IfOk result
        (λ reply. Takes (state_of tree.old) (tree_turn (⟦<C as Views>⟧.pair pair_parameters.now)
        (state_of tree.old) (map (C.LeafHash.meaning leaf_parameters.now) leaves.now))
        (state_of tree.new) reply.items) }
    ensures hashes { HasHashes C.LeafHash.meaning ⟦<C as Views>⟧.pair leaf_parameters.now
        pair_parameters.now tree.new }
    ensures refused { OnErr result (tree.new ≡ tree.old) }
{
    if !is_tree_size(leaves.len()) {
        return plain(alloc, b"refused leaves");
    }
    let made = MerkleTree::new(alloc, leaf_parameters, pair_parameters, leaves);
    settle(alloc, tree, made)
}

/// Puts the tree above these leaf digests in the place of the one before, and returns the reply.
pub fn new_tree_of_digests<C: Shell>(
    alloc: Global,
    leaf_parameters: &LeafParam<C>,
    pair_parameters: &TwoToOneParam<C>,
    tree: &mut Option<MerkleTree<C>>,
    digests: Vec<C::LeafDigest>,
) -> Result<Vec<u8>, AllocError>
    requires { HasHashes C.LeafHash.meaning ⟦<C as Views>⟧.pair leaf_parameters.now
        pair_parameters.now tree.old }
    ensures turn { IfOk result
        (λ reply. Takes (state_of tree.old) (digests_turn (⟦<C as Views>⟧.pair pair_parameters.now)
        (state_of tree.old) (map C.LeafDigest.numbers digests.items)) (state_of tree.new)
        reply.items) }
    ensures hashes { HasHashes C.LeafHash.meaning ⟦<C as Views>⟧.pair leaf_parameters.now
        pair_parameters.now tree.new }
    ensures refused { OnErr result (tree.new ≡ tree.old) }
{
    if !is_tree_size(digests.len()) {
        return plain(alloc, b"refused leaves");
    }
    let made = MerkleTree::new_with_leaf_digest(alloc, leaf_parameters, pair_parameters, digests);
    settle(alloc, tree, made)
}

// Puts a tree that was made in the place of the one before, and returns the reply. Room for it is made before the tree
// changes.
fn settle<C: Shell>(
    alloc: Global,
    tree: &mut Option<MerkleTree<C>>,
    made: Result<MerkleTree<C>, Error>,
) -> Result<Vec<u8>, AllocError>
    ensures settled { IfOk result (λ reply. Settles tree.old made tree.new reply.items) }
    ensures refused { OnErr result (tree.new ≡ tree.old) }
{
    match made {
        Ok(new) => {
            let reply = built(alloc, new.size(), new.height())?;
            *tree = Some(new);
            Ok(reply)
        }
        Err(error) => refused(alloc, error),
    }
}

/// Puts a leaf in the place of another, and returns the reply. Room for it is made before the tree changes.
pub fn set<C: Shell>(
    alloc: Global,
    tree: &mut MerkleTree<C>,
    index: usize,
    leaf: &C::Leaf,
) -> Result<Vec<u8>, AllocError>
    ensures turn { IfOk result
        (λ reply. Takes (Some tree.old.leaves)
        (set_turn (⟦<C as Views>⟧.pair tree.old.pair_parameters) tree.old.leaves index
        (C.LeafHash.meaning tree.old.leaf_parameters leaf.now)) (Some tree.new.leaves)
        reply.items) }
    ensures hashes { (p : C.LeafHash.Parameters) (q : C.TwoToOneHash.Parameters)
        → HasHashes C.LeafHash.meaning ⟦<C as Views>⟧.pair p q (Some tree.old)
        → HasHashes C.LeafHash.meaning ⟦<C as Views>⟧.pair p q (Some tree.new) }
    ensures refused { OnErr result (tree.new ≡ tree.old) }
{
    if index >= tree.size() {
        return plain(alloc, b"refused index");
    }
    let done = plain(alloc, b"ok")?;
    match tree.update(alloc, index, leaf) {
        Ok(()) => Ok(done),
        Err(error) => refused(alloc, error),
    }
}

/// Puts leaves in the places of others, and returns the reply. Room for it is made before the tree changes.
pub fn set_many<C: Shell>(
    alloc: Global,
    tree: &mut MerkleTree<C>,
    changes: &[(usize, C::Leaf)],
) -> Result<Vec<u8>, AllocError>
    ensures turn { IfOk result
        (λ reply. Takes (Some tree.old.leaves)
        (set_many_turn (⟦<C as Views>⟧.pair tree.old.pair_parameters) tree.old.leaves
        (map (λ change. (change.0, (C.LeafHash.meaning tree.old.leaf_parameters) change.1))
        changes.now)) (Some tree.new.leaves) reply.items) }
    ensures hashes { (p : C.LeafHash.Parameters) (q : C.TwoToOneHash.Parameters)
        → HasHashes C.LeafHash.meaning ⟦<C as Views>⟧.pair p q (Some tree.old)
        → HasHashes C.LeafHash.meaning ⟦<C as Views>⟧.pair p q (Some tree.new) }
    ensures refused { OnErr result (tree.new ≡ tree.old) }
{
    if !are_below(changes, tree.size()) {
        return plain(alloc, b"refused index");
    }
    let done = plain(alloc, b"ok")?;
    match tree.update_many(alloc, changes) {
        Ok(()) => Ok(done),
        Err(error) => refused(alloc, error),
    }
}

// Whether the index of each change is below a size.
fn are_below<L>(changes: &[(usize, L)], size: usize) -> bool
    ensures test { result ≡ list_all (λ change. nat_lt change.0 size) changes.now }
    ensures inside { result ≡ true → All (λ change. change.0 < size) changes.now }
{
    changes.iter().all(|(index, _)| *index < size)
}
