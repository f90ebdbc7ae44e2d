//! The reply to a line.

ghost use Rattle.std.specs.Prelude.{◌≡◌, IfOk, OnErr};
ghost use Rattle.acp_run.specs.Steps.{HasHashes, LineStep, state_of};

use crate::session::changes::{new_tree, new_tree_of_digests, set, set_many};
use crate::session::checks::{binding, multi_verdict, strict_count, verdict};
use crate::session::replies::{finding_bytes, plain};
use crate::session::request::{Request, request_of};
use crate::session::shell::Shell;
use crate::session::shows::{multi_proof, proof, root_reply};
use ark_crh::CRHScheme;
use ark_merkle::{LeafParam, MerkleTree, TwoToOneParam, Views};
use std::alloc::{AllocError, Global};

/// Returns the reply to one line, without a line feed, in a session over hashes with these parameters. Only `tree`,
/// `digests`, `set` and `setmany` change the tree.
///
/// The only error is `AllocError`, where memory lacks for the line or for the reply's own bytes; it leaves the tree as
/// before.
pub fn answer<C: Shell>(
    alloc: Global,
    leaf_parameters: &LeafParam<C>,
    pair_parameters: &TwoToOneParam<C>,
    tree: &mut Option<MerkleTree<C>>,
    line: &[u8],
) -> Result<Vec<u8>, AllocError>
    requires { HasHashes C.LeafHash.meaning ⟦<C as Views>⟧.pair leaf_parameters.now
        pair_parameters.now tree.old }
    ensures step { IfOk result (λ reply. LineStep (C.language leaf_parameters.now
        pair_parameters.now)
        (state_of tree.old) line.now (state_of tree.new) reply.items) }
    ensures hashes { HasHashes C.LeafHash.meaning ⟦<C as Views>⟧.pair leaf_parameters.now
        pair_parameters.now tree.new }
    ensures refused { OnErr result (tree.new ≡ tree.old) }
{
    let Some(request) = request_of::<C>(alloc, line)? else {
        return plain(alloc, b"bad line");
    };
    match request {
        Request::Tree(leaves) => new_tree(alloc, leaf_parameters, pair_parameters, tree, &leaves),
        Request::Digests(digests) => {
            new_tree_of_digests(alloc, leaf_parameters, pair_parameters, tree, digests)
        }
        Request::Set(index, leaf) => match tree {
            Some(tree) => set(alloc, tree, index, &leaf),
            None => plain(alloc, b"refused tree"),
        },
        Request::SetMany(changes) => match tree {
            Some(tree) => set_many(alloc, tree, &changes),
            None => plain(alloc, b"refused tree"),
        },
        Request::Root => match tree {
            Some(tree) => root_reply(alloc, tree),
            None => plain(alloc, b"refused tree"),
        },
        Request::Proof(index) => match tree {
            Some(tree) => proof(alloc, tree, index),
            None => plain(alloc, b"refused tree"),
        },
        Request::Multi(indexes) => match tree {
            Some(tree) => multi_proof(alloc, tree, &indexes),
            None => plain(alloc, b"refused tree"),
        },
        Request::Check(path, leaf) => match tree {
            Some(tree) => {
                let found = verdict(alloc, leaf_parameters, pair_parameters, tree, &path, &leaf);
                finding_bytes(alloc, found)
            }
            None => plain(alloc, b"refused tree"),
        },
        Request::Bind(path, leaf) => match tree {
            Some(tree) => finding_bytes(alloc, binding(alloc, tree, &path, &leaf)),
            None => plain(alloc, b"refused tree"),
        },
        Request::MultiCheck(proof, leaves) => match tree {
            Some(tree) => {
                let found = multi_verdict(
                    alloc,
                    leaf_parameters,
                    pair_parameters,
                    tree,
                    &proof,
                    &leaves,
                    false,
                );
                finding_bytes(alloc, found)
            }
            None => plain(alloc, b"refused tree"),
        },
        Request::MultiCount(proof, leaves) => match tree {
            Some(tree) => {
                let found = multi_verdict(
                    alloc,
                    leaf_parameters,
                    pair_parameters,
                    tree,
                    &proof,
                    &leaves,
                    true,
                );
                finding_bytes(alloc, found)
            }
            None => plain(alloc, b"refused tree"),
        },
        Request::Strict(proof) => finding_bytes(alloc, strict_count::<C>(alloc, &proof)),
    }
}
