//! What paths and multi-proofs say: `check P L`, `bind P L`, `mcheck P L ..`, `mcount P L ..` and `strict P`.

ghost use Rattle.std.specs.Prelude.{◌≡◌, map, true, IsOk};
ghost use Rattle.ark_base.specs.Outcome.{Answers};
ghost use Rattle.ark_paths.specs.MultiPathStrict.{strict_reading};
ghost use Rattle.acp_run.specs.Replies.{pairs_of, verdict_with};
ghost use Rattle.acp_run.specs.Steps.{MayCount, about, bound_by, count_of, found_by, found_by_multi};

use crate::session::proofs::whole_proof;
use crate::session::replies::Finding;
use crate::session::shell::Shell;
use ark_base::error::Error;
use ark_crh::{CRHScheme, TwoToOneCRHScheme};
use ark_merkle::{LeafParam, MerkleTree, MultiPath, Path, TwoToOneParam, Views};
use std::alloc::Global;

/// Returns whether the path that the bytes spell gives the root for a leaf.
///
/// Errors: the bytes' first fault, those of `Path::verify`.
pub fn verdict<C: Shell>(
    alloc: Global,
    leaf_parameters: &LeafParam<C>,
    pair_parameters: &TwoToOneParam<C>,
    tree: &MerkleTree<C>,
    bytes: &[u8],
    leaf: &C::Leaf,
) -> Result<Finding, Error>
    requires { ⟦<C as Views>⟧.pair tree.now.pair_parameters ≡ ⟦<C as Views>⟧.pair
        pair_parameters.now }
    ensures { Answers (about (found_by (⟦<C as Views>⟧.pair pair_parameters.now) tree.now.leaves
        (C.LeafHash.meaning leaf_parameters.now leaf.now)) (⟦<C as Views>⟧.path_reading bytes.now))
        result }
{
    let Some(path) = whole_proof::<Path<C>>(alloc, bytes)? else {
        return Ok(Finding::Trailing);
    };
    let holds = path.verify(alloc, leaf_parameters, pair_parameters, tree.root(), leaf)?;
    Ok(Finding::Verdict(holds))
}

/// Returns what the path that the bytes spell says of a leaf.
///
/// Errors: the bytes' first fault, those of `MerkleTree::bind`.
pub fn binding<C: Shell>(
    alloc: Global,
    tree: &MerkleTree<C>,
    bytes: &[u8],
    leaf: &C::Leaf,
) -> Result<Finding, Error>
    ensures { Answers (about (bound_by (⟦<C as Views>⟧.pair tree.now.pair_parameters)
        tree.now.leaves (C.LeafHash.meaning tree.now.leaf_parameters leaf.now))
        (⟦<C as Views>⟧.path_reading bytes.now)) result }
{
    let Some(path) = whole_proof::<Path<C>>(alloc, bytes)? else {
        return Ok(Finding::Trailing);
    };
    let binding = tree.bind(alloc, &path, leaf)?;
    Ok(Finding::Bound(binding))
}

/// Returns whether the multi-proof that the bytes spell is accepted with the leaves, and where that is asked for how
/// many pairs were hashed.
///
/// Errors: the bytes' first fault, those of `MultiPath::verify_counting`.
pub fn multi_verdict<C: Shell>(
    alloc: Global,
    leaf_parameters: &LeafParam<C>,
    pair_parameters: &TwoToOneParam<C>,
    tree: &MerkleTree<C>,
    bytes: &[u8],
    leaves: &[C::Leaf],
    with_pairs: bool,
) -> Result<Finding, Error>
    requires { ⟦<C as Views>⟧.pair tree.now.pair_parameters ≡ ⟦<C as Views>⟧.pair
        pair_parameters.now }
    ensures answer { Answers (about (found_by_multi (verdict_with with_pairs (pairs_of result))
        (⟦<C as Views>⟧.pair pair_parameters.now) tree.now.leaves
        (map (C.LeafHash.meaning leaf_parameters.now) leaves.now))
        (⟦<C as Views>⟧.multi_path_reading bytes.now)) result }
    ensures count { IsOk result → with_pairs ≡ true
        → MayCount (⟦<C as Views>⟧.pair pair_parameters.now) tree.now.leaves
        (map (C.LeafHash.meaning leaf_parameters.now) leaves.now)
        (⟦<C as Views>⟧.multi_path_reading bytes.now) (pairs_of result) }
{
    let Some(proof) = whole_proof::<MultiPath<C>>(alloc, bytes)? else {
        return Ok(Finding::Trailing);
    };
    let (holds, pairs) = proof.verify_counting(
        alloc,
        leaf_parameters,
        pair_parameters,
        tree.root(),
        leaves.iter(),
    )?;
    Ok(verdict_with(with_pairs, pairs, holds))
}

// A verdict, with its number of pairs where that is asked for.
fn verdict_with(with_pairs: bool, pairs: usize, holds: bool) -> Finding
    ensures { result ≡ verdict_with with_pairs pairs holds }
{
    if with_pairs {
        Finding::Counted(holds, pairs)
    } else {
        Finding::Verdict(holds)
    }
}

/// Returns how many indexes the strict multi-proof has that the bytes spell.
///
/// Errors: the bytes' first fault, `InvalidData` for a multi-proof that is not strict.
pub fn strict_count<C: Shell>(alloc: Global, bytes: &[u8]) -> Result<Finding, Error>
    ensures { Answers (about count_of
        (strict_reading (⟦<C as Views>⟧.multi_path_reading bytes.now))) result }
{
    let (proof, used) = MultiPath::<C>::read_strict(alloc, bytes)?;
    if used < bytes.len() {
        return Ok(Finding::Trailing);
    }
    Ok(Finding::Strict(proof.leaf_indexes.len()))
}
