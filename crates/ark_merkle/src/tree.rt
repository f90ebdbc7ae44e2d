//! Merkle trees.

ghost use Rattle.std.specs.Prelude.{◌≡◌, ◌<◌, ◌≤◌, ◌+◌, ◌-◌, ◌^◌, [], replicate, length, map, get_or, IfOk, Ok};
ghost use Rattle.ark_base.specs.Outcome.{AnswersBy};
ghost use Rattle.ark_paths.specs.Index.{IsTreeSize, log2, neighbour};
ghost use Rattle.ark_paths.specs.Pair.{pair_of};
ghost use Rattle.ark_paths.specs.Rows.{IsTree, digests_of};
ghost use Rattle.ark_paths.specs.Tree.{Tree, HashedTree, tree_with, tree_of, tree_above, root_in, path_in, IsAccepted};

mod batch;
mod bind;
mod build;
mod changes;
mod levels;
mod multi_proof;
mod rows;
mod update;

use ark_base::error::Error;
use ark_base::serialize::Duplicate;
use ark_paths::config::{Config, LeafParam, TwoToOneParam};
use ark_paths::digests::{blank_row, copies_of};
use ark_paths::hasher::{ConfigHasher, TreeHasher};
use ark_paths::index::neighbour_of;
use ark_paths::path::Path;
use ark_paths::views::Views;
pub use bind::Binding;
use build::{hash_all, rows_above};
use levels::Levels;
use rows::digests_beside;
use std::alloc::Global;
use std::marker::Model;

/// A Merkle tree: a power of two above one of leaf digests, and the digests above them.
///
/// Contracts see what its hashes answer and its leaf digests. Its height is the logarithm of its size plus one.
#[derive(Drop)]
pub struct MerkleTree<P: Config> {
    leaf_parameters: LeafParam<P>,
    pair_parameters: TwoToOneParam<P>,
    leaves: Vec<P::LeafDigest>,
    rows: Levels<P::InnerDigest>,
}

impl<P: Config> Model for MerkleTree<P> {
    ghost Value = { Tree P.LeafHash.Parameters P.TwoToOneHash.Parameters };

    ghost view = { λ t. record {
      leaf_parameters = t.leaf_parameters;
      pair_parameters = t.pair_parameters;
      leaves = digests_of P.LeafDigest.numbers t.leaves;
    } };

    ghost invariant = { λ t. IsTree
        (pair_of P.LeafInnerDigestConverter.conversion P.TwoToOneHash.evaluated
        P.TwoToOneHash.compressed t.pair_parameters)
        (digests_of P.LeafDigest.numbers t.leaves) t.rows };
}

impl<P: Views> MerkleTree<P> {
    /// Returns the tree above these leaves, of which there are a power of two above one.
    ///
    /// Errors: that of the first leaf from the left whose hash refuses; else that of the lowest pair, leftmost among
    /// equals; `OutOfMemory`.
    pub fn new(
        alloc: Global,
        leaf_parameters: &LeafParam<P>,
        pair_parameters: &TwoToOneParam<P>,
        leaves: &[P::Leaf],
    ) -> Result<MerkleTree<P>, Error>
        requires { IsTreeSize (length leaves.now) }
        ensures { AnswersBy P.tree (tree_of (P.hashes leaf_parameters.now pair_parameters.now)
            leaves.now) result }
    {
        let hasher = ConfigHasher::<P>::new(leaf_parameters, pair_parameters);
        let digests = hash_all(alloc, &hasher, leaves)?;
        MerkleTree::new_with_leaf_digest(alloc, leaf_parameters, pair_parameters, digests)
    }

    /// Returns the tree above these leaf digests, of which there are a power of two above one.
    ///
    /// Errors: that of the lowest pair, leftmost among equals; `OutOfMemory`.
    pub fn new_with_leaf_digest(
        alloc: Global,
        leaf_parameters: &LeafParam<P>,
        pair_parameters: &TwoToOneParam<P>,
        leaves: Vec<P::LeafDigest>,
    ) -> Result<MerkleTree<P>, Error>
        requires { IsTreeSize (length leaves.items) }
        ensures { AnswersBy P.tree (tree_above (P.hashes leaf_parameters.now pair_parameters.now)
            (digests_of P.LeafDigest.numbers leaves)) result }
    {
        let hasher = ConfigHasher::<P>::new(leaf_parameters, pair_parameters);
        let rows = rows_above(alloc, &hasher, &leaves)?;
        let leaf_parameters = leaf_parameters.duplicate(alloc)?;
        let pair_parameters = pair_parameters.duplicate(alloc)?;
        Ok(MerkleTree {
            leaf_parameters,
            pair_parameters,
            leaves,
            rows,
        })
    }

    /// Returns the tree of this height above blank leaf digests.
    ///
    /// Errors: that of their pair, or of the lowest one above; `OutOfMemory`.
    pub fn blank(
        alloc: Global,
        leaf_parameters: &LeafParam<P>,
        pair_parameters: &TwoToOneParam<P>,
        height: usize,
    ) -> Result<MerkleTree<P>, Error>
        requires low { 2 ≤ height }
        requires high { height ≤ 64 }
        ensures { AnswersBy P.tree (tree_above (P.hashes leaf_parameters.now pair_parameters.now)
            (replicate (2 ^ (height - 1)) P.LeafDigest.blank_numbers)) result }
    {
        let digests = blank_row(alloc, height)?;
        MerkleTree::new_with_leaf_digest(alloc, leaf_parameters, pair_parameters, digests)
    }

    /// Returns the digest of the leaf beside that of an index below the size.
    pub fn get_leaf_sibling_hash(&self, index: usize) -> &P::LeafDigest
        requires { index < length self.now.leaves }
        ensures { P.LeafDigest.numbers result.now ≡ get_or self.now.leaves (neighbour index) [] }
    {
        &self.leaves[neighbour_of(index)]
    }

    /// Returns the root: the repeated halving of the leaf digests.
    pub fn root(&self) -> &P::InnerDigest
        ensures { root_in (P.tree self.now) ≡ Ok (P.InnerDigest.numbers result.now) }
    {
        let (_, _, rows) = self.parts();
        rows.at(rows.len() - 1, 0)
    }

    /// Returns the count of levels, that of the leaf digests and that of the root included: the logarithm of the size
    /// to base two, plus one.
    pub fn height(&self) -> usize
        ensures levels { result ≡ log2 (length self.now.leaves) + 1 }
        ensures power { length self.now.leaves ≡ 2 ^ log2 (length self.now.leaves) }
    {
        let (_, _, rows) = self.parts();
        rows.len() + 1
    }

    /// Returns the count of leaf digests.
    pub fn size(&self) -> usize
        ensures size { result ≡ length self.now.leaves }
        ensures power { IsTreeSize result }
    {
        self.leaves.len()
    }

    /// Returns the path of an index below the size. The only error is `OutOfMemory`.
    pub fn generate_proof(&self, alloc: Global, index: usize) -> Result<Path<P>, Error>
        requires { index < length self.now.leaves }

        // The digest beside the index's own, the roots of the halves that do not hold it, and the index.
        ensures proof { AnswersBy P.way (Ok (path_in (P.tree self.now) index)) result }

        // `verify` accepts it under the tree's parameters and root, for any leaf with that digest.
        ensures accepted { IfOk result (λ path. IsAccepted (P.tree self.now) index (P.way path)) }
    {
        // The digest beside the leaf's comes last: memory is asked for the lowest rows' digests before it is waited for.
        let (_, _, rows) = self.parts();
        Ok(Path {
            auth_path: digests_beside(alloc, rows, rows.len(), index)?,
            leaf_sibling_hash: self.get_leaf_sibling_hash(index).duplicate(alloc)?,
            leaf_index: index,
        })
    }
}

impl<P: Views> MerkleTree<P> {
    // The tree's hashes, its leaf digests and the digests above them.
    fn parts<'a>(
        &'a self,
    ) -> (
        ConfigHasher<'a, P>,
        &'a [P::LeafDigest],
        &'a Levels<P::InnerDigest>,
    )
        ensures seen { let own =
            ⟦<ConfigHasher<'a, P> as TreeHasher<P::LeafDigest, P::InnerDigest>>⟧ in
            tree_with (own.hashes result.0) (map P.LeafDigest.numbers result.1.now)
            ≡ P.tree self.now }
        ensures leaves { map P.LeafDigest.numbers result.1.now ≡ self.now.leaves }
        ensures tree { let own =
            ⟦<ConfigHasher<'a, P> as TreeHasher<P::LeafDigest, P::InnerDigest>>⟧ in
            IsTree (own.hashes result.0).pair (map P.LeafDigest.numbers result.1.now) result.2.now }
        ensures fits { length result.1.now < 2 ^ 64 }
    {
        let hasher = ConfigHasher::<P>::new(&self.leaf_parameters, &self.pair_parameters);
        (hasher, &self.leaves, &self.rows)
    }
}

impl<P: Views> Duplicate for MerkleTree<P> {
    ghost Data = { HashedTree P.Leaf };

    ghost seen = { λ tree. P.tree tree };

    fn duplicate(&self, alloc: Global) -> Result<MerkleTree<P>, Error> {
        Ok(MerkleTree {
            leaf_parameters: self.leaf_parameters.duplicate(alloc)?,
            pair_parameters: self.pair_parameters.duplicate(alloc)?,
            leaves: copies_of(alloc, &self.leaves)?,
            rows: self.rows.duplicate(alloc)?,
        })
    }
}
