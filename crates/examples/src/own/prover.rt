//! The tree of a prover: notes of field elements under circomlib's Poseidon over BN254, and the path of one of them.
//!
//! A function that is generic over the configuration is proved once for all of them. The configuration is named where the
//! program calls it.

use ark_crypto_primitives::Error;
use ark_crypto_primitives::crh::poseidon::{CircomCRH, CircomTwoToOneCRH};
use ark_crypto_primitives::ff::Bn254Fr;
use ark_crypto_primitives::merkle_tree::{
    Config, IdentityDigestConverter, LeafParam, MerkleTree, Path, TwoToOneParam, is_tree_size,
};
use ark_crypto_primitives::sponge::poseidon::parameters::Power;
use std::alloc::Global;

/// Notes of some field elements each.
pub struct Notes;

impl Config for Notes {
    type Leaf = Vec<Bn254Fr>;

    type LeafDigest = Bn254Fr;

    type LeafInnerDigestConverter = IdentityDigestConverter<Bn254Fr>;

    type InnerDigest = Bn254Fr;

    type LeafHash = CircomCRH<Bn254Fr, Power>;

    type TwoToOneHash = CircomTwoToOneCRH<Bn254Fr, Power>;
}

/// Returns the path of a leaf in the tree of some leaves; `None` where their count is no power of two above one, or the index
/// is not below it. Errors: those of the hashes.
pub fn path_for<P: Config>(
    alloc: Global,
    leaf: &LeafParam<P>,
    pair: &TwoToOneParam<P>,
    leaves: &[P::Leaf],
    index: usize,
) -> Result<Option<Path<P>>, Error> {
    if !is_tree_size(leaves.len()) {
        return Ok(None);
    }
    let tree = MerkleTree::<P>::new(alloc, leaf, pair, leaves)?;
    if index >= tree.size() {
        return Ok(None);
    }
    Ok(Some(tree.generate_proof(alloc, index)?))
}
