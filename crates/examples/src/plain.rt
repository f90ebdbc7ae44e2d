//! Trees over Poseidon hashes of three fields, and a signature over Jubjub, without a line of proof. What is generic over the
//! configuration or the scheme is proved once, and a plain function names them.

use ark_crypto_primitives::Error;
use ark_crypto_primitives::crh::poseidon::{CRH, TwoToOneCRH};
use ark_crypto_primitives::ec::jubjub::Jubjub;
use ark_crypto_primitives::ff::{Bls12_381Fr, Bn254Fr, Fp, Goldilocks};
use ark_crypto_primitives::merkle_tree::{
    Config, IdentityDigestConverter, LeafParam, MerkleTree, Path, TwoToOneParam, is_tree_size,
};
use ark_crypto_primitives::prf::Blake2s256;
use ark_crypto_primitives::serialize::Duplicate;
use ark_crypto_primitives::signature::SignatureScheme;
use ark_crypto_primitives::signature::schnorr::Schnorr;
use ark_crypto_primitives::sponge::poseidon::PoseidonConfig;
use ark_crypto_primitives::sponge::poseidon::parameters::Power;
use ark_crypto_primitives::trees::CircomTree;
use rand::Rng;
use std::alloc::Global;

/// Trees over arkworks' Poseidon: a leaf is a list of elements.
pub struct Notes;

impl Config for Notes {
    type Leaf = Vec<Bls12_381Fr>;

    type LeafDigest = Bls12_381Fr;

    type LeafInnerDigestConverter = IdentityDigestConverter<Bls12_381Fr>;

    type InnerDigest = Bls12_381Fr;

    type LeafHash = CRH<Bls12_381Fr, Power>;

    type TwoToOneHash = TwoToOneCRH<Bls12_381Fr, Power>;
}

/// The same over a field of one word.
pub struct SmallNotes;

impl Config for SmallNotes {
    type Leaf = Vec<Fp<Goldilocks>>;

    type LeafDigest = Fp<Goldilocks>;

    type LeafInnerDigestConverter = IdentityDigestConverter<Fp<Goldilocks>>;

    type InnerDigest = Fp<Goldilocks>;

    type LeafHash = CRH<Fp<Goldilocks>, Power>;

    type TwoToOneHash = TwoToOneCRH<Fp<Goldilocks>, Power>;
}

/// Returns the path of a leaf under circomlib's hash; `None` where the count of leaves is no power of two above one, or the
/// index is not below it.
pub fn circom_path(
    alloc: Global,
    leaf: &PoseidonConfig<Bn254Fr>,
    pair: &PoseidonConfig<Bn254Fr>,
    leaves: &[Vec<Bn254Fr>],
    index: usize,
) -> Result<Option<Path<CircomTree>>, Error> {
    if !is_tree_size(leaves.len()) {
        return Ok(None);
    }
    let tree = MerkleTree::<CircomTree>::new(alloc, leaf, pair, leaves)?;
    if index >= tree.size() {
        return Ok(None);
    }
    Ok(Some(tree.generate_proof(alloc, index)?))
}

/// Whether a path leads from a leaf to a root under circomlib's hash.
pub fn circom_holds(
    alloc: Global,
    leaf: &PoseidonConfig<Bn254Fr>,
    pair: &PoseidonConfig<Bn254Fr>,
    path: &Path<CircomTree>,
    root: &Bn254Fr,
    note: &Vec<Bn254Fr>,
) -> Result<bool, Error> {
    path.verify(alloc, leaf, pair, root, note)
}

/// Returns the root of the tree of some leaves; `None` where their count is no power of two above one. Errors: those of the
/// hashes.
pub fn root_over<P: Config>(
    alloc: Global,
    leaf: &LeafParam<P>,
    pair: &TwoToOneParam<P>,
    leaves: &[P::Leaf],
) -> Result<Option<P::InnerDigest>, Error> {
    if !is_tree_size(leaves.len()) {
        return Ok(None);
    }
    let tree = MerkleTree::<P>::new(alloc, leaf, pair, leaves)?;
    Ok(Some(tree.root().duplicate(alloc)?))
}

/// Returns the path of an index in a tree; `None` past its leaves. The only error is `OutOfMemory`.
pub fn path_in<P: Config>(
    alloc: Global,
    tree: &MerkleTree<P>,
    index: usize,
) -> Result<Option<Path<P>>, Error> {
    if index >= tree.size() {
        return Ok(None);
    }
    Ok(Some(tree.generate_proof(alloc, index)?))
}

/// Returns the root of some notes; `None` where their count is no power of two above one.
pub fn root_of_notes(
    alloc: Global,
    parameters: &PoseidonConfig<Bls12_381Fr>,
    notes: &[Vec<Bls12_381Fr>],
) -> Result<Option<Bls12_381Fr>, Error> {
    root_over::<Notes>(alloc, parameters, parameters, notes)
}

/// Returns the root of some notes over a field of one word; `None` where their count is no power of two above one.
pub fn root_of_small_notes(
    alloc: Global,
    parameters: &PoseidonConfig<Fp<Goldilocks>>,
    notes: &[Vec<Fp<Goldilocks>>],
) -> Result<Option<Fp<Goldilocks>>, Error> {
    root_over::<SmallNotes>(alloc, parameters, parameters, notes)
}

// Whether the signature of a message by drawn keys is accepted.
fn signature_holds<S: SignatureScheme, R: Rng>(
    alloc: Global,
    message: &[u8],
    rng: &mut R,
) -> Result<bool, Error> {
    let parameters = S::setup(alloc, rng)?;
    let (public, secret) = S::keygen(alloc, &parameters, rng)?;
    let signature = S::sign(alloc, &parameters, &secret, message, rng)?;
    S::verify(alloc, &parameters, &public, message, &signature)
}

/// Whether the signature of a message by drawn keys over Jubjub is accepted, which it is.
pub fn own_signature_holds<R: Rng>(
    alloc: Global,
    message: &[u8],
    rng: &mut R,
) -> Result<bool, Error> {
    signature_holds::<Schnorr<Jubjub, Blake2s256>, R>(alloc, message, rng)
}
