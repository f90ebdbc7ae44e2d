//! Trees over Pedersen's and Bowe-Hopwood's hashes over Jubjub, without a line of proof.

use crate::plain::{path_in, root_over};
use ark_crypto_primitives::Error;
use ark_crypto_primitives::crh::jubjub_hashes::{
    BoweHopwoodCRH, BoweHopwoodParameters, BoweHopwoodTwoToOneCRH, PedersenCRH, PedersenParameters,
    PedersenTwoToOneCRH,
};
use ark_crypto_primitives::crh::pedersen::{Windows4x64, Windows4x256, Windows63x9};
use ark_crypto_primitives::ec::jubjub::Jubjub;
use ark_crypto_primitives::ff::Bls12_381Fr;
use ark_crypto_primitives::merkle_tree::{ByteDigestConverter, Config, MerkleTree, Path};
use std::alloc::Global;

/// Trees whose digests are points: a leaf has at most 32 bytes.
pub struct PointTree;

impl Config for PointTree {
    type Leaf = Vec<u8>;

    type LeafDigest = Jubjub;

    type LeafInnerDigestConverter = ByteDigestConverter<Jubjub>;

    type InnerDigest = Jubjub;

    type LeafHash = PedersenCRH<Windows4x64>;

    type TwoToOneHash = PedersenTwoToOneCRH<Windows4x256>;
}

/// Trees whose digests are first coordinates.
pub struct CoordinateTree;

impl Config for CoordinateTree {
    type Leaf = Vec<u8>;

    type LeafDigest = Bls12_381Fr;

    type LeafInnerDigestConverter = ByteDigestConverter<Bls12_381Fr>;

    type InnerDigest = Bls12_381Fr;

    type LeafHash = BoweHopwoodCRH<Windows63x9>;

    type TwoToOneHash = BoweHopwoodTwoToOneCRH<Windows63x9>;
}

/// Returns the root of a tree of points over leaves; `None` where their count is no power of two above one.
pub fn point_root(
    alloc: Global,
    leaf: &PedersenParameters,
    pair: &PedersenParameters,
    leaves: &[Vec<u8>],
) -> Result<Option<Jubjub>, Error> {
    root_over::<PointTree>(alloc, leaf, pair, leaves)
}

/// Returns the path of an index in a tree of points; `None` past its leaves.
pub fn point_path(
    alloc: Global,
    tree: &MerkleTree<PointTree>,
    index: usize,
) -> Result<Option<Path<PointTree>>, Error> {
    path_in(alloc, tree, index)
}

/// Returns whether a path leads from a leaf to the root of a tree of points.
pub fn is_point_leaf(
    alloc: Global,
    leaf: &PedersenParameters,
    pair: &PedersenParameters,
    path: &Path<PointTree>,
    root: &Jubjub,
    note: &Vec<u8>,
) -> Result<bool, Error> {
    path.verify(alloc, leaf, pair, root, note)
}

/// Returns the root of a tree of coordinates over leaves; `None` where their count is no power of two above one.
pub fn coordinate_root(
    alloc: Global,
    leaf: &BoweHopwoodParameters,
    pair: &BoweHopwoodParameters,
    leaves: &[Vec<u8>],
) -> Result<Option<Bls12_381Fr>, Error> {
    root_over::<CoordinateTree>(alloc, leaf, pair, leaves)
}

/// Returns the path of an index in a tree of coordinates; `None` past its leaves.
pub fn coordinate_path(
    alloc: Global,
    tree: &MerkleTree<CoordinateTree>,
    index: usize,
) -> Result<Option<Path<CoordinateTree>>, Error> {
    path_in(alloc, tree, index)
}

/// Returns whether a path leads from a leaf to the root of a tree of coordinates.
pub fn is_coordinate_leaf(
    alloc: Global,
    leaf: &BoweHopwoodParameters,
    pair: &BoweHopwoodParameters,
    path: &Path<CoordinateTree>,
    root: &Bls12_381Fr,
    note: &Vec<u8>,
) -> Result<bool, Error> {
    path.verify(alloc, leaf, pair, root, note)
}
