//! Merkle trees over any lawful pair of hashes.
#![tactic(auto)]

pub mod tree;

pub use ark_paths::{
    ByteDigestConverter, Config, DigestConverter, IdentityDigestConverter, LeafParam, MultiPath,
    PairCount, PairHasher, Path, TwoToOneParam, Views, config, digests, hasher, index,
    is_tree_size, multi_path, pair, path, views,
};
pub use tree::{Binding, MerkleTree};
