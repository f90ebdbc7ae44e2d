//! The configuration of trees and logs over circomlib's hash.

use ark_paths::{Config, IdentityDigestConverter};
use ark_poseidon::{CircomCRH, CircomTwoToOneCRH};
use ark_poseidon_parameters::Power;
use ark_wide_fields::Bn254Fr;

/// The configuration over circomlib's hash: a leaf is a list of as many elements as its parameters' rate says, and a node
/// the hash of its two children, at parameters of two inputs.
///
/// `ConfigHasher` of it makes a log. Over leaves that are appended as digests its roots are those of a LeanIMT, as Semaphore
/// has it: a node without a sibling is its own parent, which is the shape of RFC 6962's trees without their prefixes.
pub struct CircomTree;

impl Config for CircomTree {
    type Leaf = Vec<Bn254Fr>;

    type LeafDigest = Bn254Fr;

    type LeafInnerDigestConverter = IdentityDigestConverter<Bn254Fr>;

    type InnerDigest = Bn254Fr;

    type LeafHash = CircomCRH<Bn254Fr, Power>;

    type TwoToOneHash = CircomTwoToOneCRH<Bn254Fr, Power>;
}
