//! A hash that is keyed by bytes, as a user writes one, and a tree over it: SHA-256 of a salt of 32 bytes and the input.

ghost use Rattle.std.specs.Prelude.{◌≡◌, ◌++◌, Ok};
ghost use Rattle.rand_core.specs.Stream.{fill_bytes};
ghost use Rattle.sha2.specs.Sha256.{sha256};

use ark_base::error::Error;
use ark_crh::CRHScheme;
use ark_groups::ff::UniformRand;
use ark_merkle::{Config, IdentityDigestConverter};
use ark_trees::ArraySha256;
use rand::Rng;
use sha2::{Digest, Sha256};
use std::alloc::Global;

/// SHA-256 of a salt and the input.
pub struct Salted;

impl CRHScheme for Salted {
    ghost use Rattle.std.proofs.Common.{sym, ◌∙◌};

    type Input = Vec<u8>;

    type Output = [u8; 32];

    type Parameters = [u8; 32];

    ghost meaning = { λ salt input. Ok (sha256 (salt ++ input.items)) };

    ghost setup_outcome = { λ stream. Ok (fill_bytes 32 stream).1 };

    ghost is_made = { λ stream salt. salt ≡ (fill_bytes 32 stream).0 };

    fn setup<R: Rng>(_alloc: Global, rng: &mut R) -> Result<[u8; 32], Error> {
        Ok(<[u8; 32] as UniformRand>::rand(rng))
    }

    fn evaluate(_alloc: Global, parameters: &[u8; 32], input: &Vec<u8>) -> Result<[u8; 32], Error> {
        let mut hasher = Sha256::new();
        hasher.update(parameters.as_slice());
        hasher.update(input.as_slice());
        Ok(hasher.finalize())
    }

    ghost meaning_decided = { λ _ _. tt };

    ghost setup_decided = { λ _. tt };

    ghost made_alike = { λ _ p q made also. made ∙ sym also };

    ghost same_parameters = { λ p q same i input. Ok (sha256 (same i ++ input.items)) };
}

/// Trees whose leaves are hashed with a salt.
pub struct SaltedTree;

impl Config for SaltedTree {
    type Leaf = Vec<u8>;

    type LeafDigest = [u8; 32];

    type LeafInnerDigestConverter = IdentityDigestConverter<[u8; 32]>;

    type InnerDigest = [u8; 32];

    type LeafHash = Salted;

    type TwoToOneHash = ArraySha256;
}
