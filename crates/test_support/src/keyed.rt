//! A leaf hash with parameters, for sessions.

ghost use Rattle.std.specs.Prelude.{◌≡◌, Ok, refl};
ghost use Rattle.std.proofs.Common.{ap, sym, ◌∙◌};
ghost use Rattle.test_support.specs.Keyed.{keyed_leaf, keyed_language};

use acp_run::session::shell::Shell;
use acp_run::session::tokens::number_of_token;
use ark_base::error::Error;
use ark_crh::CRHScheme;
use ark_groups::ff::{Field, Fp, M257};
use ark_merkle::{Config, IdentityDigestConverter};
use ark_trees::toy::{Toy, ToyPairHash};
use rand::Rng;
use std::alloc::{AllocError, Global};

/// As `toy`, but each leaf is hashed with a key.
pub struct Keyed;

impl Config for Keyed {
    type Leaf = u64;

    type LeafDigest = Fp<M257>;

    type LeafInnerDigestConverter = IdentityDigestConverter<Fp<M257>>;

    type InnerDigest = Fp<M257>;

    type LeafHash = KeyedLeafHash;

    type TwoToOneHash = ToyPairHash;
}

/// The key and the leaf, modulo 257.
pub struct KeyedLeafHash;

impl CRHScheme for KeyedLeafHash {
    type Input = u64;

    type Output = Fp<M257>;

    type Parameters = Fp<M257>;

    ghost meaning = { λ key leaf. keyed_leaf key.value leaf };

    ghost setup_outcome = { Ok };

    ghost is_made = { λ _ key. key.value ≡ 1 };

    fn setup<R: Rng>(_alloc: Global, _rng: &mut R) -> Result<Fp<M257>, Error> {
        Ok(Fp::from_u64(1))
    }

    fn evaluate(_alloc: Global, key: &Fp<M257>, input: &u64) -> Result<Fp<M257>, Error> {
        Ok(Field::add(*key, Fp::from_u64(*input)))
    }

    ghost meaning_decided = { λ _ _. tt };

    ghost setup_decided = { λ _. tt };

    ghost made_alike = { λ _ p q made also. made ∙ sym also };

    ghost same_parameters = { λ p q same. ap keyed_leaf same };
}

impl Shell for Keyed {
    ghost language = { λ key _. keyed_language key.value };

    fn read_leaf(alloc: Global, token: &[u8]) -> Result<Option<u64>, AllocError> {
        number_of_token(alloc, token)
    }

    fn read_digest(alloc: Global, token: &[u8]) -> Result<Option<Fp<M257>>, AllocError> {
        Toy::read_digest(alloc, token)
    }

    fn read_bytes(alloc: Global, token: &[u8]) -> Result<Option<Vec<u8>>, AllocError> {
        Toy::read_bytes(alloc, token)
    }

    fn show_root(root: &Fp<M257>, reply: &mut Vec<u8>) -> Result<(), AllocError> {
        Toy::show_root(root, reply)
    }

    ghost language_is = { λ p q. refl };
}
