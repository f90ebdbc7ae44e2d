//! Sessions whose pair hash refuses.

ghost use Rattle.std.specs.Prelude.{◌≡◌, refl};
ghost use Rattle.test_support.specs.Refusing.{refusing_language};

use acp_run::session::shell::Shell;
use acp_run::session::tokens::number_of_token;
use ark_groups::ff::{Fp, M257};
use ark_merkle::{Config, IdentityDigestConverter};
use ark_trees::toy::{RefusingPairHash, Toy, ToyLeafHash};
use std::alloc::{AllocError, Global};

/// As `toy`, but its pair hash refuses where the second number is 0.
pub struct Refusing;

impl Config for Refusing {
    type Leaf = u64;

    type LeafDigest = Fp<M257>;

    type LeafInnerDigestConverter = IdentityDigestConverter<Fp<M257>>;

    type InnerDigest = Fp<M257>;

    type LeafHash = ToyLeafHash;

    type TwoToOneHash = RefusingPairHash;
}

impl Shell for Refusing {
    ghost language = { λ _ _. refusing_language };

    fn read_leaf(alloc: Global, token: &[u8]) -> Result<Option<u64>, AllocError> {
        number_of_token(alloc, token)
    }

    fn read_digest(alloc: Global, token: &[u8]) -> Result<Option<Fp<M257>>, AllocError> {
        Toy::read_digest(alloc, token)
    }

    fn read_bytes(alloc: Global, token: &[u8]) -> Result<Option<Vec<u8>>, AllocError> {
        Toy::read_bytes(alloc, token)
    }

    fn show_root(root: &Fp<M257>, reply: &mut Vec<u8>) -> Result<(), AllocError> {
        Toy::show_root(root, reply)
    }

    ghost language_is = { λ p q. refl };
}
