//! Digests for Schnorr's challenges: one that is no scalar, and one that refuses.

ghost use Rattle.std.specs.Prelude.{Ok, replicate};
ghost use Rattle.test_support.specs.RefusedDigest.{refused};

use ark_base::error::{Error, Refusal};
use ark_groups::digest::ByteDigest;
use std::alloc::Global;

/// A digest of 255 alone, which is no scalar below 2^61 - 1.
pub struct Ones;

impl ByteDigest for Ones {
    ghost meaning = { λ _. Ok (replicate 32 255) };

    fn digest(alloc: Global, _input: &[u8]) -> Result<Vec<u8>, Error> {
        Ok(vec![in alloc; 255; 32]?)
    }

    ghost decided = { λ _. tt };
}

/// A digest that refuses.
pub struct Refuses;

impl ByteDigest for Refuses {
    ghost meaning = { refused };

    fn digest(_alloc: Global, _input: &[u8]) -> Result<Vec<u8>, Error> {
        Err(Error::GenericError(Refusal::Custom(9)))
    }

    ghost decided = { λ _ same. cc };
}
