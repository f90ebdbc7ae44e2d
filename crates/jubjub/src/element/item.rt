//! The canonical bytes of elements.

ghost use Rattle.std.proofs.Common.{lit<};
ghost use Rattle.jubjub.specs.Edwards.{Coordinates};
ghost use Rattle.jubjub.specs.Jubjub.{IsInSubgroup};
ghost use Rattle.jubjub.specs.Elements.{coordinates};
ghost use Rattle.jubjub.specs.Spelling.{spelling, jubjub_element_at};
ghost use Rattle.jubjub.specs.Laws.Spelling.{element_laws, element_long};

use crate::element::Jubjub;
use ark_base::error::{Error, SerializationError};
use ark_base::serialize::{Canonical, CanonicalDeserialize, CanonicalItem, CanonicalSerialize};
use std::alloc::Global;

impl Canonical for Jubjub {
    ghost Value = { Coordinates };

    ghost view = { coordinates };

    ghost has_spelling = { IsInSubgroup };

    ghost spelling = { spelling };

    ghost reads = { jubjub_element_at };

    ghost laws = { element_laws };
}

impl CanonicalSerialize for Jubjub {
    fn serialize(&self, dest: &mut Vec<u8>) -> Result<(), Error> {
        dest.extend_from_slice(&self.to_bytes())?;
        Ok(())
    }
}

impl CanonicalDeserialize for Jubjub {
    /// Errors: `Truncated`, then `InvalidData` of 64 bytes that are no element's.
    fn read(_alloc: Global, bytes: &[u8]) -> Result<(Jubjub, usize), Error> {
        if bytes.len() < 64 {
            return Err(Error::SerializationError(SerializationError::Truncated));
        }
        match Jubjub::from_bytes(&bytes[..64]) {
            Some(element) => Ok((element, 64)),
            None => Err(Error::SerializationError(SerializationError::InvalidData)),
        }
    }
}

impl CanonicalItem for Jubjub {
    ghost LEAST = { 64 };

    const LEAST: usize = 64;

    ghost some = { lit< tt };

    ghost at_least = { element_long };
}
