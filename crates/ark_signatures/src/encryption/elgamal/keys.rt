//! The canonical bytes of a secret key: those of its scalar.

use crate::encryption::elgamal::SecretKey;
use ark_base::error::Error;
use ark_base::serialize::{Canonical, CanonicalDeserialize, CanonicalSerialize};
use ark_groups::ec::AdditiveGroup;
use std::alloc::Global;

impl<C: AdditiveGroup> Canonical for SecretKey<C> {
    ghost Value = { ⟦<C::ScalarField as Canonical>⟧.Value };

    ghost view = { λ key. ⟦<C::ScalarField as Canonical>⟧.view key.0 };

    ghost has_spelling = { ⟦<C::ScalarField as Canonical>⟧.has_spelling };

    ghost spelling = { ⟦<C::ScalarField as Canonical>⟧.spelling };

    ghost reads = { ⟦<C::ScalarField as Canonical>⟧.reads };

    ghost laws = { ⟦<C::ScalarField as Canonical>⟧.laws };
}

impl<C: AdditiveGroup> CanonicalSerialize for SecretKey<C> {
    fn serialize(&self, dest: &mut Vec<u8>) -> Result<(), Error> {
        self.0.serialize(dest)
    }
}

impl<C: AdditiveGroup> CanonicalDeserialize for SecretKey<C> {
    fn read(alloc: Global, bytes: &[u8]) -> Result<(SecretKey<C>, usize), Error> {
        let (scalar, used) = C::ScalarField::read(alloc, bytes)?;
        Ok((SecretKey(scalar), used))
    }
}
