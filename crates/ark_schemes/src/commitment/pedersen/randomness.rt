//! The randomness of a Pedersen commitment.

use ark_base::error::Error;
use ark_base::serialize::{Canonical, CanonicalDeserialize, CanonicalItem, CanonicalSerialize};
use ark_groups::ec::AdditiveGroup;
use ark_groups::ff::UniformRand;
use rand::Rng;
use std::alloc::Global;

/// How often the randomness element is added.
#[derive_where(Clone, PartialEq, Eq, Debug, Default)]
#[derive(Drop)]
pub struct Randomness<C: AdditiveGroup>(pub C::ScalarField);

impl<C: AdditiveGroup> UniformRand for Randomness<C> {
    ghost draw = { λ stream.
        (record { 0 = (C.ScalarField.draw stream).0 }, (C.ScalarField.draw stream).1) };

    fn rand<R: Rng>(rng: &mut R) -> Randomness<C> {
        Randomness(C::ScalarField::rand(rng))
    }
}

impl<C: AdditiveGroup> Canonical for Randomness<C> {
    ghost Value = { ⟦<C::ScalarField as Canonical>⟧.Value };

    ghost view = { λ randomness. ⟦<C::ScalarField as Canonical>⟧.view randomness.0 };

    ghost has_spelling = { ⟦<C::ScalarField as Canonical>⟧.has_spelling };

    ghost spelling = { ⟦<C::ScalarField as Canonical>⟧.spelling };

    ghost reads = { ⟦<C::ScalarField as Canonical>⟧.reads };

    ghost laws = { ⟦<C::ScalarField as Canonical>⟧.laws };
}

impl<C: AdditiveGroup> CanonicalSerialize for Randomness<C> {
    fn serialize(&self, dest: &mut Vec<u8>) -> Result<(), Error> {
        self.0.serialize(dest)
    }
}

impl<C: AdditiveGroup> CanonicalDeserialize for Randomness<C> {
    fn read(alloc: Global, bytes: &[u8]) -> Result<(Randomness<C>, usize), Error> {
        let (scalar, used) = C::ScalarField::read(alloc, bytes)?;
        Ok((Randomness(scalar), used))
    }
}

impl<C: AdditiveGroup> CanonicalItem for Randomness<C> {
    ghost LEAST = { ⟦<C::ScalarField as CanonicalItem>⟧.LEAST };

    const LEAST: usize = <C::ScalarField as CanonicalItem>::LEAST;

    ghost some = { C.ScalarField.CanonicalItem.some };

    ghost at_least = { C.ScalarField.CanonicalItem.at_least };
}
