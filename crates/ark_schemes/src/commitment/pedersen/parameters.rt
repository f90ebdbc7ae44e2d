//! The generators of a Pedersen commitment.

ghost use Rattle.ark_schemes.specs.PedersenCommitments.{Generators, elements_in};

use ark_base::error::Error;
use ark_base::serialize::Duplicate;
use ark_groups::ec::AdditiveGroup;
use std::alloc::Global;

/// The elements of a commitment: one for each bit of the randomness, and for the input a list for each window, with an element
/// for each of its bits.
#[derive(Drop)]
pub struct Parameters<C: AdditiveGroup> {
    pub randomness_generator: Vec<C>,
    pub generators: Vec<Vec<C>>,
}

impl<C: AdditiveGroup> Duplicate for Parameters<C> {
    ghost Data = { Generators C };

    ghost seen = { elements_in };

    fn duplicate(&self, _alloc: Global) -> Result<Parameters<C>, Error> {
        Ok(Parameters {
            randomness_generator: self.randomness_generator.clone()?,
            generators: self.generators.clone()?,
        })
    }
}
