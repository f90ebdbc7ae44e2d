//! The hash of two elements of the scalar field of BLS12-381, by Poseidon with ready parameters.

use ark_crypto_primitives::Error;
use ark_crypto_primitives::crh::TwoToOneCRHScheme;
use ark_crypto_primitives::crh::poseidon::TwoToOneCRH;
use ark_crypto_primitives::ff::Bls12_381Fr;
use ark_crypto_primitives::sponge::poseidon::parameters::{Power, bls12_381_fr};
use std::alloc::Global;

/// Returns the hash of two elements. Parameters of rate 2 are ready, so it is never `None`. The only error is `OutOfMemory`.
pub fn poseidon_of_two(
    alloc: Global,
    left: Bls12_381Fr,
    right: Bls12_381Fr,
) -> Result<Option<Bls12_381Fr>, Error> {
    let Some(parameters) = bls12_381_fr(alloc, 2)? else {
        return Ok(None);
    };
    let hash = TwoToOneCRH::<Bls12_381Fr, Power>::compress(alloc, &parameters, &left, &right)?;
    Ok(Some(hash))
}
