//! Sealed bids by Pedersen commitments over Jubjub, whose parameters nobody has to be trusted for.

use ark_crypto_primitives::Error;
use ark_crypto_primitives::commitment::CommitmentScheme;
use ark_crypto_primitives::commitment::pedersen::{
    Commitment, Parameters, Randomness, pedersen_commitment_from_label,
};
use ark_crypto_primitives::crh::pedersen::Windows4x64;
use ark_crypto_primitives::ec::jubjub::Jubjub;
use std::alloc::Global;

/// Returns the parameters: those of a label, which all who bid take.
pub fn parameters(alloc: Global) -> Result<Parameters<Jubjub>, Error> {
    pedersen_commitment_from_label::<Jubjub, Windows4x64>(alloc, b"Sealbids")
}

/// Returns the commitment to a bid of at most 32 bytes. The randomness is a scalar that nobody can guess, and serves once.
pub fn seal(
    alloc: Global,
    parameters: &Parameters<Jubjub>,
    bid: &[u8],
    randomness: &Randomness<Jubjub>,
) -> Result<Jubjub, Error> {
    Commitment::<Jubjub, Windows4x64>::commit(alloc, parameters, bid, randomness)
}

/// Returns whether a bid and its randomness open a commitment.
pub fn unseals(
    alloc: Global,
    parameters: &Parameters<Jubjub>,
    commitment: &Jubjub,
    bid: &[u8],
    randomness: &Randomness<Jubjub>,
) -> Result<bool, Error> {
    Ok(seal(alloc, parameters, bid, randomness)? == *commitment)
}
