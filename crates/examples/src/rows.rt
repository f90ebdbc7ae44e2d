//! Rows of elements as provers over small fields commit to them: each row's hash and the hashes above, by Plonky3's Poseidon2.

use ark_crypto_primitives::Error;
use ark_crypto_primitives::crh::poseidon2::{
    CirculantMatrix, Poseidon2Config, koala_bear_poseidon2,
};
use ark_crypto_primitives::ff::{Fp, KoalaBear};
use ark_crypto_primitives::sponge::poseidon::parameters::Power;
use std::alloc::Global;

/// Digests are eight elements.
pub const DIGEST: usize = 8;

/// Returns the parameters for states of sixteen elements. The only error is `OutOfMemory`.
pub fn parameters(alloc: Global) -> Result<Poseidon2Config<Fp<KoalaBear>>, Error> {
    koala_bear_poseidon2(alloc, 16)
}

/// Returns the digest of a row. All rows have one length. The only error is `OutOfMemory`.
pub fn digest_of_row(
    alloc: Global,
    parameters: &Poseidon2Config<Fp<KoalaBear>>,
    row: &[Fp<KoalaBear>],
) -> Result<Vec<Fp<KoalaBear>>, Error> {
    parameters.hash_padding_free::<Power, CirculantMatrix>(alloc, DIGEST, DIGEST, row)
}

/// Returns the digest above two digests.
///
/// Errors: `ParameterShape` for digests of two lengths, or of more than eight elements; `OutOfMemory`.
pub fn digest_above(
    alloc: Global,
    parameters: &Poseidon2Config<Fp<KoalaBear>>,
    left: &[Fp<KoalaBear>],
    right: &[Fp<KoalaBear>],
) -> Result<Vec<Fp<KoalaBear>>, Error> {
    parameters.compress_digests::<Power, CirculantMatrix>(alloc, left, right)
}
