//! Code over the bounds `PrimeField` and `CurveGroup`, and a field and a group of one's own under them.

ghost use Rattle.std.specs.Prelude.{◌≤◌};

pub mod number;
pub mod shift;

use crate::bounds::number::Number;
use crate::bounds::shift::Shift;
use ark_crypto_primitives::Error;
use ark_crypto_primitives::crh::CRHScheme;
use ark_crypto_primitives::crh::pedersen::{CRH, Parameters, Window};
use ark_crypto_primitives::ec::{CurveGroup, Residues};
use ark_crypto_primitives::ff::{Fp, M61, PrimeField};
use ark_crypto_primitives::serialize::DigestItem;
use ark_crypto_primitives::sponge::Absorb;
use std::alloc::Global;

/// Two windows of four bits.
pub struct Two;

impl Window for Two {
    ghost use Rattle.std.proofs.Common.{lit<};

    ghost WINDOW_SIZE = { 4 };

    const WINDOW_SIZE: usize = 4;

    ghost NUM_WINDOWS = { 2 };

    const NUM_WINDOWS: usize = 2;

    ghost some = { lit< tt };

    ghost fits = { lit< tt };
}

/// Returns the Pedersen hash of bytes, over any group whose scalars are of one word.
///
/// Errors: `IncorrectInputLength` for more bytes than the windows take, `OutOfMemory`.
pub fn hash_over<C: CurveGroup + DigestItem, W: Window>(
    alloc: Global,
    parameters: &Parameters<C>,
    input: &Vec<u8>,
) -> Result<C, Error> {
    <CRH<C, W> as CRHScheme>::evaluate(alloc, parameters, input)
}

/// Returns what a value is to a sponge over any field of one word.
///
/// Errors: `ForeignField` of an element of another field, `OutOfMemory`.
pub fn elements_of<F: PrimeField + Absorb, A: Absorb>(
    alloc: Global,
    item: &A,
) -> Result<Vec<F>, Error>
    requires { 9 ≤ F.MODULUS_BIT_SIZE }
{
    item.to_sponge_field_elements_as_vec::<F>(alloc)
}

/// The hash over numbers modulo 2^61 - 1.
pub fn plain_hash(
    alloc: Global,
    parameters: &Parameters<Residues<M61>>,
    input: &Vec<u8>,
) -> Result<Residues<M61>, Error> {
    hash_over::<Residues<M61>, Two>(alloc, parameters, input)
}

/// The elements of bytes modulo 2^61 - 1.
pub fn plain_elements(alloc: Global, item: &Vec<u8>) -> Result<Vec<Fp<M61>>, Error> {
    elements_of::<Fp<M61>, Vec<u8>>(alloc, item)
}

/// The hash over a group of one's own.
pub fn own_hash(
    alloc: Global,
    parameters: &Parameters<Shift<M61>>,
    input: &Vec<u8>,
) -> Result<Shift<M61>, Error> {
    hash_over::<Shift<M61>, Two>(alloc, parameters, input)
}

/// Returns the sum of a number of one's own and its square, as one word.
pub fn own_sum(number: Number<M61>) -> u64 {
    with_square(number)
}

/// Returns the sum of an element and its square, as one word.
pub fn with_square<F: PrimeField>(x: F) -> u64 {
    x.add(x.mul(x)).value()
}
