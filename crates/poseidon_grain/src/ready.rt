//! Parameters whose counts of rounds stand fixed.

ghost use Rattle.std.specs.Prelude.{◌≡◌, ◌<◌, ◌≤◌, ◌+◌, ◌⊎◌, true, false, IfOk, IfErr, IfSome, Ok, Err};
ghost use Rattle.ark_base.specs.declared.error.Error.TheVariants.{IncorrectInputLength};
ghost use Rattle.poseidon_grain.specs.Constants.{instance_of, counts_fit, AreParameters, IsMatrixFault};
ghost use Rattle.poseidon_grain.specs.Defaults.{circom_rounds};

use crate::parameters::poseidon_parameters;
use ark_base::error::{Error, Refusal};
use ark_groups::ff::Field;
use ark_sponge::poseidon::PoseidonConfig;
use ark_wide_fields::{Bn254Fr, InvertibleField};
use std::alloc::Global;

// Parameters with eight full rounds over the first matrix, for which a matrix that is refused is an error.
fn of_rounds<F: InvertibleField>(
    alloc: Global,
    rate: usize,
    capacity: usize,
    alpha: u64,
    partial_rounds: usize,
) -> Result<PoseidonConfig<F>, Error>
    ensures made { IfOk result (λ c.
        AreParameters (instance_of F.MODULUS F.MODULUS_BIT_SIZE (rate + capacity) 8 partial_rounds
        0) rate capacity alpha c) }
    ensures refused { 9 ≤ F.MODULUS_BIT_SIZE → 1 ≤ rate
        → counts_fit (rate + capacity) 8 partial_rounds 0 ≡ true
        → IfErr result (IsMatrixFault (instance_of F.MODULUS F.MODULUS_BIT_SIZE (rate + capacity)
        8 partial_rounds 0)) }
{
    match poseidon_parameters::<F>(alloc, rate, capacity, alpha, 8, partial_rounds, 0)? {
        Some(parameters) => Ok(parameters),
        None => Err(Error::GenericError(Refusal::ParameterShape)),
    }
}

/// Returns the partial rounds of circomlib's hash, by the count of its inputs.
pub fn circom_rounds(inputs: usize) -> usize
    requires some { 1 ≤ inputs }
    requires few { inputs ≤ 16 }
    ensures rounds { result ≡ circom_rounds inputs }
    ensures few { result ≤ 70 }
{
    match inputs {
        1 => 56,
        2 => 57,
        3 => 56,
        4 => 60,
        5 => 60,
        6 => 63,
        7 => 64,
        8 => 63,
        9 => 60,
        10 => 66,
        11 => 60,
        12 => 65,
        13 => 70,
        14 => 60,
        15 => 64,
        _ => 68,
    }
}

/// Returns the parameters of circomlib's hash of 1 to 16 inputs over the scalar field of BN254: a rate of as many
/// elements, a capacity of one, fifth powers, eight full rounds.
///
/// Errors: `IncorrectInputLength` with any other count of inputs; `ParameterShape` for a matrix that is refused, which
/// none of these is; `OutOfMemory`.
pub fn circom_parameters(alloc: Global, inputs: usize) -> Result<PoseidonConfig<Bn254Fr>, Error>
    ensures made { IfOk result (λ c.
        AreParameters (instance_of ⟦<Bn254Fr as Field>⟧.MODULUS
        ⟦<Bn254Fr as Field>⟧.MODULUS_BIT_SIZE (inputs + 1) 8 (circom_rounds inputs) 0)
        inputs 1 5 c) }
    ensures none { (inputs < 1) ⊎ (16 < inputs) → result ≡ Err (IncorrectInputLength inputs) }
    ensures refused { 1 ≤ inputs → inputs ≤ 16 → IfErr result (IsMatrixFault
        (instance_of ⟦<Bn254Fr as Field>⟧.MODULUS ⟦<Bn254Fr as Field>⟧.MODULUS_BIT_SIZE
        (inputs + 1) 8 (circom_rounds inputs) 0)) }
{
    if inputs < 1 || inputs > 16 {
        return Err(Error::IncorrectInputLength(inputs));
    }
    of_rounds::<Bn254Fr>(alloc, inputs, 1, 5, circom_rounds(inputs))
}

/// Returns halo2's parameters `P128Pow5T3`, for `PallasFp` and `VestaFp`: a rate of two elements, a capacity of one, fifth
/// powers, eight full rounds and 56 partial ones, by the Grain LFSR over the field's modulus.
///
/// Errors: `FieldTooSmall` for a modulus of fewer than nine bits; `ParameterShape` for a matrix that is refused;
/// `OutOfMemory`.
pub fn pasta_parameters<F: InvertibleField>(alloc: Global) -> Result<PoseidonConfig<F>, Error>
    ensures made { IfOk result (λ c.
        AreParameters (instance_of F.MODULUS F.MODULUS_BIT_SIZE 3 8 56 0) 2 1 5 c) }
    ensures refused { 9 ≤ F.MODULUS_BIT_SIZE → IfErr result
        (IsMatrixFault (instance_of F.MODULUS F.MODULUS_BIT_SIZE 3 8 56 0)) }
{
    of_rounds::<F>(alloc, 2, 1, 5, 56)
}
