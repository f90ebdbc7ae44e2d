//! Ready parameters over `Bls12_381Fr`.

ghost use Rattle.std.specs.Prelude.{◌≡◌, ◌↔◌, ◌≤◌, IsSome, IfSome, IfOk, IfErr};
ghost use Rattle.ark_poseidon_parameters.specs.Ready.{AreReady, bls12_381_fr_rounds, bls12_381_fr_alpha};

mod tables;

use crate::rows::parameters;
use ark_base::error::Error;
use ark_sponge::poseidon::PoseidonConfig;
use ark_wide_fields::Bls12_381Fr;
use std::alloc::Global;

/// Returns parameters over the scalar field of BLS12-381 for a rate of 2 to 8; `None` for any other.
///
/// The only error is `OutOfMemory`.
pub fn bls12_381_fr(
    alloc: Global,
    rate: usize,
) -> Result<Option<PoseidonConfig<Bls12_381Fr>>, Error>
    ensures rates { IfOk result (λ found. IsSome found ↔ ((2 ≤ rate) × (rate ≤ 8))) }
    ensures ready { IfOk result
        (λ found. IfSome found (AreReady rate (bls12_381_fr_rounds rate)
        (bls12_381_fr_alpha rate))) }
    ensures refused { IfErr result (λ error. error ≡ Error.OutOfMemory) }
{
    let found = match rate {
        2 => parameters(alloc, tables::RATE_2, 2, 31, 17)?,
        3 => parameters(alloc, tables::RATE_3, 3, 56, 5)?,
        4 => parameters(alloc, tables::RATE_4, 4, 56, 5)?,
        5 => parameters(alloc, tables::RATE_5, 5, 57, 5)?,
        6 => parameters(alloc, tables::RATE_6, 6, 57, 5)?,
        7 => parameters(alloc, tables::RATE_7, 7, 57, 5)?,
        8 => parameters(alloc, tables::RATE_8, 8, 57, 5)?,
        _ => return Ok(None),
    };
    Ok(Some(found))
}
