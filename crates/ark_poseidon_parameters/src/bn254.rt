//! Ready parameters over `Bn254Fr`.

ghost use Rattle.std.specs.Prelude.{◌≡◌, ◌↔◌, ◌≤◌, IsSome, IfSome, IfOk, IfErr};
ghost use Rattle.ark_poseidon_parameters.specs.Ready.{AreReady, bn254_fr_rounds};

mod tables;

use crate::rows::parameters;
use ark_base::error::Error;
use ark_sponge::poseidon::PoseidonConfig;
use ark_wide_fields::Bn254Fr;
use std::alloc::Global;

/// Returns parameters over the scalar field of BN254 for a rate of 2 to 8; `None` for any other.
///
/// The only error is `OutOfMemory`.
pub fn bn254_fr(alloc: Global, rate: usize) -> Result<Option<PoseidonConfig<Bn254Fr>>, Error>
    ensures rates { IfOk result (λ found. IsSome found ↔ ((2 ≤ rate) × (rate ≤ 8))) }
    ensures ready { IfOk result (λ found. IfSome found (AreReady rate (bn254_fr_rounds rate) 5)) }
    ensures refused { IfErr result (λ error. error ≡ Error.OutOfMemory) }
{
    let found = match rate {
        2 => parameters(alloc, tables::RATE_2, 2, 57, 5)?,
        3 => parameters(alloc, tables::RATE_3, 3, 56, 5)?,
        4 => parameters(alloc, tables::RATE_4, 4, 60, 5)?,
        5 => parameters(alloc, tables::RATE_5, 5, 60, 5)?,
        6 => parameters(alloc, tables::RATE_6, 6, 63, 5)?,
        7 => parameters(alloc, tables::RATE_7, 7, 64, 5)?,
        8 => parameters(alloc, tables::RATE_8, 8, 63, 5)?,
        _ => return Ok(None),
    };
    Ok(Some(found))
}
