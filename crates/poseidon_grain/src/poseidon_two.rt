//! The constants of Poseidon2.

ghost use Rattle.std.specs.Prelude.{◌≡◌, true, false, map, IfOk, IfErr, Err};
ghost use Rattle.ark_base.specs.declared.error.Error.TheVariants.{GenericError};
ghost use Rattle.ark_base.specs.declared.error.Refusal.TheVariants.{ParameterShape};
ghost use Rattle.poseidon_grain.specs.Constants.{counts_fit};
ghost use Rattle.poseidon_grain.specs.Poseidon2.{poseidon2_drawn};

use crate::draws::{constants, rows_of_constants};
use crate::parameters::counts_fit;
use crate::register::seeded;
use ark_base::error::{Error, Refusal};
use ark_groups::ff::Field;
use std::alloc::Global;

/// The constants of the rounds of a permutation of Poseidon2.
#[derive(Debug, Drop)]
pub struct Poseidon2Constants<F> {
    /// A row for each full round before the partial ones.
    pub first: Vec<Vec<F>>,
    /// A constant for each partial round.
    pub partial: Vec<F>,
    /// A row for each full round behind the partial ones.
    pub last: Vec<Vec<F>>,
}

/// Returns the constants of Poseidon2 for a state of `width` elements, as the Grain LFSR gives them: half of the full
/// rounds, rounded down, stand before the partial ones.
///
/// Errors: `ParameterShape` for a width below 2 or of 4096 or more, no full round, or 1024 rounds of a kind or more;
/// `OutOfMemory`.
pub fn poseidon2_constants<F: Field>(
    alloc: Global,
    width: usize,
    full_rounds: usize,
    partial_rounds: usize,
) -> Result<Poseidon2Constants<F>, Error>
    ensures drawn { IfOk result (λ made. record {
      first = map (λ row. map F.value row.items) made.first.items;
      partial = map F.value made.partial.items;
      last = map (λ row. map F.value row.items) made.last.items;
    } ≡ poseidon2_drawn F.MODULUS F.MODULUS_BIT_SIZE width full_rounds partial_rounds) }
    ensures shape { counts_fit width full_rounds partial_rounds 0 ≡ false
        → result ≡ Err (GenericError ParameterShape) }
    ensures refused { counts_fit width full_rounds partial_rounds 0 ≡ true
        → IfErr result (λ error. error ≡ Error.OutOfMemory) }
{
    if !counts_fit(width, full_rounds, partial_rounds, 0) {
        return Err(Error::GenericError(Refusal::ParameterShape));
    }
    let half = full_rounds / 2;
    let mut register = seeded(
        F::MODULUS_BIT_SIZE,
        width as u64,
        full_rounds as u64,
        partial_rounds as u64,
    );
    let first = rows_of_constants::<F>(alloc, &mut register, half, width)?;
    let partial = constants::<F>(alloc, &mut register, partial_rounds)?;
    let last = rows_of_constants::<F>(alloc, &mut register, full_rounds - half, width)?;
    Ok(Poseidon2Constants {
        first,
        partial,
        last,
    })
}
