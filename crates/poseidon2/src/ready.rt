//! Parameters whose constants are drawn.

ghost use Rattle.std.specs.Prelude.{◌≡◌, ◌%◌, ◌∷◌, [], map, Ok};
ghost use Rattle.ark_base.specs.Outcome.{AnswersBy};
ghost use Rattle.poseidon2.specs.Ready.{drawn_outcome, bn254_parameters};

use crate::config::Poseidon2Config;
use ark_base::error::Error;
use ark_groups::ff::Field;
use ark_wide_fields::Bn254Fr;
use poseidon_grain::{Poseidon2Constants, poseidon2_constants};
use std::alloc::Global;

/// Returns parameters of an exponent and a `diagonal`, as long as a state, with the constants that the Grain LFSR gives for
/// its width and these counts of rounds: half of the full rounds, rounded down, stand before the partial ones.
///
/// Errors: `ParameterShape` for counts that `poseidon2_constants` refuses and for a width that `Poseidon2Config::new` refuses;
/// `OutOfMemory`.
pub fn poseidon2_parameters<F: Field>(
    alloc: Global,
    alpha: u64,
    full_rounds: usize,
    partial_rounds: usize,
    diagonal: Vec<F>,
) -> Result<Poseidon2Config<F>, Error>
    ensures { AnswersBy (λ c. c) (drawn_outcome F.MODULUS F.MODULUS_BIT_SIZE alpha full_rounds
        partial_rounds (map F.value diagonal.items)) result }
{
    let width = diagonal.len();
    let made = poseidon2_constants::<F>(alloc, width, full_rounds, partial_rounds)?;
    let Poseidon2Constants {
        first,
        partial,
        last,
    } = made;
    Poseidon2Config::new(alpha, first, partial, last, diagonal)
}

// Returns the diagonal 1, 1, 2.
fn short_diagonal<F: Field>(alloc: Global) -> Result<Vec<F>, Error>
    ensures { AnswersBy (λ list. map F.value list.items) (Ok (1 ∷ 1 ∷ 2 % F.MODULUS ∷ [])) result }
{
    let mut list = Vec::with_capacity(alloc, 3)?;
    list.push(F::one())?;
    list.push(F::one())?;
    list.push(F::from_u64(2))?;
    Ok(list)
}

/// Returns the parameters of the authors' code over the scalar field of BN254 for a state of three elements: fifth powers, 8
/// full rounds and 56 partial ones, and the internal matrix whose diagonal is 2, 2, 3. The only error is `OutOfMemory`.
pub fn bn254_poseidon2(alloc: Global) -> Result<Poseidon2Config<Bn254Fr>, Error>
    ensures { AnswersBy (λ c. c) (Ok (bn254_parameters ⟦<Bn254Fr as Field>⟧.MODULUS
        ⟦<Bn254Fr as Field>⟧.MODULUS_BIT_SIZE)) result }
{
    let diagonal = short_diagonal(alloc)?;
    poseidon2_parameters(alloc, 5, 8, 56, diagonal)
}
