//! Constants, matrices and parameters of a field.

ghost use Rattle.std.specs.Prelude.{◌≡◌, ◌+◌, true, false, map, IfOk, IfErr, IfSome, IsNone, Err};
ghost use Rattle.poseidon_grain.specs.Constants.{instance_of, counts_fit, AreGenerated, AreParameters, IsMatrixRefused, IsParameterFault};

use crate::draws::{pass_over, remainders, rows_of_constants};
use crate::matrix::cauchy_matrix;
use crate::register::seeded;
use ark_base::error::{Error, Refusal};
use ark_sponge::poseidon::PoseidonConfig;
use ark_wide_fields::InvertibleField;
use std::alloc::Global;

/// Returns whether the generator takes these counts.
pub fn counts_fit(width: usize, full: usize, partial: usize, passed_over: usize) -> bool
    ensures { result ≡ counts_fit width full partial passed_over }
{
    1 < width && width < 4096 && 0 < full && full < 1024 && partial < 1024 && passed_over < 65536
}

// As `find_poseidon_ark_and_mds`, by the width.
fn constants_and_matrix<F: InvertibleField>(
    alloc: Global,
    width: usize,
    full_rounds: usize,
    partial_rounds: usize,
    skip_matrices: usize,
) -> Result<Option<(Vec<Vec<F>>, Vec<Vec<F>>)>, Error>
    ensures generated { IfOk result (λ found. IfSome found (λ made.
        AreGenerated (instance_of F.MODULUS F.MODULUS_BIT_SIZE width full_rounds
        partial_rounds skip_matrices)
        (map (λ row. map F.value row.items) made.0.items)
        (map (λ row. map F.value row.items) made.1.items))) }
    ensures none { IfOk result (λ found. IsNone found
        → IsMatrixRefused (instance_of F.MODULUS F.MODULUS_BIT_SIZE width full_rounds
        partial_rounds skip_matrices)) }
    ensures shape { counts_fit width full_rounds partial_rounds skip_matrices ≡ false
        → result ≡ Err (Error.GenericError Refusal.ParameterShape) }
    ensures refused { counts_fit width full_rounds partial_rounds skip_matrices ≡ true
        → IfErr result (λ error. error ≡ Error.OutOfMemory) }
{
    if !counts_fit(width, full_rounds, partial_rounds, skip_matrices) {
        return Err(Error::GenericError(Refusal::ParameterShape));
    }
    let mut register = seeded(
        F::MODULUS_BIT_SIZE,
        width as u64,
        full_rounds as u64,
        partial_rounds as u64,
    );
    let ark = rows_of_constants::<F>(alloc, &mut register, full_rounds + partial_rounds, width)?;
    pass_over::<F>(&mut register, 2 * width * skip_matrices);
    let xs = remainders::<F>(alloc, &mut register, width)?;
    let ys = remainders::<F>(alloc, &mut register, width)?;
    match cauchy_matrix(alloc, &xs, &ys)? {
        Some(mds) => Ok(Some((ark, mds))),
        None => Ok(None),
    }
}

/// Returns the constants, a row for each round, and the matrix, row by row, of a state of `rate` elements and one more,
/// as the Grain LFSR gives them. Of the matrices that it gives the first `skip_matrices` are passed over. `None` where
/// the next is refused: a number of its lists stands twice, or two have the sum 0. It looks for no subspace trails:
/// whether a matrix is safe from them is for the caller to know.
///
/// Errors: `ParameterShape` for a rate of 0 or of 4095 or more, no full round, 1024 rounds of a kind or more, or 65536
/// matrices or more to be passed over; `OutOfMemory`.
pub fn find_poseidon_ark_and_mds<F: InvertibleField>(
    alloc: Global,
    rate: usize,
    full_rounds: usize,
    partial_rounds: usize,
    skip_matrices: usize,
) -> Result<Option<(Vec<Vec<F>>, Vec<Vec<F>>)>, Error>
    ensures generated { IfOk result (λ found. IfSome found (λ made.
        AreGenerated (instance_of F.MODULUS F.MODULUS_BIT_SIZE (rate + 1) full_rounds
        partial_rounds skip_matrices)
        (map (λ row. map F.value row.items) made.0.items)
        (map (λ row. map F.value row.items) made.1.items))) }
    ensures none { IfOk result (λ found. IsNone found
        → IsMatrixRefused (instance_of F.MODULUS F.MODULUS_BIT_SIZE (rate + 1) full_rounds
        partial_rounds skip_matrices)) }
    ensures shape { counts_fit (rate + 1) full_rounds partial_rounds skip_matrices ≡ false
        → result ≡ Err (Error.GenericError Refusal.ParameterShape) }
    ensures refused { counts_fit (rate + 1) full_rounds partial_rounds skip_matrices ≡ true
        → IfErr result (λ error. error ≡ Error.OutOfMemory) }
{
    let Some(width) = rate.checked_add(1) else {
        return Err(Error::GenericError(Refusal::ParameterShape));
    };
    constants_and_matrix(alloc, width, full_rounds, partial_rounds, skip_matrices)
}

/// Returns parameters of a rate and a capacity over the constants and the matrix of a state of that many elements, with
/// the exponent `alpha` of the S-box. `None` as of `find_poseidon_ark_and_mds`.
///
/// Errors: those of `find_poseidon_ark_and_mds`; `ZeroRate`; `FieldTooSmall` over fewer than nine bits.
pub fn poseidon_parameters<F: InvertibleField>(
    alloc: Global,
    rate: usize,
    capacity: usize,
    alpha: u64,
    full_rounds: usize,
    partial_rounds: usize,
    skip_matrices: usize,
) -> Result<Option<PoseidonConfig<F>>, Error>
    ensures generated { IfOk result (λ found. IfSome found (λ c.
        AreParameters (instance_of F.MODULUS F.MODULUS_BIT_SIZE (rate + capacity) full_rounds
        partial_rounds skip_matrices) rate capacity alpha c)) }
    ensures none { IfOk result (λ found. IsNone found
        → IsMatrixRefused (instance_of F.MODULUS F.MODULUS_BIT_SIZE (rate + capacity) full_rounds
        partial_rounds skip_matrices)) }
    ensures shape { counts_fit (rate + capacity) full_rounds partial_rounds skip_matrices ≡ false
        → result ≡ Err (Error.GenericError Refusal.ParameterShape) }
    ensures refused { counts_fit (rate + capacity) full_rounds partial_rounds skip_matrices ≡ true
        → IfErr result (IsParameterFault F.MODULUS_BIT_SIZE rate) }
{
    let Some(width) = rate.checked_add(capacity) else {
        return Err(Error::GenericError(Refusal::ParameterShape));
    };
    let found = constants_and_matrix::<F>(
        alloc,
        width,
        full_rounds,
        partial_rounds,
        skip_matrices,
    )?;
    match found {
        Some((ark, mds)) => {
            Ok(Some(PoseidonConfig::new(
                full_rounds,
                partial_rounds,
                alpha,
                mds,
                ark,
                rate,
                capacity,
            )?))
        }
        None => Ok(None),
    }
}
