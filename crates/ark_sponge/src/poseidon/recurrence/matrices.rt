//! Combinations and products of rows, and whether rows are the same.

ghost use Rattle.std.specs.Prelude.{◌≡◌, ℕ, ◌+◌, ◌*◌, ◌%◌, ◌<◌, ◌≤◌, List, [], ◌∷◌, ◌++◌, true, map, length, drop, replicate, All, vec_len, IfOk};
ghost use Rattle.ark_groups.specs.Field.{dot_product};
ghost use Rattle.ark_sponge.specs.Permutation.{sums, matrix_product};
ghost use Rattle.ark_sponge.specs.Recurrence.{IsCombination, IsProduct};

use crate::poseidon::permutation::add_row;
use ark_groups::ff::Field;
use std::alloc::{AllocError, Global};

// The products of the elements of a row with a factor.
fn scale<F: Field>(row: &[F], factor: F, out: &mut [F])
    requires { length out.old ≡ length row.now }
    ensures value { map F.value out.new
        ≡ map (λ x. (x * F.value factor) % F.MODULUS) (map F.value row.now) }
    ensures length { length out.new ≡ length out.old }
{
    for (i, x) in row.iter().enumerate() {
        out[i] = x.mul(factor);
    }
}

// Adds the rows times the factors to a sum. `scaled` is written over.
fn add_combination<F: Field>(factors: &[F], rows: &[Vec<F>], scaled: &mut [F], sum: &mut [F])
    requires factors { length factors.now ≡ length rows.now }
    requires rows { All (λ row. vec_len row ≡ length sum.old) rows.now }
    requires scaled { length scaled.old ≡ length sum.old }
    ensures value { (xs : List ℕ) → dot_product (map F.value sum.new) xs % F.MODULUS
        ≡ (dot_product (map F.value sum.old) xs + dot_product (map F.value factors.now)
        (matrix_product F.MODULUS (map (λ row. map F.value row.items) rows.now) xs)) % F.MODULUS }
    ensures length { length sum.new ≡ length sum.old }
{
    for (i, factor) in factors.iter().enumerate() {
        scale(&rows[i], *factor, scaled);
        add_row(sum, scaled);
    }
}

/// Returns the sum of the rows times the factors.
pub fn combination<F: Field>(
    alloc: Global,
    factors: &[F],
    rows: &[Vec<F>],
    width: usize,
) -> Result<Vec<F>, AllocError>
    requires factors { length factors.now ≡ length rows.now }
    requires rows { All (λ row. vec_len row ≡ width) rows.now }
    ensures value { IfOk result (λ sum. IsCombination F.MODULUS (map F.value factors.now)
        (map (λ row. map F.value row.items) rows.now) (map F.value sum.items)) }
    ensures length { IfOk result (λ sum. vec_len sum ≡ width) }
{
    let mut scaled = vec![in alloc; F::zero(); width]?;
    let mut sum = vec![in alloc; F::zero(); width]?;
    add_combination(factors, rows, &mut scaled, &mut sum);
    Ok(sum)
}

/// Returns the product of two matrices, whose rows have `width` elements.
pub fn product<F: Field>(
    alloc: Global,
    first: &[Vec<F>],
    second: &[Vec<F>],
    width: usize,
) -> Result<Vec<Vec<F>>, AllocError>
    requires first { All (λ row. vec_len row ≡ length second.now) first.now }
    requires second { All (λ row. vec_len row ≡ width) second.now }
    ensures { IfOk result (λ rows. IsProduct F.MODULUS
        (map (λ row. map F.value row.items) first.now)
        (map (λ row. map F.value row.items) second.now)
        (map (λ row. map F.value row.items) rows.items)) }
{
    let mut rows = Vec::new(alloc);
    for row in first {
        rows.push(combination(alloc, row, second, width)?)?;
    }
    Ok(rows)
}

/// Returns whether two rows are the same.
pub fn is_same<F: Field>(first: &[F], second: &[F]) -> bool
    ensures { result ≡ true → map F.value first.now ≡ map F.value second.now }
{
    if first.len() != second.len() {
        return false;
    }
    for (i, x) in first.iter().enumerate() {
        if *x != second[i] {
            return false;
        }
    }
    true
}

/// Returns whether two matrices are the same.
pub fn are_same<F: Field>(first: &[Vec<F>], second: &[Vec<F>]) -> bool
    ensures { result ≡ true → map (λ row. map F.value row.items) first.now
        ≡ map (λ row. map F.value row.items) second.now }
{
    if first.len() != second.len() {
        return false;
    }
    for (i, row) in first.iter().enumerate() {
        if !is_same(row, &second[i]) {
            return false;
        }
    }
    true
}
