//! Cauchy matrices.

ghost use Rattle.std.specs.Prelude.{◌≡◌, ◌==◌, false, ℕ, ◌%◌, ◌+◌, List, map, length, All, vec_len, IfOk, IfErr, IfSome, IsNone};
ghost use Rattle.std.specs.List.{list_any};
ghost use Rattle.ark_wide_fields.specs.Inverses.{AreInverses};
ghost use Rattle.poseidon_grain.specs.Constants.{sums_with, has_twice, HasZero, IsCauchy, MeetsZero, IsRefused};

use ark_base::error::Error;
use ark_groups::ff::Field;
use ark_wide_fields::{InvertibleField, NoInverses, batch_inverse};
use std::alloc::Global;

// Whether two elements are one number.
fn is_same<F: Field>(x: F, y: F) -> bool
    ensures { result ≡ (F.value x == F.value y) }
{
    x == y
}

// Whether an element is one of a list.
fn is_among<F: Field>(element: F, elements: &[F]) -> bool
    ensures { let values = map F.value elements.now in
        result ≡ list_any (λ y. F.value element == y) values }
{
    let mut rest = elements;
    while let Some((first, behind)) = rest.split_first() {
        if is_same(element, *first) {
            return true;
        }
        rest = behind;
    }
    false
}

// Whether an element stands twice in a list.
fn has_twice<F: Field>(elements: &[F]) -> bool
    ensures { result ≡ has_twice (map F.value elements.now) }
{
    let mut rest = elements;
    while let Some((first, behind)) = rest.split_first() {
        if is_among(*first, behind) {
            return true;
        }
        rest = behind;
    }
    false
}

// Each element of a list added to one.
fn sums_with<F: Field>(alloc: Global, x: F, ys: &[F]) -> Result<Vec<F>, Error>
    ensures made { IfOk result (λ sums.
        map F.value sums.items ≡ sums_with F.MODULUS (F.value x) (map F.value ys.now)) }
    ensures refused { IfErr result (λ error. error ≡ Error.OutOfMemory) }
{
    let mut sums = Vec::with_capacity(alloc, ys.len())?;
    for y in ys {
        sums.push(x.add(*y))?;
    }
    Ok(sums)
}

// The inverses of the sums of an element and those of a list. `None` where a sum is 0.
fn row<F: InvertibleField>(alloc: Global, x: F, ys: &[F]) -> Result<Option<Vec<F>>, Error>
    ensures row { let sums = sums_with F.MODULUS (F.value x) (map F.value ys.now) in
        IfOk result (λ found.
        IfSome found (λ row. AreInverses F.MODULUS sums (map F.value row.items))) }
    ensures zero { let sums = sums_with F.MODULUS (F.value x) (map F.value ys.now) in
        IfOk result (λ found. IsNone found → HasZero sums) }
    ensures refused { IfErr result (λ error. error ≡ Error.OutOfMemory) }
{
    let sums = sums_with(alloc, x, ys)?;
    match batch_inverse(alloc, &sums) {
        Ok(row) => Ok(Some(row)),
        Err(NoInverses::Zero(_)) => Ok(None),
        Err(NoInverses::OutOfMemory) => Err(Error::OutOfMemory),
    }
}

// The rows of all elements of the first list. `None` where a sum is 0.
fn rows<F: InvertibleField>(alloc: Global, xs: &[F], ys: &[F]) -> Result<Option<Vec<Vec<F>>>, Error>
    ensures matrix { IfOk result (λ found. IfSome found (λ rows.
        IsCauchy F.MODULUS (map F.value xs.now) (map F.value ys.now)
        (map (λ row. map F.value row.items) rows.items))) }
    ensures zero { IfOk result (λ found. IsNone found
        → MeetsZero F.MODULUS (map F.value xs.now) (map F.value ys.now)) }
    ensures refused { IfErr result (λ error. error ≡ Error.OutOfMemory) }
{
    let mut rows = Vec::with_capacity(alloc, xs.len())?;
    for x in xs {
        match row(alloc, *x, ys)? {
            Some(row) => rows.push(row)?,
            None => return Ok(None),
        }
    }
    Ok(Some(rows))
}

/// Returns the matrix of the inverses of the sums of two elements, one of each list. `None` where a sum is 0, or an
/// element stands twice in a list.
pub fn cauchy_matrix<F: InvertibleField>(
    alloc: Global,
    xs: &[F],
    ys: &[F],
) -> Result<Option<Vec<Vec<F>>>, Error>
    ensures matrix { IfOk result (λ found. IfSome found (λ rows.
        IsCauchy F.MODULUS (map F.value xs.now) (map F.value ys.now)
        (map (λ row. map F.value row.items) rows.items))) }
    ensures distinct { IfOk result (λ found. IfSome found (λ _.
        (has_twice (map F.value xs.now) ≡ false) × (has_twice (map F.value ys.now) ≡ false))) }
    ensures none { IfOk result (λ found. IsNone found
        → IsRefused F.MODULUS (map F.value xs.now) (map F.value ys.now)) }
    ensures refused { IfErr result (λ error. error ≡ Error.OutOfMemory) }
{
    if has_twice(xs) || has_twice(ys) {
        return Ok(None);
    }
    rows(alloc, xs, ys)
}
