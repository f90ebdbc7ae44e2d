//! The elements that many sums stand for, by one inversion.

ghost use Rattle.std.specs.Prelude.{◌≡◌, ◌*◌, ◌%◌, ◌<◌, length, map, get_or, IfOk, IfErr};
ghost use Rattle.ark_wide_fields.specs.Inverses.{AreInverses};
ghost use Rattle.edwards.specs.Extended.{scale_of};
ghost use Rattle.jubjub.specs.Jubjub.{p};
ghost use Rattle.jubjub.specs.Sums.{total, scale_in};
ghost use Rattle.jubjub.specs.Values.{value};

use crate::element::{Jubjub, JubjubSum};
use ark_base::error::Error;
use ark_wide_fields::{Bls12_381Fr, batch_inverse};
use edwards::{affine_by, scale};
use std::alloc::Global;

// The third coordinate of each sum.
fn scales_of(alloc: Global, sums: &[JubjubSum]) -> Result<Vec<Bls12_381Fr>, Error>
    ensures made { IfOk result (λ list. list.items ≡ map scale_in sums.now) }
    ensures refused { IfErr result (λ error. error ≡ Error.OutOfMemory) }
{
    let mut list = Vec::with_capacity(alloc, sums.len())?;
    for sum in sums {
        list.push(scale(&sum.point))?;
    }
    Ok(list)
}

// The element that a sum stands for, by the inverse of its third coordinate.
fn element_by(sum: &JubjubSum, one_over: Bls12_381Fr) -> Jubjub
    requires { value (scale_in sum.now) * value one_over % p ≡ 1 }
    ensures { result ≡ total sum.now }
{
    let (x, y) = affine_by(&sum.point, one_over);
    Jubjub::of(x, y)
}

// The elements that sums stand for, by the inverses of their third coordinates.
fn elements_by(
    alloc: Global,
    sums: &[JubjubSum],
    inverses: &[Bls12_381Fr],
) -> Result<Vec<Jubjub>, Error>
    requires { AreInverses p (map (λ sum. value (scale_in sum)) sums.now) (map value inverses.now) }
    ensures made { IfOk result (λ list. list.items ≡ map total sums.now) }
    ensures refused { IfErr result (λ error. error ≡ Error.OutOfMemory) }
{
    let mut list = Vec::with_capacity(alloc, sums.len())?;
    for i in 0..sums.len() {
        list.push(element_by(&sums[i], inverses[i]))?;
    }
    Ok(list)
}

/// Returns the elements that sums stand for, place by place. The only error is `OutOfMemory`: no third coordinate is 0.
pub fn elements_of_sums(alloc: Global, sums: &[JubjubSum]) -> Result<Vec<Jubjub>, Error>
    ensures made { IfOk result (λ list. list.items ≡ map total sums.now) }
    ensures refused { IfErr result (λ error. error ≡ Error.OutOfMemory) }
{
    let scales = scales_of(alloc, sums)?;
    match batch_inverse(alloc, &scales) {
        Ok(inverses) => elements_by(alloc, sums, &inverses),
        Err(_) => Err(Error::OutOfMemory),
    }
}
