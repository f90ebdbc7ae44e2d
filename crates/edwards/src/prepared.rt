//! Points that are added often, prepared for it.

ghost use Rattle.std.specs.Prelude.{◌≡◌, ℕ};
ghost use Rattle.ark_groups.specs.Words.{number};
ghost use Rattle.edwards.specs.Edwards.{Coordinates, IsOnCurve, sum};
ghost use Rattle.edwards.specs.Curves.{IsComplete};
ghost use Rattle.edwards.specs.Extended.{Stands};
ghost use Rattle.edwards.specs.Prepared.{IsPrepared};

use crate::extended::{Extended, plus_products};
use ark_groups::ff::Field;
use ark_wide_fields::{Fp256, WideModulus};

/// Of a point y - x, y + x, and 2 d x y, where d is the curve's coefficient.
pub struct Prepared<M: WideModulus> {
    /// y - x.
    pub less: Fp256<M>,
    /// y + x.
    pub more: Fp256<M>,
    /// 2 d x y.
    pub cross: Fp256<M>,
}

/// Returns the sum of a point of the curve and of a prepared one. It takes seven products.
pub fn plus_prepared<M: WideModulus>(a: Extended<M>, b: Prepared<M>) -> Extended<M>
    ensures { (d : ℕ) → IsComplete (number M.P) d
        → (s t : Coordinates) → IsOnCurve (number M.P) d s → IsOnCurve (number M.P) d t
        → Stands a s → IsPrepared d b t → Stands result (sum (number M.P) d s t) }
{
    let Prepared { less, more, cross } = b;
    plus_products(a, less, more, cross)
}
