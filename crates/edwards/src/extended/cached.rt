//! Points that are added often, prepared by their four coordinates.

ghost use Rattle.std.specs.Prelude.{◌≡◌, ℕ, ◌*◌, ◌%◌, ⊤};
ghost use Rattle.ark_groups.specs.Words.{number};
ghost use Rattle.edwards.specs.Edwards.{Coordinates, IsOnCurve, negative, sum};
ghost use Rattle.edwards.specs.Curves.{IsComplete};
ghost use Rattle.edwards.specs.Extended.{Stands, StandsApart};
ghost use Rattle.edwards.specs.Cached.{IsCached};
ghost use Rattle.edwards.specs.Values.{value};

use crate::extended::{Extended, joined};
use ark_groups::ff::Field;
use ark_wide_fields::{Fp256, WideModulus};
use std::alloc::AllocError;

/// Of a point Y - X, Y + X, 2 Z and 2 d T, where d is the curve's coefficient.
pub struct Cached<M: WideModulus> {
    less: Fp256<M>,
    more: Fp256<M>,
    scale: Fp256<M>,
    cross: Fp256<M>,
}

impl<M: WideModulus> Clone for Cached<M> {
    ghost is_clone = { λ x y. x ≡ y };

    ghost is_infallible = { λ _. ⊤ };

    fn clone(&self) -> Result<Cached<M>, AllocError> {
        Ok(*self)
    }
}

impl<M: WideModulus> Copy for Cached<M> {}

/// Returns a point, prepared for sums, by twice the curve's coefficient.
pub fn to_cached<M: WideModulus>(twice: Fp256<M>, a: Extended<M>) -> Cached<M>
    ensures { (d : ℕ) → value twice ≡ 2 * d % number M.P
        → (s : Coordinates) → Stands a s → IsCached d result s }
{
    Cached {
        less: a.y.sub(a.x),
        more: a.y.add(a.x),
        scale: a.z.double(),
        cross: twice.mul(a.t),
    }
}

/// Returns the negative of a prepared point.
#[inline(always)]
pub fn opposite<M: WideModulus>(b: Cached<M>) -> Cached<M>
    ensures { (d : ℕ) (s : Coordinates) → IsOnCurve (number M.P) d s
        → IsCached d b s → IsCached d result (negative (number M.P) s) }
{
    Cached {
        less: b.more,
        more: b.less,
        scale: b.scale,
        cross: b.cross.neg(),
    }
}

/// Returns the sum of a point of the curve and of a prepared one. It takes eight products.
pub fn plus_cached<M: WideModulus>(a: Extended<M>, b: Cached<M>) -> Extended<M>
    ensures { (d : ℕ) → IsComplete (number M.P) d
        → (s t : Coordinates) → IsOnCurve (number M.P) d s → IsOnCurve (number M.P) d t
        → Stands a s → IsCached d b t → Stands result (sum (number M.P) d s t) }
{
    let first = a.y.sub(a.x).mul(b.less);
    let second = a.y.add(a.x).mul(b.more);
    let third = a.t.mul(b.cross);
    let scale = a.z.mul(b.scale);
    joined(
        second.sub(first),
        scale.sub(third),
        scale.add(third),
        second.add(first),
    )
}

/// Returns the sum by three coordinates; the fourth is that of the first point itself.
pub fn plus_cached_apart<M: WideModulus>(a: Extended<M>, b: Cached<M>) -> Extended<M>
    ensures { (d : ℕ) → IsComplete (number M.P) d
        → (s t : Coordinates) → IsOnCurve (number M.P) d s → IsOnCurve (number M.P) d t
        → Stands a s → IsCached d b t → StandsApart result (sum (number M.P) d s t) }
{
    let first = a.y.sub(a.x).mul(b.less);
    let second = a.y.add(a.x).mul(b.more);
    let third = a.t.mul(b.cross);
    let scale = a.z.mul(b.scale);
    let e = second.sub(first);
    let f = scale.sub(third);
    let g = scale.add(third);
    let h = second.add(first);
    Extended {
        x: e.mul(f),
        y: g.mul(h),
        z: f.mul(g),
        t: a.t,
    }
}
