//! Points by four coordinates.

ghost use Rattle.std.specs.Prelude.{◌≡◌, ℕ, ◌*◌, ◌%◌, ⊤};
ghost use Rattle.std.specs.Bool.{Decides};
ghost use Rattle.ark_groups.specs.Words.{number};
ghost use Rattle.ark_wide_fields.specs.Choices.{IsMask, ones};
ghost use Rattle.edwards.specs.Edwards.{Coordinates, IsOnCurve, neutral, sum};
ghost use Rattle.edwards.specs.Curves.{IsComplete};
ghost use Rattle.edwards.specs.Extended.{Stands, StandsApart, IsBlank, point, scale_of};
ghost use Rattle.edwards.specs.Prepared.{AreProducts};
ghost use Rattle.edwards.specs.Values.{value};

use crate::field::crossed_products;
use ark_groups::ff::Field;
use ark_wide_fields::{Fp256, WideModulus, element_under, prime_inverse};
use std::alloc::AllocError;

mod cached;

pub use cached::{Cached, opposite, plus_cached, plus_cached_apart, to_cached};

/// Four coordinates X, Y, Z and T with x = X / Z, y = Y / Z and x y = T / Z.
pub struct Extended<M: WideModulus> {
    x: Fp256<M>,
    y: Fp256<M>,
    z: Fp256<M>,
    t: Fp256<M>,
}

impl<M: WideModulus> Clone for Extended<M> {
    ghost is_clone = { λ x y. x ≡ y };

    ghost is_infallible = { λ _. ⊤ };

    fn clone(&self) -> Result<Extended<M>, AllocError> {
        Ok(*self)
    }
}

impl<M: WideModulus> Copy for Extended<M> {}

/// Returns the four coordinates of the neutral point.
pub fn zero<M: WideModulus>() -> Extended<M>
    ensures { Stands result neutral }
{
    Extended {
        x: Fp256::<M>::zero(),
        y: Fp256::<M>::one(),
        z: Fp256::<M>::one(),
        t: Fp256::<M>::zero(),
    }
}

/// Returns four zeros, which stand for no point.
pub fn blank<M: WideModulus>() -> Extended<M>
    ensures { IsBlank result }
{
    Extended {
        x: Fp256::<M>::zero(),
        y: Fp256::<M>::zero(),
        z: Fp256::<M>::zero(),
        t: Fp256::<M>::zero(),
    }
}

/// Returns the first where the mask is ones and the other is blank; the other where the mask is 0. It takes no branch.
#[inline(always)]
pub fn point_under<M: WideModulus>(mask: u64, a: Extended<M>, so_far: Extended<M>) -> Extended<M>
    requires mask { IsMask mask }
    requires none { mask ≡ ones → IsBlank so_far }
    ensures first { mask ≡ ones → (s : Coordinates) → Stands a s → Stands result s }
    ensures second { mask ≡ 0 → (s : Coordinates) → Stands so_far s → Stands result s }
    ensures blank { mask ≡ 0 → IsBlank so_far → IsBlank result }
{
    Extended {
        x: element_under(mask, a.x, so_far.x),
        y: element_under(mask, a.y, so_far.y),
        z: element_under(mask, a.z, so_far.z),
        t: element_under(mask, a.t, so_far.t),
    }
}

/// Returns the four coordinates of a point.
pub fn lifted<M: WideModulus>(x: Fp256<M>, y: Fp256<M>) -> Extended<M>
    ensures { Stands result (point x y) }
{
    Extended {
        x,
        y,
        z: Fp256::<M>::one(),
        t: x.mul(y),
    }
}

// The four coordinates of x = e / g and y = h / f.
#[inline(always)]
fn joined<M: WideModulus>(e: Fp256<M>, f: Fp256<M>, g: Fp256<M>, h: Fp256<M>) -> Extended<M>
    ensures x { value result.x ≡ value e * value f % number M.P }
    ensures y { value result.y ≡ value g * value h % number M.P }
    ensures z { value result.z ≡ value f * value g % number M.P }
    ensures t { value result.t ≡ value e * value h % number M.P }
{
    Extended {
        x: e.mul(f),
        y: g.mul(h),
        z: f.mul(g),
        t: e.mul(h),
    }
}

/// Returns the sum of two points of the curve, by twice the curve's coefficient.
pub fn plus<M: WideModulus>(twice: Fp256<M>, a: Extended<M>, b: Extended<M>) -> Extended<M>
    ensures { (d : ℕ) → IsComplete (number M.P) d → value twice ≡ 2 * d % number M.P
        → (s t : Coordinates) → IsOnCurve (number M.P) d s → IsOnCurve (number M.P) d t
        → Stands a s → Stands b t → Stands result (sum (number M.P) d s t) }
{
    let cross = twice.mul(a.t).mul(b.t);
    let scale = a.z.mul(b.z).double();
    let (e, h) = crossed_products(a.x, a.y, b.x, b.y);
    joined(e, scale.sub(cross), scale.add(cross), h)
}

/// Returns the sum of a point of the curve and of one by y - x, y + x, and 2 d x y, where d is the curve's coefficient.
#[inline(always)]
pub fn plus_products<M: WideModulus>(
    a: Extended<M>,
    less: Fp256<M>,
    more: Fp256<M>,
    cross: Fp256<M>,
) -> Extended<M>
    ensures { (d : ℕ) → IsComplete (number M.P) d
        → (s t : Coordinates) → IsOnCurve (number M.P) d s → IsOnCurve (number M.P) d t
        → Stands a s → AreProducts d less more cross t → Stands result (sum (number M.P) d s t) }
{
    let first = a.y.sub(a.x).mul(less);
    let second = a.y.add(a.x).mul(more);
    let third = a.t.mul(cross);
    let scale = a.z.double();
    joined(
        second.sub(first),
        scale.sub(third),
        scale.add(third),
        second.add(first),
    )
}

/// Returns the double of a point by three coordinates X, Y and Z, with the fourth.
#[inline(always)]
pub fn doubled_of<M: WideModulus>(a: &Extended<M>) -> Extended<M>
    ensures { (d : ℕ) → IsComplete (number M.P) d → (s : Coordinates) → IsOnCurve (number M.P) d s
        → StandsApart a.now s → Stands result (sum (number M.P) d s s) }
{
    let x = a.x.mul(a.x);
    let y = a.y.mul(a.y);
    let g = y.sub(x);
    let f = a.z.mul(a.z).double().sub(g);
    joined(a.x.mul(a.y).double(), f, g, y.add(x))
}

/// Returns the double of a point of the curve.
pub fn doubled<M: WideModulus>(a: Extended<M>) -> Extended<M>
    ensures { (d : ℕ) → IsComplete (number M.P) d → (s : Coordinates) → IsOnCurve (number M.P) d s
        → Stands a s → Stands result (sum (number M.P) d s s) }
{
    doubled_of(&a)
}

/// Doubles a point by three coordinates. The fourth stays that of the point itself.
pub fn double_apart<M: WideModulus>(a: &mut Extended<M>)
    ensures { (d : ℕ) → IsComplete (number M.P) d → (s : Coordinates) → IsOnCurve (number M.P) d s
        → StandsApart a.old s → StandsApart a.new (sum (number M.P) d s s) }
{
    let x = a.x.mul(a.x);
    let y = a.y.mul(a.y);
    let g = y.sub(x);
    let f = a.z.mul(a.z).double().sub(g);
    let e = a.x.mul(a.y).double();
    a.x = e.mul(f);
    a.y = g.mul(y.add(x));
    a.z = f.mul(g);
}

/// Returns four times a point of the curve. The double between takes no fourth coordinate.
pub fn doubled_twice<M: WideModulus>(a: Extended<M>) -> Extended<M>
    ensures { (d : ℕ) → IsComplete (number M.P) d → (s : Coordinates) → IsOnCurve (number M.P) d s
        → Stands a s → (let t = sum (number M.P) d s s in Stands result (sum (number M.P) d t t)) }
{
    let mut between = a;
    double_apart(&mut between);
    doubled_of(&between)
}

/// Returns a point of which three coordinates stand for it, with the fourth.
pub fn whole<M: WideModulus>(a: Extended<M>) -> Extended<M>
    ensures { (d : ℕ) → IsComplete (number M.P) d → (s : Coordinates) → IsOnCurve (number M.P) d s
        → StandsApart a s → Stands result s }
{
    Extended {
        x: a.x.mul(a.z),
        y: a.y.mul(a.z),
        z: a.z.mul(a.z),
        t: a.x.mul(a.y),
    }
}

/// Returns the point's coordinates. It takes no branch.
pub fn affine<M: WideModulus>(a: Extended<M>) -> (Fp256<M>, Fp256<M>)
    ensures x { (d : ℕ) → IsComplete (number M.P) d → (s : Coordinates) → IsOnCurve (number M.P) d s
        → Stands a s → value result.0 ≡ s.x }
    ensures y { (d : ℕ) → IsComplete (number M.P) d → (s : Coordinates) → IsOnCurve (number M.P) d s
        → Stands a s → value result.1 ≡ s.y }
{
    let z = prime_inverse(a.z);
    (a.x.mul(z), a.y.mul(z))
}

/// Returns Z, by whose inverse `affine_by` takes the coordinates.
pub fn scale<M: WideModulus>(a: &Extended<M>) -> Fp256<M>
    ensures { result ≡ scale_of a.now }
{
    a.z
}

/// Returns the point's coordinates, by the inverse of Z.
pub fn affine_by<M: WideModulus>(a: &Extended<M>, one_over: Fp256<M>) -> (Fp256<M>, Fp256<M>)
    ensures x { (d : ℕ) (s : Coordinates) → IsOnCurve (number M.P) d s → Stands a.now s
        → value (scale_of a.now) * value one_over % number M.P ≡ 1 → value result.0 ≡ s.x }
    ensures y { (d : ℕ) (s : Coordinates) → IsOnCurve (number M.P) d s → Stands a.now s
        → value (scale_of a.now) * value one_over % number M.P ≡ 1 → value result.1 ≡ s.y }
{
    (a.x.mul(one_over), a.y.mul(one_over))
}

/// Returns the coordinates of two points, by one inversion. It takes no branch.
pub fn affine_both<M: WideModulus>(
    a: Extended<M>,
    b: Extended<M>,
) -> ((Fp256<M>, Fp256<M>), (Fp256<M>, Fp256<M>))
    ensures first { (d : ℕ) → IsComplete (number M.P) d
        → (s t : Coordinates) → IsOnCurve (number M.P) d s → IsOnCurve (number M.P) d t
        → Stands a s → Stands b t → point result.0.0 result.0.1 ≡ s }
    ensures second { (d : ℕ) → IsComplete (number M.P) d
        → (s t : Coordinates) → IsOnCurve (number M.P) d s → IsOnCurve (number M.P) d t
        → Stands a s → Stands b t → point result.1.0 result.1.1 ≡ t }
{
    let inverse = prime_inverse(a.z.mul(b.z));
    let of_a = inverse.mul(b.z);
    let of_b = inverse.mul(a.z);
    let first = (a.x.mul(of_a), a.y.mul(of_a));
    let second = (b.x.mul(of_b), b.y.mul(of_b));
    (first, second)
}

/// Returns whether it is the neutral point.
pub fn is_neutral<M: WideModulus>(a: Extended<M>) -> bool
    ensures { (d : ℕ) → IsComplete (number M.P) d → (s : Coordinates) → IsOnCurve (number M.P) d s
        → Stands a s → Decides result (s ≡ neutral) }
{
    a.x == Fp256::<M>::zero() && a.y == a.z
}
