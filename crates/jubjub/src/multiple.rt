//! Multiples of points, and the tests of a point.

ghost use Rattle.std.specs.Prelude.{◌≡◌};
ghost use Rattle.std.specs.Bool.{Decides};
ghost use Rattle.ark_groups.specs.Group.{times};
ghost use Rattle.ark_groups.specs.Words.{number};
ghost use Rattle.jubjub.specs.Edwards.{Coordinates, sum};
ghost use Rattle.jubjub.specs.Jubjub.{p, d, order, curve, IsOnJubjub};
ghost use Rattle.jubjub.specs.Extended.{Stands};
ghost use Rattle.jubjub.specs.Values.{value};

use crate::extended::{Extended, coefficient, twice_coefficient, zero};
use crate::scalar::short;
use ark_groups::ff::{Field, Words};
use ark_wide_fields::Bls12_381Fr;
use edwards::{doubled, plus};

/// Returns the order of the prime subgroup.
pub fn order_of_subgroup() -> Words
    ensures { number result ≡ order }
{
    Words {
        w0: 15030498081868557495,
        w1: 11990869827041890434,
        w2: 461402362329971456,
        w3: 1044189607433056169,
    }
}

// The point, added as often as the scalar says: by the scalar's digits to base 2, from the lowest on.
fn by_bits(a: Extended, scalar: u64) -> Extended
    ensures { (s : Coordinates) → IsOnJubjub s → Stands a s
        → Stands result (times curve scalar s) }
{
    let twice = twice_coefficient();
    let mut sum = zero();
    let mut power = a;
    let mut rest = scalar;
    while rest > 0 {
        if rest % 2 == 1 {
            sum = plus(twice, sum, power);
        }
        power = doubled(power);
        rest /= 2;
    }
    sum
}

/// Returns the point, added as often as the scalar says. No branch and no address depends on either.
pub fn scalar_multiple(a: Extended, scalar: Words) -> Extended
    ensures { (s : Coordinates) → IsOnJubjub s → Stands a s
        → Stands result (times curve (number scalar) s) }
{
    edwards::multiple(twice_coefficient(), a, scalar)
}

/// Returns the point, added as often as a public scalar says, on which the time depends. A short scalar gains nothing by
/// a table of multiples.
pub fn public_multiple(a: Extended, scalar: Words) -> Extended
    ensures { (s : Coordinates) → IsOnJubjub s → Stands a s
        → Stands result (times curve (number scalar) s) }
{
    match short(scalar) {
        Some(word) => by_bits(a, word),
        None => edwards::multiple_public(twice_coefficient(), a, scalar),
    }
}

/// Returns the sum of two points, each added as often as a public scalar says, on which the time depends.
pub fn public_sum_of_multiples(a: Extended, m: Words, b: Extended, n: Words) -> Extended
    ensures { (s t : Coordinates) → IsOnJubjub s → IsOnJubjub t → Stands a s → Stands b t
        → Stands result (sum p d (times curve (number m) s) (times curve (number n) t)) }
{
    edwards::sum_of_multiples_public(twice_coefficient(), a, m, b, n)
}

/// Returns whether two numbers are the coordinates of a point of the curve.
pub fn is_on_curve(x: Bls12_381Fr, y: Bls12_381Fr) -> bool
    ensures { Decides result (IsOnJubjub (record { x = value x; y = value y })) }
{
    let xx = x.mul(x);
    let yy = y.mul(y);
    let right = xx.mul(yy).mul(coefficient());
    xx.add(Bls12_381Fr::one()).add(right) == yy
}
