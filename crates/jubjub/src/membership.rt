//! The test whether a point of the curve is in the prime subgroup, by one power.

ghost use Rattle.std.specs.Prelude.{◌≡◌, ◌+◌, ◌*◌, ◌%◌};
ghost use Rattle.std.specs.Bool.{Decides};
ghost use Rattle.jubjub.specs.Jubjub.{p, IsOnJubjub, IsInSubgroup};
ghost use Rattle.jubjub.specs.Membership.{minus_one_root, tangent_slope, member_value};
ghost use Rattle.jubjub.specs.Values.{value};

use ark_groups::ff::{Field, Words};
use ark_wide_fields::{Bls12_381Fr, is_zero, power};

// A square root of -1.
const MINUS_ONE_ROOT: Words = Words {
    w0: 281474976710656,
    w1: 17006436628450967552,
    w2: 10183145419576640720,
    w3: 0,
};

// The slope of the tangent at a point of order 8.
const TANGENT_SLOPE: Words = Words {
    w0: 183260124189599254,
    w1: 12661213124019218836,
    w2: 7652699275433305927,
    w3: 592698574429665866,
};

// An eighth of the modulus less 1.
const EIGHTH: Words = Words {
    w0: 16140901063958986752,
    w1: 12283484972135730047,
    w2: 461402362329971456,
    w3: 1044189607433056169,
};

// The tangent at a point, by its turned first coordinate.
fn tangent(turned: Bls12_381Fr, y: Bls12_381Fr) -> Bls12_381Fr
    ensures { value result ≡ (1 + value y + value turned * (1 + tangent_slope * value y)) % p }
{
    let one = Bls12_381Fr::one();
    let slope = Bls12_381Fr::from_words(TANGENT_SLOPE);
    one.add(y).add(turned.mul(one.add(slope.mul(y))))
}

// The value whose power tells.
fn value_at(x: Bls12_381Fr, y: Bls12_381Fr) -> Bls12_381Fr
    ensures { value result ≡ member_value (record { x = value x; y = value y }) % p }
{
    let one = Bls12_381Fr::one();
    let turned = Bls12_381Fr::from_words(MINUS_ONE_ROOT).mul(x);
    let first = turned.mul(one.add(turned));
    let second = one.sub(y.mul(y));
    let inner = tangent(turned, y).mul(second).mul(first);
    let outer = first.mul(one.add(y));
    let square = inner.mul(inner);
    square.mul(square).mul(outer.mul(outer)).mul(second)
}

/// Returns whether a point of the curve is in the prime subgroup.
pub fn is_member(x: Bls12_381Fr, y: Bls12_381Fr) -> bool
    requires { IsOnJubjub (record { x = value x; y = value y }) }
    ensures { Decides result (IsInSubgroup (record { x = value x; y = value y })) }
{
    if is_zero(x) {
        return y == Bls12_381Fr::one();
    }
    if is_zero(y) {
        return false;
    }
    power(value_at(x, y), EIGHTH) == Bls12_381Fr::from_words(MINUS_ONE_ROOT)
}
