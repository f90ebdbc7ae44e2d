//! Points by their second coordinate and the parity of the first.

ghost use Rattle.std.specs.Prelude.{◌≡◌, ℕ, ◌*◌, ◌%◌, IsNone, IfSome};
ghost use Rattle.std.specs.Int.{from_bool};
ghost use Rattle.jubjub.specs.Jubjub.{p, IsOnJubjub};
ghost use Rattle.jubjub.specs.Decoding.{IsOver};
ghost use Rattle.jubjub.specs.Values.{value};

use crate::extended::coefficient;
use ark_groups::ff::Field;
use ark_wide_fields::{Bls12_381Fr, is_odd, is_zero, root_of_quotient};

// The root of the given parity, by one of the two roots. `None` where the roots are 0 and the parity is odd.
fn of_parity(root: Bls12_381Fr, odd: bool) -> Option<Bls12_381Fr>
    ensures square { IfSome result (λ x. value x * value x % p ≡ value root * value root % p) }
    ensures parity { IfSome result (λ x. value x % 2 ≡ from_bool odd) }
    ensures zero { IsNone result → value root ≡ 0 }
    ensures odd { IsNone result → from_bool odd ≡ 1 }
{
    if is_odd(root.words()) == odd {
        Some(root)
    } else if is_zero(root) {
        None
    } else {
        Some(root.neg())
    }
}

// A first coordinate of the points over y: a root of (y^2 - 1) / (1 + d y^2). `None` where there is no such point.
fn root_over(y: Bls12_381Fr) -> Option<Bls12_381Fr>
    ensures some { IfSome result (λ x. IsOver (value y) (value x)) }
    ensures none { IsNone result → (x : ℕ) → IsOver (value y) x → ⊥ }
{
    let square = y.mul(y);
    let numerator = square.sub(Bls12_381Fr::one());
    let denominator = Bls12_381Fr::one().add(coefficient().mul(square));
    root_of_quotient(numerator, denominator)
}

/// Returns the first coordinate of this parity of a point over y. `None` where there is no such point.
pub fn first_over(y: Bls12_381Fr, odd: bool) -> Option<Bls12_381Fr>
    ensures some { IfSome result (λ x. IsOnJubjub (record { x = value x; y = value y })) }
    ensures parity { IfSome result (λ x. value x % 2 ≡ from_bool odd) }
    ensures none { IsNone result
        → (x : ℕ) → IsOnJubjub (record { x = x; y = value y }) → x % 2 ≡ from_bool odd → ⊥ }
{
    of_parity(root_over(y)?, odd)
}
