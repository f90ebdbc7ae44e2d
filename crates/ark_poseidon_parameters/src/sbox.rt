//! The S-box that is a power.

ghost use Rattle.std.specs.Prelude.{◌≡◌, ◌%◌, ◌^◌};

use ark_groups::ff::Field;
use ark_sponge::poseidon::SBox;

/// Raises an element to the power of the parameters' exponent. 3, 5, 7 and 17 take the fewest products.
pub struct Power;

impl<F: Field> SBox<F> for Power {
    ghost image = { λ alpha x. x ^ alpha % F.MODULUS };

    fn apply(alpha: u64, x: F) -> F {
        match alpha {
            3 => third_power(x),
            5 => fifth_power(x),
            7 => seventh_power(x),
            17 => seventeenth_power(x),
            _ => any_power(x, alpha),
        }
    }
}

#[inline(always)]
fn third_power<F: Field>(x: F) -> F
    ensures { F.value result ≡ F.value x ^ 3 % F.MODULUS }
{
    let second = x.mul(x);
    second.mul(x)
}

#[inline(always)]
fn seventh_power<F: Field>(x: F) -> F
    ensures { F.value result ≡ F.value x ^ 7 % F.MODULUS }
{
    let second = x.mul(x);
    let third = second.mul(x);
    let sixth = third.mul(third);
    sixth.mul(x)
}

#[inline(always)]
fn fifth_power<F: Field>(x: F) -> F
    ensures { F.value result ≡ F.value x ^ 5 % F.MODULUS }
{
    let second = x.mul(x);
    let fourth = second.mul(second);
    fourth.mul(x)
}

#[inline(always)]
fn seventeenth_power<F: Field>(x: F) -> F
    ensures { F.value result ≡ F.value x ^ 17 % F.MODULUS }
{
    let second = x.mul(x);
    let fourth = second.mul(second);
    let eighth = fourth.mul(fourth);
    let sixteenth = eighth.mul(eighth);
    sixteenth.mul(x)
}

// From the exponent's lowest binary digit on.
fn any_power<F: Field>(x: F, exponent: u64) -> F
    ensures { F.value result ≡ F.value x ^ exponent % F.MODULUS }
{
    let mut product = F::one();
    let mut base = x;
    let mut rest = exponent;
    while rest > 0 {
        if rest % 2 == 1 {
            product = product.mul(base);
        }
        base = base.mul(base);
        rest /= 2;
    }
    product
}
