//! Points by four coordinates.

ghost use Rattle.std.specs.Prelude.{◌≡◌, ◌*◌, ◌%◌};
ghost use Rattle.jubjub.specs.Edwards.{Coordinates, sum};
ghost use Rattle.jubjub.specs.Jubjub.{p, d, IsOnJubjub};
ghost use Rattle.jubjub.specs.Extended.{Stands};
ghost use Rattle.jubjub.specs.Values.{value};

use ark_groups::ff::{Field, Words};
use ark_wide_fields::{Bls12_381Fr, Bls12_381FrModulus};
pub use edwards::{lifted, zero};

// -(10240 / 10241).
const D: Words = Words {
    w0: 73851820219580081,
    w1: 2967167836563676454,
    w2: 17725484271033745364,
    w3: 3067823152860638024,
};

/// Four coordinates X, Y, Z and T with x = X / Z, y = Y / Z and x y = T / Z.
pub type Extended = edwards::Extended<Bls12_381FrModulus>;

/// Returns the curve's coefficient.
pub fn coefficient() -> Bls12_381Fr
    ensures { value result ≡ d }
{
    Bls12_381Fr::from_words(D)
}

/// Returns twice the curve's coefficient.
pub fn twice_coefficient() -> Bls12_381Fr
    ensures { value result ≡ 2 * d % p }
{
    coefficient().double()
}

/// Returns 2 d x y, where d is the curve's coefficient.
pub fn crossed(x: Bls12_381Fr, y: Bls12_381Fr) -> Bls12_381Fr
    ensures { value result ≡ 2 * d * value x * value y % p }
{
    twice_coefficient().mul(x.mul(y))
}

/// Returns the sum of a point of the curve and of one by its coordinates and 2 d x y, where d is the curve's coefficient.
#[inline(always)]
pub fn plus_crossed(a: Extended, x: Bls12_381Fr, y: Bls12_381Fr, crossed: Bls12_381Fr) -> Extended
    requires { value crossed ≡ 2 * d * value x * value y % p }
    ensures { let t : Coordinates = record { x = value x; y = value y } in
        (s : Coordinates) → IsOnJubjub s → IsOnJubjub t → Stands a s
        → Stands result (sum p d s t) }
{
    edwards::plus_products(a, y.sub(x), y.add(x), crossed)
}
