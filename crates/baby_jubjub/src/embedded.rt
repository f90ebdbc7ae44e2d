//! The curve as one whose first coefficient is -1: (x, y) stands there as (s x, y), where s^2 = -168700.

ghost use Rattle.std.specs.Prelude.{◌≡◌, ◌*◌, ◌%◌};
ghost use Rattle.std.specs.Bool.{Decides};
ghost use Rattle.ark_groups.specs.Words.{number};
ghost use Rattle.edwards.specs.Extended.{Stands};
ghost use Rattle.baby_jubjub.specs.BabyJubjub.{p, d, order, factor, one_over_factor, scaled, IsOnBabyJubjub};
ghost use Rattle.baby_jubjub.specs.Points.{coordinates_at};
ghost use Rattle.baby_jubjub.specs.Values.{value};

use ark_groups::ff::{Field, Words};
use ark_wide_fields::{Bn254Fr, Bn254FrModulus};
use edwards::{Extended, lifted};

/// Four coordinates of a point.
pub type Four = Extended<Bn254FrModulus>;

/// Returns the factor of the first coordinate.
pub fn factor() -> Bn254Fr
    ensures { value result ≡ factor }
{
    Bn254Fr::from_words(Words {
        w0: 7817090900423792488,
        w1: 8405395627841593623,
        w2: 3205086078052995447,
        w3: 1013295966202553675,
    })
}

/// Returns the inverse of that factor.
pub fn one_over_factor() -> Bn254Fr
    ensures { value result ≡ one_over_factor }
{
    Bn254Fr::from_words(Words {
        w0: 2447029923214691007,
        w1: 7351072948102844919,
        w2: 6411532250689003033,
        w3: 3182401824861211458,
    })
}

/// Returns twice the coefficient of that curve.
pub fn twice_coefficient() -> Bn254Fr
    ensures { value result ≡ 2 * d % p }
{
    Bn254Fr::from_words(Words {
        w0: 6704064918086211355,
        w1: 16069523429777612862,
        w2: 14091939124537248666,
        w3: 394297444798657192,
    })
}

/// Returns the order of the prime subgroup.
pub fn order_words() -> Words
    ensures { number result ≡ order }
{
    Words {
        w0: 7454187305358665457,
        w1: 12339561404529962506,
        w2: 3965992003123030795,
        w3: 435874783350371333,
    }
}

/// Returns four coordinates of a point on that curve.
pub fn carried(x: Bn254Fr, y: Bn254Fr) -> Four
    ensures { Stands result (scaled (coordinates_at x y)) }
{
    lifted(factor().mul(x), y)
}

/// Returns whether two elements are the coordinates of a point.
pub fn is_on_curve(x: Bn254Fr, y: Bn254Fr) -> bool
    ensures { Decides result (IsOnBabyJubjub (coordinates_at x y)) }
{
    let xx = x.mul(x);
    let yy = y.mul(y);
    let left = Bn254Fr::from_u64(168700).mul(xx).add(yy);
    let right = Bn254Fr::from_u64(168696).mul(xx).mul(yy);
    left == Bn254Fr::one().add(right)
}
