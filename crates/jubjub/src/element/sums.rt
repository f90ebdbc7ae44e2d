//! Sums under way of elements.

ghost use Rattle.std.specs.Prelude.{◌≡◌, ◌*◌, ◌%◌};
ghost use Rattle.jubjub.specs.Jubjub.{p, d};
ghost use Rattle.jubjub.specs.Extended.{IsInside};
ghost use Rattle.jubjub.specs.Values.{value};
ghost use Rattle.jubjub.specs.Laws.Extended.{inside_alike};

use crate::extended::Extended;
use ark_wide_fields::Bls12_381Fr;

mod chosen;
mod group;
mod laws;
mod many;
mod table;

pub use table::JubjubTable;

/// A sum under way of elements: a point of the prime subgroup by four coordinates, which are added without a division.
#[derive(Clone, Copy)]
pub struct JubjubSum {
    point: Extended,
    // Twice the curve's coefficient: a sum takes it along, since to make it costs a product.
    twice: Bls12_381Fr,
    ghost inside: { IsInside point } by { inside_alike _ },
    ghost twice_is: { value twice ≡ 2 * d % p },
}

impl JubjubSum {
    // The sum under way of four coordinates that are known to stand for an element.
    fn of(twice: Bls12_381Fr, point: Extended) -> JubjubSum
        requires twice { value twice ≡ 2 * d % p }
        requires point { IsInside point }
        ensures { result.point ≡ point }
    {
        JubjubSum { point, twice }
    }
}
