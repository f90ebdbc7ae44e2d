//! Elements of unknown logarithm: by a second coordinate, and by a generator's stream.

ghost use Rattle.std.specs.Prelude.{◌≡◌};
ghost use Rattle.std.specs.Int.{from_bool};
ghost use Rattle.ark_groups.specs.Group.{times};
ghost use Rattle.jubjub.specs.Edwards.{Coordinates};
ghost use Rattle.jubjub.specs.Extended.{Stands};
ghost use Rattle.jubjub.specs.Jubjub.{curve, IsOnJubjub};
ghost use Rattle.jubjub.specs.Values.{value};
ghost use Rattle.jubjub.specs.Decoding.{cleared_over};
ghost use Rattle.jubjub.specs.Draws.{element_draw};

use crate::decoding::first_over;
use crate::element::Jubjub;
use crate::extended::{Extended, lifted};
use ark_groups::ff::UniformRand;
use ark_wide_fields::Bls12_381Fr;
use edwards::{doubled, doubled_twice, is_neutral};
use rand::Rng;

// How many points over drawn coordinates are tried.
const TRIES: u32 = 128;

// The point, eight times: as often as there are points of the curve for each element of the subgroup.
fn eight_times(a: Extended) -> Extended
    ensures { (s : Coordinates) → IsOnJubjub s → Stands a s → Stands result (times curve 8 s) }
{
    doubled(doubled_twice(a))
}

/// Returns 8 times the point over y with a first coordinate of this parity, which is an element. `None` where there is
/// no such point, or where that is zero.
pub fn cleared_over(y: Bls12_381Fr, odd: bool) -> Option<Jubjub>
    ensures { result ≡ cleared_over (value y) (from_bool odd) }
{
    let x = first_over(y, odd)?;
    let cleared = eight_times(lifted(x, y));
    if is_neutral(cleared) {
        return None;
    }
    Some(Jubjub::of_extended(cleared))
}

/// Returns the first element that is found over the coordinates that a stream gives. Zero after 128 tries.
pub fn element_drawn<R: Rng>(rng: &mut R) -> Jubjub
    ensures { (result, R.stream rng.new) ≡ element_draw (R.stream rng.old) }
{
    for _ in 0..TRIES {
        if let Some(element) = cleared_over(Bls12_381Fr::rand(rng), false) {
            return element;
        }
    }
    Jubjub::zero()
}
