//! Elements of the prime subgroup.

ghost use Rattle.std.specs.Prelude.{◌≡◌, ◌*◌, ◌%◌};
ghost use Rattle.jubjub.specs.Edwards.{Coordinates};
ghost use Rattle.jubjub.specs.Jubjub.{p, d, IsInSubgroup};
ghost use Rattle.jubjub.specs.Values.{value};
ghost use Rattle.jubjub.specs.Laws.Points.{in_subgroup_alike};

use crate::bytes::bytes_of_point;
use crate::extended::{Extended, crossed, lifted, plus_crossed};
use crate::membership::is_member;
use crate::multiple::{is_on_curve, public_multiple, public_sum_of_multiples, scalar_multiple};
use ark_groups::ff::{Field, Words};
use ark_wide_fields::Bls12_381Fr;
use edwards::{affine, doubled};

mod absorb;
mod digest;
mod found;
mod from_digest;
mod item;
mod sums;

pub use sums::{JubjubSum, JubjubTable};

// The coordinates of the generator.
const GENERATOR_X: Words = Words {
    w0: 4497696437803487787,
    w1: 16658651183625237090,
    w2: 9701709870209645883,
    w3: 1286620319555068288,
};

const GENERATOR_Y: Words = Words {
    w0: 14717630602976334506,
    w1: 4478471787023236823,
    w2: 10597865444426039491,
    w3: 2112818184693946903,
};

/// A point of the prime subgroup, by its coordinates.
#[derive(Clone, Copy)]
#[derive_where(PartialEq, Eq, Hash, Debug)]
pub struct Jubjub {
    x: Bls12_381Fr,
    y: Bls12_381Fr,
    // 2 d x y, where d is the curve's coefficient: it saves two products for each sum with the element.
    #[derive_where(skip)]
    crossed: Bls12_381Fr,
    ghost in_subgroup: { IsInSubgroup (record {
      x = value x;
      y = value y;
    }) } by { in_subgroup_alike _ },
    ghost crossed_is: { value crossed ≡ 2 * d * value x * value y % p },
}

/// Zero.
impl Default for Jubjub {
    ghost use Rattle.jubjub.specs.Elements.{jubjub};

    ghost is_default = { λ x. x ≡ jubjub.identity };

    fn default() -> Jubjub {
        Jubjub::zero()
    }
}

impl Jubjub {
    ghost use Rattle.std.specs.Prelude.{◌≢◌, ◌↔◌, IsNone, IfSome};
    ghost use Rattle.ark_groups.specs.Group.{times};
    ghost use Rattle.ark_groups.specs.Words.{number};
    ghost use Rattle.jubjub.specs.Edwards.{neutral, negative, sum};
    ghost use Rattle.jubjub.specs.Extended.{Stands};
    ghost use Rattle.jubjub.specs.Jubjub.{curve, base_point};
    ghost use Rattle.jubjub.specs.declared.element.Jubjub.{Jubjub};
    ghost use Rattle.jubjub.specs.Elements.{coordinates, jubjub, base};
    ghost use Rattle.jubjub.specs.Spelling.{spelling};

    // The element of coordinates that are known to be in the subgroup.
    fn of(x: Bls12_381Fr, y: Bls12_381Fr) -> Jubjub
        requires { IsInSubgroup (record { x = value x; y = value y }) }
        ensures { coordinates result ≡ record { x = value x; y = value y } }
    {
        Jubjub {
            x,
            y,
            crossed: crossed(x, y),
        }
    }

    // The element of a point that is known to be in the subgroup, by its extended coordinates.
    fn of_extended(point: Extended) -> Jubjub
        requires { (a : Coordinates) × IsInSubgroup a × Stands point a }
        ensures { (a : Coordinates) → IsInSubgroup a → Stands point a → coordinates result ≡ a }
    {
        let (x, y) = affine(point);
        Jubjub::of(x, y)
    }

    /// Returns the element that adds nothing.
    pub fn zero() -> Jubjub
        ensures group { result ≡ jubjub.identity }
        ensures coordinates { coordinates result ≡ neutral }
    {
        Jubjub::of(Bls12_381Fr::zero(), Bls12_381Fr::one())
    }

    /// Returns the generator of the subgroup: each element is one multiple of it below the order (`generator_generates`).
    pub fn generator() -> Jubjub
        ensures element { result ≡ base }
        ensures coordinates { coordinates result ≡ base_point }
    {
        Jubjub::of(
            Bls12_381Fr::from_words(GENERATOR_X),
            Bls12_381Fr::from_words(GENERATOR_Y),
        )
    }

    /// Returns the first coordinate.
    pub fn x(self) -> Bls12_381Fr
        ensures { value result ≡ (coordinates self).x }
    {
        self.x
    }

    /// Returns the second coordinate.
    pub fn y(self) -> Bls12_381Fr
        ensures { value result ≡ (coordinates self).y }
    {
        self.y
    }

    /// Returns the sum.
    pub fn add(self, other: Jubjub) -> Jubjub
        ensures group { result ≡ jubjub.plus self other }
        ensures coordinates { coordinates result ≡ sum p d (coordinates self) (coordinates other) }
    {
        let a = lifted(self.x, self.y);
        Jubjub::of_extended(plus_crossed(a, other.x, other.y, other.crossed))
    }

    /// Returns the negative.
    pub fn neg(self) -> Jubjub
        ensures group { result ≡ jubjub.opposite self }
        ensures coordinates { coordinates result ≡ negative p (coordinates self) }
    {
        Jubjub::of(self.x.neg(), self.y)
    }

    /// Returns the element added to itself.
    pub fn double(self) -> Jubjub
        ensures group { result ≡ jubjub.plus self self }
        ensures coordinates { coordinates result ≡ sum p d (coordinates self) (coordinates self) }
    {
        Jubjub::of_extended(doubled(lifted(self.x, self.y)))
    }

    /// Returns the element, added as often as the scalar says. The scalar may be any number of four words. No branch and
    /// no address depends on it or on the element.
    pub fn mul(self, scalar: Words) -> Jubjub
        ensures group { result ≡ times jubjub (number scalar) self }
        ensures coordinates { coordinates result ≡ times curve (number scalar) (coordinates self) }
    {
        Jubjub::of_extended(scalar_multiple(lifted(self.x, self.y), scalar))
    }

    /// Returns the element, added as often as a public scalar says, on which the time depends: it is shorter than that of
    /// `mul`. The scalar may be any number of four words.
    pub fn mul_public(self, scalar: Words) -> Jubjub
        ensures group { result ≡ times jubjub (number scalar) self }
        ensures coordinates { coordinates result ≡ times curve (number scalar) (coordinates self) }
    {
        Jubjub::of_extended(public_multiple(lifted(self.x, self.y), scalar))
    }

    /// Returns the sum of the element and of another, each added as often as a public scalar says, on which the time
    /// depends: it is shorter than that of two multiples. The scalars may be any numbers of four words.
    pub fn sum_of_multiples_public(self, m: Words, other: Jubjub, n: Words) -> Jubjub
        ensures group { result ≡ jubjub.plus (times jubjub (number m) self)
            (times jubjub (number n) other) }
        ensures coordinates { coordinates result ≡ sum p d
            (times curve (number m) (coordinates self))
            (times curve (number n) (coordinates other)) }
    {
        let a = lifted(self.x, self.y);
        let b = lifted(other.x, other.y);
        Jubjub::of_extended(public_sum_of_multiples(a, m, b, n))
    }

    /// Returns the element with these coordinates. `None` where they are not in the prime subgroup.
    pub fn from_coordinates(x: Bls12_381Fr, y: Bls12_381Fr) -> Option<Jubjub>
        ensures none { IsNone result ↔ ¬ IsInSubgroup (record { x = value x; y = value y }) }
        ensures some { IfSome result (λ e. coordinates e ≡ record { x = value x; y = value y }) }
    {
        if !is_on_curve(x, y) {
            return None;
        }
        if !is_member(x, y) {
            return None;
        }
        Some(Jubjub::of(x, y))
    }

    /// Returns the canonical bytes: 32 of each coordinate, the first coordinate first, the least byte first.
    pub fn to_bytes(self) -> [u8; 64]
        ensures { result ≡ spelling (coordinates self) }
    {
        bytes_of_point(self.x, self.y)
    }

    /// Returns the element with these canonical bytes. `None` where no element has them: another length, a number
    /// that is the field's modulus or more, a point off the curve or outside the subgroup.
    pub fn from_bytes(bytes: &[u8]) -> Option<Jubjub>
        ensures some { IfSome result (λ e. bytes.now ≡ spelling (coordinates e)) }
        ensures none { IsNone result → (e : Jubjub) → bytes.now ≢ spelling (coordinates e) }
    {
        if bytes.len() != 64 {
            return None;
        }
        let x = Bls12_381Fr::from_le_bytes_mod_order(&bytes[..32]);
        let y = Bls12_381Fr::from_le_bytes_mod_order(&bytes[32..]);
        if bytes_of_point(x, y).as_slice() != bytes {
            return None;
        }
        Jubjub::from_coordinates(x, y)
    }
}
