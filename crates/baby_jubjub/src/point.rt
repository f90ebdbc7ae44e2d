//! Points of the curve.

ghost use Rattle.std.specs.Prelude.{◌≡◌};
ghost use Rattle.baby_jubjub.specs.BabyJubjub.{IsOnBabyJubjub};
ghost use Rattle.baby_jubjub.specs.Values.{value};
ghost use Rattle.baby_jubjub.specs.Laws.Points.{on_curve_alike};

use crate::embedded::{
    Four, carried, is_on_curve, one_over_factor, order_words, twice_coefficient,
};
use ark_groups::ff::{Field, Words};
use ark_wide_fields::{Bn254Fr, is_below};
use edwards::{affine, doubled, is_neutral, multiple, multiple_public, plus};

/// Why numbers or bytes are no point's.
#[derive(Clone, Copy, PartialEq, Eq, Debug)]
pub enum PointFault {
    /// A coordinate is the field's modulus or more.
    NotBelowModulus,
    /// No point of the curve has these coordinates, or this second coordinate.
    NotOnCurve,
    /// The first coordinate is 0, and the bit says that it is above (p - 1) / 2.
    SignOfZero,
    /// The point is outside the prime subgroup.
    OutsideSubgroup,
}

/// A point of the curve 168700 x^2 + y^2 = 1 + 168696 x^2 y^2, by its coordinates.
#[derive(Clone, Copy)]
#[derive_where(PartialEq, Eq, Hash, Debug)]
pub struct Point {
    x: Bn254Fr,
    y: Bn254Fr,
    ghost on_curve: { IsOnBabyJubjub (record {
      x = value x;
      y = value y;
    }) } by { on_curve_alike _ },
}

impl Point {
    ghost use Rattle.std.specs.Prelude.{IfOk, IfErr};
    ghost use Rattle.std.specs.Bool.{Decides};
    ghost use Rattle.ark_groups.specs.Group.{times};
    ghost use Rattle.ark_groups.specs.Words.{number};
    ghost use Rattle.edwards.specs.Edwards.{Coordinates, neutral};
    ghost use Rattle.edwards.specs.Extended.{Stands};
    ghost use Rattle.baby_jubjub.specs.declared.point.PointFault.TheVariants.{OutsideSubgroup};
    ghost use Rattle.baby_jubjub.specs.BabyJubjub.{curve, base8, scaled, IsInPrimeSubgroup};
    ghost use Rattle.baby_jubjub.specs.Points.{coordinates, IsCoordinateFault};

    // The point of coordinates that are known to be on the curve.
    pub(crate) fn of(x: Bn254Fr, y: Bn254Fr) -> Point
        requires { IsOnBabyJubjub (record { x = value x; y = value y }) }
        ensures { coordinates result ≡ record { x = value x; y = value y } }
    {
        Point { x, y }
    }

    // Four coordinates of the point on the curve whose first coefficient is -1.
    pub(crate) fn embedded(self) -> Four
        ensures { Stands result (scaled (coordinates self)) }
    {
        carried(self.x, self.y)
    }

    // The point whose four coordinates on that curve these are.
    fn of_embedded(sum: Four) -> Point
        requires { (q : Coordinates) × IsOnBabyJubjub q × Stands sum (scaled q) }
        ensures { (q : Coordinates) → IsOnBabyJubjub q → Stands sum (scaled q)
            → coordinates result ≡ q }
    {
        let (x, y) = affine(sum);
        Point::of(one_over_factor().mul(x), y)
    }

    /// Returns the point with these coordinates.
    ///
    /// Errors: `NotBelowModulus`, then `NotOnCurve`.
    pub fn from_coordinates(x: Words, y: Words) -> Result<Point, PointFault>
        ensures ok { IfOk result (λ q. coordinates q ≡ record { x = number x; y = number y }) }
        ensures err { IfErr result (IsCoordinateFault (record { x = number x; y = number y })) }
    {
        if !is_below(x, Bn254Fr::modulus()) || !is_below(y, Bn254Fr::modulus()) {
            return Err(PointFault::NotBelowModulus);
        }
        let first = Bn254Fr::from_words(x);
        let second = Bn254Fr::from_words(y);
        if !is_on_curve(first, second) {
            return Err(PointFault::NotOnCurve);
        }
        Ok(Point::of(first, second))
    }

    /// Returns the point that adds nothing: (0, 1).
    pub fn zero() -> Point
        ensures { coordinates result ≡ neutral }
    {
        Point::of(Bn254Fr::zero(), Bn254Fr::one())
    }

    /// Returns Base8, eight times ERC-2494's generator, whose order is that of the prime subgroup.
    pub fn base8() -> Point
        ensures { coordinates result ≡ base8 }
    {
        let x = Bn254Fr::from_words(Words {
            w0: 2923948824128221265,
            w1: 3078447844201652406,
            w2: 5669102708735506369,
            w3: 844278054434796443,
        });
        let y = Bn254Fr::from_words(Words {
            w0: 5421249259631377803,
            w1: 18221569726161695607,
            w2: 2690670003684637165,
            w3: 2700314812950295113,
        });
        Point::of(x, y)
    }

    /// Returns the first coordinate.
    pub fn x(self) -> Bn254Fr
        ensures { value result ≡ (coordinates self).x }
    {
        self.x
    }

    /// Returns the second coordinate.
    pub fn y(self) -> Bn254Fr
        ensures { value result ≡ (coordinates self).y }
    {
        self.y
    }

    /// Returns the sum.
    pub fn add(self, other: Point) -> Point
        ensures { coordinates result ≡ curve.plus (coordinates self) (coordinates other) }
    {
        Point::of_embedded(plus(twice_coefficient(), self.embedded(), other.embedded()))
    }

    /// Returns the point added to itself.
    pub fn double(self) -> Point
        ensures { coordinates result ≡ curve.plus (coordinates self) (coordinates self) }
    {
        Point::of_embedded(doubled(self.embedded()))
    }

    /// Returns the negative.
    pub fn neg(self) -> Point
        ensures { coordinates result ≡ curve.opposite (coordinates self) }
    {
        Point::of(self.x.neg(), self.y)
    }

    /// Returns the point, added as often as the scalar says. The scalar may be any number of four words. No branch and no
    /// address depends on it or on the point.
    pub fn mul(self, scalar: Words) -> Point
        ensures { coordinates result ≡ times curve (number scalar) (coordinates self) }
    {
        Point::of_embedded(multiple(twice_coefficient(), self.embedded(), scalar))
    }

    /// Returns the point, added as often as a public scalar says, on which the time depends.
    pub fn mul_public(self, scalar: Words) -> Point
        ensures { coordinates result ≡ times curve (number scalar) (coordinates self) }
    {
        Point::of_embedded(multiple_public(twice_coefficient(), self.embedded(), scalar))
    }

    /// Returns whether the point is in the prime subgroup: whether its multiple by the order is zero.
    pub fn is_in_subgroup(self) -> bool
        ensures { Decides result (IsInPrimeSubgroup (coordinates self)) }
    {
        is_neutral(multiple_public(twice_coefficient(), self.embedded(), order_words()))
    }

    /// Returns the point itself, if it is in the prime subgroup. The only error is `OutsideSubgroup`.
    pub fn in_subgroup(self) -> Result<Point, PointFault>
        ensures ok { IfOk result (λ q. (q ≡ self) × IsInPrimeSubgroup (coordinates self)) }
        ensures err { IfErr result (λ fault. (fault ≡ OutsideSubgroup)
            × (IsInPrimeSubgroup (coordinates self) → ⊥)) }
    {
        if self.is_in_subgroup() {
            Ok(self)
        } else {
            Err(PointFault::OutsideSubgroup)
        }
    }
}
