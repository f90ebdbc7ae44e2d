//! The group of the elements, for what is generic over groups.

ghost use Rattle.std.proofs.Common.{sym};
ghost use Rattle.jubjub.specs.Elements.{coordinates, jubjub};
ghost use Rattle.jubjub.specs.Draws.{element_draw};
ghost use Rattle.jubjub.specs.Sums.{total};
ghost use Rattle.jubjub.specs.Laws.Group.{jubjub_laws, of_modulus, same_if_equal};
ghost use Rattle.jubjub.specs.Laws.Elements.{same_element};

use crate::element::found::element_drawn;
use crate::element::sums::many::elements_of_sums;
use crate::element::{Jubjub, JubjubSum};
use crate::extended::{lifted, plus_crossed, twice_coefficient};
use crate::fr::JubjubFr;
use ark_base::error::Error;
use ark_groups::ec::{AdditiveGroup, TECoordinates};
use ark_groups::ff::Field;
use ark_wide_fields::Bls12_381Fr;
use edwards::{doubled, plus};
use rand::Rng;
use std::alloc::Global;

impl AdditiveGroup for Jubjub {
    type ScalarField = JubjubFr;

    type Sum = JubjubSum;

    ghost group = { jubjub };

    ghost draw = { element_draw };

    ghost total = { total };

    fn zero() -> Jubjub {
        Jubjub::zero()
    }

    fn add(self, other: Jubjub) -> Jubjub {
        Jubjub::add(self, other)
    }

    fn neg(self) -> Jubjub {
        Jubjub::neg(self)
    }

    fn double(self) -> Jubjub {
        Jubjub::double(self)
    }

    fn mul(self, s: JubjubFr) -> Jubjub {
        Jubjub::mul(self, s.words())
    }

    fn sum_of_multiples_public(self, s: JubjubFr, other: Jubjub, t: JubjubFr) -> Jubjub {
        Jubjub::sum_of_multiples_public(self, s.words(), other, t.words())
    }

    fn to_sum(self) -> JubjubSum {
        JubjubSum::of(twice_coefficient(), lifted(self.x, self.y))
    }

    fn add_sums(a: JubjubSum, b: JubjubSum) -> JubjubSum {
        JubjubSum::of(a.twice, plus(a.twice, a.point, b.point))
    }

    fn add_to_sum(sum: JubjubSum, element: Jubjub) -> JubjubSum {
        let point = plus_crossed(sum.point, element.x, element.y, element.crossed);
        JubjubSum::of(sum.twice, point)
    }

    fn double_sum(a: JubjubSum) -> JubjubSum {
        JubjubSum::of(a.twice, doubled(a.point))
    }

    fn from_sum(sum: JubjubSum) -> Jubjub {
        Jubjub::of_extended(sum.point)
    }

    fn from_sums(alloc: Global, sums: &[JubjubSum]) -> Result<Vec<Jubjub>, Error> {
        elements_of_sums(alloc, sums)
    }

    /// Takes 48 bytes of the generator's stream at each of at most 128 tries: the number that they are modulo p as a
    /// second coordinate, and 8 times the point over it whose first coordinate is even, until that is an element but
    /// zero. Nobody knows the logarithm of what is found. After 128 tries it is zero.
    fn rand<R: Rng>(rng: &mut R) -> Jubjub {
        element_drawn(rng)
    }

    ghost laws = { jubjub_laws };

    ghost order = { of_modulus };

    ghost equal_if_same = { same_if_equal };

    ghost clones = { λ x y same. sym same };

    ghost clones_always = { λ x. tt };

    ghost default_is_zero = { λ x zero. zero };

    ghost is_spelled = { λ x. x.in_subgroup };

    ghost same_view = { same_element };
}

/// The coordinates of the point.
impl TECoordinates for Jubjub {
    type BaseField = Bls12_381Fr;

    ghost x = { λ element. (coordinates element).x };

    ghost y = { λ element. (coordinates element).y };

    fn x(self) -> Bls12_381Fr {
        self.x
    }

    fn y(self) -> Bls12_381Fr {
        self.y
    }

    ghost x_below = { λ element. element.in_subgroup.on_curve.x_below };

    ghost y_below = { λ element. element.in_subgroup.on_curve.y_below };
}
