//! Laws of the group that small groups lack.

ghost use Rattle.jubjub.specs.Laws.PrimeOrder.{prime_order};
ghost use Rattle.jubjub.specs.Laws.SameFirst.{same_first};

use crate::element::Jubjub;
use crate::multiple::order_of_subgroup;
use ark_groups::ec::{PrimeOrderGroup, ToldByX};
use ark_groups::ff::Words;

impl PrimeOrderGroup for Jubjub {
    fn order() -> Words {
        order_of_subgroup()
    }

    ghost prime_order = { prime_order };
}

impl ToldByX for Jubjub {
    fn is_same_by_x(self, other: Jubjub) -> bool {
        self.x == other.x
    }

    ghost told = { same_first };
}
