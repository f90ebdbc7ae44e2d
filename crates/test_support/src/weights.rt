//! A pair hash with two weights, which counts its calls.

ghost use Rattle.std.specs.Prelude.{◌≡◌};
ghost use Rattle.test_support.specs.Weights.{weighted, weighted_sum};

use ark_base::error::Error;
use ark_groups::ff::{Field, Fp, M257};
use ark_merkle::multi_path::hasher::PairHasher;
use std::alloc::Global;

/// Gives the sum of two digests, each times its weight, modulo 257.
#[derive(Drop)]
pub struct Weights {
    /// The weight of a left digest.
    pub left: Fp<M257>,
    /// The weight of a right digest.
    pub right: Fp<M257>,
    /// How often it was asked.
    pub calls: usize,
}

impl Weights {
    fn sum(&self, left: &Fp<M257>, right: &Fp<M257>) -> Fp<M257>
        ensures { result.value
            ≡ weighted_sum self.now.left.value self.now.right.value left.now.value right.now.value }
    {
        Field::add(Field::mul(self.left, *left), Field::mul(self.right, *right))
    }
}

impl PairHasher<Fp<M257>, Fp<M257>> for Weights {
    ghost pair = { λ hasher. weighted hasher.left.value hasher.right.value };

    ghost counted = { λ hasher. hasher.calls };

    fn bottom(
        &mut self,
        _alloc: Global,
        left: &Fp<M257>,
        right: &Fp<M257>,
    ) -> Result<Fp<M257>, Error> {
        self.calls = self.calls.saturating_add(1);
        Ok(self.sum(left, right))
    }

    fn upper(
        &mut self,
        _alloc: Global,
        left: &Fp<M257>,
        right: &Fp<M257>,
    ) -> Result<Fp<M257>, Error> {
        self.calls = self.calls.saturating_add(1);
        Ok(self.sum(left, right))
    }

    fn calls(&self) -> usize {
        self.calls
    }
}
