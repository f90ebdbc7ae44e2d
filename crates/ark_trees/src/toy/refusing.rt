//! Trees of such numbers whose pair hash returns errors.

ghost use Rattle.std.specs.Prelude.{Ok, refl};
ghost use Rattle.ark_trees.specs.Laws.Toy.{refusing_pair-decided};
ghost use Rattle.ark_trees.specs.Toy.{refusing_pair};

use super::numbers::{ToyLeafHash, ToyPairHash};
use ark_base::error::{Error, Refusal};
use ark_crh::TwoToOneCRHScheme;
use ark_groups::ff::{Field, Fp, M257, PrimeField};
use ark_paths::{Config, IdentityDigestConverter};
use rand::Rng;
use std::alloc::Global;

/// As `Toy`, but its pair hash returns an error where the second number is 0.
pub struct Refusing;

impl Config for Refusing {
    type Leaf = u64;

    type LeafDigest = Fp<M257>;

    type LeafInnerDigestConverter = IdentityDigestConverter<Fp<M257>>;

    type InnerDigest = Fp<M257>;

    type LeafHash = ToyLeafHash;

    type TwoToOneHash = RefusingPairHash;
}

/// As `ToyPairHash`. Refusal: `Custom` with the first number where the second is 0.
pub struct RefusingPairHash;

impl TwoToOneCRHScheme for RefusingPairHash {
    type Input = Fp<M257>;

    type Output = Fp<M257>;

    type Parameters = ();

    ghost evaluated = { λ _ left right. refusing_pair left right };

    ghost compressed = { λ _ left right. refusing_pair left right };

    ghost setup_outcome = { Ok };

    ghost is_made = { λ _ _. Unit {0} };

    fn setup<R: Rng>(_alloc: Global, _rng: &mut R) -> Result<(), Error> {
        Ok(())
    }

    /// Errors: `Custom` with the first number where the second is 0.
    fn evaluate(
        alloc: Global,
        parameters: &(),
        left: &Fp<M257>,
        right: &Fp<M257>,
    ) -> Result<Fp<M257>, Error> {
        if PrimeField::value(*right) == 0 {
            let first = PrimeField::value(*left);
            return Err(Error::GenericError(Refusal::Custom(first)));
        }
        <ToyPairHash as TwoToOneCRHScheme>::evaluate(alloc, parameters, left, right)
    }

    /// Errors: `Custom` with the first number where the second is 0.
    fn compress(
        alloc: Global,
        parameters: &(),
        left: &Fp<M257>,
        right: &Fp<M257>,
    ) -> Result<Fp<M257>, Error> {
        <RefusingPairHash as TwoToOneCRHScheme>::evaluate(alloc, parameters, left, right)
    }

    ghost evaluated_decided = { λ _ left right. refusing_pair-decided left right };

    ghost compressed_decided = { λ _ left right. refusing_pair-decided left right };

    ghost setup_decided = { λ _. tt };

    ghost made_alike = { λ _ p q _ _. refl };

    ghost evaluated_same = { λ p q same. refl };

    ghost compressed_same = { λ p q same. refl };
}
