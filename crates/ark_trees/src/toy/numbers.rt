//! Trees of numbers below 257.

ghost use Rattle.std.specs.Prelude.{Ok, refl};
ghost use Rattle.ark_trees.specs.Laws.Toy.{toy_leaf-decided};
ghost use Rattle.ark_trees.specs.Toy.{toy_leaf, toy_pair};

use ark_base::error::{Error, Refusal};
use ark_crh::{CRHScheme, TwoToOneCRHScheme};
use ark_groups::ff::{Field, Fp, M257};
use ark_paths::{Config, IdentityDigestConverter};
use rand::Rng;
use std::alloc::Global;

/// Trees of numbers below 257, which can be reckoned by hand.
pub struct Toy;

impl Config for Toy {
    type Leaf = u64;

    type LeafDigest = Fp<M257>;

    type LeafInnerDigestConverter = IdentityDigestConverter<Fp<M257>>;

    type InnerDigest = Fp<M257>;

    type LeafHash = ToyLeafHash;

    type TwoToOneHash = ToyPairHash;
}

/// A number modulo 257. Refusal: `Custom(1)` for 999.
pub struct ToyLeafHash;

impl CRHScheme for ToyLeafHash {
    type Input = u64;

    type Output = Fp<M257>;

    type Parameters = ();

    ghost meaning = { λ _ leaf. toy_leaf leaf };

    ghost setup_outcome = { Ok };

    ghost is_made = { λ _ _. Unit {0} };

    fn setup<R: Rng>(_alloc: Global, _rng: &mut R) -> Result<(), Error> {
        Ok(())
    }

    /// Errors: `Custom(1)` for 999.
    fn evaluate(_alloc: Global, _parameters: &(), input: &u64) -> Result<Fp<M257>, Error> {
        if *input == 999 {
            return Err(Error::GenericError(Refusal::Custom(1)));
        }
        Ok(Fp::from_u64(*input))
    }

    ghost meaning_decided = { λ _ leaf. toy_leaf-decided leaf };

    ghost setup_decided = { λ _. tt };

    ghost made_alike = { λ _ p q _ _. refl };

    ghost same_parameters = { λ p q same. refl };
}

/// The first number and twice the second, modulo 257.
pub struct ToyPairHash;

impl TwoToOneCRHScheme for ToyPairHash {
    type Input = Fp<M257>;

    type Output = Fp<M257>;

    type Parameters = ();

    ghost evaluated = { λ _ left right. toy_pair left right };

    ghost compressed = { λ _ left right. toy_pair left right };

    ghost setup_outcome = { Ok };

    ghost is_made = { λ _ _. Unit {0} };

    fn setup<R: Rng>(_alloc: Global, _rng: &mut R) -> Result<(), Error> {
        Ok(())
    }

    fn evaluate(
        _alloc: Global,
        _parameters: &(),
        left: &Fp<M257>,
        right: &Fp<M257>,
    ) -> Result<Fp<M257>, Error> {
        Ok(Field::add(*left, Field::double(*right)))
    }

    fn compress(
        alloc: Global,
        parameters: &(),
        left: &Fp<M257>,
        right: &Fp<M257>,
    ) -> Result<Fp<M257>, Error> {
        <ToyPairHash as TwoToOneCRHScheme>::evaluate(alloc, parameters, left, right)
    }

    ghost evaluated_decided = { λ _ _ _. tt };

    ghost compressed_decided = { λ _ _ _. tt };

    ghost setup_decided = { λ _. tt };

    ghost made_alike = { λ _ p q _ _. refl };

    ghost evaluated_same = { λ p q same. refl };

    ghost compressed_same = { λ p q same. refl };
}
