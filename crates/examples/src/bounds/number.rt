//! A field of one's own: the numbers below a modulus, wrapped.

ghost use Rattle.std.specs.Prelude.{◌≡◌};

use ark_crypto_primitives::Error;
use ark_crypto_primitives::ff::{Field, Fp, Modulus, PrimeField, UniformRand, Valued, Words};
use ark_crypto_primitives::serialize::{
    Canonical, CanonicalDeserialize, CanonicalItem, CanonicalSerialize, Numbered,
};
use rand::Rng;
use std::alloc::Global;
use std::fmt;

/// A number below `M::P`.
#[derive_where(Clone, Copy, PartialEq, Eq, Hash, Default)]
pub struct Number<M: Modulus>(pub Fp<M>);

/// The number in decimal.
impl<M: Modulus> fmt::Debug for Number<M> {
    fn fmt<W: fmt::Write>(&self, f: &mut fmt::Formatter<W>) -> fmt::Result {
        write!(f, "{:?}", self.0)
    }
}

impl<M: Modulus> UniformRand for Number<M> {
    ghost use Rattle.rand.specs.Draw.{draw_map};
    ghost use Rattle.examples.specs.Numbers.{number_of};

    ghost draw = { draw_map number_of ⟦<Fp<M> as UniformRand>⟧.draw };

    fn rand<R: Rng>(rng: &mut R) -> Number<M> {
        Number(Fp::rand(rng))
    }
}

impl<M: Modulus> Valued for Number<M> {
    ghost bits = { M.BITS };

    ghost value = { λ x. x.0.value };
}

impl<M: Modulus> Canonical for Number<M> {
    ghost Value = { ⟦<Fp<M> as Canonical>⟧.Value };

    ghost view = { λ x. ⟦<Fp<M> as Canonical>⟧.view x.0 };

    ghost has_spelling = { ⟦<Fp<M> as Canonical>⟧.has_spelling };

    ghost spelling = { ⟦<Fp<M> as Canonical>⟧.spelling };

    ghost reads = { ⟦<Fp<M> as Canonical>⟧.reads };

    ghost laws = { ⟦<Fp<M> as Canonical>⟧.laws };
}

impl<M: Modulus> CanonicalSerialize for Number<M> {
    fn serialize(&self, dest: &mut Vec<u8>) -> Result<(), Error> {
        self.0.serialize(dest)
    }
}

impl<M: Modulus> CanonicalDeserialize for Number<M> {
    fn read(alloc: Global, bytes: &[u8]) -> Result<(Number<M>, usize), Error> {
        let (number, used) = Fp::read(alloc, bytes)?;
        Ok((Number(number), used))
    }
}

impl<M: Modulus> CanonicalItem for Number<M> {
    ghost use Rattle.ark_groups.specs.Laws.Field.{field_modulus};
    ghost use Rattle.ark_groups.specs.Laws.Fp.{some_bytes, as_long};

    ghost LEAST = { ⟦<Fp<M> as CanonicalItem>⟧.LEAST };

    const LEAST: usize = <Fp<M> as CanonicalItem>::LEAST;

    ghost some = { some_bytes M.P M.BITS (field_modulus M.P M.BITS M.laws) };

    ghost at_least = { λ n fits. as_long M.BITS n };
}

impl<M: Modulus> Numbered for Number<M> {
    ghost numbers = { λ x. ⟦<Fp<M> as Numbered>⟧.numbers x.0 };
}

impl<M: Modulus> Field for Number<M> {
    ghost use Rattle.ark_groups.specs.Laws.Field.{field_modulus};
    ghost use Rattle.examples.specs.Numbers.{own_laws, own-Decides, own_reads, same_own};
    ghost use Rattle.std.specs.Prelude.{refl};

    ghost MODULUS = { M.P };

    ghost MODULUS_BIT_SIZE = { M.BITS };

    const MODULUS_BIT_SIZE: u32 = M::BITS;

    ghost modulus_laws = { field_modulus M.P M.BITS M.laws };

    fn modulus() -> Words {
        <Fp<M> as Field>::modulus()
    }

    fn zero() -> Number<M> {
        Number(Fp::zero())
    }

    fn one() -> Number<M> {
        Number(Fp::one())
    }

    fn add(self, other: Number<M>) -> Number<M> {
        Number(self.0.add(other.0))
    }

    fn sub(self, other: Number<M>) -> Number<M> {
        Number(self.0.sub(other.0))
    }

    fn neg(self) -> Number<M> {
        Number(self.0.neg())
    }

    fn mul(self, other: Number<M>) -> Number<M> {
        Number(self.0.mul(other.0))
    }

    fn sum_of_products(xs: &[Number<M>], ys: &[Number<M>]) -> Number<M> {
        let mut sum = Fp::zero();
        for (i, x) in xs.iter().enumerate() {
            sum = sum.add(x.0.mul(ys[i].0));
        }
        Number(sum)
    }

    fn double(self) -> Number<M> {
        Number(self.0.double())
    }

    fn words(self) -> Words {
        self.0.words()
    }

    fn from_words(words: Words) -> Number<M> {
        Number(Fp::from_words(words))
    }

    fn from_u64(number: u64) -> Number<M> {
        Number(Fp::from_u64(number))
    }

    fn from_u128(number: u128) -> Number<M> {
        Number(Fp::from_u128(number))
    }

    fn from_le_bytes_mod_order(bytes: &[u8]) -> Number<M> {
        Number(Fp::from_le_bytes_mod_order(bytes))
    }

    fn from_random_bytes(bytes: &[u8]) -> Option<Number<M>> {
        match <Fp<M> as Field>::from_random_bytes(bytes) {
            Some(number) => Some(Number(number)),
            None => None,
        }
    }

    ghost laws = { own_laws };

    ghost bits_are = { refl };

    ghost equal_if_same = { own-Decides };

    ghost clones = { λ x y same. same_own x y same };

    ghost clones_always = { λ x. tt };

    ghost default_is_zero = { λ x zero. zero };

    ghost numbers_are = { λ x. refl };

    ghost is_spelled = { λ x. x.0.reduced };

    ghost spelling_is = { λ x. refl };

    ghost reading_refuses = { λ bytes fault refused. refused };

    ghost reads_numbers = { own_reads };
}

impl<M: Modulus> PrimeField for Number<M> {
    ghost use Rattle.std.specs.Prelude.{refl};

    ghost MODULUS = { M.P };

    const MODULUS: u64 = M::P;

    fn value(self) -> u64 {
        self.0.value()
    }

    ghost modulus_is = { refl };
}
