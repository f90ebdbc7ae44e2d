//! A group of one's own: shifts by a number below a modulus.

ghost use Rattle.std.specs.Prelude.{◌≡◌};

use crate::bounds::number::Number;
use ark_crypto_primitives::Error;
use ark_crypto_primitives::ec::AdditiveGroup;
use ark_crypto_primitives::ff::{Field, Fp, Modulus, UniformRand};
use ark_crypto_primitives::serialize::{
    Canonical, CanonicalDeserialize, CanonicalItem, CanonicalSerialize, DigestItem, Duplicate,
    Numbered, ReadBack,
};
use rand::Rng;
use std::alloc::Global;
use std::fmt;

/// A shift by a number.
#[derive_where(Clone, Copy, PartialEq, Eq, Hash, Default)]
pub struct Shift<M: Modulus>(pub Fp<M>);

/// The number in decimal.
impl<M: Modulus> fmt::Debug for Shift<M> {
    fn fmt<W: fmt::Write>(&self, f: &mut fmt::Formatter<W>) -> fmt::Result {
        write!(f, "{:?}", self.0)
    }
}

impl<M: Modulus> AdditiveGroup for Shift<M> {
    ghost use Rattle.examples.specs.Shifts.{shifts, shift_laws, shift_order, same_wrapped, same_shift, is_none, shift-Decides, wrapping};
    ghost use Rattle.rand.specs.Draw.{draw_map};

    type ScalarField = Number<M>;

    type Sum = Shift<M>;

    ghost group = { shifts };

    ghost draw = { draw_map wrapping.wrap ⟦<Fp<M> as UniformRand>⟧.draw };

    ghost total = { λ sum. sum };

    fn zero() -> Shift<M> {
        Shift(Fp::zero())
    }

    fn add(self, other: Shift<M>) -> Shift<M> {
        Shift(self.0.add(other.0))
    }

    fn neg(self) -> Shift<M> {
        Shift(self.0.neg())
    }

    fn mul(self, s: Number<M>) -> Shift<M> {
        Shift(s.0.mul(self.0))
    }

    fn to_sum(self) -> Shift<M> {
        self
    }

    fn add_sums(a: Shift<M>, b: Shift<M>) -> Shift<M> {
        a.add(b)
    }

    fn from_sum(sum: Shift<M>) -> Shift<M> {
        sum
    }

    fn rand<R: Rng>(rng: &mut R) -> Shift<M> {
        Shift(Fp::rand(rng))
    }

    ghost laws = { shift_laws };

    ghost order = { shift_order };

    ghost equal_if_same = { shift-Decides };

    ghost clones = { λ x y same. same_wrapped x y same };

    ghost clones_always = { λ x. tt };

    ghost default_is_zero = { λ x zero. is_none x zero };

    ghost is_spelled = { λ x. x.0.reduced };

    ghost same_view = { same_shift };
}

impl<M: Modulus> Canonical for Shift<M> {
    ghost Value = { ⟦<Fp<M> as Canonical>⟧.Value };

    ghost view = { λ x. ⟦<Fp<M> as Canonical>⟧.view x.0 };

    ghost has_spelling = { ⟦<Fp<M> as Canonical>⟧.has_spelling };

    ghost spelling = { ⟦<Fp<M> as Canonical>⟧.spelling };

    ghost reads = { ⟦<Fp<M> as Canonical>⟧.reads };

    ghost laws = { ⟦<Fp<M> as Canonical>⟧.laws };
}

impl<M: Modulus> CanonicalSerialize for Shift<M> {
    fn serialize(&self, dest: &mut Vec<u8>) -> Result<(), Error> {
        self.0.serialize(dest)
    }
}

impl<M: Modulus> CanonicalDeserialize for Shift<M> {
    /// Errors: `Truncated`, then `InvalidData` of the modulus or more.
    fn read(alloc: Global, bytes: &[u8]) -> Result<(Shift<M>, usize), Error> {
        let (number, used) = Fp::read(alloc, bytes)?;
        Ok((Shift(number), used))
    }
}

impl<M: Modulus> CanonicalItem for Shift<M> {
    ghost use Rattle.ark_groups.specs.Laws.Field.{field_modulus};
    ghost use Rattle.ark_groups.specs.Laws.Fp.{some_bytes, as_long};

    ghost LEAST = { ⟦<Fp<M> as CanonicalItem>⟧.LEAST };

    const LEAST: usize = <Fp<M> as CanonicalItem>::LEAST;

    ghost some = { some_bytes M.P M.BITS (field_modulus M.P M.BITS M.laws) };

    ghost at_least = { λ n fits. as_long M.BITS n };
}

impl<M: Modulus> Numbered for Shift<M> {
    ghost numbers = { λ x. ⟦<Fp<M> as Numbered>⟧.numbers x.0 };
}

impl<M: Modulus> Duplicate for Shift<M> {
    ghost Data = { ⟦<Fp<M> as Duplicate>⟧.Data };

    ghost seen = { λ x. ⟦<Fp<M> as Duplicate>⟧.seen x.0 };

    fn duplicate(&self, _alloc: Global) -> Result<Shift<M>, Error> {
        Ok(*self)
    }
}

impl<M: Modulus> ReadBack for Shift<M> {
    ghost same_seen = { λ x y same. same };
}

impl<M: Modulus> DigestItem for Shift<M> {
    ghost use Rattle.std.specs.Prelude.{refl};
    ghost use Rattle.ark_groups.specs.Laws.Fp.{one-Decides, one_alike, number_again};

    ghost blank_numbers = { ⟦<Fp<M> as DigestItem>⟧.blank_numbers };

    ghost bytes_of = { ⟦<Fp<M> as DigestItem>⟧.bytes_of };

    ghost numbers_of = { ⟦<Fp<M> as DigestItem>⟧.numbers_of };

    fn blank(alloc: Global) -> Shift<M> {
        Shift(Fp::blank(alloc))
    }

    ghost equal_if_same = { λ x y. one-Decides x.0.value y.0.value };

    ghost seen_alike = { λ x y. one_alike x.0.value y.0.value };

    ghost bytes_are = { λ x. refl };

    ghost numbers_are = { λ x. number_again M.P M.BITS M.laws.digits x.0.value x.0.reduced };
}
