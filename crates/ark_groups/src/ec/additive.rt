//! The numbers below a modulus under addition.

ghost use Rattle.std.specs.Prelude.{◌≡◌};

use crate::ec::{AdditiveGroup, FixedBaseGroup};
use crate::ff::{Field, Fp, Modulus, UniformRand};
use ark_base::error::Error;
use ark_base::serialize::{
    Canonical, CanonicalDeserialize, CanonicalItem, CanonicalSerialize, DigestItem, Duplicate,
    Numbered, ReadBack,
};
use rand::Rng;
use std::alloc::Global;
use std::fmt;
use std::marker::PhantomData;

/// A number below `M::P`, as an element of the group of these numbers under addition. `K` tells such groups apart.
#[derive_where(Clone, Copy, PartialEq, Eq, Hash, Default)]
pub struct Additive<M: Modulus, K>(pub Fp<M>, #[derive_where(skip)] PhantomData<K>);

/// The kind of elements that have no coordinates.
pub struct WithoutCoordinates;

/// The numbers below `M::P` and nothing else.
pub type Residues<M> = Additive<M, WithoutCoordinates>;

impl<M: Modulus, K> Additive<M, K> {
    /// Returns the element that a number is.
    pub fn new(number: Fp<M>) -> Additive<M, K>
        ensures { result.0 ≡ number }
    {
        Additive(number, PhantomData)
    }
}

/// The number in decimal.
impl<M: Modulus, K> fmt::Debug for Additive<M, K> {
    fn fmt<W: fmt::Write>(&self, f: &mut fmt::Formatter<W>) -> fmt::Result {
        write!(f, "{:?}", self.0)
    }
}

impl<M: Modulus, K> AdditiveGroup for Additive<M, K> {
    ghost use Rattle.ark_groups.specs.Laws.NumberGroups.{number_group, number_laws, number_order, same_element, same_number, is_identity, number-Decides};
    ghost use Rattle.ark_groups.specs.Laws.NumberGroups.{wrapping};
    ghost use Rattle.rand.specs.Draw.{draw_map};

    type ScalarField = Fp<M>;

    type Sum = Additive<M, K>;

    ghost group = { number_group };

    ghost draw = { draw_map wrapping.wrap ⟦<Fp<M> as UniformRand>⟧.draw };

    ghost total = { λ sum. sum };

    fn zero() -> Additive<M, K> {
        Additive::new(Fp::zero())
    }

    fn add(self, other: Additive<M, K>) -> Additive<M, K> {
        Additive::new(self.0.add(other.0))
    }

    fn neg(self) -> Additive<M, K> {
        Additive::new(self.0.neg())
    }

    fn mul(self, s: Fp<M>) -> Additive<M, K> {
        Additive::new(s.mul(self.0))
    }

    fn to_sum(self) -> Additive<M, K> {
        self
    }

    fn add_sums(a: Additive<M, K>, b: Additive<M, K>) -> Additive<M, K> {
        a.add(b)
    }

    fn from_sum(sum: Additive<M, K>) -> Additive<M, K> {
        sum
    }

    fn rand<R: Rng>(rng: &mut R) -> Additive<M, K> {
        Additive::new(Fp::rand(rng))
    }

    ghost laws = { number_laws };

    ghost order = { number_order };

    ghost equal_if_same = { number-Decides };

    ghost clones = { λ x y same. same_element x y same.0 };

    ghost clones_always = { λ x. (tt, tt) };

    ghost default_is_zero = { λ x zero. is_identity x zero.0 };

    ghost is_spelled = { λ x. x.0.reduced };

    ghost same_view = { same_number };
}

/// The table of an element is the element: a product takes no less time by another.
impl<M: Modulus, K> FixedBaseGroup for Additive<M, K> {
    type Table = Additive<M, K>;

    ghost base = { λ table. table };

    fn table(self, _alloc: Global) -> Result<Additive<M, K>, Error> {
        Ok(self)
    }

    fn mul_by_table(table: &Additive<M, K>, s: Fp<M>) -> Additive<M, K> {
        table.mul(s)
    }
}

impl<M: Modulus, K> Canonical for Additive<M, K> {
    ghost Value = { ⟦<Fp<M> as Canonical>⟧.Value };

    ghost view = { λ x. ⟦<Fp<M> as Canonical>⟧.view x.0 };

    ghost has_spelling = { ⟦<Fp<M> as Canonical>⟧.has_spelling };

    ghost spelling = { ⟦<Fp<M> as Canonical>⟧.spelling };

    ghost reads = { ⟦<Fp<M> as Canonical>⟧.reads };

    ghost laws = { ⟦<Fp<M> as Canonical>⟧.laws };
}

impl<M: Modulus, K> CanonicalSerialize for Additive<M, K> {
    fn serialize(&self, dest: &mut Vec<u8>) -> Result<(), Error> {
        self.0.serialize(dest)
    }
}

impl<M: Modulus, K> CanonicalDeserialize for Additive<M, K> {
    /// Errors: `Truncated`, then `InvalidData` of the modulus or more.
    fn read(alloc: Global, bytes: &[u8]) -> Result<(Additive<M, K>, usize), Error> {
        let (number, used) = Fp::read(alloc, bytes)?;
        Ok((Additive::new(number), used))
    }
}

impl<M: Modulus, K> CanonicalItem for Additive<M, K> {
    ghost use Rattle.ark_groups.specs.Laws.Field.{field_modulus};
    ghost use Rattle.ark_groups.specs.Laws.Fp.{some_bytes, as_long};

    ghost LEAST = { ⟦<Fp<M> as CanonicalItem>⟧.LEAST };

    const LEAST: usize = <Fp<M> as CanonicalItem>::LEAST;

    ghost some = { some_bytes M.P M.BITS (field_modulus M.P M.BITS M.laws) };

    ghost at_least = { λ n fits. as_long M.BITS n };
}

impl<M: Modulus, K> Numbered for Additive<M, K> {
    ghost numbers = { λ x. ⟦<Fp<M> as Numbered>⟧.numbers x.0 };
}

impl<M: Modulus, K> Duplicate for Additive<M, K> {
    ghost Data = { ⟦<Fp<M> as Duplicate>⟧.Data };

    ghost seen = { λ x. ⟦<Fp<M> as Duplicate>⟧.seen x.0 };

    fn duplicate(&self, _alloc: Global) -> Result<Additive<M, K>, Error> {
        Ok(*self)
    }
}

impl<M: Modulus, K> ReadBack for Additive<M, K> {
    ghost same_seen = { λ x y same. same };
}

impl<M: Modulus, K> DigestItem for Additive<M, K> {
    ghost use Rattle.std.specs.Prelude.{refl};
    ghost use Rattle.ark_groups.specs.Laws.Fp.{one-Decides, one_alike, number_again};

    ghost blank_numbers = { ⟦<Fp<M> as DigestItem>⟧.blank_numbers };

    ghost bytes_of = { ⟦<Fp<M> as DigestItem>⟧.bytes_of };

    ghost numbers_of = { ⟦<Fp<M> as DigestItem>⟧.numbers_of };

    fn blank(alloc: Global) -> Additive<M, K> {
        Additive::new(Fp::blank(alloc))
    }

    ghost equal_if_same = { λ x y. one-Decides x.0.value y.0.value };

    ghost seen_alike = { λ x y. one_alike x.0.value y.0.value };

    ghost bytes_are = { λ x. refl };

    ghost numbers_are = { λ x. number_again M.P M.BITS M.laws.digits x.0.value x.0.reduced };
}
