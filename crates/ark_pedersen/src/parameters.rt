//! The generators of a Pedersen hash.

ghost use Rattle.std.specs.Prelude.{List};
ghost use Rattle.ark_pedersen.specs.Pedersen.{generators_in};

use ark_base::error::Error;
use ark_base::serialize::{
    Canonical, CanonicalDeserialize, CanonicalItem, CanonicalSerialize, Duplicate, ReadBack,
};
use ark_groups::ec::AdditiveGroup;
use std::alloc::Global;
use std::fmt;

/// The elements of a hash: a list for each window, with an element for each of its bits.
#[derive(Drop)]
pub struct Parameters<C: AdditiveGroup> {
    pub generators: Vec<Vec<C>>,
}

impl<C: AdditiveGroup> Duplicate for Parameters<C> {
    ghost Data = { List (List C) };

    ghost seen = { generators_in };

    fn duplicate(&self, _alloc: Global) -> Result<Parameters<C>, Error> {
        let generators = self.generators.clone()?;
        Ok(Parameters { generators })
    }
}

impl<C: AdditiveGroup> Canonical for Parameters<C> {
    ghost Value = { ⟦<Vec<Vec<C>> as Canonical>⟧.Value };

    ghost view = { λ parameters. ⟦<Vec<Vec<C>> as Canonical>⟧.view parameters.generators };

    ghost has_spelling = { ⟦<Vec<Vec<C>> as Canonical>⟧.has_spelling };

    ghost spelling = { ⟦<Vec<Vec<C>> as Canonical>⟧.spelling };

    ghost reads = { ⟦<Vec<Vec<C>> as Canonical>⟧.reads };

    ghost laws = { ⟦<Vec<Vec<C>> as Canonical>⟧.laws };
}

impl<C: AdditiveGroup> CanonicalSerialize for Parameters<C> {
    fn serialize(&self, dest: &mut Vec<u8>) -> Result<(), Error> {
        self.generators.serialize(dest)
    }
}

impl<C: AdditiveGroup> CanonicalDeserialize for Parameters<C> {
    fn read(alloc: Global, bytes: &[u8]) -> Result<(Parameters<C>, usize), Error> {
        let (generators, used) = Vec::read(alloc, bytes)?;
        Ok((Parameters { generators }, used))
    }
}

impl<C: AdditiveGroup> CanonicalItem for Parameters<C> {
    ghost use Rattle.std.proofs.Common.{lit<};
    ghost use Rattle.ark_base.specs.Laws.Lists.{counted_list_is_long};

    ghost LEAST = { 8 };

    const LEAST: usize = 8;

    ghost some = { lit< tt };

    ghost at_least = { λ lists fits. counted_list_is_long ⟦<Vec<C> as Canonical>⟧.spelling lists };
}

impl<C: AdditiveGroup> ReadBack for Parameters<C> {
    ghost use Rattle.ark_pedersen.specs.Laws.Pedersen.{lists_in-same};

    ghost same_seen = { λ p q.
        lists_in-same C.view C.same_view p.generators.items q.generators.items };
}

impl<C: AdditiveGroup> fmt::Debug for Parameters<C> {
    fn fmt<W: fmt::Write>(&self, f: &mut fmt::Formatter<W>) -> fmt::Result {
        writeln!(f, "Pedersen Hash Parameters {{")?;
        for (i, list) in self.generators.iter().enumerate() {
            writeln!(f, "\t  Generator {i}: {list:?}")?;
        }
        writeln!(f, "}}")
    }
}
