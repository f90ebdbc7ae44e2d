//! The generators of a Bowe-Hopwood hash.

ghost use Rattle.std.specs.Prelude.{List};
ghost use Rattle.ark_pedersen.specs.Pedersen.{lists_in};

use ark_base::error::Error;
use ark_base::serialize::{
    Canonical, CanonicalDeserialize, CanonicalItem, CanonicalSerialize, Duplicate, ReadBack,
};
use ark_groups::ec::AdditiveGroup;
use std::alloc::Global;
use std::fmt;

/// The elements of a hash: a list for each window, with an element for each of its chunks.
#[derive(Drop)]
pub struct Parameters<G: AdditiveGroup> {
    pub generators: Vec<Vec<G>>,
}

impl<G: AdditiveGroup> Duplicate for Parameters<G> {
    ghost Data = { List (List G) };

    ghost seen = { λ parameters. lists_in parameters.generators.items };

    fn duplicate(&self, _alloc: Global) -> Result<Parameters<G>, Error> {
        let generators = self.generators.clone()?;
        Ok(Parameters { generators })
    }
}

impl<G: AdditiveGroup> Canonical for Parameters<G> {
    ghost Value = { ⟦<Vec<Vec<G>> as Canonical>⟧.Value };

    ghost view = { λ parameters. ⟦<Vec<Vec<G>> as Canonical>⟧.view parameters.generators };

    ghost has_spelling = { ⟦<Vec<Vec<G>> as Canonical>⟧.has_spelling };

    ghost spelling = { ⟦<Vec<Vec<G>> as Canonical>⟧.spelling };

    ghost reads = { ⟦<Vec<Vec<G>> as Canonical>⟧.reads };

    ghost laws = { ⟦<Vec<Vec<G>> as Canonical>⟧.laws };
}

impl<G: AdditiveGroup> CanonicalSerialize for Parameters<G> {
    fn serialize(&self, dest: &mut Vec<u8>) -> Result<(), Error> {
        self.generators.serialize(dest)
    }
}

impl<G: AdditiveGroup> CanonicalDeserialize for Parameters<G> {
    fn read(alloc: Global, bytes: &[u8]) -> Result<(Parameters<G>, usize), Error> {
        let (generators, used) = Vec::read(alloc, bytes)?;
        Ok((Parameters { generators }, used))
    }
}

impl<G: AdditiveGroup> CanonicalItem for Parameters<G> {
    ghost use Rattle.std.proofs.Common.{lit<};
    ghost use Rattle.ark_base.specs.Laws.Lists.{counted_list_is_long};

    ghost LEAST = { 8 };

    const LEAST: usize = 8;

    ghost some = { lit< tt };

    ghost at_least = { λ lists fits. counted_list_is_long ⟦<Vec<G> as Canonical>⟧.spelling lists };
}

impl<G: AdditiveGroup> ReadBack for Parameters<G> {
    ghost use Rattle.ark_pedersen.specs.Laws.Pedersen.{lists_in-same};

    ghost same_seen = { λ p q.
        lists_in-same G.view G.same_view p.generators.items q.generators.items };
}

impl<G: AdditiveGroup> fmt::Debug for Parameters<G> {
    fn fmt<W: fmt::Write>(&self, f: &mut fmt::Formatter<W>) -> fmt::Result {
        writeln!(f, "Bowe-Hopwood-Pedersen Hash Parameters {{")?;
        for (i, list) in self.generators.iter().enumerate() {
            writeln!(f, "\t  Generator {i}: {list:?}")?;
        }
        writeln!(f, "}}")
    }
}
