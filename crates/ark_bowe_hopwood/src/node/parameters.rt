//! The parameters of a hash of two nodes.

ghost use Rattle.ark_pedersen.specs.Pedersen.{lists_in};
ghost use Rattle.ark_bowe_hopwood.specs.Nodes.{Leveled};

use ark_base::error::Error;
use ark_base::serialize::{
    Canonical, CanonicalDeserialize, CanonicalSerialize, Duplicate, ReadBack,
};
use ark_groups::ec::AdditiveGroup;
use std::alloc::Global;

/// A level and the elements of a hash: a list for each window, with an element for each of its chunks.
#[derive(Drop)]
pub struct NodeParameters<G: AdditiveGroup> {
    /// The level of the nodes that are hashed, below 64. That of leaves is 0.
    pub level: u8,
    pub generators: Vec<Vec<G>>,
}

impl<G: AdditiveGroup> Duplicate for NodeParameters<G> {
    ghost Data = { Leveled G };

    ghost seen = { λ parameters.
        record { level = parameters.level; lists = lists_in parameters.generators.items } };

    fn duplicate(&self, _alloc: Global) -> Result<NodeParameters<G>, Error> {
        let generators = self.generators.clone()?;
        Ok(NodeParameters {
            level: self.level,
            generators,
        })
    }
}

/// The level's byte, then the lists.
impl<G: AdditiveGroup> Canonical for NodeParameters<G> {
    ghost Value = { ⟦<(u8, Vec<Vec<G>>) as Canonical>⟧.Value };

    ghost view = { λ parameters. ⟦<(u8, Vec<Vec<G>>) as Canonical>⟧.view
        (parameters.level, parameters.generators) };

    ghost has_spelling = { ⟦<(u8, Vec<Vec<G>>) as Canonical>⟧.has_spelling };

    ghost spelling = { ⟦<(u8, Vec<Vec<G>>) as Canonical>⟧.spelling };

    ghost reads = { ⟦<(u8, Vec<Vec<G>>) as Canonical>⟧.reads };

    ghost laws = { ⟦<(u8, Vec<Vec<G>>) as Canonical>⟧.laws };
}

impl<G: AdditiveGroup> CanonicalSerialize for NodeParameters<G> {
    fn serialize(&self, dest: &mut Vec<u8>) -> Result<(), Error> {
        (self.level, &self.generators).serialize(dest)
    }
}

impl<G: AdditiveGroup> CanonicalDeserialize for NodeParameters<G> {
    /// Errors: those of the lists. A level of 64 or more is read, and refused by the hash.
    fn read(alloc: Global, bytes: &[u8]) -> Result<(NodeParameters<G>, usize), Error> {
        let ((level, generators), used) = <(u8, Vec<Vec<G>>)>::read(alloc, bytes)?;
        Ok((NodeParameters { level, generators }, used))
    }
}

impl<G: AdditiveGroup> ReadBack for NodeParameters<G> {
    ghost use Rattle.ark_bowe_hopwood.specs.Laws.Nodes.{leveled-read_back};

    ghost same_seen = { λ p q.
        leveled-read_back G.view G.same_view p.level q.level
        p.generators.items q.generators.items };
}
