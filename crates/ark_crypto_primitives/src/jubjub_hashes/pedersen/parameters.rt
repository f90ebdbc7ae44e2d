//! The parameters of a Pedersen hash over Jubjub.

use ark_base::error::Error;
use ark_base::serialize::{
    Canonical, CanonicalDeserialize, CanonicalSerialize, Duplicate, ReadBack,
};
use ark_pedersen::Parameters;
use jubjub::Jubjub;
use std::alloc::Global;

/// The elements of a hash: a list for each window, with an element for each of its bits.
#[derive(Drop)]
pub struct PedersenParameters {
    pub parameters: Parameters<Jubjub>,
}

impl Duplicate for PedersenParameters {
    ghost Data = { ⟦<Parameters<Jubjub> as Duplicate>⟧.Data };

    ghost seen = { λ p. ⟦<Parameters<Jubjub> as Duplicate>⟧.seen p.parameters };

    fn duplicate(&self, alloc: Global) -> Result<PedersenParameters, Error> {
        let parameters = self.parameters.duplicate(alloc)?;
        Ok(PedersenParameters { parameters })
    }
}

impl Canonical for PedersenParameters {
    ghost Value = { ⟦<Parameters<Jubjub> as Canonical>⟧.Value };

    ghost view = { λ p. ⟦<Parameters<Jubjub> as Canonical>⟧.view p.parameters };

    ghost has_spelling = { ⟦<Parameters<Jubjub> as Canonical>⟧.has_spelling };

    ghost spelling = { ⟦<Parameters<Jubjub> as Canonical>⟧.spelling };

    ghost reads = { ⟦<Parameters<Jubjub> as Canonical>⟧.reads };

    ghost laws = { ⟦<Parameters<Jubjub> as Canonical>⟧.laws };
}

impl CanonicalSerialize for PedersenParameters {
    fn serialize(&self, dest: &mut Vec<u8>) -> Result<(), Error> {
        self.parameters.serialize(dest)
    }
}

impl CanonicalDeserialize for PedersenParameters {
    fn read(alloc: Global, bytes: &[u8]) -> Result<(PedersenParameters, usize), Error> {
        let (parameters, used) = Parameters::<Jubjub>::read(alloc, bytes)?;
        Ok((PedersenParameters { parameters }, used))
    }
}

impl ReadBack for PedersenParameters {
    ghost use Rattle.jubjub.specs.Elements.{coordinates};
    ghost use Rattle.jubjub.specs.Laws.Elements.{same_element};
    ghost use Rattle.ark_pedersen.specs.Laws.Pedersen.{lists_in-same};

    ghost same_seen = { λ p q.
        lists_in-same coordinates same_element
        p.parameters.generators.items q.parameters.generators.items };
}
