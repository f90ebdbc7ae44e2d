//! The canonical bytes of parameters: their fields in turn.

ghost use Rattle.ark_sponge.specs.Permutation.{Parameters};
ghost use Rattle.ark_sponge.specs.ConfigBytes.{IsSpelled, parameters_spelling, parameters_at};

use crate::poseidon::config::PoseidonConfig;
use ark_base::error::{Error, SerializationError};
use ark_base::serialize::{
    Canonical, CanonicalDeserialize, CanonicalItem, CanonicalSerialize, ReadBack,
};
use ark_groups::ff::Field;
use std::alloc::Global;

// Full rounds, partial rounds, exponent, constants, matrix, rate and capacity.
type Fields<F> = (
    usize,
    (usize, (u64, (Vec<Vec<F>>, (Vec<Vec<F>>, (usize, usize))))),
);

impl<F: Field> Canonical for PoseidonConfig<F> {
    ghost use Rattle.ark_sponge.specs.Laws.ConfigBytes.{parameters_laws};

    ghost Value = { Parameters };

    ghost view = { λ parameters. parameters };

    ghost has_spelling = { IsSpelled F.MODULUS F.MODULUS_BIT_SIZE };

    ghost spelling = { parameters_spelling F.MODULUS_BIT_SIZE };

    ghost reads = { parameters_at F.MODULUS F.MODULUS_BIT_SIZE };

    ghost laws = { parameters_laws F.MODULUS F.MODULUS_BIT_SIZE F.modulus_laws };
}

impl<F: Field> CanonicalSerialize for PoseidonConfig<F> {
    fn serialize(&self, dest: &mut Vec<u8>) -> Result<(), Error> {
        // The call tells the proof that `new` took these parameters.
        let _known = self.rate();
        let shape = (&self.rate, &self.capacity);
        let rows = (&self.ark, (&self.mds, shape));
        let fields = (
            &self.full_rounds,
            (&self.partial_rounds, (&self.alpha, rows)),
        );
        fields.serialize(dest)
    }
}

impl<F: Field> CanonicalDeserialize for PoseidonConfig<F> {
    fn read(alloc: Global, bytes: &[u8]) -> Result<(PoseidonConfig<F>, usize), Error> {
        let (fields, used) = Fields::<F>::read(alloc, bytes)?;
        let (full_rounds, (partial_rounds, (alpha, (ark, (mds, (rate, capacity)))))) = fields;
        match PoseidonConfig::plain(full_rounds, partial_rounds, alpha, mds, ark, rate, capacity) {
            Ok(parameters) => Ok((parameters, used)),
            Err(_) => Err(Error::SerializationError(SerializationError::InvalidData)),
        }
    }
}

impl<F: Field> CanonicalItem for PoseidonConfig<F> {
    ghost use Rattle.std.proofs.Common.{lit<};
    ghost use Rattle.ark_sponge.specs.Laws.ConfigBytes.{parameters_are_long};

    ghost LEAST = { 56 };

    const LEAST: usize = 56;

    ghost some = { lit< tt };

    ghost at_least = { λ parameters fits. parameters_are_long F.MODULUS_BIT_SIZE parameters };
}

impl<F: Field> ReadBack for PoseidonConfig<F> {
    ghost same_seen = { λ p q same. same };
}
