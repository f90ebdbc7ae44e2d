//! The canonical bytes of parameters: their fields in turn.

ghost use Rattle.std.specs.Prelude.{◌≡◌, map, Ok};
ghost use Rattle.ark_base.specs.Outcome.{AnswersBy};
ghost use Rattle.poseidon2.specs.Permutation.{Poseidon2Parameters};
ghost use Rattle.poseidon2.specs.ConfigBytes.{IsPoseidon2Spelled, poseidon2_spelling, poseidon2_at};

use crate::config::Poseidon2Config;
use ark_base::error::{Error, SerializationError};
use ark_base::serialize::{
    Canonical, CanonicalDeserialize, CanonicalSerialize, Duplicate, ReadBack,
};
use ark_groups::ff::Field;
use std::alloc::Global;

// Exponent, first rows, partial constants, last rows and diagonal.
type Fields<F> = (u64, (Vec<Vec<F>>, (Vec<F>, (Vec<Vec<F>>, Vec<F>))));

impl<F: Field> Canonical for Poseidon2Config<F> {
    ghost use Rattle.poseidon2.specs.Laws.ConfigBytes.{poseidon2_laws};

    ghost Value = { Poseidon2Parameters };

    ghost view = { λ parameters. parameters };

    ghost has_spelling = { IsPoseidon2Spelled F.MODULUS };

    ghost spelling = { poseidon2_spelling F.MODULUS_BIT_SIZE };

    ghost reads = { poseidon2_at F.MODULUS F.MODULUS_BIT_SIZE };

    ghost laws = { poseidon2_laws F.MODULUS F.MODULUS_BIT_SIZE F.modulus_laws };
}

impl<F: Field> CanonicalSerialize for Poseidon2Config<F> {
    fn serialize(&self, dest: &mut Vec<u8>) -> Result<(), Error> {
        // The call tells the proof that `new` took these parameters.
        let _known = self.width();
        let behind = (&self.partial, (&self.last, &self.diagonal));
        let fields = (&self.alpha, (&self.first, behind));
        fields.serialize(dest)
    }
}

impl<F: Field> CanonicalDeserialize for Poseidon2Config<F> {
    fn read(alloc: Global, bytes: &[u8]) -> Result<(Poseidon2Config<F>, usize), Error> {
        let (fields, used) = Fields::<F>::read(alloc, bytes)?;
        let (alpha, (first, (partial, (last, diagonal)))) = fields;
        match Poseidon2Config::new(alpha, first, partial, last, diagonal) {
            Ok(parameters) => Ok((parameters, used)),
            Err(_) => Err(Error::SerializationError(SerializationError::InvalidData)),
        }
    }
}

impl<F: Field> ReadBack for Poseidon2Config<F> {
    ghost same_seen = { λ p q same. same };
}

// Returns the rows once more.
fn copy_of_rows<F: Field>(rows: &Vec<Vec<F>>) -> Result<Vec<Vec<F>>, Error>
    ensures { AnswersBy (λ copy. map (λ row. map F.value row.items) copy.items)
        (Ok (map (λ row. map F.value row.items) rows.now.items)) result }
{
    Ok(rows.clone()?)
}

// Returns the list once more.
fn copy_of_list<F: Field>(alloc: Global, list: &Vec<F>) -> Result<Vec<F>, Error>
    ensures { AnswersBy (λ copy. map F.value copy.items)
        (Ok (map F.value list.now.items)) result }
{
    Ok(Vec::from_slice(alloc, list)?)
}

impl<F: Field> Duplicate for Poseidon2Config<F> {
    ghost Data = { Poseidon2Parameters };

    ghost seen = { λ parameters. parameters };

    fn duplicate(&self, alloc: Global) -> Result<Poseidon2Config<F>, Error> {
        // As in `serialize`.
        let _known = self.width();
        let first = copy_of_rows(&self.first)?;
        let partial = copy_of_list(alloc, &self.partial)?;
        let last = copy_of_rows(&self.last)?;
        let diagonal = copy_of_list(alloc, &self.diagonal)?;
        Poseidon2Config::new(self.alpha, first, partial, last, diagonal)
    }
}
