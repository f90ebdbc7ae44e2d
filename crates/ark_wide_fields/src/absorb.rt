//! Elements of a field as a sponge absorbs them. A target of another modulus is refused, for an empty batch too.

ghost use Rattle.std.specs.Prelude.{map, ◌∷◌, []};
ghost use Rattle.ark_base.specs.Digits.{bytes_of_number, bytes_for};
ghost use Rattle.ark_absorb.specs.Elements.{own_elements};
ghost use Rattle.ark_groups.specs.Words.{number};
ghost use Rattle.ark_wide_fields.specs.Moduli.{value_of};

use crate::fp256::Fp256;
use crate::modulus::WideModulus;
use ark_absorb::{Absorb, AbsorbItem, push_elements_by_item};
use ark_base::error::{Error, Refusal};
use ark_base::serialize::CanonicalSerialize;
use ark_groups::ff::{Field, is_same_field, same_element};

impl<M: WideModulus> AbsorbItem for Fp256<M> {
    ghost sponge_bytes = { λ x. bytes_of_number (bytes_for M.BITS)
        (value_of M.P M.INVERSE x.form) };

    ghost sponge_elements = { λ x. own_elements (number M.P)
        (value_of M.P M.INVERSE x.form ∷ []) };

    fn push_bytes(&self, dest: &mut Vec<u8>) -> Result<(), Error> {
        self.serialize(dest)
    }

    fn push_elements<F: Field>(&self, dest: &mut Vec<F>) -> Result<(), Error> {
        if !is_same_field::<F, Fp256<M>>() {
            return Err(Error::GenericError(Refusal::ForeignField));
        }
        dest.push(same_element::<F, Fp256<M>>(*self))?;
        Ok(())
    }
}

impl<M: WideModulus> Absorb for Fp256<M> {
    ghost batch_elements = { λ xs. own_elements (number M.P)
        (map (λ x. value_of M.P M.INVERSE x.form) xs) };

    fn batch_to_sponge_field_elements<F: Field>(
        batch: &[Fp256<M>],
        dest: &mut Vec<F>,
    ) -> Result<(), Error> {
        if !is_same_field::<F, Fp256<M>>() {
            return Err(Error::GenericError(Refusal::ForeignField));
        }
        push_elements_by_item(batch, dest)
    }
}
