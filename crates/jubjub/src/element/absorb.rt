//! Elements as a sponge absorbs them: as their two coordinates.

ghost use Rattle.ark_absorb.specs.Elements.{batch_by_item, point_bytes, point_elements};
ghost use Rattle.jubjub.specs.Elements.{coordinates};
ghost use Rattle.jubjub.specs.Jubjub.{p};

use crate::element::Jubjub;
use ark_absorb::{Absorb, AbsorbItem, push_elements_by_item};
use ark_base::error::Error;
use ark_groups::ec::TEPoint;
use ark_groups::ff::Field;

/// As its `TEPoint`: 32 bytes of each coordinate; the two as elements of the base field.
impl AbsorbItem for Jubjub {
    ghost sponge_bytes = { λ e. point_bytes 255 (coordinates e).x (coordinates e).y };

    ghost sponge_elements = { λ e. point_elements p (coordinates e).x (coordinates e).y };

    fn push_bytes(&self, dest: &mut Vec<u8>) -> Result<(), Error> {
        TEPoint(*self).push_bytes(dest)
    }

    /// Errors: `ForeignField` where the target has another modulus; `OutOfMemory`.
    fn push_elements<F: Field>(&self, dest: &mut Vec<F>) -> Result<(), Error> {
        TEPoint(*self).push_elements(dest)
    }
}

impl Absorb for Jubjub {
    ghost batch_elements = { batch_by_item ⟦<Jubjub as AbsorbItem>⟧.sponge_elements };

    fn batch_to_sponge_field_elements<F: Field>(
        batch: &[Self],
        dest: &mut Vec<F>,
    ) -> Result<(), Error> {
        push_elements_by_item(batch, dest)
    }
}
