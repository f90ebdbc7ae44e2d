//! A type of one's own that sponges absorb: its fields, one behind the other.

ghost use Rattle.std.specs.Prelude.{◌++◌};
ghost use Rattle.std.specs.Int.{w64, to_le_bytes};
ghost use Rattle.ark_crypto_primitives.specs.Words.{batch_by_item, elements_then, number_element};

use ark_crypto_primitives::Error;
use ark_crypto_primitives::ff::Field;
use ark_crypto_primitives::sponge::{Absorb, AbsorbItem, push_elements_by_item};

/// An amount, and who gets it.
#[derive(Clone, Copy)]
pub struct Payment {
    pub amount: u64,
    pub payee: u64,
}

impl AbsorbItem for Payment {
    ghost sponge_bytes = { λ payment.
        to_le_bytes w64 payment.amount ++ to_le_bytes w64 payment.payee };

    ghost sponge_elements = { λ payment modulus bits.
        elements_then (number_element payment.amount modulus bits)
        (number_element payment.payee modulus bits) };

    fn push_bytes(&self, dest: &mut Vec<u8>) -> Result<(), Error> {
        let start = dest.len();
        self.amount.push_bytes(dest)?;
        if let Err(refusal) = self.payee.push_bytes(dest) {
            dest.truncate(start);
            return Err(refusal);
        }
        Ok(())
    }

    fn push_elements<F: Field>(&self, dest: &mut Vec<F>) -> Result<(), Error> {
        let start = dest.len();
        self.amount.push_elements(dest)?;
        if let Err(refusal) = self.payee.push_elements(dest) {
            dest.truncate(start);
            return Err(refusal);
        }
        Ok(())
    }
}

impl Absorb for Payment {
    ghost batch_elements = { batch_by_item ⟦<Payment as AbsorbItem>⟧.sponge_elements };

    fn batch_to_sponge_field_elements<F: Field>(
        batch: &[Self],
        dest: &mut Vec<F>,
    ) -> Result<(), Error> {
        push_elements_by_item(batch, dest)
    }
}
