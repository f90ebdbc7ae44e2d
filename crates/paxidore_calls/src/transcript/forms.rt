//! How the elements of parameters stand in their bytes: as their canonical bytes, or by their Montgomery forms.

ghost use Rattle.std.specs.Prelude.{◌≡◌, ℕ, ◌≤◌, ◌++◌, ◌*◌, ◌%◌, ◌^◌, ◌<◌, map, IfErr, OnOk};
ghost use Rattle.std.specs.List.{flat_map};
ghost use Rattle.ark_base.specs.Digits.{bytes_for, bytes_of_number};
ghost use Rattle.ark_base.specs.Outcome.{IsMemory};
ghost use Rattle.ark_base.specs.Reading.{Reads};
ghost use Rattle.ark_base.specs.Spelling.{items_at};
ghost use Rattle.ark_groups.specs.Words.{number};
ghost use Rattle.ark_wide_fields.specs.Values.{value};
ghost use Rattle.paxidore_calls.specs.Forms.{Form, HasForm, divided, scaled_form, own_form};

use crate::transcript::items::{ReadsItem, read_each_item};
use ark_base::error::Error;
use ark_groups::ff::{Field, Words, write_bytes};
use ark_wide_fields::{Fp256, WideModulus, byte_len, read_below};
use std::alloc::Global;

/// A form of the elements of parameters, as they stand in their bytes.
pub trait ElementForm<F: Field> {
    ghost modulus: { ℕ };

    ghost form: { Form };

    // Each number below the modulus has one spelling.
    ghost laws: { HasForm modulus form };

    /// Reads `count` elements, one behind the other, and the count of bytes that they take.
    ///
    /// Errors: the elements' faults, one element behind the other; `OutOfMemory`.
    fn read_elements(alloc: Global, count: u64, bytes: &[u8]) -> Result<(Vec<F>, usize), Error>
        ensures { let reading = items_at form.reads count bytes.now in
            Reads (λ elements. map F.value elements.items) bytes.now reading result };

    /// Appends elements, one behind the other. The only error is `OutOfMemory`.
    fn write_elements(elements: &[F], dest: &mut Vec<u8>) -> Result<(), Error>
        ensures appended { let bytes = flat_map form.spells (map F.value elements.now) in
            OnOk result (dest.new.items ≡ dest.old.items ++ bytes) }
        ensures refused { IfErr result IsMemory };

    // The modulus is that of the field.
    ghost same_modulus: { modulus ≡ F.MODULUS };
}

/// Canonical bytes.
pub struct Own;

impl<F: Field> ElementForm<F> for Own {
    ghost use Rattle.std.specs.Prelude.{refl};
    ghost use Rattle.paxidore_calls.specs.Laws.Forms.{own_form_laws};

    ghost modulus = { F.MODULUS };

    ghost form = { own_form F.MODULUS F.MODULUS_BIT_SIZE };

    ghost laws = { own_form_laws F.MODULUS F.MODULUS_BIT_SIZE F.modulus_laws };

    fn read_elements(alloc: Global, count: u64, bytes: &[u8]) -> Result<(Vec<F>, usize), Error> {
        F::read_items(alloc, count, bytes)
    }

    fn write_elements(elements: &[F], dest: &mut Vec<u8>) -> Result<(), Error> {
        F::serialize_items(elements, dest)
    }

    ghost same_modulus = { refl };
}

/// The Montgomery forms of a field of four words: each element times 2^256, modulo the modulus. Reading takes no product.
pub struct Scaled;

// Returns how many bytes an element takes, which are some.
fn scaled_len<M: WideModulus>() -> usize
    ensures exact { result ≡ bytes_for M.BITS }
    ensures some { 0 < result }
    ensures short { result ≤ 32 }
{
    byte_len::<M>()
}

// Returns the element of a Montgomery form.
fn scaled_element<M: WideModulus>(words: Words) -> Fp256<M>
    requires { number words < number M.P }
    ensures { value result ≡ divided (number M.P) (number words) }
{
    Fp256::of_form_words(words)
}

// Appends an element. The only error is `OutOfMemory`.
fn write_scaled<M: WideModulus>(element: Fp256<M>, dest: &mut Vec<u8>) -> Result<(), Error>
    ensures appended { let form = value element * 2 ^ 256 % number M.P in
        OnOk result (dest.new.items ≡ dest.old.items ++ bytes_of_number (bytes_for M.BITS) form) }
    ensures refused { IfErr result IsMemory }
{
    let len = scaled_len::<M>();
    let mut bytes = [0; 32];
    write_bytes(element.form_words(), &mut bytes[..len]);
    dest.extend_from_slice(&bytes[..len])?;
    Ok(())
}

impl<M: WideModulus> ReadsItem<Fp256<M>> for Scaled {
    ghost use Rattle.ark_groups.specs.Words.{number};
    ghost use Rattle.ark_wide_fields.specs.Values.{value};

    ghost Value = { ℕ };

    ghost view = { λ element. value element };

    ghost reads = { (scaled_form (number M.P) M.BITS).reads };

    #[tactic(auto, unfolding(ark_base::specs::Spelling::made_at))]
    fn read_item(_alloc: Global, bytes: &[u8]) -> Result<(Fp256<M>, usize), Error> {
        let (words, used) = read_below(M::P, byte_len::<M>(), bytes)?;
        Ok((scaled_element(words), used))
    }
}

impl<M: WideModulus> ElementForm<Fp256<M>> for Scaled {
    ghost use Rattle.std.specs.Prelude.{refl};
    ghost use Rattle.ark_groups.specs.Words.{number};
    ghost use Rattle.paxidore_calls.specs.Laws.Forms.{scaled_form_laws};

    ghost modulus = { number M.P };

    ghost form = { scaled_form (number M.P) M.BITS };

    ghost laws = { scaled_form_laws M.laws };

    fn read_elements(
        alloc: Global,
        count: u64,
        bytes: &[u8],
    ) -> Result<(Vec<Fp256<M>>, usize), Error> {
        read_each_item::<Fp256<M>, Scaled>(alloc, count, scaled_len::<M>(), bytes)
    }

    fn write_elements(elements: &[Fp256<M>], dest: &mut Vec<u8>) -> Result<(), Error> {
        for element in elements {
            write_scaled(*element, dest)?;
        }
        Ok(())
    }

    ghost same_modulus = { refl };
}
