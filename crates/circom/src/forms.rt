//! Montgomery forms of elements, as bytes: 32 for each, the least first.

ghost use Rattle.std.specs.Prelude.{◌≡◌, ◌⊎◌, ◌*◌, ◌%◌, ◌^◌, ◌<◌, ◌++◌, ℕ, List, map, length, All, MatchResult, IfErr, IfOk, OnOk, Ok, Err};
ghost use Rattle.ark_base.specs.declared.error.Error.TheVariants.{OutOfMemory, SerializationError as OfBytes};
ghost use Rattle.ark_base.specs.declared.error.SerializationError.TheVariants.{InvalidData, Truncated};
ghost use Rattle.ark_base.specs.Digits.{bytes_of_number};
ghost use Rattle.ark_base.specs.Outcome.{AnswersBy};
ghost use Rattle.ark_groups.specs.Words.{number};
ghost use Rattle.circom.specs.Elements.{AreNoForms, form_bytes};

use ark_base::error::{Error, SerializationError};
use ark_groups::ff::{Valued, write_bytes};
use ark_wide_fields::{Fp256, WideModulus, is_below, words_of};
use std::alloc::{AllocError, Global};

/// Puts the forms of elements behind bytes.
pub fn put_forms<M: WideModulus>(
    bytes: &mut Vec<u8>,
    elements: &[Fp256<M>],
) -> Result<(), AllocError>
    ensures { OnOk result ((xs : List ℕ) × All (λ x. x < number M.P) xs
        × (xs ≡ map ⟦<Fp256<M> as Valued>⟧.value elements.now)
        × (bytes.new.items ≡ bytes.old.items ++ form_bytes (number M.P) xs)) }
{
    for element in elements {
        let mut own = [0; 32];
        write_bytes(element.form_words(), &mut own);
        bytes.extend_from_slice(&own)?;
    }
    Ok(())
}

// The element whose form 32 bytes are.
fn form_of<M: WideModulus>(bytes: &[u8]) -> Result<Fp256<M>, Error>
    requires { length bytes.now ≡ 32 }
    ensures form { (n : ℕ) → n < number M.P
        → bytes.now ≡ bytes_of_number 32 (n * 2 ^ 256 % number M.P)
        → MatchResult result (λ x. ⟦<Fp256<M> as Valued>⟧.value x ≡ n) (λ _. ⊥) }
    ensures found { IfOk result (λ x. bytes.now
        ≡ bytes_of_number 32 (⟦<Fp256<M> as Valued>⟧.value x * 2 ^ 256 % number M.P)) }
    ensures refused { IfErr result (λ error. error ≡ OfBytes InvalidData) }
{
    let words = words_of(bytes);
    if is_below(words, M::P) {
        Ok(Fp256::of_form_words(words))
    } else {
        Err(Error::SerializationError(SerializationError::InvalidData))
    }
}

/// Reads the elements that fill the bytes.
///
/// Errors: `Truncated` for bytes that are not whole elements, `InvalidData` for one that is not below the modulus;
/// `OutOfMemory`.
pub fn read_forms<M: WideModulus>(alloc: Global, bytes: &[u8]) -> Result<Vec<Fp256<M>>, Error>
    ensures read { (xs : List ℕ) → All (λ x. x < number M.P) xs
        → bytes.now ≡ form_bytes (number M.P) xs
        → AnswersBy (λ elements. map ⟦<Fp256<M> as Valued>⟧.value elements.items) (Ok xs) result }
    ensures found { IfOk result (λ elements. (xs : List ℕ) × All (λ x. x < number M.P) xs
        × (xs ≡ map ⟦<Fp256<M> as Valued>⟧.value elements.items)
        × (bytes.now ≡ form_bytes (number M.P) xs)) }
    ensures truncated { (length bytes.now % 32 ≡ 0 → ⊥) → result ≡ Err (OfBytes Truncated) }
    ensures refused { length bytes.now % 32 ≡ 0 → IfErr result (λ error. (error ≡ OutOfMemory)
        ⊎ (AreNoForms (number M.P) bytes.now × (error ≡ OfBytes InvalidData))) }
{
    if bytes.len() % 32 != 0 {
        return Err(Error::SerializationError(SerializationError::Truncated));
    }
    let count = bytes.len() / 32;
    let mut elements = Vec::with_capacity(alloc, count)?;
    let mut rest = bytes;
    for _ in 0..count {
        let (part, behind) = rest.split_at(32);
        match form_of(part) {
            Ok(element) => elements.push(element)?,
            Err(error) => return Err(error),
        }
        rest = behind;
    }
    Ok(elements)
}
