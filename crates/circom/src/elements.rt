//! Elements as bytes.

ghost use Rattle.std.specs.Prelude.{◌≡◌, ◌*◌, ◌%◌, map, length, Ok, Err, MatchResult, IfOk};
ghost use Rattle.std.specs.List.{list_all};
ghost use Rattle.circom.specs.Elements.{element_bytes, element_in, elements_of_bytes, ordered};
ghost use Rattle.circom.specs.Hash.{is_element};

use crate::table::is_element;
use ark_base::error::{Error, SerializationError};
use ark_groups::ff::Field;
use ark_wide_fields::{is_below, words_of};

/// The order of the 32 bytes of an element.
#[derive(Clone, Copy, Debug, PartialEq, Eq)]
pub enum ByteOrder {
    /// The least byte first, as the canonical bytes of elements.
    LittleEndian,
    /// The greatest byte first, as numbers are written.
    BigEndian,
}

// The bytes the other way round, where the greatest comes first.
fn ordered(order: ByteOrder, mut bytes: [u8; 32]) -> [u8; 32]
    ensures { result ≡ ordered order bytes }
{
    match order {
        ByteOrder::LittleEndian => {}
        ByteOrder::BigEndian => bytes.reverse(),
    }
    bytes
}

/// Returns the element that 32 bytes are.
///
/// The only error is `InvalidData`, for a number that is not below the modulus.
pub fn element_of<F: Field>(order: ByteOrder, bytes: &[u8]) -> Result<F, Error>
    requires { length bytes.now ≡ 32 }
    ensures { MatchResult result (λ x. element_in F.MODULUS order bytes.now ≡ Ok (F.value x))
        (λ error. element_in F.MODULUS order bytes.now ≡ Err error) }
{
    let mut own = [0; 32];
    own.copy_from_slice(bytes);
    let words = words_of(&ordered(order, own));
    if is_below(words, F::modulus()) {
        Ok(F::from_words(words))
    } else {
        Err(Error::SerializationError(SerializationError::InvalidData))
    }
}

/// Reads as many elements as there is room for.
///
/// The only error is `InvalidData`, for an element that is not below the modulus.
pub fn read_elements<F: Field>(order: ByteOrder, bytes: &[u8], out: &mut [F]) -> Result<(), Error>
    requires { length bytes.now ≡ 32 * length out.old }
    ensures { MatchResult result
        (λ _. elements_of_bytes F.MODULUS order (length out.old) bytes.now
        ≡ Ok (map F.value out.new))
        (λ error. elements_of_bytes F.MODULUS order (length out.old) bytes.now ≡ Err error) }
{
    let mut rest = bytes;
    for i in 0..out.len() {
        let (part, behind) = rest.split_at(32);
        match element_of(order, part) {
            Ok(element) => out[i] = element,
            Err(error) => return Err(error),
        }
        rest = behind;
    }
    Ok(())
}

/// Returns the bytes of an element.
pub fn element_bytes<F: Field>(order: ByteOrder, element: F) -> [u8; 32]
    ensures { result ≡ element_bytes order (F.value element) }
{
    let mut bytes = [0; 32];
    element.write_low_bytes(&mut bytes);
    ordered(order, bytes)
}

/// Returns whether all of these are elements.
pub fn are_elements(elements: &[[u8; 32]]) -> bool
    ensures { result ≡ list_all is_element elements.now }
{
    for element in elements {
        if !is_element(element) {
            return false;
        }
    }
    true
}
