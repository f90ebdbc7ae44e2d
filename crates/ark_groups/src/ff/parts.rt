//! Parts of elements, and elements of one field as those of another: what callers need so as to read no number as a word.

ghost use Rattle.std.specs.Prelude.{◌≡◌, ◌≤◌, ◌%◌, ◌++◌, MatchResult};
ghost use Rattle.std.specs.Bool.{Decides};
ghost use Rattle.ark_base.specs.Digits.{bytes_of_number};
ghost use Rattle.ark_groups.specs.Bits.{number_of_bits};

use crate::ff::{Field, is_same_number};
use ark_base::error::Error;

/// Returns whether two fields have one modulus.
pub fn is_same_field<F: Field, G: Field>() -> bool
    ensures { Decides result (F.MODULUS ≡ G.MODULUS) }
{
    is_same_number(F::modulus(), G::modulus())
}

/// Returns the element of another field that has the same modulus.
pub fn same_element<F: Field, G: Field>(element: G) -> F
    requires { F.MODULUS ≡ G.MODULUS }
    ensures { F.value result ≡ G.value element }
{
    F::from_words(element.words())
}

/// Appends the `count` lowest bytes of an element's number, the least first. Bytes past the number's are 0.
///
/// The only error is `OutOfMemory`, and it leaves `dest` as before.
pub fn push_low_bytes<F: Field>(element: F, count: usize, dest: &mut Vec<u8>) -> Result<(), Error>
    requires { count ≤ 32 }
    ensures { MatchResult result
        (λ _. dest.new.items ≡ dest.old.items ++ bytes_of_number count (F.value element))
        (λ error. (error ≡ Error.OutOfMemory) × (dest.new.items ≡ dest.old.items)) }
{
    let mut bytes = [0; 32];
    element.write_low_bytes(&mut bytes[..count]);
    dest.extend_from_slice(&bytes[..count])?;
    Ok(())
}

/// Returns the number that bits are, the lowest first, modulo the modulus.
pub fn element_of_bits<F: Field>(bits: &[bool]) -> F
    ensures { F.value result ≡ number_of_bits bits.now % F.MODULUS }
{
    let mut element = F::zero();
    for i in (0..bits.len()).rev() {
        element = element.double();
        if bits[i] {
            element = element.add(F::one());
        }
    }
    element
}
