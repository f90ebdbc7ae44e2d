//! Elements as 32 bytes.

ghost use Rattle.std.specs.Prelude.{◌≡◌, ◌≤◌, ◌*◌, ◌%◌, ◌^◌, Err, Ok, IfOk, IfErr};
ghost use Rattle.std.specs.Int.{from_bool};
ghost use Rattle.ark_groups.specs.Words.{number};
ghost use Rattle.jubjub.specs.declared.element.Jubjub.{Jubjub};
ghost use Rattle.jubjub.specs.Elements.{coordinates};
ghost use Rattle.jubjub.specs.Jubjub.{p};
ghost use Rattle.jubjub.specs.Compressed.{compressed, y_in, parity_in, IsAt, IsFaultAt, IsFault};
ghost use Rattle.jubjub.specs.Values.{value};

use crate::decoding::first_over;
use crate::element::Jubjub;
use crate::multiple::is_on_curve;
use ark_groups::ff::{Field, Words, write_bytes};
use ark_wide_fields::{Bls12_381Fr, ZERO, is_below, is_odd, low_bits, plus, words_of};

/// Why 32 bytes are no element's.
#[derive(Clone, Copy, PartialEq, Eq, Debug)]
pub enum PointFault {
    /// The second coordinate is the field's modulus or more.
    NotBelowModulus,
    /// No point of the curve has this second coordinate.
    NoPoint,
    /// The first coordinate is 0, and the bit says that it is odd.
    SignOfZero,
    /// The point is outside the prime subgroup.
    OutsideSubgroup,
}

// The bit that says that the first coordinate is odd.
const SIGN: Words = Words {
    w0: 0,
    w1: 0,
    w2: 0,
    w3: 1 << 63,
};

/// Returns the second coordinate that bytes say, and whether they say that the first is odd.
pub fn told(bytes: &[u8; 32]) -> (Words, bool)
    ensures y { number result.0 ≡ y_in bytes.now }
    ensures parity { from_bool result.1 ≡ parity_in bytes.now }
{
    let words = words_of(bytes);
    let odd = !is_below(words, SIGN);
    let Words { w0, w1, w2, w3 } = words;
    (low_bits(w0, w1, w2, w3, 63), odd)
}

// The bit 2^255 where a number is odd, else 0.
fn sign_of(x: Bls12_381Fr) -> Words
    ensures { number result ≡ 2 ^ 255 * (value x % 2) }
{
    if is_odd(x.words()) { SIGN } else { ZERO }
}

// The element with this second coordinate, whose first coordinate has this parity.
fn element_over(y: Bls12_381Fr, odd: bool) -> Result<Jubjub, PointFault>
    ensures ok { IfOk result (λ e. IsAt (value y) (from_bool odd) (coordinates e)) }
    ensures err { IfErr result (λ fault. IsFaultAt (value y) (from_bool odd) fault) }
{
    match first_over(y, odd) {
        Some(x) => match Jubjub::from_coordinates(x, y) {
            Some(element) => Ok(element),
            None => Err(PointFault::OutsideSubgroup),
        },
        None => {
            if is_on_curve(Bls12_381Fr::zero(), y) {
                Err(PointFault::SignOfZero)
            } else {
                Err(PointFault::NoPoint)
            }
        }
    }
}

impl Jubjub {
    /// Returns the compressed bytes, as Zcash writes them: 32 of the second coordinate, the least first, with the lowest
    /// bit of the first coordinate as the highest bit of the last byte.
    pub fn to_compressed(self) -> [u8; 32]
        ensures { result ≡ compressed (coordinates self) }
    {
        let (sum, _) = plus(self.y().words(), sign_of(self.x()));
        let mut bytes = [0; 32];
        write_bytes(sum, &mut bytes);
        bytes
    }

    /// Returns the element with these compressed bytes. No other bytes are an element's.
    ///
    /// Errors: `NotBelowModulus`, then `NoPoint` or `SignOfZero`, then `OutsideSubgroup`.
    pub fn from_compressed(bytes: &[u8; 32]) -> Result<Jubjub, PointFault>
        ensures ok { IfOk result (λ e. bytes.now ≡ compressed (coordinates e)) }
        ensures own { (e : Jubjub) → bytes.now ≡ compressed (coordinates e) → result ≡ Ok e }
        ensures err { IfErr result (λ fault. IsFault bytes.now fault) }

        // This is the first fault. No two of the others are there together.
        ensures first { p ≤ y_in bytes.now → result ≡ Err PointFault.NotBelowModulus }
    {
        let (y, odd) = told(bytes);
        if !is_below(y, Bls12_381Fr::modulus()) {
            return Err(PointFault::NotBelowModulus);
        }
        element_over(Bls12_381Fr::from_words(y), odd)
    }
}
