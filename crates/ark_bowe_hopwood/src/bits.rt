//! Hashes of bits.

ghost use Rattle.std.specs.Prelude.{◌≡◌, ◌*◌, ◌≤◌, false, length, get_or, IsTrue};
ghost use Rattle.ark_pedersen.specs.Pedersen.{concatenation, lists_in, has_shape, seen_by};
ghost use Rattle.ark_bowe_hopwood.specs.BoweHopwood.{chunks_of, digits_sum};
ghost use Rattle.ark_bowe_hopwood.specs.BitHashes.{bits_hash};

use crate::CHUNK_SIZE;
use crate::sums::add_digit;
use ark_base::error::{Error, Refusal};
use ark_groups::ec::{AdditiveGroup, TECoordinates};
use ark_pedersen::{Window, generator_at, has_shape};

/// Returns the hash of bits, as many as there are. It allocates nothing.
///
/// Errors: `IncorrectInputLength` with the count of the bits, where these are more than three for each element;
/// `ParameterShape`, where the generators are not a list for each window with an element for each of its chunks.
pub fn hash_bits<G: AdditiveGroup + TECoordinates, W: Window>(
    generators: &[Vec<G>],
    bits: &[bool],
) -> Result<G::BaseField, Error>
    ensures { let hash = bits_hash G.group G.x W.Window (lists_in generators.now) in
        seen_by G.BaseField.value result ≡ hash bits.now }
{
    if bits.len() > CHUNK_SIZE * (W::WINDOW_SIZE * W::NUM_WINDOWS) {
        return Err(Error::IncorrectInputLength(bits.len()));
    }
    if !has_shape::<G, W>(generators) {
        return Err(Error::GenericError(Refusal::ParameterShape));
    }
    Ok(G::from_sum(sum_of_bits::<G, W>(generators, bits)).x())
}

// The bit at a place; false where there is none.
fn bit_at(bits: &[bool], place: usize) -> bool
    ensures { result ≡ get_or bits.now place false }
{
    place < bits.len() && bits[place]
}

// The sum of the elements, each as often as the digit of its chunk of the bits says.
fn sum_of_bits<G: AdditiveGroup, W: Window>(generators: &[Vec<G>], bits: &[bool]) -> G::Sum
    requires shape { IsTrue (has_shape W.NUM_WINDOWS W.WINDOW_SIZE (lists_in generators.now)) }
    requires within { length bits.now ≤ 3 * (W.WINDOW_SIZE * W.NUM_WINDOWS) }
    ensures { let all = concatenation (lists_in generators.now) in
        G.total result ≡ digits_sum G.group all (chunks_of bits.now) }
{
    let mut sum = G::zero().to_sum();
    for place in 0..bits.len().div_ceil(CHUNK_SIZE) {
        let x = generator_at::<G, W>(generators, place);
        let a = bit_at(bits, 3 * place);
        let b = bit_at(bits, 3 * place + 1);
        let is_negative = bit_at(bits, 3 * place + 2);
        sum = add_digit::<G>(sum, x, a, b, is_negative);
    }
    sum
}
