//! The sum of the generators at the set bits of an input.

ghost use Rattle.std.specs.Prelude.{◌≡◌, ◌+◌, ◌*◌, ◌-◌, ◌<◌, ◌≤◌, ◌^◌, length, IsTrue};
ghost use Rattle.ark_groups.specs.Bits.{bits_of_number};
ghost use Rattle.ark_pedersen.specs.Pedersen.{bits_of_bytes, window_bits, lists_in, has_shape};
ghost use Rattle.ark_pedersen.specs.Pedersen.{sum_from, pedersen_hash, of_halves, seen_by};

use crate::Window;
use crate::generators::generator_at;
use ark_base::error::{Error, Refusal};
use ark_base::serialize::number_of;
use ark_groups::ec::AdditiveGroup;

/// Returns the sum of the generators at the set bits of the input. It allocates nothing.
///
/// Errors: `IncorrectInputLength` with the input's bytes, where these have more bits than the windows;
/// `ParameterShape`, where the generators are not a list for each window with an element for each of its bits.
pub fn hash_bytes<C: AdditiveGroup, W: Window>(
    generators: &[Vec<C>],
    input: &[u8],
) -> Result<C, Error>
    ensures { result ≡ pedersen_hash C.group W.Window (lists_in generators.now) input.now }
{
    Ok(C::from_sum(sum_of_bytes::<C, W>(generators, input)?))
}

/// Returns the sum of the generators at the set bits of the input, under way. It allocates nothing.
///
/// Errors: those of `hash_bytes`.
pub fn sum_of_bytes<C: AdditiveGroup, W: Window>(
    generators: &[Vec<C>],
    input: &[u8],
) -> Result<C::Sum, Error>
    ensures { let hash = pedersen_hash C.group W.Window (lists_in generators.now) input.now in
        seen_by C.total result ≡ hash }
{
    if input.len() > W::WINDOW_SIZE * W::NUM_WINDOWS / 8 {
        return Err(Error::IncorrectInputLength(input.len()));
    }
    if !has_shape::<C, W>(generators) {
        return Err(Error::GenericError(Refusal::ParameterShape));
    }
    Ok(add_bytes::<C, W>(C::zero().to_sum(), generators, 0, input))
}

/// Returns the hash of left followed by right, with zeros behind them as far as two halves reach. It allocates nothing.
///
/// Errors: `IncorrectInputLength` with right's bytes, where left has not as many, and with left's, where these have
/// more bits than half of all the windows' bits; `ParameterShape` as above.
pub fn hash_halves<C: AdditiveGroup, W: Window>(
    generators: &[Vec<C>],
    left: &[u8],
    right: &[u8],
) -> Result<C, Error>
    ensures { let hash = pedersen_hash C.group W.Window (lists_in generators.now) in
        result ≡ of_halves W.Window hash left.now right.now }
{
    if left.len() != right.len() {
        return Err(Error::IncorrectInputLength(right.len()));
    }
    if left.len() > W::WINDOW_SIZE * W::NUM_WINDOWS / 2 / 8 {
        return Err(Error::IncorrectInputLength(left.len()));
    }
    if !has_shape::<C, W>(generators) {
        return Err(Error::GenericError(Refusal::ParameterShape));
    }
    let sum = add_bytes::<C, W>(C::zero().to_sum(), generators, 0, left);
    let whole = add_bytes::<C, W>(sum, generators, 8 * left.len(), right);
    Ok(C::from_sum(whole))
}

/// Returns whether there is a list for each window, with as many elements as its size says.
pub fn has_shape<C: AdditiveGroup, W: Window>(generators: &[Vec<C>]) -> bool
    ensures { result ≡ has_shape W.NUM_WINDOWS W.WINDOW_SIZE (lists_in generators.now) }
{
    generators.len() == W::NUM_WINDOWS && generators.iter().all(|list| list.len() == W::WINDOW_SIZE)
}

// The sum with the generators at the set bits of bytes, whose lowest bit stands at this place.
fn add_bytes<C: AdditiveGroup, W: Window>(
    mut sum: C::Sum,
    generators: &[Vec<C>],
    first: usize,
    bytes: &[u8],
) -> C::Sum
    requires shape { IsTrue (has_shape W.NUM_WINDOWS W.WINDOW_SIZE (lists_in generators.now)) }
    requires fits { first + 8 * length bytes.now ≤ window_bits W.Window }
    ensures { let lists = lists_in generators.now in
        let more = sum_from C.group first lists (bits_of_bytes bytes.now) in
        C.total result ≡ C.group.plus (C.total sum) more }
{
    let mut start = 0;
    while start < bytes.len() {
        let end = start + (bytes.len() - start).min(8);
        let word = number_of(&bytes[start..end]);
        sum = add_word::<C, W>(sum, generators, first + 8 * start, word);
        start = end;
    }
    sum
}

// The sum with the generators at the set bits of a word, whose lowest bit stands at this place.
fn add_word<C: AdditiveGroup, W: Window>(
    mut sum: C::Sum,
    generators: &[Vec<C>],
    first: usize,
    mut word: u64,
) -> C::Sum
    requires shape { IsTrue (has_shape W.NUM_WINDOWS W.WINDOW_SIZE (lists_in generators.now)) }
    requires first_in { first ≤ window_bits W.Window }
    requires fits { word < 2 ^ (window_bits W.Window - first) }
    ensures { let lists = lists_in generators.now in
        let more = sum_from C.group first lists (bits_of_number 64 word) in
        C.total result ≡ C.group.plus (C.total sum) more }
{
    while word > 0 {
        let place = first + word.trailing_zeros() as usize;
        sum = C::add_to_sum(sum, generator_at::<C, W>(generators, place));
        word &= word - 1;
    }
    sum
}
