//! The sum of elements, each as often as the digit of its chunk says.

ghost use Rattle.std.specs.Prelude.{◌≡◌, ◌+◌, ◌*◌, ◌-◌, ◌<◌, ◌≤◌, ◌^◌, ◌++◌, length, drop, map, IsTrue, Ok, if◌then◌else◌};
ghost use Rattle.ark_base.specs.Digits.{number_of_bytes};
ghost use Rattle.ark_groups.specs.Bits.{bits_of_number};
ghost use Rattle.ark_pedersen.specs.Pedersen.{concatenation, lists_in, has_shape, of_halves, seen_by};
ghost use Rattle.ark_bowe_hopwood.specs.BoweHopwood.{chunks_of, digit, signed_times, digits_sum};
ghost use Rattle.ark_bowe_hopwood.specs.BoweHopwood.{bowe_hopwood_hash};

use crate::CHUNK_SIZE;
use crate::text::number_at;
use ark_base::error::{Error, Refusal};
use ark_groups::ec::{AdditiveGroup, TECoordinates};
use ark_pedersen::{Window, generator_at, has_shape};

/// Returns the hash of the input. It allocates nothing.
///
/// Errors: `IncorrectInputLength` with the input's bytes, where these have more than three bits for each element;
/// `ParameterShape`, where the generators are not a list for each window with an element for each of its chunks.
pub fn hash_bytes<G: AdditiveGroup + TECoordinates, W: Window>(
    generators: &[Vec<G>],
    input: &[u8],
) -> Result<G::BaseField, Error>
    ensures { let hash = bowe_hopwood_hash G.group G.x W.Window (lists_in generators.now) in
        seen_by G.BaseField.value result ≡ hash input.now }
{
    if input.len() > CHUNK_SIZE * (W::WINDOW_SIZE * W::NUM_WINDOWS) / 8 {
        return Err(Error::IncorrectInputLength(input.len()));
    }
    if !has_shape::<G, W>(generators) {
        return Err(Error::GenericError(Refusal::ParameterShape));
    }
    let chunks = (8 * input.len()).div_ceil(CHUNK_SIZE);
    Ok(sum_of_text::<G, W>(generators, input, &[], chunks).x())
}

/// Returns the hash of left followed by right, with zeros behind them as far as two halves reach. It allocates nothing.
///
/// Errors: `IncorrectInputLength` with right's bytes, where left has not as many, and with left's, where these have
/// more bits than half as many as there are elements; `ParameterShape` as above.
pub fn hash_halves<G: AdditiveGroup + TECoordinates, W: Window>(
    generators: &[Vec<G>],
    left: &[u8],
    right: &[u8],
) -> Result<G::BaseField, Error>
    ensures { let hash = bowe_hopwood_hash G.group G.x W.Window (lists_in generators.now) in
        seen_by G.BaseField.value result ≡ of_halves W.Window hash left.now right.now }
{
    if left.len() != right.len() {
        return Err(Error::IncorrectInputLength(right.len()));
    }
    if left.len() > W::WINDOW_SIZE * W::NUM_WINDOWS / 2 / 8 {
        return Err(Error::IncorrectInputLength(left.len()));
    }
    if !has_shape::<G, W>(generators) {
        return Err(Error::GenericError(Refusal::ParameterShape));
    }
    let bytes = W::WINDOW_SIZE * W::NUM_WINDOWS / 8;
    let chunks = (8 * bytes).div_ceil(CHUNK_SIZE);
    Ok(sum_of_text::<G, W>(generators, left, right, chunks).x())
}

// The sum of the elements, each as often as the digit of its chunk of left followed by right, and of zeros behind them.
fn sum_of_text<G: AdditiveGroup, W: Window>(
    generators: &[Vec<G>],
    left: &[u8],
    right: &[u8],
    chunks: usize,
) -> G
    requires shape { IsTrue (has_shape W.NUM_WINDOWS W.WINDOW_SIZE (lists_in generators.now)) }
    requires within { chunks ≤ W.WINDOW_SIZE * W.NUM_WINDOWS }
    ensures { let all = concatenation (lists_in generators.now) in
        let number = number_of_bytes (left.now ++ right.now) in
        result ≡ digits_sum G.group all (chunks_of (bits_of_number (3 * chunks) number)) }
{
    let mut sum = G::zero().to_sum();
    for group in 0..chunks.div_ceil(8) {
        let first = 8 * group;
        let end = first + (chunks - first).min(8);
        sum = add_chunks::<G, W>(
            sum,
            generators,
            first,
            end,
            number_at(left, right, 3 * group),
        );
    }
    G::from_sum(sum)
}

// The sum with the elements from one place to another, each as often as the digit of its chunk of a number says.
fn add_chunks<G: AdditiveGroup, W: Window>(
    mut sum: G::Sum,
    generators: &[Vec<G>],
    first: usize,
    end: usize,
    mut number: u32,
) -> G::Sum
    requires shape { IsTrue (has_shape W.NUM_WINDOWS W.WINDOW_SIZE (lists_in generators.now)) }
    requires ordered { first ≤ end }
    requires within { end ≤ W.WINDOW_SIZE * W.NUM_WINDOWS }
    ensures { let behind = drop first (concatenation (lists_in generators.now)) in
        let chunks = chunks_of (bits_of_number (3 * (end - first)) number) in
        G.total result ≡ G.group.plus (G.total sum) (digits_sum G.group behind chunks) }
{
    for place in first..end {
        let x = generator_at::<G, W>(generators, place);
        sum = add_digit::<G>(
            sum,
            x,
            number % 2 == 1,
            number / 2 % 2 == 1,
            number / 4 % 2 == 1,
        );
        number /= 8;
    }
    sum
}

/// Returns the sum with an element as often as the digit of a chunk says.
pub fn add_digit<G: AdditiveGroup>(sum: G::Sum, x: G, a: bool, b: bool, is_negative: bool) -> G::Sum
    ensures { let times = signed_times G.group (digit (a, b, is_negative)) in
        G.total result ≡ G.group.plus (G.total sum) (times x) }
{
    let once = signed(x, is_negative).to_sum();
    let twice = G::double_sum(once);
    let more = G::add_sums(sum, if a { twice } else { once });
    added_if::<G>(more, twice, b)
}

// The sum, with another added to it where a bit is set.
fn added_if<G: AdditiveGroup>(sum: G::Sum, more: G::Sum, is_set: bool) -> G::Sum
    ensures { let whole = G.group.plus (G.total sum) (G.total more) in
        G.total result ≡ (if is_set then whole else G.total sum) }
{
    if is_set { G::add_sums(sum, more) } else { sum }
}

// The element or its opposite.
fn signed<G: AdditiveGroup>(x: G, is_negative: bool) -> G
    ensures { result ≡ (if is_negative then G.group.opposite x else x) }
{
    if is_negative { x.neg() } else { x }
}
