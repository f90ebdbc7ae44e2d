//! The sums of Bowe-Hopwood hashes as plain, slow functions, for tests to compare with: all chunks of the input first.

ghost use Rattle.std.specs.Prelude.{◌≡◌, ◌≤◌, ◌++◌, false, length, take, drop, slice_index_or, IfOk, OnOk};
ghost use Rattle.ark_groups.specs.Bits.{bits_of_number};
ghost use Rattle.ark_pedersen.specs.Pedersen.{bits_of_bytes, lists_in, concatenation};
ghost use Rattle.ark_bowe_hopwood.specs.BoweHopwood.{chunks_of, digit, segment_scalar};
ghost use Rattle.ark_bowe_hopwood.specs.BoweHopwood.{signed_times, digits_sum, segments_sum};

use ark_groups::ec::{AdditiveGroup, TECoordinates};
use std::alloc::{AllocError, Global};

// The digit of a chunk.
fn digit_of_bits(a: bool, b: bool, c: bool) -> i64
    ensures { result ≡ digit (a, b, c) }
{
    match (a, b, c) {
        (false, false, false) => 1,
        (true, false, false) => 2,
        (false, true, false) => 3,
        (true, true, false) => 4,
        (false, false, true) => -1,
        (true, false, true) => -2,
        (false, true, true) => -3,
        (true, true, true) => -4,
    }
}

// The element, added as often as a number says; where that is negative, the opposite of it.
fn signed_times<G: AdditiveGroup>(count: i64, x: G) -> G
    ensures { result ≡ signed_times G.group count x }
{
    let mut sum = G::zero();
    for _ in 0..count.unsigned_abs() {
        sum = sum.add(x);
    }
    if count < 0 { sum.neg() } else { sum }
}

// The bit at a place; a missing bit is not set.
fn bit_in(bits: &[bool], place: usize) -> bool
    ensures { result ≡ slice_index_or bits.now place false }
{
    match bits.get(place) {
        Some(bit) => *bit,
        None => false,
    }
}

// What stands behind the first items.
fn items_behind<T>(items: &[T], count: usize) -> &[T]
    ensures { result.now ≡ drop count items.now }
{
    &items[count.min(items.len())..]
}

// The first items, or all where there are fewer.
fn front<T>(items: &[T], count: usize) -> &[T]
    ensures { result.now ≡ take count items.now }
{
    &items[..count.min(items.len())]
}

// Bits in threes; missing ones are not set.
fn chunks_of(alloc: Global, bits: &[bool]) -> Result<Vec<(bool, bool, bool)>, AllocError>
    ensures { IfOk result (λ chunks. chunks.items ≡ chunks_of bits.now) }
{
    let mut chunks = Vec::new(alloc);
    let mut rest = bits;
    while !rest.is_empty() {
        chunks.push((bit_in(rest, 0), bit_in(rest, 1), bit_in(rest, 2)))?;
        rest = items_behind(rest, 3);
    }
    Ok(chunks)
}

// The sum of the elements, each as often as the digit of its chunk says.
fn digits_sum<G: AdditiveGroup>(elements: &[G], chunks: &[(bool, bool, bool)]) -> G
    ensures { result ≡ digits_sum G.group elements.now chunks.now }
{
    if elements.len().min(chunks.len()) == 0 {
        return G::zero();
    }
    let (a, b, c) = chunks[0];
    signed_times(digit_of_bits(a, b, c), elements[0]).add(digits_sum(
        items_behind(elements, 1),
        items_behind(chunks, 1),
    ))
}

// The scalar of a segment of a few chunks.
fn segment_scalar(chunks: &[(bool, bool, bool)]) -> i64
    requires { length chunks.now ≤ 15 }
    ensures { result ≡ segment_scalar chunks.now }
{
    if chunks.is_empty() {
        return 0;
    }
    let (a, b, c) = chunks[0];
    digit_of_bits(a, b, c) + 16 * segment_scalar(items_behind(chunks, 1))
}

// The sum over segments of one size, each element as often as the scalar of its segment says.
fn segments_sum<G: AdditiveGroup>(size: usize, elements: &[G], chunks: &[(bool, bool, bool)]) -> G
    requires { size ≤ 15 }
    ensures { result ≡ segments_sum G.group size elements.now chunks.now }
{
    if elements.is_empty() {
        return G::zero();
    }
    let scalar = segment_scalar(front(chunks, size));
    signed_times(scalar, elements[0]).add(segments_sum(
        size,
        items_behind(elements, 1),
        items_behind(chunks, size),
    ))
}

// The binary digits of a byte, the lowest first, behind those that are there.
fn push_bits(bits: &mut Vec<bool>, byte: u8) -> Result<(), AllocError>
    ensures { OnOk result (bits.new.items ≡ bits.old.items ++ bits_of_number 8 byte) }
{
    let mut rest = byte;
    for _ in 0..8u32 {
        bits.push(rest % 2 == 1)?;
        rest /= 2;
    }
    Ok(())
}

// The binary digits of bytes, the lowest of each byte first.
fn bits_of_text(alloc: Global, bytes: &[u8]) -> Result<Vec<bool>, AllocError>
    ensures { IfOk result (λ bits. bits.items ≡ bits_of_bytes bytes.now) }
{
    let mut bits = Vec::new(alloc);
    for byte in bytes {
        push_bits(&mut bits, *byte)?;
    }
    Ok(bits)
}

// The lists, one behind the other.
fn concatenation<G: AdditiveGroup>(alloc: Global, lists: &[Vec<G>]) -> Result<Vec<G>, AllocError>
    ensures { IfOk result (λ all. all.items ≡ concatenation (lists_in lists.now)) }
{
    let mut all = Vec::new(alloc);
    for list in lists {
        all.extend_from_slice(list)?;
    }
    Ok(all)
}

// All chunks of an input.
fn input_chunks(alloc: Global, input: &[u8]) -> Result<Vec<(bool, bool, bool)>, AllocError>
    ensures { IfOk result (λ chunks. chunks.items ≡ chunks_of (bits_of_bytes input.now)) }
{
    chunks_of(alloc, &bits_of_text(alloc, input)?)
}

/// Returns the first coordinate of the sum of the elements of lists, each as often as the digit of its chunk of the
/// input says.
pub fn coordinate<G: AdditiveGroup + TECoordinates>(
    alloc: Global,
    lists: &[Vec<G>],
    input: &[u8],
) -> Result<G::BaseField, AllocError>
    ensures { let all = concatenation (lists_in lists.now) in
        let sum = digits_sum G.group all (chunks_of (bits_of_bytes input.now)) in
        IfOk result (λ x. G.BaseField.value x ≡ G.x sum) }
{
    let all = concatenation(alloc, lists)?;
    Ok(digits_sum(&all, &input_chunks(alloc, input)?).x())
}

/// Returns the same over segments of at most fifteen chunks, each element as often as the scalar of its segment says.
pub fn coordinate_of_segments<G: AdditiveGroup + TECoordinates>(
    alloc: Global,
    size: usize,
    elements: &[G],
    input: &[u8],
) -> Result<G::BaseField, AllocError>
    requires { size ≤ 15 }
    ensures { let chunks = chunks_of (bits_of_bytes input.now) in
        let sum = segments_sum G.group size elements.now chunks in
        IfOk result (λ x. G.BaseField.value x ≡ G.x sum) }
{
    Ok(segments_sum(size, elements, &input_chunks(alloc, input)?).x())
}
