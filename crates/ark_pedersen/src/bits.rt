//! The bits of bytes, and hashes of bits.

ghost use Rattle.std.specs.Prelude.{◌≡◌, ◌≤◌, List, length, IfOk, IfErr, IsTrue};
ghost use Rattle.ark_pedersen.specs.Pedersen.{bits_of_bytes, window_bits, concatenation, lists_in, has_shape};
ghost use Rattle.ark_pedersen.specs.Pedersen.{pedersen_sum, AreGeneratorsOf, seen_by};
ghost use Rattle.ark_pedersen.specs.BitHashes.{bits_hash, bit_windows_hash};

use crate::generators::generator_at;
use crate::sums::has_shape;
use crate::window::Window;
use ark_base::error::{Error, Refusal};
use ark_groups::ec::AdditiveGroup;
use std::alloc::Global;

/// Returns the bits of the bytes, the lowest of each byte first. The only error is `OutOfMemory`.
pub fn bytes_to_bits(alloc: Global, bytes: &[u8]) -> Result<Vec<bool>, Error>
    ensures bits { IfOk result (λ bits. bits.items ≡ bits_of_bytes bytes.now) }
    ensures refused { IfErr result (λ error. error ≡ Error.OutOfMemory) }
{
    let mut bits = Vec::with_capacity(alloc, bytes.len().saturating_mul(8))?;
    for byte in bytes {
        let mut rest = *byte;
        for _ in 0..8u8 {
            bits.push(rest % 2 == 1)?;
            rest /= 2;
        }
    }
    Ok(bits)
}

/// Returns the sum of the generators at the set bits, of as many bits as there are. It allocates nothing.
///
/// Errors: `IncorrectInputLength` with the count of the bits, where these are more than the windows have;
/// `ParameterShape`, where the generators are not a list for each window with an element for each of its bits.
pub fn hash_bits<C: AdditiveGroup, W: Window>(
    generators: &[Vec<C>],
    bits: &[bool],
) -> Result<C, Error>
    ensures exact { result ≡ bits_hash C.group W.Window (lists_in generators.now) bits.now }

    // Where the generators are those of elements, the sum over the windows of the window's number times its element.
    ensures windows { (elements : List C)
        → AreGeneratorsOf C.group W.Window elements (lists_in generators.now)
        → result ≡ bit_windows_hash C.group W.Window elements bits.now }
{
    summed_bits::<C, W>(generators, bits)
}

// The hash of bits.
fn summed_bits<C: AdditiveGroup, W: Window>(
    generators: &[Vec<C>],
    bits: &[bool],
) -> Result<C, Error>
    ensures { result ≡ bits_hash C.group W.Window (lists_in generators.now) bits.now }
{
    if bits.len() > W::WINDOW_SIZE * W::NUM_WINDOWS {
        return Err(Error::IncorrectInputLength(bits.len()));
    }
    if !has_shape::<C, W>(generators) {
        return Err(Error::GenericError(Refusal::ParameterShape));
    }
    Ok(C::from_sum(sum_of_bits::<C, W>(generators, bits)))
}

// The sum of the generators at the set bits.
fn sum_of_bits<C: AdditiveGroup, W: Window>(generators: &[Vec<C>], bits: &[bool]) -> C::Sum
    requires shape { IsTrue (has_shape W.NUM_WINDOWS W.WINDOW_SIZE (lists_in generators.now)) }
    requires within { length bits.now ≤ window_bits W.Window }
    ensures { let all = concatenation (lists_in generators.now) in
        C.total result ≡ pedersen_sum C.group all bits.now }
{
    let mut sum = C::zero().to_sum();
    for place in 0..bits.len() {
        let x = generator_at::<C, W>(generators, place);
        if bits[place] {
            sum = C::add_to_sum(sum, x);
        }
    }
    sum
}
