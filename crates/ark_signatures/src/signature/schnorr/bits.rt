//! The bits of bytes, and the number that bytes multiply by.

ghost use Rattle.std.specs.Prelude.{◌≡◌, ◌%◌, IfOk, IfErr};
ghost use Rattle.ark_signatures.specs.Schnorr.{highest_first, multiplier};

use ark_base::error::Error;
use ark_groups::ff::Field;
use std::alloc::Global;

/// Returns the bits of the bytes, the highest of each byte first. The only error is `OutOfMemory`.
pub fn bytes_to_bits(alloc: Global, bytes: &[u8]) -> Result<Vec<bool>, Error>
    ensures bits { IfOk result (λ bits. bits.items ≡ highest_first bytes.now) }
    ensures refused { IfErr result (λ error. error ≡ Error.OutOfMemory) }
{
    let mut bits = Vec::with_capacity(alloc, bytes.len().saturating_mul(8))?;
    for byte in bytes {
        for place in 0..8u32 {
            bits.push((*byte >> (7 - place)) % 2 == 1)?;
        }
    }
    Ok(bits)
}

/// Returns the number that bytes multiply by, modulo the modulus: 2^i for each place i of their bits that is set.
pub fn multiplier<F: Field>(bytes: &[u8]) -> F
    ensures { F.value result ≡ multiplier bytes.now % F.MODULUS }
{
    let mut number = F::zero();
    let mut rest = bytes.len();
    while rest > 0 {
        rest -= 1;
        number = number.mul(F::from_u64(256));
        number = number.add(F::from_u64(bytes[rest].reverse_bits() as u64));
    }
    number
}
