//! Keys and digests compared, and bits of keys.

ghost use Rattle.std.specs.Prelude.{◌≡◌, ◌<◌, false, true, Ok};
ghost use Rattle.std.specs.Str.{bytes_eq};
ghost use Rattle.ark_base.specs.Outcome.{AnswersBy};
ghost use Rattle.merkle_map.specs.Map.{bit_of as bit_in, has_bit as has_bit_in};
ghost use Rattle.merkle_map.specs.Order.{IsKeyBelow};

use ark_base::error::Error;
use ark_base::serialize::DigestItem;
use std::alloc::Global;

/// Returns a bit of a key, counted from the highest one of its first byte.
pub fn bit_of(key: &[u8; 32], i: usize) -> bool
    requires { i < 256 }
    ensures { result ≡ bit_in i key.now }
{
    (key[i / 8] >> (7 - i % 8)) % 2 == 1
}

// Returns whether a key has this bit.
pub fn has_bit(key: &[u8; 32], level: usize, bit: bool) -> bool
    requires { level < 256 }
    ensures { result ≡ has_bit_in bit level key.now }
{
    if bit {
        bit_of(key, level)
    } else {
        !bit_of(key, level)
    }
}

/// Returns whether a key is below another: whether it has 0 at the first bit in which they differ.
pub fn is_key_below(a: &[u8; 32], b: &[u8; 32]) -> bool
    ensures below { result ≡ true → IsKeyBelow a.now b.now }
    ensures above { result ≡ false → ¬ IsKeyBelow a.now b.now }
{
    'bits: for level in 0..256 {
        let bit = bit_of(b, level);
        if bit_of(a, level) != bit {
            return bit;
        }
    }
    false
}

/// Returns whether two keys are the same.
pub fn are_same_keys(a: &[u8; 32], b: &[u8; 32]) -> bool
    ensures { result ≡ bytes_eq a.now b.now }
{
    *a == *b
}

// Returns whether two digests are the same.
pub fn are_same_digests<D: DigestItem>(a: &D, b: &D) -> bool
    ensures { result ≡ bytes_eq (D.numbers a.now) (D.numbers b.now) }
{
    *a == *b
}

// Copies a digest. The only error is `OutOfMemory`.
pub fn copy_digest<D: DigestItem>(alloc: Global, digest: &D) -> Result<D, Error>
    ensures { AnswersBy D.numbers (Ok (D.numbers digest.now)) result }
{
    digest.duplicate(alloc)
}
