//! What sponges and hashes ask of a field, of one word or of four.

ghost use Rattle.std.specs.Prelude.{◌≡◌, ◌↔◌, ℕ, ◌+◌, ◌-◌, ◌*◌, ◌%◌, ◌<◌, ◌≤◌, List, ◌∷◌, [], length, map};
ghost use Rattle.std.specs.Prelude.{IsNone, IfSome, Err};
ghost use Rattle.std.specs.Bool.{Decides};
ghost use Rattle.ark_base.specs.Digits.{number_of_bytes, bytes_of_number, bytes_for, below_at};
ghost use Rattle.ark_base.specs.declared.error.SerializationError.{SerializationError};
ghost use Rattle.ark_groups.specs.Bits.{bits_of_number};
ghost use Rattle.ark_groups.specs.Field.{IsFieldModulus, IsField, ReadsNumbers, drawn_number, dot_product};
ghost use Rattle.ark_groups.specs.Words.{number};

use crate::ff::words::{write_bits, write_bytes};
use crate::ff::{UniformRand, Valued, Words};
use ark_base::serialize::{CanonicalItem, Numbered};
use std::fmt::Debug;
use std::hash::Hash;

/// Numbers below a modulus, with arithmetic modulo it. Any modulus from 2 to 2^256 - 1 serves, prime or not.
pub trait Field: Copy
    + Eq
    + Debug
    + Hash
    + Default
    + Numbered
    + CanonicalItem
    + UniformRand
    + Valued {
    ghost MODULUS: { ℕ };

    ghost MODULUS_BIT_SIZE: { ℕ };

    /// The count of the modulus's binary digits.
    const MODULUS_BIT_SIZE: u32;

    // It stands above the functions, so that canonical bytes made of elements can rest on it.
    ghost modulus_laws: { IsFieldModulus MODULUS MODULUS_BIT_SIZE };

    /// Returns the modulus.
    fn modulus() -> Words
        ensures { number result ≡ MODULUS };

    /// Returns 0.
    fn zero() -> Self
        ensures { Self.value result ≡ 0 };

    /// Returns 1.
    fn one() -> Self
        ensures { Self.value result ≡ 1 };

    /// Returns the sum modulo the modulus.
    fn add(self, other: Self) -> Self
        ensures { Self.value result ≡ (Self.value self + Self.value other) % MODULUS };

    /// Returns the difference modulo the modulus.
    fn sub(self, other: Self) -> Self
        ensures { Self.value result ≡ (Self.value self + (MODULUS - Self.value other)) % MODULUS };

    /// Returns the negative modulo the modulus.
    fn neg(self) -> Self
        ensures { Self.value result ≡ (MODULUS - Self.value self) % MODULUS };

    /// Returns the product modulo the modulus.
    fn mul(self, other: Self) -> Self
        ensures { Self.value result ≡ (Self.value self * Self.value other) % MODULUS };

    /// Returns the sum of the products of two lists, place by place, modulo the modulus.
    fn sum_of_products(xs: &[Self], ys: &[Self]) -> Self
        requires { length xs.now ≡ length ys.now }
        ensures { Self.value result
            ≡ dot_product (map Self.value xs.now) (map Self.value ys.now) % MODULUS };

    /// Returns twice the element.
    fn double(self) -> Self
        ensures { Self.value result ≡ (2 * Self.value self) % MODULUS };

    /// Returns the number that the element is, below the modulus.
    fn words(self) -> Words
        ensures { number result ≡ Self.value self };

    /// Fills a list with the lowest bytes of the element's number, the least first. Bytes past the number's are 0.
    fn write_low_bytes(self, out: &mut [u8])
        ensures { out.new ≡ bytes_of_number (length out.old) (Self.value self) }
    {
        write_bytes(self.words(), out);
    }

    /// Fills a list with the lowest bits of the element's number, the lowest first. Bits past the number's are 0.
    fn write_low_bits(self, out: &mut [bool])
        ensures { out.new ≡ bits_of_number (length out.old) (Self.value self) }
    {
        write_bits(self.words(), out);
    }

    /// Returns the element of a number below the modulus.
    fn from_words(words: Words) -> Self
        requires { number words < MODULUS }
        ensures { Self.value result ≡ number words };

    /// Returns the number modulo the modulus.
    fn from_u64(number: u64) -> Self
        ensures { Self.value result ≡ number % MODULUS };

    /// Returns the number modulo the modulus.
    fn from_u128(number: u128) -> Self
        ensures { Self.value result ≡ number % MODULUS };

    /// Returns the number that the bytes are, the least first, modulo the modulus.
    fn from_le_bytes_mod_order(bytes: &[u8]) -> Self
        ensures { Self.value result ≡ number_of_bytes bytes.now % MODULUS };

    /// Returns the number in the lowest `MODULUS_BIT_SIZE` binary digits of the bytes, the least byte first; bytes that
    /// are missing are 0. `None` where it is the modulus or more.
    fn from_random_bytes(bytes: &[u8]) -> Option<Self>
        ensures none { IsNone result ↔ (MODULUS ≤ drawn_number MODULUS_BIT_SIZE bytes.now) }
        ensures some { let number = drawn_number MODULUS_BIT_SIZE bytes.now in
            IfSome result (λ x. Self.value x ≡ number) };

    ghost laws: { IsField MODULUS Self.value };

    ghost bits_are: { Self.Valued.bits ≡ MODULUS_BIT_SIZE };

    // Two elements are equal exactly if their values are.
    ghost equal_if_same: { (x y : Self) → Decides (Self.eq x y) (Self.value x ≡ Self.value y) };

    // A clone is the element itself, and needs no memory.
    ghost clones: { (x y : Self) → Self.is_clone x y → x ≡ y };

    ghost clones_always: { (x : Self) → Self.is_infallible x };

    ghost default_is_zero: { (x : Self) → Self.is_default x → Self.value x ≡ 0 };

    // As a list of numbers an element is its value alone.
    ghost numbers_are: { (x : Self) → Self.numbers x ≡ Self.value x ∷ [] };

    // Its canonical bytes are those of its value, as many as the modulus needs.
    ghost is_spelled: { (x : Self) → Self.has_spelling (Self.view x) };

    ghost spelling_is: { (x : Self)
        → Self.spelling (Self.view x)
        ≡ bytes_of_number (bytes_for MODULUS_BIT_SIZE) (Self.value x) };

    // What does not begin so is refused: cut short, or the modulus or more.
    ghost reading_refuses: { (bytes : List ℕ) (fault : SerializationError)
        → below_at MODULUS (bytes_for MODULUS_BIT_SIZE) bytes ≡ Err fault
        → Self.reads bytes ≡ Err fault };

    // Its canonical value tells its number, and bytes are read as those of a number below the modulus.
    ghost reads_numbers: { ReadsNumbers MODULUS MODULUS_BIT_SIZE Self.view Self.reads Self.value };
}
