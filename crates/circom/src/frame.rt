//! What stands around the elements of a table: the count of inputs before them, and a check sum behind them.

ghost use Rattle.std.specs.Prelude.{◌≡◌, ◌<◌, ◌≤◌, ◌+◌, ◌^◌, length, map, IfErr, IfOk, OnOk};
ghost use Rattle.std.specs.Int.{w64, from_le_bytes};
ghost use Rattle.ark_sponge.specs.Table.{table_length};
ghost use Rattle.circom.specs.Frame.{check_sum, IsFrame, IsFrameFault, shape_for, table_count, with_digit, with_digits, with_sum};

use ark_base::error::{Error, SerializationError};
use ark_sponge::poseidon::TableShape;
use poseidon_grain::circom_rounds;
use std::alloc::AllocError;

/// Returns the counts of the table of so many inputs.
pub fn shape_for(inputs: usize) -> TableShape
    requires { inputs ≤ 16 }
    ensures { result ≡ shape_for inputs }
{
    TableShape {
        alpha: 5,
        width: inputs + 1,
        before: 4,
        behind: 4,
    }
}

// How many elements such a table has before the constants of its partial rounds.
fn length_for(inputs: usize) -> usize
    requires { inputs ≤ 16 }
    ensures length { result ≡ table_length (shape_for inputs) }
    ensures fits { result < 2 ^ 16 }
{
    let width = inputs + 1;
    let square = inputs * inputs;
    4 * width + (width * width + (4 * width + (square + (square + (width + (inputs + width))))))
}

/// Returns how many elements the table of so many inputs has.
pub fn count_for(inputs: usize) -> usize
    requires some { 1 ≤ inputs }
    requires few { inputs ≤ 16 }
    ensures count { result ≡ table_count inputs }
    ensures fits { result < 2 ^ 17 }
{
    length_for(inputs) + circom_rounds(inputs)
}

// The base of check sums: the prime 2^40 + 435.
const BASE: u64 = 1099511628211;

// Puts a digit behind a number.
fn with_number_digit(number: u64, digit: u64) -> u64
    ensures { result ≡ with_digit number digit }
{
    number.wrapping_mul(BASE).wrapping_add(digit)
}

// Puts words behind a number.
fn with_words(number: u64, words: &[[u8; 8]]) -> u64
    ensures { result ≡ with_digits number (map (from_le_bytes w64) words.now) }
{
    let mut sum = number;
    for i in 0..words.len() {
        sum = with_number_digit(sum, u64::from_le_bytes(words[i]));
    }
    sum
}

// Puts bytes behind a number.
fn with_number_bytes(number: u64, bytes: &[u8]) -> u64
    ensures { result ≡ with_digits number bytes.now }
{
    let mut sum = number;
    for i in 0..bytes.len() {
        sum = with_number_digit(sum, bytes[i] as u64);
    }
    sum
}

// Returns the check sum of bytes.
fn check_sum(bytes: &[u8]) -> [u8; 8]
    ensures { result ≡ check_sum bytes.now }
{
    let (words, behind) = bytes.as_chunks::<8>();
    with_number_bytes(with_words(0, words), behind).to_le_bytes()
}

/// Puts their check sum behind bytes.
pub fn put_sum(bytes: &mut Vec<u8>) -> Result<(), AllocError>
    ensures { OnOk result (bytes.new.items ≡ with_sum bytes.old.items) }
{
    let sum = check_sum(bytes);
    bytes.extend_from_slice(&sum)
}

/// Returns the count of inputs of bytes that are as many as its table has, and end with their check sum.
///
/// Errors: `Truncated` for no bytes, or fewer; `InvalidData` for another count than 1 to 16, more bytes, or another check sum.
pub fn inputs_of(bytes: &[u8]) -> Result<usize, Error>
    ensures frame { IfOk result (λ inputs. IsFrame inputs bytes.now) }
    ensures refused { IfErr result (IsFrameFault bytes.now) }
{
    if bytes.is_empty() {
        return Err(Error::SerializationError(SerializationError::Truncated));
    }
    let inputs = bytes[0] as usize;
    if inputs < 1 || inputs > 16 {
        return Err(Error::SerializationError(SerializationError::InvalidData));
    }
    let end = 1 + 32 * count_for(inputs);
    if bytes.len() < end + 8 {
        return Err(Error::SerializationError(SerializationError::Truncated));
    }
    if bytes.len() > end + 8 {
        return Err(Error::SerializationError(SerializationError::InvalidData));
    }
    let (summed, sum) = bytes.split_at(end);
    if check_sum(summed).as_slice() != sum {
        return Err(Error::SerializationError(SerializationError::InvalidData));
    }
    Ok(inputs)
}
