//! The register of the Grain LFSR, and the bits that it gives.

ghost use Rattle.std.specs.Prelude.{◌≡◌, ◌<◌, ◌≤◌, ◌^◌};
ghost use Rattle.ark_groups.specs.Words.{number};
ghost use Rattle.poseidon_grain.specs.Grain.{bit, turned, start, feedback, shifted, stepped, seeded};
ghost use Rattle.poseidon_grain.specs.Grain.{bit_drawn, number_drawn};

use ark_groups::ff::Words;

// The lowest digits of a number, the highest of them as the lowest.
fn turned(count: u32, number: u64) -> u64
    requires { count ≤ 12 }
    ensures value { result ≡ turned count number }
    ensures below { result < 2 ^ 12 }
{
    let mut result = 0;
    for place in 0..count {
        result = (number >> place) % 2 + 2 * result;
    }
    result
}

// The register at the start.
fn start(digits: u32, width: u64, full: u64, partial: u64) -> u128
    ensures { result ≡ start digits width full partial }
{
    2 + (1 << 6) * turned(12, digits as u64) as u128
        + (1 << 18) * turned(12, width) as u128
        + (1 << 30) * turned(10, full) as u128
        + (1 << 40) * turned(10, partial) as u128
        + (1 << 50) * ((1 << 30) - 1)
}

// The bit that comes in.
#[inline(always)]
fn feedback(register: u128) -> u128
    ensures value { result ≡ feedback register }
    ensures below { result < 2 }
{
    ((register >> 62) % 2
        + (register >> 51) % 2
        + (register >> 38) % 2
        + (register >> 23) % 2
        + (register >> 13) % 2
        + register % 2)
        % 2
}

// The register once the oldest bit is out, and the bit that comes in.
#[inline(always)]
fn shifted(register: u128) -> u128
    ensures { result ≡ shifted register }
{
    register / 2 + (1 << 79) * feedback(register)
}

/// Returns the register once its first 160 bits have been dropped.
pub fn seeded(digits: u32, width: u64, full: u64, partial: u64) -> u128
    ensures { result ≡ seeded digits width full partial }
{
    let mut register = start(digits, width, full, partial);
    for _ in 0..160u32 {
        register = shifted(register);
    }
    register
}

/// Draws a bit.
pub fn next_bit(register: &mut u128) -> u64
    ensures drawn { (result, register.new) ≡ bit_drawn register.old }
    ensures below { result < 2 }
{
    for _ in 0..80u32 {
        let first = *register;
        let second = shifted(first);
        *register = shifted(second);
        if feedback(first) == 1 {
            return feedback(second) as u64;
        }
    }
    0
}

// Draws the number of so many bits, the highest first.
fn next_word(register: &mut u128, count: u32) -> u64
    requires { count ≤ 64 }
    ensures { (result, register.new) ≡ number_drawn count register.old }
{
    let mut value = 0;
    for _ in 0..count {
        value = 2 * value + next_bit(register);
    }
    value
}

/// Draws the number of so many bits, at most 256, the highest first.
pub fn next_number(register: &mut u128, count: u32) -> Words
    requires { count ≤ 256 }
    ensures drawn { (number result, register.new) ≡ number_drawn count register.old }
    ensures below { number result < 2 ^ 256 }
{
    let w3 = next_word(register, count.saturating_sub(192));
    let w2 = next_word(register, count.saturating_sub(128).min(64));
    let w1 = next_word(register, count.saturating_sub(64).min(64));
    let w0 = next_word(register, count.min(64));
    Words { w0, w1, w2, w3 }
}
