//! Bytes and the digits that spell them in hexadecimal.

ghost use Rattle.std.specs.Prelude.{◌≡◌, ◌*◌, ◌<◌, length, map, slice_index, true, false, Some, None};
ghost use Rattle.std.specs.List.{range_with_len};
ghost use Rattle.std.specs.Result.{result_ok};
ghost use Rattle.hex.specs.Hex.{decode_pairs, encode_lower, lower_digits};
ghost use Rattle.acp_run.specs.Tokens.{digit_number};

// What each byte is as a digit of either case, or 255. A table has no branch that a digit decides.
static DIGITS: [u8; 256] = [
    255, 255, 255, 255, 255, 255, 255, 255, 255, 255, 255, 255, 255, 255, 255, 255, 255, 255, 255,
    255, 255, 255, 255, 255, 255, 255, 255, 255, 255, 255, 255, 255, 255, 255, 255, 255, 255, 255,
    255, 255, 255, 255, 255, 255, 255, 255, 255, 255, 0, 1, 2, 3, 4, 5, 6, 7, 8, 9, 255, 255, 255,
    255, 255, 255, 255, 10, 11, 12, 13, 14, 15, 255, 255, 255, 255, 255, 255, 255, 255, 255, 255,
    255, 255, 255, 255, 255, 255, 255, 255, 255, 255, 255, 255, 255, 255, 255, 255, 10, 11, 12, 13,
    14, 15, 255, 255, 255, 255, 255, 255, 255, 255, 255, 255, 255, 255, 255, 255, 255, 255, 255,
    255, 255, 255, 255, 255, 255, 255, 255, 255, 255, 255, 255, 255, 255, 255, 255, 255, 255, 255,
    255, 255, 255, 255, 255, 255, 255, 255, 255, 255, 255, 255, 255, 255, 255, 255, 255, 255, 255,
    255, 255, 255, 255, 255, 255, 255, 255, 255, 255, 255, 255, 255, 255, 255, 255, 255, 255, 255,
    255, 255, 255, 255, 255, 255, 255, 255, 255, 255, 255, 255, 255, 255, 255, 255, 255, 255, 255,
    255, 255, 255, 255, 255, 255, 255, 255, 255, 255, 255, 255, 255, 255, 255, 255, 255, 255, 255,
    255, 255, 255, 255, 255, 255, 255, 255, 255, 255, 255, 255, 255, 255, 255, 255, 255, 255, 255,
    255, 255, 255, 255, 255, 255, 255, 255, 255, 255, 255, 255, 255, 255, 255, 255, 255, 255, 255,
    255, 255, 255,
];

#[inline(always)]
fn all_digits() -> &'static [u8; 256]
    ensures { result.now ≡ map digit_number (range_with_len 0 256) }
{
    &DIGITS
}

// Returns the number of a digit of either case, or 255.
#[inline(always)]
fn digit_number(digit: u8) -> u8
    ensures { result ≡ digit_number digit }
{
    all_digits()[digit as usize]
}

/// Writes the bytes that digits spell, two digits a byte, and returns whether all are digits.
pub fn write_bytes(digits: &[u8], bytes: &mut [u8]) -> bool
    requires { length digits.now ≡ 2 * length bytes.old }
    ensures all { result ≡ true → result_ok (decode_pairs 0 digits.now) ≡ Some bytes.new }
    ensures none { result ≡ false → result_ok (decode_pairs 0 digits.now) ≡ None }
{
    for i in 0..bytes.len() {
        let high = digit_number(digits[2 * i]);
        let low = digit_number(digits[2 * i + 1]);
        if high > 15 || low > 15 {
            return false;
        }
        bytes[i] = high * 16 + low;
    }
    true
}

// Returns the digit of a number below 16. It takes no table, so that many digits are written together.
#[inline(always)]
fn digit_of(number: u8) -> u8
    requires { number < 16 }
    ensures { result ≡ slice_index lower_digits number }
{
    if number < 10 {
        48 + number
    } else {
        87 + number
    }
}

/// Writes the digits that spell bytes, two a byte, with lower case letters.
pub fn write_digits(bytes: &[u8], digits: &mut [u8])
    requires { length digits.old ≡ 2 * length bytes.now }
    ensures { digits.new ≡ encode_lower bytes.now }
{
    for i in 0..bytes.len() {
        let byte = bytes[i];
        digits[2 * i] = digit_of(byte / 16);
        digits[2 * i + 1] = digit_of(byte % 16);
    }
}
