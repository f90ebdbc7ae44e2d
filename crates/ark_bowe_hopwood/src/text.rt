//! Two texts, read one after the other, with zeros behind them.

ghost use Rattle.std.specs.Prelude.{◌≡◌, ◌+◌, ◌<◌, ◌^◌, ◌++◌, take, drop, get_or};
ghost use Rattle.ark_base.specs.Digits.{number_of_bytes};

/// Returns the number of the three bytes from a place on, the least first.
pub fn number_at(left: &[u8], right: &[u8], place: usize) -> u32
    requires { place + 2 < 2 ^ 64 }
    ensures { result ≡ number_of_bytes (take 3 (drop place (left.now ++ right.now))) }
{
    byte_at(left, right, place) as u32
        + 256 * byte_at(left, right, place + 1) as u32
        + 65536 * byte_at(left, right, place + 2) as u32
}

// The byte at a place.
fn byte_at(left: &[u8], right: &[u8], place: usize) -> u8
    ensures { result ≡ get_or (left.now ++ right.now) place 0 }
{
    if place < left.len() {
        left[place]
    } else if place - left.len() < right.len() {
        right[place - left.len()]
    } else {
        0
    }
}
