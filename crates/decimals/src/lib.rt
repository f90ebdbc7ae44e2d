//! Numbers in decimal, as the programs read them: digits alone, without leading zeros, below 2^64.
#![tactic(auto)]

ghost use Rattle.std.specs.Prelude.{◌≡◌};
ghost use Rattle.decimals.specs.Decimals.{decimal_number};

#[cfg(test)]
mod tests;

/// Returns the number that some bytes spell in decimal; `None` for a sign, a leading zero, other bytes than digits, no
/// bytes, and a number of 2^64 or more.
pub fn decimal_number(text: &[u8]) -> Option<usize>
    ensures { result ≡ decimal_number text.now }
{
    let first = *text.first()?;
    if first == b'+' || first == b'0' && text.len() > 1 {
        return None;
    }
    str::from_utf8(text).ok()?.parse().ok()
}
