//! Bytes that are cut at a mark.

ghost use Rattle.std.specs.Prelude.{◌≡◌, ◌+◌, ◌<◌, ◌≤◌, ◌∷◌, [], length, take, drop, MatchOption, IfSome, Some, None};
ghost use Rattle.signed_notes.specs.Cutting.{cut, cut_at_blank, lines_in};

use memchr::memchr;

/// Returns what stands before the first mark, and what stands behind it; nothing where there is no mark.
pub fn cut(mark: u8, bytes: &[u8]) -> Option<(&[u8], &[u8])>
    ensures parts { MatchOption result (cut mark bytes.now ≡ None)
        (λ found. cut mark bytes.now ≡ Some (found.0.now, found.1.now)) }
    ensures less { IfSome result (λ found. length found.1.now < length bytes.now) }
{
    match memchr(mark, bytes) {
        Some(end) => Some((&bytes[..end], &bytes[end + 1..])),
        None => None,
    }
}

/// Returns what stands before the last empty line, with its line feed, and what stands behind that line.
pub fn cut_at_blank(bytes: &[u8]) -> Option<(&[u8], &[u8])>
    ensures { MatchOption result (cut_at_blank bytes.now ≡ None)
        (λ found. cut_at_blank bytes.now ≡ Some (found.0.now, found.1.now)) }
{
    let mut at = bytes.len();
    'places: while at > 0 {
        at -= 1;
        if bytes[at] == b'\n' && at + 1 < bytes.len() {
            if bytes[at + 1] == b'\n' {
                return Some((&bytes[..at + 1], &bytes[at + 2..]));
            }
        }
    }
    None
}

/// Returns how many lines bytes have.
pub fn line_count(bytes: &[u8]) -> usize
    ensures { result ≡ length (lines_in bytes.now) }
{
    let mut count = 0;
    let mut rest = bytes;
    'lines: while !rest.is_empty() {
        let (_, behind) = next_line(rest);
        rest = behind;
        count += 1;
    }
    count
}

/// Returns the first line of some bytes, without its line feed, and what stands behind that.
pub fn next_line(bytes: &[u8]) -> (&[u8], &[u8])
    requires { 0 < length bytes.now }
    ensures lines { lines_in bytes.now ≡ result.0.now ∷ lines_in result.1.now }
    ensures less { length result.1.now < length bytes.now }
{
    match cut(b'\n', bytes) {
        Some((line, behind)) => (line, behind),
        None => (bytes, &[]),
    }
}
