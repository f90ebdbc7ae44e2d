//! A comparison of what a keyed function gave.

ghost use Rattle.std.specs.Prelude.{◌≡◌};
ghost use Rattle.std.specs.Bool.{Decides};

/// Returns whether two digests are the same bytes. It compares all bytes, and no branch depends on one: so its time says
/// nothing of a code that was guessed, or of an output that is secret. The lengths are public.
pub fn is_same_digest(a: &[u8], b: &[u8]) -> bool
    ensures { Decides result (a.now ≡ b.now) }
{
    if a.len() != b.len() {
        return false;
    }
    let mut same = true;
    for i in 0..a.len() {
        same = same & (a[i] == b[i]);
    }
    same
}
