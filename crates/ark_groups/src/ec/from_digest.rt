//! Groups whose elements are found in digests.

ghost use Rattle.std.specs.Prelude.{◌≡◌, ℕ, List, Option};

use crate::ec::AdditiveGroup;

/// A group with elements that are found in digests, so that setups from a label need nobody's trust.
pub trait FromDigest: AdditiveGroup {
    // The element that 32 bytes give, if they give one.
    ghost found_in: { List ℕ → Option Self };

    /// Returns the element that a digest gives. `None` where it gives none.
    fn from_digest(digest: &[u8; 32]) -> Option<Self>
        ensures { result ≡ found_in digest.now };
}
