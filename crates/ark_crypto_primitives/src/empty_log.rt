//! The log of no entries.

ghost use Rattle.std.specs.Prelude.{◌≡◌, []};
ghost use Rattle.sha2.specs.Sha256.{sha256};

use sha2::{Digest as _, Sha256};

/// Returns the root of a log of no entries: SHA-256 of no bytes (RFC 6962, section 2.1).
pub fn empty_root() -> [u8; 32]
    ensures { result ≡ sha256 [] }
{
    Sha256::digest([].as_slice())
}
