//! SHA-256 (FIPS 180-4).

ghost use Rattle.std.specs.Prelude.{◌≡◌};
ghost use Rattle.sha2.specs.Sha256.{sha256};

use sha2::{Digest, Sha256};

/// Writes the digest of some bytes to `digest`. It allocates nothing and never fails.
#[unsafe(no_mangle)]
pub extern "C" fn paxidore_sha256(digest: &mut [u8; 32], input: &[u8])
    ensures { digest.new ≡ sha256 input.now }
{
    *digest = Sha256::digest(input);
}
