//! Ed25519 (RFC 8032, section 5.1).

ghost use Rattle.std.specs.Prelude.{◌≡◌, ◌⊎◌, pos};
ghost use Rattle.ed25519.specs.Signatures.{IsSignature, key_of, signature_of};

use ed25519::{public_key, sign, verify};

/// Writes the key of a seed to `key`. It allocates nothing and never fails.
#[unsafe(no_mangle)]
pub extern "C" fn paxidore_ed25519_public_key(key: &mut [u8; 32], seed: &[u8; 32])
    ensures { key.new ≡ key_of seed.now }
{
    *key = public_key(seed);
}

/// Writes the signature of a message by the key of a seed to `signature`. It allocates nothing and never fails.
#[unsafe(no_mangle)]
pub extern "C" fn paxidore_ed25519_sign(signature: &mut [u8; 64], seed: &[u8; 32], message: &[u8])
    ensures { signature.new ≡ signature_of seed.now message.now }
{
    *signature = sign(seed, message);
}

/// Returns whether it is a signature of the message under the key. It allocates nothing.
///
/// Answers: 0 for a yes, else 1.
#[unsafe(no_mangle)]
pub extern "C" fn paxidore_ed25519_verify(
    key: &[u8; 32],
    message: &[u8],
    signature: &[u8; 64],
) -> i32
    ensures answer { (result ≡ pos 0) ⊎ (result ≡ pos 1) }
    ensures signs { result ≡ pos 0 → IsSignature key.now message.now signature.now }
    ensures signs_not { result ≡ pos 1 → IsSignature key.now message.now signature.now → ⊥ }
{
    if verify(key, message, signature) {
        return 0;
    }
    1
}
