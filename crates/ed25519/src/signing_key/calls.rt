//! The calls of such a key. No branch and no address depends on the seed.

ghost use Rattle.std.specs.Prelude.{◌≡◌};
ghost use Rattle.ed25519.specs.Signatures.{key_of, signature_of};
ghost use Rattle.ed25519.specs.SigningKeys.{seed_of};

use crate::signing::{answered, expanded, multiple_bytes, nonce_of, public_key};
use crate::signing_key::SigningKey;
use ark_groups::ff::Field;

impl SigningKey {
    /// Makes the public key of a seed (RFC 8032, 5.1.5).
    pub fn of(seed: [u8; 32]) -> SigningKey
        ensures { seed_of result ≡ seed }
    {
        SigningKey {
            seed,
            key: public_key(&seed),
        }
    }

    /// Returns the 32 bytes of the key that others are given.
    pub fn public_key(&self) -> [u8; 32]
        ensures { result ≡ key_of (seed_of self.now) }
    {
        self.key
    }

    /// Returns the signature of a message (RFC 8032, 5.1.6).
    pub fn sign(&self, message: &[u8]) -> [u8; 64]
        ensures { result ≡ signature_of (seed_of self.now) message.now }
    {
        let (secret, prefix) = expanded(&self.seed);
        let nonce = nonce_of(prefix.as_slice(), message);
        let first = multiple_bytes(nonce.words());
        answered(secret, nonce, first, &self.key, message)
    }
}
