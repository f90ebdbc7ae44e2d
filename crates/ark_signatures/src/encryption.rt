//! Encryption under a public key.

ghost use Rattle.rand_core.specs.Stream.{Stream};
ghost use Rattle.ark_base.specs.Outcome.{Outcome};

pub mod elgamal;

use ark_base::error::Error;
use rand::Rng;
use std::alloc::Global;

/// A way to encrypt under a public key what its secret key decrypts.
pub trait AsymmetricEncryptionScheme {
    type Parameters;

    type PublicKey;

    type SecretKey;

    type Randomness;

    type Plaintext;

    type Ciphertext;

    // What each call answers, and what it leaves of the stream that it draws from.
    ghost setup_gives: { Stream → Outcome Self.Parameters → Stream → Type 0 };

    ghost keygen_gives: { Self.Parameters
        → Stream → Outcome (Self.PublicKey × Self.SecretKey) → Stream → Type 0 };

    ghost encrypt_gives: { Self.Parameters → Self.PublicKey → Self.Plaintext → Self.Randomness
        → Outcome Self.Ciphertext → Type 0 };

    ghost decrypt_gives: { Self.Parameters → Self.SecretKey → Self.Ciphertext
        → Outcome Self.Plaintext → Type 0 };

    /// Makes parameters from what it draws.
    ///
    /// Errors: what `setup_gives` says.
    fn setup<R: Rng>(alloc: Global, rng: &mut R) -> Result<Self::Parameters, Error>
        ensures { setup_gives (R.stream rng.old) result (R.stream rng.new) };

    /// Makes a public key and its secret key from what it draws.
    ///
    /// Errors: what `keygen_gives` says.
    fn keygen<R: Rng>(
        alloc: Global,
        pp: &Self::Parameters,
        rng: &mut R,
    ) -> Result<(Self::PublicKey, Self::SecretKey), Error>
        ensures { keygen_gives pp.now (R.stream rng.old) result (R.stream rng.new) };

    /// Returns the ciphertext of a message under a public key and randomness.
    ///
    /// Errors: what `encrypt_gives` says.
    fn encrypt(
        alloc: Global,
        pp: &Self::Parameters,
        pk: &Self::PublicKey,
        message: &Self::Plaintext,
        r: &Self::Randomness,
    ) -> Result<Self::Ciphertext, Error>
        ensures { encrypt_gives pp.now pk.now message.now r.now result };

    /// Returns what the secret key reads in a ciphertext.
    ///
    /// Errors: what `decrypt_gives` says.
    fn decrypt(
        alloc: Global,
        pp: &Self::Parameters,
        sk: &Self::SecretKey,
        ciphertext: &Self::Ciphertext,
    ) -> Result<Self::Plaintext, Error>
        ensures { decrypt_gives pp.now sk.now ciphertext.now result };
}
