//! Signatures.

ghost use Rattle.std.specs.Prelude.{ℕ, List, Bool};
ghost use Rattle.rand_core.specs.Stream.{Stream};
ghost use Rattle.ark_base.specs.Outcome.{Outcome};

pub mod schnorr;

use ark_base::error::Error;
use ark_base::serialize::CanonicalSerialize;
use rand::Rng;
use std::alloc::Global;
use std::hash::Hash;

/// A way to sign bytes, whose keys and signatures can be randomised.
pub trait SignatureScheme {
    type Parameters: Clone;

    type PublicKey: CanonicalSerialize + Hash + Eq + Clone + Default;

    type SecretKey: CanonicalSerialize + Clone + Default;

    type Signature: Clone + Default;

    // What each call answers, and what it leaves of the stream that it draws from.
    ghost setup_gives: { Stream → Outcome Self.Parameters → Stream → Type 0 };

    ghost keygen_gives: { Self.Parameters
        → Stream → Outcome (Self.PublicKey × Self.SecretKey) → Stream → Type 0 };

    ghost sign_gives: { Self.Parameters → Self.SecretKey → List ℕ
        → Stream → Outcome Self.Signature → Stream → Type 0 };

    ghost verify_gives: { Self.Parameters → Self.PublicKey → List ℕ → Self.Signature
        → Outcome Bool → Type 0 };

    ghost public_key_gives: { Self.Parameters → Self.PublicKey → List ℕ
        → Outcome Self.PublicKey → Type 0 };

    ghost signature_gives: { Self.Parameters → Self.Signature → List ℕ
        → Outcome Self.Signature → Type 0 };

    /// Makes parameters from what it draws.
    ///
    /// Errors: what `setup_gives` says.
    fn setup<R: Rng>(alloc: Global, rng: &mut R) -> Result<Self::Parameters, Error>
        ensures { setup_gives (R.stream rng.old) result (R.stream rng.new) };

    /// Makes a public key and its secret key from what it draws.
    ///
    /// Errors: what `keygen_gives` says.
    fn keygen<R: Rng>(
        alloc: Global,
        pp: &Self::Parameters,
        rng: &mut R,
    ) -> Result<(Self::PublicKey, Self::SecretKey), Error>
        ensures { keygen_gives pp.now (R.stream rng.old) result (R.stream rng.new) };

    /// Signs the message with what it draws.
    ///
    /// Errors: what `sign_gives` says.
    fn sign<R: Rng>(
        alloc: Global,
        pp: &Self::Parameters,
        sk: &Self::SecretKey,
        message: &[u8],
        rng: &mut R,
    ) -> Result<Self::Signature, Error>
        ensures { sign_gives pp.now sk.now message.now (R.stream rng.old) result
            (R.stream rng.new) };

    /// Returns whether the message is signed under the public key.
    ///
    /// Errors: what `verify_gives` says.
    fn verify(
        alloc: Global,
        pp: &Self::Parameters,
        pk: &Self::PublicKey,
        message: &[u8],
        signature: &Self::Signature,
    ) -> Result<bool, Error>
        ensures { verify_gives pp.now pk.now message.now signature.now result };

    /// Returns another public key, by the randomness.
    ///
    /// Errors: what `public_key_gives` says.
    fn randomize_public_key(
        alloc: Global,
        pp: &Self::Parameters,
        public_key: &Self::PublicKey,
        randomness: &[u8],
    ) -> Result<Self::PublicKey, Error>
        ensures { public_key_gives pp.now public_key.now randomness.now result };

    /// Returns the signature for the public key that the same randomness makes.
    ///
    /// Errors: what `signature_gives` says.
    fn randomize_signature(
        alloc: Global,
        pp: &Self::Parameters,
        signature: &Self::Signature,
        randomness: &[u8],
    ) -> Result<Self::Signature, Error>
        ensures { signature_gives pp.now signature.now randomness.now result };
}
