//! Ed25519 as a signature scheme.

ghost use Rattle.std.specs.Prelude.{◌≡◌, Ok, Err, MatchResult};
ghost use Rattle.std.specs.Bool.{Decides};
ghost use Rattle.rand_core.specs.Stream.{fill_bytes};
ghost use Rattle.ark_base.specs.declared.error.Error.TheVariants.{GenericError};
ghost use Rattle.ark_base.specs.declared.error.Refusal.TheVariants.{Custom};
ghost use Rattle.ed25519.specs.Signatures.{key_of, signature_of, IsSignature};

use ark_base::error::{Error, Refusal};
use ark_groups::ff::UniformRand;
use ark_signatures::signature::SignatureScheme;
use ed25519::{public_key, sign, verify};
use rand::Rng;
use std::alloc::Global;

/// The error of what Ed25519 does not have: keys and signatures that are made random. A refusal of one's own has another
/// number.
pub const NOT_RANDOMIZED: Refusal = Refusal::Custom(2);

/// Ed25519 (RFC 8032): a secret key is a seed. It has no parameters.
pub struct Ed25519;

impl SignatureScheme for Ed25519 {
    type Parameters = ();

    type PublicKey = [u8; 32];

    type SecretKey = [u8; 32];

    type Signature = [u8; 64];

    ghost setup_gives = { λ before result after. (result ≡ Ok tt) × (after ≡ before) };

    // The seed is what is drawn.
    ghost keygen_gives = { λ _ before result after.
        (result ≡ Ok (key_of (fill_bytes 32 before).0, (fill_bytes 32 before).0))
        × (after ≡ (fill_bytes 32 before).1) };

    ghost sign_gives = { λ _ seed message before result after.
        (result ≡ Ok (signature_of seed message)) × (after ≡ before) };

    ghost verify_gives = { λ _ key message signature result.
        MatchResult result (λ holds. Decides holds (IsSignature key message signature)) (λ _. ⊥) };

    ghost public_key_gives = { λ _ _ _ result. result ≡ Err (GenericError (Custom 2)) };

    ghost signature_gives = { λ _ _ _ result. result ≡ Err (GenericError (Custom 2)) };

    /// Makes no parameters, since there are none.
    fn setup<R: Rng>(_alloc: Global, _rng: &mut R) -> Result<(), Error> {
        Ok(())
    }

    /// Draws a seed of 32 bytes, and returns its public key and itself.
    fn keygen<R: Rng>(
        _alloc: Global,
        _pp: &(),
        rng: &mut R,
    ) -> Result<([u8; 32], [u8; 32]), Error> {
        let seed = <[u8; 32]>::rand(rng);
        Ok((public_key(&seed), seed))
    }

    /// Signs the message, and draws nothing.
    fn sign<R: Rng>(
        _alloc: Global,
        _pp: &(),
        sk: &[u8; 32],
        message: &[u8],
        _rng: &mut R,
    ) -> Result<[u8; 64], Error> {
        Ok(sign(sk, message))
    }

    /// Returns whether it is a signature of the message.
    fn verify(
        _alloc: Global,
        _pp: &(),
        pk: &[u8; 32],
        message: &[u8],
        signature: &[u8; 64],
    ) -> Result<bool, Error> {
        Ok(verify(pk, message, signature))
    }

    /// Returns `NOT_RANDOMIZED`.
    fn randomize_public_key(
        _alloc: Global,
        _pp: &(),
        _public_key: &[u8; 32],
        _randomness: &[u8],
    ) -> Result<[u8; 32], Error> {
        Err(Error::GenericError(NOT_RANDOMIZED))
    }

    /// Returns `NOT_RANDOMIZED`.
    fn randomize_signature(
        _alloc: Global,
        _pp: &(),
        _signature: &[u8; 64],
        _randomness: &[u8],
    ) -> Result<[u8; 64], Error> {
        Err(Error::GenericError(NOT_RANDOMIZED))
    }
}
