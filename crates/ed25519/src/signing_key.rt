//! A seed with its public key, so that a signature costs one multiple of the base point.

ghost use Rattle.std.specs.Prelude.{◌≡◌};
ghost use Rattle.ed25519.specs.Signatures.{key_of};

mod calls;

/// A seed with the public key that is made of it once.
///
/// No call takes the two apart, so no signature is made of a seed with another seed's key, which would give the seed away.
#[derive(Clone, Copy)]
pub struct SigningKey {
    seed: [u8; 32],
    key: [u8; 32],
    ghost key_is: { key ≡ key_of seed },
}
