//! An identity of circuits: a key of Baby Jubjub, and signatures with Poseidon that circuits of circomlib check.

use ark_crypto_primitives::Error;
use ark_crypto_primitives::ec::baby_jubjub::{Point, PointFault};
use ark_crypto_primitives::ff::Bn254Fr;
use ark_crypto_primitives::signature::eddsa_poseidon::{
    EddsaPoseidon, PrivateKey, Signature, SignatureFault,
};
use std::alloc::Global;

/// Why bytes of a stranger's are no identity or no signature.
#[derive(Clone, Copy, Debug, PartialEq, Eq)]
pub enum Fault {
    /// The bytes are no point's, or one outside the prime subgroup.
    Key(PointFault),
    /// The bytes are no signature's.
    Signature(SignatureFault),
}

/// Returns what signatures are made and checked by. It takes milliseconds, once. The only error is `OutOfMemory`.
pub fn scheme(alloc: Global) -> Result<EddsaPoseidon, Error> {
    EddsaPoseidon::new(alloc)
}

/// Returns the public identity of a private key, as circomlib packs it.
pub fn identity_of(key: &PrivateKey) -> [u8; 32] {
    key.signing_key().public_key().pack()
}

/// Returns the bytes of circomlib's signature of an element, which a scope and a message are hashed to.
pub fn sign(scheme: &EddsaPoseidon, key: &PrivateKey, message: Bn254Fr) -> [u8; 64] {
    scheme.sign_private(key, message).to_bytes()
}

/// Returns whether bytes are a signature of an element by an identity, which lies in the prime subgroup.
///
/// Errors: `Key`, then `Signature`, each with its fault.
pub fn is_signed(
    scheme: &EddsaPoseidon,
    identity: &[u8; 32],
    message: Bn254Fr,
    signature: &[u8; 64],
) -> Result<bool, Fault> {
    let key = match member(identity) {
        Ok(key) => key,
        Err(fault) => return Err(Fault::Key(fault)),
    };
    match Signature::from_bytes(signature) {
        Ok(signature) => Ok(scheme.verify(key, message, signature)),
        Err(fault) => Err(Fault::Signature(fault)),
    }
}

// The point of an identity.
fn member(identity: &[u8; 32]) -> Result<Point, PointFault> {
    Point::unpack(identity)?.in_subgroup()
}
