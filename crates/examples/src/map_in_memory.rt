//! A map in memory of the caller's: who keeps an older head has the older map.

use ark_crypto_primitives::map::KeyProof;
use ark_crypto_primitives::map::kept_map::prove::{ProveFault, prove};
use ark_crypto_primitives::map::kept_map::put::put;
use ark_crypto_primitives::map::kept_map::root::root;
use ark_crypto_primitives::map::kept_map::{Head, KeptSha256, MapFault};
use std::alloc::Global;

/// Puts a value at a key, and returns the root. The head before still names the map before.
pub fn set(
    entries: &mut [[u8; 64]],
    forks: &mut [[u8; 48]],
    head: &mut Head,
    key: &[u8; 32],
    value: &[u8; 32],
) -> Result<[u8; 32], MapFault> {
    put(entries, forks, head, key, value)?;
    root::<KeptSha256>(entries, forks, head)
}

/// Returns the proof of what the map of a head has at a key, a value or nothing.
pub fn prove_key(
    alloc: Global,
    entries: &[[u8; 64]],
    forks: &[[u8; 48]],
    head: &Head,
    key: &[u8; 32],
) -> Result<KeyProof<[u8; 32]>, ProveFault> {
    prove::<KeptSha256>(alloc, entries, forks, head, key)
}
