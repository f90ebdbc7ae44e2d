//! A client of a log, which keeps the last root and size that it took.

use ark_crypto_primitives::Error;
use ark_crypto_primitives::log::{LogHasher, verify_consistency_bytes, verify_inclusion_bytes};
use std::alloc::Global;

/// The root of a log over its entries, and their count.
#[derive(Clone, Copy)]
pub struct Head {
    pub root: [u8; 32],
    pub size: u64,
}

/// Returns whether an entry stands at an index of a log, by the bytes of its proof. Errors: those of
/// `verify_inclusion_bytes`.
pub fn holds(
    alloc: Global,
    head: &Head,
    index: u64,
    entry: &Vec<u8>,
    proof: &[u8],
) -> Result<bool, Error> {
    verify_inclusion_bytes(
        alloc, &LogHasher, &head.root, head.size, index, entry, proof,
    )
}

/// Returns whether a log that has grown did nothing else, by the bytes of a consistency proof. Errors: those of
/// `verify_consistency_bytes`.
pub fn goes_on(alloc: Global, old: &Head, new: &Head, proof: &[u8]) -> Result<bool, Error> {
    verify_consistency_bytes(
        alloc, &LogHasher, old.size, &old.root, new.size, &new.root, proof,
    )
}
