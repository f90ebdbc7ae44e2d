//! The library for C, and for what calls C: Merkle trees over byte strings, clients and keepers of transparency logs,
//! transcripts, SHA-256, BLAKE2s, commitments and Ed25519.
//!
//! `include/paxidore.h` declares the exports. Each that can refuse answers 0 where all is well, 1 where a proof was read and
//! does not show the leaf, or a negative code, and then leaves the caller's buffers as they were.
#![tactic(auto)]

pub mod blake2s;
pub mod file_calls;
mod hashing;
pub mod kept_changes;
pub mod kept_maps;
pub mod kept_proofs;
pub mod kept_trees;
pub mod log;
pub mod log_keeper;
pub mod log_multi;
pub mod map;
pub mod notes;
pub mod poseidon;
pub mod poseidon_log;
pub mod poseidon_log_changes;
pub mod poseidon_log_insertion;
pub mod poseidon_log_kept;
pub mod sha256;
pub mod signatures;
pub mod transcript;
pub mod trees;
