//! Authenticated maps: one root for keys of 32 bytes with their values, and proofs of what a map has at a key and of what it
//! has not.
//!
//! The tree is the compact sparse Merkle tree: entries are told apart by the bits of their keys.
#![tactic(auto)]

mod bytes;
mod fill;
pub mod hasher;
pub mod kept;
mod key;
pub mod laws;
mod next;
mod part;
pub mod proof;
mod proof_bytes;
mod prune;
mod put;
mod remove;
mod rows;
pub mod sha256;
mod together;
mod top;
pub mod transition;
pub mod tree;
pub mod verify;

pub use bytes::{push_entry, push_hidden};
pub use hasher::{MapHasher, MapViews};
pub use kept::KeptMap;
pub use key::{are_same_keys, bit_of, is_key_below};
pub use next::turns;
pub use part::{Entry, HIDDEN};
pub use proof::{End, KeyProof};
pub use sha256::Sha256Map;
pub use transition::{Change, change_from, rows_after, verify_transition};
pub use tree::MapTree;
pub use verify::{verify_absent, verify_other, verify_value};
