//! Maps that are kept in memory of the caller's: entries of 64 bytes, and forks of 48.
//!
//! A change writes what it makes behind what is there, so that the memory of each older head still has the older map.
#![tactic(auto)]

pub mod between;
pub mod check;
pub mod copy;
pub mod differ;
mod digests;
pub mod find;
pub mod hash;
pub mod head;
pub mod many;
pub mod next;
mod nodes;
pub mod prove;
pub mod put;
pub mod remove;
pub mod root;

pub use hash::{KeptHash, KeptSha256};
pub use head::{Head, MapFault};
