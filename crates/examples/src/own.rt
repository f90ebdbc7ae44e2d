//! What a crate of one's own writes that names the facade alone: a field, a hash, a type that sponges absorb, a client of a
//! log, and the tree of a prover.

pub mod client;
pub mod field;
pub mod hash;
pub mod payment;
pub mod prover;
