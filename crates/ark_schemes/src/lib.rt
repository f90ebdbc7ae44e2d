//! Pseudorandom functions and commitments: those of BLAKE2s (RFC 7693), and Pedersen's; and generators from labels.
#![tactic(auto)]

pub mod commitment;
pub mod from_label;
pub mod prf;
