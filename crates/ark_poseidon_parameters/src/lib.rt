//! Ready parameters of Poseidon over fields of four words, and the S-box that is a power.
#![tactic(auto)]

mod bls12_381;
mod bn254;
mod rows;
mod sbox;

pub use bls12_381::bls12_381_fr;
pub use bn254::bn254_fr;
pub use sbox::Power;
