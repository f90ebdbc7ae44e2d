//! ElGamal encryption and Schnorr signatures, over any group, and Shamir's secret sharing, over any field with inverses.
#![tactic(auto)]

pub mod encryption;
pub mod secret_shares;
pub mod signature;
