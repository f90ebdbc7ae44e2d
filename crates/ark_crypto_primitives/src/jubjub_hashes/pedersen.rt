//! Pedersen's hashes over Jubjub: sums of elements at the set bits of an input.

mod one;
mod pair;
mod parameters;

pub use one::PedersenCRH;
pub use pair::PedersenTwoToOneCRH;
pub use parameters::PedersenParameters;
