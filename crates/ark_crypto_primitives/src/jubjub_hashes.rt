//! Pedersen's and Bowe-Hopwood's hashes over Jubjub as types that name no group.

mod bowe_hopwood;
mod pedersen;

pub use bowe_hopwood::{BoweHopwoodCRH, BoweHopwoodParameters, BoweHopwoodTwoToOneCRH};
pub use pedersen::{PedersenCRH, PedersenParameters, PedersenTwoToOneCRH};
