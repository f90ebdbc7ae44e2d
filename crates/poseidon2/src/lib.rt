//! The permutation Poseidon2 over any field, for states of two or three elements or of a multiple of four; the parameters
//! of deployments; hashes of elements, of digests and of lists.
#![tactic(auto)]

mod blocks;
mod compression;
mod config;
mod deployed;
mod layers;
mod modes;
mod ready;
mod rounds;

pub use blocks::{BlockMatrix, CirculantMatrix, Four, PaperMatrix};
pub use compression::Poseidon2TwoToOneCRH;
pub use config::Poseidon2Config;
pub use deployed::{
    baby_bear_poseidon2, goldilocks_poseidon2, koala_bear_poseidon2, risc_zero_poseidon2,
};
pub use ready::{bn254_poseidon2, poseidon2_parameters};
