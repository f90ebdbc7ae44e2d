//! The constants and the matrix of Poseidon, and the constants of Poseidon2, for any field and width, of the Grain LFSR, as the authors of Poseidon define them.
#![tactic(auto)]

mod defaults;
mod draws;
mod matrix;
mod parameters;
mod permuting;
mod poseidon_two;
mod ready;
mod register;

pub use defaults::{
    PoseidonDefaultConfig, PoseidonDefaultConfigEntry, get_default_poseidon_parameters,
};
pub use parameters::{find_poseidon_ark_and_mds, poseidon_parameters};
pub use permuting::{
    drawn_permutations_tell_states, is_permuting, permutation_tells_states, powers_tell_elements,
};
pub use poseidon_two::{Poseidon2Constants, poseidon2_constants};
pub use ready::{circom_parameters, circom_rounds, pasta_parameters};
