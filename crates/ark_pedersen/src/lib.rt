//! Pedersen hashes: the sum of the generators at the set bits of an input, and maps of such sums.
#![tactic(auto)]

mod binding;
mod bits;
mod crh;
mod generators;
pub mod injective_map;
mod parameters;
mod sums;
mod two_to_one;
mod window;

pub use binding::{
    couples_bind, relation_of, relations_give_elements, relations_tell_elements, windows_fit,
};
pub use bits::{bytes_to_bits, hash_bits};
pub use crh::{CRH, doublings_of, parameters_of};
pub use generators::{drawn_lists, generator_at, iterates_of, lists_of};
pub use parameters::Parameters;
pub use sums::{has_shape, hash_bytes, hash_halves, sum_of_bytes};
pub use two_to_one::TwoToOneCRH;
pub use window::{Window, Windows4x64, Windows4x256, Windows63x9};
