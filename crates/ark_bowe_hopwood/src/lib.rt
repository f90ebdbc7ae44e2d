//! Bowe-Hopwood hashes: the first coordinate of a sum of elements, each as often as a signed digit of three bits says.
#![tactic(auto)]

mod binding;
mod bits;
mod crh;
mod node;
mod parameters;
mod setup;
mod sums;
mod text;
mod two_to_one;

pub use binding::{bit_hashes_bind, hashes_bind, nodes_bind};
pub use bits::hash_bits;
pub use crh::{CRH, parameters_of};
pub use node::{NodeCRH, NodeParameters, hash_node};
pub use parameters::Parameters;
pub use setup::is_fitting;
pub use two_to_one::TwoToOneCRH;

/// The bits of a chunk (Zcash protocol specification, section 5.4.1.7).
pub const CHUNK_SIZE: usize = 3;
