//! Merkle logs of any size: lists of leaves that only grow, with short proofs that a leaf stands in one and that one is the
//! front of another (RFC 6962 and RFC 9162, section 2.1).
#![tactic(auto)]

pub mod bind;
pub mod consistency;
mod digests;
pub mod frontier;
pub mod inclusion;
pub mod insertion;
pub mod insertion_making;
mod joining;
pub mod kept;
mod laying;
pub mod log;
mod multi_check;
pub mod multi_inclusion;
pub mod multi_making;
pub mod multi_parts;
pub mod nodes;
pub mod path_lengths;
pub mod paths;
mod places;
pub mod received;
mod refusing;
mod rising;
pub mod rows;
mod stored;
mod way;

pub use bind::LogBinding;
pub use consistency::verify_consistency;
pub use frontier::Frontier;
pub use inclusion::{verify_inclusion, verify_inclusion_digest};
pub use insertion::{root_after_insertion, root_after_insertion_bytes};
pub use log::Log;
pub use multi_inclusion::{
    verify_multi_inclusion, verify_multi_inclusion_bytes, verify_multi_inclusion_digests,
};
pub use received::{verify_consistency_bytes, verify_inclusion_bytes};
