//! Merkle trees of a fixed depth whose last leaves are empty, of which one node a level is stored: leaves are appended, the
//! root and paths of leaves are those of the whole tree (Zcash's note commitment trees, Ethereum's deposit contract, Tornado
//! Cash, Semaphore v3).
#![tactic(auto)]

pub mod completed;
pub mod hasher;
pub mod kept_path;
mod nodes;
pub mod refusal;
pub mod tree;
mod verify;

pub use completed::Completed;
pub use hasher::{EachLevel, LevelHasher};
pub use kept_path::KeptPath;
pub use refusal::TreeRefusal;
pub use tree::IncrementalTree;
pub use verify::verify_rising;
