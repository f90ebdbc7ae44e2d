//! circomlib's hash of elements that are bytes, and logs over it: LeanIMTs, as Semaphore has them.
//!
//! An element is 32 bytes, the least first or the greatest, of a number below the modulus of BN254's scalar field. A table
//! holds what the hash of so many inputs runs by. It is made once, and may be kept as bytes, with a check sum. A log's node
//! without a sibling is its own parent, which is the shape of RFC 6962's trees without their prefixes. The stored digests of
//! a log lie in the caller's memory, as `merkle_log::kept` has them.
#![tactic(auto)]

mod change;
mod elements;
mod forms;
mod frame;
mod hash;
mod list;
mod log;
mod nodes;
mod refusal;
mod table;
mod tree;

pub use change::change_element;
pub use elements::{ByteOrder, are_elements};
pub use list::{path_of_elements, root_of_elements};
pub use log::{appended_digests, inclusion_path, kept_log_root};
pub use nodes::CircomNodes;
pub use refusal::{NoElement, NodeRefusal};
pub use table::{CircomTable, circom_table, is_element};
pub use tree::CircomTree;
