//! Merkle trees whose digests are kept in memory of the caller's, in level order: the root first, the leaf digests last.
//!
//! Each function says what it reads or writes of any memory, and what that is where it holds a tree. A multi-proof is
//! allocated; nothing else is.
#![tactic(auto)]

pub mod build;
pub mod change;
pub mod check;
pub mod join;
pub mod many;
pub mod multi_path;
pub mod path;
mod runs;
