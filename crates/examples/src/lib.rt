//! Examples of library use: each a few proved functions to copy.
#![tactic(auto)]

pub mod bounds;
pub mod directory;
pub mod growing_log;
pub mod identity;
pub mod jubjub_trees;
pub mod log;
pub mod map_in_memory;
pub mod members;
pub mod note_tree;
pub mod own;
pub mod plain;
pub mod reveal;
pub mod rows;
pub mod sealed_bids;
pub mod secret_shares;
pub mod several_entries;
pub mod signed_checkpoints;
pub mod store;
pub mod transcript;
pub mod wide_hash;
