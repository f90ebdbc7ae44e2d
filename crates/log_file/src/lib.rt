//! The file of a log: its head of a title and two slots, the stored digests behind that, and what can be wrong with it.
#![tactic(auto)]

pub mod fault;
pub mod file;
pub mod head;
