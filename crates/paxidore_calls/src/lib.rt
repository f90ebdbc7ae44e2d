//! What the exports of the library for C call, and what they answer: refusals and their codes, the caller's buffers and leaves,
//! roots without a tree, calls on a log's file, and transcripts.
//!
//! An archive is proved each time that it is built. What stands here is proved once.
#![tactic(auto)]

pub mod buffer;
pub mod file_calls;
pub mod leaves;
pub mod refused;
pub mod roots;
pub mod transcript;
