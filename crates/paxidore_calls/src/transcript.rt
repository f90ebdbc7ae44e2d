//! Transcripts by the bytes of their parameters and of their state.

pub mod forms;
pub mod items;
pub mod parameters;
pub mod reading;
pub mod steps;
pub mod writing;
