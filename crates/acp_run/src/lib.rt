//! Runs a session of the program `acp` over a reader and a writer, by the words behind the program's name.
#![tactic(auto)]

pub mod answering;
pub mod buffered;
pub mod command;
pub mod run;
pub mod session;
pub mod streams;
pub mod words;
