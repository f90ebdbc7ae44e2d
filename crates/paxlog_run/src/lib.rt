//! What the command `paxlog` is asked for, and what it says of a log: words, entries, lines and verdicts.
#![tactic(auto)]

pub mod entries;
pub mod replies;
pub mod request;
pub mod verdicts;
