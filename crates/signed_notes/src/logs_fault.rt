//! Why a list of logs is none.

use crate::fault::Fault;

/// Why a list of logs is none.
#[derive(Clone, Copy, Debug, PartialEq, Eq)]
pub enum LogsFault {
    /// A key is none, an origin is no line of text (`Origin`), or a request for memory was refused.
    Note(Fault),
    /// A line begins with another word than `log`.
    Command,
    /// A line has too few words, or too many.
    Words,
    /// The name of a state is no text.
    State,
    /// A line before names a log of this origin.
    Twice,
    /// No log is named.
    NoLog,
}

/// Why a list of logs is none, and the number of the line that tells it, from 1 on: of the list as a whole the last one.
#[derive(Clone, Copy, Debug, PartialEq, Eq)]
pub struct LogsFaultAt {
    pub line: usize,
    pub why: LogsFault,
}
