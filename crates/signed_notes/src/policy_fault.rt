//! Why a policy file is none.

ghost use Rattle.std.specs.Prelude.{◌≡◌};
ghost use Rattle.signed_notes.specs.declared.fault.Fault.TheVariants.{Memory};
ghost use Rattle.signed_notes.specs.declared.policy_fault.PolicyFault.TheVariants.{Note};

use crate::fault::Fault;
use std::alloc::{AllocError, AllocFailed};

/// Why a policy file is none.
#[derive(Clone, Copy, Debug, PartialEq, Eq)]
pub enum PolicyFault {
    /// A key is none, or a request for memory was refused.
    Note(Fault),
    /// A line begins with another word than `log`, `witness`, `group` or `quorum`.
    Command,
    /// A line has too few words, or too many.
    Words,
    /// A second log is named.
    SecondLog,
    /// A second quorum is named.
    SecondQuorum,
    /// A name stands for something already; `none` always does.
    Twice,
    /// A name stands for nothing yet.
    Unknown,
    /// A member of a group is a group.
    Nested,
    /// The count of a group is not `any`, `all` or a number from 1 to that of its members.
    Count,
    /// No log is named.
    NoLog,
    /// No quorum is named.
    NoQuorum,
}

/// Why a policy file is none, and the number of the line that tells it, from 1 on: of the file as a whole the last one.
#[derive(Clone, Copy, Debug, PartialEq, Eq)]
pub struct PolicyFaultAt {
    pub line: usize,
    pub why: PolicyFault,
}

impl From<AllocError> for PolicyFault {
    ghost from_gives = { λ _ why. why ≡ Note Memory };

    fn from(_refused: AllocError) -> PolicyFault {
        PolicyFault::Note(Fault::Memory)
    }
}

impl<T: Drop> From<AllocFailed<T>> for PolicyFault {
    ghost from_gives = { λ _ why. why ≡ Note Memory };

    fn from(_refused: AllocFailed<T>) -> PolicyFault {
        PolicyFault::Note(Fault::Memory)
    }
}
