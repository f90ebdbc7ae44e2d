//! Why a call is refused, and the codes of answers.

ghost use Rattle.std.specs.Prelude.{◌≡◌};
ghost use Rattle.paxidore_calls.specs.declared.refused.Refused.TheVariants.{Memory};
ghost use Rattle.circom.specs.Nodes.{refusal_error};
ghost use Rattle.paxidore_calls.specs.Answer.{refusal_code, refused_of, refusing, verdict_code};

use ark_base::error::{Error, SerializationError};
use circom::NodeRefusal;
use std::alloc::{AllocError, AllocFailed};

/// Why a call is refused.
#[derive(Clone, Copy, Debug, PartialEq, Eq)]
pub enum Refused {
    /// A request for memory was refused.
    Memory,
    /// The bytes of a proof end early.
    Truncated,
    /// The bytes are no proof of what was asked for: a part has a value that it may not have, bytes are left behind the
    /// proof, or its indexes are others.
    Invalid,
    /// A path has not the length of those of a tree with this size.
    Height,
    /// No tree has this size.
    Size,
    /// The lengths of the leaves do not sum to that of their bytes.
    Lengths,
    /// There are not as many leaves as indexes.
    Count,
    /// There is no index, or no leaf at one.
    Index,
    /// The caller's buffer is too short.
    Room,
    /// A tree hides what a call on its map needs.
    Hidden,
    /// A text is no policy.
    NoPolicy,
    /// A signature that names a key is none by it.
    BadSignature,
    /// The log did not sign a note, or too few keys of witnesses did.
    Unsigned,
    /// A checkpoint is of another origin.
    OtherOrigin,
    /// A refusal that no hash of this library gives.
    Other,
}

impl Refused {
    /// Returns the code of the refusal.
    pub fn code(self) -> i32
        ensures { result ≡ refusal_code self }
    {
        match self {
            Refused::Memory => -1,
            Refused::Truncated => -2,
            Refused::Invalid => -3,
            Refused::Height => -4,
            Refused::Size => -5,
            Refused::Lengths => -6,
            Refused::Count => -7,
            Refused::Index => -8,
            Refused::Room => -9,
            Refused::Hidden => -15,
            Refused::NoPolicy => -16,
            Refused::BadSignature => -17,
            Refused::Unsigned => -18,
            Refused::OtherOrigin => -19,
            Refused::Other => -99,
        }
    }
}

impl From<Error> for Refused {
    ghost from_gives = { λ error refused. refused ≡ refused_of error };

    fn from(error: Error) -> Refused {
        match error {
            Error::OutOfMemory => Refused::Memory,
            Error::SerializationError(SerializationError::Truncated) => Refused::Truncated,
            Error::SerializationError(SerializationError::InvalidData) => Refused::Invalid,
            Error::IncorrectInputLength(_) => Refused::Height,
            Error::GenericError(_) | Error::NotPrimeOrder => Refused::Other,
        }
    }
}

impl From<NodeRefusal> for Refused {
    ghost from_gives = { λ refusal refused. refused ≡ refused_of (refusal_error refusal) };

    fn from(refusal: NodeRefusal) -> Refused {
        match refusal {
            NodeRefusal::Element => Refused::Invalid,
            NodeRefusal::Memory => Refused::Memory,
        }
    }
}

impl From<AllocError> for Refused {
    ghost from_gives = { λ _ refused. refused ≡ Memory };

    fn from(_refused: AllocError) -> Refused {
        Refused::Memory
    }
}

impl<T: Drop> From<AllocFailed<T>> for Refused {
    ghost from_gives = { λ _ refused. refused ≡ Memory };

    fn from(_refused: AllocFailed<T>) -> Refused {
        Refused::Memory
    }
}

/// Returns the code of what a proof says.
pub fn verdict_code(verdict: Result<bool, Error>) -> i32
    ensures { result ≡ verdict_code (refusing verdict) }
{
    match verdict {
        Ok(true) => 0,
        Ok(false) => 1,
        Err(error) => Refused::from(error).code(),
    }
}
