//! Why there is no answer.

ghost use Rattle.std.specs.Prelude.{◌≡◌};
ghost use Rattle.log_file.specs.Faults.{fault_of};
ghost use Rattle.log_file.specs.declared.fault.Fault.TheVariants.{Memory};

use ark_base::error::Error;
use std::alloc::{AllocError, AllocFailed};

/// Why there is no answer.
#[derive(Clone, Copy, Debug, PartialEq, Eq)]
pub enum Fault {
    /// A request for memory was refused.
    Memory,
    /// The file is no log's.
    NoLog,
    /// The file has the title of a log's, and no slot is whole.
    HeadDamaged,
    /// The file ends before the digests of the log's size.
    Short,
    /// A digest of the log is another than the one that was stored, or a slot states another root.
    Damaged,
    /// The log has no such size: it has fewer entries, an old size is 0 or above the size, or a new one has over 63 bits.
    Size,
    /// The log has another size or root than those after which entries are to be appended.
    Other,
    /// The index is not below the size.
    Index,
    /// A proof of this index or these sizes has another length.
    Length,
    /// The word of a proof is not hexadecimal.
    Word,
}

impl From<AllocError> for Fault {
    ghost from_gives = { λ _ fault. fault ≡ Memory };

    fn from(_refused: AllocError) -> Fault {
        Fault::Memory
    }
}

impl<T: Drop> From<AllocFailed<T>> for Fault {
    ghost from_gives = { λ _ fault. fault ≡ Memory };

    fn from(_refused: AllocFailed<T>) -> Fault {
        Fault::Memory
    }
}

impl From<Error> for Fault {
    ghost from_gives = { λ error fault. fault ≡ fault_of error };

    fn from(error: Error) -> Fault {
        match error {
            Error::OutOfMemory => Fault::Memory,
            Error::SerializationError(_) | Error::IncorrectInputLength(_) => Fault::Length,
            Error::GenericError(_) | Error::NotPrimeOrder => Fault::Length,
        }
    }
}
