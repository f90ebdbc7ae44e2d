//! Why a call on a log's file is not done, and the codes of answers.

ghost use Rattle.std.specs.Prelude.{◌≡◌, ◌≢◌};
ghost use Rattle.paxidore_calls.specs.LogFiles.{not_done_at, not_done_code, not_done_of};
ghost use Rattle.paxidore_calls.specs.declared.file_calls.not_done.NotDone.TheVariants.{More, Refusal};
ghost use Rattle.paxidore_calls.specs.declared.refused.Refused.TheVariants.{Memory, Room};

use crate::file_calls::replay::Halt;
use crate::refused::Refused;
use log_file::fault::Fault;
use log_store::{SectorRefusal, Stop};
use std::alloc::AllocFailed;

/// Why a call on a log's file is not done.
#[derive(Clone, Copy, Debug, PartialEq, Eq)]
pub enum NotDone {
    /// As other calls are refused.
    Refusal(Refused),
    /// Pieces of the file are to be read first.
    More,
    /// The file is no log's.
    NoLog,
    /// The file ends before the digests of the log's size.
    Short,
    /// The file has the title of a log's, and no slot is whole.
    HeadDamaged,
    /// A digest of the log is another than the one that was stored, or a slot states another root.
    Damaged,
}

impl NotDone {
    /// Returns the code of the answer.
    pub fn code(self) -> i32
        ensures { result ≡ not_done_code self }
    {
        match self {
            NotDone::Refusal(refused) => refused.code(),
            NotDone::More => -10,
            NotDone::NoLog => -11,
            NotDone::Short => -12,
            NotDone::HeadDamaged => -13,
            NotDone::Damaged => -14,
        }
    }

    /// Returns why a call is not done that stopped.
    pub fn of_stop(stop: Stop<SectorRefusal<Halt>>) -> NotDone
        ensures is { result ≡ not_done_at stop }
        ensures done { result ≢ More }
        ensures room { result ≢ Refusal Room }
    {
        match stop {
            Stop::Fault(fault) => NotDone::from(fault),
            Stop::Disk(SectorRefusal::Disk(Halt::Memory)) => NotDone::Refusal(Refused::Memory),
            // what is asked for is read before, and lies in the file
            Stop::Disk(SectorRefusal::Disk(Halt::Missing | Halt::Ended)) => {
                NotDone::Refusal(Refused::Other)
            }
            // what is written is of one part, and a file with sectors has both
            Stop::Disk(SectorRefusal::Place | SectorRefusal::Short) => {
                NotDone::Refusal(Refused::Other)
            }
        }
    }
}

impl From<Refused> for NotDone {
    ghost from_gives = { λ refused not_done. not_done ≡ Refusal refused };

    fn from(refused: Refused) -> NotDone {
        NotDone::Refusal(refused)
    }
}

impl From<Fault> for NotDone {
    ghost from_gives = { λ fault not_done. not_done ≡ not_done_of fault };

    fn from(fault: Fault) -> NotDone {
        match fault {
            Fault::Memory => NotDone::Refusal(Refused::Memory),
            Fault::NoLog => NotDone::NoLog,
            Fault::HeadDamaged => NotDone::HeadDamaged,
            Fault::Short => NotDone::Short,
            Fault::Damaged => NotDone::Damaged,
            Fault::Size => NotDone::Refusal(Refused::Size),
            Fault::Index => NotDone::Refusal(Refused::Index),
            Fault::Other | Fault::Length | Fault::Word => NotDone::Refusal(Refused::Other),
        }
    }
}

impl<T: Drop> From<AllocFailed<T>> for NotDone {
    ghost from_gives = { λ _ not_done. not_done ≡ Refusal Memory };

    fn from(_refused: AllocFailed<T>) -> NotDone {
        NotDone::Refusal(Refused::Memory)
    }
}
