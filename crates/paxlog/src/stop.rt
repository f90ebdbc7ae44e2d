//! Why the command stops.

use crate::folders::TileFault;
use log_file::fault::Fault;
use log_tiles::{Unfollowed, Unread};
use paxlog_run::request::Misuse;
use signed_notes::{LogsFault, LogsFaultAt, PolicyFault, PolicyFaultAt};
use std::alloc::{AllocError, AllocFailed, Global};
use std::fs::TryLockError;
use std::io;

/// Why the command stops before it is done.
#[derive(Drop)]
pub enum Stop {
    /// The words ask for nothing.
    Misuse(Misuse),
    /// A name is no text.
    NotText,
    /// The name of a folder or of a state is empty.
    Empty,
    /// A word has more bytes than any that it takes.
    LongWord,
    /// There is no answer.
    Fault(Fault),
    /// A note or a key is none.
    Note(signed_notes::Fault),
    /// A policy file is none.
    Policy(PolicyFaultAt),
    /// A list of logs is none.
    Logs(LogsFaultAt),
    /// A tile was not read.
    Tile(TileFault),
    /// Entries that are called so are not the log's.
    Entries(&'static str),
    /// An entry has more bytes than a bundle can have.
    Long,
    /// The bytes of entries end within one.
    Unfinished,
    /// A folder lacks entries that the log has.
    Behind,
    /// A note is one of another checkpoint.
    OtherCheckpoint,
    /// The log has fewer entries than it had.
    Shrunk,
    /// The log does not continue the one that it was.
    Fork,
    /// Another file has the log's name now, or none has it.
    Replaced,
    /// Another process appends.
    Locked,
    /// Another process writes files in the folder.
    Written,
    /// Another process moves a follower's state on.
    Followed,
    /// A file of this name is no regular one.
    Kind(String),
    /// A follower's state is a symbolic link.
    Link,
    /// A witness has no state.
    NoState,
    /// The group may write the file of a key, or others may read or write it.
    OpenKey,
    /// The clock stands before 1970.
    Clock,
    /// A call of the system failed.
    System(io::Error),
    /// A call of the system failed after a slot was begun: what was to be appended may be in the log.
    Perhaps(io::Error),
    /// Entries were appended, and the new size could not be written.
    Unsaid,
}

/// Why the command stops, and of which file it speaks: by its place among the words, or by its name where no word is it.
#[derive(Drop)]
pub struct StopAt {
    pub why: Stop,
    pub place: Option<usize>,
    pub name: Option<String>,
}

// What a refusal of the system says: a lack of memory has its own name.
fn of_system(error: io::Error) -> Stop {
    if error.kind() == io::ErrorKind::OutOfMemory {
        Stop::Fault(Fault::Memory)
    } else {
        Stop::System(error)
    }
}

impl Stop {
    /// Returns whether another process does what one alone does at a time.
    pub fn is_busy(&self) -> bool {
        match self {
            Stop::Locked | Stop::Written | Stop::Followed => true,
            _ => false,
        }
    }

    /// Names the file at a place of the words.
    pub fn at(self, place: usize) -> StopAt {
        StopAt {
            why: self,
            place: Some(place),
            name: None,
        }
    }
}

/// Names the file of which a refusal speaks, where no word is its name.
pub fn named(alloc: Global, why: Stop, name: &str) -> StopAt {
    match String::from_str(alloc, name) {
        Ok(name) => StopAt {
            why,
            place: None,
            name: Some(name),
        },
        Err(refused) => StopAt::from(refused),
    }
}

/// Returns what was said; where it is a refusal, that it speaks of the word at a place.
pub fn placed<T: Drop>(place: usize, said: Result<T, Stop>) -> Result<T, StopAt> {
    match said {
        Ok(value) => Ok(value),
        Err(why) => Err(why.at(place)),
    }
}

impl From<Misuse> for StopAt {
    fn from(misuse: Misuse) -> StopAt {
        StopAt {
            why: Stop::Misuse(misuse),
            place: None,
            name: None,
        }
    }
}

impl From<Stop> for StopAt {
    fn from(why: Stop) -> StopAt {
        StopAt {
            why,
            place: None,
            name: None,
        }
    }
}

impl From<io::Error> for StopAt {
    fn from(error: io::Error) -> StopAt {
        StopAt {
            why: of_system(error),
            place: None,
            name: None,
        }
    }
}

impl From<Fault> for StopAt {
    fn from(fault: Fault) -> StopAt {
        StopAt {
            why: Stop::Fault(fault),
            place: None,
            name: None,
        }
    }
}

impl From<AllocError> for StopAt {
    fn from(_refused: AllocError) -> StopAt {
        StopAt {
            why: Stop::Fault(Fault::Memory),
            place: None,
            name: None,
        }
    }
}

impl<T: Drop> From<AllocFailed<T>> for StopAt {
    fn from(_refused: AllocFailed<T>) -> StopAt {
        StopAt {
            why: Stop::Fault(Fault::Memory),
            place: None,
            name: None,
        }
    }
}

impl From<log_store::Stop<io::Error>> for Stop {
    fn from(stop: log_store::Stop<io::Error>) -> Stop {
        match stop {
            log_store::Stop::Fault(fault) => Stop::Fault(fault),
            log_store::Stop::Disk(error) => of_system(error),
        }
    }
}

impl From<Fault> for Stop {
    fn from(fault: Fault) -> Stop {
        Stop::Fault(fault)
    }
}

impl From<AllocError> for Stop {
    fn from(_refused: AllocError) -> Stop {
        Stop::Fault(Fault::Memory)
    }
}

impl<T: Drop> From<AllocFailed<T>> for Stop {
    fn from(_refused: AllocFailed<T>) -> Stop {
        Stop::Fault(Fault::Memory)
    }
}

impl From<io::Error> for Stop {
    fn from(error: io::Error) -> Stop {
        of_system(error)
    }
}

impl From<TryLockError> for Stop {
    fn from(error: TryLockError) -> Stop {
        match error {
            TryLockError::Error(error) => of_system(error),
            TryLockError::WouldBlock => Stop::Locked,
        }
    }
}

impl From<signed_notes::Fault> for Stop {
    fn from(fault: signed_notes::Fault) -> Stop {
        match fault {
            signed_notes::Fault::Memory => Stop::Fault(Fault::Memory),
            other => Stop::Note(other),
        }
    }
}

impl From<PolicyFaultAt> for Stop {
    fn from(fault: PolicyFaultAt) -> Stop {
        match fault.why {
            PolicyFault::Note(signed_notes::Fault::Memory) => Stop::Fault(Fault::Memory),
            _ => Stop::Policy(fault),
        }
    }
}

impl From<LogsFaultAt> for Stop {
    fn from(fault: LogsFaultAt) -> Stop {
        match fault.why {
            LogsFault::Note(signed_notes::Fault::Memory) => Stop::Fault(Fault::Memory),
            _ => Stop::Logs(fault),
        }
    }
}

impl From<TileFault> for Stop {
    fn from(fault: TileFault) -> Stop {
        match fault {
            TileFault::Memory => Stop::Fault(Fault::Memory),
            other => Stop::Tile(other),
        }
    }
}

impl From<log_store::Stop<Unread<TileFault>>> for Stop {
    fn from(stop: log_store::Stop<Unread<TileFault>>) -> Stop {
        match stop {
            log_store::Stop::Fault(fault) => Stop::Fault(fault),
            log_store::Stop::Disk(Unread::Tile(fault)) => Stop::from(fault),
            log_store::Stop::Disk(Unread::Place) => Stop::Fault(Fault::Size),
            log_store::Stop::Disk(Unread::ReadOnly) => Stop::Fault(Fault::Size),
        }
    }
}

impl From<Unfollowed<Unread<TileFault>>> for Stop {
    fn from(why: Unfollowed<Unread<TileFault>>) -> Stop {
        match why {
            Unfollowed::Shrunk => Stop::Shrunk,
            Unfollowed::Fork => Stop::Fork,
            Unfollowed::Stopped(stop) => Stop::from(stop),
        }
    }
}
