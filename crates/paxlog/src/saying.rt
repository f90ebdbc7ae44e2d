//! What is written as an answer, and the status with which it ends.

use crate::checkpoints;
use crate::complaints::{begin, reason};
use crate::followers::Audited;
use crate::stop::{Stop, StopAt};
use crate::words::Name;
use log_checkpoints::{ReceiptFault, Shown};
use log_file::fault::Fault;
use log_store::Recovered;
use log_tiles::Head;
use paxlog_run::replies::line_of_root;
use std::io::Write;

// The status of a `no`.
const NO: u8 = 1;

/// Writes what is said, and returns the status.
pub fn say(rt: &HostRuntime, line: &[u8]) -> Result<u8, StopAt> {
    let mut out = rt.stdout();
    out.write_all(line)?;
    out.flush()?;
    Ok(0)
}

/// Writes what a check says, and returns the status.
pub fn say_verdict(rt: &HostRuntime, holds: bool) -> Result<u8, StopAt> {
    if holds {
        return say(rt, b"yes\n");
    }
    say(rt, b"no\n")?;
    Ok(NO)
}

/// Writes what a check of a proof says, and why a proof is none.
pub fn say_proof(rt: &HostRuntime, verdict: Result<bool, Fault>) -> Result<u8, StopAt> {
    match verdict {
        Ok(holds) => say_verdict(rt, holds),
        Err(fault) if fault == Fault::Word || fault == Fault::Length => {
            let why = reason(fault);
            let _ = eprintln!(rt; "paxlog: {why}");
            say_verdict(rt, false)
        }
        Err(fault) => Err(StopAt::from(fault)),
    }
}

/// Writes a size that was appended, and returns the status. The error is `Unsaid`.
pub fn say_size(rt: &HostRuntime, size: usize) -> Result<u8, StopAt> {
    let said = match format!(in rt.alloc(); "{size}\n") {
        Ok(line) => say(rt, line.as_bytes()),
        Err(why) => Err(StopAt::from(why)),
    };
    match said {
        Ok(status) => Ok(status),
        Err(_) => Err(StopAt::from(Stop::Unsaid)),
    }
}

/// Writes the index of an entry, and returns the status.
pub fn say_index(rt: &HostRuntime, index: usize) -> Result<u8, StopAt> {
    say(rt, format!(in rt.alloc(); "{index}\n")?.as_bytes())
}

/// Writes the size and the root of a log, and returns the status.
pub fn say_root(rt: &HostRuntime, size: usize, root: &[u8; 32]) -> Result<u8, StopAt> {
    say(rt, &line_of_root(rt.alloc(), size, root)?)
}

/// Writes the size and the root that a checkpoint states, and returns the status.
pub fn say_head(rt: &HostRuntime, head: &Head) -> Result<u8, StopAt> {
    say_root(rt, head.size, &head.root)
}

/// Writes the size and the root of a checkpoint, or why it is not accepted.
pub fn say_checkpoint(
    rt: &HostRuntime,
    opened: Result<(usize, [u8; 32]), signed_notes::Fault>,
) -> Result<u8, StopAt> {
    match opened {
        Ok(stated) => {
            let root = stated.1;
            say_root(rt, stated.0, &root)
        }
        Err(signed_notes::Fault::Memory) => Err(StopAt::from(Fault::Memory)),
        Err(fault) => {
            let why = checkpoints::reason(fault);
            let _ = eprintln!(rt; "paxlog: {why}");
            say_verdict(rt, false)
        }
    }
}

/// Writes the size and the root of the log that a receipt shows an entry of, or why it is not accepted.
pub fn say_receipt(
    rt: &HostRuntime,
    found: Result<Option<Shown>, ReceiptFault>,
) -> Result<u8, StopAt> {
    match found {
        Ok(Some(shown)) => {
            let root = shown.root;
            say_root(rt, shown.size, &root)
        }
        Ok(None) => say_verdict(rt, false),
        Err(ReceiptFault::Spelling) => {
            let _ = eprintln!(rt; "paxlog: the receipt is none");
            say_verdict(rt, false)
        }
        Err(ReceiptFault::Note(fault)) => say_checkpoint(rt, Err(fault)),
    }
}

/// Writes what an audit of a folder found, a line for each fact: the size and the root, and of how many entries, from the first one on,
/// the bytes are kept.
pub fn say_audited(rt: &HostRuntime, found: &Audited) -> Result<u8, StopAt> {
    let mut lines = line_of_root(rt.alloc(), found.head.size, &found.head.root)?;
    let kept = found.kept;
    lines.extend_from_slice(format!(in rt.alloc(); "kept {kept}\n")?.as_bytes())?;
    say(rt, &lines)
}

/// Writes what of a file can be recovered, a line for each fact: the size and the root of what is sound, the size that the head states,
/// and how many entries a new log was made of. Where none was made, it says so on standard error.
pub fn say_recovered(
    rt: &HostRuntime,
    words: &[Vec<u8>],
    log: Name,
    is_made: bool,
    found: &Recovered,
) -> Result<u8, StopAt> {
    let size = found.size;
    let mut lines = line_of_root(rt.alloc(), size, &found.root)?;
    match found.stated {
        None => lines.extend_from_slice(b"stated none\n")?,
        Some(stated) => {
            lines.extend_from_slice(format!(in rt.alloc(); "stated {stated}\n")?.as_bytes())?;
        }
    }
    if is_made {
        lines.extend_from_slice(format!(in rt.alloc(); "made {size}\n")?.as_bytes())?;
    } else {
        begin(rt, words, Some(log.place));
        let _ = eprintln!(rt;
            "nothing was changed: with NEW behind LOG a new log is made of these entries"
        );
    }
    say(rt, &lines)
}
