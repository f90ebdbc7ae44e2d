//! What is said where there is no answer, and the exit status.

use crate::folders::TileFault;
use crate::stop::{Stop, StopAt};
use crate::{checkpoints, listing, signers, usage};
use log_file::fault::Fault;
use paxlog_run::request::{Misuse, bytes_at};
use std::io::Write;

// Exit statuses.
const USED_WRONGLY: u8 = 2;

const REFUSED: u8 = 3;

const LOCKED: u8 = 4;

const DAMAGED: u8 = 5;

const SYSTEM: u8 = 6;

const PERHAPS: u8 = 7;

const FORKED: u8 = 8;

/// Returns why there is no answer.
pub fn reason(fault: Fault) -> &'static str {
    match fault {
        Fault::Memory => "a request for memory was refused",
        Fault::NoLog => "the file is no log",
        Fault::HeadDamaged => "the head of the log is damaged",
        Fault::Damaged => "a digest of the log is damaged",
        Fault::Short => "the file of the log ends early",
        Fault::Size => "the log has no such size",
        Fault::Index => "the log has no entry at this index",
        Fault::Other => "the log has another size or root",
        Fault::Length => "a proof of these sizes has another length",
        Fault::Word => "the proof is not hexadecimal",
    }
}

// The status of a fault.
fn exit_status(fault: Fault) -> u8 {
    match fault {
        Fault::HeadDamaged | Fault::Damaged | Fault::Short => DAMAGED,
        _ => REFUSED,
    }
}

/// Begins the line of why there is no answer: with the name of the file that it speaks of.
pub fn begin(rt: &HostRuntime, words: &[Vec<u8>], place: Option<usize>) {
    let _ = eprint!(rt; "paxlog: ");
    if let Some(place) = place {
        let _ = rt.stderr().write_all(bytes_at(words, place));
        let _ = eprint!(rt; ": ");
    }
}

// Writes why a tile was not read, and returns the status.
fn complain_of_tile(rt: &HostRuntime, fault: TileFault) -> u8 {
    match fault {
        TileFault::Memory => {
            let why = reason(Fault::Memory);
            let _ = eprintln!(rt; "paxlog: {why}");
            REFUSED
        }
        TileFault::System { name, error } => {
            let _ = eprintln!(rt; "paxlog: {name}: {error}");
            SYSTEM
        }
        TileFault::Length { name } => {
            let _ = eprintln!(rt; "paxlog: {name}: the tile has another length");
            DAMAGED
        }
        TileFault::Kind { name } => complain_of_kind(rt, &name),
    }
}

// Writes that a file is no regular one, and returns the status.
fn complain_of_kind(rt: &HostRuntime, name: &str) -> u8 {
    let _ = eprintln!(rt; "paxlog: {name}: it is no regular file");
    REFUSED
}

// Writes that another process does what one alone does at a time, and returns the status.
fn complain_of_lock(rt: &HostRuntime, words: &[Vec<u8>], place: Option<usize>, what: &str) -> u8 {
    begin(rt, words, place);
    let _ = eprintln!(rt; "another process {what}");
    LOCKED
}

// Writes the lines of a command, or those of all where there is no such command or none is named.
fn show_usage(rt: &HostRuntime, command: Option<&[u8]>) {
    let lines = match command {
        Some(command) => match usage::usage_of(rt.alloc(), command) {
            Ok(Some(line)) => Ok(line),
            Ok(None) => usage::usage(rt.alloc()),
            Err(why) => Err(why),
        },
        None => usage::usage(rt.alloc()),
    };
    if let Ok(lines) = lines {
        let _ = rt.stderr().write_all(&lines);
    }
}

// Writes why the word at a place is wrong and the line of its command, and returns the status.
fn complain_of_word(rt: &HostRuntime, words: &[Vec<u8>], place: Option<usize>, why: &str) -> u8 {
    begin(rt, words, place);
    let _ = eprintln!(rt; "{why}");
    if let Some(command) = words.first() {
        show_usage(rt, Some(command.as_slice()));
    }
    USED_WRONGLY
}

// The place of the word that is wrong, and why it is.
fn wrong_word(misuse: Misuse) -> (usize, &'static str) {
    match misuse {
        Misuse::Nothing | Misuse::TooFew => (0, "too few words"),
        Misuse::TooMany => (0, "too many words"),
        Misuse::NoCommand(place) => (place, "there is no such command"),
        Misuse::NoNumber(place) => (place, "it is no number"),
        Misuse::NoDigest(place) => (place, "it is no digest of 64 hexadecimal digits"),
        Misuse::NoLines(place) => (place, "a batch has one line at least"),
        Misuse::NoBatches => (0, "--batch is an option of append-lines"),
        Misuse::NotInBatches => (0, "--publish needs --batch"),
        Misuse::NoKeyFile => (0, "--publish needs --key"),
        Misuse::NotPublished => (0, "--key, --origin and --every need --publish"),
        Misuse::NoKey(place) => (place, "--key has to stand here"),
        Misuse::NoOrigin(place) => (place, "--origin has to stand here"),
    }
}

// Writes why the words ask for nothing and how the command is used, and returns the status.
fn complain_of_use(rt: &HostRuntime, words: &[Vec<u8>], misuse: Misuse) -> u8 {
    match misuse {
        Misuse::Nothing => show_usage(rt, None),
        Misuse::NoCommand(place) => {
            let _ = eprint!(rt; "paxlog: there is no command ");
            let _ = rt.stderr().write_all(bytes_at(words, place));
            let _ = eprintln!(rt; "");
            show_usage(rt, Some(b"help".as_slice()));
        }
        misuse => {
            let (place, why) = wrong_word(misuse);
            // a word that is read where none stands lacks
            if place < words.len() {
                return complain_of_word(rt, words, Some(place), why);
            }
            return complain_of_word(rt, words, Some(0), "too few words");
        }
    }
    USED_WRONGLY
}

/// Writes why there is no answer, and returns the status.
pub fn complain(rt: &HostRuntime, words: &[Vec<u8>], stop: StopAt) -> u8 {
    let StopAt { why, place, name } = stop;
    match name {
        Some(name) => complain_of(rt, &[name.into_bytes()], why, Some(0)),
        None => complain_of(rt, words, why, place),
    }
}

// The same of the file that the word at a place names.
fn complain_of(rt: &HostRuntime, words: &[Vec<u8>], why: Stop, place: Option<usize>) -> u8 {
    match why {
        Stop::Misuse(misuse) => complain_of_use(rt, words, misuse),
        Stop::NotText => complain_of_word(rt, words, place, "the name is no text"),
        Stop::Empty => complain_of_word(
            rt,
            words,
            None,
            "the name of a folder or of a state is empty",
        ),
        Stop::LongWord => {
            let _ = eprintln!(rt; "paxlog: a word is longer than 8192 bytes");
            USED_WRONGLY
        }
        Stop::Fault(fault) => {
            let why = reason(fault);
            begin(rt, words, place);
            let _ = eprintln!(rt; "{why}");
            exit_status(fault)
        }
        Stop::Note(fault) => {
            let why = checkpoints::reason(fault);
            begin(rt, words, place);
            let _ = eprintln!(rt; "{why}");
            REFUSED
        }
        Stop::Policy(fault) => {
            let line = fault.line;
            let why = signers::reason(fault.why);
            begin(rt, words, place);
            let _ = eprintln!(rt; "line {line}: {why}");
            REFUSED
        }
        Stop::Logs(fault) => {
            let line = fault.line;
            let why = listing::reason(fault.why);
            begin(rt, words, place);
            let _ = eprintln!(rt; "line {line}: {why}");
            REFUSED
        }
        Stop::Tile(fault) => complain_of_tile(rt, fault),
        Stop::Entries(kind) => {
            let _ = eprintln!(rt; "paxlog: the {kind} are not the entries of the log");
            REFUSED
        }
        Stop::Long => {
            begin(rt, words, place);
            let _ = eprintln!(rt; "an entry has more than 65,535 bytes, and cannot be kept");
            REFUSED
        }
        Stop::Unfinished => {
            begin(rt, words, place);
            let _ = eprintln!(rt; "the bytes end within an entry");
            REFUSED
        }
        Stop::Behind => {
            begin(rt, words, place);
            let _ = eprintln!(rt; "the folder lacks entries of the log: `paxlog keep` keeps them");
            REFUSED
        }
        Stop::OtherCheckpoint => {
            begin(rt, words, place);
            let _ = eprintln!(rt; "the note is of another checkpoint");
            REFUSED
        }
        Stop::Shrunk => {
            begin(rt, words, place);
            let _ = eprintln!(rt; "the log has fewer entries than it had");
            REFUSED
        }
        Stop::Fork => {
            begin(rt, words, place);
            let _ = eprintln!(rt; "the log does not continue the one that it was");
            FORKED
        }
        Stop::Replaced => {
            begin(rt, words, place);
            let _ = eprintln!(rt;
                "another file has this name now, or none: nothing more is acknowledged"
            );
            REFUSED
        }
        Stop::Locked => complain_of_lock(rt, words, place, "appends to the log"),
        Stop::Written => complain_of_lock(rt, words, place, "writes the folder"),
        Stop::Followed => complain_of_lock(rt, words, place, "moves the state on"),
        Stop::Kind(name) => complain_of_kind(rt, &name),
        Stop::Link => {
            begin(rt, words, place);
            let _ = eprintln!(rt; "the state is a symbolic link");
            REFUSED
        }
        Stop::NoState => {
            begin(rt, words, place);
            let _ = eprintln!(rt; "no state: `paxlog follow` makes the first one");
            REFUSED
        }
        Stop::OpenKey => {
            begin(rt, words, place);
            let _ = eprintln!(rt; "others may read or write the file of a key");
            REFUSED
        }
        Stop::Clock => {
            let _ = eprintln!(rt; "paxlog: the clock stands before 1970");
            REFUSED
        }
        Stop::System(error) => {
            begin(rt, words, place);
            let _ = eprintln!(rt; "{error}");
            SYSTEM
        }
        Stop::Perhaps(error) => {
            begin(rt, words, place);
            let _ = eprintln!(rt; "the entries are perhaps in the log: {error}");
            PERHAPS
        }
        Stop::Unsaid => {
            let _ = eprintln!(rt; "paxlog: the entries are in the log, and the output failed");
            PERHAPS
        }
    }
}
