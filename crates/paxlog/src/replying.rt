//! Replies of a witness to requests of logs (C2SP tlog-witness).

use crate::checkpoints::without_feed;
use crate::followers::{StateFile, locked_state, seconds_now, write_note};
use crate::patience::Patience;
use crate::reading::key_file_bytes;
use crate::stop::{Stop, StopAt, named};
use crate::words::Name;
use log_checkpoints::{
    Denial, Reply, Unanswered, Unprepared, Witness, answer_adding, log_of_request, write_reply,
};
use signed_notes::{Cosigner, ListedLog, Policy};
use std::alloc::Global;
use std::fs::File;
use std::io::Read;

/// A request has at most so many bytes: those of a note, and 64 lines of a proof.
const LONGEST: usize = 1_004_000;

/// For how many seconds a reply waits at most while another one is at work.
const PATIENCE: usize = 10;

/// Reads the request on standard input. What stands behind the longest one is not read: then it is none.
pub fn request_bytes(rt: &HostRuntime) -> Result<Vec<u8>, Stop> {
    let mut bytes = Vec::new(rt.alloc());
    rt.stdin().take(LONGEST as u64).read_to_end(&mut bytes)?;
    Ok(bytes)
}

// Locks a state that is there, once no other process moves it on, within some seconds.
fn locked_soon(rt: &HostRuntime, state: &str) -> Result<File, Stop> {
    let patience = Patience::new(rt, PATIENCE)?;
    for _turn in 0..usize::MAX {
        match locked_state(rt, state, false) {
            Err(Stop::Followed) => {
                if !patience.lasts(rt)? {
                    return Err(Stop::Followed);
                }
            }
            done => return done,
        }
    }
    Err(Stop::Followed)
}

// Keeps the note of a request beside a state as evidence: another root of the same size was signed.
fn keep_fork(rt: &HostRuntime, state: &str, request: &[u8]) -> Result<(), Stop> {
    let path = format!(in rt.alloc(); "{state}.fork")?;
    let Ok(text) = str::from_utf8(request) else {
        return Ok(());
    };
    match text.split_once("\n\n") {
        Some((_, note)) => write_note(rt, path.as_str(), note.as_bytes()),
        None => Ok(()),
    }
}

// The key of a witness that the text of a key file says.
fn key_in<'a>(alloc: Global, key_file: Name, text: &'a [u8]) -> Result<Cosigner<'a>, StopAt> {
    match Cosigner::read(alloc, without_feed(text)) {
        Ok(key) => Ok(key),
        Err(fault) => Err(Stop::from(fault).at(key_file.place)),
    }
}

// What a witness of a log replies to a request. Its state is there, and moves on before a signature is returned. Where the log is signed
// with two roots of one size, the request's note is kept beside it.
fn answered<'a>(
    rt: &'a HostRuntime,
    request: &[u8],
    who: &Witness<'a>,
    state: &'a str,
) -> Result<Reply, Unanswered<Stop>> {
    let _lock = of_state(locked_soon(rt, state))?;
    let mut file = StateFile {
        rt,
        path: state,
        policy: who.policy,
        origin: who.origin,
    };
    let time = of_state(seconds_now(rt))?;
    let reply = answer_adding(rt.alloc(), &mut file, request, who, time)?;
    if let Reply::Denied(Denial::Forked(_)) = &reply {
        of_state(keep_fork(rt, state, request))?;
    }
    Ok(reply)
}

// What was said of a state.
fn of_state<T: Drop>(said: Result<T, Stop>) -> Result<T, Unanswered<Stop>> {
    match said {
        Ok(value) => Ok(value),
        Err(why) => Err(Unanswered::File(why)),
    }
}

/// Returns the bytes of what a witness of a log replies to a request, once its state is on the disk.
pub fn replied<'a>(
    rt: &'a HostRuntime,
    request: &[u8],
    policy: Policy<'a>,
    origin: &'a str,
    state: Name<'a>,
    key_file: Name<'a>,
) -> Result<Vec<u8>, StopAt> {
    let text = key_file_bytes(rt, key_file)?;
    let who = Witness {
        policy,
        origin,
        key: key_in(rt.alloc(), key_file, &text)?,
    };
    match answered(rt, request, &who, state.text) {
        Ok(reply) => Ok(write_reply(rt.alloc(), &reply)?),
        Err(Unanswered::Note(fault)) => Err(Stop::from(fault).at(key_file.place)),
        Err(Unanswered::File(why)) => Err(why.at(state.place)),
    }
}

/// Returns the same of a witness of the logs of a list: of the one whose origin the request's checkpoint states. No other state is
/// opened or locked.
pub fn replied_for<'a>(
    rt: &'a HostRuntime,
    request: &[u8],
    list: Name<'a>,
    logs: &'a [ListedLog<'a>],
    key_file: Name<'a>,
) -> Result<Vec<u8>, StopAt> {
    let text = key_file_bytes(rt, key_file)?;
    let key = key_in(rt.alloc(), key_file, &text)?;
    let log = match log_of_request(rt.alloc(), request, logs) {
        Ok(log) => log,
        Err(Unprepared::Rejected(why)) => return Ok(write_reply(rt.alloc(), &Reply::Denied(why))?),
        Err(Unprepared::Failed(fault)) => return Err(Stop::from(fault).at(list.place)),
    };
    let who = Witness {
        policy: log.policy(),
        origin: log.origin,
        key,
    };
    match answered(rt, request, &who, log.state) {
        Ok(reply) => Ok(write_reply(rt.alloc(), &reply)?),
        Err(Unanswered::Note(fault)) => Err(Stop::from(fault).at(key_file.place)),
        Err(Unanswered::File(why)) => Err(named(rt.alloc(), why, log.state)),
    }
}
