//! Cosignatures of a folder's checkpoint, which witnesses sent apart.

use crate::followers::{Source, checkpoint_name, stated_by_note, write_note};
use crate::reading::{if_found, note_bytes};
use crate::stop::{Stop, StopAt, placed};
use crate::words::name_of_word;
use crate::writing::locked_folder;
use log_tiles::Head;
use paxlog_run::request::Word;
use signed_notes::{Note, Policy, join_signatures, read};
use std::alloc::Global;

// The note with the cosignatures of another one, by the witnesses of a policy and not before its time.
fn with_cosignatures(
    alloc: Global,
    note: &[u8],
    other: &[u8],
    policy: &Policy,
) -> Result<Vec<u8>, Stop> {
    match join_signatures(alloc, note, other, policy.witnesses, policy.since)? {
        Some(joined) => Ok(joined),
        None => Err(Stop::OtherCheckpoint),
    }
}

/// Puts the signatures that the notes of files have by the witnesses of a policy to the checkpoint of a folder, and returns what this
/// states. The files are the words from a place on. Where one of them is a note of another checkpoint, or has no such signature,
/// nothing is written.
pub fn cosign_in_folder(
    rt: &HostRuntime,
    from: &Source,
    words: &[Vec<u8>],
    files: usize,
) -> Result<Head, StopAt> {
    let place = from.folder.place;
    let _lock = placed(place, locked_folder(rt, from.folder.text))?;
    let path = checkpoint_name(rt, from.folder.text)?;
    let mut note = placed(place, note_bytes(rt, path.as_str()))?;
    for file in files..words.len() {
        let name = name_of_word(words, Word { place: file })?;
        let other = placed(file, note_bytes(rt, name.text))?;
        let more = with_cosignatures(rt.alloc(), &note, &other, &from.policy);
        note = placed(file, more)?;
    }
    let by_log = Policy {
        log: from.policy.log,
        witnesses: &[],
        quorum: 0,
        since: 0,
    };
    let head = placed(
        place,
        stated_by_note(rt, &by_log, path.as_str(), from.origin),
    )?;
    placed(place, write_note(rt, path.as_str(), &note))?;
    Ok(head)
}

// Whether two notes have one text.
fn have_one_text(alloc: Global, note: &[u8], other: &[u8]) -> Result<bool, Stop> {
    let Note { text, .. } = read(alloc, note)?;
    let Note { text: of_other, .. } = read(alloc, other)?;
    Ok(text == of_other)
}

/// Returns the note of a file where it states what a new one does, so that its cosignatures stay; else the new one.
pub fn note_that_stays(rt: &HostRuntime, path: &str, new: Vec<u8>) -> Result<Vec<u8>, Stop> {
    let Some(old) = if_found(note_bytes(rt, path))? else {
        return Ok(new);
    };
    if have_one_text(rt.alloc(), &old, &new)? {
        Ok(old)
    } else {
        Ok(new)
    }
}
