//! Folders of tiles that are audited, followed and witnessed.

ghost use Rattle.std.specs.Prelude.{◌<◌, ◌^◌, [], IfOk};

use crate::checkpoints::{opened, without_feed};
use crate::entries::EntryReader;
use crate::folders::{CHECKPOINT, FolderTiles, TileFault};
use crate::keeping::{keep_entries, kept_entries};
use crate::reading::{if_found, key_file_bytes, note_bytes};
use crate::stop::{Stop, StopAt, placed};
use crate::store::sync_folder_of;
use crate::words::Name;
use crate::writing::{locked, locked_folder, remove_whole, write_whole};
use log_checkpoints::{Unwitnessed, Witness, witness_checkpoint};
use log_file::fault::Fault;
use log_store::InclusionProof;
use log_tiles::{
    Head, HeadFile, TileDisk, Unfollowed, Unmoved, Unread, audit as is_sound, continues,
    follow as step, prove_in_tiles as proof_of,
};
use merkle_log::kept::is_size;
use paxlog_run::replies::{line_of, line_of_root};
use paxlog_run::request::Entries;
use sha2::{Digest, Sha256};
use signed_notes::{Cosigner, Policy, Signer};
use std::fs::File;
use std::time::{SystemTime, UNIX_EPOCH};
use std::{fs, io};

/// Returns the name of a folder's checkpoint.
pub fn checkpoint_name(rt: &HostRuntime, folder: &str) -> Result<String, Stop> {
    Ok(format!(in rt.alloc(); "{folder}/{CHECKPOINT}")?)
}

/// Returns what is known of a log before anything is: that it had no entry.
pub fn nothing() -> Head {
    Head {
        size: 0,
        root: Sha256::digest([].as_slice()),
    }
}

// What a note states, where it is signed as a policy asks.
fn stated(rt: &HostRuntime, policy: &Policy, note: &[u8], origin: &str) -> Result<Head, Stop> {
    match opened(rt.alloc(), policy, note, origin) {
        Ok(stated) => {
            let (size, root) = (stated.0, stated.1);
            Ok(Head { size, root })
        }
        Err(fault) => Err(Stop::from(fault)),
    }
}

/// Returns what the note of a file states, where it is signed as a policy asks, at whatever time; that the log had no entry, where there
/// is no such file.
pub fn stated_by_note(
    rt: &HostRuntime,
    policy: &Policy,
    path: &str,
    origin: &str,
) -> Result<Head, Stop> {
    match if_found(note_bytes(rt, path))? {
        Some(note) => {
            let mut policy = *policy;
            policy.since = 0;
            stated(rt, &policy, &note, origin)
        }
        None => Ok(nothing()),
    }
}

/// Returns what the note of a file states, where this signer's key signed it; that the log had no entry, where there is no such file.
/// The origin is the name of the key where no other is named.
pub fn stated_by_signer(
    rt: &HostRuntime,
    signer: &Signer,
    path: &str,
    origin: Option<&str>,
) -> Result<Head, Stop> {
    let policy = Policy {
        log: signer.verifier(),
        witnesses: &[],
        quorum: 0,
        since: 0,
    };
    stated_by_note(rt, &policy, path, origin.unwrap_or(signer.name))
}

/// Returns the log of a checkpoint, in the tiles of a folder.
pub fn log_in_folder<'a>(
    rt: &'a HostRuntime,
    folder: &'a str,
    head: &Head,
) -> Result<TileDisk<FolderTiles<'a>>, Stop> {
    match TileDisk::new(FolderTiles::new(rt, folder), head.size, &head.root) {
        Some(disk) => Ok(disk),
        None => Err(Stop::Fault(Fault::Size)),
    }
}

/// A folder of tiles, who has to sign its checkpoints, and their origin.
#[derive(Clone, Copy)]
pub struct Source<'a> {
    pub folder: Name<'a>,
    pub policy: Policy<'a>,
    pub origin: &'a str,
}

/// A folder's checkpoint: its note, and what that states.
#[derive(Drop)]
pub struct Published {
    pub note: Vec<u8>,
    pub head: Head,
}

/// Reads the checkpoint of a folder, which is signed as the policy asks.
pub fn read_checkpoint(rt: &HostRuntime, from: &Source) -> Result<Published, Stop> {
    let path = checkpoint_name(rt, from.folder.text)?;
    let note = note_bytes(rt, path.as_str())?;
    let head = stated(rt, &from.policy, &note, from.origin)?;
    Ok(Published { note, head })
}

/// What an audit found: what the checkpoint states, and of how many entries, from the first one on, the bytes are kept.
#[derive(Clone, Copy)]
pub struct Audited {
    pub head: Head,
    pub kept: usize,
}

/// Returns what the checkpoint of a folder states, where all its tiles are those of a log with that root, and the entries that it keeps
/// are the log's.
pub fn audit_folder(rt: &HostRuntime, from: &Source) -> Result<Option<Audited>, Stop> {
    let Published { note: _, head } = read_checkpoint(rt, from)?;
    let disk = log_in_folder(rt, from.folder.text, &head)?;
    if !is_sound(&disk, &head)? {
        return Ok(None);
    }
    match kept_entries(rt, from.folder.text, sized(&head)?)? {
        Some(kept) => Ok(Some(Audited { head, kept })),
        None => Ok(None),
    }
}

/// Returns the size that a head states, where a log has it.
pub fn sized(head: &Head) -> Result<usize, Stop>
    ensures { IfOk result (λ size. size < 2 ^ 63) }
{
    if is_size(head.size) {
        Ok(head.size)
    } else {
        Err(Stop::Fault(Fault::Size))
    }
}

// Locks a folder to whose checkpoint its tiles lead, and returns what that states.
fn locked_and_stated(rt: &HostRuntime, from: &Source) -> Result<(File, Head), Stop> {
    let Published { note: _, head } = read_checkpoint(rt, from)?;
    let lock = locked_folder(rt, from.folder.text)?;
    let disk = log_in_folder(rt, from.folder.text, &head)?;
    match continues(rt.alloc(), &disk, &nothing(), &head) {
        Ok(()) => Ok((lock, head)),
        Err(why) => Err(Stop::from(why)),
    }
}

/// Keeps entries of the log of a folder's checkpoint in the folder, in their order: those from an index on, where one is named, else all.
/// Returns what the checkpoint states. No entry is read while another process writes the folder.
pub fn keep_in_folder(
    rt: &HostRuntime,
    from: &Source,
    words: &[Vec<u8>],
    entries: Entries,
    first: Option<usize>,
) -> Result<Head, StopAt> {
    let place = from.folder.place;
    let (_lock, head) = placed(place, locked_and_stated(rt, from))?;
    let size = match sized(&head) {
        Ok(size) => size,
        Err(why) => return Err(why.at(place)),
    };
    let mut reader = EntryReader::open(rt, words, entries)?;
    match keep_entries(rt, from.folder.text, size, first, &mut reader) {
        Ok(()) => Ok(head),
        Err(why) => Err(why.at(reader.refused_place().unwrap_or(place))),
    }
}

/// A proof of an entry, and the checkpoint of the log in which it is one.
#[derive(Drop)]
pub struct Proved {
    pub path: Vec<[u8; 32]>,
    pub note: Vec<u8>,
}

/// Returns the inclusion proof of an index in the log of a folder's checkpoint, which is checked, and the checkpoint.
pub fn prove_in_folder(rt: &HostRuntime, from: &Source, index: usize) -> Result<Proved, Stop> {
    let Published { note, head } = read_checkpoint(rt, from)?;
    let disk = log_in_folder(rt, from.folder.text, &head)?;
    let InclusionProof {
        size: _,
        root: _,
        digest: _,
        path,
    } = proof_of(rt.alloc(), &disk, &head, index)?;
    Ok(Proved { path, note })
}

// Refuses a state that is a symbolic link, since a new one would take the link's place and leave the old one behind it; and that there
// is none, unless the first one is to be made.
fn check_state(rt: &HostRuntime, state: &str, makes_first: bool) -> Result<(), Stop> {
    match fs::symlink_metadata(rt, state) {
        Ok(about) if about.is_symlink() => Err(Stop::Link),
        Ok(_) => Ok(()),
        Err(error) if error.kind() == io::ErrorKind::NotFound => {
            if makes_first {
                Ok(())
            } else {
                Err(Stop::NoState)
            }
        }
        Err(error) => Err(Stop::from(error)),
    }
}

/// Locks the state of a follower, whose file is replaced when it moves on: a file beside it is locked.
pub fn locked_state(rt: &HostRuntime, state: &str, makes_first: bool) -> Result<File, Stop> {
    check_state(rt, state, makes_first)?;
    let path = format!(in rt.alloc(); "{state}.lock")?;
    let lock = match locked(rt, path.as_str()) {
        Ok(lock) => lock,
        Err(Stop::Locked) => return Err(Stop::Followed),
        Err(why) => return Err(why),
    };
    // it may have been removed before it was locked
    check_state(rt, state, makes_first)?;
    Ok(lock)
}

// The words behind `verify-consistency` by which anyone checks that the log of a new checkpoint, whose tiles the disk reads, has another
// root of the old size.
fn fork_words(
    rt: &HostRuntime,
    disk: &TileDisk<FolderTiles<'_>>,
    old: &Head,
) -> Result<Vec<u8>, Stop> {
    let alloc = rt.alloc();
    let proof = match log_store::consistency(alloc, disk, old.size, None) {
        Ok(proof) => proof,
        Err(stop) => return Err(Stop::from(stop)),
    };
    let first = line_of_root(alloc, old.size, &proof.old_root)?;
    let mut words = Vec::new(alloc);
    words.extend_from_slice(without_feed(&first))?;
    words.push(b' ')?;
    let second = line_of_root(alloc, proof.size, &proof.root)?;
    words.extend_from_slice(without_feed(&second))?;
    words.push(b' ')?;
    words.extend_from_slice(&line_of(alloc, &proof.path)?)?;
    Ok(words)
}

// Keeps the evidence of a fork beside a state: the new note, and, where the sizes differ, the words that show another root of the old
// size. Of one size the two notes are enough.
fn keep_evidence(
    rt: &HostRuntime,
    state: &str,
    disk: &TileDisk<FolderTiles<'_>>,
    old: &Head,
    new: &Published,
) -> Result<(), Stop> {
    let note = format!(in rt.alloc(); "{state}.fork")?;
    write_note(rt, note.as_str(), &new.note)?;
    let proof = format!(in rt.alloc(); "{state}.fork-proof")?;
    if old.size == new.head.size {
        return remove_whole(rt, proof.as_str());
    }
    write_note(rt, proof.as_str(), &fork_words(rt, disk, old)?)
}

/// Writes a note to a file, whole or not at all, and returns once it is on the disk.
pub fn write_note(rt: &HostRuntime, path: &str, note: &[u8]) -> Result<(), Stop> {
    write_whole(rt, path, note)?;
    sync_folder_of(rt, path)
}

/// The file of a follower's state: the note of the checkpoint at which it was left, which is signed as the policy asks. That its two
/// calls do what `HeadFile` says is trusted.
#[derive(Drop)]
pub struct StateFile<'a> {
    pub rt: &'a HostRuntime,
    pub path: &'a str,
    pub policy: Policy<'a>,
    pub origin: &'a str,
}

impl<'a> HeadFile for StateFile<'a> {
    type Refusal = Stop;

    ghost Obeys = { λ _. ⊥ };

    ghost holds = { λ _. record { size = 0; root = [] } };

    ghost may_leave = { λ _ _. ⊥ };

    ghost moment = { λ _. 0 };

    ghost left_since = { λ _ _ _. ⊥ };

    ghost only_now = { λ _ _ since. since };

    fn read(&self) -> Result<Head, Stop> {
        stated_by_note(self.rt, &self.policy, self.path, self.origin)
    }

    fn replace(&mut self, _head: &Head, note: &[u8]) -> Result<(), Stop> {
        write_note(self.rt, self.path, note)
    }
}

// The file of a state.
fn state_file<'a>(rt: &'a HostRuntime, from: &Source<'a>, state: Name<'a>) -> StateFile<'a> {
    StateFile {
        rt,
        path: state.text,
        policy: from.policy,
        origin: from.origin,
    }
}

// Why a state did not move on to the checkpoint of a folder, whose tiles the disk reads. Where no log has both, the evidence is kept
// beside the state.
fn why_unmoved(
    rt: &HostRuntime,
    from: &Source,
    state: Name,
    disk: &TileDisk<FolderTiles<'_>>,
    new: &Published,
    why: Unmoved<Unread<TileFault>, Stop>,
) -> StopAt {
    let folder = from.folder;
    match why {
        Unmoved::File(why) => why.at(state.place),
        Unmoved::Unfollowed(old, Unfollowed::Fork) => {
            match keep_evidence(rt, state.text, disk, &old, new) {
                Ok(()) => Stop::Fork.at(folder.place),
                Err(why) => why.at(state.place),
            }
        }
        Unmoved::Unfollowed(_, why) => Stop::from(why).at(folder.place),
    }
}

/// Moves a follower's state on to the checkpoint of a folder, which continues the one that it was left at, and returns what that
/// states. Where no log has both, the new one is kept beside the state as evidence.
pub fn follow<'a>(rt: &'a HostRuntime, from: &Source<'a>, state: Name<'a>) -> Result<Head, StopAt> {
    let _lock = placed(state.place, locked_state(rt, state.text, true))?;
    let new = placed(from.folder.place, read_checkpoint(rt, from))?;
    let disk = log_in_folder(rt, from.folder.text, &new.head)?;
    let mut file = state_file(rt, from, state);
    match step(rt.alloc(), &disk, &mut file, &new.head, &new.note) {
        Ok(()) => Ok(new.head),
        Err(why) => Err(why_unmoved(rt, from, state, &disk, &new, why)),
    }
}

/// Returns the seconds since 1970. A witness states them, so a clock that stands before is refused.
pub fn seconds_now(rt: &HostRuntime) -> Result<u64, Stop> {
    match SystemTime::now(rt)?.duration_since(UNIX_EPOCH) {
        Ok(time) => Ok(time.as_secs()),
        Err(_) => Err(Stop::Clock),
    }
}

/// Moves a witness's state on as `follow`, and returns the checkpoint with the witness's signature and the time. The state is there. It
/// moves once the checkpoint is signed, and nothing is returned before that is on the disk (`log_checkpoints::witness_checkpoint`).
pub fn witness<'a>(
    rt: &'a HostRuntime,
    from: &Source<'a>,
    state: Name<'a>,
    key_file: Name<'a>,
) -> Result<Vec<u8>, StopAt> {
    let text = key_file_bytes(rt, key_file)?;
    let cosigner = match Cosigner::read(rt.alloc(), without_feed(&text)) {
        Ok(cosigner) => cosigner,
        Err(fault) => return Err(Stop::from(fault).at(key_file.place)),
    };
    let _lock = placed(state.place, locked_state(rt, state.text, false))?;
    let new = placed(from.folder.place, read_checkpoint(rt, from))?;
    let disk = log_in_folder(rt, from.folder.text, &new.head)?;
    let mut file = state_file(rt, from, state);
    let who = Witness {
        policy: from.policy,
        origin: from.origin,
        key: cosigner,
    };
    let time = seconds_now(rt)?;
    match witness_checkpoint(rt.alloc(), &disk, &mut file, &new.note, &who, time) {
        Ok(note) => Ok(note),
        Err(Unwitnessed::Note(fault)) => Err(Stop::from(fault).at(from.folder.place)),
        Err(Unwitnessed::Unmoved(why)) => Err(why_unmoved(rt, from, state, &disk, &new, why)),
    }
}
