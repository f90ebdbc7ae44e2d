//! Checkpoints that are opened: signed by their log, and by so many keys of witnesses.

ghost use Rattle.std.specs.Prelude.{◌≡◌, ◌⊎◌, ◌≤◌, IfOk, IfErr, OnOk, List, ℕ, map};
ghost use Rattle.signed_notes.specs.Faults.{NoteGivesBy};
ghost use Rattle.signed_notes.specs.Opening.{checkpoint_by, note_since, signed_since, IsClosed, IsOpened, IsUnwitnessed, IsWitnessed};
ghost use Rattle.signed_notes.specs.Views.{checkpoint_parts, note_parts, parts, policy_parts};
ghost use Rattle.signed_notes.specs.declared.fault.Fault.TheVariants.{Memory};

use crate::checkpoint::Checkpoint;
use crate::cosignature::stated_time;
use crate::counting::signing_keys;
use crate::fault::Fault;
use crate::keys::Verifier;
use crate::note::{Note, Signature, read};
use crate::verifying::any_by;
use std::alloc::Global;

/// Who has to sign a checkpoint: its log, and as many keys of some witnesses as the quorum says. A key counts once, however
/// often it is listed and whatever names it has there.
#[derive(Clone, Copy)]
pub struct Policy<'a> {
    pub log: Verifier<'a>,
    pub witnesses: &'a [Verifier<'a>],
    pub quorum: usize,
    /// The time, in seconds since 1970, from which on a witness has to have signed. What states an earlier one, or none,
    /// is not looked at, unless it is 0.
    pub since: u64,
}

/// Leaves the signatures that state a time from one on.
pub(crate) fn keep_since(signatures: &mut Vec<Signature>, since: u64)
    ensures { map parts signatures.new.items ≡ signed_since since (map parts signatures.old.items) }
{
    signatures.retain(|signature| stated_time(&signature.bytes) >= since);
}

// Refuses a note that is not signed as a policy asks.
fn witnessed(alloc: Global, note: Note, policy: &Policy) -> Result<(), Fault>
    ensures signed { let policy = policy_parts policy.now in
        OnOk result (IsWitnessed policy (note_parts note.entry)) }
    ensures refused { let policy = policy_parts policy.now in IfErr result (λ fault.
        (fault ≡ Memory) ⊎ IsUnwitnessed policy (note_parts note.entry) fault) }
{
    match any_by(alloc, &policy.log, note.text, &note.signatures) {
        Ok(true) => (),
        Ok(false) => return Err(Fault::UnknownKey),
        Err(fault) => return Err(fault),
    }
    let Note {
        text,
        mut signatures,
    } = note;
    keep_since(&mut signatures, policy.since);
    let late = Note { text, signatures };
    match signing_keys(alloc, policy.witnesses, &late) {
        Ok(keys) if keys.len() >= policy.quorum => Ok(()),
        Ok(_) => Err(Fault::FewWitnesses),
        Err(fault) => Err(fault),
    }
}

// The checkpoint of an origin that a text says.
fn checkpoint_by<'a>(alloc: Global, origin: &str, text: &'a str) -> Result<Checkpoint<'a>, Fault>
    ensures { NoteGivesBy checkpoint_parts (checkpoint_by origin.now text.now) result }
{
    let checkpoint = Checkpoint::read(alloc, text.as_bytes())?;
    if checkpoint.origin != origin {
        return Err(Fault::OtherOrigin);
    }
    Ok(checkpoint)
}

/// Opens the note of a checkpoint: it has to be signed as a policy asks, and its text to be a checkpoint of an origin.
///
/// Errors, the first that applies: those of `read`; of the log's signatures `BadSignature`, `UnknownKey`; of those of the
/// witnesses `BadSignature`, `FewWitnesses`; those of `Checkpoint::read`; `OtherOrigin`. `Memory` at any time.
pub fn open_checkpoint<'a>(
    alloc: Global,
    bytes: &'a [u8],
    origin: &str,
    policy: &Policy,
) -> Result<Checkpoint<'a>, Fault>
    ensures opened { let policy = policy_parts policy.now in IfOk result (λ checkpoint.
        IsOpened policy origin.now bytes.now (checkpoint_parts checkpoint)) }
    ensures refused { let policy = policy_parts policy.now in
        IfErr result (IsClosed policy origin.now bytes.now) }
{
    let note = read(alloc, bytes)?;
    let text = note.text;
    match witnessed(alloc, note, policy) {
        Ok(()) => checkpoint_by(alloc, origin, text),
        Err(fault) => Err(fault),
    }
}
