//! Requests of logs that a witness adds a checkpoint, and its replies (C2SP tlog-witness, add-checkpoint).

ghost use Rattle.std.specs.Prelude.{◌≡◌, ℕ, List, map, vec_items, Contains, IfErr, IfOk, MatchOption, Ok};
ghost use Rattle.ark_paths.specs.Pair.{Digest};
ghost use Rattle.log_checkpoints.specs.Adding.{conflict_bytes, cosigned_line, denial_bytes, line_in, reply_bytes, unsigned_in, IsAdding, IsDeniedReply, IsNoAdding, IsOfNoLog, IsOfNoOrigin, IsOfOrigin, IsRejectedProof, IsStatedBy, IsUnanswered, IsUnopenedFor, IsUnprepared, IsUntouched, IsVouchedLine, NeverUnknown};
ghost use Rattle.log_checkpoints.specs.Receipts.{IsMisspelled};
ghost use Rattle.log_checkpoints.specs.Witnessing.{witness_parts, IsTurn};
ghost use Rattle.log_tiles.specs.Led.{IsProofFault};
ghost use Rattle.log_tiles.specs.declared.by_proof.ProofFault.TheVariants.{Memory as ProofMemory};
ghost use Rattle.log_tiles.specs.declared.following.Head.{Head};
ghost use Rattle.signed_notes.specs.Faults.{NoteGivesBy};
ghost use Rattle.signed_notes.specs.LogListViews.{listed_parts};
ghost use Rattle.signed_notes.specs.Views.{checkpoint_parts, cosigner_parts};

use crate::receipts::{Numbered, ReceiptFault, numbered_in};
use crate::witnessing::{Witness, head_of};
use log_tiles::{Head, HeadFile, ProofFault, Unshown, follow_by_proof};
use signed_notes::{
    Checkpoint, Cosigner, Fault, ListedLog, cosignature_of, log_of_origin, open_checkpoint, read,
    signature_line,
};
use std::alloc::{AllocError, Global};

/// How a request begins, before the old size.
pub const OLD: [u8; 4] = *b"old ";

/// Why a witness does not sign what a request has.
#[derive(Clone, Copy, Debug, PartialEq, Eq)]
pub enum Denial {
    /// The bytes are no request, its note states no checkpoint, or the old size is above the new one.
    Malformed,
    /// The checkpoint is not signed as the witness asks.
    Untrusted,
    /// The checkpoint is of another origin.
    UnknownOrigin,
    /// The old size is not the one that was signed last, which is this.
    Conflict(usize),
    /// Another root was signed of this size.
    Forked(usize),
    /// The proof does not lead from the head that was signed last to the new one.
    Unproved,
}

/// What a witness replies.
#[derive(Drop)]
pub enum Reply {
    /// The line of its cosignature.
    Signed(Vec<u8>),
    /// That it does not sign.
    Denied(Denial),
}

/// Why a request is not prepared: it is denied, or there is no reply.
#[derive(Clone, Copy)]
pub enum Unprepared {
    Rejected(Denial),
    Failed(Fault),
}

/// Why there is no reply.
#[derive(Drop)]
pub enum Unanswered<W: Drop> {
    /// The witness's key has no name, or a request for memory was refused.
    Note(Fault),
    /// A call on the witness's file was refused.
    File(W),
}

// Reads a request.
fn read_adding(alloc: Global, bytes: &[u8]) -> Result<Numbered<'_>, ReceiptFault>
    ensures read { IfOk result (λ read.
        IsAdding read.number read.path.items read.note.now bytes.now) }
    ensures refused { IfErr result (IsMisspelled (IsNoAdding bytes.now)) }
{
    if bytes.len() < OLD.len() || bytes[..OLD.len()] != OLD[..] {
        return Err(ReceiptFault::Spelling);
    }
    numbered_in(alloc, &bytes[OLD.len()..])
}

// The checkpoint that a note states, whoever signed it.
fn unsigned_in(alloc: Global, bytes: &[u8]) -> Result<Checkpoint<'_>, Fault>
    ensures { NoteGivesBy checkpoint_parts (unsigned_in bytes.now) result }
{
    let note = read(alloc, bytes)?;
    Checkpoint::read(alloc, note.text.as_bytes())
}

// The line of a cosignature of a note.
fn cosigned_line(alloc: Global, bytes: &[u8], key: &Cosigner, time: u64) -> Result<Vec<u8>, Fault>
    ensures { NoteGivesBy vec_items (cosigned_line (cosigner_parts key.now) time bytes.now) result }
{
    let note = read(alloc, bytes)?;
    let signature = cosignature_of(alloc, key, time, note.text)?;
    signature_line(alloc, &signature)
}

// The origin of the checkpoint that the note of a request states, whoever signed it.
fn origin_of_request(alloc: Global, request: &[u8]) -> Result<&str, Unprepared>
    ensures found { IfOk result (λ origin. IsOfOrigin origin.now request.now) }
    ensures refused { IfErr result (IsOfNoOrigin request.now) }
{
    let note = match read_adding(alloc, request) {
        Ok(read) => read.note,
        Err(ReceiptFault::Spelling) => return Err(Unprepared::Rejected(Denial::Malformed)),
        Err(ReceiptFault::Note(fault)) => return Err(Unprepared::Failed(fault)),
    };
    match unsigned_in(alloc, note) {
        Ok(stated) => Ok(stated.origin),
        Err(Fault::Memory) => Err(Unprepared::Failed(Fault::Memory)),
        Err(_) => Err(Unprepared::Rejected(Denial::Malformed)),
    }
}

/// Returns of which log of a list a request is: its note states a checkpoint of the log's origin, whoever signed it.
///
/// Errors: `Malformed` where the bytes are no request, or the note states no checkpoint; `UnknownOrigin` where no log has its origin;
/// `Memory`. The first two are what `answer_adding` replies for each log of the list, whatever was signed last.
pub fn log_of_request<'a>(
    alloc: Global,
    request: &[u8],
    logs: &[ListedLog<'a>],
) -> Result<ListedLog<'a>, Unprepared>
    ensures listed { IfOk result (λ log. Contains (map listed_parts logs.now) (listed_parts log)) }
    ensures found { IfOk result (λ log. IsOfOrigin log.origin.now request.now) }

    // No reply for this log is that its origin is unknown.
    ensures known { IfOk result (λ log. NeverUnknown log.origin.now request.now) }
    ensures refused { IfErr result (IsOfNoLog (map listed_parts logs.now) request.now) }
{
    let origin = match origin_of_request(alloc, request) {
        Ok(origin) => origin,
        Err(why) => return Err(why),
    };
    match log_of_origin(logs, origin) {
        Some(log) => Ok(log),
        None => Err(Unprepared::Rejected(Denial::UnknownOrigin)),
    }
}

// Refuses a note that states no checkpoint, or one of another origin.
fn if_origin(alloc: Global, note: &[u8], who: &Witness) -> Result<(), Unprepared>
    ensures refused { IfErr result (λ why.
        (old : ℕ) → IsUnopenedFor (witness_parts who.now) old note.now why) }
{
    match unsigned_in(alloc, note) {
        Ok(stated) => {
            if stated.origin == who.origin {
                Ok(())
            } else {
                Err(Unprepared::Rejected(Denial::UnknownOrigin))
            }
        }
        Err(Fault::Memory) => Err(Unprepared::Failed(Fault::Memory)),
        Err(_) => Err(Unprepared::Rejected(Denial::Malformed)),
    }
}

// The head that a note states, where it is signed as a witness asks and has no fewer entries than the old size.
fn if_opened(alloc: Global, old_size: usize, note: &[u8], who: &Witness) -> Result<Head, Unprepared>
    ensures head { IfOk result (IsStatedBy (witness_parts who.now) note.now) }
    ensures refused { IfErr result
        (IsUnopenedFor (witness_parts who.now) old_size note.now) }
{
    match open_checkpoint(alloc, note, who.origin, &who.policy) {
        Ok(stated) => {
            if stated.size < old_size {
                Err(Unprepared::Rejected(Denial::Malformed))
            } else {
                Ok(head_of(&stated))
            }
        }
        Err(Fault::Memory) => Err(Unprepared::Failed(Fault::Memory)),
        Err(_) => Err(Unprepared::Rejected(Denial::Untrusted)),
    }
}

/// A request that may be signed, by all but the witness's file: its parts, the head that its note states, and the line that is handed
/// out once the file states that head.
#[derive(Drop)]
struct ReadyLine<'a> {
    old_size: usize,
    path: Vec<[u8; 32]>,
    note: &'a [u8],
    head: Head,
    line: Vec<u8>,
}

// Reads a request, opens its note, and signs it.
fn prepared<'a>(
    alloc: Global,
    request: &'a [u8],
    who: &Witness,
    time: u64,
) -> Result<ReadyLine<'a>, Unprepared>
    ensures read { IfOk result (λ made.
        IsAdding made.old_size made.path.items made.note.now request.now) }
    ensures head { IfOk result (λ made.
        IsStatedBy (witness_parts who.now) made.note.now made.head) }
    ensures line { let key = (witness_parts who.now).key in IfOk result (λ made.
        cosigned_line key time made.note.now ≡ Ok made.line.items) }
    ensures refused { IfErr result (IsUnprepared (witness_parts who.now) time request.now) }
{
    let Numbered { number, path, note } = match read_adding(alloc, request) {
        Ok(read) => read,
        Err(ReceiptFault::Spelling) => return Err(Unprepared::Rejected(Denial::Malformed)),
        Err(ReceiptFault::Note(fault)) => return Err(Unprepared::Failed(fault)),
    };
    if let Err(why) = if_origin(alloc, note, who) {
        return Err(why);
    }
    let head = if_opened(alloc, number, note, who)?;
    match cosigned_line(alloc, note, &who.key, time) {
        Ok(line) => Ok(ReadyLine {
            old_size: number,
            path,
            note,
            head,
            line,
        }),
        Err(fault) => Err(Unprepared::Failed(fault)),
    }
}

// Why a proof is denied from a head; none where memory was refused.
fn denial_of(held: &Head, why: ProofFault) -> Option<Denial>
    ensures denied { MatchOption result (why ≡ ProofMemory) (λ denial.
        (old : ℕ) (new : Head) (path : List Digest) → IsProofFault held.now old new path why
        → IsRejectedProof held.now old new path denial) }
{
    match why {
        ProofFault::Size => Some(Denial::Conflict(held.size)),
        ProofFault::Fork => Some(Denial::Forked(held.size)),
        ProofFault::Path => Some(Denial::Unproved),
        ProofFault::Memory => None,
    }
}

/// Replies to a request that a witness adds a checkpoint, at a time in seconds since 1970. The file states the head that was signed last:
/// that of a log of no entries where nothing was. The line is made first and handed out last, once the file states the head that it
/// is of, on the disk.
///
/// Errors: `Note` for a lack of memory, or a name of the key that is none; `File` for a refusal of the file. Whatever is denied, the file
/// is as it was.
pub fn answer_adding<F: HeadFile>(
    alloc: Global,
    file: &mut F,
    request: &[u8],
    who: &Witness,
    time: u64,
) -> Result<Reply, Unanswered<F::Refusal>>
    ensures obeys { F.Obeys file.new → F.Obeys file.old }

    // What is handed out is signed of a head that the file's step accepted, so that no crash takes it back.
    ensures turn { F.Obeys file.new → IsTurn F.holds F.may_leave F.moment F.left_since
        (IsVouchedLine (witness_parts who.now) time request.now) file.old file.new
        (line_in result) }
    ensures denied { F.Obeys file.new → IfOk result
        (IsDeniedReply (witness_parts who.now) (F.holds file.old) request.now) }
    ensures refused { F.Obeys file.new → IfErr result
        (IsUnanswered (witness_parts who.now) time request.now) }
    ensures kept { IsUntouched result → file.new ≡ file.old }
{
    let made = match prepared(alloc, request, who, time) {
        Ok(made) => made,
        Err(Unprepared::Rejected(why)) => return Ok(Reply::Denied(why)),
        Err(Unprepared::Failed(fault)) => return Err(Unanswered::Note(fault)),
    };
    match follow_by_proof(
        alloc,
        file,
        made.old_size,
        &made.head,
        &made.path,
        made.note,
    ) {
        Ok(()) => Ok(Reply::Signed(made.line)),
        Err(Unshown::Proof(held, why)) => match denial_of(&held, why) {
            Some(why) => Ok(Reply::Denied(why)),
            None => Err(Unanswered::Note(Fault::Memory)),
        },
        Err(Unshown::File(refusal)) => Err(Unanswered::File(refusal)),
    }
}

// Writes a reply that states the size that was signed last.
fn conflict_bytes(alloc: Global, size: usize) -> Result<Vec<u8>, AllocError>
    ensures { IfOk result (λ bytes. bytes.items ≡ conflict_bytes size) }
{
    let text = format!(in alloc;
        "Status: 409 Conflict\nContent-Type: text/x.tlog.size\n\n{size}\n"
    )?;
    Ok(Vec::from_slice(alloc, text.as_bytes())?)
}

// Writes a denial.
fn denial_bytes(alloc: Global, why: Denial) -> Result<Vec<u8>, AllocError>
    ensures { IfOk result (λ bytes. bytes.items ≡ denial_bytes why) }
{
    let text: &[u8] = match why {
        Denial::Malformed => b"Status: 400 Bad Request\nContent-Type: text/plain\n\n",
        Denial::Untrusted => b"Status: 403 Forbidden\nContent-Type: text/plain\n\n",
        Denial::UnknownOrigin => b"Status: 404 Not Found\nContent-Type: text/plain\n\n",
        Denial::Unproved => b"Status: 422 Unprocessable Entity\nContent-Type: text/plain\n\n",
        Denial::Conflict(size) => return conflict_bytes(alloc, size),
        Denial::Forked(size) => return conflict_bytes(alloc, size),
    };
    Ok(Vec::from_slice(alloc, text)?)
}

/// Writes a reply as a program behind a web server does (RFC 3875, 6): a status and a type, an empty line, and the body. That is the
/// line of the cosignature, or behind 409 the size that was signed last. The error is a lack of memory.
pub fn write_reply(alloc: Global, reply: &Reply) -> Result<Vec<u8>, AllocError>
    ensures { IfOk result (λ bytes. bytes.items ≡ reply_bytes reply.now) }
{
    match reply {
        Reply::Signed(line) => {
            let head = b"Status: 200 OK\nContent-Type: text/plain\n\n";
            let mut bytes = Vec::from_slice(alloc, head)?;
            bytes.extend_from_slice(line)?;
            Ok(bytes)
        }
        Reply::Denied(why) => denial_bytes(alloc, *why),
    }
}
