//! Signed checkpoints of logs (C2SP signed-note, tlog-checkpoint and tlog-cosignature), and receipts of entries (C2SP tlog-proof).

ghost use Rattle.std.specs.Prelude.{◌≡◌, ◌≢◌, ◌⊎◌, ℕ, List, false, true, map, pos, vec_items, IfErr, IfOk, IfSome, IsNone, MatchOption, Ok};
ghost use Rattle.std.specs.Str.{is_utf8};
ghost use Rattle.log_checkpoints.specs.Receipts.{ShowsEntry};
ghost use Rattle.paxidore_calls.specs.Answer.{refusal_code, CallGivesBy, Hands};
ghost use Rattle.paxidore_calls.specs.declared.refused.Refused.TheVariants.{Invalid};
ghost use Rattle.paxidore_c.specs.Notes.{note_refused, or_name, receipt_refused, refusing_note, signed_checkpoint, verifier_text, AreAsked, AreNotAsked, IsNotProved, IsNotStated, IsProved, IsRefusedAs, IsStated, LeadsAway};
ghost use Rattle.signed_notes.specs.PolicyFiles.{read_policy};
ghost use Rattle.signed_notes.specs.PolicyViews.{file_parts};
ghost use Rattle.signed_notes.specs.Views.{policy_parts};

use log_checkpoints::{ReceiptFault, Shown, verify_receipt};
use paxidore_calls::buffer::hand_over;
use paxidore_calls::refused::Refused;
use signed_notes::{
    Algorithm, Checkpoint, Fault, PolicyFault, PolicyFile, Signer, Verifier, open_checkpoint,
    read_policy, sign_checkpoint,
};
use std::alloc::Global;

// The refusal of a fault of a note, of a key or of a checkpoint.
fn note_refused(fault: Fault) -> Refused
    ensures { result ≡ note_refused fault }
{
    match fault {
        Fault::Memory => Refused::Memory,
        Fault::BadSignature => Refused::BadSignature,
        Fault::UnknownKey | Fault::FewWitnesses => Refused::Unsigned,
        Fault::OtherOrigin => Refused::OtherOrigin,
        _ => Refused::Invalid,
    }
}

// The refusal of a fault of a receipt.
fn receipt_refused(fault: ReceiptFault) -> Refused
    ensures { result ≡ receipt_refused fault }
{
    match fault {
        ReceiptFault::Spelling => Refused::Invalid,
        ReceiptFault::Note(fault) => note_refused(fault),
    }
}

// The policy that a text says.
fn policy_said(alloc: Global, text: &[u8]) -> Result<PolicyFile<'_>, Refused>
    ensures read { IfOk result (λ policy. read_policy text.now ≡ Ok (file_parts policy)) }
    ensures refused { IfErr result (λ refused.
        (asked : List ℕ) → AreNotAsked text.now asked refused) }
{
    match read_policy(alloc, text) {
        Ok(policy) => Ok(policy),
        Err(fault) => match fault.why {
            PolicyFault::Note(Fault::Memory) => Err(Refused::Memory),
            _ => Err(Refused::NoPolicy),
        },
    }
}

// Bytes that are UTF-8, as a text.
fn utf8_text(bytes: &[u8]) -> Result<&str, Refused>
    ensures text { IfOk result (λ text. (text.now ≡ bytes.now) × (is_utf8 bytes.now ≡ true)) }
    ensures refused { IfErr result (λ refused. (refused ≡ Invalid) × (is_utf8 bytes.now ≡ false)) }
{
    match str::from_utf8(bytes) {
        Ok(text) => Ok(text),
        Err(_) => Err(Refused::Invalid),
    }
}

// The origin that is asked for: where none is, the name of the log's key.
fn origin_asked<'a>(asked: &'a [u8], name: &'a str) -> Option<&'a str>
    ensures { MatchOption result (is_utf8 asked.now ≡ false)
        (λ origin. origin.now ≡ or_name asked.now name.now) }
{
    if asked.is_empty() {
        return Some(name);
    }
    match utf8_text(asked) {
        Ok(origin) => Some(origin),
        Err(_) => None,
    }
}

// What a note states, where it is signed as is asked.
fn head_stated<'x>(
    alloc: Global,
    policy: &'x [u8],
    since: u64,
    origin: &'x [u8],
    note: &'x [u8],
) -> Result<(usize, [u8; 32]), Refused>
    ensures stated { IfOk result (λ head.
        IsStated policy.now since origin.now note.now head.0 head.1) }
    ensures refused { IfErr result (IsNotStated policy.now since origin.now note.now) }
{
    let file = policy_said(alloc, policy)?;
    let Some(origin) = origin_asked(origin, file.log.name) else {
        return Err(Refused::OtherOrigin);
    };
    let mut policy = file.policy();
    policy.since = since;
    match open_checkpoint(alloc, note, origin, &policy) {
        Ok(checkpoint) => {
            let root = checkpoint.root;
            Ok((checkpoint.size, root))
        }
        Err(fault) => Err(note_refused(fault)),
    }
}

/// Writes the size and the root that a checkpoint states, where its note is signed as a policy asks (C2SP tlog-policy). A witness has
/// to have signed at `since` or later, in seconds since 1970; 0 takes any time. An empty origin is the name of the log's key.
///
/// Answers: 0; else the first of `E_POLICY`, `E_ORIGIN` for an origin that is no text, `E_INVALID` for bytes that are no note,
/// `E_SIGNATURE`, `E_UNSIGNED`, `E_INVALID` for a text that is no checkpoint, `E_ORIGIN`; `E_MEMORY` in place of any.
#[unsafe(no_mangle)]
pub extern "C" fn paxidore_checkpoint_open(
    alloc: Global,
    root: &mut [u8; 32],
    size: &mut usize,
    policy: &[u8],
    since: u64,
    origin: &[u8],
    note: &[u8],
) -> i32
    ensures stated { result ≡ pos 0
        → IsStated policy.now since origin.now note.now size.new root.new }
    ensures refused { (result ≡ pos 0)
        ⊎ IsRefusedAs (IsNotStated policy.now since origin.now note.now) result }
    ensures kept { result ≢ pos 0 → (root.new ≡ root.old) × (size.new ≡ size.old) }
{
    match head_stated(alloc, policy, since, origin, note) {
        Ok(head) => {
            let digest = head.1;
            *size = head.0;
            *root = digest;
            0
        }
        Err(refused) => refused.code(),
    }
}

// What a receipt shows of an entry, where it is signed as is asked.
fn proved(
    alloc: Global,
    policy: &[u8],
    since: u64,
    origin: &[u8],
    entry: &[u8],
    receipt: &[u8],
) -> Result<Option<Shown>, Refused>
    ensures shown { IfOk result (λ found. IfSome found (λ is. IsProved policy.now since origin.now
        entry.now receipt.now is.index is.size is.root)) }
    ensures bound { IfOk result (λ found. IfSome found (λ is.
        ShowsEntry receipt.now entry.now is.index is.size is.root)) }
    ensures away { IfOk result (λ found. IsNone found
        → LeadsAway policy.now since origin.now entry.now receipt.now) }
    ensures refused { IfErr result (IsNotProved policy.now since origin.now receipt.now) }
{
    let file = policy_said(alloc, policy)?;
    let Some(origin) = origin_asked(origin, file.log.name) else {
        return Err(Refused::OtherOrigin);
    };
    let mut policy = file.policy();
    policy.since = since;
    match verify_receipt(alloc, receipt, entry, origin, &policy) {
        Ok(found) => Ok(found),
        Err(fault) => Err(receipt_refused(fault)),
    }
}

/// Writes the index, the size and the root that a receipt shows of an entry, where its checkpoint is signed as a policy asks, as of
/// `paxidore_checkpoint_open`.
///
/// Answers: 0; else the first of `E_POLICY`, `E_ORIGIN` for an origin that is no text, `E_INVALID` for bytes that are no receipt; those
/// of `paxidore_checkpoint_open` for its note; 1 where its path does not lead from the entry to the root; `E_MEMORY` in place of any.
#[unsafe(no_mangle)]
pub extern "C" fn paxidore_receipt_open(
    alloc: Global,
    root: &mut [u8; 32],
    size: &mut usize,
    index: &mut usize,
    policy: &[u8],
    since: u64,
    origin: &[u8],
    entry: &[u8],
    receipt: &[u8],
) -> i32
    ensures shown { result ≡ pos 0 → IsProved policy.now since origin.now entry.now receipt.now
        index.new size.new root.new }

    // In every log with this size and root the entry stands at the index, or two different pairs with one hash are named.
    ensures bound { result ≡ pos 0
        → ShowsEntry receipt.now entry.now index.new size.new root.new }
    ensures away { result ≡ pos 1
        → LeadsAway policy.now since origin.now entry.now receipt.now }
    ensures refused { result ≢ pos 0 → (result ≡ pos 1)
        ⊎ IsRefusedAs (IsNotProved policy.now since origin.now receipt.now) result }
    ensures kept { result ≢ pos 0
        → (root.new ≡ root.old) × (size.new ≡ size.old) × (index.new ≡ index.old) }
{
    match proved(alloc, policy, since, origin, entry, receipt) {
        Ok(Some(shown)) => {
            let digest = shown.root;
            *index = shown.index;
            *size = shown.size;
            *root = digest;
            0
        }
        Ok(None) => 1,
        Err(refused) => refused.code(),
    }
}

// The note of a checkpoint that the key of a seed signs.
fn note_signed(
    alloc: Global,
    seed: &[u8; 32],
    name: &[u8],
    origin: &[u8],
    root: &[u8; 32],
    size: usize,
) -> Result<Vec<u8>, Refused>
    ensures { CallGivesBy vec_items (signed_checkpoint seed.now name.now origin.now root.now size)
        result }
{
    let (name, origin) = (utf8_text(name)?, utf8_text(origin)?);
    let signer = Signer { name, seed: *seed };
    let checkpoint = Checkpoint {
        origin,
        size,
        root: *root,
        extensions: "",
    };
    match sign_checkpoint(alloc, &checkpoint, &[signer]) {
        Ok(note) => Ok(note),
        Err(fault) => Err(note_refused(fault)),
    }
}

/// Signs a checkpoint of an origin, a root and a size by the key of a seed, under its name, and writes the note to the front of `note`,
/// and its count.
///
/// Answers: 0; else the first of `E_INVALID` for a name or an origin that is none, `E_ROOM`, which alone writes the count that is
/// needed; `E_MEMORY` in place of any. Any other refusal leaves both buffers as before.
#[unsafe(no_mangle)]
pub extern "C" fn paxidore_checkpoint_sign(
    alloc: Global,
    note: &mut [u8],
    note_len: &mut usize,
    seed: &[u8; 32],
    name: &[u8],
    origin: &[u8],
    root: &[u8; 32],
    size: usize,
) -> i32
    ensures { Hands (signed_checkpoint seed.now name.now origin.now root.now size)
        note.old note.new note_len.old note_len.new result }
{
    hand_over(
        note_signed(alloc, seed, name, origin, root, size),
        note,
        note_len,
    )
}

// The text of a verifier's key.
fn verifier_text(alloc: Global, name: &[u8], key: &[u8; 32]) -> Result<Vec<u8>, Refused>
    ensures { CallGivesBy vec_items (verifier_text name.now key.now) result }
{
    let verifier = Verifier {
        name: utf8_text(name)?,
        algorithm: Algorithm::Ed25519,
        key: *key,
    };
    match verifier.write(alloc) {
        Ok(text) => Ok(text),
        Err(fault) => Err(note_refused(fault)),
    }
}

/// Writes the text of a key, `NAME+HASH+KEY`, by which others check signatures under its name, to the front of `text`, and its count.
///
/// Answers: 0; else the first of `E_INVALID` for a name that is none, `E_ROOM`, which alone writes the count that is needed; `E_MEMORY` in
/// place of any. Any other refusal leaves both buffers as before.
#[unsafe(no_mangle)]
pub extern "C" fn paxidore_verifier_text(
    alloc: Global,
    text: &mut [u8],
    text_len: &mut usize,
    name: &[u8],
    key: &[u8; 32],
) -> i32
    ensures { Hands (verifier_text name.now key.now) text.old text.new text_len.old text_len.new
        result }
{
    hand_over(verifier_text(alloc, name, key), text, text_len)
}
