//! How notes are written.

ghost use Rattle.std.specs.Prelude.{◌≡◌, ◌++◌, ◌∷◌, ◌⊎◌, [], Ok, Err, IfOk, IfErr, OnOk, IsOkUnless, map, vec_items, string_bytes};
ghost use Rattle.base64.specs.GeneralPurpose.{encode_of};
ghost use Rattle.base64.specs.Engines.{standard};
ghost use Rattle.signed_notes.specs.Faults.{NoteGivesBy};
ghost use Rattle.signed_notes.specs.Notes.{line_of};
ghost use Rattle.signed_notes.specs.Writing.{in_front_of, write_note, written_line, written_lines};
ghost use Rattle.signed_notes.specs.Views.{parts, parts_of_note};
ghost use Rattle.signed_notes.specs.declared.fault.Fault.TheVariants.{Memory};

use crate::fault::Fault;
use crate::note::{DASH, MOST_BYTES, MOST_SIGNATURES, Signature};
use crate::texts::{is_ended, is_name, is_text};
use base64::engine::general_purpose::STANDARD;
use std::alloc::Global;

// Writes the hash and the bytes of a signature in Base64.
fn signature_word(alloc: Global, signature: &Signature) -> Result<String, Fault>
    ensures word { IfOk result (λ word. string_bytes word
        ≡ encode_of standard ((parts signature.now).hash ++ (parts signature.now).bytes)) }
    ensures memory { IsOkUnless result Memory }
{
    let mut bytes = Vec::new(alloc);
    bytes.extend_from_slice(&signature.hash)?;
    bytes.extend_from_slice(&signature.bytes)?;
    Ok(STANDARD.encode(alloc, &bytes)?)
}

// Writes the line of a signature behind other bytes.
fn push_line(out: &mut Vec<u8>, alloc: Global, signature: &Signature) -> Result<(), Fault>
    ensures line { let line = line_of (parts signature.now) ++ (10 ∷ []) in
        OnOk result (written_line (parts signature.now) ≡ Ok line) }
    ensures bytes { let line = line_of (parts signature.now) ++ (10 ∷ []) in
        OnOk result (out.new.items ≡ out.old.items ++ line) }
    ensures refused { IfErr result (λ fault.
        (fault ≡ Memory) ⊎ (written_line (parts signature.now) ≡ Err fault)) }
{
    if !is_name(signature.name) {
        return Err(Fault::Name);
    }
    if signature.bytes.is_empty() {
        return Err(Fault::Short);
    }
    let word = signature_word(alloc, signature)?;
    out.extend_from_slice(&DASH)?;
    out.extend_from_slice(signature.name.as_bytes())?;
    out.push(b' ')?;
    out.extend_from_slice(word.as_bytes())?;
    out.push(b'\n')?;
    Ok(())
}

/// Writes the line of a signature, with its line feed.
///
/// Errors, the first that applies: `Name`; `Short` without a byte. `Memory` at any time.
pub fn signature_line(alloc: Global, signature: &Signature) -> Result<Vec<u8>, Fault>
    ensures { NoteGivesBy vec_items (written_line (parts signature.now)) result }
{
    let mut line = Vec::new(alloc);
    push_line(&mut line, alloc, signature)?;
    Ok(line)
}

// Writes the lines of signatures behind other bytes.
fn with_lines(alloc: Global, front: Vec<u8>, signatures: &[Signature]) -> Result<Vec<u8>, Fault>
    ensures { let lines = written_lines (map parts signatures.now) in
        NoteGivesBy vec_items (in_front_of front.items lines) result }
{
    let mut out = front;
    for signature in signatures {
        push_line(&mut out, alloc, signature)?;
    }
    Ok(out)
}

/// Writes a note of a text and its signatures.
///
/// Errors, the first that applies: of the text `NotText`, or `Unfinished` without a line feed at its end;
/// `NoSignatures`; `TooMany`; of each signature in turn `Name`, or `Short` without a byte; `TooLong`. `Memory` at any
/// time.
pub fn write(alloc: Global, text: &str, signatures: &[Signature]) -> Result<Vec<u8>, Fault>
    ensures { NoteGivesBy vec_items (write_note (parts_of_note text.now (map parts signatures.now)))
        result }
{
    if !is_text(text) {
        return Err(Fault::NotText);
    }
    if !is_ended(text.as_bytes()) {
        return Err(Fault::Unfinished);
    }
    if signatures.is_empty() {
        return Err(Fault::NoSignatures);
    }
    if signatures.len() > MOST_SIGNATURES {
        return Err(Fault::TooMany);
    }
    let mut front = Vec::from_slice(alloc, text.as_bytes())?;
    front.push(b'\n')?;
    let bytes = with_lines(alloc, front, signatures)?;
    if bytes.len() > MOST_BYTES {
        return Err(Fault::TooLong);
    }
    Ok(bytes)
}
