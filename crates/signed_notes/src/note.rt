//! Notes: their parts, and how they are read.

ghost use Rattle.std.specs.Prelude.{map, vec_items};
ghost use Rattle.signed_notes.specs.Cutting.{lines_in};
ghost use Rattle.signed_notes.specs.Faults.{NoteGivesBy};
ghost use Rattle.signed_notes.specs.Reading.{bytes_in, named, read_note, signature_in, signature_in_line, signatures_behind, signatures_in};
ghost use Rattle.signed_notes.specs.Views.{note_parts, parts};

use crate::cutting::{cut, cut_at_blank, line_count, next_line};
use crate::fault::Fault;
use crate::texts::{is_ended, name_of, text_of};
use base64::DecodeAllocError;
use base64::engine::general_purpose::STANDARD;
use std::alloc::Global;

/// How many bytes a note has at most.
pub const MOST_BYTES: usize = 1_000_000;

/// How many signatures a note has at most.
pub const MOST_SIGNATURES: usize = 100;

// An em dash and a space.
pub(crate) const DASH: [u8; 4] = [226, 128, 148, 32];

/// A signature of a note.
#[derive(Drop)]
pub struct Signature<'a> {
    /// The name of the key.
    pub name: &'a str,
    /// The first four bytes of the key's hash.
    pub hash: [u8; 4],
    /// What the algorithm made.
    pub bytes: Vec<u8>,
}

/// A note, not verified.
#[derive(Drop)]
pub struct Note<'a> {
    /// What is signed, with its last line feed.
    pub text: &'a str,
    pub signatures: Vec<Signature<'a>>,
}

// The bytes that a word of Base64 spells.
pub(crate) fn bytes_in(alloc: Global, word: &[u8]) -> Result<Vec<u8>, Fault>
    ensures bytes { NoteGivesBy vec_items (bytes_in word.now) result }
{
    match STANDARD.decode(alloc, word) {
        Ok(bytes) => Ok(bytes),
        Err(DecodeAllocError::OutOfMemory) => Err(Fault::Memory),
        Err(DecodeAllocError::DecodeError(_)) => Err(Fault::Base64),
    }
}

// The signature of a name and of the bytes that Base64 spelled.
fn named<'a>(name: &'a str, decoded: Vec<u8>) -> Result<Signature<'a>, Fault>
    ensures { NoteGivesBy parts (named name.now decoded.items) result }
{
    let count = decoded.len();
    if count <= 4 {
        return Err(Fault::Short);
    }
    let mut hash = [0; 4];
    hash.copy_from_slice(&decoded[..4]);
    let mut bytes = decoded;
    bytes.rotate_left(4);
    bytes.truncate(count - 4);
    Ok(Signature { name, hash, bytes })
}

// The signature of a name and a word of Base64.
fn signature_of<'a>(alloc: Global, name: &'a [u8], word: &[u8]) -> Result<Signature<'a>, Fault>
    ensures { NoteGivesBy parts (signature_in_line (name.now, word.now)) result }
{
    match name_of(name) {
        Some(name) => named(name, bytes_in(alloc, word)?),
        None => Err(Fault::Name),
    }
}

// The signature that a line says.
fn signature_in(alloc: Global, line: &[u8]) -> Result<Signature<'_>, Fault>
    ensures { NoteGivesBy parts (signature_in line.now) result }
{
    if line.len() < 4 || line[..4] != DASH[..] {
        return Err(Fault::Line);
    }
    match cut(b' ', &line[4..]) {
        Some((name, word)) => signature_of(alloc, name, word),
        None => Err(Fault::Line),
    }
}

// The signatures that lines say.
fn signatures_in(alloc: Global, bytes: &[u8]) -> Result<Vec<Signature<'_>>, Fault>
    ensures { NoteGivesBy (λ all. map parts all.items) (signatures_in (lines_in bytes.now)) result }
{
    let mut signatures = Vec::new(alloc);
    let mut rest = bytes;
    'lines: while !rest.is_empty() {
        let (line, behind) = next_line(rest);
        signatures.push(signature_in(alloc, line)?)?;
        rest = behind;
    }
    Ok(signatures)
}

// The signatures behind the empty line.
fn signatures_behind(alloc: Global, bytes: &[u8]) -> Result<Vec<Signature<'_>>, Fault>
    ensures { NoteGivesBy (λ all. map parts all.items) (signatures_behind bytes.now) result }
{
    if bytes.is_empty() {
        return Err(Fault::NoSignatures);
    }
    if !is_ended(bytes) {
        return Err(Fault::Unfinished);
    }
    if line_count(bytes) > MOST_SIGNATURES {
        return Err(Fault::TooMany);
    }
    signatures_in(alloc, bytes)
}

/// Reads a note. It verifies no signature.
///
/// Errors, the first that applies: `TooLong`; `NoSignatures`, without an empty line; `NotText`; of the bytes behind the
/// last empty line `NoSignatures`, `Unfinished`, `TooMany`; of each line in turn `Line`, `Name`, `Base64`, `Short`.
/// `Memory` at any time.
pub fn read(alloc: Global, bytes: &[u8]) -> Result<Note<'_>, Fault>
    ensures { NoteGivesBy note_parts (read_note bytes.now) result }
{
    if bytes.len() > MOST_BYTES {
        return Err(Fault::TooLong);
    }
    let Some((front, rest)) = cut_at_blank(bytes) else {
        return Err(Fault::NoSignatures);
    };
    let Some(text) = text_of(front) else {
        return Err(Fault::NotText);
    };
    Ok(Note {
        text,
        signatures: signatures_behind(alloc, rest)?,
    })
}
