//! Checkpoints of logs (C2SP tlog-checkpoint): the text of a note.

ghost use Rattle.std.specs.Prelude.{◌≡◌, true, false, string_bytes, Some};
ghost use Rattle.std.specs.List.{list_all};
ghost use Rattle.decimals.specs.Decimals.{decimal_number};
ghost use Rattle.signed_notes.specs.Checkpoints.{are_extensions, checkpoint_behind, checkpoint_from, checkpoint_of, checkpoint_rooted, checkpoint_sized, checkpoint_with, is_line, is_origin, read_checkpoint, write_checkpoint};
ghost use Rattle.signed_notes.specs.Cutting.{lines_in};
ghost use Rattle.signed_notes.specs.Faults.{NoteGivesBy};
ghost use Rattle.signed_notes.specs.Views.{checkpoint_parts};

use crate::cutting::{cut, next_line};
use crate::fault::Fault;
use crate::note::bytes_in;
use crate::texts::{is_ended, is_text, text_of};
use base64::engine::general_purpose::STANDARD;
use decimals::decimal_number;
use std::alloc::Global;

/// A checkpoint of a log.
#[derive(Clone, Copy)]
pub struct Checkpoint<'a> {
    /// The log's name: a line of text.
    pub origin: &'a str,
    /// How many entries the log has.
    pub size: usize,
    pub root: [u8; 32],
    /// The lines behind them, none or each with a line feed and not empty.
    pub extensions: &'a str,
}

// Whether no line is empty.
fn are_lines(bytes: &[u8]) -> bool
    ensures { result ≡ list_all is_line (lines_in bytes.now) }
{
    let mut rest = bytes;
    'lines: while !rest.is_empty() {
        let (line, behind) = next_line(rest);
        if line.is_empty() {
            return false;
        }
        rest = behind;
    }
    true
}

// Whether a text may stand behind the root.
fn are_extensions(text: &str) -> bool
    ensures { result ≡ are_extensions text.now }
{
    let bytes = text.as_bytes();
    is_text(text) && (bytes.is_empty() || is_ended(bytes)) && are_lines(bytes)
}

// Whether a text is a log's origin.
fn is_origin(text: &str) -> bool
    ensures { result ≡ is_origin text.now }
{
    is_text(text) && !text.is_empty() && cut(b'\n', text.as_bytes()).is_none()
}

// A checkpoint of these parts.
fn checkpoint_with<'a>(
    origin: &'a str,
    size: usize,
    extensions: &'a [u8],
    decoded: &[u8],
) -> Result<Checkpoint<'a>, Fault>
    ensures { NoteGivesBy checkpoint_parts
        (checkpoint_with origin.now size extensions.now decoded.now) result }
{
    if decoded.len() != 32 {
        return Err(Fault::Root);
    }
    let mut root = [0; 32];
    root.copy_from_slice(decoded);
    let Some(extensions) = text_of(extensions) else {
        return Err(Fault::Extensions);
    };
    if !are_extensions(extensions) {
        return Err(Fault::Extensions);
    }
    Ok(Checkpoint {
        origin,
        size,
        root,
        extensions,
    })
}

// The checkpoint of what stands behind the size.
fn checkpoint_sized<'a>(
    alloc: Global,
    origin: &'a str,
    size: usize,
    rest: &'a [u8],
) -> Result<Checkpoint<'a>, Fault>
    ensures { NoteGivesBy checkpoint_parts (checkpoint_sized origin.now rest.now size) result }
{
    match cut(b'\n', rest) {
        Some((word, behind)) => checkpoint_with(origin, size, behind, &bytes_in(alloc, word)?),
        None => Err(Fault::Unfinished),
    }
}

// The size that a line says.
fn size_of_line(line: &[u8]) -> Option<usize>
    ensures { result ≡ decimal_number line.now }
{
    decimal_number(line)
}

// The checkpoint of what stands behind the origin.
fn checkpoint_behind<'a>(
    alloc: Global,
    origin: &'a str,
    line: &[u8],
    rest: &'a [u8],
) -> Result<Checkpoint<'a>, Fault>
    ensures { NoteGivesBy checkpoint_parts (checkpoint_behind origin.now (line.now, rest.now))
        result }
{
    match size_of_line(line) {
        Some(size) => checkpoint_sized(alloc, origin, size, rest),
        None => Err(Fault::Size),
    }
}

// The checkpoint of an origin's line and of what stands behind it.
fn checkpoint_from<'a>(
    alloc: Global,
    origin: &'a [u8],
    rest: &'a [u8],
) -> Result<Checkpoint<'a>, Fault>
    ensures { NoteGivesBy checkpoint_parts (checkpoint_from (origin.now, rest.now)) result }
{
    let Some(origin) = text_of(origin) else {
        return Err(Fault::Origin);
    };
    if origin.is_empty() {
        return Err(Fault::Origin);
    }
    match cut(b'\n', rest) {
        Some((line, behind)) => checkpoint_behind(alloc, origin, line, behind),
        None => Err(Fault::Unfinished),
    }
}

impl<'a> Checkpoint<'a> {
    /// Reads the text of a checkpoint.
    ///
    /// Errors, the first that applies: `Unfinished` without three line feeds; of the first three lines in turn `Origin`, `Size`,
    /// `Base64`, `Root`; `Extensions`. `Memory` at any time.
    pub fn read(alloc: Global, text: &'a [u8]) -> Result<Checkpoint<'a>, Fault>
        ensures { NoteGivesBy checkpoint_parts (read_checkpoint text.now) result }
    {
        match cut(b'\n', text) {
            Some((origin, rest)) => checkpoint_from(alloc, origin, rest),
            None => Err(Fault::Unfinished),
        }
    }

    /// Writes the text of the checkpoint. Errors, the first that applies: `Origin`; `Extensions`. `Memory` at any time.
    pub fn write(&self, alloc: Global) -> Result<String, Fault>
        ensures { NoteGivesBy string_bytes (write_checkpoint (checkpoint_parts self.now)) result }
    {
        if !is_origin(self.origin) {
            return Err(Fault::Origin);
        }
        if !are_extensions(self.extensions) {
            return Err(Fault::Extensions);
        }
        let origin = self.origin;
        let size = self.size;
        let root = STANDARD.encode(alloc, &self.root)?;
        let extensions = self.extensions;
        Ok(format!(in alloc; "{origin}\n{size}\n{root}\n{extensions}")?)
    }
}
