//! Entries whose bytes are kept, one at a time.

use crate::input::{Buffer, Source};
use crate::stop::{Stop, StopAt, placed};
use crate::words::{Name, name_of_word};
use log_tiles::{LONGEST, first_entry, push_entry};
use memchr::memchr;
use paxlog_run::request::{Entries, Word};
use std::io::Read;

/// Puts an entry behind others, as bundles have it. The error is `Long` for one of more than 65,535 bytes, or a lack of memory.
pub fn push_short(entry: &[u8], entries: &mut Vec<u8>) -> Result<(), Stop> {
    if entry.len() > LONGEST {
        return Err(Stop::Long);
    }
    push_entry(entry, entries)?;
    Ok(())
}

// The first line, without its line feed, and what stands behind it.
fn first_line(lines: &[u8]) -> (&[u8], &[u8]) {
    match memchr(b'\n', lines) {
        Some(end) => (&lines[..end], &lines[end + 1..]),
        None => (lines, &[]),
    }
}

/// Puts the entries that lines are behind others, as bundles have them. The error is that of `push_short`.
pub fn push_lines(lines: &[u8], entries: &mut Vec<u8>) -> Result<(), Stop> {
    let mut rest = lines;
    for _line in 0..lines.len() {
        if rest.is_empty() {
            return Ok(());
        }
        let (line, behind) = first_line(rest);
        push_short(line, entries)?;
        rest = behind;
    }
    Ok(())
}

/// Reads the bytes of an entry of a file, or of standard input. No more is read than an entry has that is kept: the error is `Long`
/// then.
pub fn short_entry(rt: &HostRuntime, name: Name) -> Result<Vec<u8>, Stop> {
    let mut bytes = Vec::new(rt.alloc());
    let most = LONGEST as u64 + 1;
    match Source::open(rt, name.text)? {
        Source::File(file) | Source::Pipe(file) => file.take(most).read_to_end(&mut bytes)?,
        Source::Input => rt.stdin().take(most).read_to_end(&mut bytes)?,
    };
    if bytes.len() > LONGEST {
        return Err(Stop::Long);
    }
    Ok(bytes)
}

// Where entries are read one by one.
#[derive(Drop)]
enum Given {
    Lines(Buffer),
    Bundles(Buffer),
    // the place of the next file, and that behind the last
    Files(usize, usize),
}

/// The entries that words name, one at a time, in memory for one of them.
#[derive(Drop)]
pub struct EntryReader<'a> {
    words: &'a [Vec<u8>],
    given: Given,
    // the place of the word that is read
    place: usize,
    // whether that was refused
    is_refused: bool,
}

impl<'a> EntryReader<'a> {
    /// Opens the file of entries. Each name is a text before any file is read.
    pub fn open(
        rt: &HostRuntime,
        words: &'a [Vec<u8>],
        entries: Entries,
    ) -> Result<EntryReader<'a>, StopAt> {
        let (given, place) = match entries {
            Entries::Lines(file) => (Given::Lines(opened(rt, words, file)?), file.place),
            Entries::Bundles(file) => (Given::Bundles(opened(rt, words, file)?), file.place),
            Entries::Files { first, end } => {
                for place in first..end {
                    name_of_word(words, Word { place })?;
                }
                (Given::Files(first, end), first)
            }
        };
        Ok(EntryReader {
            words,
            given,
            place,
            is_refused: false,
        })
    }

    /// Returns what the entries are called where they are not the log's.
    pub fn kind(&self) -> &'static str {
        match &self.given {
            Given::Lines(_) => "lines",
            Given::Bundles(_) => "entries",
            Given::Files(_, _) => "files",
        }
    }

    /// Returns the place of the word whose file was not read; none where each was.
    pub fn refused_place(&self) -> Option<usize> {
        if self.is_refused {
            Some(self.place)
        } else {
            None
        }
    }

    /// Puts the next entry behind others, as bundles have it. Returns whether there was one.
    pub fn push_next(&mut self, rt: &HostRuntime, entries: &mut Vec<u8>) -> Result<bool, Stop> {
        let said = self.push(rt, entries);
        self.is_refused = said.is_err();
        said
    }

    fn push(&mut self, rt: &HostRuntime, entries: &mut Vec<u8>) -> Result<bool, Stop> {
        match &mut self.given {
            Given::Lines(buffer) => push_entry_line(rt, buffer, entries),
            Given::Bundles(buffer) => push_bundled(rt, buffer, entries),
            Given::Files(next, end) => {
                let place = *next;
                if place >= *end {
                    return Ok(false);
                }
                *next = place.saturating_add(1);
                self.place = place;
                let Ok(name) = name_of_word(self.words, Word { place }) else {
                    return Err(Stop::NotText);
                };
                push_short(&short_entry(rt, name)?, entries)?;
                Ok(true)
            }
        }
    }
}

// Opens a file of entries.
fn opened(rt: &HostRuntime, words: &[Vec<u8>], file: Word) -> Result<Buffer, StopAt> {
    let name = name_of_word(words, file)?;
    let source = placed(name.place, Source::open(rt, name.text))?;
    Ok(Buffer::new(rt.alloc(), source))
}

// Puts the next line behind other entries. Returns whether there was one.
fn push_entry_line(
    rt: &HostRuntime,
    buffer: &mut Buffer,
    entries: &mut Vec<u8>,
) -> Result<bool, Stop> {
    for _turn in 0..u64::MAX {
        let left = buffer.left();
        if let Some(end) = memchr(b'\n', left) {
            push_short(&left[..end], entries)?;
            buffer.take(end.saturating_add(1));
            return Ok(true);
        }
        if left.len() > LONGEST {
            return Err(Stop::Long);
        }
        if buffer.is_at_end() {
            let count = left.len();
            if count == 0 {
                return Ok(false);
            }
            push_short(left, entries)?;
            buffer.take(count);
            return Ok(true);
        }
        buffer.read_more(rt)?;
    }
    Ok(false)
}

// Puts the next entry that stands behind its length behind others. Returns whether there was one. The error is `Unfinished` where
// the bytes end within it.
fn push_bundled(
    rt: &HostRuntime,
    buffer: &mut Buffer,
    entries: &mut Vec<u8>,
) -> Result<bool, Stop> {
    for _turn in 0..u64::MAX {
        let left = buffer.left();
        if let Some((entry, _behind)) = first_entry(left) {
            let count = entry.len().saturating_add(2);
            push_short(entry, entries)?;
            buffer.take(count);
            return Ok(true);
        }
        if buffer.is_at_end() {
            return if left.is_empty() {
                Ok(false)
            } else {
                Err(Stop::Unfinished)
            };
        }
        buffer.read_more(rt)?;
    }
    Ok(false)
}
