//! Files and lines that are appended to a log.

use crate::batches::Batch;
use crate::entries::{push_lines, push_short, short_entry};
use crate::keeping::EntryKeeper;
use crate::progress::OnTerminal;
use crate::publishing::stated_head;
use crate::reading::file_bytes;
use crate::saying::say_size;
use crate::stop::{Stop, StopAt, placed};
use crate::store::Keeper;
use crate::streams::{Publisher, append_batches};
use crate::words::{Name, folder_name, name_of_word};
use ark_trees::digest_of_entry;
use paxlog_run::entries::digests_of_lines;
use paxlog_run::request::{Options, Publication, Word};
use std::io::Read;

/// Returns the bytes of the file that a word names, or of standard input.
pub fn bytes_of_file(rt: &HostRuntime, words: &[Vec<u8>], file: Word) -> Result<Vec<u8>, StopAt> {
    let name = name_of_word(words, file)?;
    if name.text == "-" {
        let mut bytes = Vec::new(rt.alloc());
        return match rt.stdin().read_to_end(&mut bytes) {
            Ok(_) => Ok(bytes),
            Err(error) => Err(Stop::from(error).at(name.place)),
        };
    }
    file_bytes(rt, name)
}

/// The folder that keeps the entries of an append, and its name.
#[derive(Drop)]
pub struct Keeping<'a> {
    entries: EntryKeeper<'a>,
    folder: Name<'a>,
}

impl<'a> Keeping<'a> {
    /// Reads the word of the folder that keeps entries, where one is named.
    pub fn of(
        rt: &'a HostRuntime,
        words: &'a [Vec<u8>],
        options: &Options,
    ) -> Result<Option<Keeping<'a>>, StopAt> {
        let Some(folder) = options.keep else {
            return Ok(None);
        };
        let folder = folder_name(words, folder)?;
        let entries = EntryKeeper::new(rt, folder.text)?;
        Ok(Some(Keeping { entries, folder }))
    }
}

/// Appends entries to a log that is locked, and returns the new size. Their bytes are on the disk before, where a folder keeps them.
pub fn append_and_keep(
    rt: &HostRuntime,
    log: Name,
    keeper: &mut Keeper<'_>,
    keeping: &mut Option<Keeping<'_>>,
    batch: &Batch,
) -> Result<usize, StopAt> {
    if let Some(keeping) = keeping {
        if !batch.digests.is_empty() {
            placed(log.place, keeper.size())?;
            let size = match stated_head(keeper.disk()) {
                Ok(head) => head.size,
                Err(why) => return Err(why.at(log.place)),
            };
            let kept = keeping
                .entries
                .keep(keeper.disk(), size, &batch.digests, &batch.entries);
            placed(keeping.folder.place, kept)?;
        }
    }
    placed(log.place, keeper.append(rt, &batch.digests))
}

// Appends entries at once, and returns the new size.
fn append_entries(
    rt: &HostRuntime,
    log: Name,
    options: &Options,
    keeping: Option<Keeping<'_>>,
    batch: &Batch,
) -> Result<usize, StopAt> {
    let mut keeping = keeping;
    let mut keeper = placed(log.place, Keeper::open(rt, log.text, options))?;
    append_and_keep(rt, log, &mut keeper, &mut keeping, batch)
}

/// Appends the files from a place on as entries at once, and writes the new size. Each name is a text before any file is read.
pub fn append_files(
    rt: &HostRuntime,
    words: &[Vec<u8>],
    log: Word,
    options: &Options,
    files: usize,
) -> Result<u8, StopAt> {
    let log = name_of_word(words, log)?;
    for place in files..words.len() {
        name_of_word(words, Word { place })?;
    }
    let keeping = Keeping::of(rt, words, options)?;
    let mut batch = Batch::new(rt.alloc());
    for place in files..words.len() {
        let word = Word { place };
        let entry = if keeping.is_some() {
            let entry = placed(place, short_entry(rt, name_of_word(words, word)?))?;
            push_short(&entry, &mut batch.entries)?;
            entry
        } else {
            bytes_of_file(rt, words, word)?
        };
        batch.digests.push(digest_of_entry(&entry))?;
    }
    say_size(rt, append_entries(rt, log, options, keeping, &batch)?)
}

/// Appends the lines of a file, at once or in batches, and writes the new sizes. At once it shows how far it is.
pub fn append_lines(
    rt: &HostRuntime,
    words: &[Vec<u8>],
    log: Word,
    options: &Options,
    publication: Option<Publication>,
    file: Word,
) -> Result<u8, StopAt> {
    let (log, name) = (name_of_word(words, log)?, name_of_word(words, file)?);
    let keeping = Keeping::of(rt, words, options)?;
    if let Some(count) = options.batch {
        let publisher = match publication {
            Some(publication) => Some(Publisher::new(rt, words, log, options, &publication)?),
            None => None,
        };
        return append_batches(rt, log, options, keeping, publisher, name, count);
    }
    let mut progress = OnTerminal::new(rt);
    let bytes = bytes_of_file(rt, words, file)?;
    let mut batch = Batch::new(rt.alloc());
    if keeping.is_some() {
        placed(name.place, push_lines(&bytes, &mut batch.entries))?;
    }
    batch.digests = digests_of_lines(rt.alloc(), &bytes, &mut progress)?;
    progress.writes();
    let appended = append_entries(rt, log, options, keeping, &batch);
    progress.end();
    say_size(rt, appended?)
}
