//! The words behind the command's name, and the names that some of them are.

use crate::stop::{Stop, StopAt};
use paxlog_run::request::{Word, bytes_at};
use std::alloc::Global;
use std::env::{Env, FillError};

// No word that the command takes is longer: a proof has at most 64 digests, and a name fewer bytes.
const LONGEST: usize = 8192;

/// Copies the words behind the command's name. The error is a lack of memory, or `LongWord` for one of more than 8,192 bytes.
pub fn words_behind_name<E: Env>(alloc: Global, env: &E) -> Result<Vec<Vec<u8>>, Stop> {
    let mut words = Vec::new(alloc);
    let mut room = Vec::new(alloc);
    room.resize(LONGEST, 0u8)?;
    for place in 1..usize::MAX {
        match env.arg(place, &mut room) {
            Ok(length) => words.push(Vec::from_slice(alloc, &room[..length])?)?,
            Err(FillError::NotPresent) => return Ok(words),
            Err(FillError::TooLong) => return Err(Stop::LongWord),
        }
    }
    Ok(words)
}

/// The name of a file or of a folder, and its place among the words.
#[derive(Clone, Copy)]
pub struct Name<'a> {
    pub text: &'a str,
    pub place: usize,
}

/// Returns the name that a word is. The error is `NotText`.
pub fn name_of_word(words: &[Vec<u8>], word: Word) -> Result<Name<'_>, StopAt> {
    let place = word.place;
    match str::from_utf8(bytes_at(words, place)) {
        Ok(text) => Ok(Name { text, place }),
        Err(_) => Err(Stop::NotText.at(place)),
    }
}

/// Returns the name of a folder or of a state that a word is: names are put behind it, and an empty one would make them those of the
/// root's. The error is `NotText`, or `Empty`.
pub fn folder_name(words: &[Vec<u8>], word: Word) -> Result<Name<'_>, StopAt> {
    let name = name_of_word(words, word)?;
    if name.text.is_empty() {
        return Err(Stop::Empty.at(name.place));
    }
    Ok(name)
}

/// Returns the origin that is named, where one is. The error is `NotText`.
pub fn origin_of(words: &[Vec<u8>], origin: Option<Word>) -> Result<Option<&str>, StopAt> {
    match origin {
        Some(word) => Ok(Some(name_of_word(words, word)?.text)),
        None => Ok(None),
    }
}
