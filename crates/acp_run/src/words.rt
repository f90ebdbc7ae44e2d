//! The words behind the program's name.

use std::alloc::Global;
use std::env::{Env, FillError};
use std::io::{self, ErrorKind};

// The size in bytes of the first buffer for a word.
const FIRST_SIZE: usize = 64;

/// Copies the bytes of each word behind the program's name; they need not be text. The only error is a lack of memory.
pub fn words<E: Env>(alloc: Global, env: &E) -> io::Result<Vec<Vec<u8>>> {
    let mut words = Vec::new(alloc);
    for place in 1..usize::MAX {
        match word(alloc, env, place)? {
            Some(word) => words.push(word)?,
            None => break,
        }
    }
    Ok(words)
}

// Copies the bytes of an argument, if there is one. The buffer doubles until they fit.
fn word<E: Env>(alloc: Global, env: &E, place: usize) -> io::Result<Option<Vec<u8>>> {
    let mut bytes = Vec::new(alloc);
    let mut size = FIRST_SIZE;
    for _ in 0..usize::BITS {
        bytes.resize(size, 0u8)?;
        match env.arg(place, &mut bytes) {
            Ok(length) => {
                bytes.truncate(length);
                return Ok(Some(bytes));
            }
            Err(FillError::NotPresent) => return Ok(None),
            Err(FillError::TooLong) => size = size.saturating_add(size),
        }
    }
    Err(io::Error::from(ErrorKind::OutOfMemory))
}
