//! Files that strangers may have made: regular ones alone are opened, and no more of one is read than it may have.

use crate::stop::{Stop, StopAt, placed};
use crate::words::Name;
use std::fs::{File, Metadata};
use std::io::Read;
use std::os::unix::fs::PermissionsExt;
use std::{fs, io};

/// An open file that is a regular one, and how many bytes it has.
#[derive(Drop)]
pub struct Regular {
    pub file: File,
    pub length: usize,
}

// The length of a regular file, by what the system says of it.
fn length_of(rt: &HostRuntime, path: &str, about: Metadata) -> Result<usize, Stop> {
    if about.is_file() {
        Ok(about.len() as usize)
    } else {
        Err(Stop::Kind(format!(in rt.alloc(); "{path}")?))
    }
}

/// Opens a regular file. Any other is refused, and not opened: a pipe would block, and a device may have no end.
pub fn open_regular(rt: &HostRuntime, path: &str) -> Result<Regular, Stop> {
    length_of(rt, path, fs::metadata(rt, path)?)?;
    let file = File::open(rt, path)?;
    // it may be another file by now
    let length = length_of(rt, path, file.metadata()?)?;
    Ok(Regular { file, length })
}

/// Returns the bytes of a file that is named.
pub fn file_bytes(rt: &HostRuntime, name: Name) -> Result<Vec<u8>, StopAt> {
    match fs::read(rt, name.text) {
        Ok(bytes) => Ok(bytes),
        Err(error) => Err(Stop::from(error).at(name.place)),
    }
}

/// Returns the bytes of a regular file; none where it has more than so many.
pub fn bytes_of_at_most(
    rt: &HostRuntime,
    path: &str,
    most: usize,
) -> Result<Option<Vec<u8>>, Stop> {
    let Regular { file, length } = open_regular(rt, path)?;
    if length > most {
        return Ok(None);
    }
    let mut bytes = Vec::new(rt.alloc());
    file.take(length as u64).read_to_end(&mut bytes)?;
    Ok(Some(bytes))
}

// A key file has at most so many bytes.
const LONGEST_KEY: usize = 65_536;

// The bits of a file's mode by which the group writes it, or others read or write it.
const OPEN_TO_OTHERS: u32 = 0o026;

// The bytes of the file of a secret key. It is a regular one, and others neither read nor write it.
fn secret_bytes(rt: &HostRuntime, path: &str) -> Result<Vec<u8>, Stop> {
    let Regular { file, length } = open_regular(rt, path)?;
    if file.metadata()?.permissions().mode() & OPEN_TO_OTHERS != 0 {
        return Err(Stop::OpenKey);
    }
    if length > LONGEST_KEY {
        return Err(Stop::Note(signed_notes::Fault::TooLong));
    }
    let mut bytes = Vec::new(rt.alloc());
    file.take(length as u64).read_to_end(&mut bytes)?;
    Ok(bytes)
}

/// Returns the bytes of the file of a secret key that is named. The error is `OpenKey` where the group may write it, or others may
/// read or write it.
pub fn key_file_bytes(rt: &HostRuntime, name: Name) -> Result<Vec<u8>, StopAt> {
    placed(name.place, secret_bytes(rt, name.text))
}

/// Returns the bytes of a note's file. The error is `TooLong` for more than a note has.
pub fn note_bytes(rt: &HostRuntime, path: &str) -> Result<Vec<u8>, Stop> {
    match bytes_of_at_most(rt, path, signed_notes::MOST_BYTES)? {
        Some(note) => Ok(note),
        None => Err(Stop::Note(signed_notes::Fault::TooLong)),
    }
}

/// Returns what was said of a file; nothing where there is no such file.
pub fn if_found<T: Drop>(said: Result<T, Stop>) -> Result<Option<T>, Stop> {
    match said {
        Ok(value) => Ok(Some(value)),
        Err(Stop::System(error)) if error.kind() == io::ErrorKind::NotFound => Ok(None),
        Err(why) => Err(why),
    }
}

/// Returns whether a regular file is there.
pub fn is_regular(rt: &HostRuntime, path: &str) -> Result<bool, Stop> {
    match fs::metadata(rt, path) {
        Ok(about) => Ok(about.is_file()),
        Err(error) if error.kind() == io::ErrorKind::NotFound => Ok(false),
        Err(error) => Err(Stop::from(error)),
    }
}

/// Returns whether a regular file of this length is there.
pub fn is_there(rt: &HostRuntime, path: &str, length: usize) -> Result<bool, Stop> {
    match fs::metadata(rt, path) {
        Ok(about) => Ok(about.is_file() && about.len() as usize == length),
        Err(error) if error.kind() == io::ErrorKind::NotFound => Ok(false),
        Err(error) => Err(Stop::from(error)),
    }
}
