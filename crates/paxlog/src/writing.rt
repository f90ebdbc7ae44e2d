//! Files that are written whole or not at all, the folders in which they lie, and locks beside them.

use crate::stop::Stop;
use crate::store::folder_of;
use std::fs::{File, OpenOptions};
use std::io::Write;
use std::{fs, io};

// Removes a file, if it is there.
fn remove_if_any(rt: &HostRuntime, path: &str) -> Result<(), Stop> {
    match fs::remove_file(rt, path) {
        Ok(()) => Ok(()),
        Err(error) if error.kind() == io::ErrorKind::NotFound => Ok(()),
        Err(error) => Err(Stop::from(error)),
    }
}

/// Writes a file whole or not at all: behind another name first, whose bytes are on the disk when it is renamed. What has that other
/// name is removed before, so that nothing is written through a link.
pub fn write_whole(rt: &HostRuntime, path: &str, bytes: &[u8]) -> Result<(), Stop> {
    let beside = format!(in rt.alloc(); "{path}.new")?;
    remove_if_any(rt, beside.as_str())?;
    let mut how = OpenOptions::new();
    let mut file = how.write(true).create_new(true).open(rt, beside.as_str())?;
    file.write_all(bytes)?;
    file.sync_all()?;
    fs::rename(rt, beside.as_str(), path)?;
    Ok(())
}

/// Removes a file, if it is there, and returns once that is on the disk.
pub fn remove_whole(rt: &HostRuntime, path: &str) -> Result<(), Stop> {
    remove_if_any(rt, path)?;
    sync(rt, folder_of(path))
}

// Returns once a file, or the names in a folder, are on the disk.
fn sync(rt: &HostRuntime, path: &str) -> Result<(), Stop> {
    File::open(rt, path)?.sync_all()?;
    Ok(())
}

/// Returns once the names in each folder on the way from a folder to a file below it are on the disk.
pub fn sync_way(rt: &HostRuntime, folder: &str, path: &str) -> Result<(), Stop> {
    let mut at = folder_of(path);
    for _folder in 0..path.len() {
        sync(rt, at)?;
        if at.len() <= folder.len() {
            return Ok(());
        }
        at = folder_of(at);
    }
    Ok(())
}

// Returns once the names in a folder are on the disk. One that may not be read, or that is not written to a disk, is left out: the names
// in it are another's.
fn sync_if_any(rt: &HostRuntime, folder: &str) -> Result<(), Stop> {
    let above = match File::open(rt, folder) {
        Ok(above) => above,
        Err(error) if error.kind() == io::ErrorKind::PermissionDenied => return Ok(()),
        Err(error) => return Err(Stop::from(error)),
    };
    match above.sync_all() {
        Ok(()) => Ok(()),
        Err(error) if error.kind() == io::ErrorKind::InvalidInput => Ok(()),
        Err(error) => Err(Stop::from(error)),
    }
}

/// Returns once the name of a folder, and that of each folder on the way to it, are on the disk.
pub fn sync_above(rt: &HostRuntime, folder: &str) -> Result<(), Stop> {
    let mut at = folder.trim_end_matches('/');
    for _folder in 0..folder.len() {
        at = folder_of(at);
        sync_if_any(rt, at)?;
        if at == "." || at == "/" {
            return Ok(());
        }
    }
    Ok(())
}

// Opens the file of a lock, which is made where there is none. It is a regular one, or it is refused and not opened.
fn lock_file(rt: &HostRuntime, path: &str) -> Result<File, Stop> {
    let mut how = OpenOptions::new();
    match fs::symlink_metadata(rt, path) {
        Ok(about) if about.is_file() => Ok(how.write(true).open(rt, path)?),
        Ok(_) => Err(Stop::Kind(format!(in rt.alloc(); "{path}")?)),
        Err(error) if error.kind() == io::ErrorKind::NotFound => {
            Ok(how.write(true).create(true).open(rt, path)?)
        }
        Err(error) => Err(Stop::from(error)),
    }
}

/// Locks a file that is made where there is none. The error is `Locked` where another process has locked it.
pub fn locked(rt: &HostRuntime, path: &str) -> Result<File, Stop> {
    let file = lock_file(rt, path)?;
    file.try_lock()?;
    Ok(file)
}

/// Locks a folder, so that no other process writes files in it. The error is `Written` where another one does.
pub fn locked_folder(rt: &HostRuntime, folder: &str) -> Result<File, Stop> {
    let path = format!(in rt.alloc(); "{folder}/.lock")?;
    match locked(rt, path.as_str()) {
        Err(Stop::Locked) => Err(Stop::Written),
        said => said,
    }
}
