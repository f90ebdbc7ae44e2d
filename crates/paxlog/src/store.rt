//! The file of a log: it is opened, locked, and made where it has no byte.

use crate::file_disk::FileDisk;
use crate::patience::Patience;
use crate::stop::{Stop, StopAt, placed};
use crate::words::Name;
use log_file::fault::Fault;
use log_file::head::START;
use log_store::{Disk, InclusionProof, Recovered};
use paxlog_run::request::{After, Options};
use std::fs::{File, OpenOptions, TryLockError};
use std::io::{Read, Write};
use std::os::unix::fs::{MetadataExt, OpenOptionsExt};
use std::{fs, io};

// How often a file is opened whose name another file takes before it is locked.
const TURNS: usize = 64;

/// Returns the folder of a file.
pub fn folder_of(path: &str) -> &str {
    match path.rsplit_once('/') {
        Some(("", _)) => "/",
        Some((folder, _)) => folder,
        None => ".",
    }
}

/// Returns once the names in the folder of a file are on the disk.
pub fn sync_folder_of(rt: &HostRuntime, path: &str) -> Result<(), Stop> {
    File::open(rt, folder_of(path))?.sync_all()?;
    Ok(())
}

// Makes a file ready for appends: a file that has no byte, or no more than a part of the two sectors of no entries, gets these sectors;
// a part of an older head is completed, and of another file a sector that is lost, and the head, are written again. The folder is synced
// too as long as the log has no entry: whoever made the file may have ended before its name was on the disk.
fn make_file(rt: &HostRuntime, path: &str, disk: &mut FileDisk) -> Result<(), Stop> {
    let has_entries = disk.length()? > START;
    if !disk.lay_out()? {
        disk.heal()?;
        log_store::make(disk)?;
    }
    if !has_entries {
        sync_folder_of(rt, path)?;
    }
    Ok(())
}

// Whether a path names an open file. One that was moved or removed meanwhile has another file, or none, under its name.
fn has_that_name(rt: &HostRuntime, path: &str, file: &File) -> Result<bool, Stop> {
    let own = file.metadata()?;
    match fs::metadata(rt, path) {
        Ok(named) => Ok(named.dev() == own.dev() && named.ino() == own.ino()),
        Err(error) if error.kind() == io::ErrorKind::NotFound => Ok(false),
        Err(error) => Err(Stop::from(error)),
    }
}

// Whether a log with this size and root is the one after which entries are to be appended.
fn is_after(after: &After, size: usize, root: &[u8; 32]) -> bool {
    after.size == size && after.root == *root
}

// Locks a file, and waits for so many seconds at most while another process has locked it.
fn lock(rt: &HostRuntime, file: &File, seconds: usize) -> Result<(), Stop> {
    let patience = Patience::new(rt, seconds)?;
    for _turn in 0..usize::MAX {
        match file.try_lock() {
            Ok(()) => return Ok(()),
            Err(TryLockError::Error(error)) => return Err(Stop::from(error)),
            Err(TryLockError::WouldBlock) => {
                if !patience.lasts(rt)? {
                    return Err(Stop::Locked);
                }
            }
        }
    }
    Err(Stop::Locked)
}

// Opens and locks the file of a log, which is made where there is none and no log is named after which to append. While it was
// waited for, another file may have taken the name: then that one is opened.
fn locked(rt: &HostRuntime, path: &str, options: &Options) -> Result<File, Stop> {
    for _turn in 0..TURNS {
        let mut how = OpenOptions::new();
        let file = how
            .read(true)
            .write(true)
            .create(options.after.is_none())
            .open(rt, path)?;
        lock(rt, &file, options.wait)?;
        if has_that_name(rt, path, &file)? {
            return Ok(file);
        }
    }
    Err(Stop::Replaced)
}

/// A log's file that is locked, so that entries are appended to it.
#[derive(Drop)]
pub struct Keeper<'a> {
    path: &'a str,
    disk: FileDisk,
    after: Option<After>,
    // the head that the file had on the disk when the lock was let go
    left: Option<[u8; START]>,
}

impl<'a> Keeper<'a> {
    /// Opens and locks the file of a log, which is made where there is none and no log is named after which to append.
    pub fn open(rt: &HostRuntime, path: &'a str, options: &Options) -> Result<Keeper<'a>, Stop> {
        let mut disk = FileDisk::new(locked(rt, path, options)?);
        if options.after.is_none() {
            make_file(rt, path, &mut disk)?;
        } else {
            disk.heal()?;
            log_store::rewrite_head(&mut disk)?;
        }
        Ok(Keeper {
            path,
            disk,
            after: options.after,
            left: None,
        })
    }

    // The bytes of the head.
    fn head(&self) -> Result<[u8; START], Stop> {
        let mut head = [0; START];
        self.disk.read_at(0, &mut head)?;
        Ok(head)
    }

    /// Unlocks the file, so that others append to the log and sign it until it is locked again.
    pub fn let_go(&mut self) -> Result<(), Stop> {
        self.left = Some(self.head()?);
        self.disk.file().unlock()?;
        Ok(())
    }

    /// Locks the file again, and waits for so many seconds at most while another process has locked it.
    pub fn lock_again(&mut self, rt: &HostRuntime, seconds: usize) -> Result<(), Stop> {
        lock(rt, self.disk.file(), seconds)
    }

    // Writes the head again that another process wrote since the lock was let go, as at the opening: its sync may have been refused. The
    // head that was left is on the disk.
    fn keep_head(&mut self) -> Result<(), Stop> {
        let left = self.left;
        if let Some(left) = left {
            if left != self.head()? {
                log_store::rewrite_head(&mut self.disk)?;
            }
        }
        Ok(())
    }

    // Refuses a file that no longer has its name: what is appended to it is not in the log that the name has.
    fn keep_name(&self, rt: &HostRuntime) -> Result<(), Stop> {
        if has_that_name(rt, self.path, self.disk.file())? {
            Ok(())
        } else {
            Err(Stop::Replaced)
        }
    }

    /// Returns the log's file.
    pub fn disk(&self) -> &FileDisk {
        &self.disk
    }

    /// Returns the size of the log, where it is the one after which entries are to be appended. The error is `Other`.
    pub fn size(&self) -> Result<usize, Stop> {
        let (size, root) = log_store::root(&self.disk, None)?;
        match &self.after {
            Some(after) if !is_after(after, size, &root) => Err(Stop::Fault(Fault::Other)),
            _ => Ok(size),
        }
    }

    /// Appends entries with these digests, and returns the new size. The first append is to the log that was named, if one was.
    /// The file has its name before and after: else the error is `Replaced`.
    pub fn append(&mut self, rt: &HostRuntime, digests: &[[u8; 32]]) -> Result<usize, Stop> {
        if digests.is_empty() {
            return self.size();
        }
        self.keep_name(rt)?;
        self.keep_head()?;
        let disk = &mut self.disk;
        disk.is_slot_begun = false;
        let alloc = rt.alloc();
        let appended = match &self.after {
            Some(after) => log_store::append_after(alloc, disk, after.size, &after.root, digests),
            None => log_store::append(alloc, disk, digests),
        };
        match appended {
            Ok(size) => {
                self.after = None;
                self.keep_name(rt)?;
                Ok(size)
            }
            Err(log_store::Stop::Fault(fault)) => Err(Stop::Fault(fault)),
            Err(log_store::Stop::Disk(error)) if self.disk.is_slot_begun => {
                Err(Stop::Perhaps(error))
            }
            Err(log_store::Stop::Disk(error)) => Err(Stop::from(error)),
        }
    }
}

/// Returns the root of the first entries of the log of a disk, one at least: by it the log that the file states continues them.
pub fn root_of_first(rt: &HostRuntime, disk: &FileDisk, size: usize) -> Result<[u8; 32], Stop> {
    Ok(log_store::consistency(rt.alloc(), disk, size, None)?.old_root)
}

// Refuses a root of the first entries, of as many as are named, that the log which the file states does not continue.
fn bind(
    rt: &HostRuntime,
    disk: &FileDisk,
    named: Option<usize>,
    root: &[u8; 32],
) -> Result<(), Stop> {
    match named {
        Some(size) if size > 0 && root_of_first(rt, disk, size)? != *root => {
            Err(Stop::Fault(Fault::Damaged))
        }
        _ => Ok(()),
    }
}

/// Returns the count and the root of the first entries of the log of a file, of as many as are named, or else of all.
pub fn root_of_file(
    rt: &HostRuntime,
    path: &str,
    named: Option<usize>,
) -> Result<(usize, [u8; 32]), Stop> {
    let disk = FileDisk::new(File::open(rt, path)?);
    match named {
        Some(size) if size > 0 => Ok((size, root_of_first(rt, &disk, size)?)),
        _ => Ok(log_store::root(&disk, named)?),
    }
}

/// Returns the inclusion proof of an index in the first entries of the log of a file, as many as are named, or else all.
pub fn prove_in_file(
    rt: &HostRuntime,
    path: &str,
    index: usize,
    named: Option<usize>,
) -> Result<InclusionProof, Stop> {
    let disk = FileDisk::new(File::open(rt, path)?);
    let proof = log_store::prove(rt.alloc(), &disk, index, named)?;
    bind(rt, &disk, named, &proof.root)?;
    Ok(proof)
}

/// Returns the path of the proof that the first entries of the log of a file, as many as are named, or else all, continue its
/// first `old_size` ones.
pub fn consistency_of_file(
    rt: &HostRuntime,
    path: &str,
    old_size: usize,
    named: Option<usize>,
) -> Result<Vec<[u8; 32]>, Stop> {
    let disk = FileDisk::new(File::open(rt, path)?);
    let proof = log_store::consistency(rt.alloc(), &disk, old_size, named)?;
    bind(rt, &disk, named, &proof.root)?;
    Ok(proof.path)
}

/// Returns the first index at which the log of a file has an entry with a digest; none where it has none.
pub fn find_in_file(
    rt: &HostRuntime,
    path: &str,
    digest: &[u8; 32],
) -> Result<Option<usize>, Stop> {
    let disk = FileDisk::new(File::open(rt, path)?);
    Ok(log_store::find(&disk, digest)?)
}

/// Returns whether a file is that of a log.
pub fn check_file(rt: &HostRuntime, path: &str) -> Result<bool, Stop> {
    let disk = FileDisk::new(File::open(rt, path)?);
    Ok(log_store::check(&disk)?)
}

// Opens the file of a log, to which nobody appends meanwhile, for reading alone or also for writing.
fn opened_alone(rt: &HostRuntime, path: &str, is_written: bool) -> Result<FileDisk, Stop> {
    for _turn in 0..TURNS {
        let mut how = OpenOptions::new();
        let file = how.read(true).write(is_written).open(rt, path)?;
        file.try_lock_shared()?;
        if has_that_name(rt, path, &file)? {
            return Ok(FileDisk::new(file));
        }
    }
    Err(Stop::Replaced)
}

/// Opens the file of a log, to which nobody appends meanwhile.
pub fn unchanged(rt: &HostRuntime, path: &str) -> Result<FileDisk, Stop> {
    opened_alone(rt, path, false)
}

/// Opens the file of a log that is to be signed, to which nobody appends meanwhile. A sector that is lost, and then its head, are
/// written again before that, so the file has to be one that may be written.
pub fn to_be_signed(rt: &HostRuntime, path: &str) -> Result<FileDisk, Stop> {
    let mut disk = opened_alone(rt, path, true)?;
    disk.heal()?;
    Ok(disk)
}

/// Returns what of a file can be recovered.
pub fn recoverable_of_file(rt: &HostRuntime, path: &str) -> Result<Recovered, Stop> {
    let disk = unchanged(rt, path)?;
    Ok(log_store::recoverable(&disk)?)
}

// A new file, where there is none, with its lock. Its slots will lie in two sectors.
fn created(rt: &HostRuntime, path: &str) -> Result<FileDisk, Stop> {
    let mut how = OpenOptions::new();
    let file = how.read(true).write(true).create_new(true).open(rt, path)?;
    file.try_lock()?;
    Ok(FileDisk::blank(file)?)
}

/// Returns 32 bytes of the system's random numbers.
pub fn random_seed(rt: &HostRuntime) -> Result<[u8; 32], Stop> {
    let mut seed = [0; 32];
    File::open(rt, "/dev/urandom")?.read_exact(&mut seed)?;
    Ok(seed)
}

// Writes the bytes of a new file, and returns once it is on the disk.
fn write_new(rt: &HostRuntime, mut file: File, path: &str, bytes: &[u8]) -> Result<(), Stop> {
    file.write_all(bytes)?;
    file.sync_all()?;
    sync_folder_of(rt, path)
}

/// Makes a new file that its owner alone reads and writes, where there is none, and returns once it is on the disk. After an error
/// there is none.
pub fn created_secret(rt: &HostRuntime, path: &str, bytes: &[u8]) -> Result<(), Stop> {
    let mut how = OpenOptions::new();
    let file = how.write(true).create_new(true).mode(0o600).open(rt, path)?;
    let written = write_new(rt, file, path, bytes);
    if written.is_err() {
        let _ = fs::remove_file(rt, path);
    }
    written
}

/// Makes a new file of what of a file can be recovered, and returns once it is on the disk. The error has the place of the file that
/// it speaks of.
pub fn recover_file(rt: &HostRuntime, log: Name, new: Name) -> Result<Recovered, StopAt> {
    let disk = placed(log.place, unchanged(rt, log.text))?;
    // a file that is no log is told before a new one is made
    if let Err(why) = log_store::recoverable(&disk) {
        return Err(Stop::from(why).at(log.place));
    }
    let mut made = placed(new.place, created(rt, new.text))?;
    match log_store::recover(&disk, &mut made) {
        Ok(found) => {
            placed(new.place, sync_folder_of(rt, new.text))?;
            Ok(found)
        }
        Err(why) if made.is_refused => Err(Stop::from(why).at(new.place)),
        Err(why) => Err(Stop::from(why).at(log.place)),
    }
}

/// Opens the file of a log that is to be signed later, and locks nothing: others may append to it.
pub fn opened_to_sign(rt: &HostRuntime, path: &str) -> Result<FileDisk, Stop> {
    let mut how = OpenOptions::new();
    let file = how.read(true).write(true).open(rt, path)?;
    Ok(FileDisk::new(file))
}

/// Opens the file of a log that is to be signed, as `to_be_signed` does, and waits for so many seconds at most while another process
/// appends.
pub fn signed_when_free(rt: &HostRuntime, path: &str, seconds: usize) -> Result<FileDisk, Stop> {
    let patience = Patience::new(rt, seconds)?;
    for _turn in 0..usize::MAX {
        match to_be_signed(rt, path) {
            Err(Stop::Locked) => {
                if !patience.lasts(rt)? {
                    return Err(Stop::Locked);
                }
            }
            said => return said,
        }
    }
    Err(Stop::Locked)
}
