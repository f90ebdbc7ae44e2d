//! Logs that are written to folders of tiles, and the checkpoints above them.

ghost use Rattle.std.specs.Prelude.{◌≡◌, ◌≤◌, ◌<◌, ◌^◌, IfOk};
ghost use Rattle.log_file.specs.LogFile.{file_end};

use crate::checkpoints::{note_of, signed_by};
use crate::cosigning::note_that_stays;
use crate::file_disk::FileDisk;
use crate::followers::{checkpoint_name, log_in_folder, nothing, stated_by_signer};
use crate::published_folder::PublishedFolder;
use crate::reading::key_file_bytes;
use crate::stop::{Stop, StopAt, placed};
use crate::store::{opened_to_sign, root_of_first, signed_when_free};
use crate::words::Name;
use crate::writing::locked_folder;
use log_file::fault::Fault;
use log_tiles::{
    FULL, FileName, Folder, Head, Tile, Unfollowed, Unwritten, continues, new_tiles,
    put_checkpoint, row_length, width_of, write_each,
};
use signed_notes::Signer;
use std::fs;

/// How many levels of tiles the largest log has.
const LEVELS: usize = 8;

/// How often tiles are written at most while others may append.
const ROUNDS: usize = 16;

/// How many entries are few, so that nobody appends while their tiles are written.
const FEW: usize = 1024;

/// For how many seconds a signature is put off at most while another process appends.
const PATIENCE: usize = 10;

// Returns the tiles of a level that logs of the old size and of this one have, and the folder lacks. The length alone is looked at.
fn missing_tiles(
    rt: &HostRuntime,
    old_size: usize,
    size: usize,
    level: usize,
    folder: &mut PublishedFolder<'_>,
) -> Result<Vec<Tile>, Stop>
    requires level { level < 8 }
    requires fits { size < 2 ^ 63 }
    requires old_fits { old_size < 2 ^ 63 }
{
    let mut tiles = Vec::new(rt.alloc());
    for index in 0..row_length(level, old_size) / FULL + 1 {
        let width = width_of(size, level, index);
        if width != 0 && width == width_of(old_size, level, index) {
            let tile = Tile {
                level,
                index,
                width,
            };
            if !folder.find(FileName::OfTile(tile), width.saturating_mul(32))? {
                tiles.push(tile)?;
            }
        }
    }
    Ok(tiles)
}

// Writes tiles of the log of a disk to a folder.
fn write_all_of(
    disk: &FileDisk,
    size: usize,
    tiles: &[Tile],
    folder: &mut PublishedFolder<'_>,
) -> Result<(), Stop>
    requires fits { size < 2 ^ 63 }
    requires near { file_end size < 2 ^ 64 }
{
    match write_each(disk, size, tiles, folder) {
        Ok(()) => Ok(()),
        Err(Unwritten::Log(stop)) => Err(Stop::from(stop)),
        Err(Unwritten::Folder(why)) => Err(why),
    }
}

// Writes to a folder the tiles of a log of this size that a log of the old size has not, and those that the folder lacks, unless it is
// known to lack none of the old ones. Returns them once they are on the disk.
fn write_tiles(
    rt: &HostRuntime,
    disk: &FileDisk,
    old_size: usize,
    size: usize,
    folder: &mut PublishedFolder<'_>,
    lacks_none: bool,
) -> Result<Vec<Tile>, Stop>
    requires grown { old_size ≤ size }
    requires fits { size < 2 ^ 63 }
    requires near { file_end size < 2 ^ 64 }
{
    let mut written = Vec::new(rt.alloc());
    for level in 0..LEVELS {
        if !lacks_none {
            let missing = missing_tiles(rt, old_size, size, level, folder)?;
            write_all_of(disk, size, &missing, folder)?;
            for tile in missing {
                written.push(tile)?;
            }
        }
        let new = new_tiles(rt.alloc(), old_size, size, level)?;
        write_all_of(disk, size, &new, folder)?;
        for tile in new {
            written.push(tile)?;
        }
    }
    folder.sync()?;
    Ok(written)
}

// Returns whether tiles that were written to a folder are those of a log with its root: the digests at the right edge lead to the root,
// and the root of each full tile is the digest above it. Those that were not written led to the root of the last checkpoint, or an
// audit tells.
fn lead_to_root(
    rt: &HostRuntime,
    folder: &str,
    head: &Head,
    written: &[Tile],
) -> Result<bool, Stop> {
    let disk = log_in_folder(rt, folder, head)?;
    match continues(rt.alloc(), &disk, &nothing(), head) {
        Ok(()) => (),
        Err(Unfollowed::Stopped(log_store::Stop::Fault(Fault::Damaged))) => return Ok(false),
        Err(stop) => return Err(Stop::from(stop)),
    }
    for tile in written {
        if tile.width == FULL && tile.level < LEVELS - 1 {
            match disk.is_below_its_root(tile.level, tile.index) {
                Ok(true) => (),
                Ok(false) => return Ok(false),
                Err(fault) => return Err(Stop::from(fault)),
            }
        }
    }
    Ok(true)
}

// Refuses a log that does not continue the one of a folder's checkpoint, which has no more entries.
fn continues_old(rt: &HostRuntime, disk: &FileDisk, old: &Head) -> Result<(), Stop> {
    if old.size > 0 && root_of_first(rt, disk, old.size)? != old.root {
        return Err(Stop::Fork);
    }
    Ok(())
}

/// Returns the size and the root of the log of a disk.
pub fn stated_head(disk: &FileDisk) -> Result<Head, Stop>
    ensures fits { IfOk result (λ head. head.size < 2 ^ 63) }
    ensures near { IfOk result (λ head. file_end head.size < 2 ^ 64) }
{
    let (size, root) = match log_store::root(disk, None) {
        Ok(root) => root,
        Err(stop) => return Err(Stop::from(stop)),
    };
    Ok(Head { size, root })
}

// Writes to a folder the tiles of the log of a disk, which continues the old one. Returns its head once they are on the disk and lead to
// its root.
fn write_on(
    rt: &HostRuntime,
    disk: &FileDisk,
    old: &Head,
    lacks_none: bool,
    log: Name,
    folder: Name,
    into: &mut PublishedFolder<'_>,
) -> Result<Head, StopAt> {
    let head = match stated_head(disk) {
        Ok(head) => head,
        Err(why) => return Err(why.at(log.place)),
    };
    if old.size > head.size {
        return Err(Stop::Shrunk.at(log.place));
    }
    placed(log.place, continues_old(rt, disk, old))?;
    let written = write_tiles(rt, disk, old.size, head.size, into, lacks_none);
    let written = placed(folder.place, written)?;
    if !placed(folder.place, lead_to_root(rt, folder.text, &head, &written))? {
        return Err(Stop::Fault(Fault::Damaged).at(log.place));
    }
    Ok(head)
}

// Writes to a folder the tiles of the log of a file while others may append to it: what a size has below it stays as it is. Each time
// what was appended meanwhile is written, until that is little. Returns the head whose tiles are all there.
fn write_meanwhile(
    rt: &HostRuntime,
    old: Head,
    log: Name,
    folder: Name,
    into: &mut PublishedFolder<'_>,
) -> Result<Head, StopAt> {
    let mut head = old;
    for round in 0..ROUNDS {
        let disk = placed(log.place, opened_to_sign(rt, log.text))?;
        let new = write_on(rt, &disk, &head, round > 0, log, folder, into)?;
        let count = new.size.saturating_sub(head.size);
        head = new;
        if count <= FEW {
            return Ok(head);
        }
    }
    Ok(head)
}

// Signs the log of a file, to which nobody appends meanwhile. What was appended behind the tiles that are there is written before.
fn sign_all(
    rt: &HostRuntime,
    written: &Head,
    signer: &Signer,
    origin: Option<&str>,
    log: Name,
    folder: Name,
    into: &mut PublishedFolder<'_>,
) -> Result<(Head, Vec<u8>), StopAt> {
    let mut disk = placed(log.place, signed_when_free(rt, log.text, PATIENCE))?;
    let head = write_on(rt, &disk, written, true, log, folder, into)?;
    let note = placed(log.place, note_of(rt, &mut disk, signer, origin))?;
    Ok((head, note))
}

/// Writes the tiles of the log of a file to a folder, those that it lacks, and then its signed checkpoint. Returns what that
/// states. Others may append to the log meanwhile, but for the signature.
///
/// The folder's checkpoint, if it has one, is one of the same log and key. A kill at any moment leaves it, or the new one with all
/// its tiles. Nothing is signed unless what was written leads to the root.
pub fn publish(
    rt: &HostRuntime,
    log: Name,
    folder: Name,
    key_file: Name,
    origin: Option<&str>,
) -> Result<Head, StopAt> {
    let text = key_file_bytes(rt, key_file)?;
    let signer = placed(key_file.place, signed_by(rt.alloc(), &text))?;
    // a file that is no log is told before the folder is made
    let disk = placed(log.place, opened_to_sign(rt, log.text))?;
    placed(log.place, stated_head(&disk))?;
    if let Err(error) = fs::create_dir_all(rt, folder.text) {
        return Err(Stop::from(error).at(folder.place));
    }
    // what the checkpoint says is read once no other process writes another
    let _lock = placed(folder.place, locked_folder(rt, folder.text))?;
    let checkpoint = checkpoint_name(rt, folder.text)?;
    let stated = stated_by_signer(rt, &signer, checkpoint.as_str(), origin);
    let old = placed(folder.place, stated)?;
    let mut into = PublishedFolder::new(rt, folder.text);
    let written = write_meanwhile(rt, old, log, folder, &mut into)?;
    let (head, new) = sign_all(rt, &written, &signer, origin, log, folder, &mut into)?;
    let note = placed(folder.place, note_that_stays(rt, checkpoint.as_str(), new))?;
    placed(folder.place, put_checkpoint(&mut into, &note))?;
    Ok(head)
}
