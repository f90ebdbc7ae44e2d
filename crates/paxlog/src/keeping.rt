//! Folders that keep the bytes of entries, in bundles.

ghost use Rattle.std.specs.Prelude.{◌≡◌, ◌≤◌, ◌<◌, ◌^◌};
ghost use Rattle.log_file.specs.LogFile.{file_end};

use crate::entries::{EntryReader, push_short};
use crate::file_disk::FileDisk;
use crate::folders::{FolderTiles, TileFault};
use crate::reading::{bytes_of_at_most, if_found, is_regular};
use crate::stop::Stop;
use crate::store::{folder_of, sync_folder_of};
use crate::writing::{sync_above, sync_way, write_whole};
use log_file::fault::Fault;
use log_tiles::{
    FULL, LONGEST, Tile, Tiles, bundle_name, first_entry, is_bundle, read_tile, width_of,
};
use std::alloc::Global;
use std::fs;

// The bytes of the longest bundle.
const LONGEST_BUNDLE: usize = FULL * (2 + LONGEST);

// What entries that are appended are called where they are not the log's.
const KIND: &str = "entries";

// The name of a bundle of entries below a folder.
fn bundle_path(alloc: Global, folder: &str, index: usize, width: usize) -> Result<String, Stop> {
    let name = bundle_name(alloc, index, width)?;
    match str::from_utf8(&name) {
        Ok(name) => Ok(format!(in alloc; "{folder}/{name}")?),
        Err(_) => Err(Stop::Fault(Fault::Memory)),
    }
}

// The digests of the tile of the lowest level at an index, in a log of this size.
fn digests_at(
    rt: &HostRuntime,
    folder: &str,
    size: usize,
    index: usize,
) -> Result<Vec<[u8; 32]>, Stop>
    requires { size < 2 ^ 63 }
{
    let width = width_of(size, 0, index);
    let tile = Tile {
        level: 0,
        index,
        width,
    };
    let mut digests = vec![in rt.alloc(); [0; 32]; width]?;
    match FolderTiles::new(rt, folder).read(tile, 0, &mut digests) {
        Ok(()) => Ok(digests),
        Err(TileFault::Memory) => Err(Stop::Fault(Fault::Memory)),
        Err(fault) => Err(Stop::Tile(fault)),
    }
}

// The bytes of the first entries of a bundle, so many; nothing where it has fewer.
fn first_entries_of(bundle: &[u8], count: usize) -> Option<&[u8]> {
    let mut rest = bundle;
    for _entry in 0..count {
        let Some((_entry, behind)) = first_entry(rest) else {
            return None;
        };
        rest = behind;
    }
    Some(&bundle[..bundle.len() - rest.len().min(bundle.len())])
}

// Returns the bundle of the entries that have these digests, the first ones of the tile at an index, as a folder keeps it: in the bundle
// of so many, or in that of the whole tile. The error is `Behind` where it keeps others, or none.
fn kept_front(
    rt: &HostRuntime,
    folder: &str,
    index: usize,
    digests: &[[u8; 32]],
) -> Result<Vec<u8>, Stop> {
    for width in [digests.len(), FULL] {
        let path = bundle_path(rt.alloc(), folder, index, width)?;
        if let Some(Some(bundle)) = if_found(bytes_of_at_most(rt, path.as_str(), LONGEST_BUNDLE))? {
            if let Some(front) = first_entries_of(&bundle, digests.len()) {
                if is_bundle(front, digests) {
                    return Ok(Vec::from_slice(rt.alloc(), front)?);
                }
            }
        }
    }
    Err(Stop::Behind)
}

/// A folder in which bundles are written, and its last one that was.
#[derive(Drop)]
struct Bundles<'a> {
    rt: &'a HostRuntime,
    folder: &'a str,
    // its name ends with a slash before there is one
    last: String,
}

impl<'a> Bundles<'a> {
    fn new(rt: &'a HostRuntime, folder: &'a str) -> Result<Bundles<'a>, Stop> {
        let last = format!(in rt.alloc(); "{folder}/")?;
        Ok(Bundles { rt, folder, last })
    }

    // Writes the bundle of entries of a kind that have these digests, where the folder has not these bytes. The error is `Entries`
    // where they have others.
    fn write(
        &mut self,
        index: usize,
        digests: &[[u8; 32]],
        bundle: &[u8],
        kind: &'static str,
    ) -> Result<(), Stop> {
        if !is_bundle(bundle, digests) {
            return Err(Stop::Entries(kind));
        }
        let path = bundle_path(self.rt.alloc(), self.folder, index, digests.len())?;
        match if_found(bytes_of_at_most(self.rt, path.as_str(), bundle.len()))? {
            Some(Some(kept)) if kept.as_slice() == bundle => (),
            _ => {
                fs::create_dir_all(self.rt, folder_of(path.as_str()))?;
                write_whole(self.rt, path.as_str(), bundle)?;
            }
        }
        // once for each folder
        if folder_of(path.as_str()) != folder_of(self.last.as_str()) {
            sync_way(self.rt, self.folder, self.last.as_str())?;
        }
        self.last = path;
        Ok(())
    }

    // The folder of the last one.
    fn at(&self) -> Result<String, Stop> {
        let at = folder_of(self.last.as_str());
        Ok(format!(in self.rt.alloc(); "{at}")?)
    }

    // Returns once what was written is on the disk, where the name of one folder is there.
    fn sync(&self, known: &str) -> Result<(), Stop> {
        if folder_of(self.last.as_str()) == known {
            return sync_folder_of(self.rt, self.last.as_str());
        }
        sync_way(self.rt, self.folder, self.last.as_str())
    }
}

// How many bundles of whole tiles a folder has, from the first one on, of those of a log of this size.
fn count_of_bundles(rt: &HostRuntime, folder: &str, size: usize) -> Result<usize, Stop> {
    for index in 0..size / FULL {
        let path = bundle_path(rt.alloc(), folder, index, FULL)?;
        if !is_regular(rt, path.as_str())? {
            return Ok(index);
        }
    }
    Ok(size / FULL)
}

// The index of the first entry that is kept next, and the bytes of those before it in its bundle. Where no index is named, it is that of
// the last bundle of a whole tile that the folder has, and the entries before it are left out. Where one is named, those before it have
// to be kept: the bundle before it is compared with its tile.
fn begins_at(
    rt: &HostRuntime,
    folder: &str,
    size: usize,
    from: Option<usize>,
    entries: &mut EntryReader<'_>,
) -> Result<(usize, Vec<u8>), Stop>
    requires { size < 2 ^ 63 }
{
    let none = Vec::new(rt.alloc());
    let Some(start) = from else {
        let count = count_of_bundles(rt, folder, size)?;
        let start = count.saturating_sub(1).saturating_mul(FULL);
        let mut entry = none;
        for _index in 0..start {
            if !entries.push_next(rt, &mut entry)? {
                return Err(Stop::Entries(entries.kind()));
            }
            entry.clear();
        }
        return Ok((start, entry));
    };
    if start == 0 {
        return Ok((start, none));
    }
    if start > size {
        return Err(Stop::Behind);
    }
    let last = start.saturating_sub(1);
    let digests = digests_at(rt, folder, size, last / FULL)?;
    let count = (last % FULL).saturating_add(1).min(digests.len());
    let bundle = kept_front(rt, folder, last / FULL, &digests[..count])?;
    if count == FULL {
        return Ok((start, none));
    }
    Ok((start, bundle))
}

/// Writes to a folder the bundles of entries of the log of this size: those that it lacks, and those that it has with other bytes. The
/// entries are those from an index on, where one is named; else all, of which those are left out that the folder keeps. Returns once
/// all are on the disk. Each entry has to have the digest that its tile has.
pub fn keep_entries(
    rt: &HostRuntime,
    folder: &str,
    size: usize,
    from: Option<usize>,
    entries: &mut EntryReader<'_>,
) -> Result<(), Stop>
    requires { size < 2 ^ 63 }
{
    let (start, before) = begins_at(rt, folder, size, from, entries)?;
    let mut bundle = before;
    let mut known = start % FULL;
    let mut bundles = Bundles::new(rt, folder)?;
    for index in start / FULL..size / FULL + 1 {
        let width = width_of(size, 0, index);
        if width != 0 {
            for _entry in known..width {
                if !entries.push_next(rt, &mut bundle)? {
                    return Err(Stop::Entries(entries.kind()));
                }
            }
            let digests = digests_at(rt, folder, size, index)?;
            bundles.write(index, &digests, &bundle, entries.kind())?;
            bundle.clear();
            known = 0;
        }
    }
    bundles.sync("")
}

/// Returns how many entries of the log of this size a folder keeps, from the first one on, by whole bundles; nothing where a bundle is
/// another than that of its tile.
pub fn kept_entries(rt: &HostRuntime, folder: &str, size: usize) -> Result<Option<usize>, Stop>
    requires { size < 2 ^ 63 }
{
    for index in 0..size / FULL + 1 {
        let width = width_of(size, 0, index);
        if width == 0 {
            return Ok(Some(size));
        }
        let path = bundle_path(rt.alloc(), folder, index, width)?;
        match if_found(bytes_of_at_most(rt, path.as_str(), LONGEST_BUNDLE))? {
            Some(Some(bundle)) => {
                if !is_bundle(&bundle, &digests_at(rt, folder, size, index)?) {
                    return Ok(None);
                }
            }
            Some(None) => return Ok(None),
            None => return Ok(Some(index.saturating_mul(FULL).min(size))),
        }
    }
    Ok(Some(size))
}

/// A folder that keeps the entries of a log as they are appended.
#[derive(Drop)]
pub struct EntryKeeper<'a> {
    rt: &'a HostRuntime,
    folder: &'a str,
    // the size up to which it kept entries, and those of the last bundle, where that is not of a whole tile
    kept: Option<usize>,
    last: Vec<u8>,
    // the folder of the bundle that was written last: its name is on the disk
    at: String,
}

impl<'a> EntryKeeper<'a> {
    pub fn new(rt: &'a HostRuntime, folder: &'a str) -> Result<EntryKeeper<'a>, Stop> {
        Ok(EntryKeeper {
            rt,
            folder,
            kept: None,
            last: Vec::new(rt.alloc()),
            at: format!(in rt.alloc(); "")?,
        })
    }

    // The digests of the last tile of the lowest level of a log of this size, of one entry at least, and its index.
    fn last_tile(&self, disk: &FileDisk, size: usize) -> Result<(usize, Vec<[u8; 32]>), Stop>
        requires fits { size < 2 ^ 63 }
        requires near { file_end size < 2 ^ 64 }
    {
        let index = size.saturating_sub(1) / FULL;
        let tile = Tile {
            level: 0,
            index,
            width: width_of(size, 0, index),
        };
        let mut digests = [[0; 32]; FULL];
        match read_tile(disk, size, tile, &mut digests) {
            Ok(()) => (),
            Err(stop) => return Err(Stop::from(stop)),
        }
        let known = &digests[..tile.width.min(FULL)];
        Ok((index, Vec::from_slice(self.rt.alloc(), known)?))
    }

    /// Keeps entries that are to be appended to the log of a disk, which has this size. Returns once they are on the disk. Those before
    /// have to be kept: unless it did so itself, it compares the last bundle with the log. The error is `Behind` where they are not.
    pub fn keep(
        &mut self,
        disk: &FileDisk,
        size: usize,
        digests: &[[u8; 32]],
        entries: &[u8],
    ) -> Result<(), Stop>
        requires fits { size < 2 ^ 63 }
        requires near { file_end size < 2 ^ 64 }
    {
        let mut hashed = Vec::new(self.rt.alloc());
        let mut bundle = Vec::new(self.rt.alloc());
        if size > 0 {
            let (index, known) = self.last_tile(disk, size)?;
            let last = if self.kept == Some(size) && !self.last.is_empty() {
                Vec::from_slice(self.rt.alloc(), &self.last)?
            } else if self.kept == Some(size) {
                Vec::new(self.rt.alloc())
            } else {
                kept_front(self.rt, self.folder, index, &known)?
            };
            if known.len() < FULL {
                hashed = known;
                bundle = last;
            }
        } else {
            fs::create_dir_all(self.rt, self.folder)?;
        }
        let is_begun = self.kept.is_some();
        self.kept = None;
        let mut bundles = Bundles::new(self.rt, self.folder)?;
        let mut index = size / FULL;
        let mut rest = entries;
        for digest in digests {
            let Some((entry, behind)) = first_entry(rest) else {
                return Err(Stop::Entries(KIND));
            };
            push_short(entry, &mut bundle)?;
            hashed.push(*digest)?;
            rest = behind;
            if hashed.len() == FULL {
                bundles.write(index, &hashed, &bundle, KIND)?;
                index = index.saturating_add(1);
                hashed.clear();
                bundle.clear();
            }
        }
        if !hashed.is_empty() {
            bundles.write(index, &hashed, &bundle, KIND)?;
        }
        bundles.sync(self.at.as_str())?;
        if !is_begun {
            sync_above(self.rt, self.folder)?;
        }
        self.at = bundles.at()?;
        self.last = bundle;
        self.kept = Some(size.saturating_add(digests.len()));
        Ok(())
    }
}
