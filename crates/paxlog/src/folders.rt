//! Folders of tiles: the files that a static server hands out.

ghost use Rattle.std.specs.Prelude.{[]};

use crate::reading::{Regular, open_regular};
use crate::stop::Stop;
use log_tiles::{FULL, Tile, Tiles, tile_name};
use std::alloc::Global;
use std::cell::RefCell;
use std::fs::File;
use std::io;
use std::os::unix::fs::FileExt;

/// The name of a checkpoint in its folder.
pub const CHECKPOINT: &str = "checkpoint";

/// Why a tile was not read.
#[derive(Drop)]
pub enum TileFault {
    /// A request for memory was refused.
    Memory,
    /// The system did not open or read its file.
    System { name: String, error: io::Error },
    /// Its file has another length.
    Length { name: String },
    /// Its file is no regular one.
    Kind { name: String },
}

// Why a tile was not read whose file was not opened.
fn of_open(name: String, why: Stop) -> TileFault {
    match why {
        Stop::System(error) => TileFault::System { name, error },
        Stop::Kind(name) => TileFault::Kind { name },
        _ => TileFault::Memory,
    }
}

/// The name of a tile below a folder.
pub fn path_of_tile(alloc: Global, folder: &str, tile: Tile) -> Result<String, TileFault> {
    let Ok(name) = tile_name(alloc, tile) else {
        return Err(TileFault::Memory);
    };
    let Ok(name) = str::from_utf8(&name) else {
        return Err(TileFault::Memory);
    };
    match format!(in alloc; "{folder}/{name}") {
        Ok(path) => Ok(path),
        Err(_) => Err(TileFault::Memory),
    }
}

/// The tiles of a log in a folder. Nothing is proved of it: that `read` does what `Tiles` says is trusted.
#[derive(Drop)]
pub struct FolderTiles<'a> {
    rt: &'a HostRuntime,
    folder: &'a str,
    // the file of which a single digest was read last: those of the tiles below it are read in turn
    last: RefCell<Option<TileFile>>,
}

// The open file of a tile, its name, and how many digests it has.
#[derive(Drop)]
struct TileFile {
    tile: Tile,
    opened: Regular,
    name: String,
    width: usize,
}

impl<'a> FolderTiles<'a> {
    pub fn new(rt: &'a HostRuntime, folder: &'a str) -> FolderTiles<'a> {
        FolderTiles {
            rt,
            folder,
            last: RefCell::new(None),
        }
    }

    // Opens the file of a tile; where there is none, that of the full tile at its place, which has its digests too.
    fn open(&self, tile: Tile) -> Result<TileFile, TileFault> {
        let alloc = self.rt.alloc();
        let name = path_of_tile(alloc, self.folder, tile)?;
        match open_regular(self.rt, name.as_str()) {
            Ok(opened) => Ok(TileFile {
                tile,
                opened,
                name,
                width: tile.width,
            }),
            Err(Stop::System(error))
                if error.kind() == io::ErrorKind::NotFound && tile.width != FULL => {
                let full = Tile {
                    width: FULL,
                    ..tile
                };
                let whole = path_of_tile(alloc, self.folder, full)?;
                match open_regular(self.rt, whole.as_str()) {
                    Ok(opened) => Ok(TileFile {
                        tile,
                        opened,
                        name: whole,
                        width: FULL,
                    }),
                    Err(Stop::Kind(name)) => Err(TileFault::Kind { name }),
                    Err(_) => Err(TileFault::System { name, error }),
                }
            }
            Err(why) => Err(of_open(name, why)),
        }
    }
}

// Reads digests of an open tile.
fn read_tile_digests(file: &File, from: usize, into: &mut [[u8; 32]]) -> io::Result<()> {
    let mut bytes = [0; 8192];
    let count = into.len().min(FULL);
    file.read_exact_at(&mut bytes[..32 * count], from.saturating_mul(32) as u64)?;
    for place in 0..count {
        into[place].copy_from_slice(&bytes[32 * place..32 * place + 32]);
    }
    Ok(())
}

// Reads digests of a tile, and returns its file.
fn read_from(file: TileFile, from: usize, into: &mut [[u8; 32]]) -> Result<TileFile, TileFault> {
    let TileFile {
        tile,
        opened,
        name,
        width,
    } = file;
    let is_inside = from.saturating_add(into.len()) <= tile.width.min(FULL);
    if opened.length != width.saturating_mul(32) || !is_inside {
        return Err(TileFault::Length { name });
    }
    match read_tile_digests(&opened.file, from, into) {
        Ok(()) => Ok(TileFile {
            tile,
            opened,
            name,
            width,
        }),
        Err(error) => Err(TileFault::System { name, error }),
    }
}

fn is_same_tile(one: Tile, other: Tile) -> bool {
    one.level == other.level && one.index == other.index && one.width == other.width
}

impl<'a> Tiles for FolderTiles<'a> {
    type Refusal = TileFault;

    ghost Obeys = { λ _. ⊥ };

    ghost has = { λ _ _. [] };

    fn read(&self, tile: Tile, from: usize, into: &mut [[u8; 32]]) -> Result<(), TileFault> {
        if into.len() != 1 {
            read_from(self.open(tile)?, from, into)?;
            return Ok(());
        }
        match self.last.try_borrow_mut() {
            Ok(mut last) => {
                let file = match last.take() {
                    Some(file) if is_same_tile(file.tile, tile) => file,
                    _ => self.open(tile)?,
                };
                *last = Some(read_from(file, from, into)?);
                Ok(())
            }
            Err(_) => Err(TileFault::Memory),
        }
    }
}
