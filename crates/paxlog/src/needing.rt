//! Which tiles of a folder are missing, so that a follower moves on or an entry is proved.

ghost use Rattle.std.specs.Prelude.{◌<◌, ◌^◌};

use crate::folders::path_of_tile;
use crate::followers::{Published, Source, read_checkpoint, sized, stated_by_note};
use crate::reading::is_there;
use crate::stop::{Stop, StopAt, placed};
use crate::words::Name;
use log_file::fault::Fault;
use log_tiles::{FULL, Tile, tile_name, width_of};

/// How many levels the tree of the largest log has below its root.
const LEVELS: usize = 63;

// Whether tiles have the one at an index of a level.
fn have(tiles: &[Tile], level: usize, index: usize) -> bool {
    for tile in tiles {
        if tile.level == level && tile.index == index {
            return true;
        }
    }
    false
}

// Adds the tile of a log of this size that has the digests of a complete place.
fn add_tile_of(tiles: &mut Vec<Tile>, size: usize, level: usize, place: usize) -> Result<(), Stop>
    requires { size < 2 ^ 63 }
{
    let index = place.saturating_mul(1usize << (level % 8)) / FULL;
    let level = level / 8;
    let width = width_of(size, level, index);
    if width != 0 && !have(&*tiles, level, index) {
        tiles.push(Tile {
            level,
            index,
            width,
        })?;
    }
    Ok(())
}

// Adds the tiles of a log of this size that have the complete subtrees into which its first entries fall, so many.
fn add_peaks(tiles: &mut Vec<Tile>, size: usize, count: usize) -> Result<(), Stop>
    requires { size < 2 ^ 63 }
{
    for level in 0..LEVELS {
        let complete = count >> level;
        if complete % 2 == 1 {
            add_tile_of(tiles, size, level, complete.saturating_sub(1))?;
        }
    }
    Ok(())
}

// Adds the tiles of a log of this size that have the complete subtrees beside the way of an entry.
fn add_beside(tiles: &mut Vec<Tile>, size: usize, entry: usize) -> Result<(), Stop>
    requires { size < 2 ^ 63 }
{
    for level in 0..LEVELS {
        let place = entry >> level;
        let beside = if place % 2 == 1 {
            place.saturating_sub(1)
        } else {
            place.saturating_add(1)
        };
        if beside < size >> level {
            add_tile_of(tiles, size, level, beside)?;
        }
    }
    Ok(())
}

// Whether the file of a tile is there, or that of the full tile at its place.
fn has_tile(rt: &HostRuntime, folder: &str, tile: Tile) -> Result<bool, Stop> {
    for width in [tile.width, FULL] {
        let Ok(path) = path_of_tile(rt.alloc(), folder, Tile { width, ..tile }) else {
            return Err(Stop::Fault(Fault::Memory));
        };
        if is_there(rt, path.as_str(), width.saturating_mul(32))? {
            return Ok(true);
        }
    }
    Ok(false)
}

// The names of the tiles that a folder lacks, a line each.
fn missing_names(rt: &HostRuntime, folder: &str, tiles: &[Tile]) -> Result<Vec<u8>, Stop> {
    let mut names = Vec::new(rt.alloc());
    for tile in tiles {
        if !has_tile(rt, folder, *tile)? {
            names.extend_from_slice(&tile_name(rt.alloc(), *tile)?)?;
            names.push(b'\n')?;
        }
    }
    Ok(names)
}

/// Returns the names of the tiles that a folder lacks so that a state moves on to its checkpoint, a line each.
pub fn needed_to_follow(rt: &HostRuntime, from: &Source, state: Name) -> Result<Vec<u8>, StopAt> {
    let folder = from.folder;
    let Published { note: _, head } = placed(folder.place, read_checkpoint(rt, from))?;
    let size = match sized(&head) {
        Ok(size) => size,
        Err(why) => return Err(why.at(folder.place)),
    };
    let old = stated_by_note(rt, &from.policy, state.text, from.origin);
    let old = placed(state.place, old)?.size;
    let mut tiles = Vec::new(rt.alloc());
    add_peaks(&mut tiles, size, size)?;
    if 0 < old && old <= size {
        add_peaks(&mut tiles, size, old)?;
        add_beside(&mut tiles, size, old.saturating_sub(1))?;
    }
    placed(folder.place, missing_names(rt, folder.text, &tiles))
}

/// Returns the names of the tiles that a folder lacks so that an entry is proved, a line each.
pub fn needed_to_prove(rt: &HostRuntime, from: &Source, index: usize) -> Result<Vec<u8>, Stop> {
    let Published { note: _, head } = read_checkpoint(rt, from)?;
    let size = sized(&head)?;
    if index >= size {
        return Err(Stop::Fault(Fault::Index));
    }
    let mut tiles = Vec::new(rt.alloc());
    add_peaks(&mut tiles, size, size)?;
    add_tile_of(&mut tiles, size, 0, index)?;
    add_beside(&mut tiles, size, index)?;
    missing_names(rt, from.folder.text, &tiles)
}
