//! Which tiles a log gains when it grows.

ghost use Rattle.std.specs.Prelude.{◌≡◌, ◌≤◌, ◌<◌, ◌^◌, All, Contains, IfOk};
ghost use Rattle.log_tiles.specs.Tiles.{row_length, IsNewTile};

use crate::tile::{FULL, Tile};
use std::alloc::{AllocError, Global};

/// Returns how many digests a level of tiles has in a log of this size.
pub fn row_length(level: usize, size: usize) -> usize
    requires { level < 8 }
    ensures { result ≡ row_length level size }
{
    size >> (8 * level)
}

/// Returns the tiles of a level that a log of the new size has and one of the old size has not, from left to right. The error
/// is a lack of memory.
pub fn new_tiles(
    alloc: Global,
    old_size: usize,
    size: usize,
    level: usize,
) -> Result<Vec<Tile>, AllocError>
    requires level { level < 8 }
    requires grown { old_size ≤ size }
    requires fits { size < 2 ^ 63 }
    ensures new { IfOk result (λ tiles. All (IsNewTile old_size size level) tiles.items) }
    ensures all { IfOk result (λ tiles. (tile : Tile) → IsNewTile old_size size level tile
        → Contains tiles.items tile) }
{
    let mut tiles = Vec::new(alloc);
    let old = row_length(level, old_size);
    let count = row_length(level, size);
    let first = old / FULL;
    let end = if old < count {
        (count - 1) / FULL + 1
    } else {
        first
    };
    'tiles: for index in first..end {
        let width = FULL.min(count - index * FULL);
        tiles.push(Tile {
            level,
            index,
            width,
        })?;
    }
    Ok(tiles)
}
