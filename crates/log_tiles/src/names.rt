//! The names of tiles below a log's address (C2SP tlog-tiles).

ghost use Rattle.std.specs.Prelude.{◌≡◌, ◌+◌, ◌<◌, ◌++◌, IfOk, OnOk};
ghost use Rattle.log_tiles.specs.Names.{bundle_name, group, index_path, three, tile_name, width_path};

use crate::tile::{FULL, Tile};
use std::alloc::{AllocError, Global};

// Writes three digits of a number.
fn push_three(n: usize, name: &mut Vec<u8>) -> Result<(), AllocError>
    requires { n < 1000 }
    ensures { OnOk result (name.new.items ≡ name.old.items ++ three n) }
{
    let digits = [
        (48 + n / 100) as u8,
        (48 + n / 10 % 10) as u8,
        (48 + n % 10) as u8,
    ];
    name.extend_from_slice(&digits)?;
    Ok(())
}

// Writes a group of three digits of an index.
fn push_group(n: usize, unit: usize, name: &mut Vec<u8>) -> Result<(), AllocError>
    requires { 0 < unit }
    ensures { OnOk result (name.new.items ≡ name.old.items ++ group n unit) }
{
    if n < unit {
        return Ok(());
    }
    name.push(b'x')?;
    push_three(n / unit % 1000, name)?;
    name.push(b'/')?;
    Ok(())
}

// Writes an index.
fn push_index(n: usize, name: &mut Vec<u8>) -> Result<(), AllocError>
    ensures { OnOk result (name.new.items ≡ name.old.items ++ index_path n) }
{
    push_group(n, 1_000_000_000_000_000_000, name)?;
    push_group(n, 1_000_000_000_000_000, name)?;
    push_group(n, 1_000_000_000_000, name)?;
    push_group(n, 1_000_000_000, name)?;
    push_group(n, 1_000_000, name)?;
    push_group(n, 1000, name)?;
    push_three(n % 1000, name)?;
    Ok(())
}

// Writes what stands behind an index: nothing, or `.p/` and a count.
fn push_width(alloc: Global, width: usize, name: &mut Vec<u8>) -> Result<(), AllocError>
    ensures { OnOk result (name.new.items ≡ name.old.items ++ width_path width) }
{
    if width == FULL {
        return Ok(());
    }
    name.extend_from_slice(format!(in alloc; ".p/{width}")?.as_bytes())?;
    Ok(())
}

/// Returns the name of the bundle of the entries of a tile of the lowest level. The error is a lack of memory.
pub fn bundle_name(alloc: Global, index: usize, width: usize) -> Result<Vec<u8>, AllocError>
    ensures { IfOk result (λ name. name.items ≡ bundle_name index width) }
{
    let mut name = Vec::new(alloc);
    name.extend_from_slice(b"tile/entries/")?;
    push_index(index, &mut name)?;
    push_width(alloc, width, &mut name)?;
    Ok(name)
}

/// Returns the name of a tile: `tile/`, the level, the index in groups of three digits and, of a tile of fewer than 256
/// digests, `.p/` and their count. The error is a lack of memory.
pub fn tile_name(alloc: Global, tile: Tile) -> Result<Vec<u8>, AllocError>
    ensures { IfOk result (λ name. name.items ≡ tile_name tile) }
{
    let level = tile.level;
    let mut name = Vec::new(alloc);
    name.extend_from_slice(format!(in alloc; "tile/{level}/")?.as_bytes())?;
    push_index(tile.index, &mut name)?;
    push_width(alloc, tile.width, &mut name)?;
    Ok(name)
}
