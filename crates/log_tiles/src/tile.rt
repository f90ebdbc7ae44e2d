//! Tiles: which a log has, and their digests.

ghost use Rattle.std.specs.Prelude.{◌≡◌, ◌≢◌, ◌≤◌, ◌<◌, ◌+◌, ◌^◌, ◌++◌, ◌∷◌, [], length, take, get_or, IfOk, OnOk, Err};
ghost use Rattle.log_tiles.specs.Tiles.{rows_in, tile_in, width_in, IsTileOf, IsUntiled};
ghost use Rattle.merkle_log.specs.Walk.{index_up};
ghost use Rattle.log_file.specs.LogFile.{file_end};
ghost use Rattle.log_store.specs.Sound.{IsAhead};

use crate::growth::row_length;
use log_file::fault::Fault;
use log_store::{Ahead, Disk, Stop, digest_in, look_at, none_ahead};
use merkle_log::kept::{position_of, stored_count};

/// How many digests a full tile has.
pub const FULL: usize = 256;

/// A tile: some digests of a level of a log's tree, of which every eighth is a level of tiles.
#[derive(Clone, Copy)]
pub struct Tile {
    /// The level of tiles: its digests are those of 256^level entries each.
    pub level: usize,
    /// Which tile of its level it is: the digests from 256 times the index on.
    pub index: usize,
    /// How many digests it has: 256, or fewer at the right edge.
    pub width: usize,
}

/// Returns how many digests the tile at an index has in a log of this size; 0 where the log has no such tile.
pub fn width_of(size: usize, level: usize, index: usize) -> usize
    requires { size < 2 ^ 63 }
    ensures { result ≡ width_in size level index }
{
    if level >= 8 {
        return 0;
    }
    let count = row_length(level, size);
    if index >= count / FULL + 1 {
        return 0;
    }
    FULL.min(count - (index * FULL).min(count))
}

// Reads the digest of a complete place of a log of this size, which has digests behind the head, unless it was read ahead.
fn read_place<D: Disk>(
    ahead: &mut Ahead,
    disk: &D,
    size: usize,
    level: usize,
    place: usize,
) -> Result<[u8; 32], D::Refusal>
    requires inside { place < index_up level size }
    requires fits { size < 2 ^ 63 }
    requires near { file_end size < 2 ^ 64 }
    requires count { ahead.old.count ≤ 512 }
    ensures count { IfOk result (λ digest. ahead.new.count ≤ 512) }
    ensures ahead { D.Obeys disk.now → file_end size ≤ length (D.seen disk.now)
        → IsAhead ahead.old.start ahead.old.count ahead.old.bytes (D.seen disk.now) → IfOk result
        (λ digest. IsAhead ahead.new.start ahead.new.count ahead.new.bytes (D.seen disk.now)) }
    ensures digest { D.Obeys disk.now → file_end size ≤ length (D.seen disk.now)
        → IsAhead ahead.old.start ahead.old.count ahead.old.bytes (D.seen disk.now) → IfOk result
        (λ digest. digest ≡ get_or (rows_in size (D.seen disk.now) level) place []) }
{
    let position = position_of(level, place);
    look_at(ahead, disk, position, stored_count(size))?;
    let digest = digest_in(ahead, disk, position)?;
    Ok(digest)
}

// Writes a digest to a place.
fn put(into: &mut [[u8; 32]; FULL], place: usize, digest: [u8; 32])
    requires { place < 256 }
    ensures { take (place + 1) into.new ≡ take place into.old ++ digest ∷ [] }
{
    into[place] = digest;
}

// Reads the digests of a tile of a log of this size, which has digests behind the head.
fn read_places<D: Disk>(
    disk: &D,
    size: usize,
    tile: Tile,
    into: &mut [[u8; 32]; FULL],
) -> Result<(), D::Refusal>
    requires tile { IsTileOf size tile }
    requires fits { size < 2 ^ 63 }
    requires near { file_end size < 2 ^ 64 }
    ensures { D.Obeys disk.now → file_end size ≤ length (D.seen disk.now) → OnOk result
        (take tile.width into.new ≡ tile_in (rows_in size (D.seen disk.now)) tile) }
{
    let mut ahead = none_ahead();
    'places: for place in 0..tile.width {
        let digest = read_place(
            &mut ahead,
            disk,
            size,
            8 * tile.level,
            FULL * tile.index + place,
        )?;
        put(into, place, digest);
    }
    Ok(())
}

/// Reads the digests of a tile to the front of a buffer, of a log of this size, which has digests behind the head.
///
/// Errors: `Index` for no tile of the log; the disk's refusal.
pub fn read_tile<D: Disk>(
    disk: &D,
    size: usize,
    tile: Tile,
    into: &mut [[u8; 32]; FULL],
) -> Result<(), Stop<D::Refusal>>
    requires fits { size < 2 ^ 63 }
    requires near { file_end size < 2 ^ 64 }
    ensures tile { D.Obeys disk.now → file_end size ≤ length (D.seen disk.now) → OnOk result
        (take tile.width into.new ≡ tile_in (rows_in size (D.seen disk.now)) tile) }
    ensures refused { OnOk result (IsTileOf size tile) }
    ensures index { IsTileOf size tile → result ≢ Err (Stop.Fault Fault.Index) }
    ensures named { IsUntiled result }
{
    if tile.width == 0 || tile.width != width_of(size, tile.level, tile.index) {
        return Err(Stop::Fault(Fault::Index));
    }
    match read_places(disk, size, tile, into) {
        Ok(()) => Ok(()),
        Err(refusal) => Err(Stop::Disk(refusal)),
    }
}
