//! Tiles of a log that are written to a folder, and the checkpoint above them.

ghost use Rattle.std.specs.Prelude.{◌≡◌, ◌≤◌, ◌<◌, ◌^◌, All, ℕ, List, length, take, IfErr, OnOk};
ghost use Rattle.std.specs.List.{flat_map};
ghost use Rattle.log_file.specs.LogFile.{file_end};
ghost use Rattle.log_tiles.specs.Folders.{Files, IsNew, IsOldOrNew, KeepsCheckpoint, Passes};
ghost use Rattle.log_tiles.specs.Publications.{tile_bytes, AreUnwritten, IsNoOther, IsTileWritten};
ghost use Rattle.log_tiles.specs.Tiles.{rows_in};
ghost use Rattle.log_tiles.specs.declared.folder.FileName.{FileName};
ghost use Rattle.log_tiles.specs.declared.folder.FileName.TheVariants.{OfTile};

use crate::folder::{FileName, Folder};
use crate::tile::{FULL, Tile, read_tile};
use log_store::{Disk, Stop};

/// Why tiles were not written.
#[derive(Drop)]
pub enum Unwritten<R: Drop, W: Drop> {
    /// The call on the log stopped.
    Log(Stop<R>),
    /// The folder refused a call.
    Folder(W),
}

// The first digests of a buffer, as bytes.
fn bytes_in(digests: &[[u8; 32]; FULL], count: usize) -> &[u8]
    ensures { count ≤ 256 → result.now ≡ flat_map (λ digest. digest) (take count digests.now) }
{
    digests[..count.min(FULL)].as_flattened()
}

// Writes a tile of a log of this size, which has digests behind the head, to a folder.
fn write_tile<D: Disk, F: Folder>(
    disk: &D,
    size: usize,
    tile: Tile,
    folder: &mut F,
) -> Result<(), Unwritten<D::Refusal, F::Refusal>>
    requires fits { size < 2 ^ 63 }
    requires near { file_end size < 2 ^ 64 }
    ensures obeys { F.Obeys folder.new → F.Obeys folder.old }
    ensures written { D.Obeys disk.now → file_end size ≤ length (D.seen disk.now)
        → F.Obeys folder.new → OnOk result
        (IsTileWritten (rows_in size (D.seen disk.now)) (F.written folder.new) tile) }
    ensures others { D.Obeys disk.now → file_end size ≤ length (D.seen disk.now)
        → F.Obeys folder.new → (name : FileName) (bytes : List ℕ)
        → (name ≡ OfTile tile → bytes ≡ tile_bytes (rows_in size (D.seen disk.now)) tile)
        → F.written folder.old name bytes → F.written folder.new name bytes }
    ensures crash { F.Obeys folder.new → (left : Files) → F.may_leave folder.new left
        → KeepsCheckpoint (F.may_leave folder.old) left }
    ensures time { F.Obeys folder.new → Passes (F.moment folder.old) (F.moment folder.new)
        (F.left_since folder.old) (F.left_since folder.new)
        (KeepsCheckpoint (F.may_leave folder.old)) }
    ensures refused { IfErr result AreUnwritten }
{
    let mut digests = [[0; 32]; FULL];
    match read_tile(disk, size, tile, &mut digests) {
        Ok(()) => (),
        Err(stop) => return Err(Unwritten::Log(stop)),
    }
    match folder.write(FileName::OfTile(tile), bytes_in(&digests, tile.width)) {
        Ok(()) => Ok(()),
        Err(refusal) => Err(Unwritten::Folder(refusal)),
    }
}

/// Writes tiles of a log of this size, which has digests behind the head, to a folder. The folder's checkpoint stays.
///
/// Errors: `Index` for what is no tile of the log; the disk's refusal; the folder's.
pub fn write_each<D: Disk, F: Folder>(
    disk: &D,
    size: usize,
    tiles: &[Tile],
    folder: &mut F,
) -> Result<(), Unwritten<D::Refusal, F::Refusal>>
    requires fits { size < 2 ^ 63 }
    requires near { file_end size < 2 ^ 64 }
    ensures obeys { F.Obeys folder.new → F.Obeys folder.old }
    ensures written { D.Obeys disk.now → file_end size ≤ length (D.seen disk.now)
        → F.Obeys folder.new → OnOk result
        (All (IsTileWritten (rows_in size (D.seen disk.now)) (F.written folder.new)) tiles.now) }

    // What was written before is there as it was, but for these tiles.
    ensures others { D.Obeys disk.now → file_end size ≤ length (D.seen disk.now)
        → F.Obeys folder.new → (name : FileName) (bytes : List ℕ)
        → IsNoOther (rows_in size (D.seen disk.now)) tiles.now name bytes
        → F.written folder.old name bytes → F.written folder.new name bytes }
    ensures crash { F.Obeys folder.new → (left : Files) → F.may_leave folder.new left
        → KeepsCheckpoint (F.may_leave folder.old) left }
    ensures time { F.Obeys folder.new → Passes (F.moment folder.old) (F.moment folder.new)
        (F.left_since folder.old) (F.left_since folder.new)
        (KeepsCheckpoint (F.may_leave folder.old)) }
    ensures refused { IfErr result AreUnwritten }
{
    'tiles: for place in 0..tiles.len() {
        write_tile(disk, size, tiles[place], folder)?;
    }
    Ok(())
}

/// Puts the checkpoint of a folder in the place of the one that is there. All that was written before is on the disk when it is put
/// there, and it is on the disk once the call returned.
///
/// The error is the folder's refusal.
pub fn put_checkpoint<F: Folder>(folder: &mut F, note: &[u8]) -> Result<(), F::Refusal>
    ensures obeys { F.Obeys folder.new → F.Obeys folder.old }

    // A crash at any moment leaves the old checkpoint, or the new one with all that was written before.
    ensures any_moment { F.Obeys folder.new → (left : Files)
        → F.left_since folder.new (F.moment folder.old) left
        → IsOldOrNew note.now (F.written folder.old) (F.may_leave folder.old) left }
    ensures durable { F.Obeys folder.new → OnOk result ((left : Files)
        → F.may_leave folder.new left → IsNew note.now (F.written folder.old) left) }
{
    folder.sync()?;
    folder.write(FileName::Checkpoint, note)?;
    folder.sync()
}
