//! How a log's file lies on its disk, as its first two sectors say.

ghost use Rattle.std.specs.Prelude.{◌≡◌, ◌⊎◌, ◌≤◌, ◌<◌, ◌+◌, ℕ, List, nat_lt, length, take, if◌then◌else◌, IfOk};
ghost use Rattle.ark_paths.specs.Pair.{Digest};
ghost use Rattle.log_store.specs.Sectors.{is_sector, is_whole, laid, layout_by, layout_in, part_at, sector_title, HasSecond};
ghost use Rattle.log_store.specs.Store.{IsSettled, SaysLarger};
ghost use Rattle.log_store.specs.declared.sectors.Layout.TheVariants.{Apart, Dense, FirstAlone, SecondAlone};
ghost use Rattle.log_file.specs.LogFile.{title, IsLogFile};

use crate::disk::Disk;
use crate::sectors::{DIGESTS, Layout, SECTOR, is_titled, slot_behind_title};
use log_file::head::{front_of, has_title};

// Whether a slot is whole.
fn is_whole(slot: &[u8; 32]) -> bool
    ensures { result ≡ is_whole slot.now }
{
    let mut word = [0; 8];
    word.copy_from_slice(&slot[..8]);
    let mut front = [0; 20];
    front.copy_from_slice(&slot[..20]);
    front == front_of(usize::from_le_bytes(word))
}

// Whether a sector that begins so is that of a slot: it has its title, or a slot behind it that is whole.
fn is_sector(start: &[u8; 64]) -> bool
    ensures { result ≡ is_sector start.now }
{
    is_titled(start) || is_whole(&slot_behind_title(start))
}

// How a file lies whose first two sectors begin so.
fn layout_by(first: &[u8; 64], second: &[u8; 64]) -> Layout
    ensures { result ≡ layout_by first.now second.now }
{
    if is_titled(first) {
        return Layout::Apart;
    }
    if has_title(first) {
        return Layout::Dense;
    }
    if is_sector(second) {
        Layout::SecondAlone
    } else {
        Layout::Dense
    }
}

/// Returns how a log's file of so many bytes lies whose first two sectors, 4,096 bytes each, begin with these 64 bytes. Zeros stand for
/// bytes behind its end; of a file of fewer than 8,192 bytes no byte matters.
pub fn layout_of_parts(count: usize, first: &[u8; 64], second: &[u8; 64]) -> Layout
    ensures parts { result
        ≡ (if nat_lt count 8192 then Dense else layout_by first.now second.now) }

    // It is the one that the file's bytes say.
    ensures file { (file : List ℕ) → count ≡ length file → first.now ≡ part_at 0 64 file
        → second.now ≡ part_at 4096 64 file → result ≡ layout_in file }
{
    if count < DIGESTS {
        Layout::Dense
    } else {
        layout_by(first, second)
    }
}

// How a file lies whose first sector begins so, and whose second one is not read.
fn layout_by_first(first: &[u8; 64]) -> Layout
    ensures titled { take 32 first.now ≡ sector_title → result ≡ FirstAlone }
    ensures older { take 32 first.now ≡ title → result ≡ Dense }
{
    if is_titled(first) {
        Layout::FirstAlone
    } else {
        Layout::Dense
    }
}

/// Returns how a sector of a file begins.
pub fn sector_start<D: Disk>(disk: &D, place: usize) -> Result<[u8; 64], D::Refusal>
    ensures { D.Obeys disk.now → place + 64 ≤ length (D.seen disk.now)
        → IfOk result (λ start. start ≡ part_at place 64 (D.seen disk.now)) }
{
    let mut start = [0; 64];
    disk.read_at(place, &mut start)?;
    Ok(start)
}

/// Returns how a log's file lies on its disk: as its bytes say (`layout_of_parts`). A sector whose read is refused counts as lost,
/// where the other one is there: it has its title, or, of the second slot, a slot that is whole.
///
/// The error is the disk's refusal.
pub fn layout_of<D: Disk>(disk: &D) -> Result<Layout, D::Refusal>
    // Of a file with sectors that a crash left settled it is the same log, whichever one of them is read.
    ensures lost { D.Obeys disk.now → (leaves : List Digest) → 8192 ≤ length (D.seen disk.now)
        → IsSettled leaves (laid Apart (D.seen disk.now))
        → IfOk result (λ layout. let file = laid layout (D.seen disk.now) in
        IsLogFile leaves file ⊎ SaysLarger (length leaves) (length leaves) file) }

    // An older file is the log's file itself, unless its first sector is not read and a digest passes for a second one.
    ensures dense { D.Obeys disk.now → take 32 (D.seen disk.now) ≡ title
        → IfOk result (λ layout. (layout ≡ Dense)
        ⊎ ((layout ≡ SecondAlone) × HasSecond (D.seen disk.now))) }
    ensures short { D.Obeys disk.now → length (D.seen disk.now) < 8192
        → IfOk result (λ layout. layout ≡ Dense) }
{
    let count = disk.length()?;
    if count < DIGESTS {
        return Ok(Layout::Dense);
    }
    match sector_start(disk, 0) {
        Ok(first) => match sector_start(disk, SECTOR) {
            Ok(second) => Ok(layout_of_parts(count, &first, &second)),
            Err(_) => Ok(layout_by_first(&first)),
        },
        Err(refusal) => match sector_start(disk, SECTOR) {
            Ok(second) if is_sector(&second) => Ok(Layout::SecondAlone),
            _ => Err(refusal),
        },
    }
}
