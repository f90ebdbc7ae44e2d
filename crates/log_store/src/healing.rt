//! A log's file of which the sector of one slot is lost, and that sector written again.

ghost use Rattle.std.specs.Prelude.{◌≡◌, ◌⊎◌, ◌≤◌, ◌&&◌, ℕ, List, true, length, take, drop, IfOk, OnOk};
ghost use Rattle.std.specs.Str.{bytes_eq};
ghost use Rattle.ark_paths.specs.Pair.{Digest};
ghost use Rattle.log_store.specs.Disk.{LeavesOnly};
ghost use Rattle.log_store.specs.Healing.{AreAlike, IsDurableApart, IsNotOlder, IsReadAs, IsReadIn, KeepsIn};
ghost use Rattle.log_store.specs.Refused.{IsRefusedFor};
ghost use Rattle.log_store.specs.Sectors.{laid, sector_title, IsSpread};
ghost use Rattle.log_store.specs.Store.{IsSettled};
ghost use Rattle.log_store.specs.declared.sectors.Layout.TheVariants.{Apart, Dense};
ghost use Rattle.log_file.specs.Faults.{log_size};
ghost use Rattle.log_file.specs.LogFile.{IsLogFile};

use crate::disk::Disk;
use crate::log::read_log;
use crate::new_log::sector_of;
use crate::opening::sector_start;
use crate::sectors::{
    Layout, SECTOR, SectorDisk, SectorRefusal, holds_sectors, is_dense, is_titled,
};
use crate::steps::write_durably;
use crate::stop::Stop;
use log_file::head::next_slot;

// Whether two sectors begin alike, with their title.
fn is_pair(first: &[u8; 64], second: &[u8; 64]) -> bool
    ensures { result ≡ (bytes_eq (take 32 first.now) sector_title
        && bytes_eq first.now second.now) }
{
    is_titled(first) && first == second
}

// Whether both sectors have their title, and the same slot.
fn are_alike<D: Disk>(disk: &D) -> Result<bool, D::Refusal>
    ensures { D.Obeys disk.now → 8192 ≤ length (D.seen disk.now)
        → IfOk result (λ alike. alike ≡ true → AreAlike (D.seen disk.now)) }
{
    let first = sector_start(disk, 0)?;
    let second = sector_start(disk, SECTOR)?;
    Ok(is_pair(&first, &second))
}

// Writes the sectors of a slot that one of them has: the other one, and syncs; the second one again if that was the first.
fn write_sectors<D: Disk>(
    disk: &mut D,
    slot: &[u8; 32],
    is_in_first: bool,
) -> Result<(), D::Refusal>
    ensures obeys { D.Obeys disk.new → D.Obeys disk.old }
    ensures settled { D.Obeys disk.new → (leaves : List Digest)
        → KeepsIn slot.now is_in_first leaves (D.seen disk.old)
        → OnOk result (IsSettled leaves (laid Apart (D.seen disk.new))) }
    ensures title { D.Obeys disk.new → 8192 ≤ length (D.seen disk.old)
        → OnOk result (take 32 (drop 4096 (D.seen disk.new)) ≡ sector_title) }
    ensures any_moment { D.Obeys disk.new → (leaves : List Digest)
        → KeepsIn slot.now is_in_first leaves (D.seen disk.old)
        → ((left : List ℕ) → D.may_leave disk.old left → KeepsIn slot.now is_in_first leaves left)
        → LeavesOnly D.moment D.left_since disk.old disk.new (IsReadAs leaves) }
{
    let sector = sector_of(slot);
    if is_in_first {
        return write_durably(disk, SECTOR, &sector);
    }
    write_durably(disk, 0, &sector)?;
    write_durably(disk, SECTOR, &sector)
}

// The slot that a log uses, and whether the first sector has it.
#[derive(Clone, Copy)]
struct Used {
    slot: [u8; 32],
    is_in_first: bool,
}

// Whether each slot has a sector of its own, and both are read.
fn is_apart(layout: Layout) -> bool
    ensures { result ≡ true → layout ≡ Apart }
{
    match layout {
        Layout::Dense => false,
        Layout::Apart => true,
        Layout::FirstAlone => false,
        Layout::SecondAlone => false,
    }
}

// Whether no sector is lost.
fn is_whole<D: Disk + Drop>(own: &SectorDisk<D>) -> bool
    ensures lies { result ≡ true → own.now.layout ≡ Apart }
    ensures alike { D.Obeys own.now.disk → 8192 ≤ length (D.seen own.now.disk)
        → result ≡ true → AreAlike (D.seen own.now.disk) }
{
    if !is_apart(own.layout) {
        return false;
    }
    match are_alike(&own.disk) {
        Ok(alike) => alike,
        Err(_) => false,
    }
}

// Whether the sector of a slot is read.
fn is_read_in(layout: Layout, is_in_first: bool) -> bool
    ensures { result ≡ true → IsReadIn layout is_in_first }
{
    match layout {
        Layout::Dense => true,
        Layout::Apart => true,
        Layout::FirstAlone => is_in_first,
        Layout::SecondAlone => !is_in_first,
    }
}

// The slot that the log of a file with sectors uses. Errors: those of `read_log`; `Place` for one whose sector is not read.
fn slot_in_use<D: Disk + Drop>(own: &SectorDisk<D>) -> Result<Used, Stop<SectorRefusal<D::Refusal>>>
    ensures kept { D.Obeys own.now.disk → (leaves : List Digest) → IsSpread own.now.layout
        → 8192 ≤ length (D.seen own.now.disk) → IsNotOlder (D.seen own.now.disk)
        → IsLogFile leaves (laid own.now.layout (D.seen own.now.disk)) → IfOk result (λ used.
        KeepsIn used.slot used.is_in_first leaves (D.seen own.now.disk)) }
    ensures refused { let file = laid own.now.layout (D.seen own.now.disk) in
        D.Obeys own.now.disk → IsRefusedFor file (log_size file) result }
{
    let log = read_log(own)?;
    let is_in_first = log.is_second_free;
    if !is_read_in(own.layout, is_in_first) {
        return Err(Stop::Disk(SectorRefusal::Place));
    }
    let mut slot = [0; 32];
    match own.read_at(next_slot(!is_in_first), &mut slot) {
        Ok(()) => Ok(Used { slot, is_in_first }),
        Err(refusal) => Err(Stop::Disk(refusal)),
    }
}

/// Writes the sector of a slot again that is lost, of a file whose slots lie in different sectors: one that is not read, or has not its
/// title, or not the slot of the log. It writes the sector whole, and syncs, before it writes the one of the slot that has the
/// log, so that at every moment one of them has it. Afterwards both have their titles and the log's slot. An older file stays as it is.
///
/// Errors: those of `read_log`, after which nothing was written; the disk's refusal.
pub fn heal<D: Disk + Drop>(own: &mut SectorDisk<D>) -> Result<(), Stop<SectorRefusal<D::Refusal>>>
    ensures obeys { D.Obeys own.new.disk → D.Obeys own.old.disk }
    ensures older { own.old.layout ≡ Dense → own.new ≡ own.old }
    ensures refused { let file = laid own.old.layout (D.seen own.old.disk) in
        D.Obeys own.new.disk → IsRefusedFor file (log_size file) result }

    // The log that was read of one sector is that of both, and stays it if one of them is lost.
    ensures healed { D.Obeys own.new.disk → (leaves : List Digest) → IsSpread own.old.layout
        → IsNotOlder (D.seen own.old.disk)
        → IsLogFile leaves (laid own.old.layout (D.seen own.old.disk))
        → OnOk result (IsSettled leaves (laid Apart (D.seen own.new.disk))) }
    ensures lies { IsSpread own.old.layout → OnOk result (own.new.layout ≡ Apart) }
    ensures title { D.Obeys own.new.disk → IsSpread own.old.layout
        → OnOk result (take 32 (drop 4096 (D.seen own.new.disk)) ≡ sector_title) }

    // A crash at any moment leaves what it might have left before, or a file that is read as the log.
    ensures any_moment { D.Obeys own.new.disk → (leaves : List Digest) → IsSpread own.old.layout
        → IsNotOlder (D.seen own.old.disk)
        → IsLogFile leaves (laid own.old.layout (D.seen own.old.disk))
        → IsDurableApart (length leaves) (D.seen own.old.disk) (D.may_leave own.old.disk)
        → LeavesOnly D.moment D.left_since own.old.disk own.new.disk
        (λ left. D.may_leave own.old.disk left ⊎ IsReadAs leaves left) }
{
    if is_dense(own.layout) {
        return Ok(());
    }
    if let Err(why) = holds_sectors(&own.disk, Layout::Apart) {
        return Err(Stop::Disk(why));
    }
    if is_whole(own) {
        return Ok(());
    }
    let used = slot_in_use(own)?;
    match write_sectors(&mut own.disk, &used.slot, used.is_in_first) {
        Ok(()) => {
            own.layout = Layout::Apart;
            Ok(())
        }
        Err(refusal) => Err(Stop::Disk(SectorRefusal::Disk(refusal))),
    }
}
