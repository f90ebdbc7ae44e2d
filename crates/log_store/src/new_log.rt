//! The two sectors of a new log's file.

ghost use Rattle.std.specs.Prelude.{◌≡◌, ◌⊎◌, ◌≤◌, ◌↔◌, ◌++◌, ℕ, List, [], length, true, false, IfOk, IsTrue, OnOk};
ghost use Rattle.ark_paths.specs.Pair.{Digest};
ghost use Rattle.log_store.specs.Disk.{LeavesOnly};
ghost use Rattle.log_store.specs.Sectors.{blank_sectors, laid, layout_in, sector_of, sectors_head};
ghost use Rattle.log_store.specs.Store.{IsEmpty, IsNewFile, IsPartOf, IsSettled, LeavesJust};
ghost use Rattle.log_store.specs.declared.sectors.Layout.TheVariants.{Apart};
ghost use Rattle.log_file.specs.LogFile.{IsLogFile};

use crate::disk::Disk;
use crate::sectors::{DIGESTS, SECTOR, SECTOR_TITLE, titled_slot};
use crate::steps::write_durably;
use log_file::head::slot_of;
use sha2::{Digest as _, Sha256};

/// Returns a sector with a slot.
pub fn sector_of(slot: &[u8; 32]) -> [u8; SECTOR]
    ensures { result ≡ sector_of slot.now }
{
    let mut sector = [0; SECTOR];
    sector[..64].copy_from_slice(&titled_slot(&SECTOR_TITLE, slot));
    sector
}

/// Returns a sector, twice.
pub fn sector_twice(sector: &[u8; SECTOR]) -> [u8; DIGESTS]
    ensures { result ≡ sector.now ++ sector.now }
{
    let mut sectors = [0; DIGESTS];
    sectors[..SECTOR].copy_from_slice(sector);
    sectors[SECTOR..].copy_from_slice(sector);
    sectors
}

// The two sectors of a log of no entries.
fn sectors_head() -> [u8; DIGESTS]
    ensures { result ≡ sectors_head }
{
    sector_twice(&sector_of(&slot_of(0, &Sha256::digest([].as_slice()))))
}

// Whether bytes are each that of a head, or zero.
fn are_of_head(there: &[u8], head: &[u8]) -> bool
    requires { length there.now ≤ length head.now }
    ensures part { result ≡ true → IsPartOf head.now there.now }
    ensures other { result ≡ false → IsPartOf head.now there.now → ⊥ }
{
    for n in 0..there.len() {
        if there[n] != head[n] && there[n] != 0 {
            return false;
        }
    }
    true
}

// Whether a file has no more than a part of two sectors.
fn is_part_of_sectors<D: Disk>(disk: &D, head: &[u8; DIGESTS]) -> Result<bool, D::Refusal>
    ensures part { D.Obeys disk.now → IfOk result (λ part.
        part ≡ true → IsPartOf head.now (D.seen disk.now)) }
    ensures other { D.Obeys disk.now → IfOk result (λ part.
        part ≡ false → IsPartOf head.now (D.seen disk.now) → ⊥) }
{
    let count = disk.length()?;
    if count > DIGESTS {
        return Ok(false);
    }
    let mut there = [0; DIGESTS];
    disk.read_at(0, &mut there[..count])?;
    Ok(are_of_head(&there[..count], head))
}

/// Lays out the file of a new log, whose two slots lie in different sectors. A file that has no byte, or no more than a part of the two
/// sectors of a log of no entries, gets both in one write, which is synced; the result is `true`. Any other file stays as it is,
/// and the result is `false`: it may be a log, which keeps its layout.
///
/// The error is the disk's refusal.
pub fn lay_out<D: Disk>(disk: &mut D) -> Result<bool, D::Refusal>
    ensures obeys { D.Obeys disk.new → D.Obeys disk.old }
    ensures which { D.Obeys disk.new → IfOk result (λ is_new.
        IsTrue is_new ↔ IsPartOf sectors_head (D.seen disk.old)) }

    // What is no part of these sectors stays as it is, also where a crash comes.
    ensures others { D.Obeys disk.new
        → IsPartOf sectors_head (D.seen disk.old) ⊎ (D.seen disk.new ≡ D.seen disk.old) }
    ensures others_moment { D.Obeys disk.new → IsPartOf sectors_head (D.seen disk.old)
        ⊎ LeavesOnly D.moment D.left_since disk.old disk.new (D.may_leave disk.old) }

    // So does an older log's file.
    ensures older { D.Obeys disk.new → (leaves : List Digest) → IsLogFile leaves (D.seen disk.old)
        → D.seen disk.new ≡ D.seen disk.old }

    // A part of them is completed: it lies apart, has the log of no entries, and keeps it if one of its slots is lost.
    ensures made { D.Obeys disk.new → IfOk result (λ is_new.
        is_new ≡ true → D.seen disk.new ≡ sectors_head) }
    ensures lies { D.Obeys disk.new → IfOk result (λ is_new.
        is_new ≡ true → layout_in (D.seen disk.new) ≡ Apart) }
    ensures settled { D.Obeys disk.new → IfOk result (λ is_new.
        is_new ≡ true → IsSettled [] (laid Apart (D.seen disk.new))) }

    // A crash then leaves both sectors, if it left no more than a part of them before.
    ensures new_durable { D.Obeys disk.new
        → ((left : List ℕ) → D.may_leave disk.old left → IsPartOf sectors_head left)
        → IfOk result (λ is_new. is_new ≡ true
        → (left : List ℕ) → D.may_leave disk.new left → left ≡ sectors_head) }

    // A crash at any moment leaves a part of them, and so is what is read, whatever it returned.
    ensures left { D.Obeys disk.new → IsPartOf sectors_head (D.seen disk.old)
        → IsPartOf sectors_head (D.seen disk.new) }
    ensures begun { D.Obeys disk.new
        → ((left : List ℕ) → D.may_leave disk.old left → IsPartOf sectors_head left)
        → LeavesOnly D.moment D.left_since disk.old disk.new (IsPartOf sectors_head) }
{
    let head = sectors_head();
    let is_new = is_part_of_sectors(disk, &head)?;
    if !is_new {
        return Ok(false);
    }
    write_durably(disk, 0, &head)?;
    Ok(true)
}

// Two sectors without a slot.
fn blank_sectors() -> [u8; DIGESTS]
    ensures { result ≡ blank_sectors }
{
    let mut sectors = [0; DIGESTS];
    sectors[SECTOR..].copy_from_slice(&sector_of(&[0; 32]));
    sectors
}

/// Lays out a file that has no byte so that its two slots will lie in different sectors, and syncs. It has no head yet: as the log's
/// file (`SectorDisk`, `Layout::Apart`) it has 96 zeros, so that `recover` takes it.
///
/// The error is the disk's refusal.
pub fn lay_blank<D: Disk>(disk: &mut D) -> Result<(), D::Refusal>
    ensures obeys { D.Obeys disk.new → D.Obeys disk.old }
    ensures made { D.Obeys disk.new → D.seen disk.old ≡ []
        → OnOk result (D.seen disk.new ≡ blank_sectors) }

    // It is a new file, and a crash leaves just it.
    ensures blank { D.Obeys disk.new → D.seen disk.old ≡ []
        → OnOk result (IsNewFile (laid Apart (D.seen disk.new))) }
    ensures durable { D.Obeys disk.new → D.seen disk.old ≡ [] → IsEmpty (D.may_leave disk.old)
        → OnOk result (LeavesJust blank_sectors (D.may_leave disk.new)) }

    // A crash at any moment leaves a part of these sectors.
    ensures begun { D.Obeys disk.new → IsEmpty (D.may_leave disk.old)
        → LeavesOnly D.moment D.left_since disk.old disk.new (IsPartOf blank_sectors) }
{
    write_durably(disk, 0, &blank_sectors())
}
