//! The head of a new log's file.

ghost use Rattle.std.specs.Prelude.{◌≡◌, ◌⊎◌, ℕ, List, [], length, take, true, false, IfOk, OnOk};
ghost use Rattle.ark_paths.specs.Pair.{Digest};
ghost use Rattle.log_store.specs.Disk.{After, LeavesOnly, Torn};
ghost use Rattle.log_store.specs.Refused.{IsOfDisk};
ghost use Rattle.log_store.specs.Store.{new_head, IsDurable, IsDurableBehind, IsDurableLog, IsEmpty, IsPartOf, IsSettled, TornInTurn};
ghost use Rattle.log_file.specs.LogFile.{IsLogFile};

use crate::again::rewrite_head;
use crate::disk::Disk;
use crate::log::read_log;
use crate::steps::write_head;
use crate::stop::Stop;
use log_file::fault::Fault;
use log_file::head::{START, head_bytes};
use sha2::{Digest as _, Sha256};

// Whether a file has no log.
fn lacks_log<D: Disk>(disk: &D) -> Result<bool, Stop<D::Refusal>>
    ensures log { D.Obeys disk.now → (leaves : List Digest) → IsLogFile leaves (D.seen disk.now)
        → IfOk result (λ lacks. lacks ≡ false) }
    ensures refused { IsOfDisk result }
{
    match read_log(disk) {
        Ok(_) => Ok(false),
        Err(Stop::Fault(Fault::NoLog)) => Ok(true),
        Err(Stop::Fault(Fault::HeadDamaged)) => Ok(true),
        Err(Stop::Fault(Fault::Damaged)) => Ok(true),
        Err(Stop::Fault(_)) => Ok(false),
        Err(Stop::Disk(refusal)) => Err(Stop::Disk(refusal)),
    }
}

// Whether a file has no byte, or no more than those of a head: each byte is that of the head or zero.
fn is_part<D: Disk>(disk: &D, head: &[u8; START]) -> Result<bool, D::Refusal>
    ensures { D.Obeys disk.now → IfOk result (λ part.
        part ≡ true → IsPartOf head.now (D.seen disk.now)) }
{
    let count = disk.length()?;
    if count > START {
        return Ok(false);
    }
    let mut there = [0; START];
    disk.read_at(0, &mut there[..count])?;
    for n in 0..START {
        if there[n] != head[n] && there[n] != 0 {
            return Ok(false);
        }
    }
    Ok(true)
}

// Whether a file has no more than a part of a head, and so no log.
fn is_begun<D: Disk>(disk: &D, head: &[u8; START]) -> Result<bool, Stop<D::Refusal>>
    ensures log { D.Obeys disk.now → (leaves : List Digest) → IsLogFile leaves (D.seen disk.now)
        → IfOk result (λ begun. begun ≡ false) }
    ensures empty { D.Obeys disk.now → D.seen disk.now ≡ []
        → IfOk result (λ begun. begun ≡ true) }
    ensures part { D.Obeys disk.now → IfOk result (λ begun.
        begun ≡ true → IsPartOf head.now (D.seen disk.now)) }
    ensures refused { IsOfDisk result }
{
    let count = match disk.length() {
        Ok(count) => count,
        Err(refusal) => return Err(Stop::Disk(refusal)),
    };
    if count == 0 {
        return Ok(true);
    }
    match is_part(disk, head) {
        Ok(true) => lacks_log(disk),
        Ok(false) => Ok(false),
        Err(refusal) => Err(Stop::Disk(refusal)),
    }
}

/// Makes a file ready for appends. A file that has no byte, or no more than a part of the head of a log of no entries, gets that
/// head. Of another one the head is written again, as it is read. It syncs either way, and behind it the log is durable:
/// a crash leaves it.
///
/// Errors: the disk's refusal.
pub fn make<D: Disk>(disk: &mut D) -> Result<(), Stop<D::Refusal>>
    ensures obeys { D.Obeys disk.new → D.Obeys disk.old }

    // A file that has a log stays as it is.
    ensures kept { D.Obeys disk.new → (leaves : List Digest) → IsLogFile leaves (D.seen disk.old)
        → D.seen disk.new ≡ D.seen disk.old }

    // What is neither empty nor a part of that head stays as it is, also where a crash comes.
    ensures others { D.Obeys disk.new
        → IsPartOf new_head (D.seen disk.old) ⊎ (D.seen disk.new ≡ D.seen disk.old) }
    ensures others_moment { D.Obeys disk.new → IsPartOf new_head (D.seen disk.old)
        ⊎ LeavesOnly D.moment D.left_since disk.old disk.new
        (After (Torn 0 (take 96 (D.seen disk.old))) (D.may_leave disk.old)) }

    // A file that has no byte has the log of no entries, and stays it if one of its slots is lost.
    ensures made { D.Obeys disk.new → D.seen disk.old ≡ []
        → OnOk result (IsSettled [] (D.seen disk.new)) }
    ensures refused { IsOfDisk result }

    // A crash then leaves the log, also where a sync of its head was refused before.
    ensures durable { D.Obeys disk.new → (leaves : List Digest)
        → IsLogFile leaves (D.seen disk.old)
        → IsDurableBehind (length leaves) (D.seen disk.old) (D.may_leave disk.old)
        → OnOk result (IsDurable (length leaves) (D.seen disk.new) (D.may_leave disk.new)) }
    ensures new_durable { D.Obeys disk.new → D.seen disk.old ≡ []
        → IsEmpty (D.may_leave disk.old)
        → OnOk result (IsDurableLog [] (D.seen disk.new) (D.may_leave disk.new)) }

    // A crash at any moment leaves of a log's file what it might have left before, but for a head that is mixed of its own
    // bytes and of those that are read.
    ensures any_moment { D.Obeys disk.new → (leaves : List Digest)
        → IsLogFile leaves (D.seen disk.old)
        → LeavesOnly D.moment D.left_since disk.old disk.new
        (After (Torn 0 (take 96 (D.seen disk.old))) (D.may_leave disk.old)) }

    // It is mixed in one of its slots: the second one is written once the first one is on the disk.
    ensures in_turn { D.Obeys disk.new → (leaves : List Digest)
        → IsLogFile leaves (D.seen disk.old)
        → LeavesOnly D.moment D.left_since disk.old disk.new
        (After (TornInTurn (take 96 (D.seen disk.old))) (D.may_leave disk.old)) }

    // Of a file that has no byte it leaves no more than a part of that head; and so is what is read, whatever it returned.
    ensures left { D.Obeys disk.new → D.seen disk.old ≡ [] → IsPartOf new_head (D.seen disk.new) }
    ensures begun { D.Obeys disk.new → D.seen disk.old ≡ []
        → ((left : List ℕ) → D.may_leave disk.old left → IsPartOf new_head left)
        → LeavesOnly D.moment D.left_since disk.old disk.new (IsPartOf new_head) }

    // Whatever it returned, of a log's file the digests are as a crash left them before.
    ensures kept_behind { D.Obeys disk.new → (leaves : List Digest)
        → IsLogFile leaves (D.seen disk.old)
        → IsDurableBehind (length leaves) (D.seen disk.old) (D.may_leave disk.old)
        → IsDurableBehind (length leaves) (D.seen disk.new) (D.may_leave disk.new) }
{
    let head = head_bytes(0, &Sha256::digest([].as_slice()));
    if is_begun(disk, &head)? {
        return match write_head(disk, &head) {
            Ok(()) => Ok(()),
            Err(refusal) => Err(Stop::Disk(refusal)),
        };
    }
    match rewrite_head(disk) {
        Ok(()) => Ok(()),
        Err(refusal) => Err(Stop::Disk(refusal)),
    }
}
