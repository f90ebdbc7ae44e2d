//! The head of a log's file, read from the disk.

ghost use Rattle.std.specs.Prelude.{◌≡◌, ◌≤◌, ◌<◌, ◌^◌, List, length, take, drop, true, Some, Ok, IfOk};
ghost use Rattle.ark_paths.specs.Pair.{Digest};
ghost use Rattle.log_store.specs.Refused.{IsRefusedFor};
ghost use Rattle.merkle_log.specs.Kept.{has_front};
ghost use Rattle.merkle_log.specs.Stored.{stored_count};
ghost use Rattle.log_file.specs.Faults.{log_size};
ghost use Rattle.log_file.specs.LogFile.{file_end, file_head, IsLogFile};

use crate::disk::Disk;
use crate::stop::Stop;
use log_file::fault::Fault;
use log_file::head::{FileHead, START, fault_without_head, head_in};
use merkle_log::kept::{is_size, stored_count};

// Returns whether so many digests are as many as a log of this size has.
fn has_front(size: usize, count: usize) -> bool
    ensures test { result ≡ has_front size count }
    ensures fits { result ≡ true → (size < 2 ^ 63) × (stored_count size ≤ count) }
{
    is_size(size) && stored_count(size) <= count
}

// Returns how long a file is now, which was so long before: others may have appended to it since.
fn length_again<D: Disk>(disk: &D, before: usize) -> Result<usize, D::Refusal>
    ensures length { D.Obeys disk.now → before ≡ length (D.seen disk.now)
        → IfOk result (λ count. count ≡ length (D.seen disk.now)) }
    ensures longer { IfOk result (λ count. before ≤ count) }
{
    Ok(disk.length()?.max(before))
}

/// The head of a log's file, and its bytes.
#[derive(Clone, Copy)]
pub struct ReadHead {
    pub head: FileHead,
    pub bytes: [u8; START],
}

/// Reads the head of a log's file, and then how long the file is: digests are written before a head that says their size.
///
/// Errors: `NoLog`; `HeadDamaged`; `Short`, also for a size of over 63 bits; the disk's refusal.
pub fn read_head<D: Disk>(disk: &D) -> Result<ReadHead, Stop<D::Refusal>>
    ensures size { D.Obeys disk.now → IfOk result (λ read.
        log_size (D.seen disk.now) ≡ Ok read.head.size) }
    ensures refused { let file = D.seen disk.now in
        D.Obeys disk.now → IsRefusedFor file (log_size file) result }
    ensures head { D.Obeys disk.now → IfOk result (λ read.
        file_head (D.seen disk.now) ≡ Some (read.head.size, read.head.is_second_next)) }
    ensures bytes { D.Obeys disk.now → IfOk result (λ read.
        read.bytes ≡ take 96 (drop 0 (D.seen disk.now))) }
    ensures fits { IfOk result (λ read. read.head.size < 2 ^ 63) }
    ensures near { IfOk result (λ read. file_end read.head.size < 2 ^ 64) }
    ensures inside { D.Obeys disk.now → IfOk result (λ read.
        file_end read.head.size ≤ length (D.seen disk.now)) }
{
    let count = match disk.length() {
        Ok(count) => count,
        Err(refusal) => return Err(Stop::Disk(refusal)),
    };
    if count < START {
        return Err(Stop::Fault(Fault::NoLog));
    }
    let mut bytes = [0; START];
    if let Err(refusal) = disk.read_at(0, &mut bytes) {
        return Err(Stop::Disk(refusal));
    }
    let Some(head) = head_in(&bytes) else {
        return Err(Stop::Fault(fault_without_head(&bytes)));
    };
    let again = match length_again(disk, count) {
        Ok(again) => again,
        Err(refusal) => return Err(Stop::Disk(refusal)),
    };
    if !has_front(head.size, (again - START) / 32) {
        return Err(Stop::Fault(Fault::Short));
    }
    Ok(ReadHead { head, bytes })
}

/// Returns how many entries the log of a file has. Errors: `NoLog`; `Short`; the disk's refusal.
pub fn size<D: Disk>(disk: &D) -> Result<usize, Stop<D::Refusal>>
    ensures size { D.Obeys disk.now → (leaves : List Digest) → IsLogFile leaves (D.seen disk.now)
        → IfOk result (λ size. size ≡ length leaves) }

    // Of every file: the size is the one that its head says.
    ensures gives { D.Obeys disk.now → IfOk result (λ size. log_size (D.seen disk.now) ≡ Ok size) }
    ensures refused { let file = D.seen disk.now in
        D.Obeys disk.now → IsRefusedFor file (log_size file) result }
{
    Ok(read_head(disk)?.head.size)
}
