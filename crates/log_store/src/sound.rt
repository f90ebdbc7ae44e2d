//! How far the stored digests of a log's file are those of a log. They are read from the front on, a part at a time.

ghost use Rattle.std.specs.Prelude.{◌≡◌, ◌≤◌, ◌<◌, ◌+◌, ◌*◌, ◌^◌, ◌&&◌, not, nat_lt, true, false, List, length, IfOk, Ok};
ghost use Rattle.ark_paths.specs.Pair.{Digest};
ghost use Rattle.merkle_log.specs.Stored.{stored_count};
ghost use Rattle.log_store.specs.Refused.{IsDamaged, IsRefusedFor};
ghost use Rattle.log_store.specs.Sound.{AreNodes, IsAhead};
ghost use Rattle.log_file.specs.Faults.{log_size};
ghost use Rattle.log_file.specs.LogFile.{file_end, IsLogFile};

use crate::ahead::{Ahead, digest_in, look_at, none_ahead};
use crate::disk::Disk;
use crate::log::read_log;
use crate::stop::Stop;
use ark_crh::ArrayHash;
use ark_trees::LogHasher;
use log_file::fault::Fault;
use merkle_log::kept::{position_of, stored_count};

// Returns whether each digest that an entry completes is the hash of its two.
fn is_completed<D: Disk>(disk: &D, ahead: &Ahead, index: usize) -> Result<bool, D::Refusal>
    requires fits { index + 1 < 2 ^ 63 }
    requires near { file_end (index + 1) < 2 ^ 64 }
    requires ahead { ahead.now.count ≤ 512 }
    ensures sound { D.Obeys disk.now
        → IsAhead ahead.now.start ahead.now.count ahead.now.bytes (D.seen disk.now)
        → file_end (index + 1) ≤ length (D.seen disk.now) → AreNodes (D.seen disk.now) index
        → result ≡ Ok true → AreNodes (D.seen disk.now) (index + 1) }
    ensures damaged { D.Obeys disk.now
        → IsAhead ahead.now.start ahead.now.count ahead.now.bytes (D.seen disk.now)
        → file_end (index + 1) ≤ length (D.seen disk.now)
        → result ≡ Ok false → AreNodes (D.seen disk.now) (index + 1) → ⊥ }
{
    let mut own = digest_in(ahead, disk, position_of(0, index))?;
    let mut level = 0;
    let mut left = index;
    'odd: while left % 2 == 1 {
        let other = digest_in(ahead, disk, position_of(level, left - 1))?;
        left /= 2;
        level += 1;
        let above = digest_in(ahead, disk, position_of(level, left))?;
        if LogHasher::node(&other, &own) != above {
            return Ok(false);
        }
        own = above;
    }
    Ok(true)
}

// Returns whether an entry is below a limit, and its digests are among so many.
fn is_next(index: usize, limit: usize, count: usize) -> bool
    requires { limit < 2 ^ 63 }
    ensures { result ≡ (nat_lt index limit && not (nat_lt count (stored_count (index + 1)))) }
{
    index < limit && stored_count(index + 1) <= count
}

/// Returns how many entries of a file have stored digests that are those of a log, of at most so many entries and digests. It
/// reads the digests from the front on, 512 at a time.
pub fn sound_front<D: Disk>(disk: &D, count: usize, limit: usize) -> Result<usize, D::Refusal>
    requires fits { limit < 2 ^ 63 }
    requires near { 96 + 32 * count < 2 ^ 64 }
    ensures limit { IfOk result (λ size. size ≤ limit) }
    ensures count { IfOk result (λ size. stored_count size ≤ count) }
    ensures sound { D.Obeys disk.now → 96 + 32 * count ≤ length (D.seen disk.now)
        → IfOk result (λ size. AreNodes (D.seen disk.now) size) }
    ensures longest { D.Obeys disk.now → 96 + 32 * count ≤ length (D.seen disk.now)
        → IfOk result (λ size. size < limit → stored_count (size + 1) ≤ count
        → AreNodes (D.seen disk.now) (size + 1) → ⊥) }
{
    let mut ahead = none_ahead();
    let mut size = 0;
    'entries: while is_next(size, limit, count) {
        look_at(&mut ahead, disk, stored_count(size), count)?;
        if !is_completed(disk, &ahead, size)? {
            return Ok(size);
        }
        size += 1;
    }
    Ok(size)
}

/// Returns whether a file is that of a log: whether each stored digest of two others is their hash, and a slot states the root or
/// none. It reads the file a part at a time.
///
/// Errors: `NoLog`, `HeadDamaged`, `Short`; the disk's refusal.
pub fn check<D: Disk>(disk: &D) -> Result<bool, Stop<D::Refusal>>
    ensures refused { let file = D.seen disk.now in
        D.Obeys disk.now → IsRefusedFor file (log_size file) result }

    // Then the file is that of a log.
    ensures sound { D.Obeys disk.now → result ≡ Ok true
        → (leaves : List Digest) × IsLogFile leaves (D.seen disk.now) }

    // Else it is that of none.
    ensures damaged { D.Obeys disk.now → result ≡ Ok false → IsDamaged (D.seen disk.now) }
{
    let log = match read_log(disk) {
        Ok(log) => log,
        Err(Stop::Fault(Fault::Damaged)) => return Ok(false),
        Err(stop) => return Err(stop),
    };
    match sound_front(disk, stored_count(log.size), log.size) {
        Ok(size) => Ok(size == log.size),
        Err(refusal) => Err(Stop::Disk(refusal)),
    }
}
