//! Where in a log an entry stands, by its digest. The digests are read from the front on, a part at a time.

ghost use Rattle.std.specs.Prelude.{◌≤◌, ◌<◌, ◌^◌, List, length, IfOk};
ghost use Rattle.ark_paths.specs.Pair.{Digest};
ghost use Rattle.log_store.specs.Found.{IsFirst, IsFirstOf};
ghost use Rattle.log_store.specs.Refused.{IsRefusedFor};
ghost use Rattle.log_store.specs.Sound.{placed};
ghost use Rattle.log_file.specs.Faults.{log_size};
ghost use Rattle.log_file.specs.LogFile.{file_end, IsLogFile};

use crate::ahead::{digest_in, look_at, none_ahead};
use crate::disk::Disk;
use crate::log::read_log;
use crate::stop::Stop;
use merkle_log::kept::{position_of, stored_count};

// Returns the first of so many entries whose stored digest is this one.
fn first_with<D: Disk>(
    disk: &D,
    size: usize,
    digest: &[u8; 32],
) -> Result<Option<usize>, D::Refusal>
    requires fits { size < 2 ^ 63 }
    requires near { file_end size < 2 ^ 64 }
    ensures { D.Obeys disk.now → file_end size ≤ length (D.seen disk.now)
        → IfOk result (IsFirstOf (placed (D.seen disk.now) 0) size digest.now) }
{
    let mut ahead = none_ahead();
    let mut index = 0;
    'entries: while index < size {
        let position = position_of(0, index);
        look_at(&mut ahead, disk, position, stored_count(size))?;
        let found = digest_in(&ahead, disk, position)?;
        if found != *digest {
            index += 1;
        } else {
            return Ok(Some(index));
        }
    }
    Ok(None)
}

/// Returns the first index at which a log has an entry with this digest; none where it has none. It reads the digests from the front
/// on, 512 at a time, and checks none of them but those of the right edge.
///
/// Errors, the first that applies: those of `root` for all entries.
pub fn find<D: Disk>(disk: &D, digest: &[u8; 32]) -> Result<Option<usize>, Stop<D::Refusal>>
    ensures refused { let file = D.seen disk.now in
        D.Obeys disk.now → IsRefusedFor file (log_size file) result }
    ensures first { D.Obeys disk.now → (leaves : List Digest) → IsLogFile leaves (D.seen disk.now)
        → IfOk result (IsFirst leaves digest.now) }
{
    let log = read_log(disk)?;
    match first_with(disk, log.size, digest) {
        Ok(found) => Ok(found),
        Err(refusal) => Err(Stop::Disk(refusal)),
    }
}
