//! The head of a log's file, written again.

ghost use Rattle.std.specs.Prelude.{◌≡◌, ◌≤◌, ℕ, List, length, take, OnOk};
ghost use Rattle.ark_paths.specs.Pair.{Digest};
ghost use Rattle.log_store.specs.Disk.{After, LeavesOnly, Torn};
ghost use Rattle.log_store.specs.Store.{BeginsAs, IsDurable, IsDurableBehind, TornInTurn};
ghost use Rattle.log_file.specs.LogFile.{IsLogFile};

use crate::disk::Disk;
use crate::steps::write_head;
use log_file::head::START;

/// Writes the head of a log's file again, as it is read, and syncs. Once it returned, a crash leaves the log that is read, also
/// where a sync of its head was refused before, of whichever process: digests are durable before a head says their size.
/// Nothing that is read changes. The second slot is written once the first one is on the disk.
///
/// The error is the disk's refusal.
pub fn rewrite_head<D: Disk>(disk: &mut D) -> Result<(), D::Refusal>
    ensures obeys { D.Obeys disk.new → D.Obeys disk.old }
    ensures same { D.Obeys disk.new → D.seen disk.new ≡ D.seen disk.old }
    ensures durable { D.Obeys disk.new → (leaves : List Digest)
        → IsLogFile leaves (D.seen disk.old)
        → IsDurableBehind (length leaves) (D.seen disk.old) (D.may_leave disk.old)
        → OnOk result (IsDurable (length leaves) (D.seen disk.new) (D.may_leave disk.new)) }

    // A crash at any moment leaves what it might have left before, but for a head that is mixed of its own bytes and of those
    // that are read.
    ensures any_moment { D.Obeys disk.new → LeavesOnly D.moment D.left_since disk.old disk.new
        (After (Torn 0 (take 96 (D.seen disk.old))) (D.may_leave disk.old)) }

    // And that but in one of its slots: the other one is as it was before, or as it is read.
    ensures in_turn { D.Obeys disk.new → LeavesOnly D.moment D.left_since disk.old disk.new
        (After (TornInTurn (take 96 (D.seen disk.old))) (D.may_leave disk.old)) }

    // Whatever it returned, the digests are as a crash left them before.
    ensures kept { D.Obeys disk.new → (size : ℕ)
        → IsDurableBehind size (D.seen disk.old) (D.may_leave disk.old)
        → IsDurableBehind size (D.seen disk.new) (D.may_leave disk.new) }

    // Where the log is durable a crash at any moment leaves it.
    ensures harmless { D.Obeys disk.new → (leaves : List Digest)
        → IsLogFile leaves (D.seen disk.old)
        → IsDurable (length leaves) (D.seen disk.old) (D.may_leave disk.old)
        → LeavesOnly D.moment D.left_since disk.old disk.new
        (BeginsAs (length leaves) (D.seen disk.old)) }
{
    let count = disk.length()?;
    if count < START {
        return disk.sync();
    }
    let mut head = [0; START];
    disk.read_at(0, &mut head)?;
    write_head(disk, &head)
}
