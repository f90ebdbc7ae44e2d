//! A write that is on the disk when it returns.

ghost use Rattle.std.specs.Prelude.{◌≤◌, ◌≡◌, length, OnOk};
ghost use Rattle.log_store.specs.Disk.{After, LeavesMore, LeavesOnly, Torn};
ghost use Rattle.log_store.specs.Store.{TornInTurn};
ghost use Rattle.log_file.specs.LogFile.{written};

use crate::disk::Disk;
use log_file::head::START;

/// Writes bytes from a place on, and syncs. A crash then leaves what it would have left before, with these bytes.
pub fn write_durably<D: Disk>(disk: &mut D, at: usize, bytes: &[u8]) -> Result<(), D::Refusal>
    ensures obeys { D.Obeys disk.new → D.Obeys disk.old }
    ensures written { D.Obeys disk.new → at ≤ length (D.seen disk.old)
        → OnOk result (D.seen disk.new ≡ written (D.seen disk.old) at bytes.now) }
    ensures torn { D.Obeys disk.new → at ≤ length (D.seen disk.old)
        → Torn at bytes.now (D.seen disk.old) (D.seen disk.new) }
    ensures durable { D.Obeys disk.new → at ≤ length (D.seen disk.old)
        → OnOk result (LeavesMore (λ before left. left ≡ written before at bytes.now)
        (D.may_leave disk.old) (D.may_leave disk.new)) }

    // A crash at any moment leaves what it would have left before, but for these bytes.
    ensures any_moment { D.Obeys disk.new → at ≤ length (D.seen disk.old)
        → LeavesOnly D.moment D.left_since disk.old disk.new
        (After (Torn at bytes.now) (D.may_leave disk.old)) }
{
    disk.write_at(at, bytes)?;
    disk.sync()
}

/// Writes a head: the title and the first slot, and syncs; then the second slot, and syncs. A crash then leaves what it would
/// have left before, with this head.
pub fn write_head<D: Disk>(disk: &mut D, head: &[u8; START]) -> Result<(), D::Refusal>
    ensures obeys { D.Obeys disk.new → D.Obeys disk.old }
    ensures written { D.Obeys disk.new
        → OnOk result (D.seen disk.new ≡ written (D.seen disk.old) 0 head.now) }
    ensures torn { D.Obeys disk.new → Torn 0 head.now (D.seen disk.old) (D.seen disk.new) }
    ensures durable { D.Obeys disk.new
        → OnOk result (LeavesMore (λ before left. left ≡ written before 0 head.now)
        (D.may_leave disk.old) (D.may_leave disk.new)) }

    // A crash at any moment leaves what it would have left before, but for one of the two parts: the second one is written once
    // the first one is on the disk.
    ensures in_turn { D.Obeys disk.new → LeavesOnly D.moment D.left_since disk.old disk.new
        (After (TornInTurn head.now) (D.may_leave disk.old)) }

    // So it leaves no more than these bytes.
    ensures any_moment { D.Obeys disk.new → LeavesOnly D.moment D.left_since disk.old disk.new
        (After (Torn 0 head.now) (D.may_leave disk.old)) }
{
    write_durably(disk, 0, &head[..64])?;
    write_durably(disk, 64, &head[64..])
}
