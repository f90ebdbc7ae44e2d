//! A step of a follower: from the head at which it was left to a new one.

ghost use Rattle.std.specs.Prelude.{◌≡◌, List, is_ok, take, IfErr};
ghost use Rattle.ark_paths.specs.Pair.{Digest};
ghost use Rattle.log_file.specs.LogFile.{IsLogFile};
ghost use Rattle.log_tiles.specs.Followers.{IsHinderedStep, IsMove, IsUnfollowed, IsUnmoved};
ghost use Rattle.log_tiles.specs.Ways.{IsLogOf};

use crate::following::{Head, continues};
use crate::head_file::HeadFile;
use crate::unfollowed::Unfollowed;
use log_store::Disk;
use std::alloc::Global;

/// Why a follower did not move on.
#[derive(Drop)]
pub enum Unmoved<R: Drop, W: Drop> {
    /// The new log does not continue that of this head, at which the follower was left, or that was not found.
    Unfollowed(Head, Unfollowed<R>),
    /// A call on the follower's file was refused.
    File(W),
}

/// Moves a follower on to a head whose log continues that of the head which the file states. The disk reads the tiles of the
/// new log, and the note states the new head. It returns once the new head is on the disk, and writes it also where the head
/// stays, since what was read may not be on the disk.
///
/// Errors: the file's refusal of a read; those of `continues`, of which the file is as it was; the file's refusal of the new head.
pub fn follow<D: Disk, F: HeadFile>(
    alloc: Global,
    disk: &D,
    file: &mut F,
    new: &Head,
    note: &[u8],
) -> Result<(), Unmoved<D::Refusal, F::Refusal>>
    ensures obeys { F.Obeys file.new → F.Obeys file.old }

    // What is accepted continues what the file stated, is stated by it, and no crash takes it back.
    ensures step { F.Obeys file.new → IsMove F.holds F.may_leave F.moment F.left_since
        file.old file.new new.now (is_ok result) }
    ensures refused { F.Obeys file.new → D.Obeys disk.now → IfErr result
        (IsUnmoved (D.seen disk.now) (F.holds file.old) new.now) }
    ensures kept { IfErr result (λ why. IsUnfollowed why → file.new ≡ file.old) }

    // A log whose first entries are the log of the head that the file stated is followed.
    ensures honest { F.Obeys file.new → D.Obeys disk.now → (leaves : List Digest)
        → IsLogFile leaves (D.seen disk.now) → IsLogOf new.now leaves
        → IsLogOf (F.holds file.old) (take (F.holds file.old).size leaves)
        → IfErr result IsHinderedStep }
{
    let old = match file.read() {
        Ok(old) => old,
        Err(refusal) => return Err(Unmoved::File(refusal)),
    };
    if let Err(why) = continues(alloc, disk, &old, new) {
        return Err(Unmoved::Unfollowed(old, why));
    }
    match file.replace(new, note) {
        Ok(()) => Ok(()),
        Err(refusal) => Err(Unmoved::File(refusal)),
    }
}
