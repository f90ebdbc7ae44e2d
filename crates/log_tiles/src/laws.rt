//! What is proved of followers and witnesses over all that happens to them. Each function is one theorem: its contract states it,
//! and its body does nothing.

ghost use Rattle.std.specs.Prelude.{◌⊎◌, ◌≤◌, ◌<◌, ◌^◌, ℕ, List, Contains};
ghost use Rattle.log_file.specs.LogFile.{IsLogFile};
ghost use Rattle.log_tiles.specs.Audit.{AreTilesOf, TiledValue};
ghost use Rattle.log_tiles.specs.Histories.{accepted_in, AreOfOneLog, Event, IsHistory};
ghost use Rattle.log_tiles.specs.Quorums.{AreHonest, IsSignedBy, Meet};
ghost use Rattle.log_tiles.specs.Tiled.{HaveDigests};
ghost use Rattle.log_tiles.specs.Ways.{IsBefore, IsLogOf};
ghost use Rattle.log_tiles.specs.declared.following.Head.{Head};

use crate::head_file::HeadFile;
use crate::tiled::{TileDisk, Tiles};
use log_store::Disk;

/// States that of all heads that a follower ever accepted, over each step and each crash, the log of an earlier one begins that
/// of a later one, or two different pairs with one hash are named. What a witness signs is what it accepted.
pub fn accepted_are_of_one_log<F: HeadFile>()
    ensures { (events : List (Event F)) (now : F)
        → IsHistory F.holds F.may_leave F.moment F.left_since events now
        → AreOfOneLog (accepted_in events) }
{}

/// States that of two heads that a follower accepted, over each step and each crash, the log of the one with fewer entries begins that
/// of the other, or two different pairs with one hash are named.
pub fn smaller_begins_larger<F: HeadFile>()
    ensures { (events : List (Event F)) (now : F)
        → IsHistory F.holds F.may_leave F.moment F.left_since events now → (a b : Head)
        → Contains (accepted_in events) a → Contains (accepted_in events) b
        → a.size ≤ b.size → IsBefore a b }
{}

/// States that two clients whose policies meet in an honest witness hold heads of one log, or two different pairs with one hash
/// are named.
pub fn quorums_meet()
    ensures { (signed : ℕ → List Head) (honest : List ℕ) (p q : List (List ℕ)) (a b : Head)
        → AreHonest signed honest → Meet honest p q
        → IsSignedBy signed p a → IsSignedBy signed q b → IsBefore a b ⊎ IsBefore b a }
{}

/// States that the tiles of a log make a disk that obeys, on which the file of that log lies.
pub fn tiles_are_of_a_log<T: Tiles + Drop>()
    ensures { (disk : TiledValue T) → disk.size < 2 ^ 57 → T.Obeys disk.tiles
        → HaveDigests (T.has disk.tiles) disk.size
        → (log : AreTilesOf (T.has disk.tiles) disk.size disk.root)
        → ⟦<TileDisk<T> as Disk>⟧.Obeys disk
        × (IsLogFile log.leaves (⟦<TileDisk<T> as Disk>⟧.seen disk)
        × IsLogOf (record { size = disk.size; root = disk.root }) log.leaves) }
{}
