//! The folder in which a log is published.

ghost use Rattle.std.specs.Prelude.{◌≡◌, ◌≤◌, ℕ, List, length, true, IfOk, OnOk};
ghost use Rattle.log_tiles.specs.Folders.{Files, LeavesFile, LeavesReplaced, Passes};
ghost use Rattle.log_tiles.specs.declared.folder.FileName.{FileName};

use crate::tile::Tile;

/// Which file of a folder it is.
#[derive(Clone, Copy)]
pub enum FileName {
    /// That of a tile.
    OfTile(Tile),
    /// The signed checkpoint.
    Checkpoint,
}

/// A folder of files, each of which is written whole or not at all.
///
/// What the clauses say holds where the folder has obeyed. Of a folder of the operating system nothing is known: that it obeys is
/// what is left to trust.
pub trait Folder {
    type Refusal: Drop;

    // So far its calls did what is said of them.
    ghost Obeys: { Self → Type 0 };

    // What a crash at this moment may leave.
    ghost may_leave: { Self → Files → Type 0 };

    // Through this value this file was written under its name, or found there, and none was put in its place since.
    ghost written: { Self → FileName → List ℕ → Type 0 };

    // The moment, as a number that does not fall.
    ghost moment: { Self → ℕ };

    // What a crash at some moment since that one might have left.
    ghost left_since: { Self → ℕ → Files → Type 0 };

    /// Puts a file in the place of that of a name. Until a sync, and after an error, a crash leaves it, or what it might have left
    /// of that name before.
    fn write(&mut self, name: FileName, bytes: &[u8]) -> Result<(), Self::Refusal>
        ensures obeys { Obeys self.new → Obeys self.old }
        ensures written { Obeys self.new → OnOk result (written self.new name bytes.now) }
        ensures others { Obeys self.new → (other : FileName) (earlier : List ℕ)
            → (other ≡ name → earlier ≡ bytes.now) → written self.old other earlier
            → written self.new other earlier }
        ensures crash { Obeys self.new → (left : Files) → may_leave self.new left
            → LeavesReplaced name bytes.now (may_leave self.old) left }
        ensures time { Obeys self.new → Passes (moment self.old) (moment self.new)
            (left_since self.old) (left_since self.new)
            (LeavesReplaced name bytes.now (may_leave self.old)) };

    /// Returns whether a name has a file of so many bytes, which then counts as written: whoever wrote it may have ended before its
    /// name was on the disk.
    fn find(&mut self, name: FileName, count: usize) -> Result<bool, Self::Refusal>
        ensures obeys { Obeys self.new → Obeys self.old }
        ensures found { Obeys self.new → IfOk result (λ found. found ≡ true
            → (bytes : List ℕ) × (length bytes ≡ count) × written self.new name bytes) }
        ensures others { Obeys self.new → (other : FileName) (earlier : List ℕ)
            → written self.old other earlier → written self.new other earlier }
        ensures crash { Obeys self.new → (left : Files) → may_leave self.new left
            → may_leave self.old left }
        ensures time { Obeys self.new → Passes (moment self.old) (moment self.new)
            (left_since self.old) (left_since self.new) (may_leave self.old) };

    /// Returns once a crash leaves each file that was written.
    fn sync(&mut self) -> Result<(), Self::Refusal>
        ensures obeys { Obeys self.new → Obeys self.old }
        ensures durable { Obeys self.new → OnOk result ((name : FileName) (bytes : List ℕ)
            → written self.old name bytes → LeavesFile name bytes (may_leave self.new)) }
        ensures others { Obeys self.new → (name : FileName) (bytes : List ℕ)
            → written self.old name bytes → written self.new name bytes }
        ensures crash { Obeys self.new → (left : Files) → may_leave self.new left
            → may_leave self.old left }
        ensures time { Obeys self.new → Passes (moment self.old) (moment self.new)
            (left_since self.old) (left_since self.new) (may_leave self.old) };

    // Since this moment there is no other.
    ghost only_now: { (folder : Self) (left : Files) → left_since folder (moment folder) left
        → may_leave folder left };
}
