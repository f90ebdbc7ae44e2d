//! The disk on which a log's file lies.

ghost use Rattle.std.specs.Prelude.{◌≡◌, ◌≤◌, ◌+◌, ℕ, List, length, take, drop, IfOk, OnOk};
ghost use Rattle.log_store.specs.Disk.{AreApart, Elapses, LeavesMore, Leaves, Torn};
ghost use Rattle.log_file.specs.LogFile.{written};

/// A file: its length, and bytes that are read, written and synced. Each call may fail with the system's refusal.
///
/// A sync makes durable what was written through this value since the last sync that was refused, and nothing else. What was
/// written before stays readable, but a crash may take it back, whatever later syncs say.
///
/// What the clauses say holds where the disk has obeyed. Of a file of the operating system nothing is known: that it obeys is
/// what is left to trust.
pub trait Disk {
    type Refusal: Drop;

    // So far its calls did what is said of them.
    ghost Obeys: { Self → Type 0 };

    // The bytes that a read returns.
    ghost seen: { Self → List ℕ };

    // What a crash at this moment may leave.
    ghost may_leave: { Self → List ℕ → Type 0 };

    // Through this value these bytes were written from a place on since its last sync that was refused, and nothing was
    // written over them since. Of a file that was just opened it says nothing.
    ghost fresh: { Self → ℕ → List ℕ → Type 0 };

    // The moment, as a number that does not fall.
    ghost moment: { Self → ℕ };

    // What a crash at some moment since that one might have left.
    ghost left_since: { Self → ℕ → List ℕ → Type 0 };

    /// Returns how many bytes the file has.
    fn length(&self) -> Result<usize, Self::Refusal>
        ensures { Obeys self.now → IfOk result (λ count. count ≡ length (seen self.now)) };

    /// Reads bytes from a place on, as many as there is room for.
    fn read_at(&self, at: usize, into: &mut [u8]) -> Result<(), Self::Refusal>
        ensures { Obeys self.now → at + length into.old ≤ length (seen self.now)
            → OnOk result (into.new ≡ take (length into.old) (drop at (seen self.now))) };

    /// Writes bytes from a place on, over what is there and behind its end. Until a sync a crash leaves at each byte what it might
    /// have left before (behind the end, 0), or what was written; so is what is read where the write was refused.
    fn write_at(&mut self, at: usize, bytes: &[u8]) -> Result<(), Self::Refusal>
        ensures obeys { Obeys self.new → Obeys self.old }
        ensures written { Obeys self.new → at ≤ length (seen self.old)
            → OnOk result (seen self.new ≡ written (seen self.old) at bytes.now) }
        ensures torn { Obeys self.new → at ≤ length (seen self.old)
            → Torn at bytes.now (seen self.old) (seen self.new) }
        ensures crash { Obeys self.new → at ≤ length (seen self.old)
            → LeavesMore (Torn at bytes.now) (may_leave self.old) (may_leave self.new) }
        ensures fresh { Obeys self.new → at ≤ length (seen self.old)
            → OnOk result (fresh self.new at bytes.now) }
        ensures apart { Obeys self.new → at ≤ length (seen self.old) → (place : ℕ)
            (earlier : List ℕ) → AreApart place (length earlier) at (length bytes.now)
            → fresh self.old place earlier → fresh self.new place earlier }
        ensures time { Obeys self.new → Elapses (moment self.old) (moment self.new)
            (left_since self.old) (left_since self.new) (may_leave self.new) };

    /// Returns once a crash leaves what was written since the last refused sync.
    fn sync(&mut self) -> Result<(), Self::Refusal>
        ensures obeys { Obeys self.new → Obeys self.old }
        ensures durable { Obeys self.new → OnOk result ((at : ℕ) (bytes : List ℕ)
            → fresh self.old at bytes → Leaves at bytes (may_leave self.new)) }
        ensures same { Obeys self.new → seen self.new ≡ seen self.old }
        ensures crash { Obeys self.new → (left : List ℕ) → may_leave self.new left
            → may_leave self.old left }
        ensures time { Obeys self.new → Elapses (moment self.old) (moment self.new)
            (left_since self.old) (left_since self.new) (may_leave self.new) };

    // A crash at this moment is one since each moment before.
    ghost counts_now: { (disk : Self) (t : ℕ) (left : List ℕ) → t ≤ moment disk
        → may_leave disk left → left_since disk t left };

    // Since this moment there is no other.
    ghost only_now: { (disk : Self) (left : List ℕ) → left_since disk (moment disk) left
        → may_leave disk left };
}
