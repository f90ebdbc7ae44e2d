//! Where a follower keeps the head at which it was left.

ghost use Rattle.std.specs.Prelude.{◌≡◌, ◌⊎◌, ℕ, IfOk, OnOk, ⊤};
ghost use Rattle.log_tiles.specs.Followers.{LeavesAlone, TakesTime};
ghost use Rattle.log_tiles.specs.declared.following.Head.{Head};

use crate::following::Head;
use merkle_log::kept::Never;

/// A file that states one head, by the note of a checkpoint, and that is replaced as a whole.
///
/// What the clauses say holds where the file has obeyed. Of a file of the operating system nothing is known: that it obeys is
/// what is left to trust.
pub trait HeadFile {
    type Refusal: Drop;

    // So far its calls did what is said of them.
    ghost Obeys: { Self → Type 0 };

    // The head that a read returns.
    ghost holds: { Self → Head };

    // What a crash at this moment may leave.
    ghost may_leave: { Self → Head → Type 0 };

    // The moment, as a number that does not fall.
    ghost moment: { Self → ℕ };

    // What a crash at some moment since that one might have left.
    ghost left_since: { Self → ℕ → Head → Type 0 };

    /// Returns the head that the file states: that of a log of no entries where there is no file.
    fn read(&self) -> Result<Head, Self::Refusal>
        ensures { Obeys self.now → IfOk result (λ head. head ≡ holds self.now) };

    /// Replaces the file by a note that states this head, and returns once a crash leaves that. Until then, and after an error, a
    /// read returns the old or the new head, and a crash leaves the new one or what it might have left before: that need not be
    /// what a read returned.
    fn replace(&mut self, head: &Head, note: &[u8]) -> Result<(), Self::Refusal>
        ensures obeys { Obeys self.new → Obeys self.old }
        ensures held { Obeys self.new
            → (holds self.new ≡ holds self.old) ⊎ (holds self.new ≡ head.now) }
        ensures written { Obeys self.new → OnOk result (holds self.new ≡ head.now) }
        ensures durable { Obeys self.new → OnOk result (LeavesAlone head.now (may_leave self.new)) }
        ensures crash { Obeys self.new → (left : Head) → may_leave self.new left
            → may_leave self.old left ⊎ (left ≡ head.now) }
        ensures time { Obeys self.new → TakesTime (moment self.old) (moment self.new)
            (left_since self.old) (left_since self.new)
            (λ left. may_leave self.old left ⊎ (left ≡ head.now)) };

    // Since this moment there is no other.
    ghost only_now: { (file : Self) (left : Head) → left_since file (moment file) left
        → may_leave file left };
}

/// A head in a caller's hands, who writes it down: nothing of it is lost. A step begins with it, and ends with the next one.
#[derive(Clone, Copy)]
pub struct HeldHead {
    pub head: Head,
}

impl HeadFile for HeldHead {
    type Refusal = Never;

    ghost Obeys = { λ _. ⊤ };

    ghost holds = { λ own. own.head };

    ghost may_leave = { λ own left. left ≡ own.head };

    ghost moment = { λ _. 0 };

    ghost left_since = { λ own _ left. left ≡ own.head };

    ghost only_now = { λ _ _ since. since };

    fn read(&self) -> Result<Head, Never> {
        Ok(self.head)
    }

    fn replace(&mut self, head: &Head, _note: &[u8]) -> Result<(), Never> {
        self.head = *head;
        Ok(())
    }
}
