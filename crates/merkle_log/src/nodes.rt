//! What hashes the pairs of a log: by a hash that may refuse, with refusals of its own, or by one that refuses nothing.

ghost use Rattle.std.specs.Prelude.{◌≡◌, ◌+◌, ℕ, min, Ok};
ghost use Rattle.ark_base.specs.declared.error.Error.{Error};
ghost use Rattle.merkle_log.specs.Given.{GivesBy};
ghost use Rattle.merkle_log.specs.Log.{NodeHash};

use ark_base::serialize::DigestItem;

/// Hashes pairs of digests, counts them, and copies digests.
pub trait NodeHasher<D: DigestItem> {
    /// Why it gives no digest: an empty enum where it always gives one.
    type Refusal: Drop;

    // What it answers for pairs. No call changes it.
    ghost hash: { Self → NodeHash };

    // How many pairs it hashed.
    ghost counted: { Self → ℕ };

    // The error that a refusal stands for.
    ghost why: { Self.Refusal → Error };

    /// Returns the hash of two digests, left first.
    fn node(&mut self, left: &D, right: &D) -> Result<D, Self::Refusal>
        ensures answer { GivesBy why D.numbers (hash self.old (D.numbers left.now)
            (D.numbers right.now)) result }
        ensures same { hash self.new ≡ hash self.old }
        ensures counts { counted self.new ≡ min (counted self.old + 1) 18446744073709551615 };

    /// Returns a copy of a digest.
    fn copied(&self, digest: &D) -> Result<D, Self::Refusal>
        ensures { GivesBy why D.numbers (Ok (D.numbers digest.now)) result };
}
