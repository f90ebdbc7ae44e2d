//! Frontiers of lists that stand one behind the other: parts of a list that were hashed apart.

ghost use Rattle.std.specs.Prelude.{◌≡◌, ◌⊎◌, ◌↔◌, ◌+◌, ◌++◌, true, List, IfErr, OnErr, OnOk};
ghost use Rattle.ark_base.specs.declared.error.Error.TheVariants.{OutOfMemory};
ghost use Rattle.ark_paths.specs.Pair.{Digest};
ghost use Rattle.merkle_log.specs.Frontier.{CanJoin, IsFrontier, RefusesTree};

use crate::digests::copy_of;
use crate::frontier::Frontier;
use ark_base::error::Error;
use ark_base::serialize::DigestItem;
use ark_paths::digests::copies_of;
use ark_paths::hasher::TreeHasher;
use std::alloc::Global;

impl<D: DigestItem, T: TreeHasher<D, D>> Frontier<D, T> {
    /// Returns whether the digests of another frontier can stand behind these: the size is a multiple of the largest power of
    /// two that is at most the other's size, and both sizes together are below 2^64.
    pub fn can_join(&self, other: &Frontier<D, T>) -> bool
        ensures { result ≡ true ↔ CanJoin self.now.size other.now.size }
    {
        let is_aligned = other.size == 0 || self.size % (1 << other.size.ilog2()) == 0;
        is_aligned && self.size.checked_add(other.size).is_some()
    }

    /// Puts the digests of another frontier behind these, by the roots of its trees. Both are hashed by this one's hasher.
    /// So parts of 2^k digests, and a shorter one behind them, are hashed apart and joined from the left.
    ///
    /// Errors, which leave the frontier as it was: that of the first pair that the hash refuses; `OutOfMemory`.
    pub fn join(&mut self, alloc: Global, other: &Frontier<D, T>) -> Result<(), Error>
        requires { CanJoin self.old.size other.now.size }

        // The frontiers of two lists become that of the one list with the other behind.
        ensures joined { let hash = (T.hashes self.old.hasher).pair.upper in
            OnOk result ((digests more : List Digest)
            → IsFrontier hash digests self.old.size self.old.peaks
            → IsFrontier hash more other.now.size other.now.peaks
            → IsFrontier hash (digests ++ more) self.new.size self.new.peaks) }
        ensures size { OnOk result (self.new.size ≡ self.old.size + other.now.size) }
        ensures hasher { self.new.hasher ≡ self.old.hasher }
        ensures empty { self.new.empty ≡ self.old.empty }
        ensures kept { OnErr result (self.new ≡ self.old) }
        ensures refused { IfErr result (λ error. (error ≡ OutOfMemory)
            ⊎ RefusesTree (T.hashes self.old.hasher).pair.upper (self.old.size, self.old.peaks)
            (other.now.size, other.now.peaks) error) }
    {
        let (size, peaks) = (self.size, copies_of(alloc, &self.peaks)?);
        let joined = self.join_each(alloc, other);
        if joined.is_err() {
            self.size = size;
            self.peaks = peaks;
        }
        joined
    }

    // Acts as `join`. Where it returns an error, some of the trees are put behind these.
    fn join_each(&mut self, alloc: Global, other: &Frontier<D, T>) -> Result<(), Error>
        requires { CanJoin self.old.size other.now.size }
        ensures joined { let hash = (T.hashes self.old.hasher).pair.upper in
            OnOk result ((digests more : List Digest)
            → IsFrontier hash digests self.old.size self.old.peaks
            → IsFrontier hash more other.now.size other.now.peaks
            → IsFrontier hash (digests ++ more) self.new.size self.new.peaks) }
        ensures size { OnOk result (self.new.size ≡ self.old.size + other.now.size) }
        ensures hasher { self.new.hasher ≡ self.old.hasher }
        ensures empty { self.new.empty ≡ self.old.empty }
        ensures refused { IfErr result (λ error. (error ≡ OutOfMemory)
            ⊎ RefusesTree (T.hashes self.old.hasher).pair.upper (self.old.size, self.old.peaks)
            (other.now.size, other.now.peaks) error) }
    {
        let mut left = other.size;
        'trees: for place in 0..other.peaks.len() {
            let level = left.ilog2();
            let root = copy_of(alloc, &other.peaks[place])?;
            self.append_subtree(alloc, level, root)?;
            left -= 1 << level;
        }
        Ok(())
    }
}
