//! The list of a log: the digests of all complete places, in the order in which they were completed.

ghost use Rattle.std.specs.Prelude.{◌≡◌, ◌⊎◌, ◌<◌, ◌≤◌, ◌+◌, ◌-◌, ◌*◌, ◌^◌, ◌++◌, ℕ, List, [], length, map, take, get_or, IfOk, IfErr, OnOk, OnErr, Ok};
ghost use Rattle.ark_base.specs.declared.error.Error.TheVariants.{OutOfMemory};
ghost use Rattle.ark_paths.specs.Pair.{Digest};
ghost use Rattle.ark_paths.specs.Rows.{digests_of};
ghost use Rattle.merkle_log.specs.Append.{Appends, Completes, GrowsTo, IsWholeList, RefusesCarry, counted_after, pair_count};
ghost use Rattle.merkle_log.specs.Kept.{front};
ghost use Rattle.merkle_log.specs.Rising.{left_of, with_rows, AreOfSize};
ghost use Rattle.merkle_log.specs.Stored.{position, stored_count, StoredValue, row_at};

use crate::laying::lay_rows;
use crate::places::digest_at;
use crate::rows::Rows;
use ark_base::error::Error;
use ark_base::serialize::DigestItem;
use ark_paths::PairHasher;
use std::alloc::Global;
use std::marker::Model;
use std::vec::IntoIter;

/// The digests of a log's complete places, and the count of its leaves.
#[derive(Drop)]
pub struct Stored<D: DigestItem> {
    size: usize,
    digests: Vec<D>,
}

impl<D: DigestItem> Model for Stored<D> {
    ghost Value = { StoredValue };

    ghost view = { λ stored. record {
      size = stored.size;
      digests = digests_of D.numbers stored.digests;
    } };

    ghost invariant = { λ stored. length stored.digests.items ≡ stored_count stored.size };
}

// Puts a digest behind the others, and behind it those of the places that it completes. An error may leave some of them.
fn complete<D: DigestItem, W: PairHasher<D, D>>(
    alloc: Global,
    hasher: &mut W,
    digests: &mut Vec<D>,
    size: usize,
    digest: D,
) -> Result<(), Error>
    requires whole { length digests.old.items ≡ stored_count size }
    requires counted { W.counted hasher.old < 2 ^ 64 }
    ensures completed { OnOk result (Completes ((W.pair hasher.old).upper) size
        (digests_of D.numbers digests.old) (D.numbers digest) (digests_of D.numbers digests.new)) }
    ensures front { take (length digests.old.items) digests.new.items ≡ digests.old.items }
    ensures refused { IfErr result (λ error. (error ≡ OutOfMemory)
        ⊎ RefusesCarry (W.pair hasher.old).upper
        (row_at (front size (digests_of D.numbers digests.old))) (D.numbers digest) error) }
    ensures same { W.pair hasher.new ≡ W.pair hasher.old }
    ensures counts { OnOk result (W.counted hasher.new ≡ counted_after (W.counted hasher.old)
        (pair_count (size + 1) - pair_count size)) }
{
    digests.push(digest)?;
    let mut level = 0;
    let mut left = size;
    'odd: while left % 2 == 1 {
        let last = digests.len() - 1;
        let up = hasher.upper(alloc, digest_at(digests, level, left - 1), &digests[last])?;
        digests.push(up)?;
        left /= 2;
        level += 1;
    }
    Ok(())
}

impl<D: DigestItem> Stored<D> {
    /// Returns the list of no leaves.
    pub fn new(alloc: Global) -> Stored<D>
        ensures { result ≡ record { size = 0; digests = [] } }
    {
        Stored {
            size: 0,
            digests: Vec::new(alloc),
        }
    }

    /// Returns the count of leaves.
    pub fn size(&self) -> usize
        ensures { result ≡ self.now.size }
    {
        self.size
    }

    /// Puts a digest behind the others, and behind it those of the places that it completes. An error leaves the list.
    pub fn append<W: PairHasher<D, D>>(
        &mut self,
        alloc: Global,
        hasher: &mut W,
        digest: D,
    ) -> Result<(), Error>
        requires { W.counted hasher.old < 2 ^ 64 }
        ensures appended { OnOk result (Appends ((W.pair hasher.old).upper) self.old
            (D.numbers digest) self.new) }
        ensures kept { OnErr result (self.new ≡ self.old) }
        ensures refused { IfErr result (λ error. (error ≡ OutOfMemory)
            ⊎ RefusesCarry (W.pair hasher.old).upper (row_at self.old) (D.numbers digest)
            error) }
        ensures same { W.pair hasher.new ≡ W.pair hasher.old }
        ensures counts { OnOk result (W.counted hasher.new ≡ counted_after (W.counted hasher.old)
            (pair_count self.new.size - pair_count self.old.size)) }
        ensures fits { self.new.size < 2 ^ 64 }
    {
        let count = self.digests.len();
        match complete(alloc, hasher, &mut self.digests, self.size, digest) {
            Ok(()) => {
                self.size += 1;
                Ok(())
            }
            Err(error) => {
                self.digests.truncate(count);
                Err(error)
            }
        }
    }

    /// Lays rows behind its own, so many digests of leaves and all of those that they complete; returns how many these are. An
    /// error, `OutOfMemory`, leaves the list.
    pub fn lay(&mut self, count: usize, rows: &mut [IntoIter<D>]) -> Result<usize, Error>
        requires { AreOfSize (self.old.size + count)
            (with_rows (row_at self.old) (left_of D.numbers rows.old)) }
        ensures laid { OnOk result ((level : ℕ) → row_at self.new level ≡ with_rows
            (row_at self.old) (left_of D.numbers rows.old) level) }
        ensures whole { IsWholeList self.new }
        ensures extends { GrowsTo self.old self.new }
        ensures refused { IfErr result (λ error. error ≡ OutOfMemory) }
        ensures count { IfOk result
            (λ pairs. pair_count self.old.size + pairs ≡ pair_count self.new.size) }
        ensures fits { self.new.size < 2 ^ 64 }
    {
        let before = self.digests.len();
        match lay_rows(&mut self.digests, self.size, count, rows) {
            Ok(()) => {
                self.size += count;
                Ok(self.digests.len() - before - count)
            }
            Err(error) => {
                self.digests.truncate(before);
                Err(error)
            }
        }
    }

    /// Allocates for more leaves at once.
    pub fn reserve(&mut self, leaves: usize) -> Result<(), Error>
        ensures same { self.new ≡ self.old }
        ensures refused { IfErr result (λ error. error ≡ OutOfMemory) }
    {
        let size = self.size.saturating_add(leaves);
        let count = (size - size.count_ones() as usize).saturating_add(size);
        self.digests
            .reserve(count.saturating_sub(self.digests.len()))?;
        Ok(())
    }

    /// Cuts the list back to fewer leaves.
    pub fn cut(&mut self, size: usize)
        requires { size ≤ self.old.size }
        ensures { self.new ≡ record {
          size = size;
          digests = take (stored_count size) self.old.digests;
        } }
    {
        self.size = size;
        let count = size - size.count_ones() as usize + size;
        self.digests.truncate(count);
    }
}

impl<D: DigestItem> Rows<D> for Stored<D> {
    ghost stored = { λ stored. stored };

    ghost Holds = { λ _ _ _. Unit {0} };

    fn at(&self, level: usize, place: usize) -> &D {
        digest_at(&self.digests, level, place)
    }
}
