//! The digests above the leaf digests, in one list.

ghost use Rattle.std.specs.Prelude.{◌≡◌, ◌<◌, ◌≤◌, ◌+◌, ◌-◌, ◌^◌, ◌++◌, List, [], length, map, take, drop, reverse, get_or, set};
ghost use Rattle.ark_paths.specs.Pair.{Digest};
ghost use Rattle.ark_paths.specs.Rows.{digests_of};
ghost use Rattle.ark_merkle.specs.LevelOrder.{rows_in_order, rows_in_turn, highest_row_first};

use ark_base::error::Error;
use ark_base::serialize::{DigestItem, Duplicate};
use ark_paths::digests::copies_of;
use std::alloc::Global;
use std::marker::Model;
use std::mem::swap;

/// Digests in level order: the root stands at 0, and below what stands at place k that at 2 k + 1 and 2 k + 2.
///
/// Contracts see their rows, the lowest first.
#[derive(Drop)]
pub struct Levels<D: DigestItem> {
    digests: Vec<D>,
    // How many rows there are.
    count: usize,
}

impl<D: DigestItem> Model for Levels<D> {
    ghost Value = { List (List Digest) };

    ghost view = { λ levels. rows_in_order levels.count (digests_of D.numbers levels.digests) };

    ghost invariant = { λ levels. length levels.digests.items + 1 ≡ 2 ^ levels.count };
}

// Where a place of a row stands.
fn position(count: usize, row: usize, place: usize) -> usize
    requires count { count ≤ 64 }
    requires row { row < count }
    requires place { place < 2 ^ (count - 1 - row) }
    ensures { result ≡ 2 ^ (count - 1 - row) - 1 + place }
{
    (1usize << (count - 1 - row)) - 1 + place
}

// The digests from one on, of which there are so many.
fn part_of<D: DigestItem>(digests: &[D], first: usize, count: usize) -> &[D]
    requires { first + count ≤ length digests.now }
    ensures { result.now ≡ take count (drop first digests.now) }
{
    &digests[first..first + count]
}

// Reverses the digests from one on, of which there are so many.
fn turn_back<D: DigestItem>(digests: &mut [D], first: usize, count: usize)
    requires { first + count ≤ length digests.old }
    ensures { digests.new ≡ take first digests.old ++ (reverse (take count (drop first digests.old))
        ++ drop count (drop first digests.old)) }
{
    digests[first..first + count].reverse();
}

// Puts rows that stand in turn, the lowest first, into level order: two moves a digest.
fn put_in_order<D: DigestItem>(digests: &mut [D], count: usize)
    requires fits { count ≤ 64 }
    requires whole { length digests.old + 1 ≡ 2 ^ count }
    ensures { digests.new ≡ highest_row_first count digests.old }
{
    digests.reverse();
    for level in 0..count {
        let first = (1usize << level) - 1;
        turn_back(digests, first, first + 1);
    }
}

impl<D: DigestItem> Levels<D> {
    /// Returns the levels of digests that stand row by row, the lowest row first, the root last.
    pub fn of_rows(mut digests: Vec<D>, count: usize) -> Levels<D>
        requires { length digests.items + 1 ≡ 2 ^ count }
        ensures { result ≡ rows_in_turn count (digests_of D.numbers digests) }
    {
        put_in_order(&mut digests, count);
        Levels { digests, count }
    }

    /// Returns the count of rows, at most 64.
    pub fn len(&self) -> usize
        ensures count { result ≡ length self.now }
        ensures most { result ≤ 64 }
    {
        self.count
    }

    /// Returns the digest at a place of a row.
    pub fn at(&self, row: usize, place: usize) -> &D
        requires row { row < length self.now }
        requires place { place < length (get_or self.now row []) }
        ensures { D.numbers result.now ≡ get_or (get_or self.now row []) place [] }
    {
        &self.digests[position(self.count, row, place)]
    }

    /// Returns the digests of a row.
    pub fn row(&self, row: usize) -> &[D]
        requires { row < length self.now }
        ensures { map D.numbers result.now ≡ get_or self.now row [] }
    {
        let first = position(self.count, row, 0);
        part_of(&self.digests, first, first + 1)
    }

    /// Exchanges the digest at a place of a row with another one.
    pub fn exchange(&mut self, row: usize, place: usize, digest: &mut D)
        requires row { row < length self.old }
        requires place { place < length (get_or self.old row []) }
        ensures { self.new
            ≡ set self.old row (set (get_or self.old row []) place (D.numbers digest.old)) }
    {
        swap(&mut self.digests[position(self.count, row, place)], digest);
    }
}

impl<D: DigestItem> Duplicate for Levels<D> {
    ghost Data = { List (List Digest) };

    ghost seen = { λ levels. levels };

    fn duplicate(&self, alloc: Global) -> Result<Levels<D>, Error> {
        Ok(Levels {
            digests: copies_of(alloc, &self.digests)?,
            count: self.count,
        })
    }
}
