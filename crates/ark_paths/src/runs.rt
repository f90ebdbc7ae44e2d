//! Leaves and couples in runs: what a hasher hashes together of a run, and the others one by one.
//!
//! A run is a list of references, so that its members may lie apart. Whoever hashes many makes runs of at most `RUN`.

ghost use Rattle.std.specs.Prelude.{◌≡◌, ◌+◌, ◌≤◌, length, map, take, drop, Ok};
ghost use Rattle.ark_base.specs.Outcome.{AnswersBy};
ghost use Rattle.ark_crh.specs.Ahead.{lent, lent_couples, of_couple};
ghost use Rattle.ark_paths.specs.Root.{all_hashes};
ghost use Rattle.ark_paths.specs.Rows.{couples, digests_of, row_above};

use crate::hasher::TreeHasher;
use ark_base::error::Error;
use ark_base::serialize::{DigestItem, Numbered};
use ark_crh::ahead::lend;
use std::alloc::Global;

/// How many leaves or couples a run has at most.
pub const RUN: usize = 256;

/// Returns so many items of a list from one on.
pub fn part_of<A>(items: &[A], first: usize, count: usize) -> &[A]
    requires { first + count ≤ length items.now }
    ensures { result.now ≡ take count (drop first items.now) }
{
    &items[first..first + count]
}

/// Lends the neighbours in a row. The only error is `OutOfMemory`.
pub fn lend_neighbours<D: Numbered>(alloc: Global, row: &[D]) -> Result<Vec<(&D, &D)>, Error>
    ensures { AnswersBy (λ run. lent_couples D.numbers run.items)
        (Ok (couples (map D.numbers row.now))) result }
{
    let mut run = Vec::with_capacity(alloc, row.len() / 2)?;
    'couples: for couple in 0..row.len() / 2 {
        run.push((&row[2 * couple], &row[2 * couple + 1]))?;
    }
    Ok(run)
}

/// Returns the digests of leaves. Errors: the first of the hasher's `leaf`, from the left; `OutOfMemory`.
pub fn leaf_digests<L: DigestItem, D: DigestItem, T: TreeHasher<L, D>>(
    alloc: Global,
    hasher: &T,
    leaves: &[&T::Leaf],
) -> Result<Vec<L>, Error>
    ensures { AnswersBy (digests_of L.numbers) (all_hashes (T.hashes hasher.now).leaf
        (lent leaves.now)) result }
{
    let mut digests = hasher.leaf_ahead(alloc, leaves)?;
    'rest: for place in digests.len()..leaves.len() {
        let next = hasher.leaf(alloc, leaves[place])?;
        digests.push(next)?;
    }
    Ok(digests)
}

/// Returns the digests of couples of leaf digests. Errors: the first of the hasher's `bottom`, from the left;
/// `OutOfMemory`.
pub fn bottom_digests<L: DigestItem, D: DigestItem, T: TreeHasher<L, D>>(
    alloc: Global,
    hasher: &T,
    couples: &[(&L, &L)],
) -> Result<Vec<D>, Error>
    ensures { AnswersBy (digests_of D.numbers)
        (all_hashes (of_couple (T.hashes hasher.now).pair.bottom)
        (lent_couples L.numbers couples.now)) result }
{
    let mut digests = hasher.bottom_ahead(alloc, couples)?;
    'rest: for place in digests.len()..couples.len() {
        let couple = couples[place];
        let next = hasher.bottom(alloc, couple.0, couple.1)?;
        digests.push(next)?;
    }
    Ok(digests)
}

/// Returns the digests of couples of digests above the leaves. Errors: the first of the hasher's `upper`, from the left;
/// `OutOfMemory`.
pub fn upper_digests<L: DigestItem, D: DigestItem, T: TreeHasher<L, D>>(
    alloc: Global,
    hasher: &T,
    couples: &[(&D, &D)],
) -> Result<Vec<D>, Error>
    ensures { AnswersBy (digests_of D.numbers)
        (all_hashes (of_couple (T.hashes hasher.now).pair.upper)
        (lent_couples D.numbers couples.now)) result }
{
    let mut digests = hasher.upper_ahead(alloc, couples)?;
    'rest: for place in digests.len()..couples.len() {
        let couple = couples[place];
        let next = hasher.upper(alloc, couple.0, couple.1)?;
        digests.push(next)?;
    }
    Ok(digests)
}

/// Returns the digests of leaves that stand in a row. Errors: as `leaf_digests`.
pub fn leaf_row<L: DigestItem, D: DigestItem, T: TreeHasher<L, D>>(
    alloc: Global,
    hasher: &T,
    leaves: &[T::Leaf],
) -> Result<Vec<L>, Error>
    ensures { AnswersBy (digests_of L.numbers) (all_hashes (T.hashes hasher.now).leaf leaves.now)
        result }
{
    let run = lend(alloc, leaves)?;
    leaf_digests(alloc, hasher, &run)
}

/// Returns the hashes of the neighbours in a row of leaf digests. Errors: as `bottom_digests`.
pub fn bottom_row<L: DigestItem, D: DigestItem, T: TreeHasher<L, D>>(
    alloc: Global,
    hasher: &T,
    row: &[L],
) -> Result<Vec<D>, Error>
    ensures { AnswersBy (digests_of D.numbers) (row_above (T.hashes hasher.now).pair.bottom
        (map L.numbers row.now)) result }
{
    let run = lend_neighbours(alloc, row)?;
    bottom_digests(alloc, hasher, &run)
}

/// Returns the hashes of the neighbours in a row of digests above the leaves. Errors: as `upper_digests`.
pub fn upper_row<L: DigestItem, D: DigestItem, T: TreeHasher<L, D>>(
    alloc: Global,
    hasher: &T,
    row: &[D],
) -> Result<Vec<D>, Error>
    ensures { AnswersBy (digests_of D.numbers) (row_above (T.hashes hasher.now).pair.upper
        (map D.numbers row.now)) result }
{
    let run = lend_neighbours(alloc, row)?;
    upper_digests(alloc, hasher, &run)
}

/// Returns the digests of leaves, which are hashed in runs. Errors: as `leaf_digests`.
pub fn leaves_in_runs<L: DigestItem, D: DigestItem, T: TreeHasher<L, D>>(
    alloc: Global,
    hasher: &T,
    leaves: &[T::Leaf],
) -> Result<Vec<L>, Error>
    ensures { AnswersBy (digests_of L.numbers) (all_hashes (T.hashes hasher.now).leaf leaves.now)
        result }
{
    let mut digests = Vec::with_capacity(alloc, leaves.len())?;
    let mut first = 0;
    'runs: while first < leaves.len() {
        let count = (leaves.len() - first).min(RUN);
        let mut made = leaf_row(alloc, hasher, part_of(leaves, first, count))?;
        digests.append(&mut made)?;
        first += count;
    }
    Ok(digests)
}

/// Returns the digests of couples of leaf digests, which are hashed in runs. Errors: as `bottom_digests`.
pub fn bottom_in_runs<L: DigestItem, D: DigestItem, T: TreeHasher<L, D>>(
    alloc: Global,
    hasher: &T,
    couples: &[(&L, &L)],
) -> Result<Vec<D>, Error>
    ensures { AnswersBy (digests_of D.numbers)
        (all_hashes (of_couple (T.hashes hasher.now).pair.bottom)
        (lent_couples L.numbers couples.now)) result }
{
    let mut digests = Vec::with_capacity(alloc, couples.len())?;
    let mut first = 0;
    'runs: while first < couples.len() {
        let count = (couples.len() - first).min(RUN);
        let mut made = bottom_digests(alloc, hasher, part_of(couples, first, count))?;
        digests.append(&mut made)?;
        first += count;
    }
    Ok(digests)
}

/// Returns the digests of couples of digests above the leaves, which are hashed in runs. Errors: as `upper_digests`.
pub fn upper_in_runs<L: DigestItem, D: DigestItem, T: TreeHasher<L, D>>(
    alloc: Global,
    hasher: &T,
    couples: &[(&D, &D)],
) -> Result<Vec<D>, Error>
    ensures { AnswersBy (digests_of D.numbers)
        (all_hashes (of_couple (T.hashes hasher.now).pair.upper)
        (lent_couples D.numbers couples.now)) result }
{
    let mut digests = Vec::with_capacity(alloc, couples.len())?;
    let mut first = 0;
    'runs: while first < couples.len() {
        let count = (couples.len() - first).min(RUN);
        let mut made = upper_digests(alloc, hasher, part_of(couples, first, count))?;
        digests.append(&mut made)?;
        first += count;
    }
    Ok(digests)
}
