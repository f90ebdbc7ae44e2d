//! The rows that more leaves put behind those of a log, hashed level by level, so that the hash can make many pairs together.

ghost use Rattle.std.specs.Prelude.{◌≡◌, ◌⊎◌, ◌<◌, ◌+◌, ◌*◌, ◌/◌, ◌++◌, length, map, drop, IfOk, IfErr, Ok, Err};
ghost use Rattle.ark_base.specs.declared.error.Error.TheVariants.{OutOfMemory};
ghost use Rattle.ark_base.specs.Outcome.{AnswersBy};
ghost use Rattle.ark_crh.specs.Ahead.{lent_couples};
ghost use Rattle.ark_paths.specs.Rows.{couples, digests_of};
ghost use Rattle.merkle_log.specs.Append.{RefusesRow};
ghost use Rattle.merkle_log.specs.Rising.{left_of, with_rows};
ghost use Rattle.merkle_log.specs.Stored.{row_at, row_pairs, IsStored};

use crate::rows::Rows;
use crate::stored::Stored;
use ark_base::error::Error;
use ark_base::serialize::DigestItem;
use ark_paths::hasher::TreeHasher;
use ark_paths::runs::{lend_neighbours, upper_digests};
use std::alloc::Global;
use std::vec::IntoIter;

// Lends the couples that digests behind a row complete: its last digest is in one if it has none on its right. The only error is
// `OutOfMemory`.
fn lend_completed<'a, D: DigestItem>(
    alloc: Global,
    stored: &'a Stored<D>,
    level: usize,
    count: usize,
    row: &'a [D],
) -> Result<Vec<(&'a D, &'a D)>, Error>
    requires count { count ≡ length (row_at stored.now level) }
    requires some { 0 < length row.now }
    ensures { AnswersBy (λ run. lent_couples D.numbers run.items)
        (Ok (couples (drop (2 * (count / 2)) (row_at stored.now level) ++ map D.numbers row.now)))
        result }
{
    if count % 2 == 0 {
        return lend_neighbours(alloc, row);
    }
    let mut run = Vec::with_capacity(alloc, row.len() / 2 + 1)?;
    run.push((stored.at(level, count - 1), &row[0]))?;
    run.append(&mut lend_neighbours(alloc, &row[1..])?)?;
    Ok(run)
}

// Returns the digests that others behind a row put behind the row above. Errors: that of the first pair that the hash refuses;
// `OutOfMemory`.
fn row_over<D: DigestItem, T: TreeHasher<D, D>>(
    alloc: Global,
    hasher: &T,
    stored: &Stored<D>,
    level: usize,
    count: usize,
    row: &[D],
) -> Result<Vec<D>, Error>
    requires count { count ≡ length (row_at stored.now level) }
    requires some { 0 < length row.now }
    requires stored { IsStored (T.hashes hasher.now).pair.upper (row_at stored.now) }
    ensures hashed { IfOk result (λ above. row_pairs (T.hashes hasher.now).pair.upper
        (row_at stored.now level ++ map D.numbers row.now) ≡ Ok (row_at stored.now (level + 1) ++
        digests_of D.numbers above)) }
    ensures refused { IfErr result (λ error. (error ≡ OutOfMemory)
        ⊎ (row_pairs (T.hashes hasher.now).pair.upper
        (row_at stored.now level ++ map D.numbers row.now) ≡ Err error)) }
{
    let run = lend_completed(alloc, stored, level, count, row)?;
    upper_digests(alloc, hasher, &run)
}

/// Returns the digests of leaves and those that they complete behind a log's rows, the lowest row first. Errors: that of the
/// first pair, of the lowest row with one, that the hash refuses; `OutOfMemory`.
pub fn rows_over<D: DigestItem, T: TreeHasher<D, D>>(
    alloc: Global,
    hasher: &T,
    stored: &Stored<D>,
    leaves: Vec<D>,
) -> Result<Vec<IntoIter<D>>, Error>
    requires { IsStored (T.hashes hasher.now).pair.upper (row_at stored.now) }
    ensures lowest { IfOk result (λ rows. left_of D.numbers rows.items 0 ≡ digests_of D.numbers
        leaves) }
    ensures hashed { IfOk result (λ rows. IsStored (T.hashes hasher.now).pair.upper
        (with_rows (row_at stored.now) (left_of D.numbers rows.items))) }
    ensures refused { IfErr result (λ error. (error ≡ OutOfMemory)
        ⊎ RefusesRow (T.hashes hasher.now).pair.upper
        (row_at stored.now 0 ++ digests_of D.numbers leaves) error) }
{
    let mut rows = Vec::new(alloc);
    let mut count = stored.size();
    let mut row = leaves;
    'levels: while row.len() > 0 {
        let above = row_over(alloc, hasher, stored, rows.len(), count, &row)?;
        rows.push(row.into_iter())?;
        row = above;
        count /= 2;
    }
    Ok(rows)
}
