//! The digests above the leaves, row by row.

ghost use Rattle.std.specs.Prelude.{◌≡◌, ◌+◌, ◌-◌, ◌^◌, ℕ, suc, map, length, IfOk};
ghost use Rattle.ark_base.specs.Outcome.{Answers, AnswersBy};
ghost use Rattle.ark_paths.specs.Index.{IsTreeSize};
ghost use Rattle.ark_paths.specs.Root.{all_hashes, upper_levels};
ghost use Rattle.ark_paths.specs.Rows.{row_above, rows_from, rows_of, digests_of};
ghost use Rattle.ark_merkle.specs.LevelOrder.{rows_in_turn};

use crate::tree::levels::Levels;
use ark_base::error::Error;
use ark_base::serialize::DigestItem;
use ark_paths::hasher::TreeHasher;
use ark_paths::runs::{RUN, bottom_row, leaves_in_runs, part_of, upper_row};
use std::alloc::Global;

/// Returns the digests of leaves.
pub fn hash_all<L: DigestItem, D: DigestItem, T: TreeHasher<L, D>>(
    alloc: Global,
    hasher: &T,
    leaves: &[T::Leaf],
) -> Result<Vec<L>, Error>
    ensures digests { AnswersBy (digests_of L.numbers) (all_hashes (T.hashes hasher.now).leaf
        leaves.now) result }
    ensures size { IfOk result (λ digests.
        IsTreeSize (length leaves.now) → IsTreeSize (length digests.items)) }
{
    leaves_in_runs(alloc, hasher, leaves)
}

// The hashes of the neighbours among leaf digests, in a list with room for all digests above them.
fn pair_leaves<L: DigestItem, D: DigestItem, T: TreeHasher<L, D>>(
    alloc: Global,
    hasher: &T,
    digests: &[L],
) -> Result<Vec<D>, Error>
    ensures { AnswersBy (digests_of D.numbers) (row_above (T.hashes hasher.now).pair.bottom
        (map L.numbers digests.now)) result }
{
    let mut row = Vec::with_capacity(alloc, digests.len().saturating_sub(1))?;
    let mut couple = 0;
    'runs: while couple < digests.len() / 2 {
        let count = (digests.len() / 2 - couple).min(RUN);
        let mut made = bottom_row(alloc, hasher, part_of(digests, 2 * couple, 2 * count))?;
        row.append(&mut made)?;
        couple += count;
    }
    Ok(row)
}

// A row, and behind it the rows above it: the neighbours in the list are hashed from its first ones on, and each hash is put
// behind it.
fn pair_rows<L: DigestItem, D: DigestItem, T: TreeHasher<L, D>>(
    alloc: Global,
    hasher: &T,
    mut digests: Vec<D>,
) -> Result<Vec<D>, Error>
    ensures rows { (k : ℕ) → length (digests_of D.numbers digests) ≡ 2 ^ k → AnswersBy
        (λ all. rows_in_turn (suc k) (digests_of D.numbers all))
        (rows_from (T.hashes hasher.now).pair.upper k (digests_of D.numbers digests)) result }
    ensures whole { IfOk result
        (λ all. length all.items ≡ length digests.items + (length digests.items - 1)) }
{
    let mut couple = 0;
    // As many couples as are there by now.
    'runs: while couple < digests.len() / 2 {
        let count = (digests.len() / 2 - couple).min(RUN);
        let mut made = upper_row(alloc, hasher, part_of(&digests, 2 * couple, 2 * count))?;
        digests.append(&mut made)?;
        couple += count;
    }
    Ok(digests)
}

/// Returns the rows above leaf digests.
pub fn rows_above<L: DigestItem, D: DigestItem, T: TreeHasher<L, D>>(
    alloc: Global,
    hasher: &T,
    digests: &[L],
) -> Result<Levels<D>, Error>
    requires { IsTreeSize (length digests.now) }
    ensures { Answers (rows_of (T.hashes hasher.now).pair
        (upper_levels (map L.numbers digests.now)) (map L.numbers digests.now)) result }
{
    let row = pair_leaves(alloc, hasher, digests)?;
    let rows = pair_rows(alloc, hasher, row)?;
    Ok(Levels::of_rows(rows, digests.len().ilog2() as usize))
}
