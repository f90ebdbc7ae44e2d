//! Copies of digests.

ghost use Rattle.std.specs.Prelude.{◌≡◌, ◌≤◌, ◌-◌, ◌^◌, length, map, replicate, IfOk, Ok};
ghost use Rattle.ark_base.specs.Outcome.{AnswersBy};
ghost use Rattle.ark_paths.specs.Index.{IsTreeSize};
ghost use Rattle.ark_paths.specs.Pair.{digest_eq};
ghost use Rattle.ark_paths.specs.Rows.{digests_of, rows_seen};

use ark_base::error::Error;
use ark_base::serialize::{DigestItem, Duplicate};
use std::alloc::Global;

/// Returns whether two digests are the same.
pub fn are_same<D: DigestItem>(a: &D, b: &D) -> bool
    ensures { result ≡ digest_eq (D.numbers a.now) (D.numbers b.now) }
{
    *a == *b
}

/// Copies a list of digests.
///
/// The only error is `OutOfMemory`.
pub fn copies_of<D: DigestItem>(alloc: Global, digests: &[D]) -> Result<Vec<D>, Error>
    ensures { AnswersBy (digests_of D.numbers) (Ok (map D.numbers digests.now)) result }
{
    let mut copies = Vec::with_capacity(alloc, digests.len())?;
    for digest in digests {
        copies.push(digest.duplicate(alloc)?)?;
    }
    Ok(copies)
}

/// Copies rows of digests.
///
/// The only error is `OutOfMemory`.
pub fn copies_of_rows<D: DigestItem>(alloc: Global, rows: &[Vec<D>]) -> Result<Vec<Vec<D>>, Error>
    ensures { AnswersBy (rows_seen D.numbers) (Ok (map (digests_of D.numbers) rows.now)) result }
{
    let mut copies = Vec::with_capacity(alloc, rows.len())?;
    for row in rows {
        copies.push(copies_of(alloc, row)?)?;
    }
    Ok(copies)
}

/// Returns the blank leaf digests of a tree of this height.
///
/// The only error is `OutOfMemory`.
pub fn blank_row<D: DigestItem>(alloc: Global, height: usize) -> Result<Vec<D>, Error>
    requires low { 2 ≤ height }
    requires high { height ≤ 64 }
    ensures digests { AnswersBy (digests_of D.numbers)
        (Ok (replicate (2 ^ (height - 1)) D.blank_numbers)) result }
    ensures size { IfOk result (λ digests. IsTreeSize (length digests.items)) }
{
    let size = 1usize << (height - 1);
    let mut digests = Vec::with_capacity(alloc, size)?;
    for _ in 0..size {
        digests.push(D::blank(alloc))?;
    }
    Ok(digests)
}
