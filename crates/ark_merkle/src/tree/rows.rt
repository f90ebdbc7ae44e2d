//! What is read of the rows above the leaf digests.

ghost use Rattle.std.specs.Prelude.{◌≡◌, ◌≤◌, ◌-◌, length, Ok};
ghost use Rattle.ark_base.specs.Outcome.{AnswersBy};
ghost use Rattle.ark_paths.specs.Rows.{HoldsIndex, beside_in, digests_of};

use crate::tree::levels::Levels;
use ark_base::error::Error;
use ark_base::serialize::{DigestItem, Duplicate};
use ark_paths::index::neighbour_of;
use std::alloc::Global;

/// Returns the digests beside the way of an index in the first rows but the last of these, from above down.
pub fn digests_beside<D: DigestItem>(
    alloc: Global,
    rows: &Levels<D>,
    count: usize,
    index: usize,
) -> Result<Vec<D>, Error>
    requires holds { HoldsIndex rows.now index }
    requires count { count ≤ length rows.now }
    ensures { AnswersBy (digests_of D.numbers) (Ok (beside_in rows.now (count - 1) index)) result }
{
    let mut digests = Vec::with_capacity(alloc, count.saturating_sub(1))?;
    // From the lowest row up, whose digests take longest to come from memory.
    for level in 0..count.saturating_sub(1) {
        let place = neighbour_of(index >> (level + 1));
        digests.push(rows.at(level, place).duplicate(alloc)?)?;
    }
    digests.reverse();
    Ok(digests)
}
