//! Rows that are laid behind those of a log's list: each digest where the order of the list has it.

ghost use Rattle.std.specs.Prelude.{◌≡◌, ◌≢◌, ◌<◌, ◌+◌, ◌∷◌, ℕ, length, take, IfErr, OnOk};
ghost use Rattle.ark_base.specs.declared.error.Error.TheVariants.{OutOfMemory};
ghost use Rattle.ark_paths.specs.Rows.{digests_of};
ghost use Rattle.merkle_log.specs.Kept.{front};
ghost use Rattle.merkle_log.specs.Rising.{left_of, with_rows, AreOfSize};
ghost use Rattle.merkle_log.specs.Stored.{stored_count, row_at};
ghost use Rattle.merkle_log.specs.Walk.{index_up};

use ark_base::error::Error;
use ark_base::serialize::DigestItem;
use std::vec::IntoIter;

// Takes the next digest of a row.
fn next_of<D: DigestItem>(rows: &mut [IntoIter<D>], level: usize) -> D
    requires { 0 < length (left_of D.numbers rows.old level) }
    ensures own { left_of D.numbers rows.old level ≡ D.numbers result ∷ left_of D.numbers rows.new
        level }
    ensures others { (other : ℕ) → other ≢ level → left_of D.numbers rows.new other ≡ left_of
        D.numbers rows.old other }
{
    rows[level].next().unwrap()
}

// Puts the next leaf's digest behind others, and behind it those of the places that it completes. An error may leave some.
fn lay_next<D: DigestItem>(
    digests: &mut Vec<D>,
    size: usize,
    rows: &mut [IntoIter<D>],
) -> Result<(), Error>
    requires whole { length digests.old.items ≡ stored_count size }
    requires some { (level : ℕ) → index_up level size < index_up level (size + 1)
        → 0 < length (left_of D.numbers rows.old level) }
    ensures laid { OnOk result ((level : ℕ) → with_rows
        (row_at (front (size + 1) (digests_of D.numbers digests.new))) (left_of D.numbers rows.new)
        level ≡ with_rows (row_at (front size (digests_of D.numbers digests.old)))
        (left_of D.numbers rows.old) level) }
    ensures whole { OnOk result (length digests.new.items ≡ stored_count (size + 1)) }
    ensures front { take (length digests.old.items) digests.new.items ≡ digests.old.items }
    ensures refused { IfErr result (λ error. error ≡ OutOfMemory) }
{
    digests.push(next_of(rows, 0))?;
    let mut level = 0;
    let mut left = size;
    'odd: while left % 2 == 1 {
        level += 1;
        digests.push(next_of(rows, level))?;
        left /= 2;
    }
    Ok(())
}

/// Lays rows behind those of the list of a log of this size. An error may leave some of their digests.
pub fn lay_rows<D: DigestItem>(
    digests: &mut Vec<D>,
    size: usize,
    count: usize,
    rows: &mut [IntoIter<D>],
) -> Result<(), Error>
    requires whole { length digests.old.items ≡ stored_count size }
    requires rows { AreOfSize (size + count)
        (with_rows (row_at (front size (digests_of D.numbers digests.old)))
        (left_of D.numbers rows.old)) }
    ensures laid { OnOk result ((level : ℕ)
        → row_at (front (size + count) (digests_of D.numbers digests.new)) level ≡ with_rows
        (row_at (front size (digests_of D.numbers digests.old))) (left_of D.numbers rows.old)
        level) }
    ensures whole { OnOk result (length digests.new.items ≡ stored_count (size + count)) }
    ensures front { take (length digests.old.items) digests.new.items ≡ digests.old.items }
    ensures refused { IfErr result (λ error. error ≡ OutOfMemory) }
{
    'leaves: for step in 0..count {
        lay_next(digests, size + step, rows)?;
    }
    Ok(())
}
