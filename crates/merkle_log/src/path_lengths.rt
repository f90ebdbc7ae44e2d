//! How many digests a proof has.

ghost use Rattle.std.specs.Prelude.{◌≡◌, ◌<◌, ◌≤◌, ◌+◌, ◌^◌, ℕ};
ghost use Rattle.merkle_log.specs.Received.{inclusion_length, consistency_length, length_from};
ghost use Rattle.merkle_log.specs.Walk.{used_below};

use crate::way::has_beside;

// Returns how many digests stand beside the way from an index of a row with this last index.
fn count_beside(mut index: u64, mut last: u64) -> u64
    requires { index ≤ last }
    ensures count { (k : ℕ) → last < 2 ^ k → result ≡ used_below k index last }
    ensures most { result ≤ last }
{
    let mut used = 0;
    'levels: while last > 0 {
        if has_beside(index, last) {
            used += 1;
        }
        index /= 2;
        last /= 2;
    }
    used
}

// Returns how many digests a consistency proof has.
fn count_from(mut index: u64, mut last: u64) -> u64
    requires inside { index < last }
    requires fits { last + 1 < 2 ^ 64 }
    ensures { (k : ℕ) → last < 2 ^ k → result ≡ length_from k index last }
{
    'complete: while index % 2 == 1 {
        index /= 2;
        last /= 2;
    }
    let beside = count_beside(index, last);
    if index == 0 {
        return beside;
    }
    1 + beside
}

/// Returns how many digests the path of an index has.
pub fn inclusion_length(size: u64, index: u64) -> u64
    requires { index < size }
    ensures { result ≡ inclusion_length size index }
{
    count_beside(index, size - 1)
}

/// Returns how many digests the consistency proof of an old size has: none for equal sizes.
pub fn consistency_length(old_size: u64, new_size: u64) -> u64
    requires some { 0 < old_size }
    requires inside { old_size ≤ new_size }
    ensures { result ≡ consistency_length old_size new_size }
{
    if old_size == new_size {
        return 0;
    }
    count_from(old_size - 1, new_size - 1)
}
