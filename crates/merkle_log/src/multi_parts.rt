//! The places of a log's tree that a multi-proof speaks of, and how many digests it has.

ghost use Rattle.std.specs.Prelude.{◌≡◌, ◌<◌, ◌≤◌, ◌+◌, ◌-◌, ◌*◌, ◌^◌, ℕ, true, false, length};
ghost use Rattle.merkle_log.specs.Multi.{are_multi_indexes, rise_below, count_around, count_below, have_counts, middle, multi_length};

/// Returns the first leaf of the second of the two places below a place, of which the level is given.
pub fn middle_of(level: usize, place: usize) -> usize
    requires level { level < 64 }
    requires below { place * 2 ^ (level + 1) < 2 ^ 64 }
    ensures { result ≡ middle level place }
{
    (2 * place + 1) << level
}

/// Returns whether a place of a level has all its leaves among so many.
pub fn is_complete(size: usize, level: usize, place: usize) -> bool
    ensures complete { result ≡ true → (place + 1) * 2 ^ level ≤ size }
    ensures other { result ≡ false → size < (place + 1) * 2 ^ level }
{
    level < 64 && size >> level > place
}

/// Returns how many of the first indexes are below a number.
pub fn count_below(bound: usize, indexes: &[usize]) -> usize
    ensures count { result ≡ count_below bound indexes.now }
    ensures most { result ≤ length indexes.now }
{
    for (at, index) in indexes.iter().enumerate() {
        if *index >= bound {
            return at;
        }
    }
    indexes.len()
}

// Returns whether indexes rise, each below a number.
fn rise_below(end: usize, indexes: &[usize]) -> bool
    ensures { result ≡ rise_below 0 end indexes.now }
{
    let mut from = 0;
    for index in indexes {
        if *index < from || *index >= end {
            return false;
        }
        from = *index + 1;
    }
    true
}

/// Returns whether these are the indexes of a multi-proof: one at least, rising, each below the size.
pub fn are_multi_indexes(size: usize, indexes: &[usize]) -> bool
    ensures { result ≡ are_multi_indexes size indexes.now }
{
    !indexes.is_empty() && rise_below(size, indexes)
}

/// Returns how many levels stand above so many leaves, one at least: the root is one place that many levels up.
pub fn levels_above(size: usize) -> usize
    requires { 0 < size }
    ensures covers { size ≤ 2 ^ result }
    ensures most { result ≤ 64 }
{
    if size == 1 {
        return 0;
    }
    (size - 1).ilog2() as usize + 1
}

// Returns how many digests of a multi-proof stand below a place. It recurs once a level.
fn count_around(size: usize, level: usize, place: usize, indexes: &[usize]) -> usize
    requires level { level ≤ 64 }
    requires inside { place * 2 ^ level < size }
    ensures count { result ≡ count_around size level place indexes.now }
    ensures few { result ≤ 2 ^ level }
    ensures most { result ≤ size - place * 2 ^ level }
{
    if indexes.is_empty() {
        return 1;
    }
    if level == 0 {
        return 0;
    }
    let below = level - 1;
    let bound = middle_of(below, place);
    if bound >= size {
        return count_around(size, below, 2 * place, indexes);
    }
    let count = count_below(bound, indexes);
    let left = count_around(size, below, 2 * place, &indexes[..count]);
    let right = count_around(size, below, 2 * place + 1, &indexes[count..]);
    left + right
}

/// Returns how many digests the multi-proof of indexes has, in a log of this size, one at least.
pub fn multi_length(size: usize, indexes: &[usize]) -> usize
    requires { 0 < size }
    ensures { result ≡ multi_length size indexes.now }
{
    count_around(size, levels_above(size), 0, indexes)
}

/// Returns whether these can be the indexes of a multi-proof in a log of this size, with so many leaves and so many digests: a leaf
/// for each index, and as many digests as the proof has.
pub fn have_counts(size: usize, indexes: &[usize], leaves: usize, proof: usize) -> bool
    ensures form { result ≡ have_counts size indexes.now leaves proof }
    ensures indexes { result ≡ true → are_multi_indexes size indexes.now ≡ true }
    ensures leaves { result ≡ true → leaves ≡ length indexes.now }
    ensures proof { result ≡ true → proof ≡ multi_length size indexes.now }
{
    if !are_multi_indexes(size, indexes) {
        return false;
    }
    leaves == indexes.len() && proof == multi_length(size, indexes)
}
