//! The way from a digest of a row up to the root.

ghost use Rattle.std.specs.Prelude.{◌≡◌};
ghost use Rattle.ark_base.specs.Outcome.{AnswersBy};
ghost use Rattle.merkle_log.specs.Walk.{has_beside as stands_beside, hash_beside as hash_of_both};

use ark_base::error::Error;
use ark_base::serialize::DigestItem;
use ark_paths::hasher::TreeHasher;
use std::alloc::Global;

/// Returns whether a digest stands beside an index of a row with this last index: left of an odd one, right of one before the last.
pub fn has_beside(index: u64, last: u64) -> bool
    ensures { result ≡ stands_beside index last }
{
    index % 2 == 1 || index < last
}

/// Hashes a digest and the one beside it, which stands left where the digest is the right one.
pub fn hash_beside<D: DigestItem, T: TreeHasher<D, D>>(
    alloc: Global,
    hasher: &T,
    is_right: bool,
    own: &D,
    beside: &D,
) -> Result<D, Error>
    ensures { AnswersBy D.numbers (hash_of_both (T.hashes hasher.now).pair.upper is_right
        (D.numbers own.now) (D.numbers beside.now)) result }
{
    if is_right {
        hasher.upper(alloc, beside, own)
    } else {
        hasher.upper(alloc, own, beside)
    }
}
