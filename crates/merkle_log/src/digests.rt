//! Digests that are compared and copied.

ghost use Rattle.std.specs.Prelude.{◌≡◌, ◌&&◌, length, IfErr, IfOk, Ok};
ghost use Rattle.ark_base.specs.declared.error.Error.TheVariants.{OutOfMemory};
ghost use Rattle.ark_paths.specs.Pair.{digest_eq};
ghost use Rattle.ark_base.specs.Outcome.{AnswersBy};

use ark_base::error::Error;
use ark_base::serialize::{DigestItem, Duplicate};
use ark_paths::digests::are_same;
use std::alloc::Global;

/// Returns whether two digests are these.
pub fn are_both_same<D: DigestItem>(both: &(D, D), first: &D, second: &D) -> bool
    ensures { result ≡ (digest_eq (D.numbers both.now.0) (D.numbers first.now)
        && digest_eq (D.numbers both.now.1) (D.numbers second.now)) }
{
    are_same(&both.0, first) && are_same(&both.1, second)
}

/// Copies a digest.
pub fn copy_of<D: DigestItem>(alloc: Global, digest: &D) -> Result<D, Error>
    ensures { AnswersBy D.numbers (Ok (D.numbers digest.now)) result }
{
    Ok(digest.duplicate(alloc)?)
}

/// Makes a list of so many blank digests, to be written over.
pub fn blank_digests<D: DigestItem>(alloc: Global, count: usize) -> Result<Vec<D>, Error>
    ensures count { IfOk result (λ digests. length digests.items ≡ count) }
    ensures refused { IfErr result (λ error. error ≡ OutOfMemory) }
{
    let mut digests = Vec::with_capacity(alloc, count)?;
    for _ in 0..count {
        digests.push(D::blank(alloc))?;
    }
    Ok(digests)
}
