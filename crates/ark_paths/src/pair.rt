//! The hashes of pairs.

ghost use Rattle.std.specs.Prelude.{◌≡◌, map, IfOk, IsOkUnless, Ok};
ghost use Rattle.ark_base.specs.Outcome.{AnswersBy};
ghost use Rattle.ark_base.specs.declared.error.Error.TheVariants.{OutOfMemory};
ghost use Rattle.ark_crh.specs.Ahead.{AreOfFirst, HashesAhead, couple_seen, couples_seen, lent_couples, of_couple};
ghost use Rattle.ark_paths.specs.Pair.{converted_couple, hash_in_order, pair_of};

use crate::config::DigestConverter;
use crate::hasher::TreeHasher;
use ark_base::error::Error;
use ark_base::serialize::{DigestItem, Numbered};
use ark_crh::TwoToOneCRHScheme;
use ark_crh::ahead::lend_couples;
use std::alloc::Global;

// What a converter makes of a digest. It is copied, since the converter takes its item by value.
fn converted<L: DigestItem, I: Numbered, C: DigestConverter<L, I>>(
    alloc: Global,
    digest: &L,
) -> Result<I, Error>
    ensures { AnswersBy I.numbers (C.conversion (L.numbers digest.now)) result }
{
    C::convert(alloc, digest.duplicate(alloc)?)
}

/// Converts two leaf digests, left first, and hashes them.
///
/// Errors: the conversion of the left digest; that of the right one; the hash of both; `OutOfMemory`.
pub fn hash_bottom<L: DigestItem, C: DigestConverter<L, H::Input>, H: TwoToOneCRHScheme>(
    alloc: Global,
    pair_parameters: &H::Parameters,
    left: &L,
    right: &L,
) -> Result<H::Output, Error>
    ensures { AnswersBy H.Output.numbers
        ((pair_of C.conversion H.evaluated H.compressed pair_parameters.now).bottom
        (L.numbers left.now) (L.numbers right.now)) result }
{
    let left = converted::<_, _, C>(alloc, left)?;
    let right = converted::<_, _, C>(alloc, right)?;
    H::evaluate(alloc, pair_parameters, &left, &right)
}

// What a converter makes of two digests, left first.
fn converted_couple<L: DigestItem, I: Numbered + Drop, C: DigestConverter<L, I>>(
    alloc: Global,
    left: &L,
    right: &L,
) -> Result<(I, I), Error>
    ensures { IfOk result (λ made. converted_couple C.conversion
        (L.numbers left.now, (L.numbers right.now)) ≡ Ok (couple_seen I.numbers made)) }
{
    let left = converted::<_, _, C>(alloc, left)?;
    let right = converted::<_, _, C>(alloc, right)?;
    Ok((left, right))
}

// What a converter makes of the couples before the first that it refuses.
fn converted_couples<L: DigestItem, I: Numbered + Drop, C: DigestConverter<L, I>>(
    alloc: Global,
    couples: &[(&L, &L)],
) -> Result<Vec<(I, I)>, Error>
    ensures couples { IfOk result
        (λ made. AreOfFirst (converted_couple C.conversion) (lent_couples L.numbers couples.now)
        (couples_seen I.numbers made.items)) }
    ensures memory { IsOkUnless result OutOfMemory }
{
    let mut made = Vec::with_capacity(alloc, couples.len())?;
    'couples: for place in 0..couples.len() {
        let couple = couples[place];
        match converted_couple::<L, I, C>(alloc, couple.0, couple.1) {
            Ok(next) => made.push(next)?,
            Err(Error::OutOfMemory) => return Err(Error::OutOfMemory),
            Err(_) => return Ok(made),
        }
    }
    Ok(made)
}

/// Converts couples of leaf digests and hashes so many of the first ones as the pair hash hashes together.
///
/// The only error is `OutOfMemory`: it stops before a couple that the converter refuses.
pub fn hash_bottom_ahead<L: DigestItem, C: DigestConverter<L, H::Input>, H: TwoToOneCRHScheme>(
    alloc: Global,
    pair_parameters: &H::Parameters,
    couples: &[(&L, &L)],
) -> Result<Vec<H::Output>, Error>
    ensures { HashesAhead H.Output.numbers
        (of_couple (pair_of C.conversion H.evaluated H.compressed pair_parameters.now).bottom)
        (lent_couples L.numbers couples.now) result }
{
    let inputs = converted_couples::<L, H::Input, C>(alloc, couples)?;
    let run = lend_couples(alloc, &inputs)?;
    H::evaluate_ahead(alloc, pair_parameters, &run)
}

/// Hashes a leaf digest with the one beside it.
///
/// Errors: the conversion of the digest that stands left; that of the one that stands right; the hash of both;
/// `OutOfMemory`.
pub fn hash_leaves<L: DigestItem, D: DigestItem, T: TreeHasher<L, D>>(
    alloc: Global,
    hasher: &T,
    is_right: bool,
    digest: &L,
    sibling: &L,
) -> Result<D, Error>
    ensures { AnswersBy D.numbers (hash_in_order (T.hashes hasher.now).pair.bottom is_right
        (L.numbers digest.now) (L.numbers sibling.now)) result }
{
    if is_right {
        hasher.bottom(alloc, sibling, digest)
    } else {
        hasher.bottom(alloc, digest, sibling)
    }
}

/// Hashes a digest above the leaves with the one beside it.
///
/// Errors: those of the pair hash's `compressed`; `OutOfMemory`.
pub fn hash_upper<L: DigestItem, D: DigestItem, T: TreeHasher<L, D>>(
    alloc: Global,
    hasher: &T,
    is_right: bool,
    digest: &D,
    sibling: &D,
) -> Result<D, Error>
    ensures { AnswersBy D.numbers (hash_in_order (T.hashes hasher.now).pair.upper is_right
        (D.numbers digest.now) (D.numbers sibling.now)) result }
{
    if is_right {
        hasher.upper(alloc, sibling, digest)
    } else {
        hasher.upper(alloc, digest, sibling)
    }
}
