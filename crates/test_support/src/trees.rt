//! The definitions of specs/ as plain, slow functions, for tests to compare the tree with.

ghost use Rattle.std.specs.Prelude.{◌≡◌, ℕ, suc, ◌^◌, map, length, Ok, Err, MatchResult};
ghost use Rattle.ark_base.specs.Outcome.{Outcome, AnswersBy};
ghost use Rattle.ark_base.specs.declared.error.Error.TheVariants.{OutOfMemory};
ghost use Rattle.ark_paths.specs.Pair.{Digest, HashPair};
ghost use Rattle.ark_paths.specs.Path.{climb};
ghost use Rattle.ark_paths.specs.Root.{Place, Root, Refused, place_at, place_of_halves, place};

mod multi;

use ark_base::error::Error;
use ark_base::serialize::{DigestItem, Duplicate};
use ark_crh::TwoToOneCRHScheme;
use ark_merkle::index::is_bit_set;
use ark_merkle::pair::hash_bottom;
use ark_merkle::{Config, TwoToOneParam, Views};
pub use multi::plain_multi_verdict;
use std::alloc::Global;

/// A place of a list of leaf digests: its root, or the refusal in it with its level.
pub type PlainPlace<D> = Result<D, (usize, Error)>;

/// A place, as the definition has it.
pub trait IsPlace {
    ghost place: { Self → Place };
}

impl<D: DigestItem> IsPlace for PlainPlace<D> {
    ghost place = { λ p. elim p [
      | Ok digest ↦ Root (D.numbers digest)
      | Err refused ↦ Refused refused.0 refused.1
    ] };
}

// What a pair of a level gives. `OutOfMemory` is no place.
fn place_at<D: DigestItem>(level: usize, hashed: Result<D, Error>) -> Result<PlainPlace<D>, Error>
    ensures { (o : Outcome Digest) → AnswersBy D.numbers o hashed → MatchResult result
        (λ p. place_at level o ≡ ⟦<PlainPlace<D> as IsPlace>⟧.place p)
        (λ error. error ≡ OutOfMemory) }
{
    match hashed {
        Ok(digest) => Ok(Ok(digest)),
        Err(Error::OutOfMemory) => Err(Error::OutOfMemory),
        Err(refusal) => Ok(Err((level, refusal))),
    }
}

// Two halves make a place.
fn place_of_halves<H: TwoToOneCRHScheme>(
    alloc: Global,
    pair_parameters: &H::Parameters,
    level: usize,
    left: PlainPlace<H::Output>,
    right: PlainPlace<H::Output>,
) -> Result<PlainPlace<H::Output>, Error>
    ensures { let seen = ⟦<PlainPlace<H::Output> as IsPlace>⟧.place in
        (h : HashPair) → h.upper ≡ H.compressed pair_parameters.now → MatchResult result
        (λ p. place_of_halves h level (seen left) (seen right) ≡ seen p)
        (λ error. error ≡ OutOfMemory) }
{
    match (left, right) {
        (Ok(a), Ok(b)) => place_at(level, H::compress(alloc, pair_parameters, &a, &b)),
        (Ok(_), Err(refused)) => Ok(Err(refused)),
        (Err(refused), Ok(_)) => Ok(Err(refused)),
        (Err((k, d)), Err((l, e))) => Ok(Err(if l < k { (l, e) } else { (k, d) })),
    }
}

/// Returns the place of 2^(m + 1) leaf digests.
pub fn place<P: Config>(
    alloc: Global,
    pair_parameters: &TwoToOneParam<P>,
    m: usize,
    digests: &[P::LeafDigest],
) -> Result<PlainPlace<P::InnerDigest>, Error>
    requires { length digests.now ≡ 2 ^ suc m }
    ensures { let h = ⟦<P as Views>⟧.pair pair_parameters.now in
        let leaves = map P.LeafDigest.numbers digests.now in MatchResult result
        (λ p. place h m leaves ≡ ⟦<PlainPlace<P::InnerDigest> as IsPlace>⟧.place p)
        (λ error. error ≡ OutOfMemory) }
{
    if m == 0 {
        return place_at(
            0,
            hash_bottom::<_, P::LeafInnerDigestConverter, P::TwoToOneHash>(
                alloc,
                pair_parameters,
                &digests[0],
                &digests[1],
            ),
        );
    }
    let (left, right) = digests.split_at(digests.len() / 2);
    let left = place::<P>(alloc, pair_parameters, m - 1, left)?;
    let right = place::<P>(alloc, pair_parameters, m - 1, right)?;
    place_of_halves::<P::TwoToOneHash>(alloc, pair_parameters, m, left, right)
}

/// Returns what the digests beside a way make of the lowest one on it.
pub fn plain_climb<H: TwoToOneCRHScheme>(
    alloc: Global,
    pair_parameters: &H::Parameters,
    index: usize,
    beside: &[H::Output],
    lowest: &H::Output,
) -> Result<H::Output, Error>
    ensures { let numbers = H.Output.numbers in
        let outcome = climb (H.compressed pair_parameters.now) index (map numbers beside.now) in
        AnswersBy numbers (outcome (numbers lowest.now)) result }
{
    match beside.split_first() {
        None => lowest.duplicate(alloc),
        Some((first, rest)) => {
            let below = plain_climb::<H>(alloc, pair_parameters, index, rest, lowest)?;
            if is_bit_set(index, beside.len()) {
                H::compress(alloc, pair_parameters, first, &below)
            } else {
                H::compress(alloc, pair_parameters, &below, first)
            }
        }
    }
}
