//! The hashes of a map's tree.

ghost use Rattle.std.specs.Prelude.{◌≡◌, Ok, refl};
ghost use Rattle.ark_base.specs.Digits.{itself};
ghost use Rattle.ark_base.specs.Outcome.{AnswersBy};
ghost use Rattle.ark_crh.specs.Ahead.{HashesAhead, lent_couples, of_couple};
ghost use Rattle.merkle_map.specs.Map.{digest_of, map_hashes, HasherValue, MapHashes};
ghost use Rattle.merkle_map.specs.Way.{pair_on};

use crate::key::copy_digest;
use ark_base::error::Error;
use ark_base::serialize::DigestItem;
use ark_crh::TwoToOneCRHScheme;
use std::alloc::Global;
use std::marker::Model;

/// A hash of two as maps take it. Each has this view.
pub trait MapViews: TwoToOneCRHScheme {
    // The hashes of a map's tree.
    ghost hashes: { HasherValue Self.Parameters → MapHashes };

    ghost hashes_are: { hashes ≡ map_hashes Self.evaluated Self.compressed };
}

impl<H: TwoToOneCRHScheme> MapViews for H {
    ghost hashes = { map_hashes H.evaluated H.compressed };

    ghost hashes_are = { refl };
}

/// A hash of two at its parameters, with the digest of a tree of nothing.
///
/// The digest of an entry is the hash of two inputs, its key and its value: hash values of another size first. The digest of a fork
/// is the hash of two digests.
#[derive(Drop)]
pub struct MapHasher<H: TwoToOneCRHScheme> {
    parameters: H::Parameters,
    nothing: H::Output,
}

impl<H: TwoToOneCRHScheme> Model for MapHasher<H> {
    ghost Value = { HasherValue H.Parameters };

    ghost view = { λ hasher. record {
      parameters = hasher.parameters;
      nothing = H.Output.numbers hasher.nothing;
    } };
}

impl<H: TwoToOneCRHScheme> MapHasher<H> {
    /// Returns the hashes of a scheme at these parameters, with this digest of nothing.
    pub fn new(parameters: H::Parameters, nothing: H::Output) -> MapHasher<H>
        ensures { result ≡ record {
          parameters = parameters;
          nothing = H.Output.numbers nothing;
        } }
    {
        MapHasher {
            parameters,
            nothing,
        }
    }
}

impl<H: MapViews<Input = [u8; 32]>> MapHasher<H> {
    /// Returns the digest of nothing. The only error is `OutOfMemory`.
    pub fn nothing(&self, alloc: Global) -> Result<H::Output, Error>
        ensures { AnswersBy H.Output.numbers (Ok (H.hashes self.now).nothing) result }
    {
        copy_digest(alloc, &self.nothing)
    }

    /// Hashes a key and its value. Errors: those of the scheme; `OutOfMemory`.
    pub fn leaf(&self, alloc: Global, key: &[u8; 32], value: &[u8; 32]) -> Result<H::Output, Error>
        ensures { AnswersBy H.Output.numbers ((H.hashes self.now).leaf key.now value.now) result }
    {
        H::evaluate(alloc, &self.parameters, key, value)
    }

    /// Hashes two digests, left first. Errors: those of the scheme; `OutOfMemory`.
    pub fn pair(
        &self,
        alloc: Global,
        left: &H::Output,
        right: &H::Output,
    ) -> Result<H::Output, Error>
        ensures { AnswersBy H.Output.numbers ((H.hashes self.now).pair (H.Output.numbers left.now)
            (H.Output.numbers right.now)) result }
    {
        H::compress(alloc, &self.parameters, left, right)
    }

    /// Hashes so many of the first entries as the scheme hashes together. The only error is `OutOfMemory`.
    pub fn leaves_ahead(
        &self,
        alloc: Global,
        entries: &[(&[u8; 32], &[u8; 32])],
    ) -> Result<Vec<H::Output>, Error>
        ensures { HashesAhead H.Output.numbers (of_couple (H.hashes self.now).leaf)
            (lent_couples itself entries.now) result }
    {
        H::evaluate_ahead(alloc, &self.parameters, entries)
    }

    /// Hashes so many of the first couples of digests as the scheme hashes together. The only error is `OutOfMemory`.
    pub fn pairs_ahead(
        &self,
        alloc: Global,
        couples: &[(&H::Output, &H::Output)],
    ) -> Result<Vec<H::Output>, Error>
        ensures { HashesAhead H.Output.numbers (of_couple (H.hashes self.now).pair)
            (lent_couples H.Output.numbers couples.now) result }
    {
        H::compress_ahead(alloc, &self.parameters, couples)
    }
}

/// Hashes a digest and the one beside it, which stands left if the digest is the right one.
///
/// Errors: those of the hash of pairs; `OutOfMemory`.
pub fn hash_with_sibling<D: DigestItem, H: MapViews<Input = [u8; 32], Output = D>>(
    alloc: Global,
    hasher: &MapHasher<H>,
    is_right: bool,
    own: &D,
    beside: &D,
) -> Result<D, Error>
    ensures { AnswersBy D.numbers (digest_of (H.hashes hasher.now)
        (pair_on is_right (D.numbers own.now) (D.numbers beside.now))) result }
{
    if is_right {
        hasher.pair(alloc, beside, own)
    } else {
        hasher.pair(alloc, own, beside)
    }
}
