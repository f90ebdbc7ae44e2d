//! The hashes of a tree at their parameters, as one value.

ghost use Rattle.std.specs.Prelude.{◌≡◌};
ghost use Rattle.ark_base.specs.Outcome.{AnswersBy};
ghost use Rattle.ark_crh.specs.Ahead.{HashesAhead, lent, lent_couples, of_couple};
ghost use Rattle.ark_paths.specs.Laws.Pair.{bottom_pair-decided};
ghost use Rattle.ark_paths.specs.Pair.{AreDecided, Hashes, pair_of};

use crate::config::{Config, LeafParam, TwoToOneParam};
use crate::multi_path::hasher::PairHasher;
use crate::pair::{hash_bottom, hash_bottom_ahead};
use crate::views::Views;
use ark_base::error::Error;
use ark_base::serialize::DigestItem;
use ark_crh::{CRHScheme, TwoToOneCRHScheme};
use std::alloc::Global;

/// Hashes leaves, pairs of leaf digests and pairs of digests above them.
///
/// Whatever builds, changes or reads a tree needs its hashes at their parameters and nothing else of a configuration.
pub trait TreeHasher<L: DigestItem, D: DigestItem> {
    type Leaf;

    // What the three calls return.
    ghost hashes: { Self → Hashes Self.Leaf };

    /// Hashes a leaf. Errors: those of `hashes`; `OutOfMemory`.
    fn leaf(&self, alloc: Global, leaf: &Self::Leaf) -> Result<L, Error>
        ensures { AnswersBy L.numbers ((hashes self.now).leaf leaf.now) result };

    /// Hashes two leaf digests, left first. Errors: those of `hashes`; `OutOfMemory`.
    fn bottom(&self, alloc: Global, left: &L, right: &L) -> Result<D, Error>
        ensures { AnswersBy D.numbers ((hashes self.now).pair.bottom (L.numbers left.now)
            (L.numbers right.now)) result };

    /// Hashes two digests above the leaves, left first. Errors: those of `hashes`; `OutOfMemory`.
    fn upper(&self, alloc: Global, left: &D, right: &D) -> Result<D, Error>
        ensures { AnswersBy D.numbers ((hashes self.now).pair.upper (D.numbers left.now)
            (D.numbers right.now)) result };

    /// Hashes so many of the first leaves as it hashes together: by default none.
    ///
    /// The only error is `OutOfMemory`.
    fn leaf_ahead(&self, alloc: Global, leaves: &[&Self::Leaf]) -> Result<Vec<L>, Error>
        ensures { HashesAhead L.numbers ((hashes self.now).leaf) (lent leaves.now) result }
    {
        Ok(Vec::with_capacity(alloc, leaves.len())?)
    }

    /// Hashes so many of the first couples of leaf digests as it hashes together: by default none.
    ///
    /// The only error is `OutOfMemory`.
    fn bottom_ahead(&self, alloc: Global, couples: &[(&L, &L)]) -> Result<Vec<D>, Error>
        ensures { HashesAhead D.numbers (of_couple (hashes self.now).pair.bottom)
            (lent_couples L.numbers couples.now) result }
    {
        Ok(Vec::with_capacity(alloc, couples.len())?)
    }

    /// Hashes so many of the first couples of digests above the leaves as it hashes together: by default none.
    ///
    /// The only error is `OutOfMemory`.
    fn upper_ahead(&self, alloc: Global, couples: &[(&D, &D)]) -> Result<Vec<D>, Error>
        ensures { HashesAhead D.numbers (of_couple (hashes self.now).pair.upper)
            (lent_couples D.numbers couples.now) result }
    {
        Ok(Vec::with_capacity(alloc, couples.len())?)
    }

    // What a call refuses for want of memory is no refusal of the hashes.
    ghost decided: { (hasher : Self) → AreDecided (hashes hasher) };
}

/// The hashes of a configuration at two parameters.
#[derive(Drop)]
pub struct ConfigHasher<'a, P: Config> {
    leaf_parameters: &'a LeafParam<P>,
    pair_parameters: &'a TwoToOneParam<P>,
}

impl<'a, P: Views> ConfigHasher<'a, P> {
    /// Borrows both parameters.
    pub fn new(
        leaf_parameters: &'a LeafParam<P>,
        pair_parameters: &'a TwoToOneParam<P>,
    ) -> ConfigHasher<'a, P>
        ensures { ⟦<Self as TreeHasher<P::LeafDigest, P::InnerDigest>>⟧.hashes result ≡ P.hashes
            leaf_parameters.now pair_parameters.now }
    {
        ConfigHasher {
            leaf_parameters,
            pair_parameters,
        }
    }
}

impl<'a, P: Config> TreeHasher<P::LeafDigest, P::InnerDigest> for ConfigHasher<'a, P> {
    type Leaf = P::Leaf;

    ghost hashes = { λ hasher. record {
      leaf = P.LeafHash.meaning hasher.leaf_parameters.now;
      pair = pair_of P.LeafInnerDigestConverter.conversion P.TwoToOneHash.evaluated
          P.TwoToOneHash.compressed hasher.pair_parameters.now;
    } };

    fn leaf(&self, alloc: Global, leaf: &P::Leaf) -> Result<P::LeafDigest, Error> {
        P::LeafHash::evaluate(alloc, self.leaf_parameters, leaf)
    }

    fn bottom(
        &self,
        alloc: Global,
        left: &P::LeafDigest,
        right: &P::LeafDigest,
    ) -> Result<P::InnerDigest, Error> {
        hash_bottom::<_, P::LeafInnerDigestConverter, P::TwoToOneHash>(
            alloc,
            self.pair_parameters,
            left,
            right,
        )
    }

    fn upper(
        &self,
        alloc: Global,
        left: &P::InnerDigest,
        right: &P::InnerDigest,
    ) -> Result<P::InnerDigest, Error> {
        P::TwoToOneHash::compress(alloc, self.pair_parameters, left, right)
    }

    fn leaf_ahead(&self, alloc: Global, leaves: &[&P::Leaf]) -> Result<Vec<P::LeafDigest>, Error> {
        P::LeafHash::evaluate_ahead(alloc, self.leaf_parameters, leaves)
    }

    fn bottom_ahead(
        &self,
        alloc: Global,
        couples: &[(&P::LeafDigest, &P::LeafDigest)],
    ) -> Result<Vec<P::InnerDigest>, Error> {
        hash_bottom_ahead::<_, P::LeafInnerDigestConverter, P::TwoToOneHash>(
            alloc,
            self.pair_parameters,
            couples,
        )
    }

    fn upper_ahead(
        &self,
        alloc: Global,
        couples: &[(&P::InnerDigest, &P::InnerDigest)],
    ) -> Result<Vec<P::InnerDigest>, Error> {
        P::TwoToOneHash::compress_ahead(alloc, self.pair_parameters, couples)
    }

    ghost decided = { λ hasher. record {
      leaf = P.LeafHash.meaning_decided hasher.leaf_parameters.now;
      bottom = bottom_pair-decided P.LeafInnerDigestConverter.conversion
          (P.TwoToOneHash.evaluated hasher.pair_parameters.now)
          P.LeafInnerDigestConverter.conversion_is_decided
          (P.TwoToOneHash.evaluated_decided hasher.pair_parameters.now);
      upper = P.TwoToOneHash.compressed_decided hasher.pair_parameters.now;
    } };
}

/// Hashes pairs as another hasher does, and counts them.
#[derive(Drop)]
pub struct Counting<'a, T> {
    hasher: &'a T,
    calls: usize,
}

impl<'a, T> Counting<'a, T> {
    /// Makes a hasher that was not asked yet.
    pub fn new(hasher: &'a T) -> Counting<'a, T>
        ensures hasher { result.hasher.now ≡ hasher.now }
        ensures none { result.calls ≡ 0 }
    {
        Counting { hasher, calls: 0 }
    }
}

impl<'a, L: DigestItem, D: DigestItem, T: TreeHasher<L, D>> PairHasher<L, D> for Counting<'a, T> {
    ghost pair = { λ counting. (T.hashes counting.hasher.now).pair };

    ghost counted = { λ counting. counting.calls };

    fn bottom(&mut self, alloc: Global, left: &L, right: &L) -> Result<D, Error> {
        self.calls = self.calls.saturating_add(1);
        self.hasher.bottom(alloc, left, right)
    }

    fn upper(&mut self, alloc: Global, left: &D, right: &D) -> Result<D, Error> {
        self.calls = self.calls.saturating_add(1);
        self.hasher.upper(alloc, left, right)
    }

    fn calls(&self) -> usize {
        self.calls
    }
}
