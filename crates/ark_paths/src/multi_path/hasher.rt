//! What hashes the pairs of a multi-proof, and counts them.

ghost use Rattle.std.specs.Prelude.{◌≡◌, ◌+◌, ℕ, min};
ghost use Rattle.ark_base.specs.Outcome.{AnswersBy};
ghost use Rattle.ark_paths.specs.Pair.{HashPair};

use crate::config::{Config, TwoToOneParam};
use crate::pair::hash_bottom;
use crate::views::Views;
use ark_base::error::Error;
use ark_base::serialize::Numbered;
use ark_crh::TwoToOneCRHScheme;
use std::alloc::Global;

/// Hashes pairs of digests by two functions of its own, and counts how often it is asked.
///
/// It serves whoever checks multi-proofs with more than the hash of a tree: a log of what is hashed, a cache, a circuit.
pub trait PairHasher<L: Numbered, D: Numbered> {
    // What it answers for pairs. No call changes it.
    ghost pair: { Self → HashPair };

    // How often it was asked.
    ghost counted: { Self → ℕ };

    /// Returns the hash of two leaf digests, left first. Errors: those of its function; `OutOfMemory`.
    fn bottom(&mut self, alloc: Global, left: &L, right: &L) -> Result<D, Error>
        ensures answer { AnswersBy D.numbers ((pair self.old).bottom (L.numbers left.now)
            (L.numbers right.now)) result }
        ensures same { pair self.new ≡ pair self.old }
        ensures counts { counted self.new ≡ min (counted self.old + 1) 18446744073709551615 };

    /// Returns the hash of two digests above the leaves, left first. Errors: those of its function; `OutOfMemory`.
    fn upper(&mut self, alloc: Global, left: &D, right: &D) -> Result<D, Error>
        ensures answer { AnswersBy D.numbers ((pair self.old).upper (D.numbers left.now)
            (D.numbers right.now)) result }
        ensures same { pair self.new ≡ pair self.old }
        ensures counts { counted self.new ≡ min (counted self.old + 1) 18446744073709551615 };

    /// Returns how often it was asked. Past the largest `usize` the count stays there.
    fn calls(&self) -> usize
        ensures { result ≡ counted self.now };
}

/// Hashes pairs as the tree with these parameters does.
#[derive(Drop)]
pub struct PairCount<'a, P: Config> {
    pair_parameters: &'a TwoToOneParam<P>,
    calls: usize,
}

impl<'a, P: Config> PairCount<'a, P> {
    /// Returns a hasher that was not asked yet. It allocates nothing.
    pub fn new(pair_parameters: &'a TwoToOneParam<P>) -> PairCount<'a, P>
        ensures pair { ⟦<Self as PairHasher<P::LeafDigest, P::InnerDigest>>⟧.pair result
            ≡ ⟦<P as Views>⟧.pair pair_parameters.now }
        ensures none { ⟦<Self as PairHasher<P::LeafDigest, P::InnerDigest>>⟧.counted result ≡ 0 }
    {
        PairCount {
            pair_parameters,
            calls: 0,
        }
    }
}

impl<'a, P: Config> PairHasher<P::LeafDigest, P::InnerDigest> for PairCount<'a, P> {
    ghost pair = { λ hasher. ⟦<P as Views>⟧.pair hasher.pair_parameters.now };

    ghost counted = { λ hasher. hasher.calls };

    fn bottom(
        &mut self,
        alloc: Global,
        left: &P::LeafDigest,
        right: &P::LeafDigest,
    ) -> Result<P::InnerDigest, Error> {
        self.calls = self.calls.saturating_add(1);
        hash_bottom::<_, P::LeafInnerDigestConverter, P::TwoToOneHash>(
            alloc,
            self.pair_parameters,
            left,
            right,
        )
    }

    fn upper(
        &mut self,
        alloc: Global,
        left: &P::InnerDigest,
        right: &P::InnerDigest,
    ) -> Result<P::InnerDigest, Error> {
        self.calls = self.calls.saturating_add(1);
        P::TwoToOneHash::compress(alloc, self.pair_parameters, left, right)
    }

    fn calls(&self) -> usize {
        self.calls
    }
}
