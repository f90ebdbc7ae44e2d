//! Whether leaves stand where a multi-proof says.

ghost use Rattle.std.specs.Prelude.{◌≡◌, ◌+◌, ◌≤◌, true, IfOk};
ghost use Rattle.std.specs.Result.{result_map_both};
ghost use Rattle.ark_paths.specs.Asked.{CountsOwn, most_asked};
ghost use Rattle.ark_paths.specs.Bind.{BindsGiven};
ghost use Rattle.ark_paths.specs.Leaves.{AnswersOver};
ghost use Rattle.ark_paths.specs.MultiPath.{decoded_paths, multi_verdict};

use crate::config::{LeafParam, TwoToOneParam};
use crate::multi_path::MultiPath;
use crate::multi_path::hasher::{PairCount, PairHasher};
use crate::multi_path::table::Table;
use crate::multi_path::walk::judge_all;
use crate::views::Views;
use ark_base::error::Error;
use std::alloc::Global;

impl<P: Views> MultiPath<P> {
    /// Returns whether each leaf's digest gives the root along its path, the leaves in the order of `leaf_indexes`.
    ///
    /// A pair that was hashed last at its place is not hashed again. Errors: `NoIndex` of a proof without an index;
    /// else, place by place, `IncorrectInputLength` with the place where it has no leaf or its parts make no path, then
    /// those of `Path::verify`; `OutOfMemory`. The first place that is refused or is not accepted decides, and no leaf
    /// behind it is taken. Parts and leaves past the last index are ignored.
    pub fn verify<'a, I: Iterator<Item = &'a P::Leaf>>(
        &self,
        alloc: Global,
        leaf_parameters: &LeafParam<P>,
        pair_parameters: &TwoToOneParam<P>,
        root: &P::InnerDigest,
        mut leaves: I,
    ) -> Result<bool, Error>
    where
        P::Leaf: 'a,
        requires { I.can_next leaves }
        ensures answer { let hashes = P.hashes leaf_parameters.now pair_parameters.now in
            let given = P.InnerDigest.numbers root.now in
            (behind : I) × AnswersOver I.next_gives (λ leaf. hashes.leaf leaf.now) leaves behind
            (λ digests. multi_verdict hashes.pair digests (P.multi_way self.now) given) result }

        // Each decoded path binds its leaf to the root, as in `Path::verify`.
        ensures bound { IfOk result (λ accepted. accepted ≡ true → BindsGiven I.next_gives
            (λ leaf. leaf.now) leaves (P.hashes leaf_parameters.now pair_parameters.now)
            (P.InnerDigest.numbers root.now) (decoded_paths (P.multi_way self.now))) }
    {
        self.verify_next(alloc, leaf_parameters, pair_parameters, root, &mut leaves)
    }

    /// Acts as `verify`, of the leaves that a borrowed iterator gives next.
    pub fn verify_next<'a, I: Iterator<Item = &'a P::Leaf>>(
        &self,
        alloc: Global,
        leaf_parameters: &LeafParam<P>,
        pair_parameters: &TwoToOneParam<P>,
        root: &P::InnerDigest,
        leaves: &mut I,
    ) -> Result<bool, Error>
    where
        P::Leaf: 'a,
        requires { I.can_next leaves.old }
        ensures { let hashes = P.hashes leaf_parameters.now pair_parameters.now in
            let given = P.InnerDigest.numbers root.now in
            AnswersOver I.next_gives (λ leaf. hashes.leaf leaf.now) leaves.old leaves.new
            (λ digests. multi_verdict hashes.pair digests (P.multi_way self.now) given) result }
    {
        let mut hasher = PairCount::<P>::new(pair_parameters);
        self.verify_next_with(alloc, leaf_parameters, &mut hasher, root, leaves)
    }

    /// Acts as `verify`, and returns how many pairs were hashed.
    pub fn verify_counting<'a, I: Iterator<Item = &'a P::Leaf>>(
        &self,
        alloc: Global,
        leaf_parameters: &LeafParam<P>,
        pair_parameters: &TwoToOneParam<P>,
        root: &P::InnerDigest,
        mut leaves: I,
    ) -> Result<(bool, usize), Error>
    where
        P::Leaf: 'a,
        requires { I.can_next leaves }
        ensures answer { let hashes = P.hashes leaf_parameters.now pair_parameters.now in
            let given = P.InnerDigest.numbers root.now in
            (behind : I) × AnswersOver I.next_gives (λ leaf. hashes.leaf leaf.now) leaves behind
            (λ digests. multi_verdict hashes.pair digests (P.multi_way self.now) given)
            (result_map_both (λ answer. answer.0) (λ error. error) result) }

        // Of a tree's own multi-proof with its leaves, each place above them is hashed once.
        ensures exact { let hashes = P.hashes leaf_parameters.now pair_parameters.now in
            let given = P.InnerDigest.numbers root.now in
            IfOk result (λ answer. answer.0 ≡ true
            → CountsOwn I.next_gives (λ leaf. hashes.leaf leaf.now) leaves hashes.pair given
            (P.multi_way self.now) 0 answer.1) }

        // Of any other, no more than those of each index.
        ensures most { IfOk result (λ answer. answer.1 ≤ most_asked (P.multi_way self.now)) }
    {
        let mut hasher = PairCount::<P>::new(pair_parameters);
        let accepted = self.verify_next_with(
            alloc,
            leaf_parameters,
            &mut hasher,
            root,
            &mut leaves,
        )?;
        Ok((accepted, hasher.calls()))
    }

    /// Acts as `verify`, where a hasher of the caller's hashes the pairs, by its own two functions.
    ///
    /// Its calls count where the result is an error, too.
    pub fn verify_with<
        'a,
        T: PairHasher<P::LeafDigest, P::InnerDigest>,
        I: Iterator<Item = &'a P::Leaf>,
    >(
        &self,
        alloc: Global,
        leaf_parameters: &LeafParam<P>,
        hasher: &mut T,
        root: &P::InnerDigest,
        mut leaves: I,
    ) -> Result<bool, Error>
    where
        P::Leaf: 'a,
        requires { I.can_next leaves }
        ensures answer { (behind : I) × AnswersOver I.next_gives
            (λ leaf. P.LeafHash.meaning leaf_parameters.now leaf.now) leaves behind
            (λ digests. multi_verdict (T.pair hasher.old) digests (P.multi_way self.now)
            (P.InnerDigest.numbers root.now)) result }

        // Of a tree's own multi-proof with its leaves, each place above them is asked once.
        ensures exact { IfOk result (λ accepted. accepted ≡ true → CountsOwn I.next_gives
            (λ leaf. P.LeafHash.meaning leaf_parameters.now leaf.now) leaves (T.pair hasher.old)
            (P.InnerDigest.numbers root.now) (P.multi_way self.now) (T.counted hasher.old)
            (T.counted hasher.new)) }

        // Whatever is answered, no more are asked than those of each index.
        ensures most { T.counted hasher.new ≤ T.counted hasher.old +
            (most_asked (P.multi_way self.now)) }
        ensures same { T.pair hasher.new ≡ T.pair hasher.old }
    {
        self.verify_next_with(alloc, leaf_parameters, hasher, root, &mut leaves)
    }

    /// Acts as `verify_with`, of the leaves that a borrowed iterator gives next.
    pub fn verify_next_with<
        'a,
        T: PairHasher<P::LeafDigest, P::InnerDigest>,
        I: Iterator<Item = &'a P::Leaf>,
    >(
        &self,
        alloc: Global,
        leaf_parameters: &LeafParam<P>,
        hasher: &mut T,
        root: &P::InnerDigest,
        leaves: &mut I,
    ) -> Result<bool, Error>
    where
        P::Leaf: 'a,
        requires { I.can_next leaves.old }
        ensures answer { AnswersOver I.next_gives
            (λ leaf. P.LeafHash.meaning leaf_parameters.now leaf.now) leaves.old leaves.new
            (λ digests. multi_verdict (T.pair hasher.old) digests (P.multi_way self.now)
            (P.InnerDigest.numbers root.now)) result }
        ensures exact { IfOk result (λ accepted. accepted ≡ true → CountsOwn I.next_gives
            (λ leaf. P.LeafHash.meaning leaf_parameters.now leaf.now) leaves.old (T.pair hasher.old)
            (P.InnerDigest.numbers root.now) (P.multi_way self.now) (T.counted hasher.old)
            (T.counted hasher.new)) }
        ensures most { T.counted hasher.new ≤ T.counted hasher.old +
            (most_asked (P.multi_way self.now)) }
        ensures same { T.pair hasher.new ≡ T.pair hasher.old }
    {
        let mut above = Vec::new(alloc);
        let mut table = Table::new(alloc);
        judge_all::<P::LeafHash, P::InnerDigest, T, I>(
            alloc,
            leaf_parameters,
            hasher,
            root,
            leaves,
            &self.leaf_siblings_hashes,
            &self.auth_paths_prefix_lenghts,
            &self.auth_paths_suffixes,
            &self.leaf_indexes,
            &mut above,
            &mut table,
        )
    }
}
