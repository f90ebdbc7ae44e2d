//! Paths from a leaf to the root.

ghost use Rattle.std.specs.Prelude.{◌≡◌, true, map, IfOk};
ghost use Rattle.std.proofs.Common.{lit<};
ghost use Rattle.ark_base.specs.Outcome.{Answers, AnswersBy};
ghost use Rattle.ark_paths.specs.Bind.{BindsLeaf};
ghost use Rattle.ark_paths.specs.PathBytes.{PathParts, PathFits, path_spelling, path_at};
ghost use Rattle.ark_paths.specs.Laws.Path.{path_laws, path_is_long};
ghost use Rattle.ark_paths.specs.Path.{Way, climb, path_root, verdict};

use crate::config::{Config, LeafParam, TwoToOneParam};
use crate::digests::copies_of;
use crate::hasher::{ConfigHasher, TreeHasher};
use crate::index::is_bit_set;
use crate::pair::{hash_leaves, hash_upper};
use crate::views::Views;
use ark_base::error::Error;
use ark_base::serialize::{
    Canonical, CanonicalDeserialize, CanonicalItem, CanonicalSerialize, DigestItem, Duplicate,
};
use std::alloc::Global;

/// The digests beside the way from a leaf to the root.
#[derive(Drop)]
#[derive_where(Debug, PartialEq)]
pub struct Path<P: Config> {
    /// The digest beside the leaf's.
    pub leaf_sibling_hash: P::LeafDigest,
    /// The digests beside the way above it, from below the root down: height - 2 of them.
    pub auth_path: Vec<P::InnerDigest>,
    /// The leaf's index: bit 0 for the leaf digests, and a bit more for each level above.
    pub leaf_index: usize,
}

impl<P: Config> Duplicate for Path<P> {
    ghost Data = { Way };

    ghost seen = { λ path. record {
      sibling = P.LeafDigest.numbers path.leaf_sibling_hash;
      above = map P.InnerDigest.numbers path.auth_path.items;
      index = path.leaf_index;
    } };

    fn duplicate(&self, alloc: Global) -> Result<Path<P>, Error> {
        Ok(Path {
            leaf_sibling_hash: self.leaf_sibling_hash.duplicate(alloc)?,
            auth_path: copies_of(alloc, &self.auth_path)?,
            leaf_index: self.leaf_index,
        })
    }
}

impl<P: Config> Canonical for Path<P> {
    ghost Value = { PathParts P.LeafDigest.Value P.InnerDigest.Value };

    ghost view = { λ path. (
      P.LeafDigest.view path.leaf_sibling_hash,
      (map P.InnerDigest.view path.auth_path.items, path.leaf_index),
    ) };

    ghost has_spelling = { PathFits P.LeafDigest.has_spelling P.InnerDigest.has_spelling };

    ghost spelling = { path_spelling P.LeafDigest.spelling P.InnerDigest.spelling };

    ghost reads = { path_at P.LeafDigest.reads P.InnerDigest.reads };

    ghost laws = { path_laws P.LeafDigest.has_spelling P.LeafDigest.spelling P.LeafDigest.reads
        P.InnerDigest.has_spelling P.InnerDigest.spelling P.InnerDigest.reads
        P.LeafDigest.Canonical.laws P.InnerDigest.Canonical.laws };
}

impl<P: Config> CanonicalSerialize for Path<P> {
    fn serialize(&self, dest: &mut Vec<u8>) -> Result<(), Error> {
        (&self.leaf_sibling_hash, (&self.auth_path, &self.leaf_index)).serialize(dest)
    }
}

// A path's fields, in the order of its canonical bytes.
type Parts<P> = (
    <P as Config>::LeafDigest,
    (Vec<<P as Config>::InnerDigest>, usize),
);

impl<P: Config> CanonicalDeserialize for Path<P> {
    /// Errors: the first fault from the left, `Truncated` where a part ends early, `InvalidData` where a digest's bytes
    /// are none; `OutOfMemory`.
    fn read(alloc: Global, bytes: &[u8]) -> Result<(Path<P>, usize), Error> {
        let ((leaf_sibling_hash, (auth_path, leaf_index)), used) = Parts::<P>::read(alloc, bytes)?;
        Ok((
            Path {
                leaf_sibling_hash,
                auth_path,
                leaf_index,
            },
            used,
        ))
    }
}

impl<P: Config> CanonicalItem for Path<P> {
    ghost LEAST = { 17 };

    const LEAST: usize = 17;

    ghost some = { lit< tt };

    ghost at_least = { λ path fits. path_is_long P.LeafDigest.spelling P.InnerDigest.spelling path
        (P.LeafDigest.CanonicalItem.at_least path.0 fits.0) P.LeafDigest.CanonicalItem.some };
}

impl<P: Views> Path<P> {
    /// Returns whether the leaf's digest gives the root along this path.
    ///
    /// The path may have any length, and the index any bits: those past its length do not count. Errors: that of the
    /// leaf's hash, then that of the lowest pair, and so upward; `OutOfMemory`.
    pub fn verify(
        &self,
        alloc: Global,
        leaf_parameters: &LeafParam<P>,
        pair_parameters: &TwoToOneParam<P>,
        root: &P::InnerDigest,
        leaf: &P::Leaf,
    ) -> Result<bool, Error>
        ensures answer { let hashes = P.hashes leaf_parameters.now pair_parameters.now in
            let given = P.InnerDigest.numbers root.now in
            Answers (verdict hashes.pair (hashes.leaf leaf.now) (P.way self.now) given) result }

        // In every tree with this root whose height the path has, the leaf's digest stands at the index modulo the size, or
        // at some level the path's pair and the tree's differ and hash alike.
        ensures bound { IfOk result (λ accepted. accepted ≡ true
            → BindsLeaf (P.hashes leaf_parameters.now pair_parameters.now)
            (P.InnerDigest.numbers root.now) leaf.now (P.way self.now)) }
    {
        let hasher = ConfigHasher::<P>::new(leaf_parameters, pair_parameters);
        verify_leaf(
            alloc,
            &hasher,
            root,
            leaf,
            &self.leaf_sibling_hash,
            &self.auth_path,
            self.leaf_index,
        )
    }
}

// Whether a leaf's digest gives the root along the path of these parts.
fn verify_leaf<L: DigestItem, D: DigestItem, T: TreeHasher<L, D>>(
    alloc: Global,
    hasher: &T,
    root: &D,
    leaf: &T::Leaf,
    sibling: &L,
    above: &[D],
    index: usize,
) -> Result<bool, Error>
    ensures { let way : Way = record {
      sibling = L.numbers sibling.now;
      above = map D.numbers above.now;
      index = index;
    } in
        Answers (verdict (T.hashes hasher.now).pair ((T.hashes hasher.now).leaf leaf.now) way
        (D.numbers root.now)) result }
{
    let digest = hasher.leaf(alloc, leaf)?;
    let top = top_of(alloc, hasher, &digest, sibling, above, index)?;
    Ok(top == *root)
}

// What a path gives for a leaf's digest.
fn top_of<L: DigestItem, D: DigestItem, T: TreeHasher<L, D>>(
    alloc: Global,
    hasher: &T,
    digest: &L,
    sibling: &L,
    above: &[D],
    index: usize,
) -> Result<D, Error>
    ensures { let way : Way = record {
      sibling = L.numbers sibling.now;
      above = map D.numbers above.now;
      index = index;
    } in
        AnswersBy D.numbers (path_root (T.hashes hasher.now).pair way (L.numbers digest.now))
        result }
{
    let is_right = is_bit_set(index, 0);
    let lowest = hash_leaves(alloc, hasher, is_right, digest, sibling)?;
    climb(alloc, hasher, index, above, lowest)
}

// What the digests beside a way make of the lowest one on it.
fn climb<L: DigestItem, D: DigestItem, T: TreeHasher<L, D>>(
    alloc: Global,
    hasher: &T,
    index: usize,
    beside: &[D],
    mut current: D,
) -> Result<D, Error>
    ensures { AnswersBy D.numbers (climb (T.hashes hasher.now).pair.upper index
        (map D.numbers beside.now) (D.numbers current)) result }
{
    for level in 0..beside.len() {
        let sibling = &beside[beside.len() - 1 - level];
        let is_right = is_bit_set(index, level + 1);
        current = hash_upper(alloc, hasher, is_right, &current, sibling)?;
    }
    Ok(current)
}
