//! Changes of leaves.

ghost use Rattle.std.specs.Prelude.{◌≡◌, ◌<◌, ◌/◌, ◌^◌, ℕ, suc, [], true, false, map, length, get_or, set, IfOk, OnErr, Ok};
ghost use Rattle.ark_base.specs.Outcome.{Answers, AnswersBy};
ghost use Rattle.ark_paths.specs.Root.{root, upper_levels};
ghost use Rattle.ark_paths.specs.Rows.{IsTree, HoldsIndex, digests_of};
ghost use Rattle.ark_merkle.specs.Update.{with_leaf, new_root, change_agrees, ChangesWay};

use crate::tree::MerkleTree;
use crate::tree::levels::Levels;
use ark_base::error::Error;
use ark_base::serialize::DigestItem;
use ark_paths::digests::are_same;
use ark_paths::hasher::TreeHasher;
use ark_paths::index::{is_bit_set, neighbour_of};
use ark_paths::pair::{hash_leaves, hash_upper};
use ark_paths::views::Views;
use std::alloc::Global;

impl<P: Views> MerkleTree<P> {
    /// Puts a leaf in the place of the one at an index below the size.
    ///
    /// Errors, which leave the tree as it was: that of the leaf's hash; else that of the new leaf digests' halving;
    /// `OutOfMemory`.
    pub fn update(&mut self, alloc: Global, index: usize, new_leaf: &P::Leaf) -> Result<(), Error>
        requires { index < length self.old.leaves }
        ensures tree { AnswersBy (λ _. P.tree self.new)
            (with_leaf (P.tree self.old) index new_leaf.now) result }
        ensures refused { OnErr result (self.new ≡ self.old) }
    {
        let (hasher, leaves, rows) = self.parts();
        let (digest, way) = changed_way(alloc, &hasher, leaves, rows, index, new_leaf)?;
        self.put_leaf(index, digest, way);
        Ok(())
    }

    /// Acts as `update` where the new root is the asserted one, and then `true`; else the tree is left as it was.
    ///
    /// Errors: those of `update`, whatever is asserted.
    pub fn check_update(
        &mut self,
        alloc: Global,
        index: usize,
        new_leaf: &P::Leaf,
        asserted_new_root: &P::InnerDigest,
    ) -> Result<bool, Error>
        requires { index < length self.old.leaves }
        ensures agrees { Answers (change_agrees (P.tree self.old) index new_leaf.now
            (P.InnerDigest.numbers asserted_new_root.now)) result }
        ensures tree { IfOk result (λ agrees. agrees ≡ true → with_leaf (P.tree self.old) index
            new_leaf.now ≡ Ok (P.tree self.new)) }
        ensures kept { IfOk result (λ agrees. agrees ≡ false → self.new ≡ self.old) }
        ensures refused { OnErr result (self.new ≡ self.old) }
    {
        let (hasher, leaves, rows) = self.parts();
        let (digest, on_way) = changed_way(alloc, &hasher, leaves, rows, index, new_leaf)?;
        let agrees = are_same(&on_way[on_way.len() - 1], asserted_new_root);
        if agrees {
            self.put_leaf(index, digest, on_way);
        }
        Ok(agrees)
    }
}

impl<P: Views> MerkleTree<P> {
    // Puts a leaf digest in its place, and those on its way in theirs.
    fn put_leaf(&mut self, index: usize, digest: P::LeafDigest, way: Vec<P::InnerDigest>)
        requires index { index < length self.old.leaves }
        requires way { ChangesWay (P.tree self.old).hashes.pair (P.tree self.old).leaves index
            (P.LeafDigest.numbers digest) (digests_of P.InnerDigest.numbers way) }
        ensures { let old = P.tree self.old in
            let leaves = set old.leaves index (P.LeafDigest.numbers digest) in
            P.tree self.new ≡ record { hashes = old.hashes; leaves = leaves } }
    {
        self.leaves[index] = digest;
        put_way(&mut self.rows, index, way);
    }
}

// The digest of a leaf, and those on the way of an index where it stands there.
fn changed_way<L: DigestItem, D: DigestItem, T: TreeHasher<L, D>>(
    alloc: Global,
    hasher: &T,
    leaves: &[L],
    rows: &Levels<D>,
    index: usize,
    leaf: &T::Leaf,
) -> Result<(L, Vec<D>), Error>
    requires tree { IsTree (T.hashes hasher.now).pair (map L.numbers leaves.now) rows.now }
    requires index { index < length leaves.now }
    requires fits { length leaves.now < 2 ^ 64 }
    ensures digest { IfOk result (λ r. (T.hashes hasher.now).leaf leaf.now ≡ Ok (L.numbers r.0)) }
    ensures way { IfOk result
        (λ r. ChangesWay (T.hashes hasher.now).pair (map L.numbers leaves.now) index
        (L.numbers r.0) (digests_of D.numbers r.1)) }
    ensures root { AnswersBy (λ r. get_or (digests_of D.numbers r.1)
        (upper_levels (map L.numbers leaves.now)) []) (new_root (T.hashes hasher.now).pair
        ((T.hashes hasher.now).leaf leaf.now) index (map L.numbers leaves.now)) result }
{
    let digest = hasher.leaf(alloc, leaf)?;
    let way = new_way(alloc, hasher, leaves, rows, index, &digest)?;
    Ok((digest, way))
}

// The digests on the way of an index, the lowest first, where this digest stands there.
fn new_way<L: DigestItem, D: DigestItem, T: TreeHasher<L, D>>(
    alloc: Global,
    hasher: &T,
    leaves: &[L],
    rows: &Levels<D>,
    index: usize,
    digest: &L,
) -> Result<Vec<D>, Error>
    requires tree { IsTree (T.hashes hasher.now).pair (map L.numbers leaves.now) rows.now }
    requires index { index < length leaves.now }
    requires fits { length leaves.now < 2 ^ 64 }
    ensures way { IfOk result
        (λ way. ChangesWay (T.hashes hasher.now).pair (map L.numbers leaves.now) index
        (L.numbers digest.now) (digests_of D.numbers way)) }
    ensures root { AnswersBy (λ way. get_or (digests_of D.numbers way)
        (upper_levels (map L.numbers leaves.now)) [])
        (root (T.hashes hasher.now).pair (set (map L.numbers leaves.now) index
        (L.numbers digest.now))) result }
{
    let mut way = Vec::with_capacity(alloc, rows.len())?;
    let sibling = &leaves[neighbour_of(index)];
    let is_right = is_bit_set(index, 0);
    way.push(hash_leaves(alloc, hasher, is_right, digest, sibling)?)?;
    for level in 1..rows.len() {
        let sibling = rows.at(level - 1, neighbour_of(index >> level));
        let up = hash_upper(
            alloc,
            hasher,
            is_bit_set(index, level),
            &way[level - 1],
            sibling,
        )?;
        way.push(up)?;
    }
    Ok(way)
}

// Puts the digests on the way of an index into the rows.
fn put_way<D: DigestItem>(rows: &mut Levels<D>, index: usize, mut way: Vec<D>)
    requires holds { HoldsIndex rows.old index }
    requires count { length way.items ≡ length rows.old }
    ensures count { length rows.new ≡ length rows.old }
    ensures rows { (k : ℕ) → k < length rows.old → get_or rows.new k []
        ≡ set (get_or rows.old k []) (index / 2 ^ suc k) (get_or (digests_of D.numbers way) k []) }
{
    for level in 0..way.len() {
        rows.exchange(level, index >> (level + 1), &mut way[level]);
    }
}
