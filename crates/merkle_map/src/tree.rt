//! Trees of maps: a store hides nothing, a proof hides what it does not need.

ghost use Rattle.std.specs.Prelude.{◌≡◌, [], false, true, List, IfOk, OnOk, OnErr, Ok};
ghost use Rattle.ark_base.specs.Outcome.{Answers, AnswersBy};
ghost use Rattle.merkle_map.specs.Bytes.{spelled, tree_of_bytes, IsOf32, ReadsBack};
ghost use Rattle.merkle_map.specs.Changes.{known_at, tree_with_value, tree_without};
ghost use Rattle.merkle_map.specs.Kept.{IsTopKept};
ghost use Rattle.merkle_map.specs.KeyProof.{proof_at, proof_seen, IsKeyProofAccepted};
ghost use Rattle.merkle_map.specs.Map.{Entry as EntryOf, MapHashes, put, root_of_map, without};
ghost use Rattle.merkle_map.specs.Order.{next_seen, pair_seen, HasNext, IsNextKnown};
ghost use Rattle.merkle_map.specs.Parts.{found_seen, top_shape, value_seen};
ghost use Rattle.merkle_map.specs.Pruned.{pruned, CanChange, CanLose, KnowsSame, ShowsSame};
ghost use Rattle.merkle_map.specs.Rows.{rows_of};
ghost use Rattle.merkle_map.specs.Shown.{BindsTree, Follows, FollowsBy, Has, has_digest};
ghost use Rattle.merkle_map.specs.Tree.{shape_digest, Empty, Hidden, IsWhole, Shows, StandsAt};
ghost use Rattle.merkle_map.specs.Whole.{IsRootOf, Stores};

use crate::bytes::part_of_bytes;
use crate::hasher::{MapHasher, MapViews};
use crate::key::are_same_digests;
use crate::part::Part;
use crate::proof::KeyProof;
use crate::together::FEW;
use crate::top::{
    Top, climb_top, digest_of_top, fill_top, find_top, forget_top, next_top, prune_top,
    push_rows_of_top, put_top, remove_top, write_top,
};
use ark_base::error::Error;
use ark_base::serialize::DigestItem;
use std::alloc::Global;
use std::marker::Model;

/// The tree of a map, of which parts may be hidden but for their digests.
///
/// A tree that hides nothing is a store. One that hides what some keys do not need is a proof of what the map has at these
/// keys, and the witness of their changes. Contracts see the tree, its digests by their numbers.
#[derive(Drop)]
pub struct MapTree<D: DigestItem> {
    top: Top<D>,
}

impl<D: DigestItem> Model for MapTree<D> {
    ghost use Rattle.std.specs.Prelude.{[]};
    ghost use Rattle.merkle_map.specs.Kept.{IsTopKept};
    ghost use Rattle.merkle_map.specs.Map.{MapHashes};
    ghost use Rattle.merkle_map.specs.Parts.{top_shape};
    ghost use Rattle.merkle_map.specs.Tree.{Shape, StandsAt};
    ghost use Rattle.merkle_map.specs.Coded.{shape_code};

    ghost Value = { Shape };

    ghost coded = { shape_code };

    ghost view = { λ tree. top_shape D.numbers tree.top };

    // It keeps no digest, since its calls may take any hasher: what it kept would have to be the digest for each.
    ghost invariant = { λ tree. StandsAt [] (top_shape D.numbers tree.top)
        × ((h : MapHashes) → IsTopKept D.numbers h tree.top) };
}

impl<D: DigestItem> MapTree<D> {
    /// Returns the tree of an empty map.
    pub fn new() -> MapTree<D>
        ensures { result ≡ Empty }
    {
        MapTree {
            top: Top::Shown { part: Part::Empty },
        }
    }

    /// Returns a tree of which only the digest is known.
    pub fn hidden(digest: D) -> MapTree<D>
        ensures { result ≡ Hidden (D.numbers digest) }
    {
        MapTree {
            top: Top::Digest { digest },
        }
    }

    // Returns the tree in its parts, which keep no digest.
    pub(crate) fn into_top(self) -> Top<D>
        ensures shape { top_shape D.numbers result ≡ self }
        ensures stands { StandsAt [] (top_shape D.numbers result) }
        ensures none { (h : MapHashes) → IsTopKept D.numbers h result }
    {
        self.top
    }

    // Returns the tree of parts that keep no digest.
    pub(crate) fn of_top(top: Top<D>) -> MapTree<D>
        requires stands { StandsAt [] (top_shape D.numbers top) }
        requires none { (h : MapHashes) → IsTopKept D.numbers h top }
        ensures { result ≡ top_shape D.numbers top }
    {
        MapTree { top }
    }

    /// Returns what the map has at a key. The error is `HIDDEN`: the tree hides it.
    pub fn get(&self, key: &[u8; 32]) -> Result<Option<&[u8; 32]>, Error>
        ensures found { known_at 0 key.now self.now
            ≡ found_seen (λ value. value.now) result }

        // Each map that the tree shows has this at the key.
        ensures maps { IfOk result (λ found. Has self.now key.now
            (value_seen (λ value. value.now) found)) }
    {
        find_top(&self.top, key)
    }

    /// Returns the entry with the least key from `first` to `last`, both with them, or `None` where there is none: its key and its
    /// value. From a key above each that was found, these are all entries to `last`: so a tree that hides nothing there is their
    /// proof. The error is `HIDDEN`: the tree hides a part that may have it.
    pub fn next(
        &self,
        first: &[u8; 32],
        last: &[u8; 32],
    ) -> Result<Option<([u8; 32], [u8; 32])>, Error>
        ensures next { IsNextKnown true true 0 first.now last.now self.now (next_seen result) }

        // Each map that the tree shows has this entry there first, or none.
        ensures maps { IfOk result (λ found. HasNext self.now first.now last.now
            (pair_seen found)) }
    {
        next_top(&self.top, first, last)
    }

    /// Puts a value at a key.
    ///
    /// Errors, which leave the tree unchanged: `HIDDEN`: the tree hides the key's place; `OutOfMemory`.
    pub fn insert(&mut self, alloc: Global, key: &[u8; 32], value: [u8; 32]) -> Result<(), Error>
        ensures changed { AnswersBy (λ _. self.new)
            (tree_with_value key.now value self.old)
            result }
        ensures kept { OnErr result (self.new ≡ self.old) }

        // Each map that the tree showed is shown now with the value at the key.
        ensures maps { OnOk result (Follows (put key.now value) self.old self.new) }

        // A store becomes the store of the map with the value.
        ensures store { Stores (put key.now value) self.old self.new result }
    {
        put_top(alloc, &mut self.top, key, value)
    }

    /// Removes a key. A tree that has nothing at the key stays as it is.
    ///
    /// Errors, which leave the tree unchanged: `HIDDEN`: the tree hides what is at the key, what stands alone once the entry is
    /// gone, or a tree with the digest of nothing beside an entry that is left; `OutOfMemory`.
    pub fn remove<H: MapViews<Input = [u8; 32], Output = D>>(
        &mut self,
        alloc: Global,
        hasher: &MapHasher<H>,
        key: &[u8; 32],
    ) -> Result<(), Error>
        ensures changed { AnswersBy (λ _. self.new)
            (tree_without (H.hashes hasher.now).nothing key.now self.old) result }
        ensures kept { OnErr result (self.new ≡ self.old) }

        // Each map that the tree showed is shown now without the key.
        ensures maps { OnOk result (FollowsBy (H.hashes hasher.now) (without key.now) self.old
            self.new) }

        // A store becomes the store of the map without the key.
        ensures store { Stores (without key.now) self.old self.new result }
    {
        remove_top(alloc, hasher, &mut self.top, key)
    }

    /// Returns the digest of the tree. Errors: those of the hashes, the lowest first, then the leftmost; `OutOfMemory`.
    pub fn root<H: MapViews<Input = [u8; 32], Output = D>>(
        &self,
        alloc: Global,
        hasher: &MapHasher<H>,
    ) -> Result<D, Error>
        ensures digest { AnswersBy D.numbers (shape_digest (H.hashes hasher.now) self.now) result }

        // It is the root of each map that the tree shows.
        ensures maps { (entries : List EntryOf) → Shows (H.hashes hasher.now) 0 self.now entries
            → root_of_map (H.hashes hasher.now) entries
            ≡ shape_digest (H.hashes hasher.now) self.now }
        ensures store { IsRootOf (H.hashes hasher.now) self.now }
    {
        digest_of_top(alloc, hasher, &self.top)
    }

    /// Returns whether the tree has this root. Errors: as of `root`.
    pub fn has_root<H: MapViews<Input = [u8; 32], Output = D>>(
        &self,
        alloc: Global,
        hasher: &MapHasher<H>,
        root: &D,
    ) -> Result<bool, Error>
        ensures answer { Answers (has_digest (H.hashes hasher.now) (D.numbers root.now) self.now)
            result }

        // It shows each map with this root, or below some bits the tree and the map's own tree have two different nodes with
        // one hash.
        ensures bound { IfOk result (λ accepted. accepted ≡ true
            → BindsTree (H.hashes hasher.now) (D.numbers root.now) self.now) }
    {
        let digest = self.root(alloc, hasher)?;
        Ok(are_same_digests(&digest, root))
    }

    /// Acts as `root`, and hashes the nodes of one height together: for a proof of many keys, or a store. Meanwhile the tree
    /// keeps the digest of each fork.
    pub fn root_together<H: MapViews<Input = [u8; 32], Output = D>>(
        &mut self,
        alloc: Global,
        hasher: &MapHasher<H>,
    ) -> Result<D, Error>
        ensures digest { AnswersBy D.numbers (shape_digest (H.hashes hasher.now) self.old) result }

        // It is the root of each map that the tree shows.
        ensures maps { (entries : List EntryOf) → Shows (H.hashes hasher.now) 0 self.old entries
            → root_of_map (H.hashes hasher.now) entries
            ≡ shape_digest (H.hashes hasher.now) self.old }
        ensures store { IsRootOf (H.hashes hasher.now) self.old }
        ensures kept { self.new ≡ self.old }
    {
        let digest = fill_top(alloc, hasher, &mut self.top, FEW);
        forget_top(&mut self.top);
        digest
    }

    /// Acts as `has_root`, and hashes the nodes of one height together, as `root_together`.
    pub fn has_root_together<H: MapViews<Input = [u8; 32], Output = D>>(
        &mut self,
        alloc: Global,
        hasher: &MapHasher<H>,
        root: &D,
    ) -> Result<bool, Error>
        ensures answer { Answers (has_digest (H.hashes hasher.now) (D.numbers root.now) self.old)
            result }

        // It shows each map with this root, or below some bits the tree and the map's own tree have two different nodes with
        // one hash.
        ensures bound { IfOk result (λ accepted. accepted ≡ true
            → BindsTree (H.hashes hasher.now) (D.numbers root.now) self.old) }
        ensures kept { self.new ≡ self.old }
    {
        let own = self.root_together(alloc, hasher)?;
        Ok(are_same_digests(&own, root))
    }

    // Copies the tree without what no key's way meets, or with the tops of that which removals need.
    fn pruned_for<H: MapViews<Input = [u8; 32], Output = D>>(
        &self,
        alloc: Global,
        hasher: &MapHasher<H>,
        tops: bool,
        keys: &[[u8; 32]],
    ) -> Result<MapTree<D>, Error>
        ensures answer { AnswersBy (λ new. new) (pruned (H.hashes hasher.now) tops false 0
            keys.now self.now) result }
        ensures digest { IfOk result (λ new. shape_digest (H.hashes hasher.now) new
            ≡ shape_digest (H.hashes hasher.now) self.now) }
        ensures known { IfOk result (KnowsSame keys.now self.now) }
        ensures maps { IfOk result (ShowsSame (H.hashes hasher.now) self.now) }
        ensures stands { StandsAt [] self.now }
    {
        let top = prune_top(alloc, hasher, tops, &self.top, keys)?;
        Ok(MapTree { top })
    }

    /// Copies the tree and hides what stands beside the ways of these keys: the proof of what the map has at them. A value can
    /// be put at each of them.
    ///
    /// Errors: those of the hashes, the lowest first, then the leftmost; `OutOfMemory`.
    pub fn prove<H: MapViews<Input = [u8; 32], Output = D>>(
        &self,
        alloc: Global,
        hasher: &MapHasher<H>,
        keys: &[[u8; 32]],
    ) -> Result<MapTree<D>, Error>
        ensures answer { AnswersBy (λ new. new) (pruned (H.hashes hasher.now) false false 0
            keys.now self.now) result }

        // The proof has the tree's root, and has the same as the tree at each of the keys.
        ensures digest { IfOk result (λ new. shape_digest (H.hashes hasher.now) new
            ≡ shape_digest (H.hashes hasher.now) self.now) }
        ensures known { IfOk result (KnowsSame keys.now self.now) }
        ensures maps { IfOk result (ShowsSame (H.hashes hasher.now) self.now) }
    {
        self.pruned_for(alloc, hasher, false, keys)
    }

    /// Copies the tree as `prove` does, and shows the tops of what stands alone once all keys are removed: the witness of changes.
    /// On the witness of a tree that hides nothing all changes of these keys can be made, in any order.
    ///
    /// Errors: those of the hashes, the lowest first, then the leftmost; `OutOfMemory`.
    pub fn witness<H: MapViews<Input = [u8; 32], Output = D>>(
        &self,
        alloc: Global,
        hasher: &MapHasher<H>,
        keys: &[[u8; 32]],
    ) -> Result<MapTree<D>, Error>
        ensures answer { AnswersBy (λ new. new) (pruned (H.hashes hasher.now) true false 0
            keys.now self.now) result }
        ensures digest { IfOk result (λ new. shape_digest (H.hashes hasher.now) new
            ≡ shape_digest (H.hashes hasher.now) self.now) }
        ensures known { IfOk result (KnowsSame keys.now self.now) }
        ensures maps { IfOk result (ShowsSame (H.hashes hasher.now) self.now) }
        ensures removes { IfOk result (λ new. IsWhole self.now
            → CanLose (H.hashes hasher.now).nothing keys.now new) }
        ensures changes { IfOk result (λ new. IsWhole self.now
            → CanChange (H.hashes hasher.now).nothing keys.now new) }
    {
        self.pruned_for(alloc, hasher, true, keys)
    }

    /// Returns the proof of what the map has at one key.
    ///
    /// Errors: that of the highest side beside the key's way whose hash refuses; `HIDDEN`: the tree hides what is at the key;
    /// `OutOfMemory`.
    pub fn prove_key<H: MapViews<Input = [u8; 32], Output = D>>(
        &self,
        alloc: Global,
        hasher: &MapHasher<H>,
        key: &[u8; 32],
    ) -> Result<KeyProof<D>, Error>
        ensures answer { AnswersBy (proof_seen D.numbers) (proof_at (H.hashes hasher.now) 0 key.now
            self.now) result }

        // The tree's root accepts it.
        ensures accepted { IfOk result (λ proof. IsKeyProofAccepted (H.hashes hasher.now) key.now
            self.now
            (proof_seen D.numbers proof)) }
    {
        let mut siblings = Vec::new(alloc);
        let end = climb_top(alloc, hasher, &self.top, key, &mut siblings)?;
        Ok(KeyProof { end, siblings })
    }
}

impl MapTree<[u8; 32]> {
    /// Returns the tree's bytes. The only error is `OutOfMemory`.
    pub fn to_bytes(&self, alloc: Global) -> Result<Vec<u8>, Error>
        ensures written { AnswersBy (λ bytes. bytes.items) (Ok (spelled self.now)) result }
        ensures sized { IfOk result (λ _. IsOf32 self.now) }
    {
        let mut bytes = Vec::new(alloc);
        write_top(&self.top, &mut bytes)?;
        Ok(bytes)
    }

    /// Returns the tree's digest, and a row of 97 bytes for each of its nodes that it does not hide, those below before those
    /// above: the node's digest, and the bytes that a store keeps: for an entry 0, key and value; for a fork 1 and two digests.
    ///
    /// Errors: those of the hashes, the lowest first, then the leftmost; `OutOfMemory`.
    pub fn rows<H: MapViews<Input = [u8; 32], Output = [u8; 32]>>(
        &self,
        alloc: Global,
        hasher: &MapHasher<H>,
    ) -> Result<([u8; 32], Vec<u8>), Error>
        ensures rows { AnswersBy (λ made. (made.0, made.1.items)) (rows_of (H.hashes hasher.now)
            self.now) result }
        ensures digest { AnswersBy (λ made. made.0) (shape_digest (H.hashes hasher.now) self.now)
            result }
    {
        let mut rows = Vec::new(alloc);
        let digest = push_rows_of_top(alloc, hasher, &self.top, &mut rows)?;
        Ok((digest, rows))
    }

    /// Reads the tree that all the bytes spell: a store, a proof or a witness.
    ///
    /// Errors: the first fault from the left: `Truncated`; `InvalidData`: a byte that stands for nothing, or a fork below the last
    /// bit of a key; else `InvalidData`: an entry that is not on its key's way, a fork above fewer than two entries, or bytes that
    /// are left; `OutOfMemory`.
    pub fn from_bytes(alloc: Global, bytes: &[u8]) -> Result<MapTree<[u8; 32]>, Error>
        ensures answer { AnswersBy (λ tree. tree) (tree_of_bytes bytes.now) result }

        // The bytes are those of the tree, and of no other one.
        ensures only { IfOk result (λ tree. bytes.now ≡ spelled tree) }

        // What was written is read again.
        ensures reads { ReadsBack bytes.now }
    {
        let part = part_of_bytes(alloc, bytes)?;
        Ok(MapTree {
            top: Top::Shown { part },
        })
    }
}
