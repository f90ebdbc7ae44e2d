//! Logs that keep the digests of their complete subtrees.

ghost use Rattle.std.specs.Prelude.{◌≡◌, ◌⊎◌, ◌<◌, ◌≤◌, ◌+◌, ◌-◌, ◌^◌, ◌++◌, ◌∷◌, ℕ, suc, List, [], true, length, map, get_or, reverse, take, IfOk, IfErr, OnOk, OnErr, Ok, Err, Some, None};
ghost use Rattle.ark_base.specs.declared.error.Error.TheVariants.{OutOfMemory};
ghost use Rattle.ark_base.specs.Outcome.{AnswersBy};
ghost use Rattle.ark_paths.specs.Index.{neighbour};
ghost use Rattle.ark_paths.specs.Pair.{Digest};
ghost use Rattle.ark_paths.specs.Root.{all_hashes, root_of};
ghost use Rattle.ark_paths.specs.Rows.{digests_of};
ghost use Rattle.ark_paths.specs.Tree.{halves_beside};
ghost use Rattle.merkle_log.specs.Append.{AppendsLeaves, GrowsTo, HasLeaf, HasLeaves, IsWholeList, KeepsSizes, RefusesLeaves, RefusesRow, pair_count};
ghost use Rattle.merkle_log.specs.Binding.{is_accepted, HighestIn, LeafHighestIn, leaf_verdict_in, verdict_in};
ghost use Rattle.merkle_log.specs.declared.bind.LogBinding.TheVariants.{Rejected, Stands, Collides};
ghost use Rattle.merkle_log.specs.Edge.{all_of, beside_pairs, root_pairs};
ghost use Rattle.merkle_log.specs.Log.{LogValue, both_levels, inclusion_path, consistency_path, root_at, with_more};
ghost use Rattle.merkle_log.specs.Stored.{row_at, IsStored};
ghost use Rattle.merkle_log.specs.Verdict.{inclusion_verdict, consistency_verdict};

mod insertion;
mod multi;

use crate::bind::{LogBinding, log_binding_of};
use crate::digests::{blank_digests, copy_of};
use crate::path_lengths::{consistency_length, inclusion_length};
use crate::paths::{consistency_path_of, inclusion_path_of};
use crate::refusing::Refusing;
use crate::rising::rows_over;
use crate::rows::root_of;
use crate::stored::Stored;
use ark_base::error::Error;
use ark_base::serialize::DigestItem;
use ark_paths::PairHasher;
use ark_paths::hasher::{Counting, TreeHasher};
use ark_paths::runs::{RUN, leaf_row, part_of};
use std::alloc::Global;
use std::marker::Model;

/// A log: a list of leaves' digests to which more are appended.
///
/// It keeps the digests of all complete subtrees in one list that only grows, in the order in which they are completed, fewer
/// than two a leaf. Contracts see its hasher, the root of no leaves, and the leaves' digests.
#[derive(Drop)]
pub struct Log<D: DigestItem, T: TreeHasher<D, D>> {
    hasher: T,
    empty: D,
    stored: Stored<D>,
}

impl<D: DigestItem, T: TreeHasher<D, D>> Model for Log<D, T> {
    ghost Value = { LogValue T };

    ghost view = { λ log. record {
      hasher = log.hasher;
      empty = D.numbers log.empty;
      digests = row_at log.stored 0;
    } };

    ghost invariant = { λ log. record {
      whole : IsWholeList log.stored;
      stored : IsStored (T.hashes log.hasher).pair.upper (row_at log.stored);
    } };
}

// Puts the digests of leaves behind a list, and hashes the pairs that they complete, a run of leaves at a time; returns how many
// pairs. An error may leave some of them.
fn append_each<D: DigestItem, T: TreeHasher<D, D>>(
    alloc: Global,
    hasher: &T,
    stored: &mut Stored<D>,
    leaves: &[T::Leaf],
) -> Result<usize, Error>
    requires whole { IsWholeList stored.old }
    requires stored { IsStored (T.hashes hasher.now).pair.upper (row_at stored.old) }
    requires fits { stored.old.size < 2 ^ 64 }
    ensures appended { OnOk result (AppendsLeaves (T.hashes hasher.now) stored.old leaves.now
        stored.new) }
    ensures extends { GrowsTo stored.old stored.new }
    ensures refused { IfErr result (λ error. (error ≡ OutOfMemory)
        ⊎ (all_hashes (T.hashes hasher.now).leaf leaves.now ≡ Err error)
        ⊎ RefusesLeaves (T.hashes hasher.now) (row_at stored.old 0) leaves.now error) }
    ensures counts { IfOk result
        (λ count. pair_count stored.old.size + count ≡ pair_count stored.new.size) }
    ensures fits { stored.new.size < 2 ^ 64 }
{
    let mut first = 0;
    let mut calls = 0;
    'runs: while first < leaves.len() {
        let count = (leaves.len() - first).min(RUN);
        let made = leaf_row(alloc, hasher, part_of(leaves, first, count))?;
        let mut rows = rows_over(alloc, hasher, stored, made)?;
        calls += stored.lay(count, &mut rows)?;
        first += count;
    }
    Ok(calls)
}

impl<D: DigestItem, T: TreeHasher<D, D>> Log<D, T> {
    /// Returns the log of no leaves, whose root is given: for RFC 6962, the hash of no bytes.
    pub fn new(alloc: Global, hasher: T, empty: D) -> Log<D, T>
        ensures { result ≡ record {
          hasher = hasher;
          empty = D.numbers empty;
          digests = [];
        } }
    {
        Log {
            hasher,
            empty,
            stored: Stored::new(alloc),
        }
    }

    /// Returns the count of leaves.
    pub fn size(&self) -> usize
        ensures { result ≡ length self.now.digests }
    {
        self.stored.size()
    }

    /// Appends a leaf. Errors, which leave the log unchanged: that of the leaf's hash; that of the pair that it completes and
    /// the hash refuses; `OutOfMemory`.
    pub fn append(&mut self, alloc: Global, leaf: &T::Leaf) -> Result<(), Error>
        ensures appended { OnOk result (HasLeaf (T.hashes self.old.hasher) self.old leaf.now
            self.new) }
        ensures kept { OnErr result (self.new ≡ self.old) }
        ensures refused { IfErr result (λ error. (error ≡ OutOfMemory)
            ⊎ ((T.hashes self.old.hasher).leaf leaf.now ≡ Err error)
            ⊎ RefusesLeaves (T.hashes self.old.hasher) self.old.digests (leaf.now ∷ [])
            error) }

        // Roots and proofs of the sizes that the log had stay.
        ensures stays { OnOk result (KeepsSizes ((T.hashes self.old.hasher).pair.upper) self.old
            self.new) }
    {
        let digest = self.hasher.leaf(alloc, leaf)?;
        self.append_digest(alloc, digest)
    }

    /// Appends a leaf's digest. Errors, which leave the log unchanged: that of the pair that it completes and the hash
    /// refuses; `OutOfMemory`.
    pub fn append_digest(&mut self, alloc: Global, digest: D) -> Result<(), Error>
        ensures appended { OnOk result (self.new ≡ with_more self.old (D.numbers digest ∷ [])) }
        ensures kept { OnErr result (self.new ≡ self.old) }
        ensures refused { IfErr result (λ error. (error ≡ OutOfMemory)
            ⊎ RefusesRow (T.hashes self.old.hasher).pair.upper
            (self.old.digests ++ (D.numbers digest ∷ [])) error) }

        // Roots and proofs of the sizes that the log had stay.
        ensures stays { OnOk result (KeepsSizes ((T.hashes self.old.hasher).pair.upper) self.old
            self.new) }
    {
        self.append_digest_counting(alloc, digest)?;
        Ok(())
    }

    /// Acts as `append_digest`, and returns how many pairs were hashed: those of the subtrees that the leaf completes.
    ///
    /// Over n appends to an empty log that is n less the count of ones of n.
    pub fn append_digest_counting(&mut self, alloc: Global, digest: D) -> Result<usize, Error>
        ensures appended { OnOk result (self.new ≡ with_more self.old (D.numbers digest ∷ [])) }
        ensures kept { OnErr result (self.new ≡ self.old) }
        ensures refused { IfErr result (λ error. (error ≡ OutOfMemory)
            ⊎ RefusesRow (T.hashes self.old.hasher).pair.upper
            (self.old.digests ++ (D.numbers digest ∷ [])) error) }
        ensures count { IfOk result
            (λ count. pair_count (length self.old.digests) + count ≡ pair_count
            (length self.new.digests)) }
    {
        let mut hasher = Counting::new(&self.hasher);
        self.stored.append(alloc, &mut hasher, digest)?;
        Ok(hasher.calls())
    }

    /// Appends leaves: as `append` of each in turn, whole or not at all. It allocates once, and a bounded run at a time.
    ///
    /// Errors, which leave the log unchanged: the first of the leaves' hash; that of the first pair that the hash refuses, on
    /// the lowest level with one, a bounded run of leaves at a time; `OutOfMemory`. Leaves are hashed ahead of the pairs that
    /// they complete, so a leaf's error may come in place of that of a pair on its left.
    pub fn append_many(&mut self, alloc: Global, leaves: &[T::Leaf]) -> Result<(), Error>
        ensures appended { OnOk result (HasLeaves (T.hashes self.old.hasher) self.old leaves.now
            self.new) }
        ensures kept { OnErr result (self.new ≡ self.old) }
        ensures refused { IfErr result (λ error. (error ≡ OutOfMemory)
            ⊎ (all_hashes (T.hashes self.old.hasher).leaf leaves.now ≡ Err error)
            ⊎ RefusesLeaves (T.hashes self.old.hasher) self.old.digests leaves.now error) }

        // Roots and proofs of the sizes that the log had stay.
        ensures stays { OnOk result (KeepsSizes ((T.hashes self.old.hasher).pair.upper) self.old
            self.new) }
    {
        self.append_many_counting(alloc, leaves)?;
        Ok(())
    }

    /// Acts as `append_many`, and returns how many pairs were hashed: for n leaves in an empty log, n less the count of
    /// ones of n.
    pub fn append_many_counting(
        &mut self,
        alloc: Global,
        leaves: &[T::Leaf],
    ) -> Result<usize, Error>
        ensures appended { OnOk result (HasLeaves (T.hashes self.old.hasher) self.old leaves.now
            self.new) }
        ensures kept { OnErr result (self.new ≡ self.old) }
        ensures refused { IfErr result (λ error. (error ≡ OutOfMemory)
            ⊎ (all_hashes (T.hashes self.old.hasher).leaf leaves.now ≡ Err error)
            ⊎ RefusesLeaves (T.hashes self.old.hasher) self.old.digests leaves.now error) }
        ensures count { IfOk result
            (λ count. pair_count (length self.old.digests) + count ≡ pair_count
            (length self.new.digests)) }
    {
        let size = self.stored.size();
        self.stored.reserve(leaves.len())?;
        match append_each(alloc, &self.hasher, &mut self.stored, leaves) {
            Ok(count) => Ok(count),
            Err(error) => {
                self.stored.cut(size);
                Err(error)
            }
        }
    }

    /// Returns the root of the first leaves: MTH(D[0:size]). Errors: those of the hash, which none of a log's own pairs but
    /// those of the right edge can have; `OutOfMemory`.
    pub fn root(&self, alloc: Global, size: usize) -> Result<D, Error>
        requires { size ≤ length self.now.digests }
        ensures root { AnswersBy D.numbers (root_at ((T.hashes self.now.hasher).pair.upper) self.now
            size) result }

        // Of a power of two above one it is the root by repeated halving, that of a tree of such leaves.
        ensures halved { IfOk result (λ root. (m : ℕ) → size ≡ 2 ^ suc m
            → root_of (both_levels (T.hashes self.now.hasher).pair.upper) m
            (take size self.now.digests) ≡ Ok (D.numbers root)) }
    {
        if size == 0 {
            return copy_of(alloc, &self.empty);
        }
        root_of(&mut Refusing::new(alloc, &self.hasher), &self.stored, size)
    }

    /// Acts as `root`, and returns how many pairs were hashed: the ones of the size less one, all of an incomplete
    /// right edge, and none for no leaves.
    pub fn root_counting(&self, alloc: Global, size: usize) -> Result<(D, usize), Error>
        requires { size ≤ length self.now.digests }
        ensures root { AnswersBy (λ counted. D.numbers counted.0)
            (root_at ((T.hashes self.now.hasher).pair.upper) self.now size) result }
        ensures count { IfOk result (λ counted. counted.1 ≡ root_pairs size) }
    {
        if size == 0 {
            return Ok((copy_of(alloc, &self.empty)?, 0));
        }
        let mut pairs = Refusing::new(alloc, &self.hasher);
        let root = root_of(&mut pairs, &self.stored, size)?;
        Ok((root, pairs.calls()))
    }

    /// Returns the path of an index of the first leaves: PATH(index, D[0:size]). Errors: those of `root`.
    pub fn inclusion_proof(&self, alloc: Global, size: usize, index: usize) -> Result<Vec<D>, Error>
        requires inside { index < size }
        requires within { size ≤ length self.now.digests }
        ensures proof { AnswersBy (digests_of D.numbers)
            (all_of (inclusion_path ((T.hashes self.now.hasher).pair.upper) self.now.empty index
            (take size self.now.digests))) result }

        // `verify_inclusion_digest` accepts it under the root of the size, for the digest at the index.
        ensures accepted { let hash = (T.hashes self.now.hasher).pair.upper in
            let own = get_or (take size self.now.digests) index [] in
            IfOk result (λ path. (root : Digest) → root_at hash self.now size ≡ Ok root
            → inclusion_verdict hash root size index own (digests_of D.numbers path) ≡ Ok true) }

        // Of a power of two above one it is, from the leaf up, the path of a tree of such leaves.
        ensures halved { IfOk result (λ path. (m : ℕ) → size ≡ 2 ^ suc m
            → digests_of D.numbers path ≡ get_or (take size self.now.digests) (neighbour index) []
            ∷ reverse (halves_beside (both_levels (T.hashes self.now.hasher).pair.upper) m index
            (take size self.now.digests))) }
    {
        let (path, _) = self.inclusion_proof_counting(alloc, size, index)?;
        Ok(path)
    }

    /// Acts as `inclusion_proof`, and returns how many pairs were hashed: those of the one subtree beside the way that
    /// may be incomplete, the ones of its count of leaves less one, and none for the last leaf.
    pub fn inclusion_proof_counting(
        &self,
        alloc: Global,
        size: usize,
        index: usize,
    ) -> Result<(Vec<D>, usize), Error>
        requires inside { index < size }
        requires within { size ≤ length self.now.digests }
        ensures proof { AnswersBy (λ counted. digests_of D.numbers counted.0)
            (all_of (inclusion_path ((T.hashes self.now.hasher).pair.upper) self.now.empty index
            (take size self.now.digests))) result }
        ensures count { IfOk result (λ counted. counted.1 ≡ beside_pairs index size) }
    {
        let length = inclusion_length(size as u64, index as u64) as usize;
        let mut path = blank_digests(alloc, length)?;
        let mut pairs = Refusing::new(alloc, &self.hasher);
        inclusion_path_of(&mut pairs, &self.stored, size, index, &mut path)?;
        Ok((path, pairs.calls()))
    }

    /// Returns the consistency proof of fewer of the first leaves: PROOF(old_size, D[0:size]). Errors: those of `root`.
    pub fn consistency_proof(
        &self,
        alloc: Global,
        old_size: usize,
        size: usize,
    ) -> Result<Vec<D>, Error>
        requires some { 0 < old_size }
        requires inside { old_size < size }
        requires within { size ≤ length self.now.digests }
        ensures proof { AnswersBy (digests_of D.numbers)
            (all_of (consistency_path ((T.hashes self.now.hasher).pair.upper) self.now.empty
            old_size (take size self.now.digests))) result }

        // `verify_consistency` accepts it under the roots of both sizes.
        ensures accepted { let hash = (T.hashes self.now.hasher).pair.upper in
            IfOk result (λ path. (old new : Digest) → root_at hash self.now old_size ≡ Ok old
            → root_at hash self.now size ≡ Ok new
            → let digests = digests_of D.numbers path in
            consistency_verdict hash old_size old size new digests ≡ Ok true) }
    {
        let (path, _) = self.consistency_proof_counting(alloc, old_size, size)?;
        Ok(path)
    }

    /// Acts as `consistency_proof`, and returns how many pairs were hashed: as many as for the path of the last of the
    /// fewer leaves.
    pub fn consistency_proof_counting(
        &self,
        alloc: Global,
        old_size: usize,
        size: usize,
    ) -> Result<(Vec<D>, usize), Error>
        requires some { 0 < old_size }
        requires inside { old_size < size }
        requires within { size ≤ length self.now.digests }
        ensures proof { AnswersBy (λ counted. digests_of D.numbers counted.0)
            (all_of (consistency_path ((T.hashes self.now.hasher).pair.upper) self.now.empty
            old_size (take size self.now.digests))) result }
        ensures count { IfOk result (λ counted. counted.1 ≡ beside_pairs (old_size - 1) size) }
    {
        let length = consistency_length(old_size as u64, size as u64) as usize;
        let mut path = blank_digests(alloc, length)?;
        let mut pairs = Refusing::new(alloc, &self.hasher);
        consistency_path_of(&mut pairs, &self.stored, old_size, size, &mut path)?;
        Ok((path, pairs.calls()))
    }

    /// Says what a path shows of a leaf at an index of the first leaves, where `verify_inclusion` accepts it under their root:
    /// that the leaf's hash stands there, or the level at which a pair of the path and one of the log collide.
    ///
    /// The index may be any number, and the path any list. Errors, the first that applies: that of the leaf's hash; those of
    /// `root`; those of `verify_inclusion`; `OutOfMemory`.
    pub fn bind(
        &self,
        alloc: Global,
        size: usize,
        index: usize,
        leaf: &T::Leaf,
        path: &[D],
    ) -> Result<LogBinding, Error>
        requires { size ≤ length self.now.digests }

        // It is rejected exactly where `verify_inclusion` says false under the root of the size.
        ensures verdict { AnswersBy is_accepted (leaf_verdict_in (T.hashes self.now.hasher) self.now
            size index leaf.now (map D.numbers path.now)) result }

        // The leaf's hash stands at the index, and pairs collide at no level.
        ensures stands { IfOk result (λ binding. binding ≡ Stands
            → LeafHighestIn (T.hashes self.now.hasher) self.now size index leaf.now
            (map D.numbers path.now) None) }

        // At the level that is named two different pairs hash alike, and at no level above.
        ensures collides { IfOk result (λ binding. (level : ℕ) → binding ≡ Collides level
            → LeafHighestIn (T.hashes self.now.hasher) self.now size index leaf.now
            (map D.numbers path.now) (Some level)) }
    {
        if index >= size {
            return Ok(LogBinding::Rejected);
        }
        let digest = self.hasher.leaf(alloc, leaf)?;
        self.bind_digest(alloc, size, index, &digest, path)
    }

    /// Says what a path shows of a leaf's digest, as `bind` does of a leaf.
    ///
    /// Errors: those of `bind` but that of the leaf's hash.
    pub fn bind_digest(
        &self,
        alloc: Global,
        size: usize,
        index: usize,
        digest: &D,
        path: &[D],
    ) -> Result<LogBinding, Error>
        requires { size ≤ length self.now.digests }

        // It is rejected exactly where `verify_inclusion_digest` says false under the root of the size.
        ensures verdict { AnswersBy is_accepted (verdict_in ((T.hashes self.now.hasher).pair.upper)
            self.now.empty self.now.digests size index (D.numbers digest.now)
            (map D.numbers path.now)) result }

        // The digest stands at the index, and pairs collide at no level.
        ensures stands { IfOk result (λ binding. binding ≡ Stands
            → HighestIn ((T.hashes self.now.hasher).pair.upper) self.now size index
            (D.numbers digest.now) (map D.numbers path.now) None) }

        // At the level that is named two different pairs hash alike, and at no level above.
        ensures collides { IfOk result (λ binding. (level : ℕ) → binding ≡ Collides level
            → HighestIn ((T.hashes self.now.hasher).pair.upper) self.now size index
            (D.numbers digest.now) (map D.numbers path.now) (Some level)) }
    {
        log_binding_of(alloc, &self.hasher, &self.stored, size, index, digest, path)
    }
}
