//! A tree's own multi-proofs.

ghost use Rattle.std.specs.Prelude.{◌≡◌, ◌↔◌, ◌<◌, ◌≤◌, ◌+◌, ◌-◌, ◌++◌, ℕ, [], ◌∷◌, map, take, drop, length, get_or, slice_index, true, IfOk, Ok};
ghost use Rattle.std.specs.List.{All, Contains};
ghost use Rattle.std.specs.List.Sorted.{IsStrictlyIncreasing};
ghost use Rattle.ark_base.specs.Outcome.{AnswersBy};
ghost use Rattle.ark_paths.specs.Index.{neighbour};
ghost use Rattle.ark_paths.specs.MultiPath.{decoded_paths};
ghost use Rattle.ark_paths.specs.MultiPathStrict.{is_strict};
ghost use Rattle.ark_paths.specs.Sharing.{shared_count, prefixes_of, suffixes_of};
ghost use Rattle.ark_paths.specs.Rows.{HoldsIndex, beside_in, digests_of, rows_seen};
ghost use Rattle.ark_paths.specs.Rising.{rising_set};
ghost use Rattle.ark_merkle.specs.MultiProof.{multi_path_in, paths_in, IsMultiAccepted};

use crate::tree::MerkleTree;
use crate::tree::levels::Levels;
use crate::tree::rows::digests_beside;
use ark_base::error::Error;
use ark_base::serialize::{DigestItem, Duplicate};
use ark_paths::index::neighbour_of;
use ark_paths::multi_path::MultiPath;
use ark_paths::views::Views;
use std::alloc::Global;

impl<P: Views> MerkleTree<P> {
    /// Returns the multi-proof of some indexes below the size. The only error is `OutOfMemory`.
    pub fn generate_multi_proof(
        &self,
        alloc: Global,
        indexes: &[usize],
    ) -> Result<MultiPath<P>, Error>
        requires { All (λ i. i < length self.now.leaves) indexes.now }

        // Each index once, rising.
        ensures rising { IfOk result (λ proof. IsStrictlyIncreasing proof.leaf_indexes.items) }
        ensures same { IfOk result (λ proof. (i : ℕ) →
            Contains proof.leaf_indexes.items i ↔ Contains indexes.now i) }

        // Of the paths of these indexes, each takes as many first digests from the one before as they have in common.
        ensures proof { AnswersBy P.multi_way (Ok (multi_path_in (P.tree self.now) indexes.now))
            result }

        // No other multi-proof of these paths is strict.
        ensures strict { IfOk result (λ proof. 0 < length indexes.now →
            is_strict (P.multi_way proof) ≡ true) }

        // Each place decodes to the path of its index.
        ensures decoded { IfOk result
            (λ proof. decoded_paths (P.multi_way proof) ≡ paths_in (P.tree self.now)
            proof.leaf_indexes.items) }

        // `verify` accepts it under the tree's parameters and root, if it has an index, for any leaves with the digests of its
        // indexes in turn.
        ensures accepted { IfOk result (λ proof. 0 < length indexes.now →
            IsMultiAccepted (P.tree self.now) proof.leaf_indexes.items (P.multi_way proof)) }
    {
        let (_, leaves, rows) = self.parts();
        let leaf_indexes = each_once(alloc, indexes)?;
        let leaf_siblings_hashes = digests_at_neighbours(alloc, leaves, &leaf_indexes)?;
        let (auth_paths_prefix_lenghts, auth_paths_suffixes) = digests_beside_each(
            alloc,
            rows,
            &leaf_indexes,
        )?;
        Ok(MultiPath {
            leaf_siblings_hashes,
            auth_paths_prefix_lenghts,
            auth_paths_suffixes,
            leaf_indexes,
        })
    }
}

// Each index once, rising.
fn each_once(alloc: Global, indexes: &[usize]) -> Result<Vec<usize>, Error>
    ensures { AnswersBy (λ once. once.items) (Ok (rising_set indexes.now)) result }
{
    let mut once = Vec::from_slice(alloc, indexes)?;
    once.sort_unstable();
    once.dedup();
    Ok(once)
}

// The digest beside that of each index.
fn digests_at_neighbours<D: DigestItem>(
    alloc: Global,
    leaves: &[D],
    indexes: &[usize],
) -> Result<Vec<D>, Error>
    requires { All (λ i. neighbour i < length leaves.now) indexes.now }
    ensures { AnswersBy (digests_of D.numbers)
        (Ok (map (λ i. get_or (map D.numbers leaves.now) (neighbour i) []) indexes.now)) result }
{
    let mut digests = Vec::with_capacity(alloc, indexes.len())?;
    for index in indexes {
        digests.push(leaves[neighbour_of(*index)].duplicate(alloc)?)?;
    }
    Ok(digests)
}

// How many first digests beside the ways of two indexes they have in common.
fn digests_in_common<D: DigestItem>(rows: &Levels<D>, before: usize, index: usize) -> usize
    requires before { HoldsIndex rows.now before }
    requires index { HoldsIndex rows.now index }
    ensures { let beside = beside_in rows.now (length rows.now - 1) in
        result ≡ shared_count (beside before) (beside index) }
{
    for above in 1..rows.len() {
        let level = rows.len() - 1 - above;
        let there = neighbour_of(before >> (level + 1));
        let here = neighbour_of(index >> (level + 1));
        if here != there && *rows.at(level, there) != *rows.at(level, here) {
            return above - 1;
        }
    }
    rows.len().saturating_sub(1)
}

// How many first digests beside the way of an index are those of the index before; none before the first.
fn prefix_at<D: DigestItem>(rows: &Levels<D>, indexes: &[usize], place: usize) -> usize
    requires place { place < length indexes.now }
    requires held { All (HoldsIndex rows.now) indexes.now }
    ensures within { result ≤ length rows.now - 1 }
    ensures prefix { let lists = beside_in rows.now (length rows.now - 1) in
        let of = λ (n : ℕ). prefixes_of [] (map lists (take n indexes.now)) in
        of (place + 1) ≡ of place ++ result ∷ [] }
    ensures suffix { let lists = beside_in rows.now (length rows.now - 1) in
        let of = λ (n : ℕ). suffixes_of [] (map lists (take n indexes.now)) in
        of (place + 1) ≡ of place ++ drop result (lists (slice_index indexes.now place)) ∷ [] }
{
    if place == 0 {
        0
    } else {
        digests_in_common(rows, indexes[place - 1], indexes[place])
    }
}

// The digests beside the way of each index: how many they have in common with those of the index before, and the others.
fn digests_beside_each<D: DigestItem>(
    alloc: Global,
    rows: &Levels<D>,
    indexes: &[usize],
) -> Result<(Vec<usize>, Vec<Vec<D>>), Error>
    requires { All (HoldsIndex rows.now) indexes.now }
    ensures prefixes { AnswersBy
        (λ made. made.0.items) (Ok
        (prefixes_of [] (map (beside_in rows.now (length rows.now - 1)) indexes.now))) result }
    ensures suffixes { AnswersBy (λ made. rows_seen D.numbers made.1)
        (Ok (suffixes_of [] (map (beside_in rows.now (length rows.now - 1)) indexes.now))) result }
{
    let mut prefixes = Vec::with_capacity(alloc, indexes.len())?;
    let mut suffixes = Vec::with_capacity(alloc, indexes.len())?;
    for place in 0..indexes.len() {
        let prefix = prefix_at(rows, indexes, place);
        prefixes.push(prefix)?;
        let below = rows.len() - prefix;
        suffixes.push(digests_beside(alloc, rows, below, indexes[place])?)?;
    }
    Ok((prefixes, suffixes))
}
