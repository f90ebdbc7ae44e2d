//! Whether a leaf is bound to a tree's root.

ghost use Rattle.std.specs.Prelude.{◌≡◌, ◌<◌, ◌%◌, ◌^◌, ◌&&◌, ℕ, suc, Some, [], map, length, get_or, IfOk, if◌then◌else◌};
ghost use Rattle.ark_base.specs.Outcome.{Answers, AnswersBy};
ghost use Rattle.ark_paths.specs.Bind.{difference, CollidesAt};
ghost use Rattle.ark_paths.specs.Index.{neighbour};
ghost use Rattle.ark_paths.specs.Pair.{digest_eq};
ghost use Rattle.ark_paths.specs.Path.{path_root};
ghost use Rattle.ark_paths.specs.PathBytes.{way_of};
ghost use Rattle.ark_paths.specs.Rows.{IsTree, digests_of};
ghost use Rattle.ark_paths.specs.Tree.{HoldsLeaf, tree_with};
ghost use Rattle.ark_merkle.specs.declared.tree.bind.Binding.TheVariants.{Rejected, Stands, Differs};
ghost use Rattle.ark_merkle.specs.Binding.{binding_in, binding_of, MatchesVerdict};

use crate::tree::MerkleTree;
use crate::tree::levels::Levels;
use ark_base::error::Error;
use ark_base::serialize::DigestItem;
use ark_paths::digests::are_same;
use ark_paths::hasher::TreeHasher;
use ark_paths::index::{is_bit_set, neighbour_of};
use ark_paths::pair::{hash_leaves, hash_upper};
use ark_paths::path::Path;
use ark_paths::views::Views;
use std::alloc::Global;

/// What a path with a leaf says of a tree's leaf digests.
#[derive(Debug, PartialEq, Eq, Clone, Copy)]
pub enum Binding {
    /// The path does not give the root.
    Rejected,
    /// The leaf's digest is the tree's at the index modulo the size.
    Stands,
    /// At this level, the root's pair being level 0, two different pairs hash alike: the path's and the tree's.
    Differs { level: usize },
}

impl<P: Views> MerkleTree<P> {
    /// Returns what a path says of a leaf, where it has one digest for each level between the leaf digests and the
    /// root. A path that `verify` accepts binds its leaf: the leaf's digest stands at the index modulo the size, or two
    /// different pairs hash alike.
    ///
    /// Errors: `IncorrectInputLength` for a path of another length; that of the leaf's hash; that of the path's lowest
    /// pair, and so upward; `OutOfMemory`.
    pub fn bind(&self, alloc: Global, path: &Path<P>, leaf: &P::Leaf) -> Result<Binding, Error>
        ensures answer { Answers (binding_in (P.tree self.now) leaf.now (P.way path.now)) result }

        // It is rejected exactly where `verify` says false.
        ensures accepted { IfOk result
            (λ binding. MatchesVerdict (P.tree self.now) leaf.now (P.way path.now) binding) }

        // The leaf's digest is the tree's at the index modulo the size.
        ensures stands { IfOk result (λ binding. binding ≡ Stands
            → HoldsLeaf (P.tree self.now) (path.now.leaf_index % length self.now.leaves) leaf.now) }

        // At the level that is named two different pairs hash alike.
        ensures differs { IfOk result (λ binding. (level : ℕ) → binding ≡ Differs level
            → CollidesAt (P.tree self.now) leaf.now (P.way path.now) level) }
    {
        let (hasher, leaves, rows) = self.parts();
        binding_in(
            alloc,
            &hasher,
            leaves,
            rows,
            leaf,
            &path.leaf_sibling_hash,
            &path.auth_path,
            path.leaf_index,
        )
    }
}

// What a path of these parts says of a leaf.
fn binding_in<L: DigestItem, D: DigestItem, T: TreeHasher<L, D>>(
    alloc: Global,
    hasher: &T,
    leaves: &[L],
    rows: &Levels<D>,
    leaf: &T::Leaf,
    sibling: &L,
    above: &[D],
    index: usize,
) -> Result<Binding, Error>
    requires tree { IsTree (T.hashes hasher.now).pair (map L.numbers leaves.now) rows.now }
    requires fits { length leaves.now < 2 ^ 64 }
    ensures { Answers (binding_in (tree_with (T.hashes hasher.now) (map L.numbers leaves.now))
        leaf.now (way_of L.numbers D.numbers (sibling.now, (above.now, index)))) result }
{
    let levels = rows.len() - 1;
    if above.len() != levels {
        return Err(Error::IncorrectInputLength(above.len()));
    }
    let digest = hasher.leaf(alloc, leaf)?;
    let (top, difference) = compare(alloc, hasher, leaves, rows, &digest, sibling, above, index)?;
    Ok(binding_of(are_same(&top, rows.at(levels, 0)), difference))
}

// What a path says that gives the root or not, and that differs from the tree at this level or nowhere.
fn binding_of(is_root: bool, difference: Option<usize>) -> Binding
    ensures { result ≡ (if is_root then binding_of difference else Rejected) }
{
    if !is_root {
        return Binding::Rejected;
    }
    match difference {
        None => Binding::Stands,
        Some(level) => Binding::Differs { level },
    }
}

// What a path gives for a leaf digest, and the first level from the root down at which it differs from the tree.
fn compare<L: DigestItem, D: DigestItem, T: TreeHasher<L, D>>(
    alloc: Global,
    hasher: &T,
    leaves: &[L],
    rows: &Levels<D>,
    digest: &L,
    sibling: &L,
    above: &[D],
    path_index: usize,
) -> Result<(D, Option<usize>), Error>
    requires tree { IsTree (T.hashes hasher.now).pair (map L.numbers leaves.now) rows.now }
    requires fits { length leaves.now < 2 ^ 64 }
    requires count { length rows.now ≡ suc (length above.now) }
    ensures top { AnswersBy (λ r. D.numbers r.0) (path_root (T.hashes hasher.now).pair
        (way_of L.numbers D.numbers (sibling.now, (above.now, path_index))) (L.numbers digest.now))
        result }
    ensures differs { IfOk result
        (λ r. r.1 ≡ difference (T.hashes hasher.now).pair (map L.numbers leaves.now)
        (way_of L.numbers D.numbers (sibling.now, (above.now, path_index)))
        (L.numbers digest.now)) }
{
    let index = path_index % leaves.len();
    let is_own = are_both(
        digest,
        &leaves[index],
        sibling,
        &leaves[neighbour_of(index)],
    );
    let mut difference = other_at(is_own, above.len(), None);
    let mut current = hash_leaves(alloc, hasher, is_bit_set(path_index, 0), digest, sibling)?;
    for step in 0..above.len() {
        let level = above.len() - 1 - step;
        let sibling = &above[level];
        let place = index >> (step + 1);
        let own = rows.at(step, place);
        let is_own = are_both(&current, own, sibling, rows.at(step, neighbour_of(place)));
        difference = other_at(is_own, level, difference);
        current = hash_upper(
            alloc,
            hasher,
            is_bit_set(path_index, step + 1),
            &current,
            sibling,
        )?;
    }
    Ok((current, difference))
}

// Whether two digests are those that stand at a place and beside it.
fn are_both<D: DigestItem>(digest: &D, own: &D, sibling: &D, beside: &D) -> bool
    ensures { result ≡ (digest_eq (D.numbers digest.now) (D.numbers own.now)
        && digest_eq (D.numbers sibling.now) (D.numbers beside.now)) }
{
    are_same(digest, own) && are_same(sibling, beside)
}

// The first level at which pairs differ, one level further up.
fn other_at(is_own: bool, level: usize, below: Option<usize>) -> Option<usize>
    ensures { result ≡ (if is_own then below else Some level) }
{
    if is_own { below } else { Some(level) }
}
