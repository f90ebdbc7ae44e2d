//! Checks that a map with one root becomes, by some changes, a map with another.

ghost use Rattle.std.specs.Prelude.{◌≡◌, [], true, List, map, IfOk, IfSome, OnOk, Ok};
ghost use Rattle.ark_base.specs.Outcome.{Answers, AnswersBy};
ghost use Rattle.merkle_map.specs.Kept.{IsTopKept};
ghost use Rattle.merkle_map.specs.Map.{MapHashes};
ghost use Rattle.merkle_map.specs.Parts.{top_shape};
ghost use Rattle.merkle_map.specs.Shown.{BindsTree, FollowsBy};
ghost use Rattle.merkle_map.specs.Transition.{change_seen, changed_by, changed_by_all, changed_from, changed_rows, changed_tree, rows_found, transition_verdict, tree_after, tree_after_all, LeadsOn, LeadsTo};
ghost use Rattle.merkle_map.specs.Tree.{StandsAt};

use crate::hasher::{MapHasher, MapViews};
use crate::key::are_same_digests;
use crate::top::{Top, fill_rows, fill_top, forget_top, put_top, remove_top};
use crate::tree::MapTree;
use ark_base::error::Error;
use ark_base::serialize::DigestItem;
use std::alloc::Global;

/// A change of a map.
#[derive(Drop)]
pub enum Change {
    /// The key gets the value.
    Put { key: [u8; 32], value: [u8; 32] },
    /// The key is removed.
    Remove { key: [u8; 32] },
}

// Changes a tree. Errors, which leave it unchanged: those of `MapTree::insert` and of `MapTree::remove`.
fn change_tree<D: DigestItem, H: MapViews<Input = [u8; 32], Output = D>>(
    alloc: Global,
    hasher: &MapHasher<H>,
    tree: &mut Top<D>,
    change: &Change,
) -> Result<(), Error>
    requires { StandsAt [] (top_shape D.numbers tree.old) }
    ensures changed { AnswersBy (λ _. top_shape D.numbers tree.new)
        (tree_after (H.hashes hasher.now).nothing (change_seen change.now)
        (top_shape D.numbers tree.old)) result }
    ensures maps { OnOk result (FollowsBy (H.hashes hasher.now)
        (changed_by (change_seen change.now)) (top_shape D.numbers tree.old)
        (top_shape D.numbers tree.new)) }
    ensures stands { StandsAt [] (top_shape D.numbers tree.new) }
    ensures digests { (h : MapHashes) → IsTopKept D.numbers h tree.old
        → IsTopKept D.numbers h tree.new }
{
    match change {
        Change::Put { key, value } => put_top(alloc, tree, key, *value),
        Change::Remove { key } => remove_top(alloc, hasher, tree, key),
    }
}

// Makes all changes of a tree, the first one first. Errors, which leave some of them made: as of `change_tree`.
fn change_all<D: DigestItem, H: MapViews<Input = [u8; 32], Output = D>>(
    alloc: Global,
    hasher: &MapHasher<H>,
    tree: &mut Top<D>,
    changes: &[Change],
) -> Result<(), Error>
    requires { StandsAt [] (top_shape D.numbers tree.old) }
    ensures changed { AnswersBy (λ _. top_shape D.numbers tree.new)
        (tree_after_all (H.hashes hasher.now).nothing (map change_seen changes.now)
        (top_shape D.numbers tree.old)) result }
    ensures maps { OnOk result (FollowsBy (H.hashes hasher.now)
        (changed_by_all (map change_seen changes.now)) (top_shape D.numbers tree.old)
        (top_shape D.numbers tree.new)) }
    ensures stands { OnOk result (StandsAt [] (top_shape D.numbers tree.new)) }
    ensures digests { (h : MapHashes) → IsTopKept D.numbers h tree.old
        → OnOk result (IsTopKept D.numbers h tree.new) }
{
    'changes: for change in changes {
        change_tree(alloc, hasher, tree, change)?;
    }
    Ok(())
}

// Hashes a tree, keeps its digests, and makes changes if it has a root. Returns whether it has. Errors: those of the hashes, the
// lowest first, then the leftmost; those of `change_tree`.
fn change_by_root<D: DigestItem, H: MapViews<Input = [u8; 32], Output = D>>(
    alloc: Global,
    hasher: &MapHasher<H>,
    root: &D,
    tree: &mut Top<D>,
    changes: &[Change],
) -> Result<bool, Error>
    requires stands { StandsAt [] (top_shape D.numbers tree.old) }
    requires kept { IsTopKept D.numbers (H.hashes hasher.now) tree.old }
    ensures changed { AnswersBy (λ is_it. (is_it, top_shape D.numbers tree.new))
        (changed_from (H.hashes hasher.now) (D.numbers root.now) (map change_seen changes.now)
        (top_shape D.numbers tree.old)) result }
    ensures bound { result ≡ Ok true → BindsTree (H.hashes hasher.now) (D.numbers root.now)
        (top_shape D.numbers tree.old) }
    ensures maps { result ≡ Ok true → FollowsBy (H.hashes hasher.now)
        (changed_by_all (map change_seen changes.now)) (top_shape D.numbers tree.old)
        (top_shape D.numbers tree.new) }
    ensures stands { OnOk result (StandsAt [] (top_shape D.numbers tree.new)) }
    ensures kept { OnOk result (IsTopKept D.numbers (H.hashes hasher.now) tree.new) }
{
    let digest = fill_top(alloc, hasher, tree, changes.len())?;
    if !are_same_digests(&digest, root) {
        return Ok(false);
    }
    change_all(alloc, hasher, tree, changes)?;
    Ok(true)
}

/// Returns whether changes lead from a map with the old root to one with the new root, by a tree that has the old root and shows
/// what the changes need: a store, or its witness.
///
/// Errors: those of the hashes, the lowest first, then the leftmost; `HIDDEN`: the tree hides what a change needs;
/// `OutOfMemory`.
pub fn verify_transition<D: DigestItem, H: MapViews<Input = [u8; 32], Output = D>>(
    alloc: Global,
    hasher: &MapHasher<H>,
    old_root: &D,
    new_root: &D,
    tree: MapTree<D>,
    changes: &[Change],
) -> Result<bool, Error>
    ensures answer { Answers (transition_verdict (H.hashes hasher.now) (D.numbers old_root.now)
        (D.numbers new_root.now) (map change_seen changes.now) tree) result }

    // Each map with the old root has, after the changes, the new root, or below some bits the tree and the map's own tree have
    // two different nodes with one hash.
    ensures bound { IfOk result (λ accepted. accepted ≡ true
        → LeadsTo (H.hashes hasher.now) (D.numbers old_root.now) (D.numbers new_root.now) tree
        (map change_seen changes.now)) }
{
    let mut top = tree.into_top();
    if !change_by_root(alloc, hasher, old_root, &mut top, changes)? {
        return Ok(false);
    }
    let digest = fill_top(alloc, hasher, &mut top, changes.len())?;
    Ok(are_same_digests(&digest, new_root))
}

/// Makes changes of a tree that has this root, and returns it; nothing, where the tree has another root.
///
/// Errors: as of `verify_transition`.
pub fn change_from<D: DigestItem, H: MapViews<Input = [u8; 32], Output = D>>(
    alloc: Global,
    hasher: &MapHasher<H>,
    root: &D,
    tree: MapTree<D>,
    changes: &[Change],
) -> Result<Option<MapTree<D>>, Error>
    ensures answer { AnswersBy (λ found. found) (changed_tree (H.hashes hasher.now)
        (D.numbers root.now) (map change_seen changes.now) tree) result }

    // Each map with this root has, after the changes, the root of the tree that is returned, or below some bits the given tree and
    // the map's own tree have two different nodes with one hash.
    ensures bound { IfOk result (λ found. IfSome found (LeadsOn (H.hashes hasher.now)
        (D.numbers root.now) tree (map change_seen changes.now))) }
{
    let mut top = tree.into_top();
    if !change_by_root(alloc, hasher, root, &mut top, changes)? {
        return Ok(None);
    }
    forget_top(&mut top);
    Ok(Some(MapTree::of_top(top)))
}

/// Makes changes of a tree that has this root, and returns the new root with the rows of the new tree (`MapTree::rows`); nothing,
/// where the tree has another root. What the changes leave is hashed once.
///
/// Errors: as of `verify_transition`, and those of the hashes of the new tree.
pub fn rows_after<H: MapViews<Input = [u8; 32], Output = [u8; 32]>>(
    alloc: Global,
    hasher: &MapHasher<H>,
    root: &[u8; 32],
    tree: MapTree<[u8; 32]>,
    changes: &[Change],
) -> Result<Option<([u8; 32], Vec<u8>)>, Error>
    ensures answer { AnswersBy (rows_found (λ rows. rows.items))
        (changed_rows (H.hashes hasher.now) root.now (map change_seen changes.now) tree) result }

    // Each map with the old root has, after the changes, the new root, or below some bits the given tree and the map's own tree
    // have two different nodes with one hash.
    ensures bound { IfOk result (λ found. IfSome found (λ made.
        LeadsTo (H.hashes hasher.now) root.now made.0 tree (map change_seen changes.now))) }
{
    let mut top = tree.into_top();
    if !change_by_root(alloc, hasher, root, &mut top, changes)? {
        return Ok(None);
    }
    let made = fill_rows(alloc, hasher, &mut top, changes.len())?;
    Ok(Some(made))
}
