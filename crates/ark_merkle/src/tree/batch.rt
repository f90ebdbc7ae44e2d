//! Changes of several leaves at once.

ghost use Rattle.std.specs.Bool.{OnTrue};
ghost use Rattle.std.specs.Prelude.{◌≡◌, ◌<◌, ℕ, [], ◌∷◌, map, length, IfOk, IsOkUnless, OnErr, Ok};
ghost use Rattle.std.specs.List.{All, zip};
ghost use Rattle.ark_base.specs.declared.error.Error.TheVariants.{OutOfMemory};
ghost use Rattle.ark_base.specs.Outcome.{AnswersBy};
ghost use Rattle.ark_crh.specs.Ahead.{lent};
ghost use Rattle.ark_paths.specs.Index.{log2};
ghost use Rattle.ark_paths.specs.Root.{leaves_with_root};
ghost use Rattle.ark_paths.specs.Rows.{IsTree};
ghost use Rattle.ark_paths.specs.Tree.{tree_with};
ghost use Rattle.ark_paths.specs.Above.{count_above};
ghost use Rattle.ark_merkle.specs.Batch.{with_change, last_changes, hashed_changes, puts, with_leaves, with_each_leaf, HasLastLeaves};
ghost use Rattle.ark_merkle.specs.Changed.{seen_changes, entered, lent_changes, AreChanges, Rise, count_over};
ghost use Rattle.ark_merkle.specs.Update.{with_leaf};

use crate::tree::MerkleTree;
use crate::tree::changes::{change_rows, hash_reached_leaves, push_changes, put_changes};
use crate::tree::levels::Levels;
use ark_base::error::Error;
use ark_base::serialize::DigestItem;
use ark_paths::hasher::{ConfigHasher, TreeHasher};
use ark_paths::runs::{RUN, leaf_digests, part_of};
use ark_paths::views::Views;
use std::alloc::Global;
use std::collections::BTreeMap;

impl<P: Views> MerkleTree<P> {
    /// Puts leaves in the places of those at indexes below the size. Where an index is changed twice, the last leaf counts,
    /// and the others are not hashed.
    ///
    /// Errors, which leave the tree as it was: that of the first leaf by rising index whose hash refuses; else that of
    /// the new leaf digests' halving; `OutOfMemory`.
    pub fn update_many(&mut self, alloc: Global, changes: &[(usize, P::Leaf)]) -> Result<(), Error>
        requires { All (λ change. change.0 < length self.old.leaves) changes.now }
        ensures tree { AnswersBy (λ _. P.tree self.new) (with_leaves (P.tree self.old) changes.now)
            result }
        ensures refused { OnErr result (self.new ≡ self.old) }

        // Index by index: the last leaf of each changed one stands there, and all others have what they had.
        ensures each { (new : _) → with_leaves (P.tree self.old) changes.now ≡ Ok new
            → HasLastLeaves (P.tree self.old) changes.now new }

        // With one change it is `update`.
        ensures one_change { (index : ℕ) (leaf : _)
            → with_leaves (P.tree self.old) ((index, leaf) ∷ []) ≡ with_leaf (P.tree self.old) index
            leaf }

        // Where the same changes one after the other all succeed, they give this tree.
        ensures one_by_one { (tree : _) → with_each_leaf (P.tree self.old) changes.now ≡ Ok tree
            → with_leaves (P.tree self.old) changes.now ≡ Ok tree }
    {
        self.update_many_counting(alloc, changes)?;
        Ok(())
    }

    /// Acts as `update_many`, and returns how many pairs were hashed: each place above a changed leaf is hashed once.
    pub fn update_many_counting(
        &mut self,
        alloc: Global,
        changes: &[(usize, P::Leaf)],
    ) -> Result<usize, Error>
        requires { All (λ change. change.0 < length self.old.leaves) changes.now }
        ensures tree { AnswersBy (λ _. P.tree self.new) (with_leaves (P.tree self.old) changes.now)
            result }
        ensures count { IfOk result (λ count. count ≡ count_above (log2 (length self.old.leaves))
            (map (λ change. change.0) changes.now)) }
        ensures refused { OnErr result (self.new ≡ self.old) }
        ensures one_by_one { (tree : _) → with_each_leaf (P.tree self.old) changes.now ≡ Ok tree
            → with_leaves (P.tree self.old) changes.now ≡ Ok tree }
    {
        let hasher = ConfigHasher::<P>::new(&self.leaf_parameters, &self.pair_parameters);
        update_leaves(alloc, &hasher, &mut self.leaves, &mut self.rows, changes)
    }
}

// Puts leaves in their places, and in the rows above them what these then hash to; answers how many pairs were hashed.
fn update_leaves<L: DigestItem, D: DigestItem, T: TreeHasher<L, D>>(
    alloc: Global,
    hasher: &T,
    leaves: &mut [L],
    rows: &mut Levels<D>,
    changes: &[(usize, T::Leaf)],
) -> Result<usize, Error>
    requires tree { IsTree (T.hashes hasher.now).pair (map L.numbers leaves.old) rows.old }
    requires changes { All (λ change. change.0 < length leaves.old) changes.now }
    ensures leaves { AnswersBy (λ _. tree_with (T.hashes hasher.now) (map L.numbers leaves.new))
        (with_leaves (tree_with (T.hashes hasher.now) (map L.numbers leaves.old)) changes.now)
        result }
    ensures tree { IsTree (T.hashes hasher.now).pair (map L.numbers leaves.new) rows.new }
    ensures count { IfOk result
        (λ count. count ≡ count_above (log2 (length leaves.old))
        (map (λ change. change.0) changes.now)) }
    ensures refused { OnErr result (leaves.new ≡ leaves.old) }
    ensures refused_rows { OnErr result (rows.new ≡ rows.old) }
    ensures one_by_one { let old = tree_with (T.hashes hasher.now) (map L.numbers leaves.old) in
        (tree : _) → with_each_leaf old changes.now ≡ Ok tree
        → with_leaves old changes.now ≡ Ok tree }
{
    let digests = hash_last(alloc, hasher, changes)?;
    change_leaves(alloc, hasher, leaves, rows, digests)
}

// Puts changed leaf digests in their places, and in the rows above them what these then hash to; answers how many pairs were
// hashed.
fn change_leaves<L: DigestItem, D: DigestItem, T: TreeHasher<L, D>>(
    alloc: Global,
    hasher: &T,
    leaves: &mut [L],
    rows: &mut Levels<D>,
    changes: Vec<(usize, L)>,
) -> Result<usize, Error>
    requires tree { IsTree (T.hashes hasher.now).pair (map L.numbers leaves.old) rows.old }
    requires changes { AreChanges 0 (length leaves.old) changes.items }
    ensures leaves { AnswersBy (λ _. map L.numbers leaves.new)
        (leaves_with_root (T.hashes hasher.now).pair
        (puts (map L.numbers leaves.old) (seen_changes L.numbers changes.items))) result }
    ensures tree { IsTree (T.hashes hasher.now).pair (map L.numbers leaves.new) rows.new }
    ensures count { IfOk result (λ count.
        count ≡ count_over (length rows.old) (map (λ c. c.0) changes.items)) }
    ensures refused { OnErr result (leaves.new ≡ leaves.old) }
    ensures refused_rows { OnErr result (rows.new ≡ rows.old) }
{
    let above = hash_reached_leaves(alloc, hasher, leaves, &changes)?;
    let hashed = above.len();
    let more = change_rows(alloc, hasher, rows, 0, above)?;
    put_changes(leaves, changes);
    Ok(hashed + more)
}

// Enters a change, unless there is one of its index.
fn enter<'a, L>(
    last: &mut BTreeMap<usize, &'a L, Global>,
    index: usize,
    leaf: &'a L,
) -> Result<(), Error>
    requires { Rise 0 (entered last.old) }
    ensures { AnswersBy (λ _. entered last.new)
        (Ok (with_change (index, leaf.now) (entered last.old))) result }
{
    if last.contains_key(&index) {
        return Ok(());
    }
    last.insert(index, leaf)?;
    Ok(())
}

// The last leaf of each changed index, in a map: the changes are entered from the last one on.
fn enter_all<'a, L>(
    alloc: Global,
    changes: &'a [(usize, L)],
) -> Result<BTreeMap<usize, &'a L, Global>, Error>
    ensures { AnswersBy entered (Ok (last_changes changes.now)) result }
{
    let mut last = BTreeMap::new(alloc);
    for n in 0..changes.len() {
        let (index, leaf) = &changes[changes.len() - 1 - n];
        enter(&mut last, *index, leaf)?;
    }
    Ok(last)
}

// Whether each index is above the one before it.
fn are_rising<L>(changes: &[(usize, L)]) -> bool
    ensures { OnTrue result (Rise 0 changes.now) }
{
    for n in 1..changes.len() {
        let place = changes.len() - 1 - n;
        if changes[place].0 >= changes[place + 1].0 {
            return false;
        }
    }
    true
}

// The last leaf of each changed index, by rising index.
fn last_leaves<'a, L>(
    alloc: Global,
    changes: &'a [(usize, L)],
) -> Result<Vec<(usize, &'a L)>, Error>
    ensures { AnswersBy lent_changes (Ok (last_changes changes.now)) result }
{
    // Changes that rise are their own last ones, and need no map.
    if are_rising(changes) {
        let mut last = Vec::with_capacity(alloc, changes.len())?;
        'each: for n in 0..changes.len() {
            let (index, leaf) = &changes[n];
            last.push((*index, leaf))?;
        }
        return Ok(last);
    }
    let map = enter_all(alloc, changes)?;
    let mut last = Vec::with_capacity(alloc, map.len())?;
    'entry: for (index, leaf) in map.iter() {
        last.push((*index, *leaf))?;
    }
    Ok(last)
}

// The indexes of changes, and their leaves.
fn parted<'a, L>(
    alloc: Global,
    changes: &[(usize, &'a L)],
) -> Result<(Vec<usize>, Vec<&'a L>), Error>
    ensures parts { IfOk result (λ parts. zip parts.0.items (lent parts.1.items)
        ≡ seen_changes (λ leaf. leaf.now) changes.now) }
    ensures count { IfOk result (λ parts. length parts.0.items ≡ length parts.1.items) }
    ensures memory { IsOkUnless result OutOfMemory }
{
    let mut indexes = Vec::with_capacity(alloc, changes.len())?;
    let mut leaves = Vec::with_capacity(alloc, changes.len())?;
    'changes: for place in 0..changes.len() {
        let change = changes[place];
        indexes.push(change.0)?;
        leaves.push(change.1)?;
    }
    Ok((indexes, leaves))
}

// The digest of the last leaf of each changed index.
fn hash_last<L: DigestItem, D: DigestItem, T: TreeHasher<L, D>>(
    alloc: Global,
    hasher: &T,
    changes: &[(usize, T::Leaf)],
) -> Result<Vec<(usize, L)>, Error>
    ensures { AnswersBy (λ digests. seen_changes L.numbers digests.items)
        (hashed_changes (T.hashes hasher.now).leaf (last_changes changes.now)) result }
{
    let last = last_leaves(alloc, changes)?;
    let mut digests = Vec::with_capacity(alloc, last.len())?;
    let mut next = 0;
    'runs: while next < last.len() {
        let count = (last.len() - next).min(RUN);
        let (indexes, leaves) = parted(alloc, part_of(&last, next, count))?;
        let made = leaf_digests(alloc, hasher, &leaves)?;
        push_changes(&mut digests, &indexes, made)?;
        next += count;
    }
    Ok(digests)
}
