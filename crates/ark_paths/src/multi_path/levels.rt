//! The check of a multi-proof a level at a time, so that the couples of a level are hashed together.
//!
//! Paths that meet in one node go on together, and the first of them stands for all. The check finds that
//! every path gives the root, or it finds nothing: then the walk from leaf to leaf decides, and all errors are its own.

ghost use Rattle.std.specs.Prelude.{◌≡◌, true, ◌+◌, ◌-◌, ◌/◌, ◌^◌, ◌<◌, ◌≤◌, suc, ℕ, List, [], length, map, get_or, IfOk, MatchOption, OnOk, Ok};
ghost use Rattle.ark_crh.specs.Ahead.{lent_couple, lent_couples};
ghost use Rattle.ark_paths.specs.Nodes.{AllClimb, AllRoot, AreAmongFirst, AreBeside, AreFirsts, AreJoined, ArePaths, HasParts, IsFoundBeside};
ghost use Rattle.ark_paths.specs.MultiPath.{listed_way, multi_verdict};
ghost use Rattle.ark_paths.specs.Pair.{Digest};
ghost use Rattle.ark_paths.specs.Rows.{digests_of};

use crate::hasher::TreeHasher;
use crate::index::is_bit_set;
use crate::multi_path::places::{first_length, is_sum};
use crate::multi_path::table::in_order;
use crate::multi_path::walk::number_above;
use crate::runs::{bottom_in_runs, leaves_in_runs, part_of, upper_in_runs};
use ark_base::error::Error;
use ark_base::serialize::{DigestItem, Numbered};
use ark_crh::ahead::lend;
use std::alloc::Global;

// The nodes of a level on some paths, from the left: the first path through each, and its digest.
#[derive(Drop)]
struct Nodes<X> {
    firsts: Vec<usize>,
    digests: Vec<X>,
}

// The nodes of the level above: the first path through each, and the digests below it.
#[derive(Drop)]
struct Joined<'a, X> {
    firsts: Vec<usize>,
    couples: Vec<(&'a X, &'a X)>,
}

// The error that ends the check where nothing is found. No caller sees it.
fn unknown(place: usize) -> Error {
    Error::IncorrectInputLength(place)
}

// Whether the first places have parts that make paths of this length.
fn have_paths<D: Numbered>(
    prefixes: &[usize],
    suffixes: &[Vec<D>],
    count: usize,
    len: usize,
) -> bool
    ensures { result ≡ true → HasParts prefixes.now (map (digests_of D.numbers) suffixes.now) count
        len }
{
    if prefixes.len() < count || suffixes.len() < count {
        return false;
    }
    'places: for place in 0..count {
        if !is_sum(len, prefixes[place], suffixes[place].len()) {
            return false;
        }
    }
    true
}

// The digest of a proof that stands so many digests below the root on a path: one of its suffix. Where its prefix reaches
// so far, it is the last of those that were found on the paths before.
fn beside_at<'a, D: Numbered>(
    prefix: usize,
    suffix: &'a [D],
    depth: usize,
    before: &[&'a D],
) -> Option<&'a D>
    ensures { MatchOption result (Unit {0}) (λ found. IsFoundBeside prefix
        (map D.numbers suffix.now) depth (map (λ x. D.numbers x.now) before.now)
        (D.numbers found.now)) }
{
    if prefix <= depth {
        suffix.get(depth - prefix)
    } else {
        Some(*before.last()?)
    }
}

// The digests of a proof beside nodes, so many digests below the root.
fn beside_nodes<'a, D: Numbered>(
    alloc: Global,
    firsts: &[usize],
    depth: usize,
    prefixes: &[usize],
    suffixes: &'a [Vec<D>],
) -> Result<Vec<&'a D>, Error>
    requires prefixes { AreAmongFirst (length prefixes.now) firsts.now }
    requires suffixes { AreAmongFirst (length suffixes.now) firsts.now }
    ensures many { IfOk result (λ beside. length beside.items ≡ length firsts.now) }
    ensures beside { IfOk result (λ beside. (above : List (List Digest)) (count len : ℕ)
        → ArePaths above prefixes.now (map (digests_of D.numbers) suffixes.now) count len
        → AreAmongFirst count firsts.now → AreFirsts above prefixes.now (suc depth) firsts.now
        → AreBeside above depth firsts.now (map (λ x. D.numbers x.now) beside.items)) }
{
    let mut beside: Vec<&'a D> = Vec::with_capacity(alloc, firsts.len())?;
    'nodes: for node in 0..firsts.len() {
        let first = firsts[node];
        let suffix = suffixes[first].as_slice();
        let Some(digest) = beside_at(prefixes[first], suffix, depth, &beside) else {
            return Err(unknown(first));
        };
        beside.push(digest)?;
    }
    Ok(beside)
}

// Whether a path has the same node above a level as the last of these.
fn is_with_last(firsts: &[usize], indexes: &[usize], first: usize, level: usize) -> bool
    requires firsts { AreAmongFirst (length indexes.now) firsts.now }
    requires first { first < length indexes.now }
    ensures { result ≡ true → (0 < length firsts.now)
        × (get_or indexes.now first 0 / 2 ^ suc level
        ≡ get_or indexes.now (get_or firsts.now (length firsts.now - 1) 0) 0 / 2 ^ suc level) }
{
    match firsts.last() {
        Some(last) => number_above(indexes[*last], level) == number_above(indexes[first], level),
        None => false,
    }
}

// Whether a couple is the last of these.
fn is_last<X: DigestItem>(couples: &[(&X, &X)], couple: (&X, &X)) -> bool
    ensures { result ≡ true → get_or (lent_couples X.numbers couples.now)
        (length couples.now - 1) ([], []) ≡ lent_couple X.numbers couple.entry }
{
    match couples.last() {
        Some(last) => *last.0 == *couple.0 && *last.1 == *couple.1,
        None => false,
    }
}

// The nodes of the level above, each with its couple: a node's digest with the proof's beside it. Nodes that join have
// the same couple, so that each has the other's digest beside it, and share the `shared` digests further up.
fn join<'a, X: DigestItem>(
    alloc: Global,
    level: usize,
    shared: usize,
    nodes: &'a Nodes<X>,
    beside: Vec<&'a X>,
    indexes: &[usize],
    prefixes: &[usize],
) -> Result<Joined<'a, X>, Error>
    requires digests { length nodes.now.digests.items ≡ length nodes.now.firsts.items }
    requires beside { length beside.items ≡ length nodes.now.firsts.items }
    requires prefixes { length indexes.now ≤ length prefixes.now }
    requires inside { AreAmongFirst (length indexes.now) nodes.now.firsts.items }
    ensures many { IfOk result (λ joined.
        length joined.couples.items ≡ length joined.firsts.items) }
    ensures inside { IfOk result (λ joined.
        AreAmongFirst (length indexes.now) joined.firsts.items) }
    ensures joined { IfOk result (λ joined. (above : List (List Digest))
        → AreFirsts above prefixes.now (suc shared) nodes.now.firsts.items
        → AreFirsts above prefixes.now shared joined.firsts.items
        × AreJoined above indexes.now level shared joined.firsts.items
        (lent_couples X.numbers joined.couples.items) (length nodes.now.firsts.items)
        nodes.now.firsts.items (digests_of X.numbers nodes.now.digests)
        (map (λ x. X.numbers x.now) beside.entry.items)) }
{
    let mut firsts = Vec::with_capacity(alloc, nodes.firsts.len())?;
    let mut couples = Vec::with_capacity(alloc, nodes.firsts.len())?;
    'nodes: for node in 0..nodes.firsts.len() {
        let first = nodes.firsts[node];
        let is_right = is_bit_set(indexes[first], level);
        let couple = in_order(is_right, &nodes.digests[node], beside[node]);
        if is_with_last(&firsts, indexes, first, level) {
            if prefixes[first] < shared || !is_last(&couples, couple) {
                return Err(unknown(first));
            }
        } else {
            firsts.push(first)?;
            couples.push(couple)?;
        }
    }
    Ok(Joined { firsts, couples })
}

// The nodes of leaf digests: each path alone.
fn alone<X: Drop>(alloc: Global, digests: Vec<X>) -> Result<Nodes<X>, Error>
    ensures digests { IfOk result (λ nodes. nodes.digests ≡ digests) }
    ensures many { IfOk result (λ nodes. length nodes.firsts.items ≡ length digests.items) }
    ensures firsts { IfOk result (λ nodes. (g : ℕ) → g < length digests.items
        → get_or nodes.firsts.items g 0 ≡ g) }
{
    let mut firsts = Vec::with_capacity(alloc, digests.len())?;
    'places: for place in 0..digests.len() {
        firsts.push(place)?;
    }
    Ok(Nodes { firsts, digests })
}

// The nodes above those of leaf digests.
fn lowest_nodes<L: DigestItem, D: DigestItem, T: TreeHasher<L, D>>(
    alloc: Global,
    hasher: &T,
    len: usize,
    digests: Vec<L>,
    siblings: &[L],
    prefixes: &[usize],
    indexes: &[usize],
) -> Result<Nodes<D>, Error>
    requires digests { length digests.items ≡ length indexes.now }
    requires siblings { length siblings.now ≡ length indexes.now }
    requires prefixes { length indexes.now ≤ length prefixes.now }
    ensures many { IfOk result (λ nodes.
        length nodes.digests.items ≡ length nodes.firsts.items) }
    ensures inside { IfOk result (λ nodes.
        AreAmongFirst (length indexes.now) nodes.firsts.items) }
    ensures nodes { IfOk result (λ nodes. (above suffixes : List (List Digest))
        → ArePaths above prefixes.now suffixes (length indexes.now) len
        → AreFirsts above prefixes.now len nodes.firsts.items
        × ((root : Digest) → AllClimb (T.hashes hasher.now).pair root above indexes.now 0 len
        nodes.firsts.items (digests_of D.numbers nodes.digests)
        → AllRoot (T.hashes hasher.now).pair root above (map L.numbers siblings.now) indexes.now
        (length indexes.now) (digests_of L.numbers digests))) }
{
    let nodes = alone(alloc, digests)?;
    let beside = lend(alloc, siblings)?;
    let joined = join(alloc, 0, len, &nodes, beside, indexes, prefixes)?;
    let digests = bottom_in_runs(alloc, hasher, &joined.couples)?;
    Ok(Nodes {
        firsts: joined.firsts,
        digests,
    })
}

// The nodes above those of a row, on paths of `len` digests.
fn nodes_above<L: DigestItem, D: DigestItem, T: TreeHasher<L, D>>(
    alloc: Global,
    hasher: &T,
    row: usize,
    len: usize,
    nodes: &Nodes<D>,
    prefixes: &[usize],
    suffixes: &[Vec<D>],
    indexes: &[usize],
) -> Result<Nodes<D>, Error>
    requires row { row < len }
    requires digests { length nodes.now.digests.items ≡ length nodes.now.firsts.items }
    requires prefixes { length indexes.now ≤ length prefixes.now }
    requires suffixes { length indexes.now ≤ length suffixes.now }
    requires inside { AreAmongFirst (length indexes.now) nodes.now.firsts.items }
    ensures many { IfOk result (λ next. length next.digests.items ≡ length next.firsts.items) }
    ensures inside { IfOk result (λ next. AreAmongFirst (length indexes.now) next.firsts.items) }
    ensures nodes { IfOk result (λ next. (above : List (List Digest))
        → ArePaths above prefixes.now (map (digests_of D.numbers) suffixes.now)
        (length indexes.now) len
        → AreFirsts above prefixes.now (len - row) nodes.now.firsts.items
        → AreFirsts above prefixes.now (len - suc row) next.firsts.items
        × ((root : Digest) → AllClimb (T.hashes hasher.now).pair root above indexes.now (suc row)
        (len - suc row) next.firsts.items (digests_of D.numbers next.digests)
        → AllClimb (T.hashes hasher.now).pair root above indexes.now row (len - row)
        nodes.now.firsts.items (digests_of D.numbers nodes.now.digests))) }
{
    let depth = len - row - 1;
    let beside = beside_nodes(alloc, &nodes.firsts, depth, prefixes, suffixes)?;
    let joined = join(alloc, row + 1, depth, nodes, beside, indexes, prefixes)?;
    let digests = upper_in_runs(alloc, hasher, &joined.couples)?;
    Ok(Nodes {
        firsts: joined.firsts,
        digests,
    })
}

/// Finds that every leaf's digest gives the root along the path of its place.
///
/// An error says nothing of that: it is `OutOfMemory`, one of a hash, or `IncorrectInputLength` where nothing is found.
pub fn find_accepted<L: DigestItem, D: DigestItem, T: TreeHasher<L, D>>(
    alloc: Global,
    hasher: &T,
    root: &D,
    leaves: &[T::Leaf],
    siblings: &[L],
    prefixes: &[usize],
    suffixes: &[Vec<D>],
    indexes: &[usize],
) -> Result<(), Error>
    ensures { OnOk result (multi_verdict (T.hashes hasher.now).pair
        (map (T.hashes hasher.now).leaf leaves.now)
        (listed_way L.numbers D.numbers siblings.now prefixes.now suffixes.now indexes.now)
        (D.numbers root.now) ≡ Ok true) }
{
    let count = indexes.len();
    let len = first_length(suffixes);
    if count == 0 || leaves.len() < count || siblings.len() < count {
        return Err(unknown(0));
    }
    if !have_paths(prefixes, suffixes, count, len) {
        return Err(unknown(0));
    }
    let digests = leaves_in_runs(alloc, hasher, part_of(leaves, 0, count))?;
    let mut nodes = lowest_nodes(
        alloc,
        hasher,
        len,
        digests,
        part_of(siblings, 0, count),
        prefixes,
        indexes,
    )?;
    'rows: for row in 0..len {
        nodes = nodes_above::<L, D, T>(
            alloc, hasher, row, len, &nodes, prefixes, suffixes, indexes,
        )?;
    }
    if nodes.digests.len() == 1 && nodes.digests[0] == *root {
        Ok(())
    } else {
        Err(unknown(0))
    }
}
