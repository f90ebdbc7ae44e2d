//! The way up from a leaf, over a table of hashed pairs.

ghost use Rattle.std.specs.Prelude.{◌≡◌, true, ◌+◌, ◌-◌, ◌/◌, ◌^◌, ◌<◌, ◌≤◌, ◌∷◌, suc, ℕ, List, [], length, map, get_or, IfOk, OnOk, Ok};
ghost use Rattle.ark_base.specs.Outcome.{Answers, AnswersBy};
ghost use Rattle.ark_paths.specs.Asked.{CountsOwn, most_asked};
ghost use Rattle.ark_paths.specs.Leaves.{AnswersOver};
ghost use Rattle.ark_paths.specs.MultiPath.{listed_way, multi_verdict};
ghost use Rattle.ark_paths.specs.Pair.{Digest, HashPair};
ghost use Rattle.ark_paths.specs.Path.{path_root, verdict};
ghost use Rattle.ark_paths.specs.PathBytes.{way_of};
ghost use Rattle.ark_paths.specs.Table.{HoldsTree, IsTable, IsWalked, walk_of};

use crate::index::is_bit_set;
use crate::multi_path::hasher::PairHasher;
use crate::multi_path::places::next_place;
use crate::multi_path::table::{Pair, Table, ask_lowest, ask_upper};
use ark_base::error::{Error, Refusal};
use ark_base::serialize::DigestItem;
use ark_crh::CRHScheme;
use std::alloc::Global;

// The place above a leaf, so many levels above the lowest pairs.
fn place_above(index: usize, level: usize) -> (usize, usize)
    ensures { result ≡ (level, index / 2 ^ suc level) }
{
    (level, number_above(index, level))
}

/// Returns the number of the place above a leaf, so many levels above the lowest pairs.
pub fn number_above(index: usize, level: usize) -> usize
    ensures { result ≡ index / 2 ^ suc level }
{
    if level < 63 { index >> (level + 1) } else { 0 }
}

// What a path gives for a leaf's digest and the one beside it: the number of that digest among those that were made.
fn top_of<'a, L: DigestItem, D: DigestItem, T: PairHasher<L, D>>(
    alloc: Global,
    hasher: &mut T,
    table: &mut Table<'a, L, D>,
    digest: L,
    sibling: &'a L,
    above: &[&'a D],
    index: usize,
) -> Result<usize, Error>
    requires { IsTable L.numbers D.numbers (T.pair hasher.old) table.old }
    ensures answer { AnswersBy (λ number. get_or (map D.numbers table.new.made.items) number [])
        (path_root (T.pair hasher.old) (way_of L.numbers
        (λ x. D.numbers x.now) (sibling.now, (above.now, index))) (L.numbers digest)) result }
    ensures walked { IfOk result (λ number. (number < length table.new.made.items)
        × IsWalked L.numbers D.numbers (T.pair hasher.old) (way_of L.numbers
        (λ x. D.numbers x.now) (sibling.now, (above.now, index))) (Ok (L.numbers digest))
        (walk_of table.old (T.counted hasher.old)) (walk_of table.new (T.counted hasher.new))) }
    ensures same { T.pair hasher.new ≡ T.pair hasher.old }
    ensures most { T.counted hasher.new ≤ T.counted hasher.old + suc (length above.now) }
{
    let own = table.leaves.len();
    table.leaves.push(digest)?;
    let pair = Pair {
        is_right: is_bit_set(index, 0),
        own,
        sibling,
    };
    let place = place_above(index, 0);
    let mut own = ask_lowest::<L, D, T>(
        alloc,
        hasher,
        &table.leaves,
        &mut table.made,
        &mut table.lowest,
        place,
        pair,
    )?;
    for below in 0..above.len() {
        let level = below + 1;
        let pair = Pair {
            is_right: is_bit_set(index, level),
            own,
            sibling: above[above.len() - level],
        };
        let place = place_above(index, level);
        own = ask_upper::<L, D, T>(
            alloc,
            hasher,
            &mut table.made,
            &mut table.upper,
            place,
            pair,
        )?;
    }
    Ok(own)
}

/// Returns whether a leaf's digest gives the root along the path of these parts.
pub fn judge<'a, H: CRHScheme, D: DigestItem, T: PairHasher<H::Output, D>>(
    alloc: Global,
    leaf_parameters: &H::Parameters,
    hasher: &mut T,
    table: &mut Table<'a, H::Output, D>,
    root: &D,
    leaf: &H::Input,
    sibling: &'a H::Output,
    above: &[&'a D],
    index: usize,
) -> Result<bool, Error>
    requires { IsTable H.Output.numbers D.numbers (T.pair hasher.old) table.old }
    ensures answer { Answers (verdict (T.pair hasher.old) (H.meaning leaf_parameters.now leaf.now)
        (way_of H.Output.numbers (λ x. D.numbers x.now) (sibling.now, (above.now, index)))
        (D.numbers root.now)) result }
    ensures walked { OnOk result (IsWalked H.Output.numbers D.numbers (T.pair hasher.old)
        (way_of H.Output.numbers (λ x. D.numbers x.now) (sibling.now, (above.now, index)))
        (H.meaning leaf_parameters.now leaf.now) (walk_of table.old (T.counted hasher.old))
        (walk_of table.new (T.counted hasher.new))) }
    ensures same { T.pair hasher.new ≡ T.pair hasher.old }
    ensures most { T.counted hasher.new ≤ T.counted hasher.old + suc (length above.now) }
{
    let digest = H::evaluate(alloc, leaf_parameters, leaf)?;
    let top = top_of::<H::Output, D, T>(alloc, hasher, table, digest, sibling, above, index)?;
    Ok(table.made[top] == *root)
}

/// Returns whether each leaf's digest gives the root along the path of its place, with an empty path before the first
/// and a table without entries.
pub fn judge_all<
    'a,
    'b,
    H: CRHScheme,
    D: DigestItem,
    T: PairHasher<H::Output, D>,
    I: Iterator<Item = &'b H::Input>,
>(
    alloc: Global,
    leaf_parameters: &H::Parameters,
    hasher: &mut T,
    root: &D,
    leaves: &mut I,
    siblings: &'a [H::Output],
    prefixes: &[usize],
    suffixes: &'a [Vec<D>],
    indexes: &[usize],
    above: &mut Vec<&'a D>,
    table: &mut Table<'a, H::Output, D>,
) -> Result<bool, Error>
where
    H::Input: 'b,
    requires leaves { I.can_next leaves.old }
    requires above { above.old.items ≡ [] }
    requires made { (h : HashPair)
        → IsTable H.Output.numbers D.numbers h table.old }
    requires none { table.old.made.items ≡ [] }
    requires holds { (pairs : ℕ × ℕ → Digest × Digest) (levels : ℕ)
        → HoldsTree H.Output.numbers D.numbers pairs levels 0 0 [] table.old }
    ensures answer { AnswersOver I.next_gives (λ leaf. H.meaning leaf_parameters.now leaf.now)
        leaves.old leaves.new (λ digests. multi_verdict (T.pair hasher.old) digests
        (listed_way H.Output.numbers D.numbers siblings.now prefixes.now suffixes.now indexes.now)
        (D.numbers root.now)) result }
    ensures exact { IfOk result (λ accepted. accepted ≡ true → CountsOwn I.next_gives
        (λ leaf. H.meaning leaf_parameters.now leaf.now) leaves.old (T.pair hasher.old)
        (D.numbers root.now) (listed_way H.Output.numbers D.numbers siblings.now prefixes.now
        suffixes.now indexes.now) (T.counted hasher.old) (T.counted hasher.new)) }
    ensures most { T.counted hasher.new ≤ T.counted hasher.old + most_asked
        (listed_way H.Output.numbers D.numbers siblings.now prefixes.now suffixes.now indexes.now) }
    ensures same { T.pair hasher.new ≡ T.pair hasher.old }
{
    if indexes.is_empty() {
        return Err(Error::GenericError(Refusal::NoIndex));
    }
    for place in 0..indexes.len() {
        let next = next_place(siblings, prefixes, suffixes, place, leaves, above)?;
        let accepted = judge::<H, D, T>(
            alloc,
            leaf_parameters,
            hasher,
            table,
            root,
            next.1,
            next.0,
            above,
            indexes[place],
        )?;
        if !accepted {
            return Ok(false);
        }
    }
    Ok(true)
}
