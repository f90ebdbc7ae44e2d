//! The paths of a multi-proof, place by place.

ghost use Rattle.std.specs.Prelude.{◌≡◌, ◌==◌, ◌+◌, ◌++◌, ℕ, List, [], length, get_or, slice_get, map, take, IfOk, IsOkUnless, MatchOption, MatchResult, OnOk, Some, None};
ghost use Rattle.ark_base.specs.declared.error.Error.TheVariants.{OutOfMemory};
ghost use Rattle.ark_paths.specs.MultiPath.{path_of_parts};
ghost use Rattle.ark_paths.specs.Leaves.{TakesNone};
ghost use Rattle.ark_paths.specs.Pair.{Digest};
ghost use Rattle.ark_paths.specs.Rows.{digests_of};

use ark_base::error::Error;
use ark_base::serialize::{DigestItem, Numbered};

/// The parts of a place that decodes.
#[derive(Drop)]
pub struct Part<'a, S, D> {
    /// The digest beside the leaf's.
    pub sibling: &'a S,
    /// How many first digests the path takes from the one before.
    pub prefix: usize,
    /// The digests that follow.
    pub suffix: &'a [D],
}

/// Returns whether a number is the sum of two.
pub fn is_sum(number: usize, first: usize, second: usize) -> bool
    ensures { result ≡ (first + second == number) }
{
    first <= number && number - first == second
}

/// Returns the parts of a place in the lists of a multi-proof, where it decodes.
pub fn part_at<'a, S: Numbered, D: Numbered>(
    siblings: &'a [S],
    prefixes: &[usize],
    suffixes: &'a [Vec<D>],
    place: usize,
) -> Option<Part<'a, S, D>>
    ensures { let sibling = slice_get (map S.numbers siblings.now) place in
        let seen = map (digests_of D.numbers) suffixes.now in
        let path = λ (before : List Digest) (index : ℕ).
        path_of_parts (length (get_or seen 0 [])) before index sibling
        (slice_get prefixes.now place) (slice_get seen place) in
        (before : List Digest) (index : ℕ) → MatchOption result (path before index ≡ None)
        (λ part. path before index ≡ Some (record {
          sibling = S.numbers part.sibling.now;
          above = take part.prefix before ++ map D.numbers part.suffix.now;
          index = index;
        })) }
{
    let sibling = siblings.get(place)?;
    let prefix = *prefixes.get(place)?;
    let suffix = suffixes.get(place)?.as_slice();
    let len = suffixes[0].len();
    if is_sum(len, prefix, suffix.len()) {
        Some(Part {
            sibling,
            prefix,
            suffix,
        })
    } else {
        None
    }
}

/// Returns how many items the first of some lists has; none where there is no list.
pub fn first_length<D>(lists: &[Vec<D>]) -> usize
    ensures { result ≡ length (get_or (map (λ list. list.items) lists.now) 0 []) }
{
    match lists.first() {
        Some(list) => list.len(),
        None => 0,
    }
}

/// Makes the path of a place of the path before: its first digests stay, and the suffix takes the place of the others.
///
/// The only error is `OutOfMemory`; what `above` then holds no clause says.
pub fn extend<'a, D: DigestItem>(
    above: &mut Vec<&'a D>,
    prefix: usize,
    suffix: &'a [D],
) -> Result<(), Error>
    ensures above { IfOk result (λ _. map (λ x. D.numbers x.now) above.new.items ≡ take prefix
        (map (λ x. D.numbers x.now) above.old.items) ++ map D.numbers suffix.now) }
    ensures memory { IsOkUnless result OutOfMemory }
{
    above.truncate(prefix);
    for digest in suffix {
        above.push(digest)?;
    }
    Ok(())
}

/// Takes the leaf of a place, and makes the path there of the path before. It returns the digest beside the leaf's, and
/// the leaf.
///
/// Errors: `IncorrectInputLength` of a place that does not decode, before a leaf is taken, or for which there is none;
/// `OutOfMemory`.
pub fn next_place<'a, 'b, S: Numbered, D: DigestItem, L, I: Iterator<Item = &'b L>>(
    siblings: &'a [S],
    prefixes: &[usize],
    suffixes: &'a [Vec<D>],
    place: usize,
    leaves: &mut I,
    above: &mut Vec<&'a D>,
) -> Result<(&'a S, &'b L), Error>
where
    L: 'b,
    requires { I.can_next leaves.old }
    ensures can { OnOk result (I.can_next leaves.new) }
    ensures next { let seen = map (digests_of D.numbers) suffixes.now in
        let before = map (λ x. D.numbers x.now) above.old.items in
        let path = λ (index : ℕ).
        path_of_parts (length (get_or seen 0 [])) before index
        (slice_get (map S.numbers siblings.now) place) (slice_get prefixes.now place)
        (slice_get seen place) in
        MatchResult result (λ next. I.next_gives leaves.old (Some next.1) leaves.new
        × ((index : ℕ) → path index ≡ Some (record {
          sibling = S.numbers next.0.now;
          above = map (λ x. D.numbers x.now) above.new.items;
          index = index;
        })))
        (TakesNone I.next_gives leaves.old leaves.new path place) }
{
    let Some(part) = part_at(siblings, prefixes, suffixes, place) else {
        return Err(Error::IncorrectInputLength(place));
    };
    let Some(leaf) = leaves.next() else {
        return Err(Error::IncorrectInputLength(place));
    };
    extend(above, part.prefix, part.suffix)?;
    Ok((part.sibling, leaf))
}
