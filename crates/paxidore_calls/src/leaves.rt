//! Leaves that stand one behind the other.

ghost use Rattle.std.specs.Prelude.{◌≡◌, ◌<◌, ◌≤◌, ◌+◌, ◌++◌, ◌∷◌, None, Some, length, take, drop, map, nat_lt, true, IfOk, IfSome, MatchOption};
ghost use Rattle.std.specs.Option.{is_some, option_map};
ghost use Rattle.std.specs.List.{All, list_all};
ghost use Rattle.ark_paths.specs.Index.{IsTreeSize};
ghost use Rattle.ark_crh.specs.Ahead.{lent};
ghost use Rattle.paxidore_calls.specs.Answer.{CallGivesBy, are_indexes, leaves_for, leaves_in, results_of};
ghost use Rattle.paxidore_calls.specs.Cut.{parts_by};

use crate::refused::Refused;
use ark_base::serialize::rest_of;
use ark_crh::ArrayHash;
use ark_merkle::is_tree_size;
use std::alloc::Global;

// How many leaves are hashed at a time at most: as many references lie on the stack.
const RUN: usize = 64;

// The first bytes.
fn first_bytes(bytes: &[u8], count: usize) -> &[u8]
    requires { count ≤ length bytes.now }
    ensures { result.now ≡ take count bytes.now }
{
    &bytes[..count]
}

/// Returns the leaf of the length at a place, and the bytes behind it.
pub fn next_leaf<'a>(
    bytes: &'a [u8],
    lengths: &[usize],
    place: usize,
) -> Option<(&'a [u8], &'a [u8])>
    requires { place < length lengths.now }
    ensures { let parts = parts_by bytes.now (drop place lengths.now) in
        MatchOption result (parts ≡ None)
        (λ next. parts ≡ option_map (λ others. next.0.now ∷ others)
        (parts_by next.1.now (drop (place + 1) lengths.now))) }
{
    let len = lengths[place];
    if len > bytes.len() {
        return None;
    }
    Some((first_bytes(bytes, len), rest_of(bytes, len)))
}

// In front, the leaves of so many lengths from a place on, and the bytes behind them.
fn next_run<'a>(
    bytes: &'a [u8],
    lengths: &[usize],
    place: usize,
    count: usize,
) -> Option<([&'a [u8]; 64], &'a [u8])>
    requires run { count ≤ 64 }
    requires inside { place + count ≤ length lengths.now }
    ensures long { IfSome result (λ next. length next.0 ≡ 64) }
    ensures cut { let parts = parts_by bytes.now (drop place lengths.now) in
        MatchOption result (parts ≡ None)
        (λ next. parts ≡ option_map (λ others. lent (take count next.0) ++ others)
        (parts_by next.1.now (drop (place + count) lengths.now))) }
{
    let mut run = [bytes; RUN];
    let mut rest = bytes;
    'leaves: for n in 0..count {
        let Some((leaf, behind)) = next_leaf(rest, lengths, place + n) else {
            return None;
        };
        run[n] = leaf;
        rest = behind;
    }
    Some((run, rest))
}

/// Returns whether the lengths are those of parts that are all of the bytes.
pub fn are_parts(bytes: &[u8], lengths: &[usize]) -> bool
    ensures { result ≡ is_some (parts_by bytes.now lengths.now) }
{
    let mut rest = bytes;
    for place in 0..lengths.len() {
        let Some((_leaf, behind)) = next_leaf(rest, lengths, place) else {
            return false;
        };
        rest = behind;
    }
    rest.is_empty()
}

// Writes the digests of so many leaves from a place on.
fn write_run<H: ArrayHash>(digests: &mut [[u8; 32]], place: usize, leaves: &[&[u8]], count: usize)
    requires count { length leaves.now ≡ count }
    requires room { place + count ≤ length digests.old }
    ensures { take (place + count) digests.new
        ≡ take place digests.old ++ map H.leaf_hash (lent leaves.now) }
{
    H::leaves(leaves, &mut digests[place..place + count]);
}

/// Writes the digests of so many leaves from a place on, where the lengths from there on are those of parts that are all of the bytes,
/// and returns the bytes behind these leaves.
pub fn write_digests_from<'a, H: ArrayHash>(
    digests: &mut [[u8; 32]],
    bytes: &'a [u8],
    lengths: &[usize],
    first: usize,
) -> &'a [u8]
    requires { first + length digests.old ≤ length lengths.now }
    ensures long { length digests.new ≡ length digests.old }
    ensures digests { IfSome (parts_by bytes.now (drop first lengths.now)) (λ xs.
        digests.new ≡ map H.leaf_hash (take (length digests.old) xs)) }
    ensures rest { IfSome (parts_by bytes.now (drop first lengths.now)) (λ xs.
        parts_by result.now (drop (first + length digests.old) lengths.now)
        ≡ Some (drop (length digests.old) xs)) }
{
    let mut rest = bytes;
    let mut place = 0;
    'runs: while place < digests.len() {
        let count = (digests.len() - place).min(RUN);
        let Some(next) = next_run(rest, lengths, first + place, count) else {
            return rest;
        };
        let run = next.0;
        write_run::<H>(digests, place, &run[..count], count);
        rest = next.1;
        place += count;
    }
    rest
}

/// Writes the digests of the leaves, where the lengths are those of parts that are all of the bytes.
pub fn write_leaf_digests<H: ArrayHash>(digests: &mut [[u8; 32]], bytes: &[u8], lengths: &[usize])
    requires { length digests.old ≡ length lengths.now }
    ensures { IfSome (parts_by bytes.now lengths.now) (λ xs.
        digests.new ≡ map H.leaf_hash xs) }
{
    let _none = write_digests_from::<H>(digests, bytes, lengths, 0);
}

/// Returns the digest of each leaf, where the lengths are those of parts that are all of the bytes.
pub fn digests_of_leaves<H: ArrayHash>(
    alloc: Global,
    bytes: &[u8],
    lengths: &[usize],
) -> Result<Vec<[u8; 32]>, Refused>
    ensures made { let leaves = leaves_in (parts_by bytes.now lengths.now) in
        CallGivesBy (λ all. all.items) (results_of H.leaf_hash leaves) result }
    ensures size { IfOk result (λ all.
        IsTreeSize (length lengths.now) → IsTreeSize (length all.items)) }
{
    if !are_parts(bytes, lengths) {
        return Err(Refused::Lengths);
    }
    let mut digests = vec![in alloc; [0u8; 32]; lengths.len()]?;
    write_leaf_digests::<H>(&mut digests, bytes, lengths);
    Ok(digests)
}

// A copy of each leaf, where the lengths are those of parts that are all of the bytes.
fn copies_of_leaves(alloc: Global, bytes: &[u8], lengths: &[usize]) -> Result<Vec<Vec<u8>>, Refused>
    ensures { let leaves = leaves_in (parts_by bytes.now lengths.now) in
        let outcome = results_of (λ leaf. leaf) leaves in
        CallGivesBy (λ all. map (λ leaf. leaf.items) all.items) outcome result }
{
    let mut all = Vec::with_capacity(alloc, lengths.len())?;
    let mut rest = bytes;
    'leaves: for place in 0..lengths.len() {
        let Some((leaf, behind)) = next_leaf(rest, lengths, place) else {
            return Err(Refused::Lengths);
        };
        all.push(Vec::from_slice(alloc, leaf)?)?;
        rest = behind;
    }
    if rest.len() != 0 {
        return Err(Refused::Lengths);
    }
    Ok(all)
}

/// Returns the leaves for as many indexes of a tree of this size.
pub fn leaves_for(
    alloc: Global,
    size: usize,
    count: usize,
    bytes: &[u8],
    lengths: &[usize],
) -> Result<Vec<Vec<u8>>, Refused>
    ensures { let given = leaves_for size count bytes.now lengths.now in
        let outcome = results_of (λ leaf. leaf) given in
        CallGivesBy (λ all. map (λ leaf. leaf.items) all.items) outcome result }
{
    if !is_tree_size(size) {
        return Err(Refused::Size);
    }
    if lengths.len() != count {
        return Err(Refused::Count);
    }
    copies_of_leaves(alloc, bytes, lengths)
}

/// Returns whether all indexes are of leaves in a tree of this size, and there is one.
pub fn are_indexes(size: usize, indexes: &[usize]) -> bool
    ensures test { result ≡ are_indexes size indexes.now }
    ensures inside { result ≡ true → All (λ i. i < size) indexes.now }
{
    !indexes.is_empty() && are_below_size(size, indexes)
}

// Whether all indexes are below a size.
fn are_below_size(size: usize, indexes: &[usize]) -> bool
    ensures test { result ≡ list_all (λ i. nat_lt i size) indexes.now }
    ensures inside { result ≡ true → All (λ i. i < size) indexes.now }
{
    for index in indexes {
        if *index >= size {
            return false;
        }
    }
    true
}
