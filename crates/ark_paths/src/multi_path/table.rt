//! The pairs that the check of a multi-proof has hashed.

ghost use Rattle.std.specs.Bool.{Decides};
ghost use Rattle.std.specs.BTreeMap.{get, Updates};
ghost use Rattle.std.specs.Prelude.{◌≡◌, ◌≢◌, ◌+◌, ◌-◌, ◌<◌, ◌≤◌, ◌++◌, ◌∷◌, ℕ, [], length, map, get_or, IfOk, IsOkUnless, MatchOption, None, OnOk, Some};
ghost use Rattle.ark_base.specs.declared.error.Error.TheVariants.{OutOfMemory};
ghost use Rattle.ark_base.specs.Outcome.{AnswersBy};
ghost use Rattle.ark_paths.specs.Bind.{couple};
ghost use Rattle.ark_paths.specs.Kept.{place_cmp, put_at, AreKept};
ghost use Rattle.ark_paths.specs.declared.multi_path.table.Entry.{Entry as OfEntry};
ghost use Rattle.ark_paths.specs.Pair.{Digest, HashPair};
ghost use Rattle.ark_paths.specs.Table.{pair_seen, row_of, AllMade, HoldsTree, IsServed, IsTable};

use crate::multi_path::hasher::PairHasher;
use ark_base::error::Error;
use ark_base::serialize::{DigestItem, Numbered};
use std::alloc::Global;
use std::collections::BTreeMap;

/// A digest that was computed, and what the proof has beside it.
#[derive(Drop)]
pub struct Pair<'a, X> {
    /// Whether the computed one stands right.
    pub is_right: bool,
    /// Its number among those that were computed.
    pub own: usize,
    /// The other one.
    pub sibling: &'a X,
}

/// A pair that was hashed, and the number of the digest that it gave.
#[derive(Drop)]
pub struct Entry<'a, X> {
    pub pair: Pair<'a, X>,
    pub digest: usize,
}

/// An entry with its place: a level, counted from the lowest pairs, and a number on it.
#[derive(Drop)]
pub struct Placed<'a, X> {
    pub place: (usize, usize),
    pub entry: Entry<'a, X>,
}

/// The places where pairs were hashed, each with the last pair there.
#[derive(Drop)]
pub struct Entries<'a, X> {
    /// The keys are ordered and not scattered by a hash, so that no proof can be made whose places take long to find.
    pub all: BTreeMap<(usize, usize), Entry<'a, X>, Global>,
    /// For each level the entry that came last, which for most is that of the path before: a path shares most of its places
    /// with the next one. It stands at its level less one, since entries are of the lowest level alone or begin above it.
    pub last: Vec<Placed<'a, X>>,
}

/// The digests that were computed, each once, and the pairs that gave them.
#[derive(Drop)]
pub struct Table<'a, L, D> {
    pub leaves: Vec<L>,
    pub made: Vec<D>,
    pub lowest: Entries<'a, L>,
    pub upper: Entries<'a, D>,
}

impl<'a, L: DigestItem, D: DigestItem> Table<'a, L, D> {
    /// Returns a table without entries. It allocates nothing.
    pub fn new(alloc: Global) -> Table<'a, L, D>
        ensures made { (h : HashPair) → IsTable L.numbers D.numbers h result }
        ensures none { result.made.items ≡ [] }
        ensures holds { (pairs : ℕ × ℕ → Digest × Digest) (above : ℕ)
            → HoldsTree L.numbers D.numbers pairs above 0 0 [] result }
    {
        Table {
            leaves: Vec::new(alloc),
            made: Vec::new(alloc),
            lowest: Entries::new(alloc),
            upper: Entries::new(alloc),
        }
    }
}

impl<'a, X> Entries<'a, X> {
    /// Returns no entries. It allocates nothing.
    pub fn new(alloc: Global) -> Entries<'a, X>
        ensures all { (place : ℕ × ℕ) → get place_cmp result.all place ≡ None }
        ensures last { result.last.items ≡ [] }
    {
        Entries {
            all: BTreeMap::new(alloc),
            last: Vec::new(alloc),
        }
    }
}

/// Returns two digests, left first: the own one stands right where that is so.
pub fn in_order<'b, X: Numbered>(is_right: bool, own: &'b X, sibling: &'b X) -> (&'b X, &'b X)
    ensures { (X.numbers result.0.now, X.numbers result.1.now) ≡ couple is_right (X.numbers own.now)
        (X.numbers sibling.now) }
{
    if is_right {
        (sibling, own)
    } else {
        (own, sibling)
    }
}

// Whether two pairs are the same.
fn is_same<X: DigestItem>(digests: &[X], one: &Pair<X>, other: &Pair<X>) -> bool
    requires one { one.now.own < length digests.now }
    requires other { other.now.own < length digests.now }
    ensures { let seen = pair_seen X.numbers (map X.numbers digests.now) in
        Decides result (seen one.now ≡ seen other.now) }
{
    let (left, right) = (&digests[one.own], &digests[other.own]);
    if one.is_right == other.is_right {
        (one.own == other.own || *left == *right) && *one.sibling == *other.sibling
    } else {
        *left == *other.sibling && *one.sibling == *right
    }
}

// The entry at a place, without a search where it came last on its level.
fn found<'b, X>(entries: &'b Entries<X>, place: (usize, usize)) -> Option<&'b Entry<'b, X>>
    requires { AreKept entries.now.all entries.now.last.items }
    ensures { let kept = get place_cmp entries.now.all place in
        MatchOption result (kept ≡ None) (λ entry. kept ≡ Some entry.now) }
{
    if let Some(placed) = entries.last.get(place.0.saturating_sub(1)) {
        if placed.place == place {
            return Some(&placed.entry);
        }
    }
    entries.all.get(&place)
}

// The number of the digest that this pair gave at this place, if it is the one that is kept there.
fn find<X: DigestItem>(
    digests: &[X],
    entries: &Entries<X>,
    place: (usize, usize),
    pair: &Pair<X>,
) -> Option<usize>
    requires kept { AreKept entries.now.all entries.now.last.items }
    requires entries { (place : ℕ × ℕ) (entry : OfEntry X)
        → get place_cmp entries.now.all place ≡ Some entry → entry.pair.own < length digests.now }
    requires own { pair.now.own < length digests.now }
    ensures { let seen = pair_seen X.numbers (map X.numbers digests.now) in
        let kept = get place_cmp entries.now.all place in
        MatchOption result
        ((entry : OfEntry X) → kept ≡ Some entry → seen entry.pair ≢ seen pair.now)
        (λ number. (entry : OfEntry X) × (kept ≡ Some entry) × (number ≡ entry.digest)
        × (seen entry.pair ≡ seen pair.now)) }
{
    let entry = found(entries, place)?;
    if is_same(digests, &entry.pair, pair) {
        Some(entry.digest)
    } else {
        None
    }
}

// Puts an item at a place inside a list or just past its end. A list that ends before is left as it is.
fn put<X: Drop>(items: &mut Vec<X>, place: usize, item: X) -> Result<(), Error>
    ensures items { OnOk result (items.new.items ≡ put_at items.old.items place item) }
    ensures memory { IsOkUnless result OutOfMemory }
{
    if place < items.len() {
        items[place] = item;
    } else if place == items.len() {
        items.push(item)?;
    }
    Ok(())
}

// Keeps a digest, and at its place the pair that gave it.
fn keep<'a, X, D: DigestItem>(
    made: &mut Vec<D>,
    entries: &mut Entries<'a, X>,
    place: (usize, usize),
    pair: Pair<'a, X>,
    digest: D,
) -> Result<usize, Error>
    requires { AreKept entries.old.all entries.old.last.items }
    ensures made { OnOk result (map D.numbers made.new.items ≡ map D.numbers made.old.items ++
        D.numbers digest ∷ []) }
    ensures number { IfOk result (λ number. number ≡ length made.old.items) }
    ensures entries { IfOk result
        (λ number. let entry : OfEntry X = record { pair = pair.entry; digest = number } in Updates
        place_cmp entries.old.all entries.new.all place (Some entry)) }
    ensures kept { OnOk result (AreKept entries.new.all entries.new.last.items) }
    ensures memory { IsOkUnless result OutOfMemory }
{
    let number = made.len();
    made.push(digest)?;
    let again = Pair {
        is_right: pair.is_right,
        own: pair.own,
        sibling: pair.sibling,
    };
    entries.all.insert(
        place,
        Entry {
            pair: again,
            digest: number,
        },
    )?;
    let entry = Entry {
        pair,
        digest: number,
    };
    put(
        &mut entries.last,
        place.0.saturating_sub(1),
        Placed { place, entry },
    )?;
    Ok(number)
}

/// Returns the number of the digest of a pair of leaf digests: the table's, where it has this pair at this place, else
/// it is hashed.
pub fn ask_lowest<'a, L: DigestItem, D: DigestItem, T: PairHasher<L, D>>(
    alloc: Global,
    hasher: &mut T,
    leaves: &[L],
    made: &mut Vec<D>,
    entries: &mut Entries<'a, L>,
    place: (usize, usize),
    pair: Pair<'a, L>,
) -> Result<usize, Error>
    requires own { pair.own < length leaves.now }
    requires made { AllMade L.numbers (T.pair hasher.old).bottom (map L.numbers leaves.now)
        (map D.numbers made.old.items) entries.old }
    ensures answer { let asked = pair_seen L.numbers
        (map L.numbers leaves.now) pair.entry in
        AnswersBy (λ number. get_or (map D.numbers made.new.items) number [])
        ((T.pair hasher.old).bottom asked.0 asked.1) result }
    ensures served { IfOk result (IsServed L.numbers D.numbers (T.pair hasher.old).bottom place
        pair.entry (row_of (map L.numbers leaves.now) made.old.items entries.old
        (T.counted hasher.old)) (row_of (map L.numbers leaves.now) made.new.items entries.new
        (T.counted hasher.new))) }
    ensures same { T.pair hasher.new ≡ T.pair hasher.old }
    ensures most { T.counted hasher.new ≤ T.counted hasher.old + 1 }
{
    if let Some(number) = find(leaves, entries, place, &pair) {
        return Ok(number);
    }
    let (left, right) = in_order(pair.is_right, &leaves[pair.own], pair.sibling);
    let digest = hasher.bottom(alloc, left, right)?;
    let number = keep(made, entries, place, pair, digest)?;
    Ok(number)
}

/// Returns the number of the digest of a pair above the leaves: the table's, where it has this pair at this place, else
/// it is hashed.
pub fn ask_upper<'a, L: DigestItem, D: DigestItem, T: PairHasher<L, D>>(
    alloc: Global,
    hasher: &mut T,
    made: &mut Vec<D>,
    entries: &mut Entries<'a, D>,
    place: (usize, usize),
    pair: Pair<'a, D>,
) -> Result<usize, Error>
    requires own { pair.own < length made.old.items }
    requires made { AllMade D.numbers (T.pair hasher.old).upper (map D.numbers made.old.items)
        (map D.numbers made.old.items) entries.old }
    ensures answer { let asked = pair_seen D.numbers
        (map D.numbers made.old.items) pair.entry in
        AnswersBy (λ number. get_or (map D.numbers made.new.items) number [])
        ((T.pair hasher.old).upper asked.0 asked.1) result }
    ensures served { IfOk result (IsServed D.numbers D.numbers (T.pair hasher.old).upper place
        pair.entry (row_of (map D.numbers made.old.items) made.old.items entries.old
        (T.counted hasher.old)) (row_of (map D.numbers made.new.items) made.new.items entries.new
        (T.counted hasher.new))) }
    ensures same { T.pair hasher.new ≡ T.pair hasher.old }
    ensures most { T.counted hasher.new ≤ T.counted hasher.old + 1 }
{
    if let Some(number) = find(made, entries, place, &pair) {
        return Ok(number);
    }
    let (left, right) = in_order(pair.is_right, &made[pair.own], pair.sibling);
    let digest = hasher.upper(alloc, left, right)?;
    let number = keep(made, entries, place, pair, digest)?;
    Ok(number)
}
