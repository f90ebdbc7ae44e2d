//! Changed digests of a row, and what they change above it.

ghost use Rattle.std.specs.Prelude.{◌≡◌, ◌<◌, ◌≤◌, ◌-◌, ◌/◌, ◌%◌, ◌^◌, ◌+◌, ◌++◌, ℕ, [], ◌∷◌, map, length, take, drop, get_or, set, slice_index, IfOk, IsOkUnless, OnErr, OnOk};
ghost use Rattle.ark_base.specs.declared.error.Error.TheVariants.{OutOfMemory};
ghost use Rattle.std.specs.List.{zip};
ghost use Rattle.ark_base.specs.Outcome.{AnswersBy};
ghost use Rattle.ark_crh.specs.Ahead.{lent_couples};
ghost use Rattle.ark_paths.specs.Rows.{digests_of, rows_from};
ghost use Rattle.ark_merkle.specs.Batch.{hashed_changes, puts};
ghost use Rattle.ark_merkle.specs.Changed.{seen_changes, AreChanges, AreHashed, couples_reached, count_over};

use crate::tree::levels::Levels;
use ark_base::error::Error;
use ark_base::serialize::DigestItem;
use ark_paths::hasher::TreeHasher;
use ark_paths::index::is_bit_set;
use ark_paths::runs::{RUN, bottom_digests, upper_digests};
use std::alloc::Global;
use std::mem::swap;

// A couple of a row that changes reach, as it becomes.
#[derive(Drop)]
struct Reached<'a, D: DigestItem> {
    // The couple's place in the row above.
    place: usize,
    left: &'a D,
    right: &'a D,
    // The first change behind it.
    behind: usize,
}

// The couple of a row that a change reaches.
fn reached_by<'a, D: DigestItem>(
    row: &'a [D],
    changes: &'a [(usize, D)],
    next: usize,
) -> Reached<'a, D>
    requires even { length row.now % 2 ≡ 0 }
    requires changes { AreChanges 0 (length row.now) changes.now }
    requires next { next < length changes.now }
    ensures reached { let row = map D.numbers row.now in
        let from = λ (n : ℕ). couples_reached row (seen_changes D.numbers (drop n changes.now)) in
        from next ≡ (result.place, (D.numbers result.left.now, D.numbers result.right.now))
        ∷ from result.behind }
    ensures more { next < result.behind }
    ensures most { result.behind ≤ next + 2 }
    ensures inside { result.behind ≤ length changes.now }
{
    let (index, digest) = &changes[next];
    let place = *index / 2;
    if next + 1 < changes.len() && changes[next + 1].0 / 2 == place {
        Reached {
            place,
            left: digest,
            right: &changes[next + 1].1,
            behind: next + 2,
        }
    } else if is_bit_set(*index, 0) {
        Reached {
            place,
            left: &row[2 * place],
            right: digest,
            behind: next + 1,
        }
    } else {
        Reached {
            place,
            left: digest,
            right: &row[2 * place + 1],
            behind: next + 1,
        }
    }
}

// Couples of a row that changes reach, as they become: a run of them.
#[derive(Drop)]
struct ReachedRun<'a, D: DigestItem> {
    // The couples' places in the row above.
    places: Vec<usize>,
    couples: Vec<(&'a D, &'a D)>,
    // The first change behind them.
    behind: usize,
}

// The next run of couples of a row that changes reach.
fn run_reached<'a, D: DigestItem>(
    alloc: Global,
    row: &'a [D],
    changes: &'a [(usize, D)],
    next: usize,
) -> Result<ReachedRun<'a, D>, Error>
    requires even { length row.now % 2 ≡ 0 }
    requires changes { AreChanges 0 (length row.now) changes.now }
    requires next { next < length changes.now }
    ensures reached { let row = map D.numbers row.now in
        let from = λ (n : ℕ). couples_reached row (seen_changes D.numbers (drop n changes.now)) in
        IfOk result (λ run. from next
        ≡ zip run.places.items (lent_couples D.numbers run.couples.items) ++ from run.behind) }
    ensures places { IfOk result (λ run. length run.places.items ≡ length run.couples.items) }
    ensures more { IfOk result (λ run. next < run.behind) }
    ensures inside { IfOk result (λ run. run.behind ≤ length changes.now) }
    ensures memory { IsOkUnless result OutOfMemory }
{
    let most = (changes.len() - next).min(RUN);
    let mut places = Vec::with_capacity(alloc, most)?;
    let mut couples = Vec::with_capacity(alloc, most)?;
    let mut behind = next;
    'reached: for _ in 0..most {
        if behind == changes.len() {
            break;
        }
        let reached = reached_by(row, changes, behind);
        places.push(reached.place)?;
        couples.push((reached.left, reached.right))?;
        behind = reached.behind;
    }
    Ok(ReachedRun {
        places,
        couples,
        behind,
    })
}

/// Puts digests behind others, each with its place, the first one first.
pub fn push_changes<D: DigestItem>(
    changes: &mut Vec<(usize, D)>,
    places: &[usize],
    digests: Vec<D>,
) -> Result<(), Error>
    requires { length digests.items ≡ length places.now }
    ensures changes { OnOk result (seen_changes D.numbers changes.new.items ≡ seen_changes D.numbers
        changes.old.items ++ zip places.now (digests_of D.numbers digests)) }
    ensures memory { IsOkUnless result OutOfMemory }
{
    let mut place = 0;
    'digests: for digest in digests {
        changes.push((places[place], digest))?;
        place += 1;
    }
    Ok(())
}

// The hashes of the couples of a row that changes reach.
fn hash_reached<L: DigestItem, D: DigestItem, T: TreeHasher<L, D>>(
    alloc: Global,
    hasher: &T,
    row: &[D],
    changes: &[(usize, D)],
) -> Result<Vec<(usize, D)>, Error>
    requires even { length row.now % 2 ≡ 0 }
    requires changes { AreChanges 0 (length row.now) changes.now }
    ensures { AnswersBy (λ above. seen_changes D.numbers above.items) (hashed_changes
        (λ couple. (T.hashes hasher.now).pair.upper couple.0 couple.1)
        (couples_reached (map D.numbers row.now) (seen_changes D.numbers changes.now))) result }
{
    let mut above = Vec::with_capacity(alloc, changes.len())?;
    let mut next = 0;
    'runs: while next < changes.len() {
        let run = run_reached(alloc, row, changes, next)?;
        let made = upper_digests(alloc, hasher, &run.couples)?;
        push_changes(&mut above, &run.places, made)?;
        next = run.behind;
    }
    Ok(above)
}

/// Returns the hashes of the couples of leaf digests that changes reach.
pub fn hash_reached_leaves<L: DigestItem, D: DigestItem, T: TreeHasher<L, D>>(
    alloc: Global,
    hasher: &T,
    leaves: &[L],
    changes: &[(usize, L)],
) -> Result<Vec<(usize, D)>, Error>
    requires even { length leaves.now % 2 ≡ 0 }
    requires changes { AreChanges 0 (length leaves.now) changes.now }
    ensures { AnswersBy (λ above. seen_changes D.numbers above.items) (hashed_changes
        (λ couple. (T.hashes hasher.now).pair.bottom couple.0 couple.1)
        (couples_reached (map L.numbers leaves.now) (seen_changes L.numbers changes.now))) result }
{
    let mut above = Vec::with_capacity(alloc, changes.len())?;
    let mut next = 0;
    'runs: while next < changes.len() {
        let run = run_reached(alloc, leaves, changes, next)?;
        let made = bottom_digests(alloc, hasher, &run.couples)?;
        push_changes(&mut above, &run.places, made)?;
        next = run.behind;
    }
    Ok(above)
}

// Exchanges the digest at a place of a list with another one.
fn exchange<D: DigestItem>(digests: &mut [D], place: usize, digest: &mut D)
    requires { place < length digests.old }
    ensures { digests.new ≡ set digests.old place digest.old }
{
    swap(&mut digests[place], digest);
}

/// Puts changed digests into a list.
pub fn put_changes<D: DigestItem>(digests: &mut [D], mut changes: Vec<(usize, D)>)
    requires { AreChanges 0 (length digests.old) changes.items }
    ensures { map D.numbers digests.new
        ≡ puts (map D.numbers digests.old) (seen_changes D.numbers changes.items) }
{
    for n in 0..changes.len() {
        let (place, digest) = &mut changes[n];
        exchange(digests, *place, digest);
    }
}

// Puts changed digests into a row.
fn put_in_row<D: DigestItem>(rows: &mut Levels<D>, row: usize, mut changes: Vec<(usize, D)>)
    requires row { row < length rows.old }
    requires changes { AreChanges 0 (length (get_or rows.old row [])) changes.items }
    ensures { rows.new ≡ set rows.old row
        (puts (get_or rows.old row []) (seen_changes D.numbers changes.items)) }
{
    for n in 0..changes.len() {
        let (place, digest) = &mut changes[n];
        rows.exchange(row, *place, digest);
    }
}

/// Puts changed digests into a row, and into the rows above it what these then hash to. All is hashed before anything
/// is written, each place once; returns how many.
pub fn change_rows<L: DigestItem, D: DigestItem, T: TreeHasher<L, D>>(
    alloc: Global,
    hasher: &T,
    rows: &mut Levels<D>,
    row: usize,
    changes: Vec<(usize, D)>,
) -> Result<usize, Error>
    requires row { row < length rows.old }
    requires size { length (get_or rows.old row []) ≡ 2 ^ (length rows.old - 1 - row) }
    requires hashed { AreHashed (T.hashes hasher.now).pair.upper rows.old }
    requires changes { AreChanges 0 (length (get_or rows.old row [])) changes.items }
    ensures rows { AnswersBy (λ _. drop row rows.new) (rows_from (T.hashes hasher.now).pair.upper
        (length rows.old - 1 - row)
        (puts (get_or rows.old row []) (seen_changes D.numbers changes.items))) result }
    ensures length { length rows.new ≡ length rows.old }
    ensures below { take row rows.new ≡ take row rows.old }
    ensures count { IfOk result (λ count.
        count ≡ count_over (length rows.old - 1 - row) (map (λ c. c.0) changes.items)) }
    ensures refused { OnErr result (rows.new ≡ rows.old) }
{
    if rows.len() == row + 1 {
        put_in_row(rows, row, changes);
        return Ok(0);
    }
    let above = hash_reached(alloc, hasher, rows.row(row), &changes)?;
    let hashed = above.len();
    let more = change_rows(alloc, hasher, rows, row + 1, above)?;
    put_in_row(rows, row, changes);
    Ok(hashed + more)
}
