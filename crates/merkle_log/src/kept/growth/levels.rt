//! Growth level by level, so that the hash can make many pairs together.

ghost use Rattle.std.specs.Prelude.{◌≡◌, ◌<◌, ◌≤◌, ◌+◌, ◌-◌, ◌*◌, ◌^◌, ◌++◌, ℕ, List, [], length, get_or, set};
ghost use Rattle.ark_paths.specs.Pair.{Digest};
ghost use Rattle.merkle_log.specs.Asked.{Holding, IsPeak};
ghost use Rattle.merkle_log.specs.Kept.{Keeps, stored_front};
ghost use Rattle.merkle_log.specs.Levels.{HasRoom, Lies, Raises, RisesTo, parent_in, place_in};
ghost use Rattle.merkle_log.specs.Stored.{position, stored_count};

use crate::kept::growth::digest_among;
use crate::kept::node::node;
use crate::places::{position_of, stored_count};
use crate::rows::Rows;
use ark_crh::ArrayHash;
use ark_trees::LogHasher;

// Writes the digest of a place that a log of this size lacks.
fn put_at(more: &mut [[u8; 32]], size: usize, level: usize, place: usize, digest: &[u8; 32])
    requires fits { size < 2 ^ 63 }
    requires level { level < 64 }
    requires below { (place + 1) * 2 ^ level < 2 ^ 64 }
    requires near { position level place < 2 ^ 64 }
    requires lacks { stored_count size ≤ position level place }
    requires inside { position level place < stored_count size + length more.old }
    ensures written { more.new ≡ set more.old (position level place - stored_count size)
        digest.now }
    ensures same { length more.new ≡ length more.old }
{
    more[position_of(level, place) - stored_count(size)] = *digest;
}

// Writes the digests of leaves behind those of a log of this size.
fn put_leaves(more: &mut [[u8; 32]], size: usize, digests: &[[u8; 32]])
    requires fits { size + length digests.now < 2 ^ 63 }
    requires room { stored_count (size + length digests.now) ≤ stored_count size + length more.old }
    ensures lies { (kept : List Digest) → length kept ≡ stored_count size
        → Lies (kept ++ more.new) size digests.now }
    ensures same { length more.new ≡ length more.old }
{
    'leaves: for place in 0..digests.len() {
        put_at(more, size, 0, size + place, &digests[place]);
    }
}

// Returns the two digests below a place of the level above, left first: the place so many steps behind the first, and the last
// one where that is not before the end.
fn two_below<'a, R: Rows<[u8; 32]>>(
    rows: &'a R,
    size: usize,
    more: &'a [[u8; 32]],
    level: usize,
    first: usize,
    end: usize,
    steps: usize,
) -> (&'a [u8; 32], &'a [u8; 32])
    requires some { first < end }
    requires near { steps < 8 }
    requires room { HasRoom (R.stored rows.now) (R.Holds rows.now) size level first end
        (length more.now) }
    ensures left { first + steps < end → result.0.now ≡ place_in
        (stored_front (R.stored rows.now) ++ more.now) level (2 * (first + steps)) }
    ensures right { first + steps < end → result.1.now ≡ place_in
        (stored_front (R.stored rows.now) ++ more.now) level (2 * (first + steps) + 1) }
{
    let place = (first + steps).min(end - 1);
    let left = digest_among(rows, size, more, level, 2 * place);
    let right = digest_among(rows, size, more, level, 2 * place + 1);
    (left, right)
}

// Hashes the digests below eight places of the level above, from one on, together. Those that are not before the end are the
// last one.
fn run_of<R: Rows<[u8; 32]>>(
    rows: &R,
    size: usize,
    more: &[[u8; 32]],
    level: usize,
    first: usize,
    end: usize,
) -> [[u8; 32]; 8]
    requires some { first < end }
    requires room { HasRoom (R.stored rows.now) (R.Holds rows.now) size level first end
        (length more.now) }
    ensures { (step : ℕ) → step < 8 → first + step < end → get_or result step [] ≡ parent_in
        (stored_front (R.stored rows.now) ++ more.now) level (first + step) }
{
    let couples = [
        two_below(rows, size, more, level, first, end, 0),
        two_below(rows, size, more, level, first, end, 1),
        two_below(rows, size, more, level, first, end, 2),
        two_below(rows, size, more, level, first, end, 3),
        two_below(rows, size, more, level, first, end, 4),
        two_below(rows, size, more, level, first, end, 5),
        two_below(rows, size, more, level, first, end, 6),
        two_below(rows, size, more, level, first, end, 7),
    ];
    let mut parents = [[0; 32]; 8];
    LogHasher::nodes(&couples, &mut parents);
    parents
}

// Writes the digests of places of the level above, from one on and before another.
fn raise<R: Rows<[u8; 32]>>(
    rows: &R,
    size: usize,
    more: &mut [[u8; 32]],
    level: usize,
    first: usize,
    end: usize,
)
    requires room { HasRoom (R.stored rows.now) (R.Holds rows.now) size level first end
        (length more.old) }
    ensures raised { Raises (stored_front (R.stored rows.now) ++ more.old)
        (stored_front (R.stored rows.now) ++ more.new) level first end }
    ensures same { length more.new ≡ length more.old }
{
    let mut place = first;
    'places: while place < end {
        if end - place >= 4 {
            let parents = run_of(rows, size, more, level, place, end);
            let count = (end - place).min(8);
            'run: for step in 0..count {
                put_at(more, size, level + 1, place + step, &parents[step]);
            }
            place += count;
        } else {
            let (left, right) = two_below(rows, size, more, level, place, end, 0);
            let own = node(left, right);
            put_at(more, size, level + 1, place, &own);
            place += 1;
        }
    }
}

/// Writes the digests of the places above a level that the rows of a log of this size lack for a longer one.
pub fn raise_from<R: Rows<[u8; 32]>>(
    rows: &R,
    size: usize,
    total: usize,
    from: usize,
    more: &mut [[u8; 32]],
)
    requires size { (R.stored rows.now).size ≡ size }
    requires stored { stored_count size ≤ length (R.stored rows.now).digests }
    requires held { Holding (R.Holds rows.now) 0 (IsPeak size) }
    requires longer { size ≤ total }
    requires fits { total < 2 ^ 63 }
    requires level { from < 64 }
    requires room { stored_count total ≡ stored_count size + length more.old }
    ensures rises { RisesTo (stored_front (R.stored rows.now) ++ more.old) size total from
        → (level : ℕ) → RisesTo (stored_front (R.stored rows.now) ++ more.new) size total level }
    ensures leaves { let kept = stored_front (R.stored rows.now) in (place : ℕ)
        → place_in (kept ++ more.new) 0 place ≡ place_in (kept ++ more.old) 0 place }
    ensures same { length more.new ≡ length more.old }
{
    let mut level = from;
    let mut first = size >> from;
    let mut end = total >> from;
    'levels: while first < end {
        first /= 2;
        end /= 2;
        raise(rows, size, more, level, first, end);
        level += 1;
    }
}

/// Fills `more` with the digests that the rows of a log of this size lack for more leaves' digests.
pub fn grow<R: Rows<[u8; 32]>>(rows: &R, size: usize, digests: &[[u8; 32]], more: &mut [[u8; 32]])
    requires size { (R.stored rows.now).size ≡ size }
    requires stored { stored_count size ≤ length (R.stored rows.now).digests }
    requires held { Holding (R.Holds rows.now) 0 (IsPeak size) }
    requires fits { size + length digests.now < 2 ^ 63 }
    requires room { stored_count (size + length digests.now) ≡ stored_count size + length more.old }
    ensures grows { (leaves : List Digest) → length leaves ≡ size
        → Keeps leaves (R.stored rows.now).digests
        → Keeps (leaves ++ digests.now) (stored_front (R.stored rows.now) ++ more.new) }
    ensures same { length more.new ≡ length more.old }
{
    put_leaves(more, size, digests);
    raise_from(rows, size, size + digests.len(), 0, more);
}
