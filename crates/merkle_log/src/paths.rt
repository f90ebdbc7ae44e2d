//! The proofs that are read of a log's rows. They are written to a list of the caller's, which has as many places as they have
//! digests.

ghost use Rattle.std.specs.Prelude.{◌≡◌, ◌==◌, ◌<◌, ◌≤◌, ◌+◌, ◌-◌, ◌/◌, ◌^◌, ◌++◌, ℕ, if◌then◌else◌, length, map, take, true, IfOk, OnOk, Ok};
ghost use Rattle.ark_paths.specs.Pair.{Digest};
ghost use Rattle.merkle_log.specs.Asked.{Holding, IsBeside, IsLowest, IsPeak, own_count};
ghost use Rattle.merkle_log.specs.Edge.{all_of, beside_left, beside_pairs, digest_beside, digests_beside, last_seen, HasLast, path_with, RaisesNeeded, seed_digests, Tallies};
ghost use Rattle.merkle_log.specs.Given.{GivesBy};
ghost use Rattle.merkle_log.specs.Log.{inclusion_path, consistency_path};
ghost use Rattle.merkle_log.specs.Stored.{row_at, IsStored};
ghost use Rattle.merkle_log.specs.Received.{consistency_length, inclusion_length};
ghost use Rattle.merkle_log.specs.Walk.{has_beside, used_below};

use crate::nodes::NodeHasher;
use crate::rows::{Rows, last_of, raise};
use crate::way::has_beside;
use ark_base::serialize::DigestItem;

// Returns the digest beside an index of a row, where one stands there.
fn beside<'a, D: DigestItem, R: Rows<D>>(
    rows: &'a R,
    level: usize,
    index: usize,
    last_index: usize,
    last: &'a Option<D>,
) -> &'a D
    requires inside { index ≤ last_index }
    requires stands { has_beside index last_index ≡ true }
    requires within { last_index ≤ length (row_at (R.stored rows.now) level) }
    requires last { index < last_index
        → HasLast (row_at (R.stored rows.now) level) last_index last.now }
    requires held { Holding (R.Holds rows.now) level
        (IsBeside index (own_count last_index last.now)) }
    ensures { D.numbers result.now ≡ digest_beside (row_at (R.stored rows.now) level) index
        last_index (last_seen D.numbers (row_at (R.stored rows.now) level) last_index last.now) }
{
    if index % 2 == 1 {
        rows.at(level, index - 1)
    } else if index + 1 < last_index {
        rows.at(level, index + 1)
    } else {
        last_of(rows, level, last_index, last)
    }
}

// Puts the digest beside an index at a place of a path, if one stands there, and returns the next place.
fn put_beside<D: DigestItem, R: Rows<D>, H: NodeHasher<D>>(
    hasher: &H,
    rows: &R,
    level: usize,
    index: usize,
    last_index: usize,
    last: &Option<D>,
    path: &mut [D],
    at: usize,
) -> Result<usize, H::Refusal>
    requires inside { index ≤ last_index }
    requires within { last_index ≤ length (row_at (R.stored rows.now) level) }
    requires last { index < last_index
        → HasLast (row_at (R.stored rows.now) level) last_index last.now }
    requires held { Holding (R.Holds rows.now) level
        (IsBeside index (own_count last_index last.now)) }
    requires room { has_beside index last_index ≡ true → at < length path.old }
    ensures put { GivesBy H.why (λ next. map D.numbers (take next path.new))
        (Ok (map D.numbers (take at path.old) ++ (digests_beside
        (row_at (R.stored rows.now) level) index last_index
        (last_seen D.numbers (row_at (R.stored rows.now) level) last_index last.now)))) result }
    ensures next { IfOk result
        (λ next. next ≡ (if has_beside index last_index then at + 1 else at)) }
    ensures long { length path.new ≡ length path.old }
{
    if has_beside(index as u64, last_index as u64) {
        path[at] = hasher.copied(beside(rows, level, index, last_index, last))?;
        return Ok(at + 1);
    }
    Ok(at)
}

// Raises the right edge one level, where a path still needs it.
fn raise_needed<D: DigestItem, R: Rows<D>, H: NodeHasher<D>>(
    hasher: &mut H,
    rows: &R,
    level: usize,
    index: usize,
    last_index: usize,
    last: Option<D>,
) -> Result<Option<D>, H::Refusal>
    requires last { index < last_index
        → HasLast (row_at (R.stored rows.now) level) last_index last }
    requires held { index < last_index
        → Holding (R.Holds rows.now) level (IsPeak (own_count last_index last)) }
    requires counted { H.counted hasher.old + 1 < 2 ^ 64 }
    ensures raised { IsStored (H.hash hasher.old) (row_at (R.stored rows.now))
        → RaisesNeeded H.why (H.hash hasher.old) (row_at (R.stored rows.now) level) index last_index
        (last_seen D.numbers (row_at (R.stored rows.now) level) last_index last)
        (last_seen D.numbers (row_at (R.stored rows.now) (level + 1)) (last_index / 2)) result }
    ensures has { IfOk result (λ up. index / 2 < last_index / 2
        → HasLast (row_at (R.stored rows.now) (level + 1)) (last_index / 2) up) }
    ensures own { IfOk result (λ up. index / 2 < last_index / 2
        → own_count (last_index / 2) up ≡ own_count last_index last / 2) }
    ensures same { H.hash hasher.new ≡ H.hash hasher.old }
    ensures counts { IfOk result (λ up. index / 2 < last_index / 2
        → Tallies (H.counted hasher.old) (H.counted hasher.new) last_index last up) }
    ensures none { last_index / 2 ≤ index / 2 → H.counted hasher.new ≡ H.counted hasher.old }
    ensures dropped { IfOk result (λ up. last_index / 2 ≤ index / 2
        → own_count (last_index / 2) up ≡ last_index / 2 + 1) }
{
    if index / 2 < last_index / 2 {
        raise(hasher, rows, level, last_index, last)
    } else {
        Ok(None)
    }
}

/// Writes the digests beside the way of an index of a row from this level up to the places of `path` from `at` on: as many as
/// there are. `last` is the right edge's digest where its place is incomplete. It hashes the pairs of the one subtree beside the
/// way that may be incomplete.
pub fn path_from<D: DigestItem, R: Rows<D>, H: NodeHasher<D>>(
    hasher: &mut H,
    rows: &R,
    mut level: usize,
    mut index: usize,
    mut last_index: usize,
    mut last: Option<D>,
    path: &mut [D],
    mut at: usize,
) -> Result<(), H::Refusal>
    requires inside { index ≤ last_index }
    requires within { last_index ≤ length (row_at (R.stored rows.now) level) }
    requires last { HasLast (row_at (R.stored rows.now) level) last_index last }
    requires peaks { Holding (R.Holds rows.now) level (IsPeak (own_count last_index last)) }
    requires beside { Holding (R.Holds rows.now) level
        (IsBeside index (own_count last_index last)) }
    requires fits { level + last_index < 2 ^ 64 }
    requires counted { H.counted hasher.old ≤ level }
    requires room { (k : ℕ) → last_index < 2 ^ k
        → at + used_below k index last_index ≡ length path.old }
    ensures path { let numbers = D.numbers in
        let rows = row_at (R.stored rows.now) in
        let hash = H.hash hasher.old in
        let last = last_seen numbers (rows level) last_index last in
        let sofar = map numbers (take at path.old) in
        IsStored hash rows → (empty : Digest) (k : ℕ) → last_index < 2 ^ k
        → let outcome = path_with hash empty k (rows level) index last_index last sofar in
        GivesBy H.why (λ _. map numbers path.new) outcome result }
    ensures counts { OnOk result ((k : ℕ) → last_index < 2 ^ k
        → H.counted hasher.new ≡ H.counted hasher.old + beside_left k index last_index last) }
{
    'levels: while last_index > 0 {
        at = put_beside(hasher, rows, level, index, last_index, &last, path, at)?;
        last = raise_needed(hasher, rows, level, index, last_index, last)?;
        index /= 2;
        last_index /= 2;
        level += 1;
    }
    Ok(())
}

/// Writes the path of an index of the first digests to `path`. It asks for complete subtrees beside the way and for those into
/// which the digests fall.
pub fn inclusion_path_of<D: DigestItem, R: Rows<D>, H: NodeHasher<D>>(
    hasher: &mut H,
    rows: &R,
    size: usize,
    index: usize,
    path: &mut [D],
) -> Result<(), H::Refusal>
    requires inside { index < size }
    requires within { size ≤ length (row_at (R.stored rows.now) 0) }
    requires peaks { Holding (R.Holds rows.now) 0 (IsPeak size) }
    requires beside { Holding (R.Holds rows.now) 0 (IsBeside index size) }
    requires none { H.counted hasher.old ≡ 0 }
    requires room { length path.old ≡ inclusion_length size index }
    ensures path { IsStored (H.hash hasher.old) (row_at (R.stored rows.now)) → (empty : Digest)
        → GivesBy H.why (λ _. map D.numbers path.new)
        (all_of (inclusion_path (H.hash hasher.old) empty index
        (take size (row_at (R.stored rows.now) 0)))) result }
    ensures counts { OnOk result (H.counted hasher.new ≡ beside_pairs index size) }
{
    path_from(hasher, rows, 0, index, size - 1, None, path, 0)
}

// Puts the digest at an index of a row first in a path, unless that is the row's first, and returns the next place.
fn put_seed<D: DigestItem, R: Rows<D>, H: NodeHasher<D>>(
    hasher: &H,
    rows: &R,
    level: usize,
    index: usize,
    path: &mut [D],
) -> Result<usize, H::Refusal>
    requires inside { index < length (row_at (R.stored rows.now) level) }
    requires held { R.Holds rows.now level index }
    requires room { 0 < index → 0 < length path.old }
    ensures put { GivesBy H.why (λ next. map D.numbers (take next path.new))
        (Ok (seed_digests (row_at (R.stored rows.now) level) index)) result }
    ensures next { IfOk result (λ next. next ≡ (if index == 0 then 0 else 1)) }
    ensures long { length path.new ≡ length path.old }
{
    if index == 0 {
        return Ok(0);
    }
    path[0] = hasher.copied(rows.at(level, index))?;
    Ok(1)
}

/// Writes the consistency proof of fewer of the first digests, one at least, to `path`. It asks as the path of the last of the
/// fewer ones does, and for the lowest of the subtrees into which these fall; it hashes as many pairs.
pub fn consistency_path_of<D: DigestItem, R: Rows<D>, H: NodeHasher<D>>(
    hasher: &mut H,
    rows: &R,
    old_size: usize,
    size: usize,
    path: &mut [D],
) -> Result<(), H::Refusal>
    requires some { 0 < old_size }
    requires inside { old_size < size }
    requires within { size ≤ length (row_at (R.stored rows.now) 0) }
    requires peaks { Holding (R.Holds rows.now) 0 (IsPeak size) }
    requires beside { Holding (R.Holds rows.now) 0 (IsBeside (old_size - 1) size) }
    requires lowest { Holding (R.Holds rows.now) 0 (IsLowest old_size) }
    requires none { H.counted hasher.old ≡ 0 }
    requires room { length path.old ≡ consistency_length old_size size }
    ensures path { IsStored (H.hash hasher.old) (row_at (R.stored rows.now)) → (empty : Digest)
        → GivesBy H.why (λ _. map D.numbers path.new)
        (all_of (consistency_path (H.hash hasher.old) empty old_size
        (take size (row_at (R.stored rows.now) 0)))) result }
    ensures counts { OnOk result (H.counted hasher.new ≡ beside_pairs (old_size - 1) size) }
{
    let mut level = 0;
    let mut index = old_size - 1;
    let mut last_index = size - 1;
    let mut last = None;
    'complete: while index % 2 == 1 {
        last = raise(hasher, rows, level, last_index, last)?;
        index /= 2;
        last_index /= 2;
        level += 1;
    }
    let at = put_seed(hasher, rows, level, index, path)?;
    path_from(hasher, rows, level, index, last_index, last, path, at)
}
