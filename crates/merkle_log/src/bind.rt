//! What a path shows of a leaf to whoever holds the log.

ghost use Rattle.std.specs.Prelude.{◌≡◌, ◌<◌, ◌≤◌, ◌+◌, ◌-◌, ◌%◌, ◌^◌, ℕ, [], true, length, map, get_or, take, IfOk, IfErr, Some, None};
ghost use Rattle.ark_base.specs.declared.error.Error.TheVariants.{OutOfMemory};
ghost use Rattle.ark_base.specs.Outcome.{AnswersBy};
ghost use Rattle.ark_paths.specs.Pair.{Digest};
ghost use Rattle.merkle_log.specs.Binding.{edge_of, found_at, index_beside, is_accepted, is_other_pair, IsHighest, Reaches, shown_by, verdict_in};
ghost use Rattle.merkle_log.specs.declared.bind.LogBinding.TheVariants.{Stands, Collides};
ghost use Rattle.merkle_log.specs.Edge.{last_seen, HasLast};
ghost use Rattle.merkle_log.specs.Stored.{row_at, IsStored};
ghost use Rattle.merkle_log.specs.Walk.{has_beside};

use crate::digests::copy_of;
use crate::inclusion::verify_inclusion_digest;
use crate::refusing::Refusing;
use crate::rows::{Rows, last_of, raise, root_of};
use crate::stored::Stored;
use crate::way::{has_beside, hash_beside};
use ark_base::error::Error;
use ark_base::serialize::DigestItem;
use ark_paths::digests::are_same;
use ark_paths::hasher::TreeHasher;
use std::alloc::Global;

/// What a path shows of a leaf of a log.
#[derive(Debug, PartialEq, Eq, Clone, Copy)]
pub enum LogBinding {
    /// The path does not lead to the root.
    Rejected,
    /// The leaf's digest stands at the index, and the pairs of the path and of the log collide at no level.
    Stands,
    /// At this level, 0 for the leaves, the path's pair and the log's own differ and hash alike; at no level above they do.
    Collides { level: usize },
}

// Returns the index beside an index.
fn beside_of(index: usize) -> usize
    requires { index % 2 ≡ 0 → index + 1 < 2 ^ 64 }
    ensures { result ≡ index_beside index }
{
    if index % 2 == 1 { index - 1 } else { index + 1 }
}

// Returns a digest of a row with a last one.
fn digest_of<'a, D: DigestItem>(
    rows: &'a Stored<D>,
    level: usize,
    index: usize,
    last_index: usize,
    last: &'a Option<D>,
) -> &'a D
    requires inside { index ≤ last_index }
    requires within { last_index ≤ length (row_at rows.now level) }
    requires last { HasLast (row_at rows.now level) last_index last.now }
    ensures { D.numbers result.now ≡ get_or (edge_of (row_at rows.now level) last_index
        (last_seen D.numbers (row_at rows.now level) last_index last.now)) index [] }
{
    if index < last_index {
        rows.at(level, index)
    } else {
        last_of(rows, level, last_index, last)
    }
}

// Returns whether a digest and the path's next one, where one is needed, are others than the row's.
fn is_other<D: DigestItem>(
    rows: &Stored<D>,
    level: usize,
    index: usize,
    last_index: usize,
    last: &Option<D>,
    own: &D,
    path: &[D],
    used: usize,
) -> bool
    requires inside { index ≤ last_index }
    requires within { last_index ≤ length (row_at rows.now level) }
    requires last { HasLast (row_at rows.now level) last_index last.now }
    requires used { has_beside index last_index ≡ true → used < length path.now }
    ensures { result ≡ is_other_pair (edge_of (row_at rows.now level) last_index
        (last_seen D.numbers (row_at rows.now level) last_index last.now)) index last_index
        (D.numbers own.now) (get_or (map D.numbers path.now) used []) }
{
    if !has_beside(index as u64, last_index as u64) {
        return false;
    }
    let is_own = are_same(own, digest_of(rows, level, index, last_index, last));
    let beside = digest_of(rows, level, beside_of(index), last_index, last);
    !(is_own && are_same(&path[used], beside))
}

// Returns a level in the place of one below it, where pairs differ there.
fn found_here(is_other: bool, level: usize, below: Option<usize>) -> Option<usize>
    ensures { result ≡ found_at is_other level below }
{
    if is_other { Some(level) } else { below }
}

// Returns the highest level at which the path's pair is another one than that of the rows: as the path leads to their root,
// both hash alike there. The only error is `OutOfMemory`.
fn highest_other<D: DigestItem, T: TreeHasher<D, D>>(
    alloc: Global,
    hasher: &T,
    rows: &Stored<D>,
    size: usize,
    start: usize,
    digest: &D,
    path: &[D],
) -> Result<Option<usize>, Error>
    requires stored { IsStored (T.hashes hasher.now).pair.upper (row_at rows.now) }
    requires inside { start < size }
    requires within { size ≤ length (row_at rows.now 0) }
    requires reaches { Reaches (T.hashes hasher.now).pair.upper (take size (row_at rows.now 0))
        size start (D.numbers digest.now) (map D.numbers path.now) }
    ensures highest { IfOk result (λ found. (empty : Digest)
        → IsHighest (T.hashes hasher.now).pair.upper empty (take size (row_at rows.now 0)) start
        (size - 1) (D.numbers digest.now) (map D.numbers path.now) found) }
    ensures refused { IfErr result (λ error. error ≡ OutOfMemory) }
{
    let mut index = start;
    let mut last_index = size - 1;
    let mut last = None;
    let mut level = 0;
    let mut own = copy_of(alloc, digest)?;
    let mut used = 0;
    let mut found = None;
    'levels: while last_index > 0 {
        let differs = is_other(rows, level, index, last_index, &last, &own, path, used);
        found = found_here(differs, level, found);
        last = raise(
            &mut Refusing::new(alloc, hasher),
            rows,
            level,
            last_index,
            last,
        )?;
        if has_beside(index as u64, last_index as u64) {
            own = hash_beside(alloc, hasher, index % 2 == 1, &own, &path[used])?;
            used += 1;
        }
        index /= 2;
        last_index /= 2;
        level += 1;
    }
    Ok(found)
}

// Returns what a path shows that is accepted.
fn binding_by(highest: Option<usize>) -> LogBinding
    ensures { result ≡ shown_by highest }
{
    match highest {
        None => LogBinding::Stands,
        Some(level) => LogBinding::Collides { level },
    }
}

/// Returns what a path shows of a digest at an index of the first digests.
///
/// Errors: those of `Log::bind_digest`.
pub fn log_binding_of<D: DigestItem, T: TreeHasher<D, D>>(
    alloc: Global,
    hasher: &T,
    rows: &Stored<D>,
    size: usize,
    index: usize,
    digest: &D,
    path: &[D],
) -> Result<LogBinding, Error>
    requires stored { IsStored (T.hashes hasher.now).pair.upper (row_at rows.now) }
    requires within { size ≤ length (row_at rows.now 0) }
    ensures verdict { (empty : Digest)
        → AnswersBy is_accepted (verdict_in (T.hashes hasher.now).pair.upper empty
        (row_at rows.now 0) size index (D.numbers digest.now) (map D.numbers path.now)) result }
    ensures stands { IfOk result (λ binding. binding ≡ Stands → (empty : Digest)
        → IsHighest (T.hashes hasher.now).pair.upper empty (take size (row_at rows.now 0)) index
        (size - 1) (D.numbers digest.now) (map D.numbers path.now) None) }
    ensures collides { IfOk result (λ binding. (level : ℕ) → binding ≡ Collides level
        → (empty : Digest) → IsHighest (T.hashes hasher.now).pair.upper empty
        (take size (row_at rows.now 0)) index (size - 1) (D.numbers digest.now)
        (map D.numbers path.now) (Some level)) }
{
    if index >= size {
        return Ok(LogBinding::Rejected);
    }
    let root = root_of(&mut Refusing::new(alloc, hasher), rows, size)?;
    if !verify_inclusion_digest(
        alloc,
        hasher,
        &root,
        size as u64,
        index as u64,
        digest,
        path,
    )? {
        return Ok(LogBinding::Rejected);
    }
    let highest = highest_other(alloc, hasher, rows, size, index, digest, path)?;
    Ok(binding_by(highest))
}
