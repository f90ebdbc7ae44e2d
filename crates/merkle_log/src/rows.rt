//! A log's rows, wherever they lie, and the root that is read of them.
//!
//! A row has a last digest at the right edge: its own where the place is complete, and else one that was hashed.

ghost use Rattle.std.specs.Prelude.{◌≡◌, ◌<◌, ◌≤◌, ◌+◌, ◌/◌, ◌^◌, ℕ, [], length, take, get_or, IfOk, OnOk};
ghost use Rattle.ark_paths.specs.Pair.{Digest};
ghost use Rattle.merkle_log.specs.Asked.{Holding, IsPeak, own_count};
ghost use Rattle.merkle_log.specs.Edge.{last_seen, HasLast, last_raised, Tallies, root_pairs};
ghost use Rattle.merkle_log.specs.Given.{GivesBy};
ghost use Rattle.merkle_log.specs.Log.{merkle_tree_hash};
ghost use Rattle.merkle_log.specs.Stored.{row_at, IsStored, StoredValue};

use crate::nodes::NodeHasher;
use ark_base::serialize::DigestItem;

/// The digests of a log's complete places, wherever they lie: in a list, in a caller's memory, or some of them read from a
/// file.
pub trait Rows<D: DigestItem> {
    // The log's list, whole also where only some of its digests are held.
    ghost stored: { Self → StoredValue };

    // The digest of the place, some levels up, is held.
    ghost Holds: { Self → ℕ → ℕ → Type 0 };

    /// Returns the digest of a complete place.
    fn at(&self, level: usize, place: usize) -> &D
        requires complete { place < length (row_at (stored self.now) level) }
        requires held { Holds self.now level place }
        ensures { D.numbers result.now ≡ get_or (row_at (stored self.now) level) place [] };
}

/// Returns the last digest of a row.
pub fn last_of<'a, D: DigestItem, R: Rows<D>>(
    rows: &'a R,
    level: usize,
    last_index: usize,
    last: &'a Option<D>,
) -> &'a D
    requires last { HasLast (row_at (R.stored rows.now) level) last_index last.now }
    requires held { last_index < own_count last_index last.now → R.Holds rows.now level last_index }
    ensures { D.numbers result.now ≡ last_seen D.numbers (row_at (R.stored rows.now) level)
        last_index last.now }
{
    match last {
        None => rows.at(level, last_index),
        Some(digest) => digest,
    }
}

/// Returns the right edge's digest, one level up: it is hashed with its left neighbour where its index is odd. `None` says that
/// the place above is complete, and its digest stands in its row.
pub fn raise<D: DigestItem, R: Rows<D>, H: NodeHasher<D>>(
    hasher: &mut H,
    rows: &R,
    level: usize,
    last_index: usize,
    last: Option<D>,
) -> Result<Option<D>, H::Refusal>
    requires last { HasLast (row_at (R.stored rows.now) level) last_index last }
    requires held { Holding (R.Holds rows.now) level (IsPeak (own_count last_index last)) }
    requires counted { H.counted hasher.old + 1 < 2 ^ 64 }
    ensures raised { IsStored (H.hash hasher.old) (row_at (R.stored rows.now))
        → GivesBy H.why (last_seen D.numbers (row_at (R.stored rows.now) (level + 1))
        (last_index / 2)) (last_raised (H.hash hasher.old) (row_at (R.stored rows.now) level)
        last_index (last_seen D.numbers (row_at (R.stored rows.now) level) last_index last))
        result }
    ensures has { IfOk result (HasLast (row_at (R.stored rows.now) (level + 1)) (last_index / 2)) }
    ensures own { IfOk result (λ up. own_count (last_index / 2) up
        ≡ own_count last_index last / 2) }
    ensures same { H.hash hasher.new ≡ H.hash hasher.old }
    ensures counts { IfOk result (Tallies (H.counted hasher.old) (H.counted hasher.new) last_index
        last) }
{
    match last {
        None => {
            if last_index % 2 == 1 {
                Ok(None)
            } else {
                Ok(Some(hasher.copied(rows.at(level, last_index))?))
            }
        }
        Some(digest) => {
            if last_index % 2 == 1 {
                Ok(Some(hasher.node(rows.at(level, last_index - 1), &digest)?))
            } else {
                Ok(Some(digest))
            }
        }
    }
}

/// Returns the root of the first digests, of which there is one at least. It asks for the complete subtrees into which they
/// fall, and hashes a pair less than those are.
pub fn root_of<D: DigestItem, R: Rows<D>, H: NodeHasher<D>>(
    hasher: &mut H,
    rows: &R,
    size: usize,
) -> Result<D, H::Refusal>
    requires some { 0 < size }
    requires inside { size ≤ length (row_at (R.stored rows.now) 0) }
    requires held { Holding (R.Holds rows.now) 0 (IsPeak size) }
    requires none { H.counted hasher.old ≡ 0 }
    ensures root { IsStored (H.hash hasher.old) (row_at (R.stored rows.now)) → (empty : Digest)
        → GivesBy H.why D.numbers (merkle_tree_hash (H.hash hasher.old) empty
        (take size (row_at (R.stored rows.now) 0))) result }
    ensures counts { OnOk result (H.counted hasher.new ≡ root_pairs size) }
{
    let mut last_index = size - 1;
    let mut last = None;
    let mut level = 0;
    'levels: while last_index > 0 {
        last = raise(hasher, rows, level, last_index, last)?;
        last_index /= 2;
        level += 1;
    }
    hasher.copied(last_of(rows, level, last_index, &last))
}
