//! A part of a log, whose entries were hashed apart, that is put behind the others.

ghost use Rattle.std.specs.Prelude.{◌≡◌, ◌<◌, ◌≤◌, ◌+◌, ◌^◌, ◌++◌, List, true, length, take, drop};
ghost use Rattle.ark_paths.specs.Pair.{Digest};
ghost use Rattle.merkle_log.specs.Asked.{Holding, IsPeak};
ghost use Rattle.merkle_log.specs.Kept.{Keeps, stored_front};
ghost use Rattle.merkle_log.specs.Levels.{covering_level, joins_behind};
ghost use Rattle.merkle_log.specs.Stored.{stored_count};

use crate::kept::Kept;
use crate::kept::growth::levels::raise_from;
use crate::places::stored_count;
use crate::rows::Rows;

// Returns the level of the smallest complete subtree that has at least so many leaves.
fn level_covering(count: usize) -> usize
    requires { count < 2 ^ 63 }
    ensures level { result ≡ covering_level count }
    ensures fits { result < 64 }
    ensures covers { count ≤ 2 ^ result }
{
    if count == 0 {
        return 0;
    }
    (2 * count - 1).ilog2() as usize
}

/// Returns whether a part of so many entries, hashed apart, can be put behind so many others: a power of two that is at least
/// the part's count divides that of the others.
pub fn can_stand_behind(size: usize, count: usize) -> bool
    requires { count < 2 ^ 63 }
    ensures { result ≡ joins_behind size count }
{
    size % (1 << level_covering(count)) == 0
}

// Writes digests to the front of others.
fn put_front(more: &mut [[u8; 32]], digests: &[[u8; 32]])
    requires { length digests.now ≤ length more.old }
    ensures { more.new ≡ digests.now ++ drop (length digests.now) more.old }
{
    more[..digests.len()].copy_from_slice(digests);
}

// Fills `more` with the stored digests of a part, and behind them the hashes above it that its last entry completes.
fn fill_with_part<R: Rows<[u8; 32]>>(rows: &R, size: usize, part: &Kept, more: &mut [[u8; 32]])
    requires size { (R.stored rows.now).size ≡ size }
    requires stored { stored_count size ≤ length (R.stored rows.now).digests }
    requires held { Holding (R.Holds rows.now) 0 (IsPeak size) }
    requires fits { size + part.now.size < 2 ^ 63 }
    requires aligned { joins_behind size part.now.size ≡ true }
    requires room { stored_count (size + part.now.size) ≡ stored_count size + length more.old }
    ensures grows { (leaves entries : List Digest) → length leaves ≡ size
        → length entries ≡ part.now.size
        → Keeps leaves (R.stored rows.now).digests → Keeps entries part.now.digests
        → Keeps (leaves ++ entries) (stored_front (R.stored rows.now) ++ more.new) }
    ensures same { length more.new ≡ length more.old }
{
    put_front(more, part.stored());
    let level = level_covering(part.size());
    raise_from(rows, size, size + part.size(), level, more);
}

/// Writes to the front of `more` the digests to put behind the stored ones of a log for the entries of a part, as `append_kept`
/// would; returns how many. It copies the part's stored digests, and hashes only above the part: at most one pair a level.
///
/// Behind them `more` stays. Where no stored digests of a list are kept, or of the part none, the digests are some.
pub fn join_kept(kept: &Kept, part: &Kept, more: &mut [[u8; 32]]) -> usize
    requires fits { kept.now.size + part.now.size < 2 ^ 63 }
    requires aligned { joins_behind kept.now.size part.now.size ≡ true }
    requires room { stored_count (kept.now.size + part.now.size) ≤ stored_count kept.now.size +
        length more.old }
    ensures count { stored_count kept.now.size + result ≡ stored_count
        (kept.now.size + part.now.size) }

    // Those that are stored and those that are written are the stored digests of both lists, one behind the other.
    ensures grows { (leaves entries : List Digest) → length leaves ≡ kept.now.size
        → length entries ≡ part.now.size
        → Keeps leaves kept.now.digests → Keeps entries part.now.digests
        → Keeps (leaves ++ entries) (take (stored_count kept.now.size) kept.now.digests ++ take
        result more.new) }
    ensures behind { drop result more.new ≡ drop result more.old }
    ensures same { length more.new ≡ length more.old }
{
    let size = kept.size();
    let made = stored_count(size + part.size()) - stored_count(size);
    fill_with_part(kept, size, part, &mut more[..made]);
    made
}
