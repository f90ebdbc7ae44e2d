//! Growth: the digests to put behind the stored ones of a log for more leaves.

ghost use Rattle.std.specs.Prelude.{◌≡◌, ◌<◌, ◌≤◌, ◌+◌, ◌*◌, ◌^◌, ◌++◌, ◌∷◌, [], List, length, take, drop, get_or};
ghost use Rattle.ark_paths.specs.Pair.{Digest};
ghost use Rattle.merkle_log.specs.Asked.{Holding, IsPeak};
ghost use Rattle.merkle_log.specs.Kept.{Keeps, stored_front};
ghost use Rattle.merkle_log.specs.Stored.{position, stored_count};
ghost use Rattle.merkle_log.specs.Walk.{index_up};

mod by_hasher;
mod levels;
mod parts;

use crate::kept::Kept;
pub use crate::kept::growth::by_hasher::append_by;
use crate::kept::growth::levels::grow;
pub use crate::kept::growth::parts::{can_stand_behind, join_kept};
use crate::places::{position_of, stored_count};
use crate::rows::Rows;

// Writes a digest to a place of a buffer.
fn put(more: &mut [[u8; 32]], at: usize, digest: &[u8; 32])
    requires { at < length more.old }
    ensures front { take (at + 1) more.new ≡ take at more.old ++ digest.now ∷ [] }
    ensures behind { drop (at + 1) more.new ≡ drop (at + 1) more.old }
    ensures same { length more.new ≡ length more.old }
{
    more[at] = *digest;
}

// Returns the digest of a complete place: one that the rows have, or one of those that were made for more leaves.
fn digest_among<'a, R: Rows<[u8; 32]>>(
    rows: &'a R,
    size: usize,
    more: &'a [[u8; 32]],
    level: usize,
    place: usize,
) -> &'a [u8; 32]
    requires size { (R.stored rows.now).size ≡ size }
    requires whole { stored_count size ≤ length (R.stored rows.now).digests }
    requires fits { size < 2 ^ 63 }
    requires level { level < 64 }
    requires below { (place + 1) * 2 ^ level < 2 ^ 64 }
    requires inside { position level place < stored_count size + length more.now }
    requires near { position level place < 2 ^ 64 }
    requires held { place < index_up level size → R.Holds rows.now level place }
    ensures { result.now ≡ get_or (stored_front (R.stored rows.now) ++ more.now)
        (position level place) [] }
{
    if ((place + 1) << level) <= size {
        rows.at(level, place)
    } else {
        &more[position_of(level, place) - stored_count(size)]
    }
}

/// Writes to the front of `more` the digests that the rows of a log of this size lack for more leaves' digests; returns how many.
/// Behind them `more` stays. It asks for the complete subtrees into which the log's leaves fall.
pub fn append_over<R: Rows<[u8; 32]>>(
    rows: &R,
    size: usize,
    digests: &[[u8; 32]],
    more: &mut [[u8; 32]],
) -> usize
    requires size { (R.stored rows.now).size ≡ size }
    requires stored { stored_count size ≤ length (R.stored rows.now).digests }
    requires held { Holding (R.Holds rows.now) 0 (IsPeak size) }
    requires fits { size + length digests.now < 2 ^ 63 }
    requires room { stored_count (size + length digests.now) ≤ stored_count size + length more.old }
    ensures count { stored_count size + result ≡ stored_count (size + length digests.now) }

    // Those that are stored and those that are written are the stored digests of the longer list.
    ensures grows { (leaves : List Digest) → length leaves ≡ size
        → Keeps leaves (R.stored rows.now).digests
        → Keeps (leaves ++ digests.now) (stored_front (R.stored rows.now) ++ take result more.new) }
    ensures behind { drop result more.new ≡ drop result more.old }
    ensures same { length more.new ≡ length more.old }
{
    let made = stored_count(size + digests.len()) - stored_count(size);
    grow(rows, size, digests, &mut more[..made]);
    made
}

/// Writes to the front of `more` the digests to put behind the stored ones of a log for more leaves' digests; returns how
/// many.
///
/// Behind them `more` stays. Where no stored digests of a list are kept, the digests are some.
pub fn append_kept(kept: &Kept, digests: &[[u8; 32]], more: &mut [[u8; 32]]) -> usize
    requires fits { kept.now.size + length digests.now < 2 ^ 63 }
    requires room { stored_count (kept.now.size + length digests.now) ≤ stored_count kept.now.size +
        length more.old }
    ensures count { stored_count kept.now.size + result ≡ stored_count
        (kept.now.size + length digests.now) }

    // Those that are stored and those that are written are the stored digests of the longer list.
    ensures grows { (leaves : List Digest) → length leaves ≡ kept.now.size
        → Keeps leaves kept.now.digests
        → Keeps (leaves ++ digests.now) (take (stored_count kept.now.size) kept.now.digests ++ take
        result more.new) }
    ensures behind { drop result more.new ≡ drop result more.old }
    ensures same { length more.new ≡ length more.old }
{
    append_over(kept, kept.size(), digests, more)
}
