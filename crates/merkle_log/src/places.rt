//! Where the digest of a place stands in a log's list.

ghost use Rattle.std.specs.Prelude.{◌≡◌, ◌<◌, ◌+◌, ◌*◌, ◌^◌, [], length, map, get_or};
ghost use Rattle.merkle_log.specs.Stored.{position, stored_count};

use ark_base::serialize::DigestItem;

/// Returns how many digests the list of so many leaves has.
pub fn stored_count(size: usize) -> usize
    requires { size < 2 ^ 63 }
    ensures { result ≡ stored_count size }
{
    size - size.count_ones() as usize + size
}

/// Returns where the digest of a place stands.
pub fn position_of(level: usize, place: usize) -> usize
    requires level { level < 64 }
    requires below { (place + 1) * 2 ^ level < 2 ^ 64 }
    requires fits { position level place < 2 ^ 64 }
    ensures { result ≡ position level place }
{
    let last = ((place + 1) << level) - 1;
    last - last.count_ones() as usize + last + level
}

/// Returns the digest of a place.
pub fn digest_at<D: DigestItem>(digests: &[D], level: usize, place: usize) -> &D
    requires level { level < 64 }
    requires below { (place + 1) * 2 ^ level < 2 ^ 64 }
    requires inside { position level place < length digests.now }
    ensures { D.numbers result.now ≡ get_or (map D.numbers digests.now) (position level place) [] }
{
    &digests[position_of(level, place)]
}
