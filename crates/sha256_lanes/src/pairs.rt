//! Pairs of digests: messages of 64 bytes, whose second block is padding alone.

ghost use Rattle.std.specs.Prelude.{◌≡◌, None, ◌++◌, ◌*◌, ◌<◌, ◌≤◌, length, map};
ghost use Rattle.sha2.specs.Sha256.{word_at};
ghost use Rattle.sha256_lanes.specs.Lanes.{AreWhole};
ghost use Rattle.sha256_lanes.specs.Runs.{pair_behind};

use crate::states::{put_states, whole_states};

// Word `k` of a digest.
#[inline(always)]
fn load_be(digest: &[u8; 32], k: usize) -> u32
    requires { k < 8 }
    ensures { result ≡ word_at digest.now (4 * k) }
{
    u32::from_be_bytes([
        digest[4 * k],
        digest[4 * k + 1],
        digest[4 * k + 2],
        digest[4 * k + 3],
    ])
}

// The words of the block that a pair makes.
#[inline(always)]
fn pair_words(left: &[u8; 32], right: &[u8; 32]) -> [u32; 16]
    ensures { AreWhole (left.now ++ right.now) result }
{
    [
        load_be(left, 0),
        load_be(left, 1),
        load_be(left, 2),
        load_be(left, 3),
        load_be(left, 4),
        load_be(left, 5),
        load_be(left, 6),
        load_be(left, 7),
        load_be(right, 0),
        load_be(right, 1),
        load_be(right, 2),
        load_be(right, 3),
        load_be(right, 4),
        load_be(right, 5),
        load_be(right, 6),
        load_be(right, 7),
    ]
}

/// Writes the digests of so many pairs as there are lanes, each of left followed by right.
pub fn put_plain_pairs<const LANES: usize>(
    couples: &[(&[u8; 32], &[u8; 32])],
    digests: &mut [[u8; 32]],
)
    requires lanes { LANES ≤ 8 }
    requires couples { length couples.now ≡ LANES }
    requires digests { length digests.old ≡ LANES }
    ensures { digests.new ≡ map (pair_behind None) couples.now }
{
    let mut words = [[0u32; 16]; LANES];
    'load: for lane in 0..LANES {
        let (left, right) = couples[lane];
        let block = pair_words(left, right);
        words[lane] = block;
    }
    let states = whole_states(&words);
    put_states(&states, digests);
}
