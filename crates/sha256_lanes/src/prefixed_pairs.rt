//! Pairs of digests behind a byte: messages of 65 bytes, whose second block is one byte and padding.

ghost use Rattle.std.specs.Prelude.{◌≡◌, Some, ◌∷◌, ◌++◌, ◌-◌, ◌*◌, ◌<◌, ◌≤◌, length, map, slice_index};
ghost use Rattle.sha2.specs.Sha256.{padding, word_at};
ghost use Rattle.sha256_lanes.specs.Lanes.{AreLong, AreWords};
ghost use Rattle.sha256_lanes.specs.Runs.{pair_behind};

use crate::states::{long_states, put_states};

// The word of a byte and the first three of a digest.
#[inline(always)]
fn load_seam(before: u8, digest: &[u8; 32]) -> u32
    ensures { result ≡ word_at (before ∷ digest.now) 0 }
{
    u32::from_be_bytes([before, digest[0], digest[1], digest[2]])
}

// Word `k` of a byte and a digest.
#[inline(always)]
fn load_be(digest: &[u8; 32], k: usize) -> u32
    requires low { 1 ≤ k }
    requires high { k < 8 }
    ensures { result ≡ word_at digest.now (4 * k - 1) }
{
    u32::from_be_bytes([
        digest[4 * k - 1],
        digest[4 * k],
        digest[4 * k + 1],
        digest[4 * k + 2],
    ])
}

// The words of the first block.
#[inline(always)]
fn first_words(prefix: u8, left: &[u8; 32], right: &[u8; 32]) -> [u32; 16]
    ensures { AreWords (prefix ∷ left.now ++ right.now) result }
{
    [
        load_seam(prefix, left),
        load_be(left, 1),
        load_be(left, 2),
        load_be(left, 3),
        load_be(left, 4),
        load_be(left, 5),
        load_be(left, 6),
        load_be(left, 7),
        load_seam(left[31], right),
        load_be(right, 1),
        load_be(right, 2),
        load_be(right, 3),
        load_be(right, 4),
        load_be(right, 5),
        load_be(right, 6),
        load_be(right, 7),
    ]
}

// The first word of a second block: the last byte of a message, and the bit 1 that ends it.
#[inline(always)]
fn load_last(digest: &[u8; 32]) -> u32
    ensures { result ≡ word_at (slice_index digest.now 31 ∷ padding 65) 0 }
{
    u32::from_be_bytes([digest[31], 0x80, 0, 0])
}

// The words of the second block: behind the first word, zeros and the length in bits.
#[inline(always)]
fn second_words(right: &[u8; 32]) -> [u32; 16]
    ensures { AreWords (slice_index right.now 31 ∷ padding 65) result }
{
    let mut w = [0u32; 16];
    w[0] = load_last(right);
    w[15] = 8 * 65;
    w
}

// The words of both blocks.
#[inline(always)]
fn prefixed_words(prefix: u8, left: &[u8; 32], right: &[u8; 32]) -> ([u32; 16], [u32; 16])
    ensures { AreLong (prefix ∷ left.now ++ right.now) result.0 result.1 }
{
    (first_words(prefix, left, right), second_words(right))
}

/// Writes the digests of so many pairs as there are lanes, each of the byte `prefix`, left and right.
pub fn put_prefixed_pairs<const LANES: usize>(
    prefix: u8,
    couples: &[(&[u8; 32], &[u8; 32])],
    digests: &mut [[u8; 32]],
)
    requires lanes { LANES ≤ 8 }
    requires couples { length couples.now ≡ LANES }
    requires digests { length digests.old ≡ LANES }
    ensures { digests.new ≡ map (pair_behind (Some prefix)) couples.now }
{
    let mut first = [[0u32; 16]; LANES];
    let mut second = [[0u32; 16]; LANES];
    'load: for lane in 0..LANES {
        let (left, right) = couples[lane];
        let (front, back) = prefixed_words(prefix, left, right);
        first[lane] = front;
        second[lane] = back;
    }
    let states = long_states(&first, &second);
    put_states(&states, digests);
}
