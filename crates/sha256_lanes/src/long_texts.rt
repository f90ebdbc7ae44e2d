//! Messages that make two blocks each with their padding.

ghost use Rattle.std.specs.Prelude.{◌≡◌, ◌++◌, ◌+◌, ◌≤◌, drop, length, map};
ghost use Rattle.std.specs.List.{All};
ghost use Rattle.sha2.specs.Sha256.{padded_message, word_at};
ghost use Rattle.sha256_lanes.specs.Lanes.{AreLong, AreWords};
ghost use Rattle.sha256_lanes.specs.Runs.{IsLong, headed_hash};

use crate::states::{long_states, put_states};

// A message and its padding (section 5.1.1): the message is a head and a tail.
#[inline(always)]
fn blocks_of(head: &[u8], tail: &[u8]) -> [u8; 128]
    requires low { 56 ≤ length head.now + length tail.now }
    requires high { length head.now + length tail.now ≤ 119 }
    ensures { result ≡ padded_message (head.now ++ tail.now) }
{
    let used = head.len() + tail.len();
    let mut blocks = [0u8; 128];
    blocks[..head.len()].copy_from_slice(head);
    blocks[head.len()..used].copy_from_slice(tail);
    blocks[used] = 0x80;
    blocks[120..].copy_from_slice(&(8 * used as u64).to_be_bytes());
    blocks
}

// The word that begins with byte `first` of two blocks.
#[inline(always)]
fn load_be(blocks: &[u8; 128], first: usize) -> u32
    requires { first + 4 ≤ 128 }
    ensures { result ≡ word_at blocks.now first }
{
    u32::from_be_bytes([
        blocks[first],
        blocks[first + 1],
        blocks[first + 2],
        blocks[first + 3],
    ])
}

// The words of the block that begins with byte `from`.
#[inline(always)]
fn block_words(blocks: &[u8; 128], from: usize) -> [u32; 16]
    requires { from ≤ 64 }
    ensures { AreWords (drop from blocks.now) result }
{
    let mut w = [0u32; 16];
    'load: for k in 0..16 {
        w[k] = load_be(blocks, from + 4 * k);
    }
    w
}

// The words of a message with its padding.
#[inline(always)]
fn text_words(head: &[u8], tail: &[u8]) -> ([u32; 16], [u32; 16])
    requires low { 56 ≤ length head.now + length tail.now }
    requires high { length head.now + length tail.now ≤ 119 }
    ensures { AreLong (head.now ++ tail.now) result.0 result.1 }
{
    let blocks = blocks_of(head, tail);
    let first = block_words(&blocks, 0);
    let second = block_words(&blocks, 64);
    (first, second)
}

/// Writes the digests of so many messages as there are lanes, each of 56 to 119 bytes behind the same head.
#[inline(always)]
pub fn put_long_texts<const LANES: usize>(head: &[u8], messages: &[&[u8]], digests: &mut [[u8; 32]])
    requires lanes { LANES ≤ 8 }
    requires messages { length messages.now ≡ LANES }
    requires digests { length digests.old ≡ LANES }
    requires long { All (IsLong head.now) messages.now }
    ensures { digests.new ≡ map (headed_hash head.now) messages.now }
{
    let mut first = [[0u32; 16]; LANES];
    let mut second = [[0u32; 16]; LANES];
    'load: for lane in 0..LANES {
        let (front, back) = text_words(head, messages[lane]);
        first[lane] = front;
        second[lane] = back;
    }
    let states = long_states(&first, &second);
    put_states(&states, digests);
}
