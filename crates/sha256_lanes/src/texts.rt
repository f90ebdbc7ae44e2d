//! Messages that make one block each with their padding.

ghost use Rattle.std.specs.Prelude.{◌≡◌, ◌++◌, ◌+◌, ◌*◌, ◌<◌, ◌≤◌, length, map};
ghost use Rattle.std.specs.List.{All};
ghost use Rattle.sha2.specs.Sha256.{padded_message, word_at};
ghost use Rattle.sha256_lanes.specs.Lanes.{AreShort};
ghost use Rattle.sha256_lanes.specs.Runs.{headed_hash, IsShort};

use crate::states::{put_states, short_states};

// A message and its padding: the message is a head and a tail.
#[inline(always)]
fn block_of(head: &[u8], tail: &[u8]) -> [u8; 64]
    requires { length head.now + length tail.now ≤ 55 }
    ensures { result ≡ padded_message (head.now ++ tail.now) }
{
    let used = head.len() + tail.len();
    let mut block = [0u8; 64];
    block[..head.len()].copy_from_slice(head);
    block[head.len()..used].copy_from_slice(tail);
    block[used] = 0x80;
    block[56..].copy_from_slice(&(8 * used as u64).to_be_bytes());
    block
}

// Word `k` of a block.
#[inline(always)]
fn load_be(block: &[u8; 64], k: usize) -> u32
    requires { k < 16 }
    ensures { result ≡ word_at block.now (4 * k) }
{
    u32::from_be_bytes([
        block[4 * k],
        block[4 * k + 1],
        block[4 * k + 2],
        block[4 * k + 3],
    ])
}

// The words of a message with its padding.
#[inline(always)]
fn text_words(head: &[u8], tail: &[u8]) -> [u32; 16]
    requires { length head.now + length tail.now ≤ 55 }
    ensures { AreShort (head.now ++ tail.now) result }
{
    let block = block_of(head, tail);
    let mut w = [0u32; 16];
    'load: for k in 0..16 {
        w[k] = load_be(&block, k);
    }
    w
}

/// Writes the digests of so many messages as there are lanes, each of at most 55 bytes behind the same head.
#[inline(always)]
pub fn put_texts<const LANES: usize>(head: &[u8], messages: &[&[u8]], digests: &mut [[u8; 32]])
    requires lanes { LANES ≤ 8 }
    requires messages { length messages.now ≡ LANES }
    requires digests { length digests.old ≡ LANES }
    requires short { All (IsShort head.now) messages.now }
    ensures { digests.new ≡ map (headed_hash head.now) messages.now }
{
    let mut words = [[0u32; 16]; LANES];
    'load: for lane in 0..LANES {
        let block = text_words(head, messages[lane]);
        words[lane] = block;
    }
    let states = short_states(&words);
    put_states(&states, digests);
}
