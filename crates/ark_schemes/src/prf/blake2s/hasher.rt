//! A text that comes piece by piece, over a buffer of one block (RFC 7693, section 3.3).

ghost use Rattle.std.specs.Prelude.{◌≡◌, List, ℕ, ◌+◌, ◌-◌, ◌*◌, ◌/◌, ◌%◌, ◌^◌, ◌<◌, ◌≤◌, [], ◌++◌, length, drop};
ghost use Rattle.ark_schemes.specs.Blake2s.{block_count, full_block, blocks, first_state, state_after, blake2s_with};
ghost use Rattle.ark_schemes.specs.Hashers.{hasher_of, bytes_before_last};

use crate::prf::blake2s::compress::compress;
use crate::prf::blake2s::words::{first_state, state_bytes, words_of};
use ark_base::serialize::rest_of;

const BLOCK_LEN: usize = 64;

/// What is kept of a text that has come so far.
#[derive(Drop)]
#[repr(C)]
pub struct Hasher {
    // The state after all blocks but the last.
    state: [u32; 8],
    // The last block, which is not compressed before a further byte comes: its bytes, and zeros behind them.
    block: [u8; 64],
    // The count of all bytes, modulo 2^64.
    len: u64,
}

impl Hasher {
    /// Returns the hasher of no bytes.
    pub fn new(salt: &[u8; 8], personalization: &[u8; 8]) -> Hasher
        ensures { result ≡ hasher_of salt.now personalization.now [] }
    {
        Hasher {
            state: first_state(salt, personalization),
            block: [0; 64],
            len: 0,
        }
    }

    /// Appends bytes to the text.
    pub fn update(&mut self, input: &[u8])
        ensures { (salt personalization text : List ℕ) → length text + length input.now < 2 ^ 64
            → self.old ≡ hasher_of salt personalization text
            → self.new ≡ hasher_of salt personalization (text ++ input.now) }
    {
        let used = self.used();
        if input.len() <= BLOCK_LEN - used {
            self.append(used, input);
        } else {
            let start = self.complete(used, input);
            let rest = rest_of(input, start);
            let before = self.len.wrapping_add(start as u64);
            let taken = compress_front(&mut self.state, before, rest);
            refill(&mut self.block, rest_of(rest, taken));
            self.len = self.len.wrapping_add(input.len() as u64);
        }
    }

    /// Returns the digest of the text.
    pub fn finalize(self) -> [u8; 32]
        ensures { (salt personalization text : List ℕ)
            → self ≡ hasher_of salt personalization text
            → result ≡ blake2s_with salt personalization text }
    {
        let mut state = self.state;
        compress(&mut state, words_of(&self.block), self.len, true);
        state_bytes(state)
    }

    // How many bytes of the text stand in the block: none only where the text has none.
    fn used(&self) -> usize
        ensures count { result ≡ self.now.len - bytes_before_last self.now.len }
        ensures most { result ≤ 64 }
    {
        (self.len - self.len.saturating_sub(1) / 64 * 64) as usize
    }

    // Appends bytes that the block has room for.
    fn append(&mut self, used: usize, input: &[u8])
        requires { used + length input.now ≤ 64 }
        ensures { (salt personalization text : List ℕ) → length text + length input.now < 2 ^ 64
            → used ≡ length text - bytes_before_last (length text)
            → self.old ≡ hasher_of salt personalization text
            → self.new ≡ hasher_of salt personalization (text ++ input.now) }
    {
        self.block[used..used + input.len()].copy_from_slice(input);
        self.len = self.len.wrapping_add(input.len() as u64);
    }

    // Fills the block, where it has any bytes, and compresses it: a further byte follows. Answers how many bytes that took.
    fn complete(&mut self, used: usize, input: &[u8]) -> usize
        requires used { used ≤ 64 }
        requires more { 64 < used + length input.now }
        ensures start { result ≡ (64 - used) % 64 }
        ensures len { self.new.len ≡ self.old.len }
        ensures state { (salt personalization text : List ℕ)
            → length text + length input.now < 2 ^ 64
            → used ≡ length text - bytes_before_last (length text)
            → self.old ≡ hasher_of salt personalization text
            → self.new.state ≡ state_after (first_state salt personalization)
            (blocks (text ++ input.now)) ((length text + (64 - used) % 64) / 64) }
    {
        if used == 0 {
            return 0;
        }
        let room = BLOCK_LEN - used;
        self.block[used..].copy_from_slice(&input[..room]);
        let count = self.len.wrapping_add(room as u64);
        compress(&mut self.state, words_of(&self.block), count, false);
        room
    }
}

// Compresses the blocks that a further byte follows, out of bytes that stand behind `before` others. Answers how many bytes
// these blocks have.
fn compress_front(state: &mut [u32; 8], before: u64, bytes: &[u8]) -> usize
    requires { 0 < length bytes.now }
    ensures taken { result ≡ bytes_before_last (length bytes.now) }
    ensures state { (first text : List ℕ) (n : ℕ) → length text < 2 ^ 64 → before ≡ 64 * n
        → bytes.now ≡ drop before text → state.old ≡ state_after first (blocks text) n
        → state.new ≡ state_after first (blocks text) (block_count (length text) - 1) }
{
    let whole = (bytes.len() - 1) / BLOCK_LEN;
    'whole: for i in 0..whole {
        let words = words_of(&bytes[BLOCK_LEN * i..BLOCK_LEN * (i + 1)]);
        let count = before.wrapping_add((BLOCK_LEN * (i + 1)) as u64);
        compress(state, words, count, false);
    }
    BLOCK_LEN * whole
}

// Puts other bytes into a block, and zeros behind them.
fn refill(block: &mut [u8; 64], bytes: &[u8])
    requires { length bytes.now ≤ 64 }
    ensures { block.new ≡ full_block bytes.now }
{
    *block = [0; 64];
    block[..bytes.len()].copy_from_slice(bytes);
}
