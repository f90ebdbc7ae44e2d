//! The definition of BLAKE2s as a plain, slow function, for tests to compare with: all blocks of the whole text first.

ghost use Rattle.std.specs.Prelude.{◌≡◌, ◌<◌, ◌^◌, length, take, drop, slice_index, IfOk};
ghost use Rattle.ark_schemes.specs.Blake2s.{blocks, full_block, last_state, blake2s_with};

use ark_base::serialize::rest_of;
use ark_schemes::prf::blake2s::compress::compress;
use ark_schemes::prf::blake2s::words::{first_state, state_bytes, words_of};
use std::alloc::{AllocError, Global};

// The byte at a place, and zero past the end.
fn byte_or_zero(bytes: &[u8], i: usize) -> u8
    ensures { result ≡ slice_index bytes.now i }
{
    match bytes.get(i) {
        Some(byte) => *byte,
        None => 0,
    }
}

// The first bytes, 64 at most, with zeros behind them up to 64.
fn filled(bytes: &[u8]) -> [u8; 64]
    ensures { result ≡ full_block (take 64 bytes.now) }
{
    let mut block = [0; 64];
    'fill: for k in 0..64 {
        block[k] = byte_or_zero(bytes, k);
    }
    block
}

/// Returns all blocks of a text.
fn blocks(alloc: Global, text: &[u8]) -> Result<Vec<[u32; 16]>, AllocError>
    requires { length text.now < 2 ^ 32 }
    ensures { IfOk result (λ d. d.items ≡ blocks text.now) }
{
    let mut blocks = Vec::new(alloc);
    let count = text.len().div_ceil(64).max(1);
    'text: for i in 0..count {
        blocks.push(words_of(&filled(rest_of(text, 64 * i))))?;
    }
    Ok(blocks)
}

// The state after all blocks, the last one with the length of the text.
fn hash_blocks(mut h: [u32; 8], blocks: &[[u32; 16]], len: u64) -> [u32; 8]
    requires some { 0 < length blocks.now }
    requires few { length blocks.now < 2 ^ 32 }
    ensures { result ≡ last_state h blocks.now len }
{
    let last = blocks.len() - 1;
    'whole: for i in 0..last {
        compress(&mut h, blocks[i], 64 * (i as u64 + 1), false);
    }
    compress(&mut h, blocks[last], len, true);
    h
}

/// Returns the digest of a text with salt and personalization.
pub fn plain_digest(
    alloc: Global,
    salt: &[u8; 8],
    personalization: &[u8; 8],
    text: &[u8],
) -> Result<[u8; 32], AllocError>
    requires { length text.now < 2 ^ 32 }
    ensures { IfOk result (λ digest. digest ≡ blake2s_with salt.now personalization.now text.now) }
{
    let blocks = blocks(alloc, text)?;
    let h = hash_blocks(
        first_state(salt, personalization),
        &blocks,
        text.len() as u64,
    );
    Ok(state_bytes(h))
}
