//! The words of blocks, of the parameters and of the state (RFC 7693, section 2).

ghost use Rattle.std.specs.Prelude.{◌≡◌, ◌+◌, ◌≤◌, length};
ghost use Rattle.ark_schemes.specs.Blake2s.{word_from, words_from, first_state, state_bytes};

use crate::prf::blake2s::compress::IV;

// The word at a place.
fn word_of(bytes: &[u8], i: usize) -> u32
    requires { i + 4 ≤ length bytes.now }
    ensures { result ≡ word_from bytes.now i }
{
    u32::from_le_bytes([bytes[i], bytes[i + 1], bytes[i + 2], bytes[i + 3]])
}

/// Returns the sixteen words of a block of 64 bytes (section 2.4).
pub fn words_of(block: &[u8]) -> [u32; 16]
    requires { length block.now ≡ 64 }
    ensures { result ≡ words_from block.now 0 }
{
    let mut words = [0; 16];
    'load: for i in 0..16 {
        words[i] = word_of(block, 4 * i);
    }
    words
}

/// Returns the state before the first block: 32 bytes out, no key (section 2.5; salt and personalization by the BLAKE2
/// specification).
#[tactic(auto, unfolding(crate::specs::Blake2s::first_state))]
pub fn first_state(salt: &[u8; 8], personalization: &[u8; 8]) -> [u32; 8]
    ensures { result ≡ first_state salt.now personalization.now }
{
    let [a, b, c, d, e, f, g, h] = *salt;
    let [i, j, k, l, m, n, o, p] = *personalization;
    [
        IV[0] ^ 0x0101_0020,
        IV[1],
        IV[2],
        IV[3],
        IV[4] ^ u32::from_le_bytes([a, b, c, d]),
        IV[5] ^ u32::from_le_bytes([e, f, g, h]),
        IV[6] ^ u32::from_le_bytes([i, j, k, l]),
        IV[7] ^ u32::from_le_bytes([m, n, o, p]),
    ]
}

/// Returns the 32 bytes of a state (section 2.4).
#[tactic(auto, unfolding(crate::specs::Blake2s::state_bytes))]
pub fn state_bytes(h: [u32; 8]) -> [u8; 32]
    ensures { result ≡ state_bytes h }
{
    let mut bytes = [0; 32];
    'words: for i in 0..8 {
        bytes[4 * i..4 * i + 4].copy_from_slice(&h[i].to_le_bytes());
    }
    bytes
}
