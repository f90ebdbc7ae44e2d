//! BLAKE2s with 32 bytes out, no key, no salt and no personalization (RFC 7693), and commitments by it.

ghost use Rattle.std.specs.Prelude.{◌≡◌, ◌≢◌, ◌⊎◌, ◌+◌, ◌^◌, ◌<◌, ℕ, List, [], ◌++◌, length, pos};
ghost use Rattle.ark_schemes.specs.Blake2s.{blake2s};
ghost use Rattle.ark_schemes.specs.Hashers.{HoldsText};

use ark_schemes::prf::blake2s::Blake2s256;
use std::mem;

/// Writes the digest of some bytes to `digest`. It allocates nothing and never fails.
#[unsafe(no_mangle)]
pub extern "C" fn paxidore_blake2s(digest: &mut [u8; 32], input: &[u8])
    ensures { digest.new ≡ blake2s input.now }
{
    let mut hasher = Blake2s256::new();
    hasher.update(input);
    *digest = hasher.finalize();
}

/// Makes of the caller's memory the hasher of the text of no bytes.
#[unsafe(no_mangle)]
pub extern "C" fn paxidore_blake2s_init(state: &mut Blake2s256)
    ensures { HoldsText state.new [] }
{
    *state = Blake2s256::new();
}

/// Appends bytes to the text.
#[unsafe(no_mangle)]
pub extern "C" fn paxidore_blake2s_update(state: &mut Blake2s256, input: &[u8])
    ensures { (text : List ℕ) → length text + length input.now < 2 ^ 64
        → HoldsText state.old text → HoldsText state.new (text ++ input.now) }
{
    state.update(input);
}

/// Writes the digest of the text to `digest`; the hasher is then that of the text of no bytes.
#[unsafe(no_mangle)]
pub extern "C" fn paxidore_blake2s_final(digest: &mut [u8; 32], state: &mut Blake2s256)
    ensures digest { (text : List ℕ) → HoldsText state.old text → digest.new ≡ blake2s text }
    ensures empty { HoldsText state.new [] }
{
    *digest = mem::replace(state, Blake2s256::new()).finalize();
}

// The digest of a value followed by a nonce.
fn digest_of_both(value: &[u8], nonce: &[u8; 32]) -> [u8; 32]
    ensures { length value.now + 32 < 2 ^ 64 → result ≡ blake2s (value.now ++ nonce.now) }
{
    let mut hasher = Blake2s256::new();
    hasher.update(value);
    hasher.update(nonce);
    hasher.finalize()
}

/// Writes the digest of a value followed by a nonce to `commitment`. It allocates nothing and never fails.
///
/// Of a value of 2^64 - 32 bytes or more, which no memory holds, nothing is promised.
#[unsafe(no_mangle)]
pub extern "C" fn paxidore_blake2s_commit(commitment: &mut [u8; 32], value: &[u8], nonce: &[u8; 32])
    ensures { length value.now + 32 < 2 ^ 64
        → commitment.new ≡ blake2s (value.now ++ nonce.now) }
{
    *commitment = digest_of_both(value, nonce);
}

/// Returns whether a commitment is that of a value and a nonce. It allocates nothing.
///
/// Answers: 0 for a yes, else 1. Of a value of 2^64 - 32 bytes or more, which no memory holds, either.
#[unsafe(no_mangle)]
pub extern "C" fn paxidore_blake2s_opens(
    commitment: &[u8; 32],
    value: &[u8],
    nonce: &[u8; 32],
) -> i32
    ensures answer { (result ≡ pos 0) ⊎ (result ≡ pos 1) }
    ensures opens { length value.now + 32 < 2 ^ 64
        → result ≡ pos 0 → commitment.now ≡ blake2s (value.now ++ nonce.now) }
    ensures opens_not { length value.now + 32 < 2 ^ 64
        → result ≡ pos 1 → commitment.now ≢ blake2s (value.now ++ nonce.now) }
{
    if *commitment == digest_of_both(value, nonce) {
        return 0;
    }
    1
}
