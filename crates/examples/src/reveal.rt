//! Commit and reveal: a bid is committed to, and later opened.

ghost use Rattle.std.specs.Prelude.{◌≡◌, ◌↔◌, true, IfOk, Ok};
ghost use Rattle.ark_crypto_primitives.specs.Words.{blake2s_commitment};

use ark_crypto_primitives::Error;
use ark_crypto_primitives::commitment::CommitmentScheme;
use ark_crypto_primitives::commitment::blake2s::Commitment;
use std::alloc::Global;

/// Returns the commitment to a bid. The nonce has 32 bytes that nobody can guess, and serves once.
pub fn commit(alloc: Global, bid: &[u8], nonce: &[u8; 32]) -> Result<[u8; 32], Error>
    ensures { result ≡ blake2s_commitment bid.now nonce.now }
{
    Commitment::commit(alloc, &(), bid, nonce)
}

/// Returns whether a bid and a nonce open a commitment: exactly where they commit to it.
pub fn opens(
    alloc: Global,
    commitment: &[u8; 32],
    bid: &[u8],
    nonce: &[u8; 32],
) -> Result<bool, Error>
    ensures { let committed = blake2s_commitment bid.now nonce.now in
        IfOk result (λ opens. (opens ≡ true) ↔ (committed ≡ Ok commitment.now)) }
{
    Ok(commit(alloc, bid, nonce)? == *commitment)
}
