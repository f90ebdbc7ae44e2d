//! Checks of a log's proofs for a web page (RFC 9162, section 2.1), and of the signatures of its checkpoints (RFC 8032). No call asks for
//! memory, so that a module of WebAssembly needs nothing of its host but the memory in which the arguments stand.
#![tactic(auto)]

ghost use Rattle.std.specs.Prelude.{◌≡◌, ◌⊎◌, pos};
ghost use Rattle.ark_trees.specs.Rfc6962.{entry_hash, node_of};
ghost use Rattle.ed25519.specs.Signatures.{IsSignature};
ghost use Rattle.merkle_log.specs.Bind.{BindsDigest, BindsFront};
ghost use Rattle.merkle_log.specs.Verdict.{consistency_verdict, inclusion_verdict};
ghost use Rattle.paxidore_page.specs.Code.{TellsVerdict, answer_number};
ghost use Rattle.sha2.specs.Sha256.{sha256};

use ark_base::error::Error;
use ark_trees::{LogHasher, digest_of_entry};
use ed25519::verify;
use merkle_log::{verify_consistency, verify_inclusion_digest};
use sha2::{Digest, Sha256};
use std::alloc::Global;

// The number of an answer.
fn answer_number(answer: Result<bool, Error>) -> i32
    ensures { result ≡ answer_number answer }
{
    match answer {
        Ok(true) => 0,
        Ok(false) => 1,
        Err(_) => 2,
    }
}

/// Writes the digest of an entry: the SHA-256 of a zero byte and the entry.
#[unsafe(no_mangle)]
pub extern "C" fn paxidore_page_entry(digest: &mut [u8; 32], entry: &[u8])
    ensures { digest.new ≡ entry_hash entry.now }
{
    *digest = digest_of_entry(entry);
}

/// Returns whether a path shows that a digest stands at an index of the log of this size with this root: 0 yes, 1 no. The digests
/// of the path stand one behind the other, from the leaf up.
#[unsafe(no_mangle)]
pub extern "C" fn paxidore_page_inclusion(
    alloc: Global,
    root: &[u8; 32],
    size: u64,
    index: u64,
    digest: &[u8; 32],
    path: &[[u8; 32]],
) -> i32
    ensures answer { TellsVerdict (inclusion_verdict node_of root.now size index digest.now
        path.now)
        result }

    // In each list of this size with this root the digest stands at the index, or at some level the path's pair and that of
    // the list's tree differ and hash alike.
    ensures shows { result ≡ pos 0 → BindsDigest node_of root.now size index digest.now path.now }
{
    answer_number(verify_inclusion_digest(alloc, &LogHasher, root, size, index, digest, path))
}

/// Returns whether a proof shows that the log of a new size and root continues that of an old size and root: 0 yes, 1 no.
#[unsafe(no_mangle)]
pub extern "C" fn paxidore_page_consistency(
    alloc: Global,
    old_size: u64,
    old_root: &[u8; 32],
    new_size: u64,
    new_root: &[u8; 32],
    proof: &[[u8; 32]],
) -> i32
    ensures answer { TellsVerdict (consistency_verdict node_of old_size old_root.now new_size
        new_root.now
        proof.now) result }

    // Each list of the old size with the old root is the front of each list of the new size with the new root, or two different
    // pairs are named that hash alike.
    ensures shows { result ≡ pos 0
        → BindsFront node_of old_size old_root.now new_size new_root.now proof.now }
{
    answer_number(verify_consistency(
        alloc, &LogHasher, old_size, old_root, new_size, new_root, proof,
    ))
}

/// Writes the SHA-256 of some bytes (FIPS 180-4).
#[unsafe(no_mangle)]
pub extern "C" fn paxidore_page_sha256(digest: &mut [u8; 32], input: &[u8])
    ensures { digest.new ≡ sha256 input.now }
{
    *digest = Sha256::digest(input);
}

/// Returns whether it is a signature of Ed25519 of the message under the key (RFC 8032, section 5.1.7): 0 yes, 1 no.
#[unsafe(no_mangle)]
pub extern "C" fn paxidore_page_signature(
    key: &[u8; 32],
    message: &[u8],
    signature: &[u8; 64],
) -> i32
    ensures answer { (result ≡ pos 0) ⊎ (result ≡ pos 1) }
    ensures signs { result ≡ pos 0 → IsSignature key.now message.now signature.now }
    ensures signs_not { result ≡ pos 1 → IsSignature key.now message.now signature.now → ⊥ }
{
    if verify(key, message, signature) {
        return 0;
    }
    1
}
