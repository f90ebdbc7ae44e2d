//! The hashes of maps in memory.

ghost use Rattle.std.specs.Prelude.{◌≡◌, [], ◌∷◌, ◌++◌, ℕ, List};
ghost use Rattle.kept_map.specs.KeptMap.{kept_hashes};
ghost use Rattle.merkle_map.specs.Sha256.{sha256_map};
ghost use Rattle.sha2.specs.Sha256.{sha256};

use ark_crh::ArrayHash;
use sha256_lanes::{digest_of_message, digest_of_pair, digests_of_messages, digests_of_pairs};

/// Hashes the 64 bytes of entries, and two digests, and has a digest of nothing. It refuses nothing, and allocates nothing.
pub trait KeptHash: ArrayHash {
    // The digest of nothing.
    ghost nothing_hash: { List ℕ };

    /// Returns the digest of nothing.
    fn nothing() -> [u8; 32]
        ensures { result ≡ nothing_hash };
}

/// Hashes maps by SHA-256, with a byte before each node's parts as RFC 6962 has (section 2.1): `merkle_map::Sha256Map` in memory.
///
/// The digest of an entry is that of 0, the key and the value; of two digests, that of 1, the left and the right one; of
/// nothing, that of no bytes.
#[derive(Debug, Clone, Copy)]
pub struct KeptSha256;

impl ArrayHash for KeptSha256 {
    ghost leaf_hash = { λ entry. sha256 (0 ∷ entry) };

    ghost node_hash = { λ left right. sha256 (1 ∷ (left ++ right)) };

    fn leaf(leaf: &[u8]) -> [u8; 32] {
        digest_of_message(Some(0), leaf)
    }

    fn node(left: &[u8; 32], right: &[u8; 32]) -> [u8; 32] {
        digest_of_pair(Some(1), left, right)
    }

    fn leaves(leaves: &[&[u8]], digests: &mut [[u8; 32]]) {
        digests_of_messages(Some(0), leaves, digests);
    }

    fn nodes(couples: &[(&[u8; 32], &[u8; 32])], digests: &mut [[u8; 32]]) {
        digests_of_pairs(Some(1), couples, digests);
    }
}

impl KeptHash for KeptSha256 {
    ghost nothing_hash = { sha256 [] };

    fn nothing() -> [u8; 32] {
        digest_of_message(None, &[])
    }
}

/// States that these are the hashes of `merkle_map::Sha256Map`, so that both have the same roots and the same proofs.
pub fn sha256_is_of_maps()
    ensures { kept_hashes ⟦<KeptSha256 as ArrayHash>⟧.leaf_hash
        ⟦<KeptSha256 as ArrayHash>⟧.node_hash ⟦<KeptSha256 as KeptHash>⟧.nothing_hash
        ≡ sha256_map }
{}
