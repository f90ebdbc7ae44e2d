//! SHA-256 (FIPS 180-4) as a hash of arrays.

ghost use Rattle.ark_crh.specs.Plain.{plain_node};
ghost use Rattle.sha2.specs.Sha256.{sha256};

use crate::array_hash::ArrayHash;
use sha256_lanes::{digest_of_message, digest_of_pair, digests_of_messages, digests_of_pairs};

/// The digest of a leaf is its SHA-256, that of a pair the SHA-256 of left followed by right.
#[derive(Debug, Clone, Copy)]
pub struct PlainSha256;

impl ArrayHash for PlainSha256 {
    ghost leaf_hash = { sha256 };

    ghost node_hash = { plain_node };

    fn leaf(leaf: &[u8]) -> [u8; 32] {
        digest_of_message(None, leaf)
    }

    fn node(left: &[u8; 32], right: &[u8; 32]) -> [u8; 32] {
        digest_of_pair(None, left, right)
    }

    fn leaves(leaves: &[&[u8]], digests: &mut [[u8; 32]]) {
        digests_of_messages(None, leaves, digests);
    }

    fn nodes(couples: &[(&[u8; 32], &[u8; 32])], digests: &mut [[u8; 32]]) {
        digests_of_pairs(None, couples, digests);
    }
}
