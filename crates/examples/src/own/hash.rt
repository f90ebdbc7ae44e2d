//! A hash of one's own: SHA-256 with a byte in front that tells a leaf from a node, and other trees from these.

ghost use Rattle.std.specs.Prelude.{◌∷◌, ◌++◌};
ghost use Rattle.sha2.specs.Sha256.{sha256};

use ark_crypto_primitives::crh::ArrayHash;
use ark_crypto_primitives::trees::Arrays;
use sha2::{Digest, Sha256};

/// The configuration of a tree over `Tagged`.
pub type TaggedTree = Arrays<Tagged>;

/// SHA-256 behind a byte: 16 for a leaf, 17 for two digests.
pub struct Tagged;

impl ArrayHash for Tagged {
    ghost leaf_hash = { λ leaf. sha256 (16 ∷ leaf) };

    ghost node_hash = { λ left right. sha256 (17 ∷ left ++ right) };

    fn leaf(leaf: &[u8]) -> [u8; 32] {
        let mut hasher = Sha256::new();
        hasher.update([16].as_slice());
        hasher.update(leaf);
        hasher.finalize()
    }

    fn node(left: &[u8; 32], right: &[u8; 32]) -> [u8; 32] {
        let mut hasher = Sha256::new();
        hasher.update([17].as_slice());
        hasher.update(left.as_slice());
        hasher.update(right.as_slice());
        hasher.finalize()
    }
}
