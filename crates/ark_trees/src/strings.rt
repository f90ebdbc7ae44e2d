//! Trees whose digests are byte strings.

use ark_crh::sha256::Sha256;
use ark_paths::{Config, IdentityDigestConverter};

/// Trees of byte strings whose digests are byte strings too: the digest of a leaf is its SHA-256, that of a pair the SHA-256
/// of left followed by right. Digests of any length can be handed in. `Sha256Arrays` has the same roots and needs less
/// memory and time.
pub struct Sha256Strings;

impl Config for Sha256Strings {
    type Leaf = Vec<u8>;

    type LeafDigest = Vec<u8>;

    type LeafInnerDigestConverter = IdentityDigestConverter<Vec<u8>>;

    type InnerDigest = Vec<u8>;

    type LeafHash = Sha256;

    type TwoToOneHash = Sha256;
}
