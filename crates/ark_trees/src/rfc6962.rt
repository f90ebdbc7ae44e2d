//! Trees as transparency logs hash them (RFC 6962, section 2.1).

ghost use Rattle.std.specs.Prelude.{◌≡◌, Ok};
ghost use Rattle.ark_trees.specs.Laws.Arrays.{arrays-decided};
ghost use Rattle.ark_trees.specs.Rfc6962.{entry_hash, node_hash, node_of};

use crate::arrays::Arrays;
use ark_base::error::Error;
use ark_crh::ArrayHash;
use ark_crh::array_hash::{leaf_digests, node_digests};
use ark_paths::hasher::TreeHasher;
use sha256_lanes::{digest_of_message, digest_of_pair, digests_of_messages, digests_of_pairs};
use std::alloc::Global;

/// The hashes of a log: a zero byte stands before a leaf, a one byte before a pair, so that no pair is taken for a leaf.
///
/// As a value it is a hasher of leaves and pairs, for logs of any size.
#[derive(Debug, Clone, Copy)]
pub struct LogHasher;

/// SHA-256 of a zero byte and a byte string, and of a one byte and two digests.
pub type LogSha256 = Arrays<LogHasher>;

/// Trees with the hashing of RFC 6962. The roots are those of logs over as many entries, a power of two of them; digests are
/// arrays.
pub type Sha256Log = Arrays<LogHasher>;

impl ArrayHash for LogHasher {
    ghost leaf_hash = { entry_hash };

    ghost node_hash = { node_hash };

    /// Hashes an entry.
    fn leaf(leaf: &[u8]) -> [u8; 32] {
        digest_of_entry(leaf)
    }

    /// Hashes the node over two others.
    fn node(left: &[u8; 32], right: &[u8; 32]) -> [u8; 32] {
        digest_of_pair(Some(1), left, right)
    }

    fn leaves(leaves: &[&[u8]], digests: &mut [[u8; 32]]) {
        digests_of_messages(Some(0), leaves, digests);
    }

    fn nodes(couples: &[(&[u8; 32], &[u8; 32])], digests: &mut [[u8; 32]]) {
        digests_of_pairs(Some(1), couples, digests);
    }
}

impl TreeHasher<[u8; 32], [u8; 32]> for LogHasher {
    type Leaf = Vec<u8>;

    ghost hashes = { λ _. record {
      leaf = λ entry. Ok (entry_hash entry.items);
      pair = record { bottom = node_of; upper = node_of };
    } };

    /// Hashes an entry. It allocates nothing.
    fn leaf(&self, _alloc: Global, leaf: &Vec<u8>) -> Result<[u8; 32], Error> {
        Ok(digest_of_entry(leaf))
    }

    /// Hashes the node over two entries' hashes. It allocates nothing.
    fn bottom(&self, _alloc: Global, left: &[u8; 32], right: &[u8; 32]) -> Result<[u8; 32], Error> {
        Ok(<LogHasher as ArrayHash>::node(left, right))
    }

    /// Hashes the node over two others. It allocates nothing.
    fn upper(&self, _alloc: Global, left: &[u8; 32], right: &[u8; 32]) -> Result<[u8; 32], Error> {
        Ok(<LogHasher as ArrayHash>::node(left, right))
    }

    fn leaf_ahead(&self, alloc: Global, leaves: &[&Vec<u8>]) -> Result<Vec<[u8; 32]>, Error> {
        leaf_digests::<LogHasher>(alloc, leaves)
    }

    fn bottom_ahead(
        &self,
        alloc: Global,
        couples: &[(&[u8; 32], &[u8; 32])],
    ) -> Result<Vec<[u8; 32]>, Error> {
        node_digests::<LogHasher>(alloc, couples)
    }

    fn upper_ahead(
        &self,
        alloc: Global,
        couples: &[(&[u8; 32], &[u8; 32])],
    ) -> Result<Vec<[u8; 32]>, Error> {
        node_digests::<LogHasher>(alloc, couples)
    }

    ghost decided = { λ _. arrays-decided entry_hash node_hash };
}

/// Returns the digest of a zero byte and an entry (section 2.1).
pub fn digest_of_entry(entry: &[u8]) -> [u8; 32]
    ensures { result ≡ entry_hash entry.now }
{
    digest_of_message(Some(0), entry)
}
