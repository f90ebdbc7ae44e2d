//! The hashes of a map over SHA-256.

ghost use Rattle.std.specs.Prelude.{◌≡◌, [], Ok, refl};
ghost use Rattle.merkle_map.specs.Map.{Node, digest_of};
ghost use Rattle.merkle_map.specs.Sha256.{sha256_map, node_bytes, HasPartsOf32};
ghost use Rattle.sha2.specs.Sha256.{sha256};

use crate::hasher::{MapHasher, MapViews};
use ark_base::error::Error;
use ark_crh::TwoToOneCRHScheme;
use rand::Rng;
use sha256_lanes::{digest_of_message, digest_of_pair, digests_of_pairs};
use std::alloc::Global;

/// Hashes maps by SHA-256, with a byte before each node's parts as RFC 6962 has (section 2.1).
///
/// The digest of an entry is that of 0, the key and the value; of two digests, that of 1, the left and the right one; of
/// nothing, that of no bytes.
#[derive(Debug, Clone, Copy)]
pub struct Sha256Map;

impl Sha256Map {
    /// Returns the hasher.
    pub fn new() -> MapHasher<Sha256Map>
        ensures nothing { result.nothing ≡ sha256 [] }
        ensures hashes { ⟦<Sha256Map as MapViews>⟧.hashes result ≡ sha256_map }
    {
        MapHasher::new((), digest_of_message(None, &[]))
    }
}

impl TwoToOneCRHScheme for Sha256Map {
    type Input = [u8; 32];

    type Output = [u8; 32];

    type Parameters = ();

    ghost evaluated = { λ _. sha256_map.leaf };

    ghost compressed = { λ _. sha256_map.pair };

    ghost setup_outcome = { Ok };

    ghost is_made = { λ _ _. Unit {0} };

    /// Draws nothing. The only error is `OutOfMemory`; the body allocates nothing.
    fn setup<R: Rng>(_alloc: Global, _rng: &mut R) -> Result<(), Error> {
        Ok(())
    }

    /// Hashes 0, the key and the value. The only error is `OutOfMemory`; the body allocates nothing.
    fn evaluate(
        _alloc: Global,
        _parameters: &(),
        key: &[u8; 32],
        value: &[u8; 32],
    ) -> Result<[u8; 32], Error> {
        Ok(digest_of_pair(Some(0), key, value))
    }

    /// Hashes 1, the left and the right digest. The only error is `OutOfMemory`; the body allocates nothing.
    fn compress(
        _alloc: Global,
        _parameters: &(),
        left: &[u8; 32],
        right: &[u8; 32],
    ) -> Result<[u8; 32], Error> {
        Ok(digest_of_pair(Some(1), left, right))
    }

    fn evaluate_ahead(
        alloc: Global,
        _parameters: &(),
        couples: &[(&[u8; 32], &[u8; 32])],
    ) -> Result<Vec<[u8; 32]>, Error> {
        let mut digests = vec![in alloc; [0u8; 32]; couples.len()]?;
        digests_of_pairs(Some(0), couples, &mut digests);
        Ok(digests)
    }

    fn compress_ahead(
        alloc: Global,
        _parameters: &(),
        couples: &[(&[u8; 32], &[u8; 32])],
    ) -> Result<Vec<[u8; 32]>, Error> {
        let mut digests = vec![in alloc; [0u8; 32]; couples.len()]?;
        digests_of_pairs(Some(1), couples, &mut digests);
        Ok(digests)
    }

    ghost evaluated_decided = { λ _ _ _. tt };

    ghost compressed_decided = { λ _ _ _. tt };

    ghost setup_decided = { λ _. tt };

    ghost made_alike = { λ _ p q _ _. refl };

    ghost evaluated_same = { λ p q same. refl };

    ghost compressed_same = { λ p q same. refl };
}

/// States that different nodes have different bytes, so that two different nodes with one hash are a collision of SHA-256.
pub fn nodes_are_apart()
    // The hash of a node is that of its bytes.
    ensures hash { (node : Node) → digest_of sha256_map node ≡ Ok (sha256 (node_bytes node)) }
    ensures apart { (a b : Node) → HasPartsOf32 a → HasPartsOf32 b
        → node_bytes a ≡ node_bytes b → a ≡ b }
{}
