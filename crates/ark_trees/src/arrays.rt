//! Hashes of arrays as hashes of trees.

ghost use Rattle.std.specs.Prelude.{◌≡◌, Ok, refl};
ghost use Rattle.ark_trees.specs.Arrays.{array_hashes};
ghost use Rattle.ark_trees.specs.Laws.Arrays.{arrays-decided};

use ark_base::error::Error;
use ark_crh::array_hash::{leaf_digests, node_digests};
use ark_crh::{ArrayHash, CRHScheme, PlainSha256, TwoToOneCRHScheme};
use ark_paths::hasher::TreeHasher;
use ark_paths::{Config, IdentityDigestConverter};
use rand::Rng;
use std::alloc::Global;
use std::marker::PhantomData;

/// A hash of arrays as a configuration of trees, as both hashes of one, and as a hasher of trees and logs.
///
/// Leaves are byte strings, and digests are arrays. No digest asks for memory; what is hashed ahead asks once a run.
#[derive(Debug, Clone, Copy)]
pub struct Arrays<H> {
    hash: PhantomData<H>,
}

impl<H> Arrays<H> {
    /// Makes a hasher.
    pub fn new() -> Arrays<H> {
        Arrays { hash: PhantomData }
    }
}

impl<H: ArrayHash> Config for Arrays<H> {
    type Leaf = Vec<u8>;

    type LeafDigest = [u8; 32];

    type LeafInnerDigestConverter = IdentityDigestConverter<[u8; 32]>;

    type InnerDigest = [u8; 32];

    type LeafHash = Arrays<H>;

    type TwoToOneHash = Arrays<H>;
}

impl<H: ArrayHash> CRHScheme for Arrays<H> {
    type Input = Vec<u8>;

    type Output = [u8; 32];

    type Parameters = ();

    ghost meaning = { λ _ input. Ok (H.leaf_hash input.items) };

    ghost setup_outcome = { Ok };

    ghost is_made = { λ _ _. Unit {0} };

    fn setup<R: Rng>(_alloc: Global, _rng: &mut R) -> Result<(), Error> {
        Ok(())
    }

    /// Returns the digest of the input. It allocates nothing.
    fn evaluate(_alloc: Global, _parameters: &(), input: &Vec<u8>) -> Result<[u8; 32], Error>
        ensures exact { result ≡ Ok (H.leaf_hash input.now.items) }
    {
        Ok(H::leaf(input))
    }

    fn evaluate_ahead(
        alloc: Global,
        _parameters: &(),
        inputs: &[&Vec<u8>],
    ) -> Result<Vec<[u8; 32]>, Error> {
        leaf_digests::<H>(alloc, inputs)
    }

    ghost meaning_decided = { λ _ _. tt };

    ghost setup_decided = { λ _. tt };

    ghost made_alike = { λ _ p q _ _. refl };

    ghost same_parameters = { λ p q same. refl };
}

impl<H: ArrayHash> TwoToOneCRHScheme for Arrays<H> {
    type Input = [u8; 32];

    type Output = [u8; 32];

    type Parameters = ();

    ghost evaluated = { λ _ left right. Ok (H.node_hash left right) };

    ghost compressed = { λ _ left right. Ok (H.node_hash left right) };

    ghost setup_outcome = { Ok };

    ghost is_made = { λ _ _. Unit {0} };

    fn setup<R: Rng>(_alloc: Global, _rng: &mut R) -> Result<(), Error> {
        Ok(())
    }

    /// Returns the digest of left and right. It allocates nothing.
    fn evaluate(
        _alloc: Global,
        _parameters: &(),
        left: &[u8; 32],
        right: &[u8; 32],
    ) -> Result<[u8; 32], Error>
        ensures exact { result ≡ Ok (H.node_hash left.now right.now) }
    {
        Ok(H::node(left, right))
    }

    /// Returns the digest of left and right. It allocates nothing.
    fn compress(
        _alloc: Global,
        _parameters: &(),
        left: &[u8; 32],
        right: &[u8; 32],
    ) -> Result<[u8; 32], Error>
        ensures exact { result ≡ Ok (H.node_hash left.now right.now) }
    {
        Ok(H::node(left, right))
    }

    fn evaluate_ahead(
        alloc: Global,
        _parameters: &(),
        couples: &[(&[u8; 32], &[u8; 32])],
    ) -> Result<Vec<[u8; 32]>, Error> {
        node_digests::<H>(alloc, couples)
    }

    fn compress_ahead(
        alloc: Global,
        _parameters: &(),
        couples: &[(&[u8; 32], &[u8; 32])],
    ) -> Result<Vec<[u8; 32]>, Error> {
        node_digests::<H>(alloc, couples)
    }

    ghost evaluated_decided = { λ _ _ _. tt };

    ghost compressed_decided = { λ _ _ _. tt };

    ghost setup_decided = { λ _. tt };

    ghost made_alike = { λ _ p q _ _. refl };

    ghost evaluated_same = { λ p q same. refl };

    ghost compressed_same = { λ p q same. refl };
}

impl<H: ArrayHash> TreeHasher<[u8; 32], [u8; 32]> for Arrays<H> {
    type Leaf = Vec<u8>;

    ghost hashes = { λ _. array_hashes H.leaf_hash H.node_hash };

    fn leaf(&self, _alloc: Global, leaf: &Vec<u8>) -> Result<[u8; 32], Error> {
        Ok(H::leaf(leaf))
    }

    fn bottom(&self, _alloc: Global, left: &[u8; 32], right: &[u8; 32]) -> Result<[u8; 32], Error> {
        Ok(H::node(left, right))
    }

    fn upper(&self, _alloc: Global, left: &[u8; 32], right: &[u8; 32]) -> Result<[u8; 32], Error> {
        Ok(H::node(left, right))
    }

    fn leaf_ahead(&self, alloc: Global, leaves: &[&Vec<u8>]) -> Result<Vec<[u8; 32]>, Error> {
        leaf_digests::<H>(alloc, leaves)
    }

    fn bottom_ahead(
        &self,
        alloc: Global,
        couples: &[(&[u8; 32], &[u8; 32])],
    ) -> Result<Vec<[u8; 32]>, Error> {
        node_digests::<H>(alloc, couples)
    }

    fn upper_ahead(
        &self,
        alloc: Global,
        couples: &[(&[u8; 32], &[u8; 32])],
    ) -> Result<Vec<[u8; 32]>, Error> {
        node_digests::<H>(alloc, couples)
    }

    ghost decided = { λ _. arrays-decided H.leaf_hash H.node_hash };
}

/// SHA-256 of a byte string, and of two digests, as an array.
pub type ArraySha256 = Arrays<PlainSha256>;

/// Trees of byte strings whose digests are arrays: the digest of a leaf is its SHA-256, that of a pair the SHA-256 of left
/// followed by right. No digest asks for memory.
pub type Sha256Arrays = Arrays<PlainSha256>;
