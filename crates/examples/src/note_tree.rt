//! Zcash's note commitment tree: Sapling's hash over Jubjub in a tree of depth 32, of which two digests a level are kept.

use ark_crypto_primitives::crh::bowe_hopwood::bowe_hopwood_from_label;
use ark_crypto_primitives::crh::pedersen::Windows63x9;
use ark_crypto_primitives::ec::jubjub::Jubjub;
use ark_crypto_primitives::ff::{Bls12_381Fr, Field};
use ark_crypto_primitives::merkle_tree::incremental::{IncrementalTree, NodeLevels, TreeRefusal};
use std::alloc::Global;

/// Sapling's hash of two nodes and their level.
pub type Nodes = NodeLevels<Jubjub, Windows63x9>;

/// A tree of note commitments.
pub type NoteTree = IncrementalTree<Bls12_381Fr, Nodes>;

/// Returns the tree without notes: each leaf is 1, which is no note's commitment.
pub fn empty_tree(alloc: Global) -> Result<NoteTree, TreeRefusal> {
    match bowe_hopwood_from_label::<Jubjub, Windows63x9>(alloc, b"Zcash_PH") {
        Ok(parameters) => {
            IncrementalTree::new(alloc, NodeLevels::new(parameters), 32, Bls12_381Fr::one())
        }
        Err(error) => Err(TreeRefusal::Hash(error)),
    }
}

/// Returns the root of the tree of notes' commitments, which a spend names as its anchor.
///
/// Errors: `Full` for more than 2^32 notes; `Hash` with `OutOfMemory`.
pub fn anchor(alloc: Global, commitments: &[Bls12_381Fr]) -> Result<Bls12_381Fr, TreeRefusal> {
    let mut tree = empty_tree(alloc)?;
    for commitment in commitments {
        tree.append(alloc, *commitment)?;
    }
    match tree.root(alloc) {
        Ok(root) => Ok(root),
        Err(error) => Err(TreeRefusal::Hash(error)),
    }
}
