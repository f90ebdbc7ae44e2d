//! The hash of two nodes and their level as incremental trees take it: Sapling's.

ghost use Rattle.std.specs.Prelude.{◌≡◌, ◌∷◌, [], get_or};
ghost use Rattle.ark_pedersen.specs.Pedersen.{lists_in};
ghost use Rattle.ark_pedersen.specs.Laws.Pedersen.{seen-decided};
ghost use Rattle.ark_bowe_hopwood.specs.Laws.Nodes.{node-decided};
ghost use Rattle.ark_bowe_hopwood.specs.Nodes.{leveled_hash};

use ark_base::error::{Error, Refusal};
use ark_base::serialize::DigestItem;
use ark_bowe_hopwood::{Parameters, hash_node};
use ark_groups::ec::{AdditiveGroup, TECoordinates};
use ark_pedersen::Window;
use incremental_trees::LevelHasher;
use std::alloc::Global;
use std::marker::PhantomData;

/// Hashes two nodes with their level by a Bowe-Hopwood hash, as `hash_node` does.
///
/// Over `Jubjub` by the elements of `Zcash_PH` in windows of 63 chunks it is Sapling's. A tree of depth 32 over it whose empty leaf
/// is 1 is Zcash's note commitment tree (protocol specification, sections 4.9 and 5.4.1.3).
#[derive(Drop)]
pub struct NodeLevels<G: AdditiveGroup, W: Window> {
    /// A list of elements for each window.
    pub parameters: Parameters<G>,
    window: PhantomData<W>,
}

impl<G: AdditiveGroup, W: Window> NodeLevels<G, W> {
    /// Takes the parameters of the hash.
    pub fn new(parameters: Parameters<G>) -> NodeLevels<G, W>
        ensures { result.parameters ≡ parameters }
    {
        NodeLevels {
            parameters,
            window: PhantomData,
        }
    }
}

impl<G: AdditiveGroup + TECoordinates, W: Window> LevelHasher<G::BaseField> for NodeLevels<G, W>
where
    G::BaseField: DigestItem,
{
    ghost nodes = { λ own.
        leveled_hash G.group G.x W.Window (lists_in own.parameters.generators.items) };

    /// Returns the hash of two nodes of a level. It allocates nothing.
    ///
    /// Errors: `LengthOverflow` of a level of 64 or more; those of `hash_node`.
    fn node(
        &self,
        _alloc: Global,
        level: usize,
        left: &G::BaseField,
        right: &G::BaseField,
    ) -> Result<G::BaseField, Error> {
        if level >= 64 {
            return Err(Error::GenericError(Refusal::LengthOverflow));
        }
        hash_node::<G, W>(&self.parameters.generators, level as u8, *left, *right)
    }

    ghost nodes_decided = { λ own level left right.
        seen-decided (λ x. x ∷ []) _
        (node-decided G.group G.x W.Window (lists_in own.parameters.generators.items)
        level (get_or left 0 0) (get_or right 0 0)) };
}
