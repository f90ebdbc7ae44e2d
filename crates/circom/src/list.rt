//! Roots and paths of lists of elements.

ghost use Rattle.std.specs.Prelude.{◌≡◌, ◌<◌, ◌^◌, length, true, false, IfErr, IfOk, Ok, Err};
ghost use Rattle.std.specs.List.{list_all};
ghost use Rattle.ark_base.specs.declared.error.Error.TheVariants.{OutOfMemory};
ghost use Rattle.ark_paths.specs.Pair.{Digest};
ghost use Rattle.ark_sponge.specs.Permutation.{Parameters};
ghost use Rattle.circom.specs.Hash.{IsTableOf, is_element, node_outcome};
ghost use Rattle.circom.specs.Nodes.{refusal_error};
ghost use Rattle.circom.specs.declared.refusal.NodeRefusal.TheVariants.{Element};
ghost use Rattle.merkle_log.specs.Edge.{all_of};
ghost use Rattle.merkle_log.specs.Given.{GivesBy};
ghost use Rattle.merkle_log.specs.Log.{inclusion_path, merkle_tree_hash};

use crate::elements::are_elements;
use crate::log::{appended_digests, inclusion_path};
use crate::nodes::CircomNodes;
use crate::refusal::{NoElement, NodeRefusal};
use crate::table::CircomTable;
use ark_base::error::Error;
use merkle_log::Frontier;
use merkle_log::kept::Kept;
use std::alloc::Global;

// The root of elements, which are put behind each other in a frontier. The only error is `OutOfMemory`.
fn root_by_frontier(
    alloc: Global,
    table: &CircomTable,
    elements: &[[u8; 32]],
) -> Result<[u8; 32], Error>
    requires two { table.now.inputs ≡ 2 }
    requires some { 0 < length elements.now }
    requires fits { length elements.now < 2 ^ 63 }
    requires all { list_all is_element elements.now ≡ true }
    ensures root { (c : Parameters) → IsTableOf c table.now → (empty : Digest) → IfOk result
        (λ root. merkle_tree_hash (node_outcome c) empty elements.now ≡ Ok root) }
    ensures memory { (c : Parameters) → IsTableOf c table.now → IfErr result
        (λ error. error ≡ OutOfMemory) }
{
    let mut frontier = Frontier::new(alloc, CircomNodes::new(table), [0u8; 32]);
    'elements: for element in elements {
        frontier.append(alloc, *element)?;
    }
    frontier.root(alloc)
}

/// Returns the root of a list of elements, of which there is one at least. At most 64 digests are kept at a time.
///
/// Errors: `Element` where one of them is none; `Memory`.
pub fn root_of_elements(
    alloc: Global,
    table: &CircomTable,
    elements: &[[u8; 32]],
) -> Result<[u8; 32], NodeRefusal>
    requires two { table.now.inputs ≡ 2 }
    requires some { 0 < length elements.now }
    requires fits { length elements.now < 2 ^ 63 }
    ensures none { list_all is_element elements.now ≡ false → result ≡ Err Element }
    ensures root { (c : Parameters) → IsTableOf c table.now
        → list_all is_element elements.now ≡ true
        → (empty : Digest) → GivesBy refusal_error (λ digest. digest)
        (merkle_tree_hash (node_outcome c) empty elements.now) result }
{
    if !are_elements(elements) {
        return Err(NodeRefusal::Element);
    }
    match root_by_frontier(alloc, table, elements) {
        Ok(root) => Ok(root),
        Err(_) => Err(NodeRefusal::Memory),
    }
}

/// Returns the path of an index in a list of elements, from the element up.
///
/// Errors: those of `root_of_elements`.
pub fn path_of_elements(
    alloc: Global,
    table: &CircomTable,
    elements: &[[u8; 32]],
    index: usize,
) -> Result<Vec<[u8; 32]>, NodeRefusal>
    requires two { table.now.inputs ≡ 2 }
    requires inside { index < length elements.now }
    requires fits { length elements.now < 2 ^ 63 }
    ensures none { list_all is_element elements.now ≡ false → result ≡ Err Element }
    ensures path { (c : Parameters) → IsTableOf c table.now
        → list_all is_element elements.now ≡ true
        → (empty : Digest) → GivesBy refusal_error (λ path. path.items)
        (all_of (inclusion_path (node_outcome c) empty index elements.now)) result }
{
    if !are_elements(elements) {
        return Err(NodeRefusal::from(NoElement));
    }
    let kept = appended_digests(alloc, table, &Kept::new(0, &[]), elements)?;
    inclusion_path(alloc, table, &Kept::new(elements.len(), &kept), index)
}
