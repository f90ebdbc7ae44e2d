//! Logs of elements whose stored digests lie in the caller's memory.

ghost use Rattle.std.specs.Prelude.{◌≡◌, ◌<◌, ◌≤◌, ◌+◌, ◌^◌, ◌++◌, List, length, take, true, IfErr, IfOk};
ghost use Rattle.std.specs.List.{list_all};
ghost use Rattle.ark_paths.specs.Pair.{Digest};
ghost use Rattle.ark_sponge.specs.Permutation.{Parameters};
ghost use Rattle.circom.specs.Hash.{IsTableOf, is_element, node_outcome};
ghost use Rattle.circom.specs.Nodes.{refusal_error};
ghost use Rattle.circom.specs.declared.refusal.NodeRefusal.TheVariants.{Element, Memory};
ghost use Rattle.merkle_log.specs.Edge.{all_of};
ghost use Rattle.merkle_log.specs.Given.{GivesBy};
ghost use Rattle.merkle_log.specs.Kept.{KeepsBy};
ghost use Rattle.merkle_log.specs.Log.{inclusion_path, merkle_tree_hash};
ghost use Rattle.merkle_log.specs.Received.{inclusion_length};
ghost use Rattle.merkle_log.specs.Stored.{stored_count};

use crate::nodes::CircomNodes;
use crate::refusal::{NoElement, NodeRefusal};
use crate::table::CircomTable;
use merkle_log::kept::{Kept, append_by, stored_count};
use merkle_log::path_lengths::inclusion_length;
use merkle_log::paths::inclusion_path_of;
use merkle_log::rows::root_of;
use std::alloc::Global;

/// Returns the root of a log that has one element at least: MTH(D[0:size]). It allocates nothing.
///
/// If the memory is not that of a log, it is some digest, or `Element` is refused.
pub fn kept_log_root(table: &CircomTable, kept: &Kept) -> Result<[u8; 32], NodeRefusal>
    requires two { table.now.inputs ≡ 2 }
    requires some { 0 < kept.now.size }
    ensures root { (c : Parameters) → IsTableOf c table.now → (leaves : List Digest)
        → kept.now.size ≤ length leaves → KeepsBy (node_outcome c) leaves kept.now.digests
        → (empty : Digest) → GivesBy refusal_error (λ digest. digest)
        (merkle_tree_hash (node_outcome c) empty (take kept.now.size leaves)) result }
    ensures refused { IfErr result (λ refusal. refusal ≡ Element) }
{
    match root_of(&mut CircomNodes::new(table), kept, kept.size()) {
        Ok(digest) => Ok(digest),
        Err(NoElement) => Err(NodeRefusal::Element),
    }
}

// Writes the path of an index to a list that has a place for each of its digests.
fn write_path(
    table: &CircomTable,
    kept: &Kept,
    index: usize,
    path: &mut [[u8; 32]],
) -> Result<(), NodeRefusal>
    requires two { table.now.inputs ≡ 2 }
    requires inside { index < kept.now.size }
    requires room { length path.old ≡ inclusion_length kept.now.size index }
    ensures { (c : Parameters) → IsTableOf c table.now → (leaves : List Digest)
        → kept.now.size ≤ length leaves → KeepsBy (node_outcome c) leaves kept.now.digests
        → (empty : Digest) → GivesBy refusal_error (λ _. path.new)
        (all_of (inclusion_path (node_outcome c) empty index (take kept.now.size leaves)))
        result }
{
    match inclusion_path_of(&mut CircomNodes::new(table), kept, kept.size(), index, path) {
        Ok(()) => Ok(()),
        Err(refused) => Err(NodeRefusal::from(refused)),
    }
}

/// Returns the path of an index, from the element up: PATH(index, D[0:size]).
///
/// If the memory is not that of a log, it is some digests, or `Element` is refused.
pub fn inclusion_path(
    alloc: Global,
    table: &CircomTable,
    kept: &Kept,
    index: usize,
) -> Result<Vec<[u8; 32]>, NodeRefusal>
    requires two { table.now.inputs ≡ 2 }
    requires inside { index < kept.now.size }
    ensures { (c : Parameters) → IsTableOf c table.now → (leaves : List Digest)
        → kept.now.size ≤ length leaves → KeepsBy (node_outcome c) leaves kept.now.digests
        → (empty : Digest) → GivesBy refusal_error (λ path. path.items)
        (all_of (inclusion_path (node_outcome c) empty index (take kept.now.size leaves)))
        result }
{
    let length = inclusion_length(kept.size() as u64, index as u64) as usize;
    let mut path = vec![in alloc; [0u8; 32]; length]?;
    write_path(table, kept, index, &mut path)?;
    Ok(path)
}

/// Returns the digests to put behind the stored ones of a log for more elements.
///
/// `Element` is refused where a digest that is hashed is not below the modulus.
pub fn appended_digests(
    alloc: Global,
    table: &CircomTable,
    kept: &Kept,
    elements: &[[u8; 32]],
) -> Result<Vec<[u8; 32]>, NodeRefusal>
    requires two { table.now.inputs ≡ 2 }
    requires fits { kept.now.size + length elements.now < 2 ^ 63 }
    ensures count { IfOk result (λ more. stored_count kept.now.size + length more.items
        ≡ stored_count (kept.now.size + length elements.now)) }

    // Those that are stored and those that are returned are the stored digests of the longer list.
    ensures grows { (c : Parameters) → IsTableOf c table.now → IfOk result (λ more.
        (leaves : List Digest) → length leaves ≡ kept.now.size
        → KeepsBy (node_outcome c) leaves kept.now.digests
        → KeepsBy (node_outcome c) (leaves ++ elements.now)
        (take (stored_count kept.now.size) kept.now.digests ++ more.items)) }

    // Behind a log of elements no element is refused.
    ensures refused { (c : Parameters) → IsTableOf c table.now → (leaves : List Digest)
        → length leaves ≡ kept.now.size → KeepsBy (node_outcome c) leaves kept.now.digests
        → list_all is_element leaves ≡ true → list_all is_element elements.now ≡ true
        → IfErr result (λ refusal. refusal ≡ Memory) }
{
    let size = kept.size();
    let count = stored_count(size + elements.len()) - stored_count(size);
    let mut more = vec![in alloc; [0u8; 32]; count]?;
    append_by(
        &mut CircomNodes::new(table),
        kept,
        size,
        elements,
        &mut more,
    )?;
    Ok(more)
}
