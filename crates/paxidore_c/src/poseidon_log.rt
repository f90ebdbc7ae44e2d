//! Trees over circomlib's hash of two elements, by a table in memory of the caller's: LeanIMTs, as Semaphore has them.
//!
//! An element is 32 bytes, the least first, of a number below the modulus of BN254's scalar field. A node without a sibling is
//! its own parent.

ghost use Rattle.std.specs.Prelude.{◌≡◌, ◌≢◌, ◌⊎◌, ◌<◌, ◌^◌, ℕ, [], length, pos, true, IfErr, IfOk, MatchResult, Ok};
ghost use Rattle.std.specs.List.{list_all};
ghost use Rattle.ark_sponge.specs.Permutation.{Parameters};
ghost use Rattle.circom.specs.Hash.{IsTableOf, SpellsTable, is_element, node_outcome};
ghost use Rattle.circom.specs.Nodes.{element_hashes};
ghost use Rattle.merkle_log.specs.Log.{merkle_tree_hash};
ghost use Rattle.merkle_log.specs.Received.{ShowsLogLeaf, inclusion_length};
ghost use Rattle.paxidore_calls.specs.Answer.{GivesCode, CallGivesBy, Hands, done_code, refused_of, verdict_code};
ghost use Rattle.paxidore_calls.specs.LogProofs.{proof_digests};
ghost use Rattle.paxidore_c.specs.PoseidonLog.{element_shown, elements_given, elements_path, elements_root, if_two, is_log_size, element_verdict};
ghost use Rattle.paxidore_calls.specs.declared.refused.Refused.TheVariants.{Count, Memory, Room};

use circom::{CircomNodes, CircomTable, are_elements};
use merkle_log::kept::is_size;
use merkle_log::verify_inclusion_bytes;
use paxidore_calls::buffer::{bytes_of_path, hand_over};
use paxidore_calls::refused::{Refused, verdict_code};
use std::alloc::Global;

/// Returns the table of two inputs that bytes are.
pub(crate) fn table_of_two(alloc: Global, bytes: &[u8]) -> Result<CircomTable, Refused>
    ensures two { IfOk result (λ table. table.inputs ≡ 2) }
    ensures read { (inputs : ℕ) (c : Parameters) → SpellsTable inputs c bytes.now
        → MatchResult result (λ table. (inputs ≡ 2) × IsTableOf c table)
        (λ refused. (refused ≡ Memory) ⊎ ((inputs ≢ 2) × (refused ≡ Count))) }
    ensures roomy { IfErr result (λ refused. refused ≢ Room) }
{
    match CircomTable::of(alloc, bytes) {
        Ok(table) => {
            if table.inputs() != 2 {
                return Err(Refused::Count);
            }
            Ok(table)
        }
        Err(error) => Err(Refused::from(error)),
    }
}

// Whether a log has so many elements.
fn is_log_size(count: usize) -> bool
    ensures test { result ≡ is_log_size count }
    ensures some { result ≡ true → 0 < count }
    ensures fits { result ≡ true → count < 2 ^ 63 }
{
    count > 0 && is_size(count)
}

// Whether elements that are handed in make a log.
fn are_given(elements: &[[u8; 32]]) -> Result<(), Refused>
    ensures given { CallGivesBy (λ _. elements.now) (elements_given elements.now) result }
    ensures some { IfOk result (λ _. 0 < length elements.now) }
    ensures fits { IfOk result (λ _. length elements.now < 2 ^ 63) }
    ensures all { IfOk result (λ _. list_all is_element elements.now ≡ true) }
{
    if !is_log_size(elements.len()) {
        return Err(Refused::Size);
    }
    if !are_elements(elements) {
        return Err(Refused::Invalid);
    }
    Ok(())
}

// The root of elements.
fn root_of(alloc: Global, table: &[u8], elements: &[[u8; 32]]) -> Result<[u8; 32], Refused>
    ensures given { (inputs : ℕ) (c : Parameters) → SpellsTable inputs c table.now
        → CallGivesBy (λ root. root) (elements_root inputs c elements.now) result }
    ensures root { (inputs : ℕ) (c : Parameters) → SpellsTable inputs c table.now
        → IfOk result (λ root. merkle_tree_hash (node_outcome c) [] elements.now ≡ Ok root) }
{
    let table = match table_of_two(alloc, table) {
        Ok(table) => table,
        Err(refused) => return Err(refused),
    };
    match are_given(elements) {
        Ok(()) => {}
        Err(refused) => return Err(refused),
    }
    match circom::root_of_elements(alloc, &table, elements) {
        Ok(root) => Ok(root),
        Err(refusal) => Err(Refused::from(refusal)),
    }
}

/// Writes the root of elements to `root`, in the hash of a table of two inputs. It keeps at most 64 digests at a time.
///
/// Answers: 0; else the first of `E_COUNT` for a table of another count of inputs, `E_SIZE` for no elements, `E_INVALID` for an
/// element that is not below the modulus; `E_MEMORY` in place of any. Before all these, a table that was cut or has no check sum is
/// `E_TRUNCATED`, and one that is damaged `E_INVALID`. A refusal leaves `root` as before.
#[unsafe(no_mangle)]
pub extern "C" fn paxidore_poseidon_root(
    alloc: Global,
    root: &mut [u8; 32],
    table: &[u8],
    elements: &[[u8; 32]],
) -> i32
    // Of a table for so many inputs, at the parameters of circomlib.
    ensures answer { (inputs : ℕ) (c : Parameters) → SpellsTable inputs c table.now
        → GivesCode (done_code (elements_root inputs c elements.now)) result }
    ensures root { (inputs : ℕ) (c : Parameters) → SpellsTable inputs c table.now
        → result ≡ pos 0 → merkle_tree_hash (node_outcome c) [] elements.now ≡ Ok root.new }
    ensures kept { result ≢ pos 0 → root.new ≡ root.old }
{
    match root_of(alloc, table, elements) {
        Ok(digest) => {
            *root = digest;
            0
        }
        Err(refused) => refused.code(),
    }
}

// The bytes of the path of an index in elements.
fn path_of(
    alloc: Global,
    table: &[u8],
    elements: &[[u8; 32]],
    index: usize,
) -> Result<Vec<u8>, Refused>
    ensures { (inputs : ℕ) (c : Parameters) → SpellsTable inputs c table.now
        → CallGivesBy (λ bytes. bytes.items) (elements_path inputs c elements.now index) result }
{
    let table = match table_of_two(alloc, table) {
        Ok(table) => table,
        Err(refused) => return Err(refused),
    };
    match are_given(elements) {
        Ok(()) => {}
        Err(refused) => return Err(refused),
    }
    if index >= elements.len() {
        return Err(Refused::Index);
    }
    let path = match circom::path_of_elements(alloc, &table, elements, index) {
        Ok(path) => path,
        Err(refusal) => return Err(Refused::from(refusal)),
    };
    bytes_of_path(alloc, &path)
}

/// Writes the bytes of the path of an index in elements to the front of `path`, and their count: its digests, from the element
/// up.
///
/// Answers: 0; else the first of those of `paxidore_poseidon_root`, `E_INDEX`, `E_ROOM`, which alone writes the count that is
/// needed; `E_MEMORY` in place of any. Any other refusal leaves both buffers as before.
#[unsafe(no_mangle)]
pub extern "C" fn paxidore_poseidon_path(
    alloc: Global,
    path: &mut [u8],
    path_len: &mut usize,
    table: &[u8],
    elements: &[[u8; 32]],
    index: usize,
) -> i32
    ensures path { (inputs : ℕ) (c : Parameters) → SpellsTable inputs c table.now
        → Hands (elements_path inputs c elements.now index)
        path.old path.new path_len.old path_len.new result }
    ensures kept { result ≢ pos 0 → path.new ≡ path.old }
{
    hand_over(path_of(alloc, table, elements, index), path, path_len)
}

// Returns the code of the same by a table of two inputs.
fn verify_by(
    alloc: Global,
    table: &CircomTable,
    root: &[u8; 32],
    size: usize,
    index: usize,
    element: &[u8; 32],
    path: &[u8],
) -> i32
    requires { table.now.inputs ≡ 2 }
    ensures answer { (c : Parameters) → IsTableOf c table.now
        → GivesCode (verdict_code (element_verdict c root.now size index element.now path.now))
        result }
    ensures shows { (c : Parameters) → IsTableOf c table.now
        → result ≡ pos 0 → ShowsLogLeaf (element_hashes (node_outcome c)) root.now size index
        element.now (proof_digests (inclusion_length size index) path.now) }
{
    if size == 0 {
        return Refused::Size.code();
    }
    if index >= size {
        return Refused::Index.code();
    }
    let (size, index) = (size as u64, index as u64);
    let nodes = CircomNodes::new(table);
    verdict_code(verify_inclusion_bytes(alloc, &nodes, root, size, index, element, path))
}

/// Returns whether the bytes of a path show an element at an index of a log with this root and size.
///
/// Answers: 0 for a yes, 1 for another root; else the first of `E_COUNT` for a table of another count of inputs, `E_SIZE` for no
/// elements, `E_INDEX`, `E_TRUNCATED`, `E_INVALID` for bytes of more digests than such a path has, and for an element or a digest that is not below
/// the modulus; `E_MEMORY` in place of any. A table that was cut or damaged is refused as by `paxidore_poseidon_root`.
#[unsafe(no_mangle)]
pub extern "C" fn paxidore_poseidon_verify(
    alloc: Global,
    table: &[u8],
    root: &[u8; 32],
    size: usize,
    index: usize,
    element: &[u8; 32],
    path: &[u8],
) -> i32
    ensures answer { (inputs : ℕ) (c : Parameters) → SpellsTable inputs c table.now
        → GivesCode (verdict_code (element_shown inputs c root.now size index element.now path.now))
        result }

    // 0 says: in every log with this root and size the element stands at the index, or at some level the path's pair and that of
    // the log's tree differ and have one hash.
    ensures shows { (inputs : ℕ) (c : Parameters) → SpellsTable inputs c table.now
        → result ≡ pos 0 → ShowsLogLeaf (element_hashes (node_outcome c)) root.now size index
        element.now (proof_digests (inclusion_length size index) path.now) }
{
    match table_of_two(alloc, table) {
        Ok(table) => verify_by(alloc, &table, root, size, index, element, path),
        Err(refused) => refused.code(),
    }
}
