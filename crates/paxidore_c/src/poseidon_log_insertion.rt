//! Many elements inserted into a log over circomlib's hash with one proof, for whoever has the old root and the size alone:
//! Semaphore's `insertMany`.

ghost use Rattle.std.specs.Prelude.{◌≡◌, ◌≢◌, ◌≤◌, ℕ, List, count_ones, length, take, pos, Some, IfOk, Ok};
ghost use Rattle.std.specs.List.{flat_map};
ghost use Rattle.ark_base.specs.Digits.{itself};
ghost use Rattle.ark_paths.specs.Pair.{Digest};
ghost use Rattle.ark_sponge.specs.Permutation.{Parameters};
ghost use Rattle.circom.specs.Hash.{IsTableOf, SpellsTable, node_outcome};
ghost use Rattle.merkle_log.specs.Frontier.{IsFrontier};
ghost use Rattle.merkle_log.specs.Insertion.{ShowsInsertion};
ghost use Rattle.merkle_log.specs.Kept.{KeepsBy};
ghost use Rattle.merkle_log.specs.Log.{NodeHash};
ghost use Rattle.paxidore_calls.specs.Answer.{CallGivesBy, GivesCode, Hands, refusal_code};
ghost use Rattle.paxidore_calls.specs.LogProofs.{proof_digests};
ghost use Rattle.paxidore_c.specs.PoseidonInsertion.{elements_inserted, found_code, if_some_kept, root_inserted};
ghost use Rattle.paxidore_calls.specs.declared.refused.Refused.TheVariants.{Memory};

use crate::log_keeper::can_take;
use crate::poseidon_log::table_of_two;
use circom::{CircomNodes, CircomTable, are_elements};
use merkle_log::kept::Kept;
use merkle_log::root_after_insertion_bytes;
use paxidore_calls::buffer::hand_over_digests;
use paxidore_calls::refused::Refused;
use std::alloc::Global;

// Writes the bytes of the proof of an insertion, by way of its digests.
fn hand_over_insertion(
    kept: &Kept,
    digests: &mut [[u8; 32]],
    proof: &mut [u8],
    proof_len: &mut usize,
) -> i32
    requires { length digests.old ≡ count_ones kept.now.size }
    ensures proof { (hash : NodeHash) (leaves peaks : List Digest) → kept.now.size ≤ length leaves
        → KeepsBy hash leaves kept.now.digests
        → IsFrontier hash (take kept.now.size leaves) kept.now.size peaks
        → Hands (Ok (flat_map itself peaks)) proof.old proof.new proof_len.old proof_len.new
        result }
    ensures given { (bytes : List ℕ)
        × Hands (Ok bytes) proof.old proof.new proof_len.old proof_len.new result }
    ensures no_memory { result ≢ refusal_code Memory }
{
    kept.write_insertion_proof(digests);
    hand_over_digests(digests, proof, proof_len)
}

/// Writes the bytes of the proof of an insertion behind the first `size` elements of a log to the front of `proof`, and their count:
/// the roots of the complete trees into which these fall, the largest first.
///
/// Answers: 0; else the first of `E_SIZE` for fewer digests than such a log has stored and for no elements, `E_ROOM`, which alone
/// writes the count that is needed. Any other refusal leaves both buffers as before.
#[unsafe(no_mangle)]
pub extern "C" fn paxidore_poseidon_log_insertion(
    proof: &mut [u8],
    proof_len: &mut usize,
    kept: &[[u8; 32]],
    size: usize,
) -> i32
    // Of a list of at least `size` elements whose stored digests are kept, by any hash of pairs, it is the first ones' frontier.
    ensures proof { (hash : NodeHash) (leaves peaks : List Digest) → size ≤ length leaves
        → KeepsBy hash leaves kept.now → IsFrontier hash (take size leaves) size peaks
        → Hands (if_some_kept size kept.now (Ok (flat_map itself peaks))) proof.old proof.new
        proof_len.old proof_len.new result }

    // Whatever is kept, some bytes are handed over.
    ensures given { (bytes : List ℕ) × (Hands (if_some_kept size kept.now (Ok bytes)) proof.old
        proof.new proof_len.old proof_len.new result) }
    ensures no_memory { result ≢ refusal_code Memory }
{
    let Some(kept) = Kept::of(size, kept) else {
        return Refused::Size.code();
    };
    if size == 0 {
        return Refused::Size.code();
    }
    let mut digests = [[0; 32]; 64];
    let length = size.count_ones() as usize;
    hand_over_insertion(&kept, &mut digests[..length], proof, proof_len)
}

// Returns the root after an insertion by a table of two inputs.
fn inserted_by(
    alloc: Global,
    table: &CircomTable,
    root: &[u8; 32],
    size: usize,
    elements: &[[u8; 32]],
    proof: &[u8],
) -> Result<Option<[u8; 32]>, Refused>
    requires { table.now.inputs ≡ 2 }
    ensures given { (c : Parameters) → IsTableOf c table.now → CallGivesBy (λ made. made)
        (root_inserted c root.now size elements.now proof.now) result }
    ensures shows { (c : Parameters) → IsTableOf c table.now → IfOk result
        (λ made. (new : Digest) → made ≡ Some new → ShowsInsertion (node_outcome c) root.now
        size (proof_digests (count_ones size) proof.now) elements.now new) }
{
    if size == 0 || !can_take(size, elements.len()) {
        return Err(Refused::Size);
    }
    if !are_elements(elements) {
        return Err(Refused::Invalid);
    }
    let nodes = CircomNodes::new(table);
    match root_after_insertion_bytes(alloc, &nodes, root, size, proof, elements) {
        Ok(made) => Ok(made),
        Err(error) => Err(Refused::from(error)),
    }
}

// Returns the same by the bytes of a table.
fn inserted_of(
    alloc: Global,
    table: &[u8],
    root: &[u8; 32],
    size: usize,
    elements: &[[u8; 32]],
    proof: &[u8],
) -> Result<Option<[u8; 32]>, Refused>
    ensures given { (inputs : ℕ) (c : Parameters) → SpellsTable inputs c table.now
        → CallGivesBy (λ made. made) (elements_inserted inputs c root.now size elements.now
        proof.now) result }
    ensures shows { (inputs : ℕ) (c : Parameters) → SpellsTable inputs c table.now → IfOk result
        (λ made. (new : Digest) → made ≡ Some new → ShowsInsertion (node_outcome c) root.now
        size (proof_digests (count_ones size) proof.now) elements.now new) }
{
    match table_of_two(alloc, table) {
        Ok(table) => inserted_by(alloc, &table, root, size, elements, proof),
        Err(refused) => Err(refused),
    }
}

/// Writes the root of a log with elements behind it to `new_root`, by the log's root and size and the bytes of a proof, which are the
/// roots of the complete trees into which its elements fall, the largest first.
///
/// Answers: 0; 1 where the proof does not make the old root; else the first of `E_COUNT` for a table of another count of inputs,
/// `E_SIZE` for a log of no elements and for a new size of 2^63 and above, `E_INVALID` for an element that is not below the modulus,
/// `E_TRUNCATED`, `E_INVALID` for bytes of more digests than the size has ones, and for a digest that is not below the modulus;
/// `E_MEMORY` in place of any. A table that was cut or damaged is refused as by `paxidore_poseidon_root`. Each but 0 leaves
/// `new_root` as before.
#[unsafe(no_mangle)]
pub extern "C" fn paxidore_poseidon_log_verify_insertion(
    alloc: Global,
    new_root: &mut [u8; 32],
    table: &[u8],
    root: &[u8; 32],
    size: usize,
    elements: &[[u8; 32]],
    proof: &[u8],
) -> i32
    ensures answer { (inputs : ℕ) (c : Parameters) → SpellsTable inputs c table.now
        → GivesCode (found_code (elements_inserted inputs c root.now size elements.now
        proof.now)) result }
    ensures root { (inputs : ℕ) (c : Parameters) → SpellsTable inputs c table.now → result ≡ pos 0
        → elements_inserted inputs c root.now size elements.now proof.now
        ≡ Ok (Some new_root.new) }

    // 0 says: every log with the old root and this size has the new root with the elements behind it, or on some level the proof's
    // pair and that of the log's tree differ and have one hash.
    ensures shows { (inputs : ℕ) (c : Parameters) → SpellsTable inputs c table.now → result ≡ pos 0
        → ShowsInsertion (node_outcome c) root.now size
        (proof_digests (count_ones size) proof.now) elements.now new_root.new }
    ensures kept { result ≢ pos 0 → new_root.new ≡ new_root.old }
{
    match inserted_of(alloc, table, root, size, elements, proof) {
        Ok(Some(made)) => {
            *new_root = made;
            0
        }
        Ok(None) => 1,
        Err(refused) => refused.code(),
    }
}
