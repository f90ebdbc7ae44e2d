//! circomlib's hash of 1 to 16 elements of the scalar field of BN254, by a table in memory of the caller's.

ghost use Rattle.std.specs.Prelude.{◌≡◌, ◌≢◌, ◌⊎◌, ◌<◌, ◌≤◌, ◌++◌, ℕ, List, length, drop, pos, IfOk, IfErr, Result, Ok, Err};
ghost use Rattle.ark_sponge.specs.Permutation.{Parameters};
ghost use Rattle.circom.specs.Hash.{IsCircomRefused, SpellsTable, hash_outcome};
ghost use Rattle.paxidore_calls.specs.Answer.{GivesCode, CallGivesBy, Hands, done_code, refusal_code};
ghost use Rattle.paxidore_calls.specs.declared.refused.Refused.{Refused as Why};
ghost use Rattle.paxidore_calls.specs.declared.refused.Refused.TheVariants.{Count, Memory, Other, Room};
ghost use Rattle.paxidore_c.specs.Poseidon.{IsCircomTable, hashing_refused, poseidon_hash, refused_inputs};

use ark_base::error::Error;
use circom::{ByteOrder, CircomTable, circom_table};
use paxidore_calls::buffer::hand_over;
use paxidore_calls::refused::Refused;
use std::alloc::Global;

// Returns the bytes of the table of so many inputs.
fn table_for(alloc: Global, inputs: usize) -> Result<Vec<u8>, Refused>
    ensures made { IfOk result (λ bytes. IsCircomTable inputs bytes.items) }
    ensures none { (inputs < 1) ⊎ (16 < inputs) → result ≡ Err Count }
    ensures refused { 1 ≤ inputs → inputs ≤ 16 → IfErr result (λ refused. (refused ≡ Memory)
        ⊎ (IsCircomRefused inputs × (refused ≡ Other))) }
{
    match circom_table(alloc, inputs) {
        Ok(bytes) => Ok(bytes),
        Err(error) => Err(refused_inputs(error)),
    }
}

/// Writes the table of circomlib's hash of so many inputs to the front of `table`, and its count of bytes to `table_len`.
/// It runs the generator of the constants, which takes milliseconds.
///
/// Answers: 0; `E_COUNT` for another count than 1 to 16; `E_ROOM`, where `table_len` is what is needed; -99 for a matrix that is refused,
/// which none of these is; `E_MEMORY` in place of any.
#[unsafe(no_mangle)]
pub extern "C" fn paxidore_poseidon_table(
    alloc: Global,
    table: &mut [u8],
    table_len: &mut usize,
    inputs: usize,
) -> i32
    // Such a table is handed over, or there is none for so many inputs.
    ensures handed { (made : Result (List ℕ) Why) × IfOk made (IsCircomTable inputs)
        × Hands made table.old table.new table_len.old table_len.new result }

    // What is written is such a table.
    ensures ready { result ≡ pos 0 → (bytes : List ℕ) × IsCircomTable inputs bytes
        × (table.new ≡ bytes ++ drop (length bytes) table.old)
        × (table_len.new ≡ length bytes) }
    ensures none { (inputs < 1) ⊎ (16 < inputs) → GivesCode (refusal_code Count) result }
    ensures codes { 1 ≤ inputs → inputs ≤ 16
        → (result ≡ pos 0) ⊎ (result ≡ refusal_code Room) ⊎ (result ≡ refusal_code Memory)
        ⊎ (IsCircomRefused inputs × (result ≡ refusal_code Other)) }
    ensures kept { result ≢ pos 0 → table.new ≡ table.old }
{
    hand_over(table_for(alloc, inputs), table, table_len)
}

// Why there is no hash.
fn refused_inputs(error: Error) -> Refused
    ensures { result ≡ refused_inputs error }
{
    match error {
        Error::IncorrectInputLength(_) => Refused::Count,
        other => Refused::from(other),
    }
}

// Returns the hash of elements, by the bytes of a table.
fn hash_in(
    alloc: Global,
    order: ByteOrder,
    table: &[u8],
    inputs: &[u8],
) -> Result<[u8; 32], Refused>
    ensures { (count : ℕ) (c : Parameters) → SpellsTable count c table.now
        → CallGivesBy (λ digest. digest)
        (hashing_refused (hash_outcome order c inputs.now)) result }
{
    let table = match CircomTable::of(alloc, table) {
        Ok(table) => table,
        Err(error) => return Err(refused_inputs(error)),
    };
    match table.hash(order, inputs) {
        Ok(digest) => Ok(digest),
        Err(error) => Err(refused_inputs(error)),
    }
}

// The same in the byte order that a number names.
fn hash_in_order(
    alloc: Global,
    order: u32,
    table: &[u8],
    inputs: &[u8],
) -> Result<[u8; 32], Refused>
    ensures { (count : ℕ) (c : Parameters) → SpellsTable count c table.now
        → CallGivesBy (λ digest. digest) (poseidon_hash order c inputs.now) result }
{
    match order {
        1 => hash_in(alloc, ByteOrder::LittleEndian, table, inputs),
        2 => hash_in(alloc, ByteOrder::BigEndian, table, inputs),
        _ => Err(Refused::Invalid),
    }
}

/// Writes the hash of elements to `digest`. Each element is 32 bytes in the byte order that a number names, and so is the hash.
///
/// Answers: 0; else the first of `E_INVALID` for a number that names no order, `E_TRUNCATED` for bytes that are not whole
/// elements, `E_COUNT` for another count of elements than the table's, `E_INVALID` for an element that is not below the
/// modulus; `E_MEMORY` in place of any. Before the elements are read, a table that was cut or has no check sum is `E_TRUNCATED`, and
/// one that is damaged `E_INVALID`. A refusal leaves `digest` as before.
#[unsafe(no_mangle)]
pub extern "C" fn paxidore_poseidon(
    alloc: Global,
    digest: &mut [u8; 32],
    order: u32,
    table: &[u8],
    inputs: &[u8],
) -> i32
    // Of a table for so many inputs, at the parameters of circomlib.
    ensures answer { (count : ℕ) (c : Parameters) → SpellsTable count c table.now
        → GivesCode (done_code (poseidon_hash order c inputs.now)) result }
    ensures hash { (count : ℕ) (c : Parameters) → SpellsTable count c table.now
        → result ≡ pos 0 → poseidon_hash order c inputs.now ≡ Ok digest.new }
    ensures kept { result ≢ pos 0 → digest.new ≡ digest.old }
{
    match hash_in_order(alloc, order, table, inputs) {
        Ok(hash) => {
            *digest = hash;
            0
        }
        Err(refused) => refused.code(),
    }
}
