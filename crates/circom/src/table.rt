//! Tables, as values and as bytes.

ghost use Rattle.std.specs.Prelude.{◌≡◌, ◌⊎◌, ◌<◌, ◌≤◌, ◌+◌, ◌*◌, ◌++◌, ℕ, List, map, length, All, IfErr, IfOk, OnOk, MatchResult, Ok, Err};
ghost use Rattle.ark_base.specs.declared.error.Error.TheVariants.{IncorrectInputLength, OutOfMemory};
ghost use Rattle.ark_sponge.specs.Permutation.{Parameters};
ghost use Rattle.ark_sponge.specs.Table.{IsTable};
ghost use Rattle.circom.specs.Frame.{table_count, table_end};
ghost use Rattle.circom.specs.Hash.{circom_instance, hash_outcome, is_element, IsTableFault, IsTableIn, IsTableOf, modulus, node_outcome, SpellsTable, table_outcome};
ghost use Rattle.poseidon_grain.specs.Constants.{IsMatrixFault};

use crate::elements::{ByteOrder, element_bytes, element_of};
use crate::forms::{put_forms, read_forms};
use crate::frame::{count_for, inputs_of, put_sum, shape_for};
use crate::hash::{hash_elements, hash_state};
use ark_base::error::{Error, SerializationError};
use ark_groups::ff::{Field, Valued};
use ark_poseidon_parameters::Power;
use ark_sponge::poseidon::{PoseidonConfig, ShortPermutation};
use ark_wide_fields::{Bn254Fr, is_below, words_of};
use poseidon_grain::circom_parameters;
use std::alloc::Global;
use std::marker::Model;

/// The table of circomlib's hash of 1 to 16 inputs.
#[derive(Drop)]
pub struct CircomTable {
    inputs: usize,
    short: ShortPermutation<Bn254Fr>,
}

impl Model for CircomTable {
    ghost use Rattle.std.specs.Prelude.{◌≡◌, ◌≤◌, ◌+◌, length};
    ghost use Rattle.circom.specs.Hash.{TableValue};

    ghost Value = { TableValue };

    ghost view = { λ table. record { inputs = table.inputs; parts = table.short } };

    ghost invariant = { λ table. (1 ≤ table.inputs) × (table.inputs ≤ 16)
        × (length table.short.mds ≡ table.inputs + 1) };
}

/// Returns whether 32 bytes are an element: a number below the modulus, the least byte first.
pub fn is_element(bytes: &[u8; 32]) -> bool
    ensures { result ≡ is_element bytes.now }
{
    is_below(words_of(bytes), <Bn254Fr as Field>::modulus())
}

// Returns the elements of the table of so many inputs, at its parameters. These have a table of so many unless memory was refused
// when they were prepared: tests make all 16.
fn elements_for(
    alloc: Global,
    inputs: usize,
    parameters: &PoseidonConfig<Bn254Fr>,
) -> Result<Vec<Bn254Fr>, Error>
    requires some { 1 ≤ inputs }
    requires few { inputs ≤ 16 }
    ensures table { IfOk result (λ table.
        IsTable modulus parameters.now (map ⟦<Bn254Fr as Valued>⟧.value table.items)) }
    ensures count { IfOk result (λ table. length table.items ≡ table_count inputs) }
    ensures refused { IfErr result (λ error. error ≡ OutOfMemory) }
{
    match parameters.table(alloc) {
        Ok(table) => {
            if table.len() == count_for(inputs) {
                Ok(table)
            } else {
                Err(Error::OutOfMemory)
            }
        }
        Err(_) => Err(Error::OutOfMemory),
    }
}

/// Returns the bytes of the table of circomlib's hash of so many inputs: the count in a byte, the table's elements by their Montgomery
/// forms, in 32 bytes each, and a check sum of eight bytes. It runs the generator of the constants, which takes milliseconds.
///
/// Errors: `IncorrectInputLength` for another count than 1 to 16; `ParameterShape` for a matrix that is refused, which none of
/// these is; `OutOfMemory`.
pub fn circom_table(alloc: Global, inputs: usize) -> Result<Vec<u8>, Error>
    ensures made { IfOk result (λ bytes. (c : Parameters) × SpellsTable inputs c bytes.items) }
    ensures long { IfOk result (λ bytes. length bytes.items ≡ table_end inputs + 8) }
    ensures none { (inputs < 1) ⊎ (16 < inputs) → result ≡ Err (IncorrectInputLength inputs) }
    ensures refused { 1 ≤ inputs → inputs ≤ 16
        → IfErr result (IsMatrixFault (circom_instance inputs)) }
{
    if inputs < 1 || inputs > 16 {
        return Err(Error::IncorrectInputLength(inputs));
    }
    let parameters = circom_parameters(alloc, inputs)?;
    let table = elements_for(alloc, inputs, &parameters)?;
    let mut bytes = Vec::new(alloc);
    bytes.push(inputs as u8)?;
    put_forms(&mut bytes, &table)?;
    put_sum(&mut bytes)?;
    Ok(bytes)
}

impl CircomTable {
    /// Reads the table that bytes are.
    ///
    /// Errors, for bytes that `circom_table` does not make: `Truncated` for no bytes, and for fewer than the table of their count of
    /// inputs has, as one that was cut or has no check sum; `InvalidData` for another count of inputs than 1 to 16, more bytes,
    /// another check sum, or an element that is not below the modulus. `OutOfMemory`.
    pub fn of(alloc: Global, bytes: &[u8]) -> Result<CircomTable, Error>
        ensures spelled { (inputs : ℕ) (c : Parameters) → SpellsTable inputs c bytes.now
            → MatchResult result (λ table. (table.inputs ≡ inputs) × IsTableOf c table)
            (λ error. error ≡ OutOfMemory) }
        ensures found { IfOk result (IsTableIn bytes.now) }
        ensures refused { IfErr result (λ error.
            (error ≡ OutOfMemory) ⊎ IsTableFault bytes.now error) }
    {
        let inputs = match inputs_of(bytes) {
            Ok(inputs) => inputs,
            Err(error) => return Err(error),
        };
        let (_, rest) = bytes.split_at(1);
        let (numbers, _) = rest.split_at(32 * count_for(inputs));
        let elements = match read_forms(alloc, numbers) {
            Ok(elements) => elements,
            Err(error) => return Err(error),
        };
        let short = ShortPermutation::of_table(alloc, shape_for(inputs), &elements)?;
        Ok(CircomTable { inputs, short })
    }

    /// Returns the count of inputs, from 1 to 16.
    pub fn inputs(&self) -> usize
        ensures count { result ≡ self.now.inputs }
        ensures some { 1 ≤ result }
        ensures few { result ≤ 16 }
    {
        self.inputs
    }

    /// Returns the hash of elements, 32 bytes each, as bytes in the same order. It allocates nothing.
    ///
    /// Errors: `Truncated` for bytes that are not whole elements, `IncorrectInputLength` for another count of elements than the
    /// table's, `InvalidData` for one that is not below the modulus.
    pub fn hash(&self, order: ByteOrder, inputs: &[u8]) -> Result<[u8; 32], Error>
        ensures { (c : Parameters) → IsTableOf c self.now
            → MatchResult result (λ digest. hash_outcome order c inputs.now ≡ Ok digest)
            (λ error. hash_outcome order c inputs.now ≡ Err error) }
    {
        if inputs.len() % 32 != 0 {
            return Err(Error::SerializationError(SerializationError::Truncated));
        }
        let count = inputs.len() / 32;
        if count != self.inputs() {
            return Err(Error::IncorrectInputLength(count));
        }
        let mut state = [Bn254Fr::zero(); 17];
        let mut scratch = [Bn254Fr::zero(); 17];
        let hashed = hash_elements::<Bn254Fr, Power>(
            &self.short,
            order,
            inputs,
            count,
            &mut state[..count + 1],
            &mut scratch[..count + 1],
        );
        match hashed {
            Ok(digest) => Ok(element_bytes(order, digest)),
            Err(error) => Err(error),
        }
    }

    /// Returns the hash of two elements, left first, with the least byte first. It allocates nothing.
    ///
    /// Errors: `InvalidData` for an element that is not below the modulus, `IncorrectInputLength` for a table of another count.
    pub fn hash_two(&self, left: &[u8; 32], right: &[u8; 32]) -> Result<[u8; 32], Error>
        ensures hash { (c : Parameters) → IsTableOf c self.now
            → MatchResult result (λ digest. node_outcome c left.now right.now ≡ Ok digest)
            (λ error. node_outcome c left.now right.now ≡ Err error) }

        // Of any table, by what it runs by.
        ensures table { MatchResult result
            (λ digest. table_outcome self.now left.now right.now ≡ Ok digest)
            (λ error. table_outcome self.now left.now right.now ≡ Err error) }
    {
        let left = match element_of(ByteOrder::LittleEndian, left) {
            Ok(element) => element,
            Err(error) => return Err(error),
        };
        let right = match element_of(ByteOrder::LittleEndian, right) {
            Ok(element) => element,
            Err(error) => return Err(error),
        };
        if self.inputs() != 2 {
            return Err(Error::IncorrectInputLength(2));
        }
        let mut state = [Bn254Fr::zero(), left, right];
        let mut scratch = [Bn254Fr::zero(); 3];
        let digest = hash_state::<Bn254Fr, Power>(&self.short, &mut state, &mut scratch);
        Ok(element_bytes(ByteOrder::LittleEndian, digest))
    }
}
