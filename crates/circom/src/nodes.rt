//! The hash of a log's pairs, by a table of two inputs.

ghost use Rattle.std.specs.Prelude.{◌≡◌};
ghost use Rattle.circom.specs.Hash.{table_outcome};
ghost use Rattle.circom.specs.Decided.{element-decided, table-decided};
ghost use Rattle.circom.specs.Nodes.{element_hashes, no_element_error};

use crate::refusal::NoElement;
use crate::table::{CircomTable, is_element};
use ark_base::error::{Error, SerializationError};
use ark_paths::hasher::TreeHasher;
use merkle_log::nodes::NodeHasher;
use std::alloc::Global;

/// Hashes pairs of elements by a table of two inputs, and counts them. It asks for no memory.
#[derive(Drop)]
pub struct CircomNodes<'a> {
    table: &'a CircomTable,
    calls: usize,
    ghost two: { table.now.inputs ≡ 2 },
}

impl<'a> CircomNodes<'a> {
    /// Borrows a table. No pair was hashed yet.
    pub fn new(table: &'a CircomTable) -> CircomNodes<'a>
        requires { table.now.inputs ≡ 2 }
        ensures hash { ⟦<Self as NodeHasher<[u8; 32]>>⟧.hash result ≡ table_outcome table.now }
        ensures none { ⟦<Self as NodeHasher<[u8; 32]>>⟧.counted result ≡ 0 }
        ensures hashes { ⟦<Self as TreeHasher<[u8; 32], [u8; 32]>>⟧.hashes result
            ≡ element_hashes (table_outcome table.now) }
    {
        CircomNodes { table, calls: 0 }
    }
}

impl<'a> NodeHasher<[u8; 32]> for CircomNodes<'a> {
    type Refusal = NoElement;

    ghost hash = { λ own. table_outcome own.table.now };

    ghost counted = { λ own. own.calls };

    ghost why = { no_element_error };

    fn node(&mut self, left: &[u8; 32], right: &[u8; 32]) -> Result<[u8; 32], NoElement> {
        self.calls = self.calls.saturating_add(1);
        match self.table.hash_two(left, right) {
            Ok(digest) => Ok(digest),
            Err(_) => Err(NoElement),
        }
    }

    fn copied(&self, digest: &[u8; 32]) -> Result<[u8; 32], NoElement> {
        Ok(*digest)
    }
}

impl<'a> TreeHasher<[u8; 32], [u8; 32]> for CircomNodes<'a> {
    type Leaf = [u8; 32];

    ghost hashes = { λ own. element_hashes (table_outcome own.table.now) };

    fn leaf(&self, _alloc: Global, leaf: &[u8; 32]) -> Result<[u8; 32], Error> {
        if is_element(leaf) {
            Ok(*leaf)
        } else {
            Err(Error::SerializationError(SerializationError::InvalidData))
        }
    }

    fn bottom(&self, alloc: Global, left: &[u8; 32], right: &[u8; 32]) -> Result<[u8; 32], Error> {
        self.upper(alloc, left, right)
    }

    fn upper(&self, _alloc: Global, left: &[u8; 32], right: &[u8; 32]) -> Result<[u8; 32], Error> {
        self.table.hash_two(left, right)
    }

    ghost decided = { λ own. record {
      leaf = element-decided;
      bottom = table-decided own.table.now;
      upper = table-decided own.table.now;
    } };
}
