//! A group as Semaphore keeps it: a LeanIMT of members, some of whom leave.
//!
//! The digests of the group's complete subtrees stand in a list of its owner's, as `merkle_log::kept` has them.

use ark_crypto_primitives::Error;
use ark_crypto_primitives::log::lean_imt::{
    CircomTable, Kept, NodeRefusal, appended_digests, are_elements, change_element, circom_table,
    inclusion_path, kept_log_root,
};
use std::alloc::Global;

/// Why a group stays as it was.
#[derive(Clone, Copy, Debug, PartialEq, Eq)]
pub enum Stays {
    /// The table is not that of two inputs, or the digests are too few for so many members.
    Damaged,
    /// No member stands at this index.
    NoMember(usize),
    /// The hash refused an element, or memory.
    Refused(NodeRefusal),
}

/// What stands at a member's index once the member has left, as Semaphore writes it.
const NOBODY: [u8; 32] = [0; 32];

/// Returns the table of the hash of two, which is made once. The only error is `OutOfMemory`.
pub fn hash_of_two(alloc: Global) -> Result<CircomTable, Error> {
    CircomTable::of(alloc, &circom_table(alloc, 2)?)
}

/// Puts members behind the others, and returns how many there are.
///
/// Errors, which leave the group as it was: `Damaged`; `Refused`.
pub fn join(
    alloc: Global,
    table: &CircomTable,
    digests: &mut Vec<[u8; 32]>,
    size: usize,
    members: &[[u8; 32]],
) -> Result<usize, Stays> {
    let Some(kept) = Kept::of(size, digests) else {
        return Err(Stays::Damaged);
    };
    if table.inputs() != 2 || members.len() > 1 << 32 || size > 1 << 32 {
        return Err(Stays::Damaged);
    }
    if !are_elements(members) {
        return Err(Stays::Refused(NodeRefusal::Element));
    }
    let more = match appended_digests(alloc, table, &kept, members) {
        Ok(more) => more,
        Err(refusal) => return Err(Stays::Refused(refusal)),
    };
    match digests.extend_from_slice(&more) {
        Ok(()) => Ok(size + members.len()),
        Err(_) => Err(Stays::Refused(NodeRefusal::Memory)),
    }
}

/// Returns the group's root. `None` for a group without members.
///
/// Errors: `Damaged`; `Refused`.
pub fn root(
    table: &CircomTable,
    digests: &[[u8; 32]],
    size: usize,
) -> Result<Option<[u8; 32]>, Stays> {
    let Some(kept) = Kept::of(size, digests) else {
        return Err(Stays::Damaged);
    };
    if table.inputs() != 2 {
        return Err(Stays::Damaged);
    }
    if size == 0 {
        return Ok(None);
    }
    match kept_log_root(table, &kept) {
        Ok(root) => Ok(Some(root)),
        Err(refusal) => Err(Stays::Refused(refusal)),
    }
}

/// Returns a member's path, from the member up.
///
/// Errors: `Damaged`; `NoMember`; `Refused`.
pub fn path(
    alloc: Global,
    table: &CircomTable,
    digests: &[[u8; 32]],
    size: usize,
    index: usize,
) -> Result<Vec<[u8; 32]>, Stays> {
    let Some(kept) = Kept::of(size, digests) else {
        return Err(Stays::Damaged);
    };
    if table.inputs() != 2 {
        return Err(Stays::Damaged);
    }
    if index >= size {
        return Err(Stays::NoMember(index));
    }
    match inclusion_path(alloc, table, &kept, index) {
        Ok(path) => Ok(path),
        Err(refusal) => Err(Stays::Refused(refusal)),
    }
}

/// Takes a member out. The others keep their indexes.
///
/// Errors, which leave the group as it was: `Damaged`; `NoMember`; `Refused`.
pub fn leave(
    table: &CircomTable,
    digests: &mut [[u8; 32]],
    size: usize,
    index: usize,
) -> Result<(), Stays> {
    if table.inputs() != 2 || Kept::of(size, digests).is_none() {
        return Err(Stays::Damaged);
    }
    if index >= size {
        return Err(Stays::NoMember(index));
    }
    match change_element(table, digests, size, index, &NOBODY) {
        Ok(()) => Ok(()),
        Err(refused) => Err(Stays::Refused(NodeRefusal::from(refused))),
    }
}
