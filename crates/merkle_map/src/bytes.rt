//! Trees as bytes: each tree has one spelling, and no other bytes are read.

ghost use Rattle.std.specs.Prelude.{◌≡◌, ◌<◌, ◌≤◌, ◌-◌, ◌++◌, drop, length, OnOk, IfErr, IfOk, Ok};
ghost use Rattle.ark_base.specs.Outcome.{AnswersBy, IsMemory};
ghost use Rattle.merkle_map.specs.Bytes.{all_have as all_have_in, is_placed as is_placed_in, invalid as invalid_error, itself, spelled, string_outcome, string_read, tree_of_bytes, tree_read, truncated as truncated_error, IsOf32};
ghost use Rattle.merkle_map.specs.Changes.{entry_of};
ghost use Rattle.merkle_map.specs.Kept.{IsKept};
ghost use Rattle.merkle_map.specs.Map.{MapHashes};
ghost use Rattle.merkle_map.specs.Parts.{shape};
ghost use Rattle.merkle_map.specs.Pruned.{FitsKeys};
ghost use Rattle.merkle_map.specs.Tree.{weight, Hidden, IsKey, One};

use crate::key::has_bit;
use crate::part::{Entry, Part, Sides, behind, fork, one};
use ark_base::error::{Error, SerializationError};
use std::alloc::Global;

// Writes 32 bytes behind others. The only error is `OutOfMemory`.
pub fn push_string(string: &[u8; 32], dest: &mut Vec<u8>) -> Result<(), Error>
    ensures written { OnOk result (dest.new.items ≡ dest.old.items ++ string.now) }
    ensures memory { IfErr result IsMemory }
    ensures sized { IsKey string.now }
{
    dest.extend_from_slice(string)?;
    Ok(())
}

/// Writes the bytes of the tree of one entry behind others. The only error is `OutOfMemory`.
pub fn push_entry(key: &[u8; 32], value: &[u8; 32], dest: &mut Vec<u8>) -> Result<(), Error>
    ensures written { OnOk result (dest.new.items
        ≡ dest.old.items ++ spelled (One (entry_of key.now value.now))) }
    ensures memory { IfErr result IsMemory }
    ensures sized { IsOf32 (One (entry_of key.now value.now)) }
{
    dest.push(0)?;
    push_string(key, dest)?;
    push_string(value, dest)
}

/// Writes the bytes of a tree of which only the digest is known behind others. The only error is `OutOfMemory`.
pub fn push_hidden(digest: &[u8; 32], dest: &mut Vec<u8>) -> Result<(), Error>
    ensures written { OnOk result (dest.new.items ≡ dest.old.items ++ spelled (Hidden digest.now)) }
    ensures memory { IfErr result IsMemory }
    ensures sized { IsOf32 (Hidden digest.now) }
{
    dest.push(3)?;
    push_string(digest, dest)
}

// Writes a tree behind other bytes. The only error is `OutOfMemory`.
pub fn write_part(part: &Part<[u8; 32]>, dest: &mut Vec<u8>) -> Result<(), Error>
    ensures written { OnOk result (dest.new.items
        ≡ dest.old.items ++ spelled (shape itself part.now)) }
    ensures memory { IfErr result IsMemory }
    ensures sized { OnOk result (IsOf32 (shape itself part.now)) }
{
    match part {
        Part::Empty => {
            dest.push(2)?;
            Ok(())
        }
        Part::One { entry } => { push_entry(&entry.key, &entry.value, dest) }
        Part::Fork { sides } => {
            dest.push(1)?;
            write_part(&sides.left, dest)?;
            write_part(&sides.right, dest)?;
            Ok(())
        }
        Part::Hidden { digest } => push_hidden(digest, dest),
    }
}

// The error of bytes that end too early.
pub fn truncated() -> Error
    ensures { result ≡ truncated_error }
{
    Error::SerializationError(SerializationError::Truncated)
}

// The error of bytes that no tree has.
pub fn invalid() -> Error
    ensures { result ≡ invalid_error }
{
    Error::SerializationError(SerializationError::InvalidData)
}

// Returns the bytes from an index on.
pub fn from_index(bytes: &[u8], index: usize) -> &[u8]
    requires { index ≤ length bytes.now }
    ensures { result.now ≡ drop index bytes.now }
{
    &bytes[index..]
}

// Reads 32 bytes. The error is `Truncated`.
pub fn read_string(bytes: &[u8]) -> Result<[u8; 32], Error>
    ensures enough { IfOk result (λ _. 32 ≤ length bytes.now) }
    ensures answer { string_read bytes.now ≡ string_outcome bytes.now result }
{
    if bytes.len() < 32 {
        return Err(truncated());
    }
    let mut value = [0; 32];
    value.copy_from_slice(&bytes[..32]);
    Ok(value)
}

// Makes the tree of one entry. The only error is `OutOfMemory`.
fn entry_tree(alloc: Global, key: [u8; 32], value: [u8; 32]) -> Result<Part<[u8; 32]>, Error>
    ensures sized { IfOk result (λ new. IsOf32 (shape itself new)) }
    ensures made { AnswersBy (shape itself) (Ok (One (entry_of key value))) result }
    ensures digests { IfOk result (λ new. (h : MapHashes) → IsKept itself h new) }
{
    one(alloc, Entry { key, value })
}

// Reads the tree that the front of the bytes spells, which stands some levels below the root, and counts its bytes.
//
// Errors: the first fault from the left: `Truncated`; `InvalidData`: a byte that stands for nothing, or a fork below the last bit
// of a key; `OutOfMemory`.
fn read_part(alloc: Global, bytes: &[u8], level: usize) -> Result<(Part<[u8; 32]>, usize), Error>
    requires { level ≤ 256 }
    ensures within { IfOk result (λ read. read.1 ≤ length bytes.now) }
    ensures sized { IfOk result (λ read. IsOf32 (shape itself read.0)) }
    ensures digests { IfOk result (λ read. (h : MapHashes) → IsKept itself h read.0) }
    ensures answer { AnswersBy (λ read. (shape itself read.0, drop read.1 bytes.now))
        (tree_read (256 - level) bytes.now) result }
{
    if bytes.is_empty() {
        return Err(truncated());
    }
    let rest = from_index(bytes, 1);
    match bytes[0] {
        0 => {
            let key = read_string(rest)?;
            let value = read_string(from_index(rest, 32))?;
            let tree = entry_tree(alloc, key, value)?;
            Ok((tree, 65))
        }
        1 => {
            if level == 256 {
                return Err(invalid());
            }
            let (left, on_left) = read_part(alloc, rest, level + 1)?;
            let (right, on_right) = read_part(alloc, from_index(rest, on_left), level + 1)?;
            let tree = fork(alloc, left, right)?;
            Ok((tree, 1 + on_left + on_right))
        }
        2 => Ok((Part::Empty, 1)),
        3 => {
            let digest = read_string(rest)?;
            let tree = behind(alloc, digest)?;
            Ok((tree, 33))
        }
        _ => Err(invalid()),
    }
}

// Returns whether all entries of a tree have this bit.
fn all_have(part: &Part<[u8; 32]>, level: usize, bit: bool) -> bool
    requires { level < 256 }
    ensures { result ≡ all_have_in bit level (shape itself part.now) }
{
    match part {
        Part::Empty => true,
        Part::One { entry } => has_bit(&entry.key, level, bit),
        Part::Fork { sides } => {
            all_have(&sides.left, level, bit) && all_have(&sides.right, level, bit)
        }
        Part::Hidden { .. } => true,
    }
}

// Returns how many entries a tree may have at most, with 2 for two or more.
fn weight_of(part: &Part<[u8; 32]>) -> usize
    ensures weighs { result ≡ weight (shape itself part.now) }
    ensures few { result ≤ 2 }
{
    match part {
        Part::Empty => 0,
        Part::One { .. } => 1,
        Part::Fork { .. } => 2,
        Part::Hidden { .. } => 2,
    }
}

// Returns whether each entry of a tree some levels below the root is on its key's way, and each fork above two entries or more,
// or may be.
fn is_placed(part: &Part<[u8; 32]>, level: usize) -> bool
    requires { FitsKeys level (shape itself part.now) }
    ensures { result ≡ is_placed_in level (shape itself part.now) }
{
    match part {
        Part::Empty => true,
        Part::One { .. } => true,
        Part::Fork { sides } => {
            let Sides { left, right, .. } = &**sides;
            if weight_of(left) + weight_of(right) < 2 {
                return false;
            }
            if !all_have(left, level, false) || !all_have(right, level, true) {
                return false;
            }
            is_placed(left, level + 1) && is_placed(right, level + 1)
        }
        Part::Hidden { .. } => true,
    }
}

// Reads the tree that all the bytes spell. Errors: as of `read_part`; else `InvalidData`: an entry or a fork out of place; else
// `InvalidData`: bytes that are left.
pub fn part_of_bytes(alloc: Global, bytes: &[u8]) -> Result<Part<[u8; 32]>, Error>
    ensures sized { IfOk result (λ part. IsOf32 (shape itself part)) }
    ensures digests { IfOk result (λ part. (h : MapHashes) → IsKept itself h part) }
    ensures answer { AnswersBy (shape itself) (tree_of_bytes bytes.now) result }
{
    let (part, used) = read_part(alloc, bytes, 0)?;
    if !is_placed(&part, 0) {
        return Err(invalid());
    }
    if used < bytes.len() {
        return Err(invalid());
    }
    Ok(part)
}
