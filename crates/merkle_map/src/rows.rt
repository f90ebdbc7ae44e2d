//! The nodes of a tree with their digests, for a store outside.

ghost use Rattle.std.specs.Prelude.{◌≡◌, ◌∷◌, ◌++◌, IfErr, OnOk};
ghost use Rattle.ark_base.specs.Outcome.{Answers, AnswersBy, IsMemory};
ghost use Rattle.merkle_map.specs.Bytes.{itself};
ghost use Rattle.merkle_map.specs.Kept.{IsFor, IsKept};
ghost use Rattle.merkle_map.specs.Parts.{shape};
ghost use Rattle.merkle_map.specs.Rows.{rows_of, rows_behind};

use crate::bytes::push_string;
use crate::hasher::{MapHasher, MapViews};
use crate::part::Part;
use ark_base::error::Error;
use std::alloc::Global;

// Writes a node's row behind others: its digest, its byte, and its two parts. The only error is `OutOfMemory`.
fn push_row(
    digest: &[u8; 32],
    byte: u8,
    first: &[u8; 32],
    second: &[u8; 32],
    rows: &mut Vec<u8>,
) -> Result<(), Error>
    ensures written { OnOk result (rows.new.items
        ≡ rows.old.items ++ (digest.now ++ (byte ∷ (first.now ++ second.now)))) }
    ensures memory { IfErr result IsMemory }
{
    push_string(digest, rows)?;
    rows.push(byte)?;
    push_string(first, rows)?;
    push_string(second, rows)
}

// Returns the digest of two, or the one that is kept. Errors: those of the hash of pairs; `OutOfMemory`.
fn pair_unless_kept<H: MapViews<Input = [u8; 32], Output = [u8; 32]>>(
    alloc: Global,
    hasher: &MapHasher<H>,
    kept: &Option<[u8; 32]>,
    left: &[u8; 32],
    right: &[u8; 32],
) -> Result<[u8; 32], Error>
    requires { IsFor itself ((H.hashes hasher.now).pair left.now right.now) kept.now }
    ensures { Answers ((H.hashes hasher.now).pair left.now right.now) result }
{
    match kept {
        Some(digest) => Ok(*digest),
        None => hasher.pair(alloc, left, right),
    }
}

// Hashes a tree, as far as no digest is kept, and writes the rows of what it does not hide behind others. Errors, which may leave some: those of the hashes,
// the lowest first, the left one among equals; `OutOfMemory`.
pub fn push_tree_rows<H: MapViews<Input = [u8; 32], Output = [u8; 32]>>(
    alloc: Global,
    hasher: &MapHasher<H>,
    part: &Part<[u8; 32]>,
    rows: &mut Vec<u8>,
) -> Result<[u8; 32], Error>
    requires { IsKept itself (H.hashes hasher.now) part.now }
    ensures { AnswersBy (λ digest. (digest, rows.new.items)) (rows_behind rows.old.items
        (rows_of (H.hashes hasher.now) (shape itself part.now))) result }
{
    match part {
        Part::Empty => hasher.nothing(alloc),
        Part::One { entry } => {
            let digest = hasher.leaf(alloc, &entry.key, &entry.value)?;
            push_row(&digest, 0, &entry.key, &entry.value, rows)?;
            Ok(digest)
        }
        Part::Fork { sides } => {
            let l = push_tree_rows(alloc, hasher, &sides.left, rows)?;
            let r = push_tree_rows(alloc, hasher, &sides.right, rows)?;
            let digest = pair_unless_kept(alloc, hasher, &sides.digest, &l, &r)?;
            push_row(&digest, 1, &l, &r, rows)?;
            Ok(digest)
        }
        Part::Hidden { digest } => Ok(**digest),
    }
}
