//! Proofs of one key as bytes: each proof has one spelling, and no other bytes are read.

ghost use Rattle.std.specs.Prelude.{◌≡◌, ◌<◌, ◌≤◌, ◌+◌, ◌*◌, ◌^◌, ◌++◌, drop, length, map, OnOk, IfErr, IfOk, Ok};
ghost use Rattle.std.specs.Str.{bytes_eq};
ghost use Rattle.ark_base.specs.Outcome.{AnswersBy, IsMemory};
ghost use Rattle.merkle_map.specs.Bytes.{itself};
ghost use Rattle.merkle_map.specs.KeyProof.{end_seen};
ghost use Rattle.merkle_map.specs.Map.{bit_of as bit_in};
ghost use Rattle.merkle_map.specs.ProofBytes.{count_bytes, count_read as count_in_front, digest_given, end_bytes, end_read as end_in_front, found_behind, front_read, given_bytes, given_read as given_in_front, is_given as is_given_in, mask_length, mask_of, number_of, packed, siblings_read as siblings_of, siblings_spelled, AreOf32, IsEndOf32};

use crate::bytes::{from_index, invalid, push_string, read_string, truncated};
use crate::key::are_same_keys;
use crate::part::Entry;
use crate::proof::End;
use crate::verify::KEY_BITS;
use ark_base::error::Error;
use std::alloc::Global;

// Returns whether a digest is another one than that of nothing.
fn is_given(nothing: &[u8; 32], digest: &[u8; 32]) -> bool
    ensures { result ≡ is_given_in nothing.now digest.now }
{
    !are_same_keys(digest, nothing)
}

// Returns the digests behind the first ones, so many of them.
fn behind(siblings: &[[u8; 32]], count: usize) -> &[[u8; 32]]
    ensures { result.now ≡ drop count siblings.now }
{
    if siblings.len() < count {
        &siblings[..0]
    } else {
        &siblings[count..]
    }
}

// Returns the bits of the first digests, at most 8, as a number, the first the highest: set where the digest is given.
fn bits_of(nothing: &[u8; 32], siblings: &[[u8; 32]], count: u32) -> u8
    requires { count ≤ 8 }
    ensures { result ≡ number_of count (map (is_given_in nothing.now) siblings.now) }
{
    if count == 0 {
        return 0;
    }
    if siblings.is_empty() {
        return 0;
    }
    let below = bits_of(nothing, behind(siblings, 1), count - 1);
    if is_given(nothing, &siblings[0]) {
        (1u8 << (count - 1)) + below
    } else {
        below
    }
}

// Writes the bits of digests in so many bytes behind others. The only error is `OutOfMemory`.
fn push_mask(
    nothing: &[u8; 32],
    siblings: &[[u8; 32]],
    count: usize,
    dest: &mut Vec<u8>,
) -> Result<(), Error>
    ensures written { OnOk result (dest.new.items
        ≡ dest.old.items ++ packed count (map (is_given_in nothing.now) siblings.now)) }
    ensures memory { IfErr result IsMemory }
{
    if count == 0 {
        return Ok(());
    }
    dest.push(bits_of(nothing, siblings, 8))?;
    push_mask(nothing, behind(siblings, 8), count - 1, dest)
}

// Writes the digests that are given behind other bytes. The only error is `OutOfMemory`.
fn push_given(nothing: &[u8; 32], siblings: &[[u8; 32]], dest: &mut Vec<u8>) -> Result<(), Error>
    ensures written { OnOk result (dest.new.items
        ≡ dest.old.items ++ given_bytes nothing.now siblings.now) }
    ensures memory { IfErr result IsMemory }
{
    'digests: for digest in siblings {
        if is_given(nothing, digest) {
            dest.extend_from_slice(digest)?;
        }
    }
    Ok(())
}

// Writes the end of a way behind other bytes. The only error is `OutOfMemory`.
pub fn push_end(end: &End, dest: &mut Vec<u8>) -> Result<(), Error>
    ensures written { OnOk result (dest.new.items
        ≡ dest.old.items ++ end_bytes (end_seen end.now)) }
    ensures memory { IfErr result IsMemory }
    ensures sized { OnOk result (IsEndOf32 (end_seen end.now)) }
{
    match end {
        End::Nothing => {
            dest.push(0)?;
            Ok(())
        }
        End::Own => {
            dest.push(1)?;
            Ok(())
        }
        End::Other { entry } => {
            dest.push(2)?;
            push_string(&entry.key, dest)?;
            push_string(&entry.value, dest)
        }
    }
}

// Writes the count of digests, at most 256, behind other bytes. The only error is `OutOfMemory`.
fn push_count(count: usize, dest: &mut Vec<u8>) -> Result<(), Error>
    requires { count ≤ 256 }
    ensures written { OnOk result (dest.new.items ≡ dest.old.items ++ count_bytes count) }
    ensures memory { IfErr result IsMemory }
{
    dest.push((count % 256) as u8)?;
    dest.push((count / 256) as u8)?;
    Ok(())
}

// Writes the digests beside a way, at most 256, behind other bytes. The only error is `OutOfMemory`.
pub fn push_siblings(
    nothing: &[u8; 32],
    siblings: &[[u8; 32]],
    dest: &mut Vec<u8>,
) -> Result<(), Error>
    requires { length siblings.now ≤ 256 }
    ensures written { OnOk result (dest.new.items
        ≡ dest.old.items ++ siblings_spelled nothing.now siblings.now) }
    ensures memory { IfErr result IsMemory }
    ensures sized { OnOk result (AreOf32 siblings.now) }
{
    push_count(siblings.len(), dest)?;
    push_mask(nothing, siblings, (siblings.len() + 7) / 8, dest)?;
    push_given(nothing, siblings, dest)
}

// Reads the end of a way from the front of the bytes, and counts its bytes.
//
// Errors: the first fault from the left: `Truncated`; `InvalidData`: a byte that stands for no end.
pub fn read_end(bytes: &[u8]) -> Result<(End, usize), Error>
    ensures within { IfOk result (λ read. read.1 ≤ length bytes.now) }
    ensures sized { IfOk result (λ read. IsEndOf32 (end_seen read.0)) }
    ensures answer { AnswersBy (λ read. (end_seen read.0, drop read.1 bytes.now))
        (end_in_front bytes.now) result }
{
    if bytes.is_empty() {
        return Err(truncated());
    }
    let rest = from_index(bytes, 1);
    match bytes[0] {
        0 => Ok((End::Nothing, 1)),
        1 => Ok((End::Own, 1)),
        2 => {
            let key = read_string(rest)?;
            let value = read_string(from_index(rest, 32))?;
            Ok((
                End::Other {
                    entry: Entry { key, value },
                },
                65,
            ))
        }
        _ => Err(invalid()),
    }
}

// Reads a count of digests from the front of the bytes. Errors: `Truncated`; `InvalidData`: it is above 256.
fn read_count(bytes: &[u8]) -> Result<usize, Error>
    ensures enough { IfOk result (λ _. 2 ≤ length bytes.now) }
    ensures few { IfOk result (λ count. count ≤ 256) }
    ensures answer { count_in_front bytes.now ≡ result }
{
    if bytes.len() < 2 {
        return Err(truncated());
    }
    let count = bytes[0] as usize + 256 * bytes[1] as usize;
    if count > KEY_BITS {
        return Err(invalid());
    }
    Ok(count)
}

// Returns the first bytes, so many of them. The error is `Truncated`.
fn read_front(bytes: &[u8], count: usize) -> Result<&[u8], Error>
    ensures enough { IfOk result (λ front. count ≤ length bytes.now) }
    ensures long { IfOk result (λ front. length front.now ≡ count) }
    ensures answer { AnswersBy (λ front. front.now) (front_read count bytes.now) result }
{
    if bytes.len() < count {
        return Err(truncated());
    }
    Ok(&bytes[..count])
}

// Returns a bit of bytes, counted from the highest one of the first.
fn bit_of(bytes: &[u8], i: usize) -> bool
    requires { i < 8 * length bytes.now }
    ensures { result ≡ bit_in i bytes.now }
{
    (bytes[i / 8] >> (7 - i % 8)) % 2 == 1
}

// Reads so many digests from the front of the bytes and puts them behind others: where the bit of a level is set the next 32
// bytes, else that of nothing. Counts the bytes. Errors: `Truncated`; `OutOfMemory`.
fn read_given(
    nothing: &[u8; 32],
    count: usize,
    level: usize,
    mask: &[u8],
    bytes: &[u8],
    siblings: &mut Vec<[u8; 32]>,
) -> Result<usize, Error>
    requires deep { count + level ≤ 256 }
    requires inside { count + level ≤ 8 * length mask.now }
    ensures within { IfOk result (λ used. used ≤ length bytes.now) }
    ensures counted { IfOk result (λ used. length siblings.new.items
        ≡ length siblings.old.items + count) }
    ensures answer { AnswersBy (λ used. (siblings.new.items, drop used bytes.now))
        (found_behind siblings.old.items
        (given_in_front nothing.now count level mask.now bytes.now)) result }
{
    if count == 0 {
        return Ok(0);
    }
    if bit_of(mask, level) {
        let digest = read_string(bytes)?;
        siblings.push(digest)?;
        let rest = from_index(bytes, 32);
        let used = read_given(nothing, count - 1, level + 1, mask, rest, siblings)?;
        Ok(32 + used)
    } else {
        siblings.push(*nothing)?;
        read_given(nothing, count - 1, level + 1, mask, bytes, siblings)
    }
}

// Returns whether bytes are the bits of digests. The only error is `OutOfMemory`.
fn is_mask(
    alloc: Global,
    nothing: &[u8; 32],
    siblings: &[[u8; 32]],
    mask: &[u8],
) -> Result<bool, Error>
    requires { length siblings.now ≤ 256 }
    ensures { AnswersBy (λ same. same) (Ok (bytes_eq (mask_of nothing.now siblings.now) mask.now))
        result }
{
    let mut own = Vec::new(alloc);
    push_mask(nothing, siblings, (siblings.len() + 7) / 8, &mut own)?;
    Ok(own.as_slice() == mask)
}

// Reads the digests that all the bytes spell.
//
// Errors: the first fault from the left: `Truncated`; `InvalidData`: more than 256 digests; else `InvalidData`: a bit that is
// set for the digest of nothing or behind the last digest, or bytes that are left; `OutOfMemory`.
pub fn read_siblings(
    alloc: Global,
    nothing: &[u8; 32],
    bytes: &[u8],
) -> Result<Vec<[u8; 32]>, Error>
    ensures few { IfOk result (λ siblings. length siblings.items ≤ 256) }
    ensures answer { AnswersBy (λ siblings. siblings.items) (siblings_of nothing.now bytes.now)
        result }
{
    let count = read_count(bytes)?;
    let rest = from_index(bytes, 2);
    let mask = read_front(rest, (count + 7) / 8)?;
    let given = from_index(rest, mask.len());
    let mut siblings = Vec::new(alloc);
    let used = read_given(nothing, count, 0, mask, given, &mut siblings)?;
    if !is_mask(alloc, nothing, &siblings, mask)? || used < given.len() {
        return Err(invalid());
    }
    Ok(siblings)
}
