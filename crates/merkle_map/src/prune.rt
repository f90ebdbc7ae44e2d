//! Proofs are made of a tree: what some keys do not need is hidden.

ghost use Rattle.std.specs.Prelude.{◌≡◌, ◌<◌, IfOk, Ok};
ghost use Rattle.ark_base.specs.Outcome.{Answers, AnswersBy};
ghost use Rattle.merkle_map.specs.Kept.{IsKept};
ghost use Rattle.merkle_map.specs.Map.{MapHashes};
ghost use Rattle.merkle_map.specs.Parts.{entry_seen, shape};
ghost use Rattle.merkle_map.specs.Tree.{Hidden, One};
ghost use Rattle.merkle_map.specs.Pruned.{aside, clears, covered, has_key, is_needed, keys_with, pruned, FitsKeys};

use crate::hasher::{MapHasher, MapViews};
use crate::key::{are_same_digests, copy_digest, has_bit};
use crate::part::{Entry, Part, behind, digest_of, fork, one};
use ark_base::error::Error;
use ark_base::serialize::DigestItem;
use std::alloc::Global;

// Copies the keys that have this bit. The only error is `OutOfMemory`.
fn keys_on(
    alloc: Global,
    keys: &[[u8; 32]],
    level: usize,
    bit: bool,
) -> Result<Vec<[u8; 32]>, Error>
    requires { level < 256 }
    ensures { AnswersBy (λ kept. kept.items) (Ok (keys_with bit level keys.now)) result }
{
    let mut kept = Vec::new(alloc);
    'keys: for key in keys {
        if has_bit(key, level, bit) {
            kept.push(*key)?;
        }
    }
    Ok(kept)
}

// Returns whether a list has a key.
fn is_among(key: &[u8; 32], keys: &[[u8; 32]]) -> bool
    ensures { result ≡ has_key key.now keys.now }
{
    keys.contains(key)
}

// Returns whether the keys are those of all entries of a tree some levels below the root. The only error is `OutOfMemory`.
fn do_clear<D: DigestItem>(
    alloc: Global,
    part: &Part<D>,
    level: usize,
    keys: &[[u8; 32]],
) -> Result<bool, Error>
    requires { FitsKeys level (shape D.numbers part.now) }
    ensures { Answers (Ok (clears level keys.now (shape D.numbers part.now))) result }
{
    match part {
        Part::Empty => Ok(true),
        Part::One { entry } => Ok(is_among(&entry.key, keys)),
        Part::Fork { sides } => {
            if keys.is_empty() {
                return Ok(false);
            }
            let on_left = keys_on(alloc, keys, level, false)?;
            if do_clear(alloc, &sides.left, level + 1, &on_left)? {
                let on_right = keys_on(alloc, keys, level, true)?;
                return do_clear(alloc, &sides.right, level + 1, &on_right);
            }
            Ok(false)
        }
        Part::Hidden { .. } => Ok(false),
    }
}

// Returns whether the top of a side with these keys is shown, beside the other one. The only error is `OutOfMemory`.
fn needs_top<D: DigestItem>(
    alloc: Global,
    tops: bool,
    own: &[[u8; 32]],
    other: &Part<D>,
    level: usize,
    keys: &[[u8; 32]],
) -> Result<bool, Error>
    requires { FitsKeys level (shape D.numbers other.now) }
    ensures { Answers (Ok (is_needed tops own.now level keys.now (shape D.numbers other.now)))
        result }
{
    if own.is_empty() {
        if tops {
            return do_clear(alloc, other, level, keys);
        }
        return Ok(false);
    }
    Ok(false)
}

// Copies an entry. The only error is `OutOfMemory`.
fn copy_of_entry<D: DigestItem>(alloc: Global, entry: &Entry) -> Result<Part<D>, Error>
    ensures copied { AnswersBy (shape D.numbers) (Ok (One (entry_seen entry.now)))
        result }
    ensures digests { IfOk result (λ new. (h : MapHashes) → IsKept D.numbers h new) }
{
    one(
        alloc,
        Entry {
            key: entry.key,
            value: entry.value,
        },
    )
}

// Copies a tree of which only the digest is known. The only error is `OutOfMemory`.
fn hidden_copy<D: DigestItem>(alloc: Global, digest: &D) -> Result<Part<D>, Error>
    ensures copied { AnswersBy (shape D.numbers) (Ok (Hidden (D.numbers digest.now))) result }
    ensures digests { IfOk result (λ new. (h : MapHashes) → IsKept D.numbers h new) }
{
    let copy = copy_digest(alloc, digest)?;
    behind(alloc, copy)
}

// Hides a tree that forks, unless its digest is that of nothing, and copies another. Errors: those of the hashes, the lowest
// first, then the leftmost; `OutOfMemory`.
fn cover<D: DigestItem, H: MapViews<Input = [u8; 32], Output = D>>(
    alloc: Global,
    hasher: &MapHasher<H>,
    part: &Part<D>,
) -> Result<Part<D>, Error>
    requires { IsKept D.numbers (H.hashes hasher.now) part.now }
    ensures covered { AnswersBy (shape D.numbers) (covered (H.hashes hasher.now)
        (shape D.numbers part.now)) result }
    ensures digests { IfOk result (λ new. (h : MapHashes) → IsKept D.numbers h new) }
{
    match part {
        Part::Empty => Ok(Part::Empty),
        Part::One { entry } => copy_of_entry(alloc, entry),
        Part::Fork { sides } => {
            let digest = digest_of(alloc, hasher, part)?;
            let nothing = hasher.nothing(alloc)?;
            if are_same_digests(&digest, &nothing) {
                let l = cover(alloc, hasher, &sides.left)?;
                let r = cover(alloc, hasher, &sides.right)?;
                return fork(alloc, l, r);
            }
            behind(alloc, digest)
        }
        Part::Hidden { digest } => hidden_copy(alloc, digest),
    }
}

// Hides a tree, or both its sides. Errors: as of `cover`.
fn set_aside<D: DigestItem, H: MapViews<Input = [u8; 32], Output = D>>(
    alloc: Global,
    hasher: &MapHasher<H>,
    is_shown: bool,
    part: &Part<D>,
) -> Result<Part<D>, Error>
    requires { IsKept D.numbers (H.hashes hasher.now) part.now }
    ensures aside { AnswersBy (shape D.numbers) (aside (H.hashes hasher.now) is_shown
        (shape D.numbers part.now)) result }
    ensures digests { IfOk result (λ new. (h : MapHashes) → IsKept D.numbers h new) }
{
    if is_shown {
        match part {
            Part::Empty => Ok(Part::Empty),
            Part::One { entry } => copy_of_entry(alloc, entry),
            Part::Fork { sides } => {
                let l = cover(alloc, hasher, &sides.left)?;
                let r = cover(alloc, hasher, &sides.right)?;
                fork(alloc, l, r)
            }
            Part::Hidden { digest } => hidden_copy(alloc, digest),
        }
    } else {
        cover(alloc, hasher, part)
    }
}

// Copies a tree some levels below the root without what no key's way meets. Errors: as of `cover`.
pub fn prune_in<D: DigestItem, H: MapViews<Input = [u8; 32], Output = D>>(
    alloc: Global,
    hasher: &MapHasher<H>,
    tops: bool,
    is_shown: bool,
    part: &Part<D>,
    level: usize,
    keys: &[[u8; 32]],
) -> Result<Part<D>, Error>
    requires fits { FitsKeys level (shape D.numbers part.now) }
    requires kept { IsKept D.numbers (H.hashes hasher.now) part.now }
    ensures pruned { AnswersBy (shape D.numbers) (pruned (H.hashes hasher.now) tops is_shown level
        keys.now (shape D.numbers part.now)) result }
    ensures digests { IfOk result (λ new. (h : MapHashes) → IsKept D.numbers h new) }
{
    if keys.is_empty() {
        return set_aside(alloc, hasher, is_shown, part);
    }
    match part {
        Part::Empty => Ok(Part::Empty),
        Part::One { entry } => copy_of_entry(alloc, entry),
        Part::Fork { sides } => {
            let on_left = keys_on(alloc, keys, level, false)?;
            let on_right = keys_on(alloc, keys, level, true)?;
            let below = level + 1;
            let is_left = needs_top(alloc, tops, &on_left, &sides.right, below, &on_right)?;
            let l = prune_in(alloc, hasher, tops, is_left, &sides.left, below, &on_left)?;
            let is_right = needs_top(alloc, tops, &on_right, &sides.left, below, &on_left)?;
            let r = prune_in(
                alloc,
                hasher,
                tops,
                is_right,
                &sides.right,
                below,
                &on_right,
            )?;
            fork(alloc, l, r)
        }
        Part::Hidden { digest } => hidden_copy(alloc, digest),
    }
}
