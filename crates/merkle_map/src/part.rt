//! A tree's parts, of which some may be hidden.

ghost use Rattle.std.specs.Prelude.{◌≡◌, ◌≤◌, IfOk};
ghost use Rattle.ark_base.specs.Outcome.{AnswersBy};
ghost use Rattle.merkle_map.specs.Changes.{known_at, hides};
ghost use Rattle.merkle_map.specs.Kept.{IsKept};
ghost use Rattle.merkle_map.specs.Map.{MapHashes, bit_of as bit_in};
ghost use Rattle.merkle_map.specs.Parts.{entry_seen, found_seen, shape};
ghost use Rattle.merkle_map.specs.Tree.{shape_digest, way, StandsAt, Fork as ForkOf, Hidden as HiddenOf, One as OneOf};

use crate::hasher::{MapHasher, MapViews};
use crate::key::{are_same_keys, bit_of, copy_digest};
use ark_base::error::{Error, Refusal};
use ark_base::serialize::DigestItem;
use std::alloc::Global;

/// A key with its value.
#[derive(Drop)]
pub struct Entry {
    pub key: [u8; 32],
    pub value: [u8; 32],
}

/// A tree of keys with their values. One of no entry takes no memory of its own.
#[cycle(tree)]
#[derive(Drop)]
pub enum Part<D> {
    /// No entry.
    Empty,
    /// One entry.
    One { entry: Box<Entry> },
    /// The entries of two sides.
    Fork { sides: Box<Sides<D>> },
    /// Entries of which only the digest is known.
    Hidden { digest: Box<D> },
}

/// The entries whose next bit is 0, and those whose next bit is 1. The digest of both may be kept.
#[cycle(tree)]
#[derive(Drop)]
pub struct Sides<D> {
    pub left: Part<D>,
    pub right: Part<D>,
    pub digest: Option<D>,
}

/// The error of a call that needs what a tree hides.
pub const HIDDEN: Error = Error::GenericError(Refusal::HiddenTree);

// Returns it.
pub fn hidden() -> Error
    ensures { result ≡ hides }
{
    HIDDEN
}

// Joins two sides. The only error is `OutOfMemory`.
pub fn fork<D: DigestItem>(alloc: Global, left: Part<D>, right: Part<D>) -> Result<Part<D>, Error>
    ensures made { AnswersBy (shape D.numbers)
        (Ok (ForkOf (shape D.numbers left) (shape D.numbers right))) result }
    ensures kept { IfOk result (λ new. (h : MapHashes) → IsKept D.numbers h left
        → IsKept D.numbers h right → IsKept D.numbers h new) }
{
    let sides = Box::new(
        alloc,
        Sides {
            left,
            right,
            digest: None,
        },
    )?;
    Ok(Part::Fork { sides })
}

// Makes the tree of one entry. The only error is `OutOfMemory`.
pub fn one<D: DigestItem>(alloc: Global, entry: Entry) -> Result<Part<D>, Error>
    ensures made { AnswersBy (shape D.numbers) (Ok (OneOf (entry_seen entry))) result }
    ensures kept { IfOk result (λ new. (h : MapHashes) → IsKept D.numbers h new) }
{
    let entry = Box::new(alloc, entry)?;
    Ok(Part::One { entry })
}

// Makes a tree of which only the digest is known. The only error is `OutOfMemory`.
pub fn behind<D: DigestItem>(alloc: Global, digest: D) -> Result<Part<D>, Error>
    ensures made { AnswersBy (shape D.numbers) (Ok (HiddenOf (D.numbers digest))) result }
    ensures kept { IfOk result (λ new. (h : MapHashes) → IsKept D.numbers h new) }
{
    let digest = Box::new(alloc, digest)?;
    Ok(Part::Hidden { digest })
}

// Hashes a tree, as far as no digest is kept. Errors: those of the hashes, the lowest first, the left one among equals;
// `OutOfMemory`.
pub fn digest_of<D: DigestItem, H: MapViews<Input = [u8; 32], Output = D>>(
    alloc: Global,
    hasher: &MapHasher<H>,
    part: &Part<D>,
) -> Result<D, Error>
    requires { IsKept D.numbers (H.hashes hasher.now) part.now }
    ensures { AnswersBy D.numbers (shape_digest (H.hashes hasher.now) (shape D.numbers part.now))
        result }
{
    match part {
        Part::Empty => hasher.nothing(alloc),
        Part::One { entry } => hasher.leaf(alloc, &entry.key, &entry.value),
        Part::Fork { sides } => {
            if let Some(digest) = &sides.digest {
                return copy_digest(alloc, digest);
            }
            let l = digest_of(alloc, hasher, &sides.left)?;
            let r = digest_of(alloc, hasher, &sides.right)?;
            hasher.pair(alloc, &l, &r)
        }
        Part::Hidden { digest } => copy_digest(alloc, digest),
    }
}

// Returns what a tree some levels below the root has at a key. The error is that the tree hides it.
pub fn find_entry<'a, D: DigestItem>(
    part: &'a Part<D>,
    level: usize,
    key: &[u8; 32],
) -> Result<Option<&'a [u8; 32]>, Error>
    requires { StandsAt (way level key.now) (shape D.numbers part.now) }
    ensures { known_at level key.now (shape D.numbers part.now)
        ≡ found_seen (λ value. value.now) result }
{
    match part {
        Part::Empty => Ok(None),
        Part::One { entry } => {
            if are_same_keys(&entry.key, key) {
                return Ok(Some(&entry.value));
            }
            Ok(None)
        }
        Part::Fork { sides } => {
            let Sides { left, right, .. } = &**sides;
            if bit_of(key, level) {
                find_entry(right, level + 1, key)
            } else {
                find_entry(left, level + 1, key)
            }
        }
        Part::Hidden { .. } => Err(hidden()),
    }
}
