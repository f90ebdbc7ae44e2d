//! A key is removed from a tree.

ghost use Rattle.std.specs.Prelude.{◌≡◌, [], OnErr, Ok};
ghost use Rattle.merkle_map.specs.Changes.{collapsed, is_alone, has_entry, rejoined, losing, outcome_with, tree_without, Becomes};
ghost use Rattle.merkle_map.specs.Kept.{SidesAreKept, IsKept};
ghost use Rattle.merkle_map.specs.Map.{Digest, MapHashes};
ghost use Rattle.merkle_map.specs.Parts.{shape};
ghost use Rattle.merkle_map.specs.Rests.{is_hidden_rest, rest_of, rest_beside, rest_seen};
ghost use Rattle.merkle_map.specs.Tree.{way, StandsAt};

use crate::key::{are_same_digests, are_same_keys, bit_of};
use crate::part::{Part, Sides, find_entry, hidden};
use ark_base::error::Error;
use ark_base::serialize::DigestItem;
use std::mem;

/// What is left of a tree.
#[derive(Clone, Copy)]
pub enum Rest {
    /// No entry.
    Nothing,
    /// One entry.
    Lone,
    /// Two entries or more.
    More,
    /// One entry or more, which are hidden.
    Any,
    /// What the tree hides decides it.
    Unknown,
}

// Returns whether a whole tree has an entry at a key. The error is that the tree hides it.
fn has_at<D: DigestItem>(part: &Part<D>, key: &[u8; 32]) -> Result<bool, Error>
    requires { StandsAt [] (shape D.numbers part.now) }
    ensures { has_entry key.now (shape D.numbers part.now) ≡ result }
{
    match find_entry(part, 0, key)? {
        None => Ok(false),
        Some(_) => Ok(true),
    }
}

// Returns whether what is hidden decides what is left.
fn is_unknown(rest: Rest) -> bool
    ensures { result ≡ is_hidden_rest rest }
{
    match rest {
        Rest::Nothing => false,
        Rest::Lone => false,
        Rest::More => false,
        Rest::Any => true,
        Rest::Unknown => true,
    }
}

// Returns what a tree is, by the digest of nothing.
fn rest_now<D: DigestItem>(nothing: &D, part: &Part<D>) -> Rest
    ensures { result ≡ rest_seen (D.numbers nothing.now) (shape D.numbers part.now) }
{
    match part {
        Part::Empty => Rest::Nothing,
        Part::One { .. } => Rest::Lone,
        Part::Fork { .. } => Rest::More,
        Part::Hidden { digest } => {
            if are_same_digests(&**digest, nothing) {
                return Rest::Unknown;
            }
            Rest::Any
        }
    }
}

// Returns what is left of two sides, of which the first lost an entry.
fn rest_joined(own: Rest, beside: Rest) -> Rest
    ensures { result ≡ rest_beside own beside }
{
    match own {
        Rest::Nothing => match beside {
            Rest::Nothing => Rest::Nothing,
            Rest::Lone => Rest::Lone,
            Rest::More => Rest::More,
            Rest::Any => Rest::Unknown,
            Rest::Unknown => Rest::Unknown,
        },
        Rest::Lone => match beside {
            Rest::Nothing => Rest::Lone,
            Rest::Lone => Rest::More,
            Rest::More => Rest::More,
            Rest::Any => Rest::More,
            Rest::Unknown => Rest::Unknown,
        },
        Rest::More => Rest::More,
        Rest::Any => Rest::Unknown,
        Rest::Unknown => Rest::Unknown,
    }
}

// Returns what a tree some levels below the root is without a key.
fn rest_without<D: DigestItem>(nothing: &D, part: &Part<D>, level: usize, key: &[u8; 32]) -> Rest
    requires { StandsAt (way level key.now) (shape D.numbers part.now) }
    ensures { result ≡ rest_of (losing (D.numbers nothing.now) level key.now
        (shape D.numbers part.now)) }
{
    match part {
        Part::Empty => Rest::Nothing,
        Part::One { entry } => {
            if are_same_keys(&entry.key, key) {
                return Rest::Nothing;
            }
            Rest::Lone
        }
        Part::Fork { sides } => {
            let Sides { left, right, .. } = &**sides;
            if bit_of(key, level) {
                rest_joined(
                    rest_without(nothing, right, level + 1, key),
                    rest_now(nothing, left),
                )
            } else {
                rest_joined(
                    rest_without(nothing, left, level + 1, key),
                    rest_now(nothing, right),
                )
            }
        }
        Part::Hidden { .. } => Rest::Unknown,
    }
}

// Returns whether a tree beside another is the tree of both: the other is empty, and this one has one entry at most.
fn stands_alone<D: DigestItem>(part: &Part<D>, beside: &Part<D>) -> bool
    ensures { result ≡ is_alone (shape D.numbers part.now) (shape D.numbers beside.now) }
{
    match beside {
        Part::Empty => match part {
            Part::Empty => true,
            Part::One { .. } => true,
            Part::Fork { .. } => false,
            Part::Hidden { .. } => false,
        },
        Part::One { .. } => false,
        Part::Fork { .. } => false,
        Part::Hidden { .. } => false,
    }
}

// Joins two sides, of which one may have lost an entry, if what is hidden does not decide what they are together.
fn join<D: DigestItem>(mut sides: Box<Sides<D>>) -> Part<D>
    ensures joined { (nothing : Digest) → Becomes (rejoined nothing
        (shape D.numbers sides.value.left) (shape D.numbers sides.value.right))
        (shape D.numbers result) }
    ensures digests { (h : MapHashes) → IsKept D.numbers h sides.value.left
        → IsKept D.numbers h sides.value.right → IsKept D.numbers h result }
{
    if stands_alone(&sides.right, &sides.left) {
        return Box::into_inner(sides).right;
    }
    if stands_alone(&sides.left, &sides.right) {
        return Box::into_inner(sides).left;
    }
    sides.digest = None;
    Part::Fork { sides }
}

// Joins the two sides of a tree, of which one may have lost an entry.
fn collapse<D: DigestItem>(part: &mut Part<D>)
    ensures joined { (nothing : Digest) → Becomes (collapsed nothing (shape D.numbers part.old))
        (shape D.numbers part.new) }
    ensures digests { (h : MapHashes) → SidesAreKept D.numbers h part.old
        → IsKept D.numbers h part.new }
{
    match mem::replace(part, Part::Empty) {
        Part::Empty => {}
        Part::One { entry } => *part = Part::One { entry },
        Part::Fork { sides } => *part = join(sides),
        Part::Hidden { digest } => *part = Part::Hidden { digest },
    }
}

// Removes a key from a tree some levels below the root, if the tree does not hide what that needs.
fn remove_in<D: DigestItem>(part: &mut Part<D>, level: usize, key: &[u8; 32])
    requires { StandsAt (way level key.now) (shape D.numbers part.old) }
    ensures lost { (nothing : Digest) → Becomes (losing nothing level key.now
        (shape D.numbers part.old)) (shape D.numbers part.new) }
    ensures digests { (h : MapHashes) → IsKept D.numbers h part.old → IsKept D.numbers h part.new }
{
    match part {
        Part::Empty => {}
        Part::One { entry } => {
            let entry = &mut **entry;
            if are_same_keys(&entry.key, key) {
                *part = Part::Empty;
            }
        }
        Part::Fork { sides } => {
            let Sides { left, right, .. } = &mut **sides;
            if bit_of(key, level) {
                remove_in(right, level + 1, key);
                collapse(part);
            } else {
                remove_in(left, level + 1, key);
                collapse(part);
            }
        }
        Part::Hidden { .. } => {}
    }
}

// Removes a key from a whole tree, by the digest of nothing. The error, which leaves the tree unchanged: the tree hides what is
// at the key, or what is left.
pub fn remove_from<D: DigestItem>(
    nothing: &D,
    part: &mut Part<D>,
    key: &[u8; 32],
) -> Result<(), Error>
    requires { StandsAt [] (shape D.numbers part.old) }
    ensures changed { tree_without (D.numbers nothing.now) key.now (shape D.numbers part.old)
        ≡ outcome_with (shape D.numbers part.new) result }
    ensures kept { OnErr result (shape D.numbers part.new ≡ shape D.numbers part.old) }
    ensures digests { (h : MapHashes) → IsKept D.numbers h part.old → IsKept D.numbers h part.new }
{
    if has_at(part, key)? {
        if is_unknown(rest_without(nothing, part, 0, key)) {
            return Err(hidden());
        }
        remove_in(part, 0, key);
    }
    Ok(())
}

// Removes a key from a tree that hides nothing.
pub fn remove_shown<D: DigestItem>(part: &mut Part<D>, key: &[u8; 32])
    requires { StandsAt [] (shape D.numbers part.old) }
    ensures changed { (nothing : Digest) → Becomes (tree_without nothing key.now
        (shape D.numbers part.old)) (shape D.numbers part.new) }
    ensures digests { (h : MapHashes) → IsKept D.numbers h part.old → IsKept D.numbers h part.new }
{
    match has_at(part, key) {
        Ok(is_there) => {
            if is_there {
                remove_in(part, 0, key);
            }
        }
        Err(_) => {}
    }
}
