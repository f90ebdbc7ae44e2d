//! A value is put into a tree.

ghost use Rattle.std.specs.Prelude.{◌≡◌, ◌<◌, ◌≤◌, ◌+◌, ◌-◌, true, false, not, IfOk, OnErr, Ok};
ghost use Rattle.std.specs.Str.{bytes_eq};
ghost use Rattle.ark_base.specs.Outcome.{AnswersBy};
ghost use Rattle.merkle_map.specs.Changes.{two_of, with_value};
ghost use Rattle.merkle_map.specs.Kept.{IsKept};
ghost use Rattle.merkle_map.specs.Map.{MapHashes, bit_of as bit_in};
ghost use Rattle.merkle_map.specs.Parts.{entry_seen, shape};
ghost use Rattle.merkle_map.specs.Tree.{way, Fork as ForkOf, IsKey, One as OneOf, StandsAt};

use crate::key::{are_same_keys, bit_of};
use crate::part::{Entry, Part, Sides, fork, hidden, one};
use ark_base::error::Error;
use ark_base::serialize::DigestItem;
use std::alloc::Global;

// Returns whether two keys that share a way have the same next bit.
fn have_same_bit(level: usize, a: &[u8; 32], b: &[u8; 32]) -> bool
    requires within { level < 256 }
    requires together { way level a.now ≡ way level b.now }
    ensures within { level < 256 }
    ensures next { result ≡ true → way (level + 1) a.now ≡ way (level + 1) b.now }
    ensures same { result ≡ true → bit_in level b.now ≡ bit_in level a.now }
    ensures other { result ≡ false → bit_in level b.now ≡ not (bit_in level a.now) }
{
    bit_of(a, level) == bit_of(b, level)
}

// Joins two entries. The only error is `OutOfMemory`.
fn two<D: DigestItem>(alloc: Global, left: Entry, right: Entry) -> Result<Part<D>, Error>
    ensures made { AnswersBy (shape D.numbers) (Ok (ForkOf (OneOf (entry_seen left))
        (OneOf (entry_seen right)))) result }
    ensures kept { IfOk result (λ new. (h : MapHashes) → IsKept D.numbers h new) }
{
    let left = one(alloc, left)?;
    let right = one(alloc, right)?;
    fork(alloc, left, right)
}

// Makes the tree of two entries, which stands some levels below the root. The only error is `OutOfMemory`.
fn apart<D: DigestItem>(
    alloc: Global,
    level: usize,
    own: Entry,
    other: Entry,
) -> Result<Part<D>, Error>
    requires within { level ≤ 256 }
    requires own_key { IsKey own.key }
    requires other_key { IsKey other.key }
    requires together { way level own.key ≡ way level other.key }
    requires differ { bytes_eq other.key own.key ≡ false }
    ensures made { AnswersBy (shape D.numbers) (Ok (two_of (256 - level) level
        (entry_seen own) (entry_seen other))) result }
    ensures kept { IfOk result (λ new. (h : MapHashes) → IsKept D.numbers h new) }
{
    if have_same_bit(level, &own.key, &other.key) {
        let is_right = bit_of(&own.key, level);
        let below = apart(alloc, level + 1, own, other)?;
        if is_right {
            fork(alloc, Part::Empty, below)
        } else {
            fork(alloc, below, Part::Empty)
        }
    } else {
        if bit_of(&own.key, level) {
            return two(alloc, other, own);
        }
        two(alloc, own, other)
    }
}

// Makes the tree of an entry and a copy of another, which stands some levels below the root. The only error is `OutOfMemory`.
fn apart_from<D: DigestItem>(
    alloc: Global,
    level: usize,
    own: Entry,
    other: &Entry,
) -> Result<Part<D>, Error>
    requires within { level ≤ 256 }
    requires own_key { IsKey own.key }
    requires other_key { IsKey other.now.key }
    requires together { way level own.key ≡ way level other.now.key }
    requires differ { bytes_eq other.now.key own.key ≡ false }
    ensures made { AnswersBy (shape D.numbers) (Ok (two_of (256 - level) level
        (entry_seen own) (entry_seen other.now))) result }
    ensures kept { IfOk result (λ new. (h : MapHashes) → IsKept D.numbers h new) }
{
    let copy = Entry {
        key: other.key,
        value: other.value,
    };
    apart(alloc, level, own, copy)
}

// Puts an entry into a tree that stands some levels below the root. Errors: the tree hides the key's place; `OutOfMemory`.
pub fn put_in<D: DigestItem>(
    alloc: Global,
    part: &mut Part<D>,
    level: usize,
    own: Entry,
) -> Result<(), Error>
    requires within { level ≤ 256 }
    requires own_key { IsKey own.key }
    requires stands { StandsAt (way level own.key) (shape D.numbers part.old) }
    ensures changed { AnswersBy (λ _. shape D.numbers part.new)
        (with_value level (entry_seen own) (shape D.numbers part.old)) result }
    ensures kept { OnErr result (shape D.numbers part.new ≡ shape D.numbers part.old) }
    ensures digests { (h : MapHashes) → IsKept D.numbers h part.old → IsKept D.numbers h part.new }
{
    match part {
        Part::Empty => {
            let new = one(alloc, own)?;
            *part = new;
            Ok(())
        }
        Part::One { entry } => {
            let entry = &mut **entry;
            if are_same_keys(&entry.key, &own.key) {
                *entry = own;
                return Ok(());
            }
            let two = apart_from(alloc, level, own, entry)?;
            *part = two;
            Ok(())
        }
        Part::Fork { sides } => {
            let Sides {
                left,
                right,
                digest,
            } = &mut **sides;
            *digest = None;
            if bit_of(&own.key, level) {
                put_in(alloc, right, level + 1, own)
            } else {
                put_in(alloc, left, level + 1, own)
            }
        }
        Part::Hidden { .. } => Err(hidden()),
    }
}
