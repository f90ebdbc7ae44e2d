//! Proofs of what a map has at one key.

ghost use Rattle.std.specs.Prelude.{◌≡◌, ◌≤◌, true, length, map, IfOk, Ok};
ghost use Rattle.ark_base.specs.Outcome.{Answers, AnswersBy};
ghost use Rattle.merkle_map.specs.Bytes.{itself};
ghost use Rattle.merkle_map.specs.KeyProof.{behind_all, end_at, end_seen, proof_at, proof_seen, proof_verdict, seen_with, BindsBy};
ghost use Rattle.merkle_map.specs.Kept.{IsKept};
ghost use Rattle.merkle_map.specs.Parts.{entry_seen, shape, value_seen};
ghost use Rattle.merkle_map.specs.ProofBytes.{proof_bytes, proof_of_bytes, proof_spelled, IsProofOf32, ReadsProofBack};
ghost use Rattle.merkle_map.specs.Tree.{way, StandsAt};

use crate::bytes::{from_index, invalid};
use crate::hasher::{MapHasher, MapViews};
use crate::key::{are_same_keys, bit_of};
use crate::part::{Entry, Part, Sides, digest_of, hidden};
use crate::proof_bytes::{push_end, push_siblings, read_end, read_siblings};
use crate::verify::{KEY_BITS, verify_absent, verify_other, verify_value};
use ark_base::error::Error;
use ark_base::serialize::DigestItem;
use std::alloc::Global;

/// Where a key's way ends.
#[derive(Drop)]
pub enum End {
    /// At no entry: the map has nothing at the key.
    Nothing,
    /// At the key's own entry.
    Own,
    /// At the entry of another key: the map has nothing at the key.
    Other { entry: Entry },
}

/// A proof of what a map has at one key: where the key's way ends, and the digests beside the way, from below the root down.
#[derive(Drop)]
pub struct KeyProof<D> {
    pub end: End,
    pub siblings: Vec<D>,
}

// Makes the end at an entry.
fn end_of(key: &[u8; 32], entry: &Entry) -> End
    ensures { end_seen result ≡ end_at key.now (entry_seen entry.now) }
{
    if are_same_keys(&entry.key, key) {
        return End::Own;
    }
    End::Other {
        entry: Entry {
            key: entry.key,
            value: entry.value,
        },
    }
}

// Finds the end of a key's way in a tree some levels below the root, and puts the digests beside the way behind others. Errors,
// which may leave some: that of the highest side whose hash refuses; `HIDDEN`: the end is hidden; `OutOfMemory`.
pub fn climb_down<D: DigestItem, H: MapViews<Input = [u8; 32], Output = D>>(
    alloc: Global,
    hasher: &MapHasher<H>,
    part: &Part<D>,
    level: usize,
    key: &[u8; 32],
    siblings: &mut Vec<D>,
) -> Result<End, Error>
    requires stands { StandsAt (way level key.now) (shape D.numbers part.now) }
    requires kept { IsKept D.numbers (H.hashes hasher.now) part.now }
    ensures { AnswersBy (seen_with (map D.numbers siblings.new.items))
        (behind_all (map D.numbers siblings.old.items)
        (proof_at (H.hashes hasher.now) level key.now (shape D.numbers part.now))) result }
{
    match part {
        Part::Empty => Ok(End::Nothing),
        Part::One { entry } => Ok(end_of(key, entry)),
        Part::Fork { sides } => {
            let Sides { left, right, .. } = &**sides;
            if bit_of(key, level) {
                let digest = digest_of(alloc, hasher, left)?;
                siblings.push(digest)?;
                climb_down(alloc, hasher, right, level + 1, key, siblings)
            } else {
                let digest = digest_of(alloc, hasher, right)?;
                siblings.push(digest)?;
                climb_down(alloc, hasher, left, level + 1, key, siblings)
            }
        }
        Part::Hidden { .. } => Err(hidden()),
    }
}

impl<D: DigestItem> KeyProof<D> {
    /// Returns whether the proof shows that a map with this root has this at the key: a value, or nothing.
    ///
    /// The answer is `false` where the end does not fit, or for more digests than a key has bits. Errors: those of the hash of
    /// the entry; those of the hash of pairs, the lowest first; `OutOfMemory`.
    pub fn verify<H: MapViews<Input = [u8; 32], Output = D>>(
        &self,
        alloc: Global,
        hasher: &MapHasher<H>,
        root: &D,
        key: &[u8; 32],
        value: Option<&[u8; 32]>,
    ) -> Result<bool, Error>
        ensures answer { Answers (proof_verdict (H.hashes hasher.now) (D.numbers root.now) key.now
            (value_seen (λ v. v.now) value.entry) (proof_seen D.numbers self.now))
            result }

        // Each map with this root has this at the key, or at some level of the key's way the proof and the map's own tree have
        // two different nodes with one hash.
        ensures bound { IfOk result (λ accepted. accepted ≡ true
            → BindsBy (H.hashes hasher.now) (D.numbers root.now) key.now
            (value_seen (λ v. v.now) value.entry) (proof_seen D.numbers self.now)) }
    {
        let siblings = self.siblings.as_slice();
        match &self.end {
            End::Nothing => match value {
                None => verify_absent(alloc, hasher, root, key, siblings),
                Some(_) => Ok(false),
            },
            End::Own => match value {
                None => Ok(false),
                Some(value) => verify_value(alloc, hasher, root, key, value, siblings),
            },
            End::Other { entry } => match value {
                None => {
                    verify_other(alloc, hasher, root, key, &entry.key, &entry.value, siblings)
                }
                Some(_) => Ok(false),
            },
        }
    }
}

impl KeyProof<[u8; 32]> {
    /// Returns the proof's bytes, in which a digest of nothing is a bit. Errors: `InvalidData` for more digests than a key has
    /// bits; `OutOfMemory`.
    pub fn to_bytes<H: MapViews<Input = [u8; 32], Output = [u8; 32]>>(
        &self,
        alloc: Global,
        hasher: &MapHasher<H>,
    ) -> Result<Vec<u8>, Error>
        ensures written { AnswersBy (λ bytes. bytes.items) (proof_bytes
            (H.hashes hasher.now).nothing (proof_seen itself self.now)) result }
        ensures sized { IfOk result (λ _. IsProofOf32 (proof_seen itself self.now)) }
    {
        if self.siblings.len() > KEY_BITS {
            return Err(invalid());
        }
        let nothing = hasher.nothing(alloc)?;
        let mut bytes = Vec::new(alloc);
        push_end(&self.end, &mut bytes)?;
        push_siblings(&nothing, &self.siblings, &mut bytes)?;
        Ok(bytes)
    }

    /// Reads the proof that all the bytes spell.
    ///
    /// Errors: the first fault from the left: `Truncated`; `InvalidData`: a byte that stands for no end, or more digests than a key
    /// has bits; else `InvalidData`: a bit that is set for the digest of nothing or behind the last digest, or bytes that are left;
    /// `OutOfMemory`.
    pub fn from_bytes<H: MapViews<Input = [u8; 32], Output = [u8; 32]>>(
        alloc: Global,
        hasher: &MapHasher<H>,
        bytes: &[u8],
    ) -> Result<KeyProof<[u8; 32]>, Error>
        ensures answer { AnswersBy (proof_seen itself) (proof_of_bytes
            (H.hashes hasher.now).nothing bytes.now) result }

        // The bytes are those of the proof, and of no other one.
        ensures only { IfOk result (λ proof. bytes.now ≡ proof_spelled (H.hashes hasher.now).nothing
            (proof_seen itself proof)) }

        // What was written is read again.
        ensures reads { ReadsProofBack (H.hashes hasher.now).nothing bytes.now }
    {
        let nothing = hasher.nothing(alloc)?;
        let (end, used) = read_end(bytes)?;
        let siblings = read_siblings(alloc, &nothing, from_index(bytes, used))?;
        Ok(KeyProof { end, siblings })
    }
}
