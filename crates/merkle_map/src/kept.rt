//! Stores that keep the digests of their tree: a root hashes what changed since the last one, and a proof then hashes leaves
//! alone.

ghost use Rattle.std.specs.Prelude.{◌≡◌, true, [], IfErr, IfOk, OnErr, OnOk, Ok};
ghost use Rattle.ark_base.specs.Outcome.{AnswersBy, IsMemory};
ghost use Rattle.merkle_map.specs.Kept.{changed_key, giving, IsKept, IsShownIn, IsTreeOf, Undoes};
ghost use Rattle.merkle_map.specs.KeyProof.{proof_at, proof_seen};
ghost use Rattle.merkle_map.specs.Map.{put, root_of_map, value_at, without, HaveSame, IsMap};
ghost use Rattle.merkle_map.specs.Parts.{shape, value_seen};
ghost use Rattle.merkle_map.specs.Transition.{change_seen, changed_by};
ghost use Rattle.merkle_map.specs.Tree.{Shape, shape_digest};

use crate::fill::fill;
use crate::hasher::{MapHasher, MapViews};
use crate::part::{Entry, Part, find_entry};
use crate::proof::{KeyProof, climb_down};
use crate::put::put_in;
use crate::remove::remove_shown;
use crate::together::{FEW, fill_together};
use crate::transition::Change;
use ark_base::error::Error;
use std::alloc::Global;
use std::marker::Model;

// The key of a change.
fn key_of(change: &Change) -> &[u8; 32]
    ensures { result.now ≡ changed_key (change_seen change.now) }
{
    match change {
        Change::Put { key, .. } => key,
        Change::Remove { key } => key,
    }
}

// Counts one more change, up to `FEW`.
fn one_more(changes: usize) -> usize {
    if changes < FEW {
        return changes + 1;
    }
    changes
}

/// A map in memory, with its hasher. Contracts see the map and the hasher.
#[derive(Drop)]
pub struct KeptMap<H: MapViews> {
    hasher: MapHasher<H>,
    top: Part<H::Output>,
    // how often a part changed since the last root, up to `FEW`
    changes: usize,
}

impl<H: MapViews> Model for KeptMap<H> {
    ghost use Rattle.merkle_map.specs.Kept.{IsKeptStore, MapValue};
    ghost use Rattle.merkle_map.specs.Map.{HasherValue};
    ghost use Rattle.merkle_map.specs.Parts.{shape};
    ghost use Rattle.merkle_map.specs.Whole.{entries_of};

    ghost Value = { MapValue (HasherValue H.Parameters) };

    ghost view = { λ map. record {
      hasher = map.hasher;
      entries = entries_of (shape H.Output.numbers map.top);
    } };

    ghost invariant = { λ map. IsKeptStore H.Output.numbers (H.hashes map.hasher) map.top };
}

impl<H: MapViews<Input = [u8; 32]>> KeptMap<H> {
    /// Returns the empty map.
    pub fn new(hasher: MapHasher<H>) -> KeptMap<H>
        ensures { result ≡ record { hasher = hasher; entries = [] } }
    {
        KeptMap {
            hasher,
            top: Part::Empty,
            changes: 0,
        }
    }

    /// Returns what the map has at a key.
    pub fn get(&self, key: &[u8; 32]) -> Option<&[u8; 32]>
        ensures found { value_seen (λ value. value.now) result
            ≡ value_at key.now self.now.entries }

        // The map has no key twice.
        ensures once { IsMap self.now.entries }
    {
        match find_entry(&self.top, 0, key) {
            Ok(found) => found,
            Err(_) => None,
        }
    }

    /// Puts a value at a key. The only error is `OutOfMemory`, and it leaves the map unchanged.
    pub fn insert(&mut self, alloc: Global, key: &[u8; 32], value: [u8; 32]) -> Result<(), Error>
        ensures put { OnOk result (HaveSame self.new.entries
            (put key.now value self.old.entries)) }
        ensures hasher { self.new.hasher ≡ self.old.hasher }
        ensures kept { OnErr result (self.new ≡ self.old) }
        ensures memory { IfErr result IsMemory }
    {
        self.changes = one_more(self.changes);
        put_in(alloc, &mut self.top, 0, Entry { key: *key, value })
    }

    /// Removes a key. A map that has nothing at the key stays as it is.
    pub fn remove(&mut self, key: &[u8; 32])
        ensures removed { HaveSame self.new.entries (without key.now self.old.entries) }
        ensures hasher { self.new.hasher ≡ self.old.hasher }
    {
        self.changes = one_more(self.changes);
        remove_shown(&mut self.top, key);
    }

    // Returns the change that gives a key what it has.
    fn change_back(&self, key: &[u8; 32]) -> Change
        ensures { change_seen result ≡ giving key.now (value_at key.now self.now.entries) }
    {
        match self.get(key) {
            Some(value) => Change::Put {
                key: *key,
                value: *value,
            },
            None => Change::Remove { key: *key },
        }
    }

    // Makes a change. The only error is `OutOfMemory`, and it leaves the map unchanged.
    fn make(&mut self, alloc: Global, change: &Change) -> Result<(), Error>
        ensures changed { OnOk result (HaveSame self.new.entries
            (changed_by (change_seen change.now) self.old.entries)) }
        ensures hasher { self.new.hasher ≡ self.old.hasher }
        ensures kept { OnErr result (self.new ≡ self.old) }
        ensures memory { IfErr result IsMemory }
    {
        match change {
            Change::Put { key, value } => self.insert(alloc, key, *value),
            Change::Remove { key } => {
                self.remove(key);
                Ok(())
            }
        }
    }

    /// Makes a change, and returns the one that takes it back. Who keeps these has each older version: taken back from the last one
    /// on, the map has what it had, and so its root.
    ///
    /// The only error is `OutOfMemory`, and it leaves the map unchanged.
    pub fn apply(&mut self, alloc: Global, change: &Change) -> Result<Change, Error>
        ensures changed { OnOk result (HaveSame self.new.entries
            (changed_by (change_seen change.now) self.old.entries)) }

        // With what is returned the map has what it had before.
        ensures back { IfOk result (λ back. Undoes self.old.entries self.new.entries
            (change_seen back)) }
        ensures hasher { self.new.hasher ≡ self.old.hasher }
        ensures kept { OnErr result (self.new ≡ self.old) }
        ensures memory { IfErr result IsMemory }
    {
        let back = self.change_back(key_of(change));
        self.make(alloc, change)?;
        Ok(back)
    }

    /// Returns the root. It hashes each node once that changed since the last call, and leaves beside them.
    ///
    /// Errors: those of the hashes, the lowest first, then the leftmost; `OutOfMemory`. What was hashed before is kept.
    pub fn root(&mut self, alloc: Global) -> Result<H::Output, Error>
        ensures root { AnswersBy H.Output.numbers
            (root_of_map (H.hashes self.old.hasher) self.old.entries) result }
        ensures same { self.new ≡ self.old }
    {
        let are_few = self.changes < FEW;
        self.changes = 0;
        if are_few {
            return fill(alloc, &self.hasher, &mut self.top);
        }
        fill_together(alloc, &self.hasher, &mut self.top)
    }

    /// Returns the proof of what the map has at a key. Behind a call of `root` it hashes leaves beside the key's way alone.
    ///
    /// Errors: that of the highest side beside the key's way whose hash refuses; `OutOfMemory`.
    pub fn prove_key(&self, alloc: Global, key: &[u8; 32]) -> Result<KeyProof<H::Output>, Error>
        // It is that of the map's tree.
        ensures answer { (tree : Shape) × IsTreeOf self.now.entries tree
            × AnswersBy (proof_seen H.Output.numbers)
            (proof_at (H.hashes self.now.hasher) 0 key.now tree) result }

        // The root accepts it.
        ensures accepted { IfOk result (λ proof. IsShownIn (H.hashes self.now.hasher) key.now
            self.now.entries (proof_seen H.Output.numbers proof)) }
    {
        let mut siblings = Vec::new(alloc);
        let end = climb_down(alloc, &self.hasher, &self.top, 0, key, &mut siblings)?;
        Ok(KeyProof { end, siblings })
    }
}
