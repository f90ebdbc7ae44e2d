//! A client of an authenticated store, who keeps the root alone and follows each update by a proof.

ghost use Rattle.std.specs.Prelude.{◌≡◌, ◌≢◌, true, IfOk, Ok};
ghost use Rattle.ark_crypto_primitives.specs.Words.{Answers, ShowsLeaf, received_verdict};
ghost use Rattle.examples.specs.Change.{ShowsChange};

use ark_crypto_primitives::Error;
use ark_crypto_primitives::merkle_tree::{Path, Views};
use ark_crypto_primitives::trees::Sha256Arrays;
use std::alloc::Global;

/// What the client keeps: the root over the store's values, and their count.
#[derive(Debug, Clone, Copy)]
pub struct Follower {
    pub root: [u8; 32],
    pub size: usize,
}

impl Follower {
    /// Returns whether a value stands at an index: the store sent the bytes of its path. Errors: those of
    /// `Path::verify_bytes`.
    pub fn holds(
        &self,
        alloc: Global,
        index: usize,
        value: &Vec<u8>,
        proof: &[u8],
    ) -> Result<bool, Error>
        ensures answer { let hashes = ⟦<Sha256Arrays as Views>⟧.hashes tt tt in
            let reading = ⟦<Sha256Arrays as Views>⟧.path_reading proof.now in
            let verdict = received_verdict hashes self.now.root self.now.size index in
            Answers (verdict value.now reading) result }
        ensures shows { let hashes = ⟦<Sha256Arrays as Views>⟧.hashes tt tt in
            let reading = ⟦<Sha256Arrays as Views>⟧.path_reading proof.now in
            IfOk result (λ holds. holds ≡ true
            → ShowsLeaf hashes self.now.root self.now.size index value.now reading) }
    {
        Path::<Sha256Arrays>::verify_bytes(
            alloc,
            &(),
            &(),
            &self.root,
            self.size,
            index,
            proof,
            value,
        )
    }

    /// Takes the new root of a store in which the value at an index was changed: one path leads from the old value to the
    /// old root and from the new value to the new one.
    pub fn follow(
        &mut self,
        alloc: Global,
        index: usize,
        old: &Vec<u8>,
        new: &Vec<u8>,
        proof: &[u8],
        root: &[u8; 32],
    ) -> Result<bool, Error>
        ensures moves { result ≡ Ok true → self.new ≡ record self.old { root = root.now } }

        // The path showed the old value under the old root, and shows the new one under the new root.
        ensures shown { let hashes = ⟦<Sha256Arrays as Views>⟧.hashes tt tt in
            let reading = ⟦<Sha256Arrays as Views>⟧.path_reading proof.now in
            result ≡ Ok true
            → ShowsLeaf hashes self.old.root self.old.size index old.now reading }
        ensures shows { let hashes = ⟦<Sha256Arrays as Views>⟧.hashes tt tt in
            let reading = ⟦<Sha256Arrays as Views>⟧.path_reading proof.now in
            result ≡ Ok true
            → ShowsLeaf hashes root.now self.old.size index new.now reading }

        // In every store of this size with the old root, the new value in place of the old one, all others left as they are,
        // gives the new root; or two different pairs of the path and of that store are named that hash alike.
        ensures others { let hashes = ⟦<Sha256Arrays as Views>⟧.hashes tt tt in
            let reading = ⟦<Sha256Arrays as Views>⟧.path_reading proof.now in
            let changes = ShowsChange hashes self.old.root root.now self.old.size index in
            result ≡ Ok true → changes old.now new.now reading }

        // Else, and where a call refuses, nothing changes.
        ensures stays { result ≢ Ok true → self.new ≡ self.old }
    {
        let next = Follower {
            root: *root,
            size: self.size,
        };
        if !self.holds(alloc, index, old, proof)? || !next.holds(alloc, index, new, proof)? {
            return Ok(false);
        }
        *self = next;
        Ok(true)
    }
}
