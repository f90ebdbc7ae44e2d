//! A map whose roots are the entries of a log, one for each version, and a check of what the newest version has at a key.

ghost use Rattle.std.specs.Prelude.{◌≡◌, true, Ok};
ghost use Rattle.merkle_map.specs.Bytes.{itself};
ghost use Rattle.merkle_map.specs.KeyProof.{proof_seen, BindsBy};
ghost use Rattle.merkle_map.specs.Parts.{value_seen};
ghost use Rattle.merkle_map.specs.Sha256.{sha256_map};

use ark_base::error::Error;
use ark_crypto_primitives::log::empty_root;
use ark_trees::LogHasher;
use merkle_log::{Log, verify_inclusion_bytes};
use merkle_map::{KeptMap, KeyProof, Sha256Map};
use std::alloc::Global;

/// A map, and the log of the roots that it had.
#[derive(Drop)]
pub struct Directory {
    pub map: KeptMap<Sha256Map>,
    pub versions: Log<[u8; 32], LogHasher>,
}

// The entry of the log that a root is.
fn entry_of(alloc: Global, root: &[u8; 32]) -> Result<Vec<u8>, Error> {
    let mut entry = Vec::new(alloc);
    entry.extend_from_slice(root)?;
    Ok(entry)
}

impl Directory {
    /// Returns an empty directory, which has no version yet.
    pub fn new(alloc: Global) -> Directory {
        Directory {
            map: KeptMap::new(Sha256Map::new()),
            versions: Log::new(alloc, LogHasher, empty_root()),
        }
    }

    /// Puts a value at a key. Keys should be hashes: whoever chooses keys can make a neighbour's proof longer.
    ///
    /// The only error is `OutOfMemory`, and it leaves the map unchanged.
    pub fn put(&mut self, alloc: Global, key: &[u8; 32], value: [u8; 32]) -> Result<(), Error> {
        self.map.insert(alloc, key, value)
    }

    /// Ends a version: appends the map's root to the log, and returns it. The only error is `OutOfMemory`.
    pub fn publish(&mut self, alloc: Global) -> Result<[u8; 32], Error> {
        let root = self.map.root(alloc)?;
        self.versions.append(alloc, &entry_of(alloc, &root)?)?;
        Ok(root)
    }
}

/// What a client holds: the log's root and the count of versions.
#[derive(Debug, Clone, Copy)]
pub struct Head {
    pub root: [u8; 32],
    pub size: u64,
}

/// Returns whether a root is that of the newest version, and a map with this root has this at a key: a value, or nothing.
///
/// The directory sends the root, the bytes of its path in the log and the key's proof. Errors: those of `verify_inclusion_bytes`;
/// `OutOfMemory`.
pub fn is_newest(
    alloc: Global,
    head: &Head,
    root: &[u8; 32],
    path: &[u8],
    key: &[u8; 32],
    value: Option<&[u8; 32]>,
    proof: &KeyProof<[u8; 32]>,
) -> Result<bool, Error>
    // Each map with this root has this at the key, or two different nodes with one hash are named.
    ensures bound { result ≡ Ok true → BindsBy sha256_map root.now key.now
        (value_seen (λ v. v.now) value.entry) (proof_seen itself proof.now) }
{
    if head.size == 0 {
        return Ok(false);
    }
    let entry = entry_of(alloc, root)?;
    let newest = head.size - 1;
    if !verify_inclusion_bytes(
        alloc, &LogHasher, &head.root, head.size, newest, &entry, path,
    )? {
        return Ok(false);
    }
    proof.verify(alloc, &Sha256Map::new(), root, key, value)
}
