//! The pairs of a log by a tree's hasher, which may refuse.

ghost use Rattle.std.specs.Prelude.{◌≡◌};

use crate::nodes::NodeHasher;
use ark_base::error::Error;
use ark_base::serialize::{DigestItem, Duplicate};
use ark_paths::hasher::TreeHasher;
use std::alloc::Global;

/// Hashes pairs as a tree's hasher does, and counts them.
#[derive(Drop)]
pub struct Refusing<'a, T> {
    alloc: Global,
    hasher: &'a T,
    calls: usize,
}

impl<'a, T> Refusing<'a, T> {
    /// Makes a hasher that was not asked yet.
    pub fn new(alloc: Global, hasher: &'a T) -> Refusing<'a, T>
        ensures hasher { result.hasher.now ≡ hasher.now }
        ensures none { result.calls ≡ 0 }
    {
        Refusing {
            alloc,
            hasher,
            calls: 0,
        }
    }

    /// Returns how many pairs were hashed.
    pub fn calls(&self) -> usize
        ensures { result ≡ self.now.calls }
    {
        self.calls
    }
}

impl<'a, D: DigestItem, T: TreeHasher<D, D>> NodeHasher<D> for Refusing<'a, T> {
    type Refusal = Error;

    ghost hash = { λ own. (T.hashes own.hasher.now).pair.upper };

    ghost counted = { λ own. own.calls };

    ghost why = { λ error. error };

    fn node(&mut self, left: &D, right: &D) -> Result<D, Error> {
        self.calls = self.calls.saturating_add(1);
        self.hasher.upper(self.alloc, left, right)
    }

    fn copied(&self, digest: &D) -> Result<D, Error> {
        Ok(digest.duplicate(self.alloc)?)
    }
}
