//! The hash of a node, which refuses nothing.

ghost use Rattle.std.specs.Prelude.{◌≡◌};
ghost use Rattle.ark_base.specs.declared.error.Error.TheVariants.{OutOfMemory};
ghost use Rattle.ark_trees.specs.Rfc6962.{node_hash, node_of};

use crate::nodes::NodeHasher;
use ark_crh::ArrayHash;
use ark_trees::LogHasher;

/// Returns the digest of a node over two others, left first.
pub fn node(left: &[u8; 32], right: &[u8; 32]) -> [u8; 32]
    ensures { result ≡ node_hash left.now right.now }
{
    LogHasher::node(left, right)
}

/// No value: there is no refusal.
#[derive(Drop)]
pub enum Never {}

/// Hashes nodes, and counts them. It refuses nothing.
#[derive(Drop)]
pub struct KeptNodes {
    calls: usize,
}

impl KeptNodes {
    /// Makes a hasher that was not asked yet.
    pub fn new() -> KeptNodes
        ensures { result.calls ≡ 0 }
    {
        KeptNodes { calls: 0 }
    }
}

impl NodeHasher<[u8; 32]> for KeptNodes {
    type Refusal = Never;

    ghost hash = { λ _. node_of };

    ghost counted = { λ own. own.calls };

    ghost why = { λ _. OutOfMemory };

    fn node(&mut self, left: &[u8; 32], right: &[u8; 32]) -> Result<[u8; 32], Never> {
        self.calls = self.calls.saturating_add(1);
        Ok(node(left, right))
    }

    fn copied(&self, digest: &[u8; 32]) -> Result<[u8; 32], Never> {
        Ok(*digest)
    }
}
