//! Followers of a log: whoever keeps its last size and root, and moves on by its tiles.

ghost use Rattle.std.specs.Prelude.{◌≡◌, ◌≢◌, ◌<◌, List, take, true, false, IfOk, IfErr, IsErr, IsOk, OnOk, Ok, Err};
ghost use Rattle.std.specs.Bool.{Decides};
ghost use Rattle.ark_paths.specs.Pair.{Digest};
ghost use Rattle.ark_trees.specs.Rfc6962.{node_of};
ghost use Rattle.log_file.specs.LogFile.{IsLogFile};
ghost use Rattle.log_tiles.specs.Audit.{AreTilesOf};
ghost use Rattle.log_tiles.specs.Following.{Continues, IsFork, IsHindered, IsUncontinued, IsUnproved};
ghost use Rattle.log_tiles.specs.Ways.{IsLogOf};
ghost use Rattle.log_tiles.specs.declared.unfollowed.Unfollowed.TheVariants.{Fork, Shrunk, Stopped};
ghost use Rattle.merkle_log.specs.Verdict.{inclusion_verdict};

use crate::tiled::{TileDisk, Tiles};
use crate::unfollowed::Unfollowed;
use log_file::fault::Fault;
use log_store::{Disk, InclusionProof, Stop};
use std::alloc::Global;

/// What a checkpoint states of a log.
#[derive(Clone, Copy)]
pub struct Head {
    pub size: usize,
    pub root: [u8; 32],
}

/// Returns whether two digests are the same.
pub fn are_same(a: &[u8; 32], b: &[u8; 32]) -> bool
    ensures { Decides result (a.now ≡ b.now) }
{
    *a == *b
}

impl Head {
    /// Returns whether it states this size and root.
    pub fn is(&self, size: usize, root: &[u8; 32]) -> bool
        ensures { Decides result ((self.now.size ≡ size) × (self.now.root ≡ root.now)) }
    {
        self.size == size && are_same(&self.root, root)
    }
}

// Refuses a size and a root of what was read that are not those of the checkpoint.
fn if_same<R: Drop>(head: &Head, size: usize, root: &[u8; 32]) -> Result<(), Unfollowed<R>>
    ensures same { OnOk result ((head.now.size ≡ size) × (head.now.root ≡ root.now)) }
    ensures damaged { IfErr result (λ why. why ≡ Stopped (Stop.Fault Fault.Damaged)) }
    ensures other { IsErr result → (head.now.size ≡ size) × (head.now.root ≡ root.now) → ⊥ }
{
    if head.is(size, root) {
        Ok(())
    } else {
        Err(Unfollowed::Stopped(Stop::Fault(Fault::Damaged)))
    }
}

/// Returns the inclusion proof of an index in the log of a checkpoint, whose tiles the disk reads.
///
/// Errors, the first that applies: those of `log_store::prove`; `Damaged` where the tiles are of another log.
pub fn prove_in_tiles<D: Disk>(
    alloc: Global,
    disk: &D,
    head: &Head,
    index: usize,
) -> Result<InclusionProof, Unfollowed<D::Refusal>>
    // Whatever the tiles have, the proof is accepted under the root that the checkpoint states.
    ensures accepted { IfOk result (λ proof. inclusion_verdict node_of head.now.root head.now.size
        index proof.digest proof.path.items ≡ Ok true) }
    ensures refused { D.Obeys disk.now
        → IfErr result (IsUnproved (D.seen disk.now) head.now index) }
    ensures followed { IfErr result (λ why. (why ≢ Fork) × (why ≢ Shrunk)) }

    // An entry of the head's own log has a proof.
    ensures honest { D.Obeys disk.now → (leaves : List Digest)
        → IsLogFile leaves (D.seen disk.now) → IsLogOf head.now leaves → index < head.now.size
        → IfErr result IsHindered }
{
    match log_store::prove(alloc, disk, index, None) {
        Ok(proof) => {
            if_same(head, proof.size, &proof.root)?;
            Ok(proof)
        }
        Err(stop) => Err(Unfollowed::Stopped(stop)),
    }
}

/// Checks that the log of a new checkpoint continues that of an old one. The disk reads the tiles of the new log.
///
/// Errors, the first that applies: `Shrunk` for fewer entries; `Fork` for another root of as many; those of
/// `log_store::consistency`; `Damaged` where the tiles are of another log; `Fork` where the new log has another root of the old
/// size.
pub fn continues<D: Disk>(
    alloc: Global,
    disk: &D,
    old: &Head,
    new: &Head,
) -> Result<(), Unfollowed<D::Refusal>>
    // Whatever the tiles have: a consistency proof of the two is accepted.
    ensures continued { OnOk result (Continues old.now new.now) }
    ensures same { new.now ≡ old.now → IsOk result }
    ensures forked { new.now.size ≡ old.now.size → new.now.root ≢ old.now.root → result ≡ Err Fork }
    ensures shrunk { new.now.size < old.now.size → result ≡ Err Shrunk }
    ensures shorter { result ≡ Err Shrunk → new.now.size < old.now.size }

    ensures refused { D.Obeys disk.now
        → IfErr result (IsUncontinued (D.seen disk.now) old.now new.now) }

    // No log has both: the new one has another root of the old size.
    ensures fork { result ≡ Err Fork → IsFork old.now new.now }

    // A log whose first entries are the old log continues it.
    ensures honest { D.Obeys disk.now → (leaves : List Digest)
        → IsLogFile leaves (D.seen disk.now) → IsLogOf new.now leaves
        → IsLogOf old.now (take old.now.size leaves) → IfErr result IsHindered }
{
    if new.size < old.size {
        return Err(Unfollowed::Shrunk);
    }
    if new.size == old.size {
        return if are_same(&new.root, &old.root) {
            Ok(())
        } else {
            Err(Unfollowed::Fork)
        };
    }
    if old.size == 0 {
        let (size, root) = match log_store::root(disk, None) {
            Ok(root) => root,
            Err(stop) => return Err(Unfollowed::Stopped(stop)),
        };
        return if_same(new, size, &root);
    }
    let proof = match log_store::consistency(alloc, disk, old.size, None) {
        Ok(proof) => proof,
        Err(stop) => return Err(Unfollowed::Stopped(stop)),
    };
    if_same(new, proof.size, &proof.root)?;
    if are_same(&proof.old_root, &old.root) {
        Ok(())
    } else {
        Err(Unfollowed::Fork)
    }
}

/// Returns whether all tiles of the log of a checkpoint are those of one log with its root: the digests at its right edge lead to the
/// root, and the root of each full tile is the digest above it. It reads each full tile once, and for each the digest above it.
///
/// The error is that of a tile that could not be read.
pub fn audit<T: Tiles + Drop>(disk: &TileDisk<T>, head: &Head) -> Result<bool, T::Refusal>
    // Where the tiles obey, they are those of one log with the root.
    ensures sound { T.Obeys disk.now.tiles → result ≡ Ok true
        → AreTilesOf (T.has disk.now.tiles) head.now.size head.now.root }

    // The tiles of a log with the root are never found to be others.
    ensures honest { T.Obeys disk.now.tiles → disk.now.size ≡ head.now.size
        → AreTilesOf (T.has disk.now.tiles) head.now.size head.now.root → result ≢ Ok false }
{
    let root = match disk.root() {
        Ok(root) => root,
        Err(refusal) => return Err(refusal),
    };
    if !head.is(disk.size(), &root) {
        return Ok(false);
    }
    match disk.is_hashed() {
        Ok(all) => Ok(all),
        Err(refusal) => Err(refusal),
    }
}
