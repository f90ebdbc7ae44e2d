//! A step of a follower by a consistency proof that it is given, without tiles.

ghost use Rattle.std.specs.Prelude.{◌≡◌, is_ok, IfErr, IfOk, OnOk, Ok};
ghost use Rattle.ark_trees.specs.Rfc6962.{node_of};
ghost use Rattle.log_tiles.specs.Followers.{IsMove};
ghost use Rattle.log_tiles.specs.Following.{Continues};
ghost use Rattle.log_tiles.specs.Led.{IsProofFault, IsUnled, IsUnshown};
ghost use Rattle.log_tiles.specs.declared.by_proof.ProofFault.TheVariants.{Memory};
ghost use Rattle.merkle_log.specs.Verdict.{consistency_verdict};

use crate::following::{Head, are_same};
use crate::head_file::HeadFile;
use ark_trees::LogHasher;
use merkle_log::verify_consistency;
use std::alloc::Global;

/// Why a proof does not lead from one head of a log to another.
#[derive(Drop)]
pub enum ProofFault {
    /// The old head has another size than the proof is said to be from.
    Size,
    /// Both heads have as many entries, and two roots.
    Fork,
    /// The proof is not accepted.
    Path,
    /// A request for memory was refused.
    Memory,
}

/// Why a follower did not move on by a proof.
#[derive(Drop)]
pub enum Unshown<W: Drop> {
    /// The proof does not lead from this head, at which the follower was left.
    Proof(Head, ProofFault),
    /// A call on the follower's file was refused.
    File(W),
}

// Whether a proof leads from one head, whose log has entries, to another.
fn is_consistent(
    alloc: Global,
    old: &Head,
    new: &Head,
    path: &[[u8; 32]],
) -> Result<bool, ProofFault>
    ensures verdict { IfOk result (λ yes. consistency_verdict node_of old.now.size old.now.root
        new.now.size new.now.root path.now ≡ Ok yes) }
    ensures memory { IfErr result (λ why. why ≡ Memory) }
{
    let (size, new_size) = (old.size as u64, new.size as u64);
    match verify_consistency(
        alloc, &LogHasher, size, &old.root, new_size, &new.root, path,
    ) {
        Ok(yes) => Ok(yes),
        Err(_) => Err(ProofFault::Memory),
    }
}

/// Checks that a proof leads from an old head, of the size from which it is said to be, to a new one. From a log of no entries the
/// empty proof leads to any.
///
/// Errors, the first that applies: `Size`; `Fork` for another root of as many entries; `Path`. `Memory` at any time.
pub fn continues_by(
    alloc: Global,
    old: &Head,
    old_size: usize,
    new: &Head,
    path: &[[u8; 32]],
) -> Result<(), ProofFault>
    ensures continued { OnOk result (Continues old.now new.now) }
    ensures size { OnOk result (old.now.size ≡ old_size) }
    ensures refused { IfErr result (IsProofFault old.now old_size new.now path.now) }
{
    if old.size != old_size {
        return Err(ProofFault::Size);
    }
    if new.size == old.size && !are_same(&new.root, &old.root) {
        return Err(ProofFault::Fork);
    }
    if old.size == 0 {
        return if path.is_empty() {
            Ok(())
        } else {
            Err(ProofFault::Path)
        };
    }
    if is_consistent(alloc, old, new, path)? {
        Ok(())
    } else {
        Err(ProofFault::Path)
    }
}

/// Moves a follower on to a head to which a proof leads from the head that the file states. The note states the new head. It
/// returns once the new head is on the disk, and writes it also where the head stays, since what was read may not be on the disk.
///
/// Errors: the file's refusal of a read; those of `continues_by`, of which the file is as it was; the file's refusal of the new head.
pub fn follow_by_proof<F: HeadFile>(
    alloc: Global,
    file: &mut F,
    old_size: usize,
    new: &Head,
    path: &[[u8; 32]],
    note: &[u8],
) -> Result<(), Unshown<F::Refusal>>
    ensures obeys { F.Obeys file.new → F.Obeys file.old }

    // What is accepted continues what the file stated, is stated by it, and no crash takes it back.
    ensures step { F.Obeys file.new → IsMove F.holds F.may_leave F.moment F.left_since
        file.old file.new new.now (is_ok result) }
    ensures refused { F.Obeys file.new → IfErr result
        (IsUnshown (F.holds file.old) old_size new.now path.now) }
    ensures kept { IfErr result (λ why. IsUnled why → file.new ≡ file.old) }
{
    let old = match file.read() {
        Ok(old) => old,
        Err(refusal) => return Err(Unshown::File(refusal)),
    };
    if let Err(why) = continues_by(alloc, &old, old_size, new, path) {
        return Err(Unshown::Proof(old, why));
    }
    match file.replace(new, note) {
        Ok(()) => Ok(()),
        Err(refusal) => Err(Unshown::File(refusal)),
    }
}
