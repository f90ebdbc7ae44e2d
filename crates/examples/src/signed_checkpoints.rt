//! A client of a log whose checkpoints are signed: by the log, and by as many witnesses as the client asks for.

ghost use Rattle.std.specs.Prelude.{IfErr, IfOk};
ghost use Rattle.examples.specs.Checkpoints.{IsSignedHead, IsWhyStays};
ghost use Rattle.log_tiles.specs.Following.{Continues};
ghost use Rattle.signed_notes.specs.Views.{policy_parts};

use log_checkpoints::head_of;
use log_tiles::{Head, ProofFault, continues_by};
use signed_notes::{Fault, Policy, open_checkpoint};
use std::alloc::Global;

/// Why a client stays at the head that it has.
#[derive(Drop)]
pub enum Stays {
    /// The note is no checkpoint of the log that is signed as the client asks.
    Note(Fault),
    /// The consistency proof does not lead from the client's head to that of the checkpoint.
    Proof(ProofFault),
}

/// Returns the head of a new checkpoint to which a consistency proof leads from the head that a client has. A client that has none
/// begins at size 0 with the empty proof.
///
/// Errors, the first that applies: those of `open_checkpoint`; those of `continues_by`.
pub fn newer_head(
    alloc: Global,
    held: &Head,
    note: &[u8],
    proof: &[[u8; 32]],
    origin: &str,
    policy: &Policy,
) -> Result<Head, Stays>
    ensures signed { IfOk result (IsSignedHead (policy_parts policy.now) origin.now note.now) }

    // The new log begins with the old one, or two pairs that differ and hash alike are named.
    ensures continues { IfOk result (Continues held.now) }
    ensures stays { IfErr result
        (IsWhyStays (policy_parts policy.now) origin.now note.now held.now proof.now) }
{
    let head = match open_checkpoint(alloc, note, origin, policy) {
        Ok(checkpoint) => head_of(&checkpoint),
        Err(fault) => return Err(Stays::Note(fault)),
    };
    match continues_by(alloc, held, held.size, &head, proof) {
        Ok(()) => Ok(head),
        Err(why) => Err(Stays::Proof(why)),
    }
}
