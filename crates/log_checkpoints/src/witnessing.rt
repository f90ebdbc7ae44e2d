//! Witnesses: they follow a log, and hand out their signature of a checkpoint once it is accepted and on the disk.

ghost use Rattle.std.specs.Prelude.{◌≡◌, vec_items, IfErr};
ghost use Rattle.log_checkpoints.specs.Witnessing.{handed_out, witness_parts, IsCosigned, IsTurn, IsUnvouched, IsUnwritten};

use log_store::Disk;
use log_tiles::{Head, HeadFile, Unmoved, follow};
use signed_notes::{Checkpoint, Cosigner, Fault, Policy, cosign, open_checkpoint};
use std::alloc::Global;

/// A witness of a log: who has to sign the checkpoints that it signs, their origin, and its key.
#[derive(Clone, Copy)]
pub struct Witness<'a> {
    pub policy: Policy<'a>,
    pub origin: &'a str,
    pub key: Cosigner<'a>,
}

/// Why a witness hands out no signature.
#[derive(Drop)]
pub enum Unwitnessed<R: Drop, W: Drop> {
    /// The note is not accepted, or cannot be signed.
    Note(Fault),
    /// The witness did not move on to the note's checkpoint.
    Unmoved(Unmoved<R, W>),
}

/// Returns what a checkpoint states.
pub fn head_of(checkpoint: &Checkpoint) -> Head
    ensures size { result.size ≡ checkpoint.now.size }
    ensures root { result.root ≡ checkpoint.now.root }
{
    Head {
        size: checkpoint.size,
        root: checkpoint.root,
    }
}

/// Moves a witness on to the checkpoint of a note, and returns the note with the log's lines and the witness's, at a time in
/// seconds since 1970. The file states the head that was signed last, and the disk reads the tiles of the new log. The note is
/// signed first and returned last: an error of signing leaves the file, and nothing is handed out before the file states the very
/// head that is signed, on the disk.
///
/// Errors, the first that applies: those of `signed_notes::open_checkpoint` and of `signed_notes::cosign`; those of
/// `log_tiles::follow`.
pub fn witness_checkpoint<D: Disk, F: HeadFile>(
    alloc: Global,
    disk: &D,
    file: &mut F,
    note: &[u8],
    who: &Witness,
    time: u64,
) -> Result<Vec<u8>, Unwitnessed<D::Refusal, F::Refusal>>
    ensures obeys { F.Obeys file.new → F.Obeys file.old }

    // What is handed out is signed of a head that the file's step accepted, so that no crash takes it back.
    ensures turn { F.Obeys file.new → IsTurn F.holds F.may_leave F.moment F.left_since
        (IsCosigned (witness_parts who.now) time note.now) file.old file.new
        (handed_out vec_items result) }
    ensures refused { F.Obeys file.new → D.Obeys disk.now → IfErr result
        (IsUnvouched (witness_parts who.now) time note.now (D.seen disk.now) (F.holds file.old)) }
    ensures kept { IfErr result (λ why. IsUnwritten why → file.new ≡ file.old) }
{
    let checkpoint = match open_checkpoint(alloc, note, who.origin, &who.policy) {
        Ok(checkpoint) => checkpoint,
        Err(fault) => return Err(Unwitnessed::Note(fault)),
    };
    let signed = match cosign(alloc, note, &who.policy.log, &who.key, time) {
        Ok(signed) => signed,
        Err(fault) => return Err(Unwitnessed::Note(fault)),
    };
    match follow(alloc, disk, file, &head_of(&checkpoint), note) {
        Ok(()) => Ok(signed),
        Err(why) => Err(Unwitnessed::Unmoved(why)),
    }
}
