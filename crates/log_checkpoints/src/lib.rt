//! Checkpoints of a log that lies in a file, and receipts of entries.
#![tactic(auto)]

ghost use Rattle.std.specs.Prelude.{◌≡◌, ℕ, List, length, take, IfErr, IfOk, OnOk};
ghost use Rattle.ark_paths.specs.Pair.{Digest};
ghost use Rattle.log_checkpoints.specs.Signing.{IsCheckpointOf, IsUnsigned};
ghost use Rattle.log_file.specs.LogFile.{IsLogFile};
ghost use Rattle.log_store.specs.Disk.{After, LeavesOnly, Torn};
ghost use Rattle.log_store.specs.Store.{IsDurable, IsDurableBehind};
ghost use Rattle.signed_notes.specs.Views.{signer_parts};

mod adding;
mod laws;
mod receipts;
mod witnessing;

pub use adding::{
    Denial, OLD, Reply, Unanswered, Unprepared, answer_adding, log_of_request, write_reply,
};
pub use laws::{quorums_of_keys_meet, receipts_have_one_reading, receipts_have_one_verdict};
use log_store::{Disk, Stop, rewrite_head};
pub use receipts::{
    Receipt, ReceiptFault, Shown, TITLE, read_receipt, verify_receipt, write_receipt,
};
use signed_notes::{Checkpoint, Fault, Signer, sign_checkpoint};
use std::alloc::Global;
pub use witnessing::{Unwitnessed, Witness, head_of, witness_checkpoint};

/// Why there is no checkpoint.
#[derive(Drop)]
pub enum Unsigned<R: Drop> {
    /// The call on the log's file stopped.
    Stopped(Stop<R>),
    /// The origin or the key's name is none.
    Note(Fault),
}

/// Signs the checkpoint of the log of a file: its size and its root under its head. The head is written again and synced
/// before it is read, so that no crash takes back what is signed, also where a sync was refused before. Nothing that is
/// read changes.
/// Where it returns an error nothing is signed.
///
/// Errors: the disk's refusal; those of `log_store::root`; those of `signed_notes::sign_checkpoint`.
pub fn checkpoint<D: Disk>(
    alloc: Global,
    disk: &mut D,
    signer: &Signer,
    origin: &str,
) -> Result<Vec<u8>, Unsigned<D::Refusal>>
    ensures signed { let key = signer_parts signer.now in D.Obeys disk.new
        → IfOk result (λ note. IsCheckpointOf (D.seen disk.old) origin.now key note.items) }

    ensures refused { D.Obeys disk.new → IfErr result
        (IsUnsigned (D.seen disk.old) origin.now (signer_parts signer.now)) }

    // A crash leaves the log that was signed.
    ensures durable { D.Obeys disk.new → (leaves : List Digest)
        → IsLogFile leaves (D.seen disk.old)
        → IsDurableBehind (length leaves) (D.seen disk.old) (D.may_leave disk.old)
        → OnOk result (IsDurable (length leaves) (D.seen disk.old) (D.may_leave disk.new)) }
    ensures obeys { D.Obeys disk.new → D.Obeys disk.old }
    ensures same { D.Obeys disk.new → D.seen disk.new ≡ D.seen disk.old }

    // A crash at any moment leaves what it might have left before, but for a head that is mixed of its own bytes and of
    // those that are read.
    ensures any_moment { D.Obeys disk.new → LeavesOnly D.moment D.left_since disk.old disk.new
        (After (Torn 0 (take 96 (D.seen disk.old))) (D.may_leave disk.old)) }

    // Whatever it returned, the digests are as a crash left them before.
    ensures kept { D.Obeys disk.new → (size : ℕ)
        → IsDurableBehind size (D.seen disk.old) (D.may_leave disk.old)
        → IsDurableBehind size (D.seen disk.new) (D.may_leave disk.new) }
{
    if let Err(refusal) = rewrite_head(disk) {
        return Err(Unsigned::Stopped(Stop::Disk(refusal)));
    }
    let (size, root) = match log_store::root(disk, None) {
        Ok(root) => root,
        Err(stop) => return Err(Unsigned::Stopped(stop)),
    };
    let checkpoint = Checkpoint {
        origin,
        size,
        root,
        extensions: "",
    };
    match sign_checkpoint(alloc, &checkpoint, &[*signer]) {
        Ok(note) => Ok(note),
        Err(fault) => Err(Unsigned::Note(fault)),
    }
}
