//! Cosignatures of checkpoints (C2SP tlog-cosignature).

ghost use Rattle.std.specs.Prelude.{◌≡◌, length, map, vec_items, IfOk, IsOkUnless, string_bytes};
ghost use Rattle.std.specs.Bool.{Decides};
ghost use Rattle.std.specs.Int.{w64, from_be_bytes};
ghost use Rattle.signed_notes.specs.Cosignatures.{cosigned, stated_time, IsCosignature};
ghost use Rattle.signed_notes.specs.Faults.{NoteGivesBy};
ghost use Rattle.signed_notes.specs.Verifying.{cosign, cosign_read, cosigned_by, naming, sign_checkpoint};
ghost use Rattle.signed_notes.specs.Views.{checkpoint_parts, cosigner_parts, note_parts, parts, signer_parts, verifier_parts};
ghost use Rattle.signed_notes.specs.declared.fault.Fault.TheVariants.{Memory};

use crate::checkpoint::Checkpoint;
use crate::fault::Fault;
use crate::keys::{Cosigner, Signer, Verifier};
use crate::note::{Note, Signature, read};
use crate::verifying::{is_named, sign_note};
use crate::writing::write;
use ed25519::{sign, verify as is_signature};
use std::alloc::Global;

// The text that is signed: of a title, a time and a text.
fn cosigned(alloc: Global, time: u64, text: &str) -> Result<String, Fault>
    ensures text { IfOk result (λ message. string_bytes message ≡ cosigned time text.now) }
    ensures memory { IsOkUnless result Memory }
{
    Ok(format!(in alloc; "cosignature/v1\ntime {time}\n{text}")?)
}

// The time that eight bytes state.
fn time_in(bytes: &[u8]) -> u64
    requires { length bytes.now ≡ 8 }
    ensures { result ≡ from_be_bytes w64 bytes.now }
{
    let mut eight = [0; 8];
    eight.copy_from_slice(bytes);
    u64::from_be_bytes(eight)
}

/// Returns the time that a signature states, in seconds since 1970, where it is as long as a cosignature; else 0.
pub(crate) fn stated_time(bytes: &[u8]) -> u64
    ensures { result ≡ stated_time bytes.now }
{
    if bytes.len() == 72 {
        time_in(&bytes[..8])
    } else {
        0
    }
}

// Whether bytes are a cosignature of a text.
pub(crate) fn is_cosignature(
    alloc: Global,
    key: &[u8; 32],
    text: &str,
    bytes: &[u8],
) -> Result<bool, Fault>
    ensures decided { IfOk result (λ made.
        Decides made (IsCosignature key.now text.now bytes.now)) }
    ensures memory { IsOkUnless result Memory }
{
    if bytes.len() != 72 {
        return Ok(false);
    }
    let (time, signature) = bytes.split_at(8);
    let message = cosigned(alloc, time_in(time), text)?;
    Ok(is_signature(key, message.as_bytes(), signature))
}

/// Returns the cosignature of a text at a time, in seconds since 1970. Errors: `Memory`.
pub fn cosignature_of<'a>(
    alloc: Global,
    cosigner: &Cosigner<'a>,
    time: u64,
    text: &str,
) -> Result<Signature<'a>, Fault>
    ensures signed { IfOk result (λ signature.
        parts signature ≡ cosigned_by text.now time (cosigner_parts cosigner.now)) }
    ensures memory { IsOkUnless result Memory }
{
    let hash = cosigner.verifier().hash();
    let message = cosigned(alloc, time, text)?;
    let mut bytes = Vec::from_slice(alloc, &time.to_be_bytes())?;
    bytes.extend_from_slice(&sign(&cosigner.seed, message.as_bytes()))?;
    Ok(Signature {
        name: cosigner.name,
        hash,
        bytes,
    })
}

// The signatures that name a key.
fn naming<'a>(
    alloc: Global,
    signatures: Vec<Signature<'a>>,
    key: &Verifier,
) -> Result<Vec<Signature<'a>>, Fault>
    ensures named { let key = verifier_parts key.now in IfOk result (λ kept.
        map parts kept.items ≡ naming key (map parts signatures.entry.items)) }
    ensures memory { IsOkUnless result Memory }
{
    let hash = key.hash();
    let mut kept = Vec::new(alloc);
    'signatures: for signature in signatures {
        if is_named(key, &hash, &signature) {
            kept.push(signature)?;
        }
    }
    Ok(kept)
}

// Writes the note of a checkpoint with its log's signatures and a cosignature.
fn cosign_read<'a>(
    alloc: Global,
    note: Note<'a>,
    log: &Verifier,
    cosigner: &Cosigner<'a>,
    time: u64,
) -> Result<Vec<u8>, Fault>
    ensures { let log = verifier_parts log.now in
        let key = cosigner_parts cosigner.now in
        NoteGivesBy vec_items (cosign_read log time key (note_parts note.entry)) result }
{
    let Note { text, signatures } = note;
    Checkpoint::read(alloc, text.as_bytes())?;
    let mut all = naming(alloc, signatures, log)?;
    all.push(cosignature_of(alloc, cosigner, time, text)?)?;
    write(alloc, text, &all)
}

/// Writes the note of a checkpoint with its log's signatures and the cosignature of a witness behind them (C2SP
/// tlog-witness). No other line stays, since whoever serves the note can add some. The log's signatures are not verified:
/// open the checkpoint first, and compare it with the one that was signed before.
///
/// Errors, the first that applies: those of `read`; those of `Checkpoint::read`; those of `write`. `Memory` at any time.
pub fn cosign<'a>(
    alloc: Global,
    bytes: &'a [u8],
    log: &Verifier,
    cosigner: &Cosigner<'a>,
    time: u64,
) -> Result<Vec<u8>, Fault>
    ensures { let log = verifier_parts log.now in
        let key = cosigner_parts cosigner.now in
        NoteGivesBy vec_items (cosign log time key bytes.now) result }
{
    let note = read(alloc, bytes)?;
    cosign_read(alloc, note, log, cosigner, time)
}

/// Signs a checkpoint by keys, in their order, and writes the note. It writes nothing where it returns an error.
///
/// Errors, the first that applies: those of `Checkpoint::write`; those of `write`.
pub fn sign_checkpoint(
    alloc: Global,
    checkpoint: &Checkpoint,
    signers: &[Signer],
) -> Result<Vec<u8>, Fault>
    ensures { let keys = map signer_parts signers.now in
        NoteGivesBy vec_items (sign_checkpoint (checkpoint_parts checkpoint.now) keys) result }
{
    let text = checkpoint.write(alloc)?;
    sign_note(alloc, text.as_str(), signers)
}
