//! Notes that are verified, and signed.

ghost use Rattle.std.specs.Prelude.{◌≡◌, ◌⊎◌, true, All, IfOk, IfErr, OnOk, IsOkUnless, Ok, map, vec_items};
ghost use Rattle.std.specs.Bool.{Decides};
ghost use Rattle.std.specs.List.{list_any};
ghost use Rattle.signed_notes.specs.Faults.{NoteGivesBy};
ghost use Rattle.signed_notes.specs.Reading.{read_note};
ghost use Rattle.signed_notes.specs.Verifying.{accepted_by, hash_of, is_any, is_named, sign_note, signed_by, AreTrue, IsMadeBy, IsRejected, IsTrueOf, IsWhy};
ghost use Rattle.signed_notes.specs.Views.{note_parts, parts, signer_parts, verifier_parts};
ghost use Rattle.signed_notes.specs.declared.fault.Fault.TheVariants.{BadSignature, Memory};

use crate::cosignature::is_cosignature;
use crate::fault::Fault;
use crate::keys::{Algorithm, Signer, Verifier};
use crate::note::{Note, Signature, read};
use crate::writing::write;
use ed25519::{sign, verify as is_signature};
use std::alloc::Global;

// Whether a signature names a key.
pub(crate) fn is_named(verifier: &Verifier, hash: &[u8; 4], signature: &Signature) -> bool
    requires { hash_of (verifier_parts verifier.now) ≡ hash.now }
    ensures { result ≡ is_named (verifier_parts verifier.now) (parts signature.now) }
{
    signature.name == verifier.name && signature.hash == *hash
}

// Whether a signature is one by a key.
fn is_made_by(
    alloc: Global,
    verifier: &Verifier,
    text: &str,
    signature: &Signature,
) -> Result<bool, Fault>
    ensures decided { let key = verifier_parts verifier.now in
        IfOk result (λ made. Decides made (IsMadeBy key text.now (parts signature.now))) }
    ensures memory { IsOkUnless result Memory }
{
    match verifier.algorithm {
        Algorithm::Ed25519 => Ok(is_signature(&verifier.key, text.as_bytes(), &signature.bytes)),
        Algorithm::CosignatureV1 => { is_cosignature(alloc, &verifier.key, text, &signature.bytes) }
    }
}

// Whether a signature names a key; then it has to be by this key.
fn is_by(
    alloc: Global,
    verifier: &Verifier,
    hash: &[u8; 4],
    text: &str,
    signature: &Signature,
) -> Result<bool, Fault>
    requires { hash_of (verifier_parts verifier.now) ≡ hash.now }
    ensures named { let key = verifier_parts verifier.now in
        IfOk result (λ named. named ≡ is_named key (parts signature.now)) }
    ensures signed { let key = verifier_parts verifier.now in
        OnOk result (IsTrueOf key text.now (parts signature.now)) }
    ensures refused { let key = verifier_parts verifier.now in IfErr result (λ fault.
        (fault ≡ Memory)
        ⊎ ((fault ≡ BadSignature) × (IsTrueOf key text.now (parts signature.now) → ⊥))) }
{
    if !is_named(verifier, hash, signature) {
        return Ok(false);
    }
    if !is_made_by(alloc, verifier, text, signature)? {
        return Err(Fault::BadSignature);
    }
    Ok(true)
}

// Whether a signature names a key; all that do have to be by it.
pub(crate) fn any_by(
    alloc: Global,
    verifier: &Verifier,
    text: &str,
    signatures: &[Signature],
) -> Result<bool, Fault>
    ensures any { let key = verifier_parts verifier.now in
        IfOk result (λ any. any ≡ list_any (is_named key) (map parts signatures.now)) }
    ensures signed { let key = verifier_parts verifier.now in
        OnOk result (All (IsTrueOf key text.now) (map parts signatures.now)) }
    ensures refused { let key = verifier_parts verifier.now in IfErr result (λ fault.
        (fault ≡ Memory) ⊎ ((fault ≡ BadSignature)
        × (All (IsTrueOf key text.now) (map parts signatures.now) → ⊥))) }
{
    let hash = verifier.hash();
    let mut any = false;
    for signature in signatures {
        match is_by(alloc, verifier, &hash, text, signature) {
            Ok(named) => any |= named,
            Err(fault) => return Err(fault),
        }
    }
    Ok(any)
}

/// A note that is verified.
#[derive(Drop)]
pub struct Verified<'a> {
    pub note: Note<'a>,
    /// Of each known key, in their order, whether the note has a signature by it.
    pub accepted: Vec<bool>,
}

// Of each known key, whether a signature is by it.
fn accepted(alloc: Global, known: &[Verifier], note: &Note) -> Result<Vec<bool>, Fault>
    ensures accepted { let signatures = (note_parts note.now).signatures in
        IfOk result (λ all. all.items ≡ accepted_by (map verifier_parts known.now) signatures) }
    ensures signed { OnOk result (AreTrue (map verifier_parts known.now) (note_parts note.now)) }
    ensures refused { IfErr result (λ fault. (fault ≡ Memory) ⊎ ((fault ≡ BadSignature)
        × (AreTrue (map verifier_parts known.now) (note_parts note.now) → ⊥))) }
{
    let mut accepted = Vec::new(alloc);
    for verifier in known {
        match any_by(alloc, verifier, note.text, &note.signatures) {
            Ok(any) => accepted.push(any)?,
            Err(fault) => return Err(fault),
        }
    }
    Ok(accepted)
}

// Whether some test is true.
fn is_any(tests: &[bool]) -> bool
    ensures { result ≡ is_any tests.now }
{
    tests.iter().any(|test| *test)
}

// The same of a note that has a signature by a known key.
fn accepted_some(alloc: Global, known: &[Verifier], note: &Note) -> Result<Vec<bool>, Fault>
    ensures accepted { let signatures = (note_parts note.now).signatures in
        IfOk result (λ all. all.items ≡ accepted_by (map verifier_parts known.now) signatures) }
    ensures signed { OnOk result (AreTrue (map verifier_parts known.now) (note_parts note.now)) }
    ensures some { IfOk result (λ all. is_any all.items ≡ true) }
    ensures refused { let keys = map verifier_parts known.now in IfErr result (λ fault.
        (fault ≡ Memory) ⊎ IsRejected keys (note_parts note.now) fault) }
{
    match accepted(alloc, known, note) {
        Ok(accepted) if is_any(&accepted) => Ok(accepted),
        Ok(_) => Err(Fault::UnknownKey),
        Err(fault) => Err(fault),
    }
}

/// Reads a note and verifies it: it needs a signature by a known key, and each that names one has to be by this key.
/// Signatures that name no known key count for nothing.
///
/// Errors, the first that applies: those of `read`; `BadSignature`; `UnknownKey`. `Memory` at any time.
pub fn verify<'a>(alloc: Global, bytes: &'a [u8], known: &[Verifier]) -> Result<Verified<'a>, Fault>
    ensures read { IfOk result (λ verified. read_note bytes.now ≡ Ok (note_parts verified.note)) }
    ensures signed { IfOk result (λ verified.
        AreTrue (map verifier_parts known.now) (note_parts verified.note)) }
    ensures accepted { IfOk result (λ verified. verified.accepted.items
        ≡ accepted_by (map verifier_parts known.now) (note_parts verified.note).signatures) }
    ensures some { IfOk result (λ verified. is_any verified.accepted.items ≡ true) }
    ensures refused { IfErr result (IsWhy (map verifier_parts known.now) bytes.now) }
{
    let note = read(alloc, bytes)?;
    match accepted_some(alloc, known, &note) {
        Ok(accepted) => Ok(Verified { note, accepted }),
        Err(fault) => Err(fault),
    }
}

/// Returns the signature of a text by a key (RFC 8032, 5.1.6). Errors: `Memory`.
pub fn signature_of<'a>(
    alloc: Global,
    signer: &Signer<'a>,
    text: &str,
) -> Result<Signature<'a>, Fault>
    ensures signed { IfOk result (λ signature.
        parts signature ≡ signed_by text.now (signer_parts signer.now)) }
    ensures memory { IsOkUnless result Memory }
{
    let hash = signer.verifier().hash();
    let bytes = Vec::from_slice(alloc, &sign(&signer.seed, text.as_bytes()))?;
    Ok(Signature {
        name: signer.name,
        hash,
        bytes,
    })
}

/// Signs a text by keys, in their order, and writes the note. It writes nothing where it returns an error.
///
/// Errors: those of `write`.
pub fn sign_note(alloc: Global, text: &str, signers: &[Signer]) -> Result<Vec<u8>, Fault>
    ensures { NoteGivesBy vec_items (sign_note text.now (map signer_parts signers.now)) result }
{
    let mut signatures = Vec::new(alloc);
    for signer in signers {
        signatures.push(signature_of(alloc, signer, text)?)?;
    }
    write(alloc, text, &signatures)
}
