//! Keys, and checkpoints that are signed and verified.

use crate::file_disk::FileDisk;
use crate::reading::key_file_bytes;
use crate::stop::{Stop, StopAt, placed};
use crate::store::{created_secret, random_seed, to_be_signed};
use crate::words::Name;
use log_checkpoints::{Unsigned, checkpoint};
use paxlog_run::request::{Word, bytes_at};
use signed_notes::{Checkpoint, Cosigner, Policy, Signer, Verifier, open_checkpoint};
use std::alloc::Global;

// Puts a line feed behind a line.
fn with_feed(line: Vec<u8>) -> Result<Vec<u8>, Stop> {
    let mut whole = line;
    whole.push(b'\n')?;
    Ok(whole)
}

/// Returns a line without the line feed at its end.
pub fn without_feed(bytes: &[u8]) -> &[u8] {
    match bytes.last() {
        Some(b'\n') => &bytes[..bytes.len() - 1],
        _ => bytes,
    }
}

// The lines of a new key of a log or of a witness: its secret, and its verifier.
fn key_lines(
    alloc: Global,
    name: &str,
    seed: [u8; 32],
    is_witness: bool,
) -> Result<(Vec<u8>, Vec<u8>), Stop> {
    if is_witness {
        let cosigner = Cosigner { name, seed };
        let secret = with_feed(of_note(cosigner.write(alloc))?)?;
        return Ok((
            secret,
            with_feed(of_note(cosigner.verifier().write(alloc))?)?,
        ));
    }
    let signer = Signer { name, seed };
    let secret = with_feed(of_note(signer.write(alloc))?)?;
    Ok((secret, with_feed(of_note(signer.verifier().write(alloc))?)?))
}

/// Makes a key of a name, of a log or of a witness, writes it to a new file that only its owner reads, and returns the line of its
/// verifier.
pub fn keygen(
    rt: &HostRuntime,
    name: Name,
    key_file: Name,
    is_witness: bool,
) -> Result<Vec<u8>, StopAt> {
    let seed = random_seed(rt)?;
    let lines = key_lines(rt.alloc(), name.text, seed, is_witness);
    let (secret, line) = placed(name.place, lines)?;
    placed(key_file.place, created_secret(rt, key_file.text, &secret))?;
    Ok(line)
}

// What is said of a note, or why not.
fn of_note<T: Drop>(said: Result<T, signed_notes::Fault>) -> Result<T, Stop> {
    match said {
        Ok(value) => Ok(value),
        Err(fault) => Err(Stop::from(fault)),
    }
}

/// Returns the key that the text of a key file says.
pub fn signed_by(alloc: Global, text: &[u8]) -> Result<Signer<'_>, Stop> {
    of_note(Signer::read(alloc, without_feed(text)))
}

/// Signs the checkpoint of the log of a file by a key. Its origin is the name of the key where no other is named.
pub fn note_of(
    rt: &HostRuntime,
    disk: &mut FileDisk,
    signer: &Signer,
    origin: Option<&str>,
) -> Result<Vec<u8>, Stop> {
    match checkpoint(rt.alloc(), disk, signer, origin.unwrap_or(signer.name)) {
        Ok(note) => Ok(note),
        Err(Unsigned::Stopped(stop)) => Err(Stop::from(stop)),
        Err(Unsigned::Note(fault)) => Err(Stop::from(fault)),
    }
}

/// Returns the checkpoint of the log of a file, signed by the key of another file.
pub fn sign_log(
    rt: &HostRuntime,
    log: Name,
    key_file: Name,
    origin: Option<&str>,
) -> Result<Vec<u8>, StopAt> {
    let text = key_file_bytes(rt, key_file)?;
    let signer = placed(key_file.place, signed_by(rt.alloc(), &text))?;
    let mut disk = placed(log.place, to_be_signed(rt, log.text))?;
    placed(log.place, note_of(rt, &mut disk, &signer, origin))
}

/// Returns the key of a verifier that a word says.
pub fn verifier(alloc: Global, words: &[Vec<u8>], key: Word) -> Result<Verifier<'_>, StopAt> {
    match Verifier::read(alloc, bytes_at(words, key.place)) {
        Ok(key) => Ok(key),
        Err(fault) => Err(Stop::from(fault).at(key.place)),
    }
}

/// Returns the size and the root that a checkpoint states, where it is signed as a policy asks and its origin is this one.
pub fn opened(
    alloc: Global,
    policy: &Policy,
    note: &[u8],
    origin: &str,
) -> Result<(usize, [u8; 32]), signed_notes::Fault> {
    let Checkpoint { size, root, .. } = open_checkpoint(alloc, note, origin, policy)?;
    Ok((size, root))
}

/// Returns why a note or a key is none, or is not accepted.
pub fn reason(fault: signed_notes::Fault) -> &'static str {
    match fault {
        signed_notes::Fault::Memory => "a request for memory was refused",
        signed_notes::Fault::TooLong => "the note has more than 1,000,000 bytes",
        signed_notes::Fault::NotText => "the note is no text",
        signed_notes::Fault::NoSignatures => "the note has no signature",
        signed_notes::Fault::Unfinished => "the note ends early",
        signed_notes::Fault::TooMany => "the note has more than 100 signatures",
        signed_notes::Fault::Line => "a line of the note is no signature",
        signed_notes::Fault::Name =>
            "the name of a key is empty, or has white space or a plus sign",
        signed_notes::Fault::Base64 => "the Base64 is damaged",
        signed_notes::Fault::Short => "a signature of the note is empty",
        signed_notes::Fault::Key => "the key is none",
        signed_notes::Fault::Algorithm => "the key is of another algorithm",
        signed_notes::Fault::Ecdsa => "the key is of ECDSA, where Ed25519 is read alone",
        signed_notes::Fault::TreeHead =>
            "the key is of tree heads of RFC 6962, where Ed25519 is read alone",
        signed_notes::Fault::KeyHash => "the key has another hash",
        signed_notes::Fault::BadSignature => "a signature by the key does not hold",
        signed_notes::Fault::UnknownKey => "the key did not sign the note",
        signed_notes::Fault::OtherOrigin => "the checkpoint is of another origin",
        signed_notes::Fault::FewWitnesses => "too few witnesses signed the checkpoint",
        signed_notes::Fault::Origin => "the origin is no line of text",
        signed_notes::Fault::Size => "the size is no number",
        signed_notes::Fault::Root => "the root has not 32 bytes",
        signed_notes::Fault::Extensions => "a line behind the root is empty or no text",
    }
}
