//! Receipts: that an entry stands at an index of a log, as one file (C2SP tlog-proof).

ghost use Rattle.std.specs.Prelude.{◌≡◌, ◌++◌, ◌∷◌, [], None, Some, IfErr, IfOk, IfSome, IsNone, MatchOption, OnOk, Ok, option_map, vec_items};
ghost use Rattle.std.specs.List.{flat_map};
ghost use Rattle.base64.specs.Engines.{standard};
ghost use Rattle.base64.specs.GeneralPurpose.{encode_of};
ghost use Rattle.ark_base.specs.Digits.{AreBytes};
ghost use Rattle.ark_paths.specs.Pair.{Digest};
ghost use Rattle.ark_trees.specs.Rfc6962.{entry_hash, node_of};
ghost use Rattle.log_checkpoints.specs.declared.receipts.ReceiptFault.TheVariants.{Note};
ghost use Rattle.log_checkpoints.specs.Receipts.{digest_line, receipt_of, AreNotNumbered, BeginsOtherwise, HasBadExtra, HaveNoPath, IsBehindExtra, IsMisspelled, IsNumbered, IsPath, IsReceipt, IsReceiptOf, IsUnaccepted, IsUnread, LeadsElsewhere, ShowsEntry};
ghost use Rattle.signed_notes.specs.Cutting.{cut};
ghost use Rattle.signed_notes.specs.declared.fault.Fault.TheVariants.{Memory};
ghost use Rattle.merkle_log.specs.Verdict.{inclusion_verdict};
ghost use Rattle.signed_notes.specs.Views.{policy_parts};

use ark_trees::{LogHasher, digest_of_entry};
use base64::DecodeAllocError;
use base64::engine::general_purpose::STANDARD;
use decimals::decimal_number;
use memchr::memchr;
use merkle_log::verify_inclusion_digest;
use signed_notes::{Checkpoint, Fault, Policy, open_checkpoint};
use std::alloc::{AllocError, Global};

/// How a receipt begins.
pub const TITLE: [u8; 23] = *b"c2sp.org/tlog-proof@v1\n";

// How the line of further bytes begins, and that of the index.
const EXTRA: [u8; 6] = *b"extra ";

const INDEX: [u8; 6] = *b"index ";

/// Why a receipt is not accepted.
#[derive(Drop)]
pub enum ReceiptFault {
    /// The bytes are no receipt.
    Spelling,
    /// The checkpoint is not accepted.
    Note(Fault),
}

/// A receipt that was read.
#[derive(Drop)]
pub struct Receipt<'a> {
    /// Further bytes, of which the log says what they mean.
    pub extra: Option<Vec<u8>>,
    pub index: usize,
    /// The digests beside the way of the entry, from it up.
    pub path: Vec<[u8; 32]>,
    /// The note of the checkpoint.
    pub note: &'a [u8],
}

// Writes the lines of digests behind other bytes.
fn push_path(alloc: Global, path: &[[u8; 32]], out: &mut Vec<u8>) -> Result<(), AllocError>
    ensures { OnOk result (out.new.items ≡ out.old.items ++ flat_map digest_line path.now) }
{
    'digests: for digest in path {
        let word = STANDARD.encode(alloc, digest)?;
        out.extend_from_slice(word.as_bytes())?;
        out.push(b'\n')?;
    }
    Ok(())
}

/// Writes a receipt without further bytes. The error is a lack of memory.
pub fn write_receipt(
    alloc: Global,
    index: usize,
    path: &[[u8; 32]],
    note: &[u8],
) -> Result<Vec<u8>, AllocError>
    ensures { IfOk result (λ bytes. bytes.items ≡ receipt_of None index path.now note.now) }
{
    let mut out = Vec::new(alloc);
    out.extend_from_slice(format!(in alloc;
        "c2sp.org/tlog-proof@v1\nindex {index}\n"
    )?.as_bytes())?;
    push_path(alloc, path, &mut out)?;
    out.push(b'\n')?;
    out.extend_from_slice(note)?;
    Ok(out)
}

// What stands behind some bytes, where they are at the front.
fn after<'a>(front: &[u8], bytes: &'a [u8]) -> Option<&'a [u8]>
    ensures { MatchOption result (BeginsOtherwise front.now bytes.now)
        (λ rest. bytes.now ≡ front.now ++ rest.now) }
{
    if bytes.len() < front.len() || bytes[..front.len()] != front[..] {
        return None;
    }
    Some(&bytes[front.len()..])
}

// The line at the front of bytes, without its line feed, and what stands behind it.
fn cut_line(bytes: &[u8]) -> Option<(&[u8], &[u8])>
    ensures { MatchOption result (cut 10 bytes.now ≡ None)
        (λ found. cut 10 bytes.now ≡ Some (found.0.now, found.1.now)) }
{
    match memchr(b'\n', bytes) {
        Some(end) => Some((&bytes[..end], &bytes[end + 1..])),
        None => None,
    }
}

// The digest that a line spells.
fn digest_of_line(alloc: Global, line: &[u8]) -> Result<[u8; 32], ReceiptFault>
    ensures read { IfOk result (λ digest. line.now ≡ encode_of standard digest) }
    ensures bytes { IfOk result (λ digest. AreBytes 32 digest) }
    ensures refused { IfErr result (IsMisspelled ((digest : Digest) → AreBytes 32 digest
        → line.now ≡ encode_of standard digest → ⊥)) }
{
    match STANDARD.decode(alloc, line) {
        Ok(bytes) if bytes.len() == 32 => {
            let mut digest = [0; 32];
            digest.copy_from_slice(&bytes);
            Ok(digest)
        }
        Ok(_) => Err(ReceiptFault::Spelling),
        Err(DecodeAllocError::OutOfMemory) => Err(ReceiptFault::Note(Fault::Memory)),
        Err(DecodeAllocError::DecodeError(_)) => Err(ReceiptFault::Spelling),
    }
}

// The digests that lines spell up to an empty one, and what stands behind that.
fn path_in(alloc: Global, bytes: &[u8]) -> Result<(Vec<[u8; 32]>, &[u8]), ReceiptFault>
    ensures read { IfOk result (λ read. bytes.now
        ≡ flat_map digest_line read.0.items ++ (10 ∷ read.1.now)) }
    ensures path { IfOk result (λ read. IsPath read.0.items) }
    ensures refused { IfErr result (IsMisspelled (HaveNoPath bytes.now)) }
{
    let mut path = Vec::new(alloc);
    let mut rest = bytes;
    // No path has more digests than a size has bits.
    let mut count = 0usize;
    'lines: while count < 65 {
        let Some((line, behind)) = cut_line(rest) else {
            return Err(ReceiptFault::Spelling);
        };
        if line.is_empty() {
            return Ok((path, behind));
        }
        let digest = digest_of_line(alloc, line)?;
        if path.push(digest).is_err() {
            return Err(ReceiptFault::Note(Fault::Memory));
        }
        rest = behind;
        count += 1;
    }
    Err(ReceiptFault::Spelling)
}

/// A number, a path and a note behind them, that were read.
#[derive(Drop)]
pub(crate) struct Numbered<'a> {
    pub number: usize,
    pub path: Vec<[u8; 32]>,
    pub note: &'a [u8],
}

/// Reads a number, a line for each digest of a path, an empty line, and a note.
pub(crate) fn numbered_in(alloc: Global, bytes: &[u8]) -> Result<Numbered<'_>, ReceiptFault>
    ensures read { IfOk result (λ read.
        IsNumbered read.number read.path.items read.note.now bytes.now) }
    ensures refused { IfErr result (IsMisspelled (AreNotNumbered bytes.now)) }
{
    let Some((line, rest)) = cut_line(bytes) else {
        return Err(ReceiptFault::Spelling);
    };
    let Some(number) = decimal_number(line) else {
        return Err(ReceiptFault::Spelling);
    };
    let (path, note) = path_in(alloc, rest)?;
    Ok(Numbered { number, path, note })
}

// Further bytes, if bytes begin with a line of them, and what stands behind it.
fn extra_in(alloc: Global, bytes: &[u8]) -> Result<(Option<Vec<u8>>, &[u8]), ReceiptFault>
    ensures read { IfOk result (λ read.
        IsBehindExtra (option_map vec_items read.0) read.1.now bytes.now) }
    ensures refused { IfErr result (IsMisspelled (HasBadExtra bytes.now)) }
{
    let Some(rest) = after(&EXTRA, bytes) else {
        return Ok((None, bytes));
    };
    let Some((line, behind)) = cut_line(rest) else {
        return Err(ReceiptFault::Spelling);
    };
    match STANDARD.decode(alloc, line) {
        Ok(extra) => Ok((Some(extra), behind)),
        Err(DecodeAllocError::OutOfMemory) => Err(ReceiptFault::Note(Fault::Memory)),
        Err(DecodeAllocError::DecodeError(_)) => Err(ReceiptFault::Spelling),
    }
}

/// Reads a receipt of at most 64 digests: what `write_receipt` writes, with or without a line of further bytes, and nothing else.
///
/// Errors: `Spelling` for bytes that are none; `Memory`.
pub fn read_receipt(alloc: Global, bytes: &[u8]) -> Result<Receipt<'_>, ReceiptFault>
    ensures read { IfOk result (λ read. IsReceipt (option_map vec_items read.extra)
        read.index read.path.items read.note.now bytes.now) }
    ensures refused { IfErr result (IsUnread bytes.now) }
{
    let Some(titled) = after(&TITLE, bytes) else {
        return Err(ReceiptFault::Spelling);
    };
    let (extra, indexed) = extra_in(alloc, titled)?;
    let Some(rest) = after(&INDEX, indexed) else {
        return Err(ReceiptFault::Spelling);
    };
    let Numbered { number, path, note } = numbered_in(alloc, rest)?;
    Ok(Receipt {
        extra,
        index: number,
        path,
        note,
    })
}

// Whether a path shows an entry at an index of a log with this root and size.
fn is_shown(
    alloc: Global,
    checkpoint: &Checkpoint,
    index: usize,
    entry: &[u8],
    path: &[[u8; 32]],
) -> Result<bool, ReceiptFault>
    ensures shown { IfOk result (λ shown. inclusion_verdict node_of checkpoint.now.root
        checkpoint.now.size index (entry_hash entry.now) path.now ≡ Ok shown) }
    ensures refused { IfErr result (λ why. why ≡ Note Memory) }
{
    let digest = digest_of_entry(entry);
    let (size, index) = (checkpoint.size as u64, index as u64);
    let shown = verify_inclusion_digest(
        alloc,
        &LogHasher,
        &checkpoint.root,
        size,
        index,
        &digest,
        path,
    );
    match shown {
        Ok(shown) => Ok(shown),
        Err(_) => Err(ReceiptFault::Note(Fault::Memory)),
    }
}

/// What a receipt shows: the index of its entry, in the log with this size and root.
#[derive(Clone, Copy)]
pub struct Shown {
    pub index: usize,
    pub size: usize,
    pub root: [u8; 32],
}

/// Returns what a receipt shows of an entry; `None` where its path does not lead from the entry to the root. The checkpoint has to be
/// signed as a policy asks, and to be of an origin.
///
/// Errors, the first that applies: `Spelling`; those of `signed_notes::open_checkpoint`. `Memory` at any time.
pub fn verify_receipt(
    alloc: Global,
    bytes: &[u8],
    entry: &[u8],
    origin: &str,
    policy: &Policy,
) -> Result<Option<Shown>, ReceiptFault>
    ensures shown { let policy = policy_parts policy.now in IfOk result (λ found.
        IfSome found (λ is. IsReceiptOf policy origin.now bytes.now entry.now
        is.index is.size is.root)) }

    // An index at or above the size is refused.
    ensures bound { IfOk result (λ found. IfSome found (λ is.
        ShowsEntry bytes.now entry.now is.index is.size is.root)) }
    ensures none { IfOk result (λ found. IsNone found
        → LeadsElsewhere (policy_parts policy.now) origin.now bytes.now entry.now) }
    ensures refused { IfErr result
        (IsUnaccepted (policy_parts policy.now) origin.now bytes.now) }
{
    let Receipt {
        extra: _,
        index,
        path,
        note,
    } = read_receipt(alloc, bytes)?;
    let checkpoint = match open_checkpoint(alloc, note, origin, policy) {
        Ok(checkpoint) => checkpoint,
        Err(fault) => return Err(ReceiptFault::Note(fault)),
    };
    if is_shown(alloc, &checkpoint, index, entry, &path)? {
        Ok(Some(Shown {
            index,
            size: checkpoint.size,
            root: checkpoint.root,
        }))
    } else {
        Ok(None)
    }
}
