//! Cosignatures that came apart, put to one note.

ghost use Rattle.std.specs.Prelude.{◌≡◌, ◌++◌, map, not, IfErr, IfOk, IfSome, IsNone, IsOkUnless, OnOk};
ghost use Rattle.std.specs.List.{filter};
ghost use Rattle.signed_notes.specs.Faults.{NoteGivesBy};
ghost use Rattle.signed_notes.specs.Joining.{are_alike, have_alike, names_any, HaveTwoTexts, IsGathered, IsNotGathered};
ghost use Rattle.signed_notes.specs.Views.{parts, verifier_parts};
ghost use Rattle.signed_notes.specs.declared.fault.Fault.TheVariants.{Memory};

use crate::fault::Fault;
use crate::keys::Verifier;
use crate::note::{Note, Signature, read};
use crate::opening::keep_since;
use crate::verifying::{Verified, is_named, verify};
use crate::writing::write;
use std::alloc::Global;

// Whether a signature names one of some keys.
fn names_any(keys: &[Verifier], signature: &Signature) -> bool
    ensures { result ≡ names_any (map verifier_parts keys.now) (parts signature.now) }
{
    let mut any = false;
    for key in keys {
        any |= is_named(key, &key.hash(), signature);
    }
    any
}

// Whether two signatures have the same name and hash.
fn are_alike(a: &Signature, b: &Signature) -> bool
    ensures { result ≡ are_alike (parts a.now) (parts b.now) }
{
    a.name == b.name && a.hash == b.hash
}

// Whether a signature is alike one of these.
fn have_alike(signatures: &[Signature], signature: &Signature) -> bool
    ensures { result ≡ have_alike (map parts signatures.now) (parts signature.now) }
{
    let mut any = false;
    for one in signatures {
        any |= are_alike(one, signature);
    }
    any
}

// Leaves the signatures that name one of some keys.
fn keep_named(signatures: &mut Vec<Signature>, keys: &[Verifier])
    ensures { map parts signatures.new.items
        ≡ filter (names_any (map verifier_parts keys.now)) (map parts signatures.old.items) }
{
    signatures.retain(|signature| names_any(keys, signature));
}

// Leaves the signatures that are alike none of others.
fn keep_apart(signatures: &mut Vec<Signature>, others: &[Signature])
    ensures { map parts signatures.new.items
        ≡ filter (λ s. not (have_alike (map parts others.now) s)) (map parts signatures.old.items) }
{
    signatures.retain(|signature| !have_alike(others, signature));
}

// Puts signatures behind others, without those of these that they are alike.
fn with_more<'a>(
    own: Vec<Signature<'a>>,
    more: Vec<Signature<'a>>,
) -> Result<Vec<Signature<'a>>, Fault>
    ensures joined { IfOk result (λ all. map parts all.items
        ≡ filter (λ s. not (have_alike (map parts more.entry.items) s)) (map parts own.entry.items)
        ++ map parts more.entry.items) }
    ensures memory { IsOkUnless result Memory }
{
    let (mut all, mut more) = (own, more);
    keep_apart(&mut all, &more);
    all.append(&mut more)?;
    Ok(all)
}

/// Writes a note with the signatures of another one of the same text by some keys, in place of its own by them. Signatures that state
/// an earlier time than `since`, in seconds since 1970, or none, are left out, unless it is 0. Returns `None` where the texts differ.
///
/// Errors, the first that applies: those of `read` of the first note; those of `verify` of the second one; `UnknownKey`
/// where it has no such signature; those of `write`. `Memory` at any time.
pub fn join_signatures(
    alloc: Global,
    first: &[u8],
    second: &[u8],
    keys: &[Verifier],
    since: u64,
) -> Result<Option<Vec<u8>>, Fault>
    ensures joined { IfOk result (λ found. IfSome found (λ bytes.
        IsGathered (map verifier_parts keys.now) since first.now second.now bytes.items)) }
    ensures apart { IfOk result (λ found. IsNone found → HaveTwoTexts first.now second.now) }
    ensures refused { IfErr result
        (IsNotGathered (map verifier_parts keys.now) since first.now second.now) }
{
    let Note {
        text,
        signatures: own,
    } = read(alloc, first)?;
    let Verified {
        note: Note {
            text: of_other,
            signatures: mut more,
        },
        accepted: _,
    } = verify(alloc, second, keys)?;
    if text != of_other {
        return Ok(None);
    }
    keep_since(&mut more, since);
    keep_named(&mut more, keys);
    if more.is_empty() {
        return Err(Fault::UnknownKey);
    }
    let signatures = with_more(own, more)?;
    match write(alloc, text, &signatures) {
        Ok(bytes) => Ok(Some(bytes)),
        Err(fault) => Err(fault),
    }
}
