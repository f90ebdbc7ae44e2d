//! Keys that signed a note: each counts once, whatever names it has.

ghost use Rattle.std.specs.Prelude.{◌≡◌, ◌⊎◌, IfErr, IfOk, IsOkUnless, OnOk, if◌then◌else◌, map};
ghost use Rattle.signed_notes.specs.Counting.{lists_key, is_one_key, key_added, keys_once, named_keys};
ghost use Rattle.signed_notes.specs.Verifying.{AreTrue};
ghost use Rattle.signed_notes.specs.Views.{note_parts, verifier_parts};
ghost use Rattle.signed_notes.specs.declared.fault.Fault.TheVariants.{BadSignature, Memory};

use crate::fault::Fault;
use crate::keys::Verifier;
use crate::note::Note;
use crate::verifying::any_by;
use std::alloc::Global;

// Whether two keys are one: of one algorithm, and of the same bytes.
fn is_one_key(a: &Verifier, b: &Verifier) -> bool
    ensures { result ≡ is_one_key (verifier_parts a.now) (verifier_parts b.now) }
{
    a.algorithm.byte() == b.algorithm.byte() && a.key == b.key
}

// Whether a key is one of some keys.
fn lists_key(keys: &[Verifier], key: &Verifier) -> bool
    ensures { result ≡ lists_key (map verifier_parts keys.now) (verifier_parts key.now) }
{
    let mut any = false;
    for one in keys {
        any |= is_one_key(one, key);
    }
    any
}

// Puts a key that signed behind others, unless it is one of them.
fn add_key<'a>(keys: &mut Vec<Verifier<'a>>, key: &Verifier<'a>, signed: bool) -> Result<(), Fault>
    ensures added { let old = map verifier_parts keys.old.items in
        OnOk result (map verifier_parts keys.new.items
        ≡ (if signed then (key_added old (verifier_parts key.now)) else old)) }
    ensures memory { IsOkUnless result Memory }
{
    if signed && !lists_key(keys, key) {
        keys.push(*key)?;
    }
    Ok(())
}

// The known keys by which a note has signatures, each once.
pub(crate) fn signing_keys<'a>(
    alloc: Global,
    known: &[Verifier<'a>],
    note: &Note,
) -> Result<Vec<Verifier<'a>>, Fault>
    ensures keys { let signatures = (note_parts note.now).signatures in
        IfOk result (λ keys. map verifier_parts keys.items
        ≡ keys_once (named_keys (map verifier_parts known.now) signatures)) }
    ensures signed { OnOk result (AreTrue (map verifier_parts known.now) (note_parts note.now)) }
    ensures refused { IfErr result (λ fault. (fault ≡ Memory) ⊎ ((fault ≡ BadSignature)
        × (AreTrue (map verifier_parts known.now) (note_parts note.now) → ⊥))) }
{
    let mut keys = Vec::new(alloc);
    for verifier in known {
        match any_by(alloc, verifier, note.text, &note.signatures) {
            Ok(signed) => add_key(&mut keys, verifier, signed)?,
            Err(fault) => return Err(fault),
        }
    }
    Ok(keys)
}
