//! The words of a line of a policy file.

ghost use Rattle.std.specs.Prelude.{◌≡◌, ◌<◌, ◌∷◌, [], length, nat_lt, not, MatchOption, IfSome};
ghost use Rattle.signed_notes.specs.Cutting.{cut, pieces_in};
ghost use Rattle.signed_notes.specs.PolicyFiles.{key_of_word, key_with_address, uncommented, spaced_words, PolicyGivesBy};
ghost use Rattle.signed_notes.specs.Views.{verifier_parts};

use crate::cutting::cut;
use crate::keys::Verifier;
use crate::policy_fault::PolicyFault;
use std::alloc::Global;

// The first piece of some bytes before a space, and what stands behind that.
fn next_piece(bytes: &[u8]) -> (&[u8], &[u8])
    requires { 0 < length bytes.now }
    ensures pieces { pieces_in 32 bytes.now ≡ result.0.now ∷ pieces_in 32 result.1.now }
    ensures less { length result.1.now < length bytes.now }
{
    match cut(b' ', bytes) {
        Some((piece, behind)) => (piece, behind),
        None => (bytes, &[]),
    }
}

/// Returns the first word of a line, and what stands behind it; nothing where there is none.
pub(crate) fn next_word(line: &[u8]) -> Option<(&[u8], &[u8])>
    ensures words { MatchOption result (spaced_words line.now ≡ [])
        (λ found. spaced_words line.now ≡ found.0.now ∷ spaced_words found.1.now) }
    ensures less { IfSome result (λ found. length found.1.now < length line.now) }
{
    let mut rest = line;
    'pieces: while !rest.is_empty() {
        let (piece, behind) = next_piece(rest);
        rest = behind;
        if !piece.is_empty() {
            return Some((piece, rest));
        }
    }
    None
}

/// Returns whether a line has more words than one.
fn has_two(line: &[u8]) -> bool
    ensures { result ≡ nat_lt 1 (length (spaced_words line.now)) }
{
    match next_word(line) {
        Some((_, rest)) => next_word(rest).is_some(),
        None => false,
    }
}

/// Returns a line without its comment.
pub(crate) fn uncommented(line: &[u8]) -> &[u8]
    ensures { result.now ≡ uncommented line.now (cut 35 line.now) }
{
    match cut(b'#', line) {
        Some((front, _)) => front,
        None => line,
    }
}

// The key that a word says.
fn key_of_word(alloc: Global, word: &[u8]) -> Result<Verifier<'_>, PolicyFault>
    ensures { PolicyGivesBy verifier_parts (key_of_word word.now) result }
{
    match Verifier::read(alloc, word) {
        Ok(key) => Ok(key),
        Err(fault) => Err(PolicyFault::Note(fault)),
    }
}

/// Returns the key that is the first of some words; behind it stands at most one, an address.
pub(crate) fn key_with_address(alloc: Global, words: &[u8]) -> Result<Verifier<'_>, PolicyFault>
    ensures { PolicyGivesBy verifier_parts (key_with_address (spaced_words words.now)) result }
{
    match next_word(words) {
        Some((_, more)) if has_two(more) => Err(PolicyFault::Words),
        Some((key, _)) => key_of_word(alloc, key),
        None => Err(PolicyFault::Words),
    }
}
