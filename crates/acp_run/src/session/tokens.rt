//! Tokens of a line.

ghost use Rattle.std.specs.Prelude.{◌≡◌, ◌<◌, ◌∷◌, [], ℕ, List, length, Option, IfOk, IfSome, IfNone};
ghost use Rattle.std.specs.Option.{option_map, option_copied};
ghost use Rattle.acp_run.specs.Lines.{tokens_of, tokens_left};
ghost use Rattle.acp_run.specs.Tokens.{number_of_token, some_bytes_of};

use crate::session::hexadecimal::write_bytes;
use ark_base::serialize::number_of;
use memchr::memchr;
use std::alloc::{AllocError, Global};

/// Returns the first token of a line, and what stands behind the space after it.
pub fn first_token(line: &[u8]) -> (&[u8], Option<&[u8]>)
    ensures tokens { tokens_of line.now ≡ result.0.now ∷ tokens_left (option_copied result.1) }
    ensures shorter { IfSome result.1 (λ more. length more.now < length line.now) }
{
    match memchr(b' ', line) {
        None => (line, None),
        Some(space) => (&line[..space], Some(&line[space + 1..])),
    }
}

/// Returns the first two tokens of a line, and what stands behind the space after them; nothing where it is one token.
pub fn first_two_tokens(line: &[u8]) -> Option<(&[u8], &[u8], Option<&[u8]>)>
    ensures some { IfSome result (λ two. tokens_of line.now
        ≡ two.0.now ∷ two.1.now ∷ tokens_left (option_copied two.2)) }
    ensures shorter { IfSome result (λ two.
        IfSome two.2 (λ more. length more.now < length line.now)) }
    ensures none { IfNone result ((token : List ℕ) × (tokens_of line.now ≡ token ∷ [])) }
{
    let (first, rest) = first_token(line);
    let (second, rest) = first_token(rest?);
    Some((first, second, rest))
}

/// Returns the bytes that a token spells in hexadecimal, one or more.
///
/// The only error is `AllocError`.
pub fn some_bytes_of(alloc: Global, token: &[u8]) -> Result<Option<Vec<u8>>, AllocError>
    ensures { IfOk result (λ bytes.
        option_map (λ bytes. bytes.items) bytes ≡ some_bytes_of token.now) }
{
    if token.is_empty() || token.len() % 2 == 1 {
        return Ok(None);
    }
    let mut bytes = vec![in alloc; 0u8; token.len() / 2]?;
    if write_bytes(token, &mut bytes) {
        Ok(Some(bytes))
    } else {
        Ok(None)
    }
}

/// Returns the number of the one to eight bytes that a token spells in hexadecimal, the least first.
///
/// The only error is `AllocError`.
pub fn number_of_token(alloc: Global, token: &[u8]) -> Result<Option<u64>, AllocError>
    ensures { IfOk result (λ number. number ≡ number_of_token token.now) }
{
    let Some(bytes) = some_bytes_of(alloc, token)? else {
        return Ok(None);
    };
    if bytes.len() > 8 {
        return Ok(None);
    }
    Ok(Some(number_of(&bytes)))
}

/// Returns the one token that is left, if there is one and no more.
pub fn only_token(left: Option<&[u8]>) -> Option<&[u8]>
    ensures some { IfSome result (λ token.
        tokens_left (option_copied left.entry) ≡ token.now ∷ []) }
    ensures none { IfNone result ((token : List ℕ)
        → tokens_left (option_copied left.entry) ≡ token ∷ [] → ⊥) }
{
    let (token, rest) = first_token(left?);
    match rest {
        None => Some(token),
        Some(_) => None,
    }
}

/// Returns the two tokens that are left, if there are two and no more.
pub fn two_tokens(left: Option<&[u8]>) -> Option<(&[u8], &[u8])>
    ensures some { IfSome result (λ two.
        tokens_left (option_copied left.entry) ≡ two.0.now ∷ two.1.now ∷ []) }
    ensures none { IfNone result ((first second : List ℕ)
        → tokens_left (option_copied left.entry) ≡ first ∷ second ∷ [] → ⊥) }
{
    let (first, rest) = first_token(left?);
    Some((first, only_token(rest)?))
}
