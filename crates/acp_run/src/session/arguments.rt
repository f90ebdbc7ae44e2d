//! What the tokens behind a word say.

ghost use Rattle.std.specs.Prelude.{◌≡◌, ℕ, List, Option, map, IfOk};
ghost use Rattle.std.specs.Option.{option_map, option_copied};
ghost use Rattle.acp_run.specs.Arguments.{values, only_value, both_values, two_values, pairs, value_and_others};
ghost use Rattle.acp_run.specs.Lines.{tokens_left};

use crate::session::shell::Shell;
use crate::session::tokens::{first_token, first_two_tokens, only_token, two_tokens};
use ark_base::serialize::Numbered;
use ark_crh::CRHScheme;
use decimals::decimal_number;
use std::alloc::{AllocError, Global};
use std::marker::PhantomData;

/// A kind of token: what tokens of it say.
pub trait Argument {
    type Value: Drop;

    // What contracts see of a value.
    ghost Seen: { Type 0 };

    // On what that depends.
    ghost Parameters: { Type 0 };

    ghost seen: { Parameters → Self.Value → Seen };

    // What a token says, if it says something.
    ghost value_of: { Parameters → List ℕ → Option Seen };

    /// Returns the value that a token says, if it says one.
    fn read(alloc: Global, token: &[u8]) -> Result<Option<Self::Value>, AllocError>
        ensures { IfOk result (λ x. (p : Parameters)
            → option_map (seen p) x ≡ value_of p token.now) };
}

/// Tokens that say an index.
pub struct Index;

/// Tokens that say bytes.
pub struct Bytes<C> {
    configuration: PhantomData<C>,
}

/// Tokens that say a leaf.
pub struct Leaf<C> {
    configuration: PhantomData<C>,
}

/// Tokens that say a digest.
pub struct Digest<C> {
    configuration: PhantomData<C>,
}

impl Argument for Index {
    ghost use Rattle.std.specs.Prelude.{ℕ};
    ghost use Rattle.decimals.specs.Decimals.{decimal_number};

    type Value = usize;

    ghost Seen = { ℕ };

    ghost Parameters = { Unit {0} };

    ghost seen = { λ _ index. index };

    ghost value_of = { λ _. decimal_number };

    fn read(_alloc: Global, token: &[u8]) -> Result<Option<usize>, AllocError> {
        Ok(decimal_number(token))
    }
}

impl<C: Shell> Argument for Bytes<C> {
    ghost use Rattle.std.specs.Prelude.{ℕ, List};

    type Value = Vec<u8>;

    ghost Seen = { List ℕ };

    ghost Parameters = { C.LeafHash.Parameters × C.TwoToOneHash.Parameters };

    ghost seen = { λ _ bytes. bytes.items };

    ghost value_of = { λ p. (C.language p.0 p.1).bytes };

    fn read(alloc: Global, token: &[u8]) -> Result<Option<Vec<u8>>, AllocError> {
        C::read_bytes(alloc, token)
    }
}

impl<C: Shell> Argument for Leaf<C> {
    ghost use Rattle.ark_base.specs.Outcome.{Outcome};
    ghost use Rattle.ark_paths.specs.Pair.{Digest as Numbers};

    type Value = C::Leaf;

    ghost Seen = { Outcome Numbers };

    ghost Parameters = { C.LeafHash.Parameters × C.TwoToOneHash.Parameters };

    ghost seen = { λ p. C.LeafHash.meaning p.0 };

    ghost value_of = { λ p. (C.language p.0 p.1).leaf_outcome };

    fn read(alloc: Global, token: &[u8]) -> Result<Option<C::Leaf>, AllocError> {
        C::read_leaf(alloc, token)
    }
}

impl<C: Shell> Argument for Digest<C> {
    ghost use Rattle.ark_paths.specs.Pair.{Digest as Numbers};

    type Value = C::LeafDigest;

    ghost Seen = { Numbers };

    ghost Parameters = { C.LeafHash.Parameters × C.TwoToOneHash.Parameters };

    ghost seen = { λ _. C.LeafDigest.numbers };

    ghost value_of = { λ p. (C.language p.0 p.1).digest };

    fn read(alloc: Global, token: &[u8]) -> Result<Option<C::LeafDigest>, AllocError> {
        C::read_digest(alloc, token)
    }
}

/// Returns the values of all tokens, where each says one.
pub fn values<A: Argument>(
    alloc: Global,
    left: Option<&[u8]>,
) -> Result<Option<Vec<A::Value>>, AllocError>
    ensures { IfOk result (λ xs. (p : A.Parameters) → option_map (λ xs. map (A.seen p) xs.items) xs
        ≡ values (A.value_of p) (tokens_left (option_copied left.entry))) }
{
    let mut values = Vec::new(alloc);
    let mut left = left;
    while let Some(line) = left {
        let (token, rest) = first_token(line);
        match A::read(alloc, token)? {
            Some(value) => values.push(value)?,
            None => return Ok(None),
        }
        left = rest;
    }
    Ok(Some(values))
}

/// Returns the value of one token alone, if it says one.
pub fn only_value<A: Argument>(
    alloc: Global,
    left: Option<&[u8]>,
) -> Result<Option<A::Value>, AllocError>
    ensures { IfOk result (λ x. (p : A.Parameters) → option_map (A.seen p) x
        ≡ only_value (A.value_of p) (tokens_left (option_copied left.entry))) }
{
    match only_token(left) {
        Some(token) => A::read(alloc, token),
        None => Ok(None),
    }
}

/// Returns the values of two tokens alone, where each says one.
pub fn two_values<A: Argument, B: Argument>(
    alloc: Global,
    left: Option<&[u8]>,
) -> Result<Option<(A::Value, B::Value)>, AllocError>
    ensures { IfOk result (λ x. (p : A.Parameters) (q : B.Parameters)
        → option_map (λ x. (A.seen p x.0, B.seen q x.1)) x
        ≡ two_values (A.value_of p) (B.value_of q) (tokens_left (option_copied left.entry))) }
{
    match two_tokens(left) {
        Some((first, second)) => both_values::<A, B>(alloc, first, second),
        None => Ok(None),
    }
}

// The values of two tokens, where each says one.
fn both_values<A: Argument, B: Argument>(
    alloc: Global,
    first: &[u8],
    second: &[u8],
) -> Result<Option<(A::Value, B::Value)>, AllocError>
    ensures { IfOk result (λ x. (p : A.Parameters) (q : B.Parameters)
        → option_map (λ x. (A.seen p x.0, B.seen q x.1)) x
        ≡ both_values (A.value_of p first.now) (B.value_of q second.now)) }
{
    let Some(first) = A::read(alloc, first)? else {
        return Ok(None);
    };
    let Some(second) = B::read(alloc, second)? else {
        return Ok(None);
    };
    Ok(Some((first, second)))
}

/// Returns the values of all tokens two by two, where their number is even and each says one.
pub fn pairs<A: Argument, B: Argument>(
    alloc: Global,
    left: Option<&[u8]>,
) -> Result<Option<Vec<(A::Value, B::Value)>>, AllocError>
    ensures { IfOk result (λ xs. (p : A.Parameters) (q : B.Parameters)
        → option_map (λ xs. map (λ x. (A.seen p x.0, B.seen q x.1)) xs.items) xs
        ≡ pairs (A.value_of p) (B.value_of q) (tokens_left (option_copied left.entry))) }
{
    let mut pairs = Vec::new(alloc);
    let mut left = left;
    while let Some(line) = left {
        let Some((first, second, rest)) = first_two_tokens(line) else {
            return Ok(None);
        };
        match both_values::<A, B>(alloc, first, second)? {
            Some(pair) => pairs.push(pair)?,
            None => return Ok(None),
        }
        left = rest;
    }
    Ok(Some(pairs))
}

/// Returns the value of a first token and those of the others, where each says one.
pub fn value_and_others<A: Argument, B: Argument>(
    alloc: Global,
    left: Option<&[u8]>,
) -> Result<Option<(A::Value, Vec<B::Value>)>, AllocError>
    ensures { IfOk result (λ x. (p : A.Parameters) (q : B.Parameters)
        → option_map (λ x. (A.seen p x.0, map (B.seen q) x.1.items)) x
        ≡ value_and_others (A.value_of p) (B.value_of q) (tokens_left (option_copied left.entry))) }
{
    let Some(line) = left else {
        return Ok(None);
    };
    let (first, rest) = first_token(line);
    let Some(first) = A::read(alloc, first)? else {
        return Ok(None);
    };
    let Some(others) = values::<B>(alloc, rest)? else {
        return Ok(None);
    };
    Ok(Some((first, others)))
}
