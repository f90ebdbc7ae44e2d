//! What a line asks.

ghost use Rattle.std.specs.Prelude.{◌≡◌, IfOk};
ghost use Rattle.std.specs.Option.{option_map, option_copied};
ghost use Rattle.acp_run.specs.Lines.{tokens_of, tokens_left};
ghost use Rattle.acp_run.specs.Requests.{asked, checked_by, queried_by, request_of};

use crate::session::arguments::{
    Bytes, Digest, Index, Leaf, only_value, pairs, two_values, value_and_others, values,
};
use crate::session::shell::Shell;
use crate::session::tokens::first_token;
use ark_base::serialize::Numbered;
use ark_crh::CRHScheme;
use std::alloc::{AllocError, Global};

/// What a line asks, with the leaves and the digests that its tokens say.
#[derive(Drop)]
pub enum Request<L, D> {
    Tree(Vec<L>),
    Digests(Vec<D>),
    Set(usize, L),
    SetMany(Vec<(usize, L)>),
    Root,
    Proof(usize),
    Multi(Vec<usize>),
    Check(Vec<u8>, L),
    Bind(Vec<u8>, L),
    MultiCheck(Vec<u8>, Vec<L>),
    MultiCount(Vec<u8>, Vec<L>),
    Strict(Vec<u8>),
}

/// Returns what a line asks; nothing of a bad line.
///
/// The only error is `AllocError`.
pub fn request_of<C: Shell>(
    alloc: Global,
    line: &[u8],
) -> Result<Option<Request<C::Leaf, C::LeafDigest>>, AllocError>
    ensures { IfOk result (λ request. (p : C.LeafHash.Parameters) (q : C.TwoToOneHash.Parameters)
        → option_map (asked (C.LeafHash.meaning p) C.LeafDigest.numbers) request
        ≡ request_of (C.language p q) (tokens_of line.now)) }
{
    let (word, left) = first_token(line);
    if word == b"tree".as_slice() {
        match left.and(values::<Leaf<C>>(alloc, left)?) {
            Some(leaves) => Ok(Some(Request::Tree(leaves))),
            None => Ok(None),
        }
    } else if word == b"digests".as_slice() {
        match left.and(values::<Digest<C>>(alloc, left)?) {
            Some(digests) => Ok(Some(Request::Digests(digests))),
            None => Ok(None),
        }
    } else if word == b"set".as_slice() {
        match two_values::<Index, Leaf<C>>(alloc, left)? {
            Some((index, leaf)) => Ok(Some(Request::Set(index, leaf))),
            None => Ok(None),
        }
    } else if word == b"setmany".as_slice() {
        match left.and(pairs::<Index, Leaf<C>>(alloc, left)?) {
            Some(changes) => Ok(Some(Request::SetMany(changes))),
            None => Ok(None),
        }
    } else {
        query_of::<C>(alloc, word, left)
    }
}

// What is asked of a tree, or of a proof, by a word and the tokens behind it.
fn query_of<C: Shell>(
    alloc: Global,
    word: &[u8],
    left: Option<&[u8]>,
) -> Result<Option<Request<C::Leaf, C::LeafDigest>>, AllocError>
    ensures { IfOk result (λ request. (p : C.LeafHash.Parameters) (q : C.TwoToOneHash.Parameters)
        → option_map (asked (C.LeafHash.meaning p) C.LeafDigest.numbers) request
        ≡ queried_by (C.language p q) word.now (tokens_left (option_copied left.entry))) }
{
    if word == b"root".as_slice() {
        match left {
            Some(_) => Ok(None),
            None => Ok(Some(Request::Root)),
        }
    } else if word == b"proof".as_slice() {
        match only_value::<Index>(alloc, left)? {
            Some(index) => Ok(Some(Request::Proof(index))),
            None => Ok(None),
        }
    } else if word == b"multi".as_slice() {
        match values::<Index>(alloc, left)? {
            Some(indexes) => Ok(Some(Request::Multi(indexes))),
            None => Ok(None),
        }
    } else {
        check_of::<C>(alloc, word, left)
    }
}

// What is asked of a proof by a word and the tokens behind it.
fn check_of<C: Shell>(
    alloc: Global,
    word: &[u8],
    left: Option<&[u8]>,
) -> Result<Option<Request<C::Leaf, C::LeafDigest>>, AllocError>
    ensures { IfOk result (λ request. (p : C.LeafHash.Parameters) (q : C.TwoToOneHash.Parameters)
        → option_map (asked (C.LeafHash.meaning p) C.LeafDigest.numbers) request
        ≡ checked_by (C.language p q) word.now (tokens_left (option_copied left.entry))) }
{
    if word == b"check".as_slice() {
        match two_values::<Bytes<C>, Leaf<C>>(alloc, left)? {
            Some((path, leaf)) => Ok(Some(Request::Check(path, leaf))),
            None => Ok(None),
        }
    } else if word == b"bind".as_slice() {
        match two_values::<Bytes<C>, Leaf<C>>(alloc, left)? {
            Some((path, leaf)) => Ok(Some(Request::Bind(path, leaf))),
            None => Ok(None),
        }
    } else if word == b"mcheck".as_slice() {
        match value_and_others::<Bytes<C>, Leaf<C>>(alloc, left)? {
            Some((proof, leaves)) => Ok(Some(Request::MultiCheck(proof, leaves))),
            None => Ok(None),
        }
    } else if word == b"mcount".as_slice() {
        match value_and_others::<Bytes<C>, Leaf<C>>(alloc, left)? {
            Some((proof, leaves)) => Ok(Some(Request::MultiCount(proof, leaves))),
            None => Ok(None),
        }
    } else if word == b"strict".as_slice() {
        match only_value::<Bytes<C>>(alloc, left)? {
            Some(proof) => Ok(Some(Request::Strict(proof))),
            None => Ok(None),
        }
    } else {
        Ok(None)
    }
}
