//! Multi-proofs by their definition.

ghost use Rattle.std.specs.Prelude.{ℕ, List, MatchOption, Some, None, ◌≡◌, ◌+◌, ◌++◌, ◌<◌, ◌^◌, map, take, length, Ok};
ghost use Rattle.ark_base.specs.Outcome.{Answers, AnswersBy};
ghost use Rattle.ark_paths.specs.Pair.{Digest};
ghost use Rattle.ark_paths.specs.MultiPath.{decoded_path, decoded_paths_from, multi_verdict_from, multi_verdict};

use ark_base::error::{Error, Refusal};
use ark_base::serialize::{DigestItem, Duplicate};
use ark_crh::CRHScheme;
use ark_merkle::digests::copies_of;
use ark_merkle::multi_path::places::{Part, part_at};
use ark_merkle::{Config, LeafParam, MultiPath, Path, TwoToOneParam, Views};
use std::alloc::Global;

/// Returns what a multi-proof says of these leaves.
pub fn plain_multi_verdict<P: Config>(
    alloc: Global,
    leaf_parameters: &LeafParam<P>,
    pair_parameters: &TwoToOneParam<P>,
    root: &P::InnerDigest,
    proof: &MultiPath<P>,
    leaves: &[P::Leaf],
) -> Result<bool, Error>
    ensures { let hashes = ⟦<P as Views>⟧.hashes leaf_parameters.now pair_parameters.now in
        let digests = map hashes.leaf leaves.now in
        let given = P.InnerDigest.numbers root.now in
        let way = ⟦<P as Views>⟧.multi_way proof.now in
        Answers (multi_verdict hashes.pair digests way given) result }
{
    if proof.leaf_indexes.is_empty() {
        return Err(Error::GenericError(Refusal::NoIndex));
    }
    let indexes = &proof.leaf_indexes;
    verdict_from(
        alloc,
        leaf_parameters,
        pair_parameters,
        root,
        proof,
        0,
        &[],
        indexes,
        leaves,
    )
}

// What the places from one on say of these leaves, after the digests of the path before.
fn verdict_from<P: Config>(
    alloc: Global,
    leaf_parameters: &LeafParam<P>,
    pair_parameters: &TwoToOneParam<P>,
    root: &P::InnerDigest,
    proof: &MultiPath<P>,
    place: usize,
    before: &[P::InnerDigest],
    indexes: &[usize],
    leaves: &[P::Leaf],
) -> Result<bool, Error>
    requires { place + length indexes.now < 2 ^ 64 }
    ensures { let hashes = ⟦<P as Views>⟧.hashes leaf_parameters.now pair_parameters.now in
        let seen = map P.InnerDigest.numbers before.now in
        let way = ⟦<P as Views>⟧.multi_way proof.now in
        let paths = decoded_paths_from way place seen indexes.now in
        let given = P.InnerDigest.numbers root.now in
        let digests = map hashes.leaf leaves.now in
        Answers (multi_verdict_from hashes.pair given place paths digests) result }
{
    let Some((index, indexes)) = indexes.split_first() else {
        return Ok(true);
    };
    let Some(part) = part_of(proof, place) else {
        return Err(Error::IncorrectInputLength(place));
    };
    let Some((leaf, leaves)) = leaves.split_first() else {
        return Err(Error::IncorrectInputLength(place));
    };
    let path = Path::<P> {
        leaf_sibling_hash: part.sibling.duplicate(alloc)?,
        auth_path: extended(alloc, before, part.prefix, part.suffix)?,
        leaf_index: *index,
    };
    if !path.verify(alloc, leaf_parameters, pair_parameters, root, leaf)? {
        return Ok(false);
    }
    let above = &path.auth_path;
    verdict_from(
        alloc,
        leaf_parameters,
        pair_parameters,
        root,
        proof,
        place + 1,
        above,
        indexes,
        leaves,
    )
}

// The parts of a place, where it decodes.
fn part_of<P: Config>(
    proof: &MultiPath<P>,
    place: usize,
) -> Option<Part<'_, P::LeafDigest, P::InnerDigest>>
    ensures { let way = ⟦<P as Views>⟧.multi_way proof.now in
        (before : List Digest) (index : ℕ) → MatchOption result
        (decoded_path way place before index ≡ None)
        (λ part. decoded_path way place before index ≡ Some (record {
          sibling = P.LeafDigest.numbers part.sibling.now;
          above = take part.prefix before ++ map P.InnerDigest.numbers part.suffix.now;
          index = index;
        })) }
{
    let siblings = &proof.leaf_siblings_hashes;
    let prefixes = &proof.auth_paths_prefix_lenghts;
    part_at(siblings, prefixes, &proof.auth_paths_suffixes, place)
}

// The first digests of the path before, then the suffix.
fn extended<D: DigestItem>(
    alloc: Global,
    before: &[D],
    prefix: usize,
    suffix: &[D],
) -> Result<Vec<D>, Error>
    ensures { let above = take prefix (map D.numbers before.now) ++ map D.numbers suffix.now in
        AnswersBy (λ above. map D.numbers above.items) (Ok above) result }
{
    let mut above = copies_of(alloc, before)?;
    above.truncate(prefix);
    let mut more = copies_of(alloc, suffix)?;
    above.append(&mut more)?;
    Ok(above)
}
