//! Paths and multi-proofs, as bytes.

ghost use Rattle.std.specs.Prelude.{◌≡◌, ℕ, List, Ok, Err};
ghost use Rattle.std.specs.Option.{option_map};
ghost use Rattle.ark_base.specs.Outcome.{AnswersBy};
ghost use Rattle.ark_base.specs.Reading.{Reading};
ghost use Rattle.ark_base.specs.declared.error.SerializationError.{SerializationError};
ghost use Rattle.acp_run.specs.Steps.{alone_of};

use ark_base::error::Error;
use ark_base::serialize::{Canonical, CanonicalDeserialize, CanonicalSerialize, Duplicate};
use ark_merkle::{Config, MultiPath, Path, Views};
use std::alloc::Global;

/// A path or a multi-proof, as contracts see it: by the numbers of its digests.
pub trait Proof: Canonical {
    ghost Numbers: { Type 0 };

    ghost numbers: { Self → Numbers };

    // The canonical bytes, and how they are read.
    ghost bytes_of: { Numbers → List ℕ };

    ghost numbers_at: { List ℕ → Reading Numbers };

    ghost bytes_are: { (x : Self) → Self.spelling (Self.view x) ≡ bytes_of (numbers x) };

    ghost numbers_are: { (bytes rest : List ℕ) (x : Self)
        → Self.reads bytes ≡ Ok (Self.view x, rest) → numbers_at bytes ≡ Ok (numbers x, rest) };

    ghost fault_is: { (bytes : List ℕ) (fault : SerializationError) → Self.reads bytes ≡ Err fault
        → numbers_at bytes ≡ Err fault };
}

impl<P: Config> Proof for Path<P> {
    ghost use Rattle.ark_paths.specs.Path.{Way};
    ghost use Rattle.ark_paths.specs.Laws.ByNumbers.{path_spelling-way, way_at-ok, way_at-err};

    ghost Numbers = { Way };

    ghost numbers = { ⟦<P as Views>⟧.way };

    ghost bytes_of = { ⟦<P as Views>⟧.path_bytes };

    ghost numbers_at = { ⟦<P as Views>⟧.path_reading };

    ghost bytes_are = { λ x. path_spelling-way
        P.LeafDigest.view P.InnerDigest.view P.LeafDigest.numbers P.InnerDigest.numbers
        x.leaf_sibling_hash x.auth_path.items x.leaf_index
        P.LeafDigest.spelling P.LeafDigest.bytes_of P.InnerDigest.spelling P.InnerDigest.bytes_of
        P.LeafDigest.bytes_are P.InnerDigest.bytes_are };

    ghost numbers_are = { λ bytes rest x. way_at-ok
        P.LeafDigest.view P.InnerDigest.view P.LeafDigest.numbers P.InnerDigest.numbers
        x.leaf_sibling_hash x.auth_path.items x.leaf_index
        (λ d. P.LeafDigest.numbers_of (P.LeafDigest.spelling d))
        (λ d. P.InnerDigest.numbers_of (P.InnerDigest.spelling d))
        P.LeafDigest.numbers_are P.InnerDigest.numbers_are
        P.LeafDigest.reads P.InnerDigest.reads bytes rest };

    ghost fault_is = { λ bytes fault. way_at-err
        (λ d. P.LeafDigest.numbers_of (P.LeafDigest.spelling d))
        (λ d. P.InnerDigest.numbers_of (P.InnerDigest.spelling d))
        P.LeafDigest.reads P.InnerDigest.reads bytes fault };
}

impl<P: Config> Proof for MultiPath<P> {
    ghost use Rattle.ark_paths.specs.MultiPath.{MultiWay};
    ghost use Rattle.ark_paths.specs.Laws.ByNumbers.{multi_spelling-way, multi_way_at-ok, multi_way_at-err};

    ghost Numbers = { MultiWay };

    ghost numbers = { ⟦<P as Views>⟧.multi_way };

    ghost bytes_of = { ⟦<P as Views>⟧.multi_path_bytes };

    ghost numbers_at = { ⟦<P as Views>⟧.multi_path_reading };

    ghost bytes_are = { λ x. multi_spelling-way
        P.LeafDigest.view P.InnerDigest.view P.LeafDigest.numbers P.InnerDigest.numbers
        x.leaf_siblings_hashes.items x.auth_paths_prefix_lenghts.items
        x.auth_paths_suffixes.items x.leaf_indexes.items
        P.LeafDigest.spelling P.LeafDigest.bytes_of P.InnerDigest.spelling P.InnerDigest.bytes_of
        P.LeafDigest.bytes_are P.InnerDigest.bytes_are };

    ghost numbers_are = { λ bytes rest x. multi_way_at-ok
        P.LeafDigest.view P.InnerDigest.view P.LeafDigest.numbers P.InnerDigest.numbers
        x.leaf_siblings_hashes.items x.auth_paths_prefix_lenghts.items
        x.auth_paths_suffixes.items x.leaf_indexes.items
        (λ d. P.LeafDigest.numbers_of (P.LeafDigest.spelling d))
        (λ d. P.InnerDigest.numbers_of (P.InnerDigest.spelling d))
        P.LeafDigest.numbers_are P.InnerDigest.numbers_are
        P.LeafDigest.reads P.InnerDigest.reads bytes rest };

    ghost fault_is = { λ bytes fault. multi_way_at-err
        (λ d. P.LeafDigest.numbers_of (P.LeafDigest.spelling d))
        (λ d. P.InnerDigest.numbers_of (P.InnerDigest.spelling d))
        P.LeafDigest.reads P.InnerDigest.reads bytes fault };
}

// For how many bytes of a proof room is made at first: those of a path of 24 digests of 32 bytes.
const PROOF_ROOM: usize = 1024;

/// Returns the canonical bytes of a proof. The only error is `OutOfMemory`.
pub fn proof_bytes<T: Proof + CanonicalSerialize>(
    alloc: Global,
    proof: &T,
) -> Result<Vec<u8>, Error>
    ensures { AnswersBy (λ bytes. bytes.items) (Ok (T.bytes_of (T.numbers proof.now))) result }
{
    let mut bytes = Vec::with_capacity(alloc, PROOF_ROOM)?;
    proof.serialize(&mut bytes)?;
    Ok(bytes)
}

/// Returns the proof that some bytes spell; nothing where bytes are left behind it.
///
/// Errors: `SerializationError` with the first fault from the left, `OutOfMemory`.
pub fn whole_proof<T: Proof + CanonicalDeserialize + Drop>(
    alloc: Global,
    bytes: &[u8],
) -> Result<Option<T>, Error>
    ensures { AnswersBy (option_map T.numbers) (alone_of (T.numbers_at bytes.now)) result }
{
    let (proof, used) = T::deserialize(alloc, bytes)?;
    if used < bytes.len() {
        return Ok(None);
    }
    Ok(Some(proof))
}
