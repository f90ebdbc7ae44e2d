//! What is said of a log's file by what was read of it, and what is to be written there. The file is that of the caller, whole.

ghost use Rattle.std.specs.Prelude.{◌≡◌, ◌≢◌, ◌≤◌, ◌<◌, ◌+◌, ◌++◌, List, ℕ, [], length, take, true, IfErr, IfOk, OnOk, Ok, Err, Some};
ghost use Rattle.sha2.specs.Sha256.{sha256};
ghost use Rattle.ark_paths.specs.Pair.{Digest};
ghost use Rattle.ark_trees.specs.Rfc6962.{node_of};
ghost use Rattle.log_store.specs.Refused.{index_outcome, older_outcome};
ghost use Rattle.log_store.specs.Sectors.{layout_in};
ghost use Rattle.log_store.specs.Store.{IsBeforeOrAfter, IsSettled};
ghost use Rattle.merkle_log.specs.Edge.{all_of};
ghost use Rattle.merkle_log.specs.Log.{consistency_path, inclusion_path, merkle_tree_hash};
ghost use Rattle.merkle_log.specs.Verdict.{consistency_verdict, inclusion_verdict};
ghost use Rattle.log_file.specs.Faults.{log_size, of_first};
ghost use Rattle.paxidore_calls.specs.Layouts.{grown_size, log_in, HasLog, IsFirstLost};
ghost use Rattle.paxidore_calls.specs.LogFiles.{IsReason};
ghost use Rattle.paxidore_calls.specs.Plan.{IsReadOf, IsStopped, carried};
ghost use Rattle.paxidore_calls.specs.declared.file_calls.not_done.NotDone.TheVariants.{More, Refusal};
ghost use Rattle.paxidore_calls.specs.declared.refused.Refused.TheVariants.{Room};

use crate::file_calls::laid::{laid_replay, steps_laid, writable_replay};
use crate::file_calls::not_done::NotDone;
use crate::file_calls::replay::{Held, Step};
use log_store::{ConsistencyProof, InclusionProof};
use std::alloc::Global;

/// What is to be written to the file of a log, and its size then.
#[derive(Drop)]
pub struct Growth {
    pub size: usize,
    pub steps: Vec<Step>,
}

/// Returns what is to be written to the file of a log for entries with these digests, one at least.
pub fn growth_of<F: Held>(
    alloc: Global,
    file_len: usize,
    places: &[[usize; 2]],
    pieces: &[u8],
    digests: &[[u8; 32]],
) -> Result<Growth, NotDone>
    requires places { places.now ≡ F.places }
    requires pieces { pieces.now ≡ F.pieces }
    requires bytes { file_len ≡ F.size }
    requires some { 0 < length digests.now }

    // Once all is carried out, the file is that of the log with the entries; and so it is if one of its two slots is lost.
    ensures grown { IsReadOf F.places F.pieces F.file → F.size ≡ length F.file
        → (leaves : List Digest) → HasLog leaves F.file
        → IfOk result (λ growth. IsSettled (leaves ++ digests.now)
        (log_in (carried growth.steps.items F.file))) }
    ensures size { IsReadOf F.places F.pieces F.file → F.size ≡ length F.file
        → (leaves : List Digest) → HasLog leaves F.file
        → IfOk result (λ growth. growth.size ≡ length leaves + length digests.now) }

    // Wherever that stops, the log is as it was, or with the entries; and the file lies as it did.
    ensures stopped { IsReadOf F.places F.pieces F.file → F.size ≡ length F.file
        → (leaves : List Digest) → HasLog leaves F.file
        → IfOk result (λ growth. (left : List ℕ) → IsStopped growth.steps.items F.file left
        → IsBeforeOrAfter leaves digests.now (log_in F.file) (log_in left)) }
    ensures layout { IsReadOf F.places F.pieces F.file → F.size ≡ length F.file
        → (leaves : List Digest) → HasLog leaves F.file
        → IfOk result (λ growth. (left : List ℕ) → IsStopped growth.steps.items F.file left
        → layout_in left ≡ layout_in F.file) }

    // Nothing is appended to a file whose first sector is lost.
    ensures lost { IsReadOf F.places F.pieces F.file → F.size ≡ length F.file
        → IsFirstLost F.file → OnOk result ⊥ }
    ensures refused { IsReadOf F.places F.pieces F.file → F.size ≡ length F.file
        → IfErr result (IsReason (log_in F.file) (grown_size F.file (length digests.now))) }
    ensures done { result ≢ Err More }
    ensures room { result ≢ Err (Refusal Room) }
{
    let mut own = writable_replay::<F>(alloc, file_len, places, pieces)?;
    let layout = own.layout;
    match log_store::append(alloc, &mut own, digests) {
        Ok(size) => {
            let steps = steps_laid::<F>(own, layout)?;
            Ok(Growth { size, steps })
        }
        Err(stop) => Err(NotDone::of_stop(stop)),
    }
}

/// Returns how many entries the log of a file has.
pub fn size_of<F: Held>(
    alloc: Global,
    file_len: usize,
    places: &[[usize; 2]],
    pieces: &[u8],
) -> Result<usize, NotDone>
    requires places { places.now ≡ F.places }
    requires pieces { pieces.now ≡ F.pieces }
    requires bytes { file_len ≡ F.size }
    ensures size { IsReadOf F.places F.pieces F.file → F.size ≡ length F.file
        → (leaves : List Digest) → HasLog leaves F.file
        → IfOk result (λ size. size ≡ length leaves) }
    ensures refused { IsReadOf F.places F.pieces F.file → F.size ≡ length F.file
        → IfErr result (IsReason (log_in F.file) (log_size (log_in F.file))) }
    ensures done { result ≢ Err More }
    ensures room { result ≢ Err (Refusal Room) }
{
    let own = laid_replay::<F>(alloc, file_len, places, pieces)?;
    match log_store::size(&own) {
        Ok(size) => Ok(size),
        Err(stop) => Err(NotDone::of_stop(stop)),
    }
}

/// Returns the root of the first entries of the log of a file.
pub fn root_of<F: Held>(
    alloc: Global,
    file_len: usize,
    places: &[[usize; 2]],
    pieces: &[u8],
    size: usize,
) -> Result<[u8; 32], NotDone>
    requires places { places.now ≡ F.places }
    requires pieces { pieces.now ≡ F.pieces }
    requires bytes { file_len ≡ F.size }
    ensures root { IsReadOf F.places F.pieces F.file → F.size ≡ length F.file
        → (leaves : List Digest) → HasLog leaves F.file → IfOk result (λ root.
        (size ≤ length leaves)
        × (merkle_tree_hash node_of (sha256 []) (take size leaves) ≡ Ok root)) }
    ensures refused { IsReadOf F.places F.pieces F.file → F.size ≡ length F.file
        → let file = log_in F.file in IfErr result (IsReason file (of_first file (Some size) Ok)) }
    ensures done { result ≢ Err More }
    ensures room { result ≢ Err (Refusal Room) }
{
    let own = laid_replay::<F>(alloc, file_len, places, pieces)?;
    match log_store::root(&own, Some(size)) {
        Ok(found) => Ok(found.1),
        Err(stop) => Err(NotDone::of_stop(stop)),
    }
}

/// Returns the inclusion proof of an index in the first entries of the log of a file.
pub fn path_of<F: Held>(
    alloc: Global,
    file_len: usize,
    places: &[[usize; 2]],
    pieces: &[u8],
    index: usize,
    size: usize,
) -> Result<InclusionProof, NotDone>
    requires places { places.now ≡ F.places }
    requires pieces { pieces.now ≡ F.pieces }
    requires bytes { file_len ≡ F.size }
    ensures path { IsReadOf F.places F.pieces F.file → F.size ≡ length F.file
        → (leaves : List Digest) → HasLog leaves F.file
        → let path = inclusion_path node_of (sha256 []) index (take size leaves) in
        IfOk result (λ proof. all_of path ≡ Ok proof.path.items) }

    // Of every file: the proof is accepted.
    ensures accepted { IfOk result (λ proof. let verdict = inclusion_verdict node_of proof.root in
        verdict proof.size index proof.digest proof.path.items ≡ Ok true) }
    ensures refused { IsReadOf F.places F.pieces F.file → F.size ≡ length F.file
        → let file = log_in F.file in
        IfErr result (IsReason file (index_outcome file (Some size) index)) }
    ensures done { result ≢ Err More }
    ensures room { result ≢ Err (Refusal Room) }
{
    let own = laid_replay::<F>(alloc, file_len, places, pieces)?;
    match log_store::prove(alloc, &own, index, Some(size)) {
        Ok(proof) => Ok(proof),
        Err(stop) => Err(NotDone::of_stop(stop)),
    }
}

/// Returns the proof that the first entries of the log of a file continue the first old ones.
pub fn proof_of<F: Held>(
    alloc: Global,
    file_len: usize,
    places: &[[usize; 2]],
    pieces: &[u8],
    old_size: usize,
    size: usize,
) -> Result<ConsistencyProof, NotDone>
    requires places { places.now ≡ F.places }
    requires pieces { pieces.now ≡ F.pieces }
    requires bytes { file_len ≡ F.size }
    ensures path { IsReadOf F.places F.pieces F.file → F.size ≡ length F.file
        → (leaves : List Digest) → HasLog leaves F.file
        → let path = consistency_path node_of (sha256 []) old_size (take size leaves) in
        IfOk result (λ proof. all_of path ≡ Ok proof.path.items) }

    // Of every file: the proof is accepted.
    ensures accepted { IfOk result (λ proof. let verdict = consistency_verdict node_of old_size in
        verdict proof.old_root proof.size proof.root proof.path.items ≡ Ok true) }
    ensures refused { IsReadOf F.places F.pieces F.file → F.size ≡ length F.file
        → let file = log_in F.file in
        IfErr result (IsReason file (older_outcome file (Some size) old_size)) }
    ensures done { result ≢ Err More }
    ensures room { result ≢ Err (Refusal Room) }
{
    let own = laid_replay::<F>(alloc, file_len, places, pieces)?;
    match log_store::consistency(alloc, &own, old_size, Some(size)) {
        Ok(proof) => Ok(proof),
        Err(stop) => Err(NotDone::of_stop(stop)),
    }
}
