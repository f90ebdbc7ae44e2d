//! Inclusion and consistency proofs of a log's file, for which only the digests that they ask for are read.

ghost use Rattle.std.specs.Prelude.{◌≡◌, ◌≤◌, ◌<◌, ◌+◌, ◌-◌, ◌*◌, ◌^◌, ℕ, nat_lt, Bool, true, List, [], length, take, drop, get_or, unwrap_or, IfOk, IsOkUnless, Ok, Some};
ghost use Rattle.sha2.specs.Sha256.{sha256};
ghost use Rattle.ark_paths.specs.Pair.{Digest};
ghost use Rattle.ark_trees.specs.Rfc6962.{node_of};
ghost use Rattle.merkle_log.specs.Asked.{IsBeside, IsLowest, IsPeak};
ghost use Rattle.merkle_log.specs.Edge.{all_of};
ghost use Rattle.merkle_log.specs.Log.{consistency_path, inclusion_path, merkle_tree_hash};
ghost use Rattle.merkle_log.specs.Kept.{Keeps};
ghost use Rattle.merkle_log.specs.Stored.{position, row_at, IsStored};
ghost use Rattle.merkle_log.specs.Verdict.{consistency_verdict, inclusion_verdict};
ghost use Rattle.log_store.specs.Refused.{IsOnlyMemory, IsRefusedFor};
ghost use Rattle.log_store.specs.Spots.{found, ArePeaksOf, AreSpotsOf, IsRead};
ghost use Rattle.log_file.specs.Faults.{is_older, log_size, of_first, only_if};
ghost use Rattle.log_file.specs.LogFile.{file_end, slot_to_take, stored_in, IsLogFile};
ghost use Rattle.log_file.specs.declared.fault.Fault.TheVariants.{Index, Memory, Size};

use crate::disk::Disk;
use crate::edge::{Whole, read_digest, root_at};
use crate::log::read_front;
use crate::spots::{Spot, Spots, put_peaks, read_beside, read_lowest};
use crate::stop::Stop;
use ark_trees::LogHasher;
use log_file::fault::Fault;
use merkle_log::kept::{KeptNodes, position_of};
use merkle_log::path_lengths::{consistency_length, inclusion_length};
use merkle_log::paths::{consistency_path_of, inclusion_path_of};
use merkle_log::{verify_consistency, verify_inclusion_digest};
use std::alloc::Global;
use std::marker::{Brand, PhantomData};

// Reads the digests that the path of an index asks for, in a log of this size whose peaks these are, which has digests behind the
// head.
fn read_way<D: Disk>(
    alloc: Global,
    disk: &D,
    index: usize,
    size: usize,
    peaks: &[[u8; 32]; 64],
) -> Result<Vec<Spot>, Stop<D::Refusal>>
    requires index { index < size }
    requires fits { size < 2 ^ 63 }
    requires inside { file_end size < 2 ^ 64 }
    ensures own { D.Obeys disk.now → file_end size ≤ length (D.seen disk.now)
        → ArePeaksOf size peaks.now (stored_in size (D.seen disk.now))
        → IfOk result (λ spots. AreSpotsOf spots.items (stored_in size (D.seen disk.now))) }
    ensures peaks { IfOk result (λ spots. (level place : ℕ) → IsPeak size level place
        → IsRead spots.items (position level place)) }
    ensures beside { IfOk result (λ spots. (level place : ℕ) → IsBeside index size level place
        → IsRead spots.items (position level place)) }
    ensures refused { IsOnlyMemory result }
{
    let mut spots = Vec::new(alloc);
    put_peaks(size, peaks, &mut spots)?;
    read_beside(disk, index, size, &mut spots)?;
    Ok(spots)
}

// Returns the path of an index of a log of which these digests were read. The disk has the list.
fn inclusion_over<D: Disk, W: Whole>(
    alloc: Global,
    _disk: &D,
    index: usize,
    size: usize,
    spots: &[Spot],
) -> Result<Vec<[u8; 32]>, Fault>
    requires size { W.whole.size ≡ size }
    requires fits { size < 2 ^ 63 }
    requires index { index < size }
    requires peaks { (level place : ℕ) → IsPeak size level place
        → found spots.now (position level place) ≡ Some (get_or (row_at W.whole level) place []) }
    requires beside { (level place : ℕ) → IsBeside index size level place
        → found spots.now (position level place) ≡ Some (get_or (row_at W.whole level) place []) }
    ensures path { IsStored node_of (row_at W.whole)
        → let path = inclusion_path node_of (sha256 []) index (take size (row_at W.whole 0)) in
        IfOk result (λ digests. all_of path ≡ Ok digests.items) }
    ensures memory { IsOkUnless result Memory }
{
    let rows = Spots::<W> {
        spots,
        of: PhantomData,
    };
    let length = inclusion_length(size as u64, index as u64) as usize;
    let mut path = vec![in alloc; [0u8; 32]; length]?;
    match inclusion_path_of(&mut KeptNodes::new(), &rows, size, index, &mut path) {
        Ok(()) => Ok(path),
        Err(never) => match never {},
    }
}

// Returns the consistency proof of an old size of a log of which these digests were read. The disk has the list.
fn consistency_over<D: Disk, W: Whole>(
    alloc: Global,
    _disk: &D,
    old_size: usize,
    size: usize,
    spots: &[Spot],
) -> Result<Vec<[u8; 32]>, Fault>
    requires size { W.whole.size ≡ size }
    requires fits { size < 2 ^ 63 }
    requires some { 0 < old_size }
    requires inside { old_size < size }
    requires peaks { (level place : ℕ) → IsPeak size level place
        → found spots.now (position level place) ≡ Some (get_or (row_at W.whole level) place []) }
    requires beside { (level place : ℕ) → IsBeside (old_size - 1) size level place
        → found spots.now (position level place) ≡ Some (get_or (row_at W.whole level) place []) }
    requires lowest { (level place : ℕ) → IsLowest old_size level place
        → found spots.now (position level place) ≡ Some (get_or (row_at W.whole level) place []) }
    ensures path { IsStored node_of (row_at W.whole)
        → let path = consistency_path node_of (sha256 []) old_size (take size (row_at W.whole 0)) in
        IfOk result (λ digests. all_of path ≡ Ok digests.items) }
    ensures memory { IsOkUnless result Memory }
{
    let rows = Spots::<W> {
        spots,
        of: PhantomData,
    };
    let length = consistency_length(old_size as u64, size as u64) as usize;
    let mut path = vec![in alloc; [0u8; 32]; length]?;
    match consistency_path_of(&mut KeptNodes::new(), &rows, old_size, size, &mut path) {
        Ok(()) => Ok(path),
        Err(never) => match never {},
    }
}

// Reads the consistency proof of an old size of a log of this size, which has digests behind the head.
fn consistency_at<D: Disk>(
    alloc: Global,
    disk: &D,
    old_size: usize,
    size: usize,
    peaks: &[[u8; 32]; 64],
) -> Result<Vec<[u8; 32]>, Stop<D::Refusal>>
    requires some { 0 < old_size }
    requires older { old_size ≤ size }
    requires fits { size < 2 ^ 63 }
    requires near { file_end size < 2 ^ 64 }
    ensures path { D.Obeys disk.now → file_end size ≤ length (D.seen disk.now)
        → ArePeaksOf size peaks.now (stored_in size (D.seen disk.now))
        → (leaves : List Digest) → size ≤ length leaves
        → Keeps leaves (stored_in (length leaves) (D.seen disk.now))
        → let path = consistency_path node_of (sha256 []) old_size (take size leaves) in
        IfOk result (λ digests. all_of path ≡ Ok digests.items) }
    ensures refused { IsOnlyMemory result }
{
    if old_size == size {
        return Ok(Vec::new(alloc));
    }
    let mut spots = read_way(alloc, disk, old_size - 1, size, peaks)?;
    read_lowest(disk, old_size, &mut spots)?;
    match consistency_over::<D, Brand>(alloc, disk, old_size, size, &spots) {
        Ok(path) => Ok(path),
        Err(fault) => Err(Stop::Fault(fault)),
    }
}

// Returns whether a path shows a digest at an index of a log with this root and size.
fn is_included(
    alloc: Global,
    root: &[u8; 32],
    size: usize,
    index: usize,
    digest: &[u8; 32],
    path: &[[u8; 32]],
) -> Result<bool, Fault>
    ensures verdict { IfOk result (λ holds.
        inclusion_verdict node_of root.now size index digest.now path.now ≡ Ok holds) }
    ensures memory { IsOkUnless result Memory }
{
    let (size, index) = (size as u64, index as u64);
    match verify_inclusion_digest(alloc, &LogHasher, root, size, index, digest, path) {
        Ok(holds) => Ok(holds),
        Err(_) => Err(Fault::Memory),
    }
}

// Returns whether a path shows that the log with one root and size continues another.
fn is_continued(
    alloc: Global,
    old_size: usize,
    old_root: &[u8; 32],
    size: usize,
    root: &[u8; 32],
    path: &[[u8; 32]],
) -> Result<bool, Fault>
    ensures verdict { IfOk result (λ holds. consistency_verdict node_of old_size old_root.now size
        root.now path.now ≡ Ok holds) }
    ensures memory { IsOkUnless result Memory }
{
    let (old_size, size) = (old_size as u64, size as u64);
    match verify_consistency(alloc, &LogHasher, old_size, old_root, size, root, path) {
        Ok(holds) => Ok(holds),
        Err(_) => Err(Fault::Memory),
    }
}

/// An inclusion proof.
#[derive(Drop)]
pub struct InclusionProof {
    /// How many entries the log has in which it is one, and their root.
    pub size: usize,
    pub root: [u8; 32],
    /// The digest of the entry.
    pub digest: [u8; 32],
    pub path: Vec<[u8; 32]>,
}

/// A consistency proof.
#[derive(Drop)]
pub struct ConsistencyProof {
    /// The root of the entries that are continued.
    pub old_root: [u8; 32],
    /// How many entries the log has in which it is one, and their root.
    pub size: usize,
    pub root: [u8; 32],
    pub path: Vec<[u8; 32]>,
}

/// Returns the inclusion proof of an index in the first entries of the log of a file, as many as are named, or else all. It
/// reads the head and at most 192 digests, and checks the proof.
///
/// Errors, the first that applies: those of `read_log`; `Size` for more than there are; `Index`; `Damaged` for a proof that
/// does not hold; `Memory` in place of any.
pub fn prove<D: Disk>(
    alloc: Global,
    disk: &D,
    index: usize,
    named: Option<usize>,
) -> Result<InclusionProof, Stop<D::Refusal>>
    ensures refused { let file = D.seen disk.now in
        let outcome = of_first file named (λ size. only_if (nat_lt index size) Index (Ok size)) in
        D.Obeys disk.now → IsRefusedFor file outcome result }
    ensures proof { D.Obeys disk.now → (leaves : List Digest) → IsLogFile leaves (D.seen disk.now)
        → let size = unwrap_or named (length leaves) in
        let path = inclusion_path node_of (sha256 []) index (take size leaves) in
        IfOk result (λ proof. all_of path ≡ Ok proof.path.items) }
    ensures root { D.Obeys disk.now → (leaves : List Digest) → IsLogFile leaves (D.seen disk.now)
        → IfOk result (λ proof. (proof.size ≡ unwrap_or named (length leaves))
        × (merkle_tree_hash node_of (sha256 []) (take proof.size leaves) ≡ Ok proof.root)) }

    // Of every file: the proof is accepted for the digest that the disk has at the index, under the root that is returned; if
    // that is the root of all entries, a slot states it or none.
    ensures accepted { IfOk result (λ proof. let verdict = inclusion_verdict node_of proof.root in
        verdict proof.size index proof.digest proof.path.items ≡ Ok true) }
    ensures digest { D.Obeys disk.now → IfOk result (λ proof.
        proof.digest ≡ take 32 (drop (96 + 32 * position 0 index) (D.seen disk.now))) }
    ensures states { D.Obeys disk.now → IfOk result (λ proof.
        log_size (D.seen disk.now) ≡ Ok proof.size → (second : Bool)
        × (slot_to_take (D.seen disk.now) proof.size proof.root ≡ Some second)) }
{
    let front = read_front(disk, named)?;
    let (size, root) = (front.size, front.root);
    if index >= size {
        return Err(Stop::Fault(Fault::Index));
    }
    let spots = read_way(alloc, disk, index, size, &front.peaks)?;
    let path = match inclusion_over::<D, Brand>(alloc, disk, index, size, &spots) {
        Ok(path) => path,
        Err(fault) => return Err(Stop::Fault(fault)),
    };
    let digest = match read_digest(disk, position_of(0, index)) {
        Ok(digest) => digest,
        Err(refusal) => return Err(Stop::Disk(refusal)),
    };
    match is_included(alloc, &root, size, index, &digest, &path) {
        Ok(true) => Ok(InclusionProof {
            size,
            root,
            digest,
            path,
        }),
        Ok(false) => Err(Stop::Fault(Fault::Damaged)),
        Err(fault) => Err(Stop::Fault(fault)),
    }
}

/// Returns the proof that the first entries of the log of a file, as many as are named, or else all, continue its first
/// `old_size` ones. It reads the head and at most 256 digests, and checks the proof.
///
/// Errors, the first that applies: those of `read_log`; `Size` for more than there are, for the old size 0 and for one above
/// the size; `Damaged` for a proof that does not hold; `Memory` in place of any.
pub fn consistency<D: Disk>(
    alloc: Global,
    disk: &D,
    old_size: usize,
    named: Option<usize>,
) -> Result<ConsistencyProof, Stop<D::Refusal>>
    ensures refused { let file = D.seen disk.now in
        let outcome = of_first file named
        (λ size. only_if (is_older old_size size) Size (Ok size)) in
        D.Obeys disk.now → IsRefusedFor file outcome result }
    ensures proof { D.Obeys disk.now → (leaves : List Digest) → IsLogFile leaves (D.seen disk.now)
        → let size = unwrap_or named (length leaves) in
        let path = consistency_path node_of (sha256 []) old_size (take size leaves) in
        IfOk result (λ proof. all_of path ≡ Ok proof.path.items) }
    ensures root { D.Obeys disk.now → (leaves : List Digest) → IsLogFile leaves (D.seen disk.now)
        → IfOk result (λ proof. (proof.size ≡ unwrap_or named (length leaves))
        × (merkle_tree_hash node_of (sha256 []) (take proof.size leaves) ≡ Ok proof.root)) }
    ensures old_root { D.Obeys disk.now → (leaves : List Digest)
        → IsLogFile leaves (D.seen disk.now) → IfOk result (λ proof.
        merkle_tree_hash node_of (sha256 []) (take old_size leaves) ≡ Ok proof.old_root) }

    // Of every file: the proof is accepted under the roots that are returned; if the new one is the root of all entries, a slot
    // states it or none.
    ensures accepted { IfOk result (λ proof. let verdict = consistency_verdict node_of old_size in
        verdict proof.old_root proof.size proof.root proof.path.items ≡ Ok true) }
    ensures states { D.Obeys disk.now → IfOk result (λ proof.
        log_size (D.seen disk.now) ≡ Ok proof.size → (second : Bool)
        × (slot_to_take (D.seen disk.now) proof.size proof.root ≡ Some second)) }
{
    let front = read_front(disk, named)?;
    let (size, root) = (front.size, front.root);
    if old_size == 0 {
        return Err(Stop::Fault(Fault::Size));
    }
    if size < old_size {
        return Err(Stop::Fault(Fault::Size));
    }
    let path = match consistency_at(alloc, disk, old_size, size, &front.peaks) {
        Ok(path) => path,
        Err(stop) => return Err(stop),
    };
    let old_root = match root_at(disk, old_size) {
        Ok(old_root) => old_root,
        Err(refusal) => return Err(Stop::Disk(refusal)),
    };
    match is_continued(alloc, old_size, &old_root, size, &root, &path) {
        Ok(true) => Ok(ConsistencyProof {
            old_root,
            size,
            root,
            path,
        }),
        Ok(false) => Err(Stop::Fault(Fault::Damaged)),
        Err(fault) => Err(Stop::Fault(fault)),
    }
}
