//! A log's file whose head and right edge are read, and whose root is the one that its head states.

ghost use Rattle.std.specs.Prelude.{◌≡◌, ◌≤◌, ◌<◌, ◌^◌, ℕ, Bool, true, List, [], length, take, get_or, unwrap_or, IfOk, MatchResult, Ok, Err, Some};
ghost use Rattle.std.specs.Bool.{Decides};
ghost use Rattle.sha2.specs.Sha256.{sha256};
ghost use Rattle.ark_paths.specs.Pair.{Digest};
ghost use Rattle.ark_trees.specs.Rfc6962.{node_of};
ghost use Rattle.merkle_log.specs.Asked.{IsPeak};
ghost use Rattle.merkle_log.specs.Kept.{Keeps};
ghost use Rattle.merkle_log.specs.Log.{merkle_tree_hash};
ghost use Rattle.merkle_log.specs.Stored.{position};
ghost use Rattle.log_store.specs.Refused.{IsRefusedFor};
ghost use Rattle.log_store.specs.Spots.{ArePeaksOf};
ghost use Rattle.log_file.specs.Faults.{log_size, of_first};
ghost use Rattle.log_file.specs.LogFile.{file_end, slot_to_take, stored_in, IsLogFile};

use crate::disk::Disk;
use crate::edge::{read_peaks, root_with};
use crate::head::read_head;
use crate::stop::Stop;
use log_file::fault::Fault;
use log_file::head::slot_to_take;

/// The log of a file.
#[derive(Clone, Copy)]
pub struct Log {
    /// How many entries it has.
    pub size: usize,
    pub root: [u8; 32],
    /// The complete subtrees into which it falls, each at its level.
    pub peaks: [[u8; 32]; 64],
    /// Whether the second slot may take the next size; else the first one may.
    pub is_second_free: bool,
}

impl Log {
    /// Returns whether it has this size and root.
    pub fn is(&self, size: usize, root: &[u8; 32]) -> bool
        ensures { Decides result ((self.now.size ≡ size) × (self.now.root ≡ root.now)) }
    {
        self.size == size && self.root == *root
    }
}

/// Reads the log of a file: the head, and at most 64 digests. Its root is the one that a slot states, if one is stated.
///
/// Errors, the first that applies: those of `read_head`; `Damaged`.
pub fn read_log<D: Disk>(disk: &D) -> Result<Log, Stop<D::Refusal>>
    ensures size { D.Obeys disk.now → IfOk result (λ log.
        log_size (D.seen disk.now) ≡ Ok log.size) }
    ensures refused { let file = D.seen disk.now in
        D.Obeys disk.now → IsRefusedFor file (log_size file) result }

    // Of every file: a slot has the size, and states this root or none.
    ensures states { D.Obeys disk.now → IfOk result (λ log.
        slot_to_take (D.seen disk.now) log.size log.root ≡ Some log.is_second_free) }
    ensures log { D.Obeys disk.now → (leaves : List Digest) → IsLogFile leaves (D.seen disk.now)
        → IfOk result (λ log. (length leaves ≡ log.size)
        × (merkle_tree_hash node_of (sha256 []) leaves ≡ Ok log.root)) }

    // Whatever the slots state, the root is that of the digests.
    ensures root { D.Obeys disk.now → IfOk result (λ log. (leaves : List Digest)
        → length leaves ≡ log.size → Keeps leaves (stored_in log.size (D.seen disk.now))
        → merkle_tree_hash node_of (sha256 []) leaves ≡ Ok log.root) }
    ensures peaks { D.Obeys disk.now → IfOk result (λ log. (level place : ℕ)
        → IsPeak log.size level place → get_or log.peaks level []
        ≡ get_or (stored_in log.size (D.seen disk.now)) (position level place) []) }
    ensures fits { IfOk result (λ log. log.size < 2 ^ 63) }
    ensures near { IfOk result (λ log. file_end log.size < 2 ^ 64) }
    ensures inside { D.Obeys disk.now → IfOk result (λ log.
        file_end log.size ≤ length (D.seen disk.now)) }
{
    let read = read_head(disk)?;
    let size = read.head.size;
    let peaks = match read_peaks(disk, size) {
        Ok(peaks) => peaks,
        Err(refusal) => return Err(Stop::Disk(refusal)),
    };
    let root = root_with(disk, size, &peaks);
    let Some(is_second_free) = slot_to_take(&read.bytes, size, &root) else {
        return Err(Stop::Fault(Fault::Damaged));
    };
    Ok(Log {
        size,
        root,
        peaks,
        is_second_free,
    })
}

// Returns how many entries are asked for: as many as are named, or else all. The error is `Size` for more than there are.
fn first_of(all: usize, named: Option<usize>) -> Result<usize, Fault>
    ensures size { IfOk result (λ size. (size ≡ unwrap_or named all) × (size ≤ all)) }
    ensures refused { (file : List ℕ) → log_size file ≡ Ok all
        → MatchResult result (λ size. of_first file named Ok ≡ Ok size)
        (λ fault. of_first file named Ok ≡ Err fault) }
{
    let size = named.unwrap_or(all);
    if size > all {
        return Err(Fault::Size);
    }
    Ok(size)
}

/// The first entries of a log.
#[derive(Clone, Copy)]
pub struct Front {
    /// How many they are.
    pub size: usize,
    pub root: [u8; 32],
    /// The complete subtrees into which they fall, each at its level.
    pub peaks: [[u8; 32]; 64],
}

/// Reads the first entries of the log of a file, as many as are named, or else all: the head, and at most 128 digests.
///
/// Errors: those of `root`.
pub fn read_front<D: Disk>(disk: &D, named: Option<usize>) -> Result<Front, Stop<D::Refusal>>
    ensures refused { let file = D.seen disk.now in
        D.Obeys disk.now → IsRefusedFor file (of_first file named Ok) result }
    ensures root { D.Obeys disk.now → (leaves : List Digest) → IsLogFile leaves (D.seen disk.now)
        → IfOk result (λ front. (front.size ≡ unwrap_or named (length leaves))
        × (front.size ≤ length leaves)
        × (merkle_tree_hash node_of (sha256 []) (take front.size leaves) ≡ Ok front.root)) }
    ensures peaks { D.Obeys disk.now → IfOk result (λ front.
        ArePeaksOf front.size front.peaks (stored_in front.size (D.seen disk.now))) }
    ensures size { D.Obeys disk.now → IfOk result (λ front.
        of_first (D.seen disk.now) named Ok ≡ Ok front.size) }
    ensures fits { IfOk result (λ front. front.size < 2 ^ 63) }
    ensures near { IfOk result (λ front. file_end front.size < 2 ^ 64) }
    ensures inside { D.Obeys disk.now → IfOk result (λ front.
        file_end front.size ≤ length (D.seen disk.now)) }
    ensures states { D.Obeys disk.now → IfOk result (λ front.
        log_size (D.seen disk.now) ≡ Ok front.size → (second : Bool)
        × (slot_to_take (D.seen disk.now) front.size front.root ≡ Some second)) }
{
    let log = read_log(disk)?;
    let size = match first_of(log.size, named) {
        Ok(size) => size,
        Err(fault) => return Err(Stop::Fault(fault)),
    };
    if size == log.size {
        let (root, peaks) = (log.root, log.peaks);
        return Ok(Front { size, root, peaks });
    }
    let peaks = match read_peaks(disk, size) {
        Ok(peaks) => peaks,
        Err(refusal) => return Err(Stop::Disk(refusal)),
    };
    let root = root_with(disk, size, &peaks);
    Ok(Front { size, root, peaks })
}

/// Returns the count and the root of the first entries of the log of a file, of as many as are named, or else of all. It reads
/// the head and at most 128 digests.
///
/// Errors, the first that applies: those of `read_head`; `Damaged`; `Size` for more than there are.
pub fn root<D: Disk>(disk: &D, named: Option<usize>) -> Result<(usize, [u8; 32]), Stop<D::Refusal>>
    ensures refused { let file = D.seen disk.now in
        D.Obeys disk.now → IsRefusedFor file (of_first file named Ok) result }
    ensures root { D.Obeys disk.now → (leaves : List Digest) → IsLogFile leaves (D.seen disk.now)
        → IfOk result (λ root. (root.0 ≡ unwrap_or named (length leaves)) × (root.0 ≤ length leaves)
        × (merkle_tree_hash node_of (sha256 []) (take root.0 leaves) ≡ Ok root.1)) }

    ensures size { D.Obeys disk.now → IfOk result (λ root.
        of_first (D.seen disk.now) named Ok ≡ Ok root.0) }
    ensures fits { IfOk result (λ root. root.0 < 2 ^ 63) }
    ensures near { IfOk result (λ root. file_end root.0 < 2 ^ 64) }
    ensures inside { D.Obeys disk.now → IfOk result (λ root.
        file_end root.0 ≤ length (D.seen disk.now)) }

    // Of every file: the root of all entries is one that a slot states, if one is stated.
    ensures states { D.Obeys disk.now → IfOk result (λ root.
        log_size (D.seen disk.now) ≡ Ok root.0
        → (second : Bool) × (slot_to_take (D.seen disk.now) root.0 root.1 ≡ Some second)) }
{
    let front = read_front(disk, named)?;
    let root = front.root;
    Ok((front.size, root))
}
