//! The complete subtrees into which a log's leaves fall, read from the disk: at most 64 digests.

ghost use Rattle.std.specs.Prelude.{◌≡◌, ◌≤◌, ◌<◌, ◌+◌, ◌*◌, ◌^◌, ℕ, List, [], length, take, drop, get_or, IfOk, Ok};
ghost use Rattle.sha2.specs.Sha256.{sha256};
ghost use Rattle.ark_paths.specs.Pair.{Digest};
ghost use Rattle.ark_trees.specs.Rfc6962.{node_of};
ghost use Rattle.merkle_log.specs.Asked.{IsPeak};
ghost use Rattle.merkle_log.specs.Log.{merkle_tree_hash};
ghost use Rattle.merkle_log.specs.Stored.{position, row_at, IsStored, StoredValue};
ghost use Rattle.merkle_log.specs.Kept.{Keeps};
ghost use Rattle.log_file.specs.LogFile.{file_end, stored_in};

use crate::disk::Disk;
use log_file::head::START;
use merkle_log::kept::{KeptNodes, position_of};
use merkle_log::rows::{Rows, root_of};
use sha2::{Digest as _, Sha256};
use std::marker::{Brand, PhantomData};

/// A log's list, whole, of which only some digests are read.
pub trait Whole {
    ghost whole: { StoredValue };
}

impl Whole for Brand {
    ghost use Rattle.std.specs.Prelude.{[]};

    ghost whole = { record { size = 0; digests = [] } };
}

/// The digest of the last complete place of each level, where the level has an odd number of them.
#[derive(Drop)]
pub struct Edge<'a, W: Whole> {
    pub peaks: &'a [[u8; 32]],
    pub of: PhantomData<W>,
}

impl<'a, W: Whole> Rows<[u8; 32]> for Edge<'a, W> {
    ghost stored = { λ _. W.whole };

    ghost Holds = { λ edge level place. (level < length edge.peaks.now)
        × (get_or edge.peaks.now level [] ≡ get_or (row_at W.whole level) place []) };

    fn at(&self, level: usize, _place: usize) -> &[u8; 32] {
        &self.peaks[level]
    }
}

/// Reads the digest at a position behind the head.
pub fn read_digest<D: Disk>(disk: &D, position: usize) -> Result<[u8; 32], D::Refusal>
    requires { 96 + 32 * position < 2 ^ 64 }
    ensures { D.Obeys disk.now → 96 + 32 * (position + 1) ≤ length (D.seen disk.now)
        → IfOk result (λ digest. digest ≡ take 32 (drop (96 + 32 * position) (D.seen disk.now))) }
{
    let mut digest = [0; 32];
    disk.read_at(START + 32 * position, &mut digest)?;
    Ok(digest)
}

// Puts a digest to a level.
fn put_peak(peaks: &mut [[u8; 32]; 64], level: usize, digest: [u8; 32])
    requires { level < 64 }
    ensures own { get_or peaks.new level [] ≡ digest }
    ensures others { (other : ℕ) → other < level
        → get_or peaks.new other [] ≡ get_or peaks.old other [] }
{
    peaks[level] = digest;
}

/// Reads the peaks of a log of this size, which has digests behind the head; some digest stands for a level that has none.
pub fn read_peaks<D: Disk>(disk: &D, size: usize) -> Result<[[u8; 32]; 64], D::Refusal>
    requires fits { size < 2 ^ 63 }
    requires inside { file_end size < 2 ^ 64 }
    ensures { D.Obeys disk.now → file_end size ≤ length (D.seen disk.now) → IfOk result (λ peaks.
        (level place : ℕ) → IsPeak size level place → get_or peaks level []
        ≡ get_or (stored_in size (D.seen disk.now)) (position level place) []) }
{
    let mut peaks = [[0; 32]; 64];
    let mut level = 0;
    let mut left = size;
    'levels: while left > 0 {
        if left % 2 == 1 {
            let digest = read_digest(disk, position_of(level, left - 1))?;
            put_peak(&mut peaks, level, digest);
        }
        left /= 2;
        level += 1;
    }
    Ok(peaks)
}

// Returns the root of a log whose peaks these are. The disk has the list.
fn root_over<D: Disk, W: Whole>(_disk: &D, size: usize, peaks: &[[u8; 32]; 64]) -> [u8; 32]
    requires size { W.whole.size ≡ size }
    requires some { 0 < size }
    requires peaks { (level place : ℕ) → IsPeak size level place
        → (level < 64) × (get_or peaks.now level [] ≡ get_or (row_at W.whole level) place []) }
    ensures { IsStored node_of (row_at W.whole)
        → merkle_tree_hash node_of (sha256 []) (take size (row_at W.whole 0)) ≡ Ok result }
{
    let edge = Edge::<W> {
        peaks,
        of: PhantomData,
    };
    match root_of(&mut KeptNodes::new(), &edge, size) {
        Ok(root) => root,
        Err(never) => match never {},
    }
}

/// Returns the root of a log of this size whose peaks these are. The disk has the list.
pub fn root_with<D: Disk>(disk: &D, size: usize, peaks: &[[u8; 32]; 64]) -> [u8; 32]
    requires fits { size < 2 ^ 63 }
    ensures { (leaves : List Digest) → size ≤ length leaves
        → Keeps leaves (stored_in (length leaves) (D.seen disk.now))
        → ((level place : ℕ) → IsPeak size level place → get_or peaks.now level []
        ≡ get_or (stored_in size (D.seen disk.now)) (position level place) [])
        → merkle_tree_hash node_of (sha256 []) (take size leaves) ≡ Ok result }
{
    if size == 0 {
        return Sha256::digest([].as_slice());
    }
    root_over::<D, Brand>(disk, size, peaks)
}

/// Reads the root of the first entries of a log, which has digests behind the head. It reads at most 64 digests.
pub fn root_at<D: Disk>(disk: &D, size: usize) -> Result<[u8; 32], D::Refusal>
    requires fits { size < 2 ^ 63 }
    requires near { file_end size < 2 ^ 64 }
    ensures { D.Obeys disk.now → (leaves : List Digest) → size ≤ length leaves
        → file_end size ≤ length (D.seen disk.now)
        → Keeps leaves (stored_in (length leaves) (D.seen disk.now))
        → IfOk result (λ root. merkle_tree_hash node_of (sha256 []) (take size leaves) ≡ Ok root) }
{
    let peaks = read_peaks(disk, size)?;
    Ok(root_with(disk, size, &peaks))
}
