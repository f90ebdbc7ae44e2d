//! Digests of a log that were read from the disk, each with its position, as the rows of that log.

ghost use Rattle.std.specs.Prelude.{◌≡◌, ◌≤◌, ◌<◌, ◌+◌, ◌*◌, ◌^◌, ℕ, List, [], length, get_or, Some, OnOk};
ghost use Rattle.ark_paths.specs.Pair.{Digest};
ghost use Rattle.merkle_log.specs.Asked.{IsBeside, IsLowest, IsPeak};
ghost use Rattle.merkle_log.specs.Binding.{index_beside};
ghost use Rattle.merkle_log.specs.Stored.{position, row_at, stored_count};
ghost use Rattle.log_store.specs.Refused.{IsOnlyMemory};
ghost use Rattle.log_store.specs.Spots.{found, AreMore, ArePeaksOf, AreSpotsOf, IsRead};
ghost use Rattle.log_file.specs.LogFile.{file_end, stored_in};

use crate::disk::Disk;
use crate::edge::{Whole, read_digest};
use crate::stop::Stop;
use log_file::fault::Fault;
use merkle_log::kept::position_of;
use merkle_log::rows::Rows;
use std::marker::PhantomData;

/// A digest that was read, and its position in the log's list.
#[derive(Clone, Copy)]
pub struct Spot {
    pub position: usize,
    pub digest: [u8; 32],
}

/// A log's list, whole, of which only the digests at some positions are read.
#[derive(Drop)]
pub struct Spots<'a, W: Whole> {
    pub spots: &'a [Spot],
    pub of: PhantomData<W>,
}

impl<'a, W: Whole> Rows<[u8; 32]> for Spots<'a, W> {
    ghost stored = { λ _. W.whole };

    ghost Holds = { λ own level place. (W.whole.size < 2 ^ 63)
        × (found own.spots.now (position level place)
        ≡ Some (get_or (row_at W.whole level) place [])) };

    fn at(&self, level: usize, place: usize) -> &[u8; 32] {
        find_spot(self.spots, position_of(level, place))
    }
}

// Returns the digest that was read at a position.
fn find_spot(spots: &[Spot], position: usize) -> &[u8; 32]
    requires { IsRead spots.now position }
    ensures { found spots.now position ≡ Some result.now }
{
    let mut at = 0;
    'spots: while spots[at].position != position {
        at += 1;
    }
    &spots[at].digest
}

// Puts a digest behind those that were read.
fn put_spot<R: Drop>(
    position: usize,
    digest: [u8; 32],
    spots: &mut Vec<Spot>,
) -> Result<(), Stop<R>>
    ensures own { (digests : List Digest) → digest ≡ get_or digests position []
        → AreSpotsOf spots.old.items digests → OnOk result (AreSpotsOf spots.new.items digests) }
    ensures read { OnOk result (IsRead spots.new.items position) }
    ensures more { OnOk result (AreMore spots.old.items spots.new.items) }
    ensures refused { IsOnlyMemory result }
{
    match spots.push(Spot { position, digest }) {
        Ok(()) => Ok(()),
        Err(_) => Err(Stop::Fault(Fault::Memory)),
    }
}

// Reads the digest at a position.
fn read_spot<D: Disk>(
    disk: &D,
    position: usize,
    spots: &mut Vec<Spot>,
) -> Result<(), Stop<D::Refusal>>
    requires { 96 + 32 * position < 2 ^ 64 }
    ensures own { D.Obeys disk.now → (size : ℕ) → file_end size ≤ length (D.seen disk.now)
        → position < stored_count size → AreSpotsOf spots.old.items
        (stored_in size (D.seen disk.now))
        → OnOk result (AreSpotsOf spots.new.items (stored_in size (D.seen disk.now))) }
    ensures read { OnOk result (IsRead spots.new.items position) }
    ensures more { OnOk result (AreMore spots.old.items spots.new.items) }
    ensures refused { IsOnlyMemory result }
{
    match read_digest(disk, position) {
        Ok(digest) => put_spot(position, digest, spots),
        Err(refusal) => Err(Stop::Disk(refusal)),
    }
}

/// Puts the complete subtrees into which a log of this size falls behind those that were read.
pub fn put_peaks<R: Drop>(
    size: usize,
    peaks: &[[u8; 32]; 64],
    spots: &mut Vec<Spot>,
) -> Result<(), Stop<R>>
    requires fits { size < 2 ^ 63 }
    ensures own { (digests : List Digest) → ArePeaksOf size peaks.now digests
        → AreSpotsOf spots.old.items digests → OnOk result (AreSpotsOf spots.new.items digests) }
    ensures read { OnOk result ((level place : ℕ) → IsPeak size level place
        → IsRead spots.new.items (position level place)) }
    ensures more { OnOk result (AreMore spots.old.items spots.new.items) }
    ensures refused { IsOnlyMemory result }
{
    let mut level = 0;
    let mut left = size;
    'levels: while left > 0 {
        if left % 2 == 1 {
            put_spot(position_of(level, left - 1), peaks[level], spots)?;
        }
        left /= 2;
        level += 1;
    }
    Ok(())
}

// Returns the index beside an index.
fn sibling_index(index: usize) -> usize
    requires { index < 2 ^ 63 }
    ensures { result ≡ index_beside index }
{
    if index % 2 == 1 { index - 1 } else { index + 1 }
}

/// Reads the complete subtrees beside the way from an index up, in a log of this size, which has digests behind the head.
pub fn read_beside<D: Disk>(
    disk: &D,
    index: usize,
    size: usize,
    spots: &mut Vec<Spot>,
) -> Result<(), Stop<D::Refusal>>
    requires index { index < size }
    requires fits { size < 2 ^ 63 }
    requires inside { file_end size < 2 ^ 64 }
    ensures own { D.Obeys disk.now → file_end size ≤ length (D.seen disk.now)
        → AreSpotsOf spots.old.items (stored_in size (D.seen disk.now))
        → OnOk result (AreSpotsOf spots.new.items (stored_in size (D.seen disk.now))) }
    ensures read { OnOk result ((level place : ℕ) → IsBeside index size level place
        → IsRead spots.new.items (position level place)) }
    ensures more { OnOk result (AreMore spots.old.items spots.new.items) }
    ensures refused { IsOnlyMemory result }
{
    let mut level = 0;
    let mut own = index;
    let mut left = size;
    'levels: while left > 0 {
        let other = sibling_index(own);
        if other < left {
            read_spot(disk, position_of(level, other), spots)?;
        }
        own /= 2;
        left /= 2;
        level += 1;
    }
    Ok(())
}

/// Reads the lowest of the complete subtrees into which a log of this size falls, which has digests behind the head.
pub fn read_lowest<D: Disk>(
    disk: &D,
    size: usize,
    spots: &mut Vec<Spot>,
) -> Result<(), Stop<D::Refusal>>
    requires some { 0 < size }
    requires fits { size < 2 ^ 63 }
    requires inside { file_end size < 2 ^ 64 }
    ensures own { D.Obeys disk.now → (all : ℕ) → size ≤ all
        → file_end all ≤ length (D.seen disk.now)
        → AreSpotsOf spots.old.items (stored_in all (D.seen disk.now))
        → OnOk result (AreSpotsOf spots.new.items (stored_in all (D.seen disk.now))) }
    ensures read { OnOk result ((level place : ℕ) → IsLowest size level place
        → IsRead spots.new.items (position level place)) }
    ensures more { OnOk result (AreMore spots.old.items spots.new.items) }
    ensures refused { IsOnlyMemory result }
{
    let mut level = 0;
    let mut left = size;
    'levels: while left % 2 == 0 {
        left /= 2;
        level += 1;
    }
    read_spot(disk, position_of(level, left - 1), spots)
}
