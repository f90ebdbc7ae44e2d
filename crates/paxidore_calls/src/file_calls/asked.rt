//! What a call on a log's file asks for, and which pieces of the file are to be read for it.

ghost use Rattle.std.specs.Prelude.{◌≡◌, ◌≤◌, ◌+◌, length, take, IfErr, OnOk, Err};
ghost use Rattle.std.specs.List.{between, list_all};
ghost use Rattle.paxidore_calls.specs.LogFiles.{AsksFirst, IsOfCaller, lies_within};
ghost use Rattle.paxidore_calls.specs.declared.file_calls.not_done.NotDone.TheVariants.{More, Refusal};
ghost use Rattle.paxidore_calls.specs.declared.refused.Refused.TheVariants.{Room};

use crate::file_calls::asking::Asking;
use crate::file_calls::layouts::layout_on;
use crate::file_calls::not_done::NotDone;
use crate::refused::Refused;
use log_store::{Disk, Layout, SectorDisk};
use std::alloc::Global;

/// What a call on a log's file asks for.
#[derive(Clone, Copy)]
pub enum Asked {
    /// The sectors of a new log, a sector that is lost, or the head again.
    Made,
    /// The size.
    Size,
    /// The root of the first entries.
    Root(usize),
    /// An append of some entries.
    Growth,
    /// The path of an index in the first entries.
    Inclusion(usize, usize),
    /// The proof that the first entries continue the first old ones.
    Consistency(usize, usize),
}

// What a call gives is not looked at.
fn leave<T: Drop>(_done: T) {}

impl Asked {
    // Makes the call that is made of the file itself, of which the disk alone tells.
    fn try_on_file<D: Disk>(self, disk: &mut D) {
        match self {
            Asked::Made => leave(log_store::lay_out(disk)),
            _ => {}
        }
    }

    // Makes the call, of which the disk alone tells.
    fn try_on<D: Disk + Drop>(self, alloc: Global, disk: &mut SectorDisk<D>) {
        match self {
            Asked::Made => {
                leave(log_store::heal(disk));
                leave(log_store::make(disk));
            }
            Asked::Size => leave(log_store::size(disk)),
            Asked::Root(size) => leave(log_store::root(disk, Some(size))),
            // what is read for one entry is read for any number of them
            Asked::Growth => leave(log_store::append(alloc, disk, &[[0; 32]])),
            Asked::Inclusion(index, size) => {
                leave(log_store::prove(alloc, disk, index, Some(size)))
            }
            Asked::Consistency(old_size, size) => {
                leave(log_store::consistency(alloc, disk, old_size, Some(size)))
            }
        }
    }
}

// The pieces that the call reads that is made of the file itself.
fn missing_whole(
    alloc: Global,
    asked: Asked,
    file_len: usize,
    read: &[[usize; 2]],
    pieces: &[u8],
) -> Vec<[usize; 2]> {
    let mut whole = Asking::new(alloc, file_len, read, pieces);
    asked.try_on_file(&mut whole);
    whole.missing.into_inner()
}

// The pieces that are to be read first: those that tell whether the file is new, and then its layout; or else those that the call
// reads.
fn missing_for(
    alloc: Global,
    asked: Asked,
    file_len: usize,
    read: &[[usize; 2]],
    pieces: &[u8],
) -> Vec<[usize; 2]> {
    let whole = missing_whole(alloc, asked, file_len, read, pieces);
    if !whole.is_empty() {
        return whole;
    }
    let sectors = Asking::new(alloc, file_len, read, pieces);
    let layout = layout_on(&sectors).unwrap_or(Layout::Dense);
    let first = sectors.missing.into_inner();
    if !first.is_empty() {
        return first;
    }
    let mut own = SectorDisk {
        disk: Asking::new(alloc, file_len, read, pieces),
        layout,
    };
    asked.try_on(alloc, &mut own);
    own.disk.missing.into_inner()
}

// Whether the pieces have as many bytes as their places say.
fn are_pieces(places: &[[usize; 2]], pieces: &[u8]) -> bool {
    let mut left = pieces.len();
    for piece in places {
        if piece[1] > left {
            return false;
        }
        left -= piece[1];
    }
    left == 0
}

// Whether each piece lies within so many bytes.
fn are_within_file(places: &[[usize; 2]], file_len: usize) -> bool
    ensures { result ≡ list_all (lies_within file_len) places.now }
{
    for piece in places {
        if piece[0] > file_len || piece[1] > file_len - piece[0] {
            return false;
        }
    }
    true
}

// Puts places behind the first ones.
fn put_places(places: &mut [[usize; 2]], count: usize, more: &[[usize; 2]])
    requires { count + length more.now ≤ length places.old }
    ensures same { take count places.new ≡ take count places.old }
    ensures put { between count (count + length more.now) places.new ≡ more.now }
    ensures room { length places.new ≡ length places.old }
{
    places[count..count + more.len()].copy_from_slice(more);
}

/// Puts the places of the pieces that are to be read first behind those that were read.
///
/// Errors: `Room` where there is none for the first of them, `Lengths` where the pieces have not as many bytes as their places
/// say; `More` where a place was put there.
pub fn ask(
    alloc: Global,
    asked: Asked,
    file_len: usize,
    places: &mut [[usize; 2]],
    places_len: &mut usize,
    pieces: &[u8],
) -> Result<(), NotDone>
    ensures first { AsksFirst (result ≡ Err More) file_len places_len.old places_len.new
        places.old places.new }
    ensures kept { OnOk result (places.new ≡ places.old) }
    ensures uncounted { OnOk result (places_len.new ≡ places_len.old) }
    ensures inside { OnOk result (places_len.new ≤ length places.new) }

    // There is room for places where there is any.
    ensures room { result ≡ Err (Refusal Room) → length places.old ≤ places_len.old }
    ensures refused { IfErr result IsOfCaller }
{
    let read = *places_len;
    if read > places.len() {
        return Err(NotDone::Refusal(Refused::Room));
    }
    if !are_pieces(&places[..read], pieces) {
        return Err(NotDone::Refusal(Refused::Lengths));
    }
    let missing = missing_for(alloc, asked, file_len, &places[..read], pieces);
    if missing.is_empty() {
        return Ok(());
    }
    let count = missing.len().min(places.len() - read);
    if count == 0 {
        return Err(NotDone::Refusal(Refused::Room));
    }
    if !are_within_file(&missing[..count], file_len) {
        return Err(NotDone::Refusal(Refused::Other));
    }
    put_places(places, read, &missing[..count]);
    *places_len = read + count;
    Err(NotDone::More)
}
