//! A disk that notes which pieces of a file were not read yet.

use crate::file_calls::replay::{Halt, copy_piece};
use log_store::Disk;
use std::alloc::Global;
use std::cell::RefCell;

/// A file of so many bytes, of which some pieces were read. The others read as zeros, and are noted. Nothing is written.
#[derive(Drop)]
pub struct Asking<'a> {
    file_len: usize,
    places: &'a [[usize; 2]],
    pieces: &'a [u8],
    pub missing: RefCell<Vec<[usize; 2]>>,
}

impl<'a> Asking<'a> {
    /// Returns the disk, of which nothing was asked so far.
    pub fn new(
        alloc: Global,
        file_len: usize,
        places: &'a [[usize; 2]],
        pieces: &'a [u8],
    ) -> Asking<'a> {
        Asking {
            file_len,
            places,
            pieces,
            missing: RefCell::new(Vec::new(alloc)),
        }
    }

    // Notes a piece, once.
    fn note(&self, at: usize, count: usize) -> Result<(), Halt> {
        match self.missing.try_borrow_mut() {
            Ok(mut missing) => {
                if missing.contains(&[at, count]) {
                    return Ok(());
                }
                match missing.push([at, count]) {
                    Ok(()) => Ok(()),
                    Err(_) => Err(Halt::Memory),
                }
            }
            Err(_) => Err(Halt::Missing),
        }
    }
}

impl<'a> Disk for Asking<'a> {
    ghost use Rattle.std.specs.Prelude.{[]};

    type Refusal = Halt;

    ghost Obeys = { λ _. ⊥ };

    ghost seen = { λ _. [] };

    ghost may_leave = { λ _ _. ⊥ };

    ghost fresh = { λ _ _ _. ⊥ };

    ghost moment = { λ _. 0 };

    ghost left_since = { λ _ _ _. ⊥ };

    ghost counts_now = { λ _ _ _ _ now. now };

    ghost only_now = { λ _ _ since. since };

    fn length(&self) -> Result<usize, Halt> {
        Ok(self.file_len)
    }

    fn read_at(&self, at: usize, into: &mut [u8]) -> Result<(), Halt> {
        if at > self.file_len || into.len() > self.file_len - at {
            return Err(Halt::Ended);
        }
        if into.is_empty() || copy_piece(self.places, self.pieces, at, into) {
            return Ok(());
        }
        into.fill(0);
        self.note(at, into.len())
    }

    // All is read before anything is written.
    fn write_at(&mut self, _at: usize, _bytes: &[u8]) -> Result<(), Halt> {
        Err(Halt::Ended)
    }

    fn sync(&mut self) -> Result<(), Halt> {
        Ok(())
    }
}
