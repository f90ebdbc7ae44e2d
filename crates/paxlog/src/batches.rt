//! Lines of a file or of standard input, so many at once.

use crate::entries::push_lines;
use crate::input::{Buffer, Source};
use crate::stop::Stop;
use paxlog_run::entries::{Progress, digests_of_lines, whole_lines};
use std::alloc::Global;

// Shows nothing: each batch is told by its size.
#[derive(Drop)]
struct Silent;

impl Progress for Silent {
    fn show(&mut self, _done: usize, _all: usize) {}
}

/// Entries that are appended at once: their digests, and their bytes as bundles have them, where they are to be kept.
#[derive(Drop)]
pub struct Batch {
    pub digests: Vec<[u8; 32]>,
    pub entries: Vec<u8>,
}

impl Batch {
    pub fn new(alloc: Global) -> Batch {
        Batch {
            digests: Vec::new(alloc),
            entries: Vec::new(alloc),
        }
    }
}

/// The lines of a source, so many at once.
#[derive(Drop)]
pub struct Batches {
    alloc: Global,
    buffer: Buffer,
    // how many lines a batch has at most
    most: usize,
    // whether the bytes of the lines are to be kept
    are_kept: bool,
    // how many batches were given
    given: usize,
}

impl Batches {
    pub fn new(alloc: Global, source: Source, most: usize, are_kept: bool) -> Batches {
        Batches {
            alloc,
            buffer: Buffer::new(alloc, source),
            most,
            are_kept,
            given: 0,
        }
    }

    /// Returns whether the batch that was given last is the first one.
    pub fn is_first(&self) -> bool {
        self.given == 1
    }

    /// Returns whether the source has ended.
    pub fn is_at_end(&self) -> bool {
        self.buffer.is_at_end()
    }

    // Puts the lines of the next bytes behind a batch.
    fn take(&mut self, count: usize, batch: &mut Batch) -> Result<(), Stop> {
        let left = self.buffer.left();
        let count = count.min(left.len());
        let lines = &left[..count];
        if self.are_kept {
            push_lines(lines, &mut batch.entries)?;
        }
        let more = digests_of_lines(self.alloc, lines, &mut Silent)?;
        batch.digests.extend_from_slice(&more)?;
        self.buffer.take(count);
        Ok(())
    }

    /// Returns the next entries, once there is one: of so many lines, or of those that are left, where the source has ended; and
    /// of those that came, where others would be waited for.
    pub fn next(&mut self, rt: &HostRuntime) -> Result<Batch, Stop> {
        let mut batch = Batch::new(self.alloc);
        self.given = self.given.saturating_add(1);
        for _turn in 0..u64::MAX {
            let lacking = self.most.saturating_sub(batch.digests.len());
            let (end, _count) = whole_lines(self.buffer.left(), lacking);
            self.take(end, &mut batch)?;
            let is_enough = batch.digests.len() >= self.most;
            if is_enough || !batch.digests.is_empty() && !self.buffer.is_there() {
                return Ok(batch);
            }
            self.buffer.read_more(rt)?;
            if self.buffer.is_at_end() {
                self.take(usize::MAX, &mut batch)?;
                return Ok(batch);
            }
        }
        Ok(batch)
    }
}
