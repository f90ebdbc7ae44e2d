//! Bytes that come piece by piece, of a file or of standard input.

use crate::stop::Stop;
use std::alloc::Global;
use std::fs::File;
use std::io;
use std::io::Read;

// How many bytes are read at once, at least.
const PIECE: usize = 65536;

/// Where bytes are read: a regular file, a pipe or a device that is named, or standard input.
#[derive(Drop)]
pub enum Source {
    File(File),
    Pipe(File),
    Input,
}

impl Source {
    /// Opens a file; `-` is standard input.
    pub fn open(rt: &HostRuntime, name: &str) -> Result<Source, Stop> {
        if name == "-" {
            return Ok(Source::Input);
        }
        let file = File::open(rt, name)?;
        if file.metadata()?.is_file() {
            Ok(Source::File(file))
        } else {
            Ok(Source::Pipe(file))
        }
    }

    /// Returns whether what comes next is there already, so that nothing waits for it.
    pub fn is_there(&self) -> bool {
        match self {
            Source::File(_) => true,
            _ => false,
        }
    }

    fn read(&mut self, rt: &HostRuntime, into: &mut [u8]) -> io::Result<usize> {
        match self {
            Source::File(file) | Source::Pipe(file) => file.read(into),
            Source::Input => rt.stdin().read(into),
        }
    }
}

/// What was read of a source, and not taken yet.
#[derive(Drop)]
pub struct Buffer {
    source: Source,
    // what was read stands between two places of these bytes, but for what was taken
    bytes: Vec<u8>,
    taken: usize,
    end: usize,
    is_at_end: bool,
}

impl Buffer {
    pub fn new(alloc: Global, source: Source) -> Buffer {
        Buffer {
            source,
            bytes: Vec::new(alloc),
            taken: 0,
            end: 0,
            is_at_end: false,
        }
    }

    /// Returns whether the source has ended.
    pub fn is_at_end(&self) -> bool {
        self.is_at_end
    }

    /// Returns whether what comes next is there already, so that nothing waits for it.
    pub fn is_there(&self) -> bool {
        self.source.is_there()
    }

    /// Reads more, as many bytes again as there are at least, so that a long line is not searched too often. What was taken is let go.
    pub fn read_more(&mut self, rt: &HostRuntime) -> Result<(), Stop> {
        let end = self.end.min(self.bytes.len());
        let taken = self.taken.min(end);
        self.bytes.copy_within(taken..end, 0);
        let left = end - taken;
        let room = left.saturating_add(left.max(PIECE));
        if self.bytes.len() < room {
            self.bytes.resize(room, 0u8)?;
        }
        let left = left.min(self.bytes.len());
        let more = self.source.read(rt, &mut self.bytes[left..])?;
        self.taken = 0;
        self.end = left.saturating_add(more);
        self.is_at_end = more == 0;
        Ok(())
    }

    /// Returns what was not taken.
    pub fn left(&self) -> &[u8] {
        let end = self.end.min(self.bytes.len());
        &self.bytes[self.taken.min(end)..end]
    }

    /// Takes the next bytes, so many.
    pub fn take(&mut self, count: usize) {
        self.taken = self.taken.saturating_add(count);
    }
}
