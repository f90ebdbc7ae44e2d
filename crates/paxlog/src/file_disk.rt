//! The file of a log, as the disk that the store asks for.

ghost use Rattle.std.specs.Prelude.{[]};

use log_file::head::START;
use log_store::{Disk, Layout, SectorDisk, SectorRefusal, Stop, layout_of};
use std::fs::File;
use std::io;
use std::os::unix::fs::FileExt;

/// An open file of the operating system. Nothing is proved of it: that its four calls do what `Disk` says is trusted.
#[derive(Drop)]
struct OpenFile {
    file: File,
}

impl Disk for OpenFile {
    type Refusal = io::Error;

    ghost Obeys = { λ _. ⊥ };

    ghost seen = { λ _. [] };

    ghost may_leave = { λ _ _. ⊥ };

    ghost fresh = { λ _ _ _. ⊥ };

    ghost moment = { λ _. 0 };

    ghost left_since = { λ _ _ _. ⊥ };

    ghost counts_now = { λ _ _ _ _ now. now };

    ghost only_now = { λ _ _ since. since };

    fn length(&self) -> io::Result<usize> {
        Ok(self.file.metadata()?.len() as usize)
    }

    fn read_at(&self, at: usize, into: &mut [u8]) -> io::Result<()> {
        self.file.read_exact_at(into, at as u64)
    }

    fn write_at(&mut self, at: usize, bytes: &[u8]) -> io::Result<()> {
        self.file.write_all_at(bytes, at as u64)
    }

    fn sync(&mut self) -> io::Result<()> {
        self.file.sync_all()
    }
}

// The system's refusal. Bytes that have no place are those of a head of which a sector is not read.
fn refusal_of(refusal: SectorRefusal<io::Error>) -> io::Error {
    match refusal {
        SectorRefusal::Disk(error) => error,
        SectorRefusal::Place => io::Error::from(io::ErrorKind::ReadOnlyFilesystem),
        SectorRefusal::Short => io::Error::from(io::ErrorKind::UnexpectedEof),
    }
}

/// The file of a log, whether its two slots lie in one sector or in two.
#[derive(Drop)]
pub struct FileDisk {
    sectors: SectorDisk<OpenFile>,
    /// Whether a write to a slot was begun, so that what is appended may be in the log.
    pub is_slot_begun: bool,
    /// Whether a write or a sync was refused.
    pub is_refused: bool,
}

impl FileDisk {
    /// Returns the disk of an open file. How the file lies is what its first sectors say now.
    pub fn new(file: File) -> FileDisk {
        let disk = OpenFile { file };
        // whoever reads the head is told of a refusal
        let layout = layout_of(&disk).unwrap_or(Layout::Dense);
        FileDisk {
            sectors: SectorDisk { disk, layout },
            is_slot_begun: false,
            is_refused: false,
        }
    }

    /// Returns the disk of an open file that has no byte, once it is laid out so that its two slots will lie in different sectors. The
    /// error is the system's.
    pub fn blank(file: File) -> io::Result<FileDisk> {
        let mut disk = OpenFile { file };
        log_store::lay_blank(&mut disk)?;
        Ok(FileDisk {
            sectors: SectorDisk {
                disk,
                layout: Layout::Apart,
            },
            is_slot_begun: false,
            is_refused: false,
        })
    }

    /// Lays out the file of a new log, whose two slots lie in different sectors, and returns whether it did: any other file stays as it
    /// is. The error is the system's.
    pub fn lay_out(&mut self) -> io::Result<bool> {
        let is_new = log_store::lay_out(&mut self.sectors.disk)?;
        if is_new {
            self.sectors.layout = Layout::Apart;
        }
        Ok(is_new)
    }

    /// Writes the sector of a slot again that is lost, where the other one has the log. Errors: the log's fault, of a file with
    /// sectors; the system's.
    pub fn heal(&mut self) -> Result<(), Stop<io::Error>> {
        match log_store::heal(&mut self.sectors) {
            Ok(()) => Ok(()),
            Err(Stop::Fault(fault)) => Err(Stop::Fault(fault)),
            Err(Stop::Disk(refusal)) => Err(Stop::Disk(refusal_of(refusal))),
        }
    }

    /// Returns the open file.
    pub fn file(&self) -> &File {
        &self.sectors.disk.file
    }

    // Notes a refusal.
    fn noted(&mut self, said: Result<(), SectorRefusal<io::Error>>) -> io::Result<()> {
        match said {
            Ok(()) => Ok(()),
            Err(refusal) => {
                self.is_refused = true;
                Err(refusal_of(refusal))
            }
        }
    }
}

impl Disk for FileDisk {
    type Refusal = io::Error;

    ghost Obeys = { λ _. ⊥ };

    ghost seen = { λ _. [] };

    ghost may_leave = { λ _ _. ⊥ };

    ghost fresh = { λ _ _ _. ⊥ };

    ghost moment = { λ _. 0 };

    ghost left_since = { λ _ _ _. ⊥ };

    ghost counts_now = { λ _ _ _ _ now. now };

    ghost only_now = { λ _ _ since. since };

    fn length(&self) -> io::Result<usize> {
        match self.sectors.length() {
            Ok(count) => Ok(count),
            Err(refusal) => Err(refusal_of(refusal)),
        }
    }

    fn read_at(&self, at: usize, into: &mut [u8]) -> io::Result<()> {
        match self.sectors.read_at(at, into) {
            Ok(()) => Ok(()),
            Err(refusal) => Err(refusal_of(refusal)),
        }
    }

    fn write_at(&mut self, at: usize, bytes: &[u8]) -> io::Result<()> {
        if at < START && at % 32 == 0 {
            self.is_slot_begun = true;
        }
        let said = self.sectors.write_at(at, bytes);
        self.noted(said)
    }

    fn sync(&mut self) -> io::Result<()> {
        let said = self.sectors.sync();
        self.noted(said)
    }
}
