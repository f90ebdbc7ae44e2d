//! Lines that are appended as they come, and published behind their batches.

use crate::appending::{Keeping, append_and_keep};
use crate::batches::{Batch, Batches};
use crate::checkpoints::signed_by;
use crate::input::Source;
use crate::patience::Patience;
use crate::publishing::publish;
use crate::reading::key_file_bytes;
use crate::saying::say_size;
use crate::stop::{Stop, StopAt, placed};
use crate::store::Keeper;
use crate::words::{Name, folder_name, name_of_word, origin_of};
use paxlog_run::request::{Options, Publication};
use std::time::{Duration, Instant};

// For how many seconds at least another process is waited for behind the first batch.
const LEAST: usize = 60;

// For how many seconds another process is waited for by a stream that has begun.
fn patience_of(options: &Options) -> usize {
    options.wait.max(LEAST)
}

/// What publishes a log behind batches: its files, and when it did so last.
#[derive(Drop)]
pub struct Publisher<'a> {
    log: Name<'a>,
    folder: Name<'a>,
    key_file: Name<'a>,
    origin: Option<&'a str>,
    // how many milliseconds lie at least between two times
    every: usize,
    // for how many seconds another process is waited for
    wait: usize,
    last: Option<Instant>,
    // whether there may be entries that are not published
    is_behind: bool,
}

impl<'a> Publisher<'a> {
    /// Reads the words that say where a log is published, and the key, so that one that is none is told before a line is read.
    pub fn new(
        rt: &HostRuntime,
        words: &'a [Vec<u8>],
        log: Name<'a>,
        options: &Options,
        publication: &Publication,
    ) -> Result<Publisher<'a>, StopAt> {
        let origin = origin_of(words, publication.keyed.origin)?;
        let folder = folder_name(words, publication.folder)?;
        let key_file = name_of_word(words, publication.keyed.key_file)?;
        let text = key_file_bytes(rt, key_file)?;
        placed(key_file.place, signed_by(rt.alloc(), &text))?;
        Ok(Publisher {
            log,
            folder,
            key_file,
            origin,
            every: publication.every,
            wait: patience_of(options),
            last: None,
            is_behind: true,
        })
    }

    // Publishes the log, and waits while another process appends to it or writes the folder.
    fn publish(&mut self, rt: &HostRuntime) -> Result<(), StopAt> {
        let patience = Patience::new(rt, self.wait)?;
        for _turn in 0..usize::MAX {
            match publish(rt, self.log, self.folder, self.key_file, self.origin) {
                Ok(_) => break,
                Err(stop) if stop.why.is_busy() => {
                    if !patience.lasts(rt)? {
                        return Err(stop);
                    }
                }
                Err(stop) => return Err(stop),
            }
        }
        self.last = Some(Instant::now(rt)?);
        self.is_behind = false;
        Ok(())
    }

    // Publishes the log behind a batch, if the last time lies far enough back.
    fn follow(&mut self, rt: &HostRuntime) -> Result<(), StopAt> {
        self.is_behind = true;
        let last = self.last;
        if let Some(last) = last {
            if last.elapsed(rt)? < Duration::from_millis(self.every as u64) {
                return Ok(());
            }
        }
        self.publish(rt)
    }

    // Publishes what is not published yet.
    fn end(&mut self, rt: &HostRuntime) -> Result<(), StopAt> {
        if self.is_behind {
            return self.publish(rt);
        }
        Ok(())
    }
}

// Appends a batch to a log that is locked for it alone, and writes the new size once it is on the disk and the lock is let go.
fn append_batch(
    rt: &HostRuntime,
    log: Name,
    keeper: &mut Keeper<'_>,
    keeping: &mut Option<Keeping<'_>>,
    wait: usize,
    batch: &Batch,
) -> Result<(), StopAt> {
    placed(log.place, keeper.lock_again(rt, wait))?;
    let size = append_and_keep(rt, log, keeper, keeping, batch)?;
    let done = keeper.let_go();
    // what is on the disk is said, whatever comes
    say_size(rt, size)?;
    placed(log.place, done)
}

/// Appends the lines of a source, so many at once at most, and writes each new size once it is on the disk. While it reads or writes
/// one, the log is not locked. It is published behind a batch, where something publishes it, and at the end.
pub fn append_batches(
    rt: &HostRuntime,
    log: Name,
    options: &Options,
    keeping: Option<Keeping<'_>>,
    publisher: Option<Publisher<'_>>,
    file: Name,
    count: usize,
) -> Result<u8, StopAt> {
    let (mut keeping, mut publisher) = (keeping, publisher);
    let source = placed(file.place, Source::open(rt, file.text))?;
    let mut keeper = placed(log.place, Keeper::open(rt, log.text, options))?;
    placed(log.place, keeper.let_go())?;
    let mut batches = Batches::new(rt.alloc(), source, count, keeping.is_some());
    for _turn in 0..u64::MAX {
        let batch = placed(file.place, batches.next(rt))?;
        // an empty input says the size that there is
        if !batch.digests.is_empty() || batches.is_first() {
            let wait = patience_of(options);
            append_batch(rt, log, &mut keeper, &mut keeping, wait, &batch)?;
            if let Some(publisher) = &mut publisher {
                publisher.follow(rt)?;
            }
        }
        if batches.is_at_end() {
            if let Some(publisher) = &mut publisher {
                publisher.end(rt)?;
            }
            return Ok(0);
        }
    }
    Ok(0)
}
