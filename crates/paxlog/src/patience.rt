//! For how long another process is waited for.

use crate::stop::Stop;
use std::thread;
use std::time::{Duration, Instant};

// For how many milliseconds nothing is tried while another process is waited for.
const PAUSE: u64 = 20;

/// For how many seconds at most another process is waited for, from a moment on.
#[derive(Clone, Copy)]
pub struct Patience {
    start: Instant,
    seconds: usize,
}

impl Patience {
    /// Begins to wait for so many seconds at most.
    pub fn new(rt: &HostRuntime, seconds: usize) -> Result<Patience, Stop> {
        Ok(Patience {
            start: Instant::now(rt)?,
            seconds,
        })
    }

    /// Returns whether the seconds were not over, behind a pause then.
    pub fn lasts(&self, rt: &HostRuntime) -> Result<bool, Stop> {
        if self.start.elapsed(rt)?.as_secs() as usize >= self.seconds {
            return Ok(false);
        }
        thread::sleep(rt, Duration::from_millis(PAUSE));
        Ok(true)
    }
}
