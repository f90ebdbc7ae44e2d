//! How far a long call is, on a terminal.

use paxlog_run::entries::Progress;
use std::io::IsTerminal;

/// Shows progress on standard error, where that is a terminal.
#[derive(Drop)]
pub struct OnTerminal<'a> {
    rt: &'a HostRuntime,
    is_shown: bool,
}

impl<'a> OnTerminal<'a> {
    pub fn new(rt: &'a HostRuntime) -> OnTerminal<'a> {
        OnTerminal {
            rt,
            is_shown: rt.stderr().is_terminal(),
        }
    }

    /// Shows that all is hashed, and is written.
    pub fn writes(&self) {
        if self.is_shown {
            let _ = eprint!(self.rt; "\rpaxlog: writing");
        }
    }

    /// Clears the line.
    pub fn end(&self) {
        if self.is_shown {
            let _ = eprint!(self.rt; "\r                    \r");
        }
    }
}

impl<'a> Progress for OnTerminal<'a> {
    fn show(&mut self, done: usize, all: usize) {
        if self.is_shown && all > 0 {
            let percent = done / (all / 100 + 1);
            let _ = eprint!(self.rt; "\rpaxlog: {percent} %");
        }
    }
}
