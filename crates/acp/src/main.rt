//! The program `acp`: trees, proofs and checks, line by line.
#![tactic(auto)]

use acp_run::buffered::{BufferedInput, BufferedOutput};
use acp_run::command::command;
use acp_run::words::words;
use std::io::{self, BufReader};
use std::process::ExitCode;

fn start(rt: &HostRuntime) -> io::Result<u8> {
    let words = words(rt.alloc(), rt)?;
    let mut lines = BufferedInput::new(BufReader::new(rt.alloc(), rt.stdin())?);
    let mut replies = BufferedOutput::new(rt.alloc(), rt.stdout())?;
    let mut faults = BufferedOutput::direct(rt.alloc(), rt.stderr());
    Ok(command(rt.alloc(), &words, &mut lines, &mut replies, &mut faults))
}

fn main(rt: HostRuntime) -> ExitCode {
    match start(&rt) {
        Ok(status) => ExitCode::from(status),
        Err(_) => {
            let _ = eprintln!(rt; "acp: stopped");
            ExitCode::from(1)
        }
    }
}
