//! How the command is used: a line for each of its commands.

use crate::stop::Stop;
use std::alloc::Global;

// The words of each command, behind `paxlog`.
const LINES: [&str; 32] = [
    "append LOG [--after SIZE ROOT] [--wait SECONDS] [--keep FOLDER] [--] FILE ..",
    "append-lines LOG [--after SIZE ROOT] [--wait SECONDS] [--keep FOLDER] [--batch COUNT [--publish FOLDER --key KEYFILE [--origin ORIGIN] [--every MILLISECONDS]]] [--] FILE",
    "root LOG [SIZE]",
    "prove LOG INDEX [SIZE]",
    "show LOG INDEX [SIZE]",
    "show-image LOG INDEX [SIZE]",
    "consistency LOG OLD_SIZE [SIZE]",
    "check LOG",
    "find LOG FILE",
    "recover LOG [NEW] [--wait SECONDS]",
    "verify ROOT SIZE INDEX FILE PROOF",
    "verify-consistency OLD_SIZE OLD_ROOT SIZE ROOT PROOF",
    "keygen NAME KEYFILE",
    "keygen-witness NAME KEYFILE",
    "checkpoint LOG --key KEYFILE [--origin ORIGIN] [--wait SECONDS]",
    "verify-checkpoint KEY|--policy POLICY [--not-older-than SECONDS] FILE [ORIGIN]",
    "tiles LOG FOLDER --key KEYFILE [--origin ORIGIN] [--wait SECONDS]",
    "cosign FOLDER --policy POLICY FILE .. [--wait SECONDS]",
    "audit FOLDER KEY|--policy POLICY [--not-older-than SECONDS] [ORIGIN]",
    "keep FOLDER KEY FILE [ORIGIN] [--from INDEX] [--wait SECONDS]",
    "keep-bundles FOLDER KEY FILE [ORIGIN] [--from INDEX] [--wait SECONDS]",
    "keep-files FOLDER KEY [--origin ORIGIN] FILE .. [--from INDEX] [--wait SECONDS]",
    "follow FOLDER KEY|--policy POLICY [--not-older-than SECONDS] STATE [ORIGIN] [--wait SECONDS]",
    "needs FOLDER KEY|--policy POLICY [--not-older-than SECONDS] STATE [ORIGIN]",
    "needs-entry FOLDER KEY|--policy POLICY [--not-older-than SECONDS] INDEX [ORIGIN]",
    "tile-proof FOLDER KEY|--policy POLICY [--not-older-than SECONDS] INDEX [ORIGIN]",
    "receipt FOLDER KEY|--policy POLICY [--not-older-than SECONDS] INDEX [ORIGIN]",
    "verify-receipt KEY|--policy POLICY [--not-older-than SECONDS] FILE RECEIPT [ORIGIN]",
    "witness FOLDER KEY|--policy POLICY [--not-older-than SECONDS] STATE --key KEYFILE [--origin ORIGIN] [--wait SECONDS]",
    "witness-request KEY|--policy POLICY [--not-older-than SECONDS] STATE --key KEYFILE [--origin ORIGIN] | --logs LOGS --key KEYFILE",
    "help [COMMAND]",
    "-h | --help | --version",
];

// What stands below the lines.
const INPUT: &str = "FILE - is standard input.\n";

// Whether a line is that of a command: it begins with its name, or is the last, which has three.
fn is_line_of(line: &str, command: &[u8]) -> bool {
    match line.split_once(' ') {
        Some(("-h", _)) => {
            command == b"-h".as_slice()
                || command == b"--help".as_slice()
                || command == b"--version".as_slice()
        }
        Some((name, _)) => name.as_bytes() == command,
        None => false,
    }
}

/// Returns the lines of all commands.
pub fn usage(alloc: Global) -> Result<Vec<u8>, Stop> {
    let mut text = Vec::new(alloc);
    let mut lead = "usage:";
    for line in LINES {
        text.extend_from_slice(format!(in alloc; "{lead} paxlog {line}\n")?.as_bytes())?;
        lead = "      ";
    }
    text.extend_from_slice(INPUT.as_bytes())?;
    Ok(text)
}

/// Returns the line of a command; none where there is no such command.
pub fn usage_of(alloc: Global, command: &[u8]) -> Result<Option<Vec<u8>>, Stop> {
    for line in LINES {
        if is_line_of(line, command) {
            let mut text = Vec::new(alloc);
            text.extend_from_slice(format!(in alloc; "usage: paxlog {line}\n")?.as_bytes())?;
            return Ok(Some(text));
        }
    }
    Ok(None)
}
