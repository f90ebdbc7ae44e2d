//! The command `paxlog`: a transparency log in a file.
#![tactic(auto)]

mod appending;
mod batches;
mod checkpoints;
mod complaints;
mod cosigning;
mod entries;
mod file_disk;
mod folders;
mod followers;
mod input;
mod keeping;
mod listing;
mod needing;
mod patience;
mod picture;
mod progress;
mod published_folder;
mod publishing;
mod reading;
mod replying;
mod saying;
mod signed;
mod signers;
mod stop;
mod store;
mod streams;
mod usage;
mod words;
mod writing;

use crate::appending::{append_files, append_lines, bytes_of_file};
use crate::complaints::complain;
use crate::patience::Patience;
use crate::picture::{image_of, picture_text};
use crate::saying::{say, say_head, say_index, say_proof, say_recovered, say_root, say_verdict};
use crate::stop::{Stop, StopAt, placed};
use crate::words::{folder_name, name_of_word, origin_of, words_behind_name};
use ark_trees::digest_of_entry;
use log_file::fault::Fault;
use log_store::InclusionProof;
use paxlog_run::replies::line_of;
use paxlog_run::request::{
    Continuation, Inclusion, Keyed, Misuse, Request, Waiting, Word, bytes_at, request_of_words,
    waiting_in,
};
use paxlog_run::verdicts::{check_consistency, check_inclusion};
use std::process::ExitCode;

const VERSION: &str = "paxlog 1.0.0
";

// The picture of a proof.
fn picture_of(
    rt: &HostRuntime,
    index: usize,
    proof: &InclusionProof,
    is_image: bool,
) -> Result<Vec<u8>, Fault> {
    if is_image {
        return image_of(rt.alloc(), proof.size, index, &proof.digest, &proof.path);
    }
    picture_text(rt.alloc(), proof.size, index, &proof.digest, &proof.path)
}

// The root of a log.
fn root_command(
    rt: &HostRuntime,
    words: &[Vec<u8>],
    log: Word,
    size: Option<usize>,
) -> Result<u8, StopAt> {
    let log = name_of_word(words, log)?;
    let (size, root) = placed(log.place, store::root_of_file(rt, log.text, size))?;
    say_root(rt, size, &root)
}

// The inclusion proof of an entry.
fn proof_for_words(
    rt: &HostRuntime,
    words: &[Vec<u8>],
    log: Word,
    index: usize,
    size: Option<usize>,
) -> Result<InclusionProof, StopAt> {
    let log = name_of_word(words, log)?;
    placed(log.place, store::prove_in_file(rt, log.text, index, size))
}

// The consistency proof of two sizes.
fn consistency_command(
    rt: &HostRuntime,
    words: &[Vec<u8>],
    log: Word,
    old_size: usize,
    size: Option<usize>,
) -> Result<u8, StopAt> {
    let log = name_of_word(words, log)?;
    let path = placed(
        log.place,
        store::consistency_of_file(rt, log.text, old_size, size),
    )?;
    say(rt, &line_of(rt.alloc(), &path)?)
}

// Whether a file is that of a log.
fn check_command(rt: &HostRuntime, words: &[Vec<u8>], log: Word) -> Result<u8, StopAt> {
    let log = name_of_word(words, log)?;
    let holds = placed(log.place, store::check_file(rt, log.text))?;
    say_verdict(rt, holds)
}

// Where in a log an entry stands.
fn find_command(rt: &HostRuntime, words: &[Vec<u8>], log: Word, file: Word) -> Result<u8, StopAt> {
    let log = name_of_word(words, log)?;
    let digest = digest_of_entry(&bytes_of_file(rt, words, file)?);
    match placed(log.place, store::find_in_file(rt, log.text, &digest))? {
        Some(index) => say_index(rt, index),
        None => say_verdict(rt, false),
    }
}

// Says what of a file can be recovered, or makes a new one of it; writes its size and its root.
fn recover_command(
    rt: &HostRuntime,
    words: &[Vec<u8>],
    log: Word,
    new: Option<Word>,
) -> Result<u8, StopAt> {
    let log = name_of_word(words, log)?;
    let (is_made, found) = match new {
        Some(new) => {
            let new = name_of_word(words, new)?;
            (true, store::recover_file(rt, log, new)?)
        }
        None => (
            false,
            placed(log.place, store::recoverable_of_file(rt, log.text))?,
        ),
    };
    say_recovered(rt, words, log, is_made, &found)
}

// Whether an entry is one of a log with a root, by its proof.
fn verify_command(rt: &HostRuntime, words: &[Vec<u8>], shown: &Inclusion) -> Result<u8, StopAt> {
    let entry = bytes_of_file(rt, words, shown.file)?;
    let proof = bytes_at(words, shown.proof.place);
    let verdict = check_inclusion(
        rt.alloc(),
        &shown.root,
        shown.size,
        shown.index,
        &entry,
        proof,
    );
    say_proof(rt, verdict)
}

// Whether a log with a root continues another, by a proof.
fn verify_continuation(
    rt: &HostRuntime,
    words: &[Vec<u8>],
    shown: &Continuation,
) -> Result<u8, StopAt> {
    let Continuation {
        old_size,
        old_root,
        size,
        root,
        proof,
    } = *shown;
    let proof = bytes_at(words, proof.place);
    let verdict = check_consistency(rt.alloc(), old_size, &old_root, size, &root, proof);
    say_proof(rt, verdict)
}

// A new key, whose verifier is written.
fn keygen(
    rt: &HostRuntime,
    words: &[Vec<u8>],
    name: Word,
    key_file: Word,
    is_witness: bool,
) -> Result<u8, StopAt> {
    let (name, key_file) = (name_of_word(words, name)?, name_of_word(words, key_file)?);
    say(rt, &checkpoints::keygen(rt, name, key_file, is_witness)?)
}

// The signed checkpoint of a log.
fn checkpoint_command(
    rt: &HostRuntime,
    words: &[Vec<u8>],
    log: Word,
    keyed: &Keyed,
) -> Result<u8, StopAt> {
    let origin = origin_of(words, keyed.origin)?;
    let (log, key_file) = (
        name_of_word(words, log)?,
        name_of_word(words, keyed.key_file)?,
    );
    say(rt, &checkpoints::sign_log(rt, log, key_file, origin)?)
}

// Writes the tiles of a log to a folder.
fn tiles(
    rt: &HostRuntime,
    words: &[Vec<u8>],
    log: Word,
    folder: Word,
    keyed: &Keyed,
) -> Result<u8, StopAt> {
    let origin = origin_of(words, keyed.origin)?;
    let (log, folder) = (name_of_word(words, log)?, folder_name(words, folder)?);
    let key_file = name_of_word(words, keyed.key_file)?;
    say_head(rt, &publishing::publish(rt, log, folder, key_file, origin)?)
}

// How the command is used, or one of its commands.
fn help(rt: &HostRuntime, words: &[Vec<u8>], command: Option<Word>) -> Result<u8, StopAt> {
    match command {
        None => say(rt, &usage::usage(rt.alloc())?),
        Some(command) => match usage::usage_of(rt.alloc(), bytes_at(words, command.place))? {
            Some(line) => say(rt, &line),
            None => Err(StopAt::from(Misuse::NoCommand(command.place))),
        },
    }
}

// Does what is asked for, and returns the status.
fn carry_out(rt: &HostRuntime, request: Request, words: &[Vec<u8>]) -> Result<u8, StopAt> {
    match request {
        Request::Append {
            log,
            options,
            files,
        } => append_files(rt, words, log, &options, files),
        Request::AppendLines {
            log,
            options,
            publication,
            file,
        } => append_lines(rt, words, log, &options, publication, file),
        Request::Root { log, size } => root_command(rt, words, log, size),
        Request::Prove { log, index, size } => {
            let proof = proof_for_words(rt, words, log, index, size)?;
            say(rt, &line_of(rt.alloc(), &proof.path)?)
        }
        Request::Show {
            log,
            index,
            size,
            is_image,
        } => {
            let proof = proof_for_words(rt, words, log, index, size)?;
            say(rt, &picture_of(rt, index, &proof, is_image)?)
        }
        Request::Consistency {
            log,
            old_size,
            size,
        } => consistency_command(rt, words, log, old_size, size),
        Request::Check { log } => check_command(rt, words, log),
        Request::Find { log, file } => find_command(rt, words, log, file),
        Request::Recover { log, new } => recover_command(rt, words, log, new),
        Request::Verify(shown) => verify_command(rt, words, &shown),
        Request::VerifyConsistency(shown) => verify_continuation(rt, words, &shown),
        Request::Keygen {
            name,
            key_file,
            is_witness,
        } => keygen(rt, words, name, key_file, is_witness),
        Request::Checkpoint { log, keyed } => checkpoint_command(rt, words, log, &keyed),
        Request::VerifyCheckpoint {
            signers,
            file,
            origin,
        } => signed::verify_checkpoint(rt, words, signers, file, origin),
        Request::Tiles { log, folder, keyed } => tiles(rt, words, log, folder, &keyed),
        Request::Audit { site } => signed::audit_command(rt, words, &site),
        Request::Keep {
            site,
            entries,
            from,
        } => signed::keep_command(rt, words, &site, entries, from),
        Request::Cosign { site, files } => signed::cosign_command(rt, words, &site, files),
        Request::Needs { site, needed } => signed::needs(rt, words, &site, needed),
        Request::Follow { site, state } => signed::follow(rt, words, &site, state),
        Request::TileProof {
            site,
            index,
            is_receipt,
        } => signed::tile_proof(rt, words, &site, index, is_receipt),
        Request::VerifyReceipt {
            signers,
            file,
            receipt,
            origin,
        } => signed::verify_receipt_command(rt, words, (signers, origin), file, receipt),
        Request::Witness {
            site,
            state,
            key_file,
        } => signed::witness(rt, words, &site, state, key_file),
        Request::WitnessRequest {
            signers,
            state,
            keyed,
        } => signed::witness_reply(rt, words, signers, state, &keyed),
        Request::WitnessLogs { logs, key_file } => listing::witness_logs(rt, words, logs, key_file),
        Request::Help { command } => help(rt, words, command),
        Request::Version => say(rt, VERSION.as_bytes()),
    }
}

// Does what is asked for as soon as no other process does what one alone does at a time, within so many seconds. Whoever finds another
// one at work has done nothing yet.
fn carry_out_in_turn(
    rt: &HostRuntime,
    request: Request,
    words: &[Vec<u8>],
    seconds: usize,
) -> Result<u8, StopAt> {
    let patience = Patience::new(rt, seconds)?;
    for _turn in 0..usize::MAX {
        match carry_out(rt, request, words) {
            Err(stop) if stop.why.is_busy() => {
                if !patience.lasts(rt)? {
                    return Err(stop);
                }
            }
            done => return done,
        }
    }
    Err(StopAt::from(Stop::Locked))
}

fn run_words(rt: &HostRuntime, words: &[Vec<u8>]) -> Result<u8, StopAt> {
    let Waiting { count, seconds } = match waiting_in(words) {
        Ok(waiting) => waiting,
        Err(misuse) => return Err(StopAt::from(misuse)),
    };
    match request_of_words(&words[..count]) {
        Ok(request) => carry_out_in_turn(rt, request, &words[..count], seconds),
        Err(misuse) => Err(StopAt::from(misuse)),
    }
}

fn main(rt: HostRuntime) -> ExitCode {
    let words = match words_behind_name(rt.alloc(), &rt) {
        Ok(words) => words,
        Err(why) => return ExitCode::from(complain(&rt, &[], StopAt::from(why))),
    };
    match run_words(&rt, &words) {
        Ok(status) => ExitCode::from(status),
        Err(why) => ExitCode::from(complain(&rt, &words, why)),
    }
}
