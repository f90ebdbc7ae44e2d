//! Commands about checkpoints, whose words say who has to sign them.

use crate::appending::bytes_of_file;
use crate::cosigning::cosign_in_folder;
use crate::followers::Source;
use crate::needing::{needed_to_follow, needed_to_prove};
use crate::replying::{replied, request_bytes};
use crate::saying::{say, say_audited, say_checkpoint, say_head, say_receipt, say_verdict};
use crate::signers::{policy_text, signers_of};
use crate::stop::{StopAt, placed};
use crate::words::{folder_name, name_of_word, origin_of};
use crate::{checkpoints, followers};
use log_checkpoints::{verify_receipt, write_receipt};
use paxlog_run::replies::line_of;
use paxlog_run::request::{Entries, Keyed, Needed, Signers, Site, Word};
use signed_notes::Policy;

/// What the checkpoint of a file states, where it is signed as is asked for.
pub fn verify_checkpoint(
    rt: &HostRuntime,
    words: &[Vec<u8>],
    signers: Signers,
    file: Word,
    origin: Option<Word>,
) -> Result<u8, StopAt> {
    let origin = origin_of(words, origin)?;
    let text = policy_text(rt, words, signers)?;
    let by = signers_of(rt, words, signers, &text)?;
    let note = bytes_of_file(rt, words, file)?;
    let origin = origin.unwrap_or(by.file.log.name);
    say_checkpoint(
        rt,
        checkpoints::opened(rt.alloc(), &by.policy(), &note, origin),
    )
}

/// What a receipt shows of an entry, where its checkpoint is signed as is asked for.
pub fn verify_receipt_command(
    rt: &HostRuntime,
    words: &[Vec<u8>],
    by: (Signers, Option<Word>),
    file: Word,
    receipt: Word,
) -> Result<u8, StopAt> {
    let origin = origin_of(words, by.1)?;
    let text = policy_text(rt, words, by.0)?;
    let by = signers_of(rt, words, by.0, &text)?;
    let entry = bytes_of_file(rt, words, file)?;
    let receipt = bytes_of_file(rt, words, receipt)?;
    let origin = origin.unwrap_or(by.file.log.name);
    say_receipt(
        rt,
        verify_receipt(rt.alloc(), &receipt, &entry, origin, &by.policy()),
    )
}

// The folder of tiles that words name, who has to sign, and the origin.
fn source_of<'a>(
    words: &'a [Vec<u8>],
    site: &Site,
    policy: Policy<'a>,
) -> Result<Source<'a>, StopAt> {
    let origin = origin_of(words, site.origin)?;
    let folder = folder_name(words, site.folder)?;
    Ok(Source {
        folder,
        policy,
        origin: origin.unwrap_or(policy.log.name),
    })
}

/// Whether the tiles of a folder are those of its checkpoint.
pub fn audit_command(rt: &HostRuntime, words: &[Vec<u8>], site: &Site) -> Result<u8, StopAt> {
    let text = policy_text(rt, words, site.signers)?;
    let by = signers_of(rt, words, site.signers, &text)?;
    let from = source_of(words, site, by.policy())?;
    match placed(from.folder.place, followers::audit_folder(rt, &from))? {
        Some(found) => say_audited(rt, &found),
        None => say_verdict(rt, false),
    }
}

/// Keeps the entries of a log in a folder.
pub fn keep_command(
    rt: &HostRuntime,
    words: &[Vec<u8>],
    site: &Site,
    entries: Entries,
    first: Option<usize>,
) -> Result<u8, StopAt> {
    let text = policy_text(rt, words, site.signers)?;
    let by = signers_of(rt, words, site.signers, &text)?;
    let from = source_of(words, site, by.policy())?;
    say_head(
        rt,
        &followers::keep_in_folder(rt, &from, words, entries, first)?,
    )
}

/// Puts cosignatures to the checkpoint of a folder.
pub fn cosign_command(
    rt: &HostRuntime,
    words: &[Vec<u8>],
    site: &Site,
    files: usize,
) -> Result<u8, StopAt> {
    let text = policy_text(rt, words, site.signers)?;
    let by = signers_of(rt, words, site.signers, &text)?;
    let from = source_of(words, site, by.policy())?;
    say_head(rt, &cosign_in_folder(rt, &from, words, files)?)
}

/// Names the tiles that a folder lacks, for a follower or for a proof.
pub fn needs(
    rt: &HostRuntime,
    words: &[Vec<u8>],
    site: &Site,
    needed: Needed,
) -> Result<u8, StopAt> {
    let text = policy_text(rt, words, site.signers)?;
    let by = signers_of(rt, words, site.signers, &text)?;
    let from = source_of(words, site, by.policy())?;
    let names = match needed {
        Needed::State(state) => needed_to_follow(rt, &from, folder_name(words, state)?)?,
        Needed::Entry(index) => placed(from.folder.place, needed_to_prove(rt, &from, index))?,
    };
    say(rt, &names)
}

/// Moves a follower's state on.
pub fn follow(rt: &HostRuntime, words: &[Vec<u8>], site: &Site, state: Word) -> Result<u8, StopAt> {
    let text = policy_text(rt, words, site.signers)?;
    let by = signers_of(rt, words, site.signers, &text)?;
    let from = source_of(words, site, by.policy())?;
    let state = folder_name(words, state)?;
    say_head(rt, &followers::follow(rt, &from, state)?)
}

/// Moves a witness's state on, and signs.
pub fn witness(
    rt: &HostRuntime,
    words: &[Vec<u8>],
    site: &Site,
    state: Word,
    key_file: Word,
) -> Result<u8, StopAt> {
    let text = policy_text(rt, words, site.signers)?;
    let by = signers_of(rt, words, site.signers, &text)?;
    let from = source_of(words, site, by.policy())?;
    let state = folder_name(words, state)?;
    let key_file = name_of_word(words, key_file)?;
    say(rt, &followers::witness(rt, &from, state, key_file)?)
}

/// The inclusion proof of an entry by the tiles of a folder, as a receipt or alone.
pub fn tile_proof(
    rt: &HostRuntime,
    words: &[Vec<u8>],
    site: &Site,
    index: usize,
    is_receipt: bool,
) -> Result<u8, StopAt> {
    let text = policy_text(rt, words, site.signers)?;
    let by = signers_of(rt, words, site.signers, &text)?;
    let from = source_of(words, site, by.policy())?;
    let proof = placed(
        from.folder.place,
        followers::prove_in_folder(rt, &from, index),
    )?;
    let line = if is_receipt {
        write_receipt(rt.alloc(), index, &proof.path, &proof.note)?
    } else {
        line_of(rt.alloc(), &proof.path)?
    };
    say(rt, &line)
}

/// Replies to the request on standard input, as a witness.
pub fn witness_reply(
    rt: &HostRuntime,
    words: &[Vec<u8>],
    signers: Signers,
    state: Word,
    keyed: &Keyed,
) -> Result<u8, StopAt> {
    let origin = origin_of(words, keyed.origin)?;
    let text = policy_text(rt, words, signers)?;
    let by = signers_of(rt, words, signers, &text)?;
    let state = folder_name(words, state)?;
    let key_file = name_of_word(words, keyed.key_file)?;
    let request = request_bytes(rt)?;
    let origin = origin.unwrap_or(by.file.log.name);
    say(
        rt,
        &replied(rt, &request, by.policy(), origin, state, key_file)?,
    )
}
