//! Who has to sign a checkpoint: the log whose key a word says, or who the policy of a file names.

use crate::checkpoints::verifier;
use crate::followers::seconds_now;
use crate::reading::note_bytes;
use crate::stop::{Stop, StopAt, placed};
use crate::words::name_of_word;
use paxlog_run::request::{Signers, Word, number_word_at};
use signed_notes::{Policy, PolicyFault, PolicyFile, read_policy};
use std::alloc::Global;

/// Returns the bytes of the policy file that is named; none where a key is.
pub fn policy_text(
    rt: &HostRuntime,
    words: &[Vec<u8>],
    signers: Signers,
) -> Result<Vec<u8>, StopAt> {
    let file = match signers {
        Signers::Key(_) => return Ok(Vec::new(rt.alloc())),
        Signers::Policy(file) => file,
        Signers::Lately { policy, seconds: _ } => policy,
    };
    let name = name_of_word(words, file)?;
    placed(name.place, note_bytes(rt, name.text))
}

/// Who has to sign, and the time, in seconds since 1970, from which on a witness has to have signed.
#[derive(Drop)]
pub struct By<'a> {
    pub file: PolicyFile<'a>,
    pub since: u64,
}

impl<'a> By<'a> {
    /// Returns the policy.
    pub fn policy(&self) -> Policy<'_> {
        let mut policy = self.file.policy();
        policy.since = self.since;
        policy
    }
}

// The policy that the text of a file says.
fn policy_in<'a>(alloc: Global, file: Word, text: &'a [u8]) -> Result<PolicyFile<'a>, StopAt> {
    match read_policy(alloc, text) {
        Ok(read) => Ok(read),
        Err(fault) => Err(Stop::from(fault).at(file.place)),
    }
}

// The time so many seconds ago.
fn seconds_ago(rt: &HostRuntime, words: &[Vec<u8>], seconds: Word) -> Result<u64, StopAt> {
    match number_word_at(words, seconds.place) {
        Ok(count) => Ok(seconds_now(rt)?.saturating_sub(count as u64)),
        Err(misuse) => Err(StopAt::from(misuse)),
    }
}

/// Returns who has to sign: the log of the key that a word says, or who the text of a policy file says.
pub fn signers_of<'a>(
    rt: &HostRuntime,
    words: &'a [Vec<u8>],
    signers: Signers,
    text: &'a [u8],
) -> Result<By<'a>, StopAt> {
    let alloc = rt.alloc();
    match signers {
        Signers::Key(key) => Ok(By {
            file: PolicyFile {
                log: verifier(alloc, words, key)?,
                witnesses: Vec::new(alloc),
                quorum: 0,
            },
            since: 0,
        }),
        Signers::Policy(file) => Ok(By {
            file: policy_in(alloc, file, text)?,
            since: 0,
        }),
        Signers::Lately { policy, seconds } => Ok(By {
            file: policy_in(alloc, policy, text)?,
            since: seconds_ago(rt, words, seconds)?,
        }),
    }
}

/// Returns why a line of a policy file is none.
pub fn reason(why: PolicyFault) -> &'static str {
    match why {
        PolicyFault::Note(fault) => crate::checkpoints::reason(fault),
        PolicyFault::Command => "a line begins with `log`, `witness`, `group` or `quorum`",
        PolicyFault::Words => "the line has too few words, or too many",
        PolicyFault::SecondLog => "a second log is named",
        PolicyFault::SecondQuorum => "a second quorum is named",
        PolicyFault::Twice => "the name stands for something already",
        PolicyFault::Unknown => "a name stands for nothing yet",
        PolicyFault::Nested => "a member of the group is a group",
        PolicyFault::Count =>
            "the count is not `any`, `all` or a number from 1 to that of the members",
        PolicyFault::NoLog => "no log is named",
        PolicyFault::NoQuorum => "no quorum is named",
    }
}
