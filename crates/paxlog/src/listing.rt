//! Lists of the logs of which a witness is one.

use crate::reading::note_bytes;
use crate::replying::{replied_for, request_bytes};
use crate::saying::say;
use crate::stop::{Stop, StopAt, placed};
use crate::words::name_of_word;
use paxlog_run::request::Word;
use signed_notes::{LogsFault, read_logs};

/// Replies to the request on standard input, as a witness of the logs that a file lists.
pub fn witness_logs(
    rt: &HostRuntime,
    words: &[Vec<u8>],
    logs: Word,
    key_file: Word,
) -> Result<u8, StopAt> {
    let list = name_of_word(words, logs)?;
    let key_file = name_of_word(words, key_file)?;
    let text = placed(list.place, note_bytes(rt, list.text))?;
    let logs = match read_logs(rt.alloc(), &text) {
        Ok(logs) => logs,
        Err(fault) => return Err(Stop::from(fault).at(list.place)),
    };
    let request = request_bytes(rt)?;
    say(rt, &replied_for(rt, &request, list, &logs, key_file)?)
}

/// Returns why a line of a list of logs is none.
pub fn reason(why: LogsFault) -> &'static str {
    match why {
        LogsFault::Note(fault) => crate::checkpoints::reason(fault),
        LogsFault::Command => "a line begins with `log`",
        LogsFault::Words => "the line has too few words, or too many",
        LogsFault::State => "the name of the state is no text",
        LogsFault::Twice => "a log of this origin is named already",
        LogsFault::NoLog => "no log is named",
    }
}
