//! Lists of logs, as text: who signs them, where their states are, and their origins.

ghost use Rattle.std.specs.Prelude.{◌≡◌, ◌∷◌, [], map, option_map, MatchOption, Some, None};
ghost use Rattle.signed_notes.specs.Cutting.{lines_in};
ghost use Rattle.signed_notes.specs.LogLists.{at_most_one, key_in_list, log_by, log_of_origin, log_of_words, origin_in_list, policy_of_log, read_logs, state_in_list, with_log, with_log_line, with_log_lines, with_log_words, AddsLog, ListGivesBy, ListsBy};
ghost use Rattle.signed_notes.specs.LogListViews.{listed_parts};
ghost use Rattle.signed_notes.specs.PolicyFiles.{spaced_words};
ghost use Rattle.signed_notes.specs.Views.{policy_parts, verifier_parts};

use crate::cutting::next_line;
use crate::fault::Fault;
use crate::keys::Verifier;
use crate::logs_fault::{LogsFault, LogsFaultAt};
use crate::opening::Policy;
use crate::policy_words::{next_word, uncommented};
use crate::texts::text_of;
use std::alloc::Global;

/// A log of a list.
#[derive(Clone, Copy)]
pub struct ListedLog<'a> {
    pub key: Verifier<'a>,
    /// The name of the file that has its state.
    pub state: &'a str,
    pub origin: &'a str,
}

impl<'a> ListedLog<'a> {
    /// Returns the policy of its checkpoints: its key alone has to sign.
    pub fn policy(&self) -> Policy<'_>
        ensures { policy_parts result ≡ policy_of_log (verifier_parts self.now.key) }
    {
        Policy {
            log: self.key,
            witnesses: &[],
            quorum: 0,
            since: 0,
        }
    }
}

/// Returns the first log of an origin.
pub fn log_of_origin<'a>(logs: &[ListedLog<'a>], origin: &str) -> Option<ListedLog<'a>>
    ensures { MatchOption result (log_of_origin (map listed_parts logs.now) origin.now ≡ None)
        (λ log. log_of_origin (map listed_parts logs.now) origin.now ≡ Some (listed_parts log)) }
{
    for one in logs {
        if one.origin == origin {
            return Some(*one);
        }
    }
    None
}

// The key that a word says.
fn key_in_list(alloc: Global, word: &[u8]) -> Result<Verifier<'_>, LogsFault>
    ensures { ListGivesBy verifier_parts (key_in_list word.now) result }
{
    match Verifier::read(alloc, word) {
        Ok(key) => Ok(key),
        Err(fault) => Err(LogsFault::Note(fault)),
    }
}

// The name of a state's file that a word says.
fn state_in_list(word: &[u8]) -> Result<&str, LogsFault>
    ensures { ListGivesBy (λ state. state.now) (state_in_list word.now) result }
{
    match text_of(word) {
        Some(state) => Ok(state),
        None => Err(LogsFault::State),
    }
}

// The origin that a word says; the name of the key where there is no word.
fn origin_in_list<'a>(name: &'a str, word: Option<&'a [u8]>) -> Result<&'a str, LogsFault>
    ensures { ListGivesBy (λ origin. origin.now)
        (origin_in_list name.now (option_map (λ word. word.now) word.entry)) result }
{
    match word {
        None => Ok(name),
        Some(word) => match text_of(word) {
            Some(origin) => Ok(origin),
            None => Err(LogsFault::Note(Fault::Origin)),
        },
    }
}

// The only one of some words, if there is one.
fn at_most_one(words: &[u8]) -> Result<Option<&[u8]>, LogsFault>
    ensures { ListGivesBy (λ found. option_map (λ word. word.now) found)
        (at_most_one (spaced_words words.now)) result }
{
    match next_word(words) {
        Some((word, more)) => {
            if next_word(more).is_some() {
                Err(LogsFault::Words)
            } else {
                Ok(Some(word))
            }
        }
        None => Ok(None),
    }
}

// The log of these words.
fn log_by<'a>(
    alloc: Global,
    key: &'a [u8],
    state: &'a [u8],
    origin: Option<&'a [u8]>,
) -> Result<ListedLog<'a>, LogsFault>
    ensures { ListGivesBy listed_parts
        (log_by key.now state.now (option_map (λ word. word.now) origin.entry)) result }
{
    let key = key_in_list(alloc, key)?;
    let state = state_in_list(state)?;
    let origin = origin_in_list(key.name, origin)?;
    Ok(ListedLog { key, state, origin })
}

// `KEY STATE [ORIGIN]`.
fn log_of_words(alloc: Global, words: &[u8]) -> Result<ListedLog<'_>, LogsFault>
    ensures { ListGivesBy listed_parts (log_of_words (spaced_words words.now)) result }
{
    let Some((key, more)) = next_word(words) else {
        return Err(LogsFault::Words);
    };
    let Some((state, last)) = next_word(more) else {
        return Err(LogsFault::Words);
    };
    let origin = at_most_one(last)?;
    log_by(alloc, key, state, origin)
}

// Adds a log, unless one of its origin is there.
fn with_log<'a>(logs: &mut Vec<ListedLog<'a>>, log: ListedLog<'a>) -> Result<(), LogsFault>
    ensures { AddsLog (with_log (map listed_parts logs.old.items) (listed_parts log.entry))
        (map listed_parts logs.new.items) result }
{
    if log_of_origin(logs, log.origin).is_some() {
        return Err(LogsFault::Twice);
    }
    match logs.push(log) {
        Ok(()) => Ok(()),
        Err(_) => Err(LogsFault::Note(Fault::Memory)),
    }
}

// Adds the log of a line's words, the first of them and those behind it.
fn with_log_words<'a>(
    alloc: Global,
    logs: &mut Vec<ListedLog<'a>>,
    word: &[u8],
    words: &'a [u8],
) -> Result<(), LogsFault>
    ensures { let before = map listed_parts logs.old.items in
        AddsLog (with_log_words before (word.now ∷ spaced_words words.now))
        (map listed_parts logs.new.items) result }
{
    if word != b"log".as_slice() {
        return Err(LogsFault::Command);
    }
    let log = log_of_words(alloc, words)?;
    with_log(logs, log)
}

// Adds the log of a line, if it has a word.
fn with_log_line<'a>(
    alloc: Global,
    logs: &mut Vec<ListedLog<'a>>,
    line: &'a [u8],
) -> Result<(), LogsFault>
    ensures { AddsLog (with_log_line (map listed_parts logs.old.items) line.now)
        (map listed_parts logs.new.items) result }
{
    match next_word(uncommented(line)) {
        Some((word, words)) => with_log_words(alloc, logs, word, words),
        None => Ok(()),
    }
}

// The logs of all lines, and how many lines there are.
fn with_log_lines(alloc: Global, text: &[u8]) -> Result<(Vec<ListedLog<'_>>, usize), LogsFaultAt>
    ensures { ListsBy (λ all. (map listed_parts all.0.items, all.1))
        (with_log_lines [] 0 (lines_in text.now)) result }
{
    let mut logs = Vec::new(alloc);
    let mut count = 0;
    let mut rest = text;
    'lines: while !rest.is_empty() {
        let (line, behind) = next_line(rest);
        count += 1;
        if let Err(why) = with_log_line(alloc, &mut logs, line) {
            return Err(LogsFaultAt { line: count, why });
        }
        rest = behind;
    }
    Ok((logs, count))
}

/// Reads a list of logs: `log KEY STATE [ORIGIN]`, a line each, with spaces between the words, and comments behind `#`. KEY is the key
/// of a verifier, STATE the name of a file, and ORIGIN the name of the key where none is given. No two logs have one origin.
///
/// Errors: of the first line that is none, and there the first that applies: `Command`; `Words`; those of `Verifier::read`; `State`;
/// `Origin`; `Twice`. Of the whole list `NoLog`. `Memory` at any time.
pub fn read_logs(alloc: Global, text: &[u8]) -> Result<Vec<ListedLog<'_>>, LogsFaultAt>
    ensures { ListsBy (λ logs. map listed_parts logs.items) (read_logs text.now) result }
{
    let (logs, count) = with_log_lines(alloc, text)?;
    if logs.is_empty() {
        return Err(LogsFaultAt {
            line: count,
            why: LogsFault::NoLog,
        });
    }
    Ok(logs)
}
