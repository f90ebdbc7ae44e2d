//! Policy files: who has to sign the checkpoints of a log, as text. It is the policy file of sigsum, with verifiers of signed notes
//! as its keys.

ghost use Rattle.std.specs.Prelude.{◌≡◌, ◌∷◌, [], map, MatchOption, Some, None};
ghost use Rattle.signed_notes.specs.Cutting.{lines_in};
ghost use Rattle.signed_notes.specs.PolicyFiles.{count_of_word, count_within, group_line, is_free, log_line, meaning_of, member_count, member_key, no_lines, quorum_line, quorum_of, read_policy, with_line, with_lines, with_members, with_name, with_words, witness_line, spaced_words, SaysBy, LineGives, PolicyGivesBy};
ghost use Rattle.signed_notes.specs.PolicyViews.{file_parts, lines_parts, meaning_parts, named_parts};
ghost use Rattle.signed_notes.specs.Views.{policy_parts, verifier_parts};

use crate::cutting::next_line;
use crate::keys::Verifier;
use crate::opening::Policy;
use crate::policy_fault::{PolicyFault, PolicyFaultAt};
use crate::policy_words::{key_with_address, next_word, uncommented};
use decimals::decimal_number;
use std::alloc::Global;

/// What a policy file says: the log's key, and how many of which keys have to sign beside it.
#[derive(Drop)]
pub struct PolicyFile<'a> {
    pub log: Verifier<'a>,
    pub witnesses: Vec<Verifier<'a>>,
    pub quorum: usize,
}

impl<'a> PolicyFile<'a> {
    /// Returns the policy that the file says: it takes signatures of any time.
    pub fn policy(&self) -> Policy<'_>
        ensures { policy_parts result ≡ file_parts self.now }
    {
        Policy {
            log: self.log,
            witnesses: &self.witnesses,
            quorum: self.quorum,
            since: 0,
        }
    }
}

// What a name stands for: the key of a witness, or a group of as many of its members as a count says.
#[derive(Clone, Copy)]
pub enum Meant<'a> {
    Witness(Verifier<'a>),
    Group { count: usize, members: &'a [u8] },
}

// A name, and what it stands for.
#[derive(Clone, Copy)]
pub struct Named<'a> {
    name: &'a [u8],
    meant: Meant<'a>,
}

// What the lines before one say.
#[derive(Drop)]
pub struct Lines<'a> {
    log: Option<Verifier<'a>>,
    names: Vec<Named<'a>>,
    quorum: Option<usize>,
    witnesses: Vec<Verifier<'a>>,
}

// What a name stands for.
fn meaning_of<'a>(names: &[Named<'a>], name: &[u8]) -> Option<Meant<'a>>
    ensures { MatchOption result (meaning_of (map named_parts names.now) name.now ≡ None)
        (λ meant. meaning_of (map named_parts names.now) name.now ≡ Some (meaning_parts meant)) }
{
    for one in names {
        if one.name == name {
            return Some(one.meant);
        }
    }
    None
}

// Whether a name may be given.
fn is_free(names: &[Named], name: &[u8]) -> bool
    ensures { result ≡ is_free (map named_parts names.now) name.now }
{
    name != b"none".as_slice() && meaning_of(names, name).is_none()
}

// The key of a group's member.
fn member_key<'a>(names: &[Named<'a>], name: &[u8]) -> Result<Verifier<'a>, PolicyFault>
    ensures { PolicyGivesBy verifier_parts
        (member_key (meaning_of (map named_parts names.now) name.now)) result }
{
    match meaning_of(names, name) {
        Some(Meant::Witness(key)) => Ok(key),
        Some(
            Meant::Group {
                count: _,
                members: _,
            },
        ) => Err(PolicyFault::Nested),
        None => Err(PolicyFault::Unknown),
    }
}

// The keys of members.
fn members_in<'a>(
    alloc: Global,
    names: &[Named<'a>],
    words: &[u8],
) -> Result<Vec<Verifier<'a>>, PolicyFault>
    ensures { PolicyGivesBy (λ keys. map verifier_parts keys.items)
        (with_members (map named_parts names.now) [] (spaced_words words.now)) result }
{
    let mut keys = Vec::new(alloc);
    let mut rest = words;
    'members: while let Some((name, behind)) = next_word(rest) {
        keys.push(member_key(names, name)?)?;
        rest = behind;
    }
    Ok(keys)
}

// The count that a word says of so many members.
fn count_of_word(most: usize, word: &[u8]) -> Option<usize>
    ensures { result ≡ count_of_word most word.now }
{
    if word == b"any".as_slice() {
        Some(1)
    } else if word == b"all".as_slice() {
        Some(most)
    } else {
        decimal_number(word)
    }
}

// The count that a word says of so many members, from 1 to theirs.
fn count_within(most: usize, word: &[u8]) -> Result<usize, PolicyFault>
    ensures { result ≡ count_within most (count_of_word most word.now) }
{
    match count_of_word(most, word) {
        Some(count) if 0 < count && count <= most => Ok(count),
        _ => Err(PolicyFault::Count),
    }
}

// `log KEY [URL]`.
fn log_line<'a>(alloc: Global, lines: &mut Lines<'a>, words: &'a [u8]) -> Result<(), PolicyFault>
    ensures { LineGives (log_line (lines_parts lines.old) (spaced_words words.now))
        (lines_parts lines.new) result }
{
    let key = key_with_address(alloc, words)?;
    if lines.log.is_some() {
        return Err(PolicyFault::SecondLog);
    }
    lines.log = Some(key);
    Ok(())
}

// Gives a name, if it may be given.
fn add_name<'a>(lines: &mut Lines<'a>, name: &'a [u8], meant: Meant<'a>) -> Result<(), PolicyFault>
    ensures { LineGives (with_name (lines_parts lines.old) name.now (meaning_parts meant.entry))
        (lines_parts lines.new) result }
{
    if !is_free(&lines.names, name) {
        return Err(PolicyFault::Twice);
    }
    lines.names.push(Named { name, meant })?;
    Ok(())
}

// `witness NAME KEY [URL]`.
fn witness_line<'a>(
    alloc: Global,
    lines: &mut Lines<'a>,
    words: &'a [u8],
) -> Result<(), PolicyFault>
    ensures { LineGives (witness_line (lines_parts lines.old) (spaced_words words.now))
        (lines_parts lines.new) result }
{
    match next_word(words) {
        Some((name, more)) => {
            let key = key_with_address(alloc, more)?;
            add_name(lines, name, Meant::Witness(key))
        }
        None => Err(PolicyFault::Words),
    }
}

// How many the members of a group are, each of which is a witness.
fn member_count(alloc: Global, names: &[Named], members: &[u8]) -> Result<usize, PolicyFault>
    ensures { PolicyGivesBy (λ count. count)
        (member_count (map named_parts names.now) (spaced_words members.now)) result }
{
    Ok(members_in(alloc, names, members)?.len())
}

// `group NAME K|all|any MEMBER ..`.
fn group_line<'a>(alloc: Global, lines: &mut Lines<'a>, words: &'a [u8]) -> Result<(), PolicyFault>
    ensures { LineGives (group_line (lines_parts lines.old) (spaced_words words.now))
        (lines_parts lines.new) result }
{
    let Some((name, more)) = next_word(words) else {
        return Err(PolicyFault::Words);
    };
    let Some((word, members)) = next_word(more) else {
        return Err(PolicyFault::Words);
    };
    let most = member_count(alloc, &lines.names, members)?;
    let count = count_within(most, word)?;
    add_name(lines, name, Meant::Group { count, members })
}

// How many of which keys a quorum is.
fn quorum_of<'a>(
    alloc: Global,
    names: &[Named<'a>],
    name: &[u8],
) -> Result<(usize, Vec<Verifier<'a>>), PolicyFault>
    ensures { PolicyGivesBy (λ found. (found.0, map verifier_parts found.1.items))
        (quorum_of (map named_parts names.now) name.now) result }
{
    if name == b"none".as_slice() {
        return Ok((0, Vec::new(alloc)));
    }
    match meaning_of(names, name) {
        Some(Meant::Witness(key)) => {
            let mut keys = Vec::new(alloc);
            keys.push(key)?;
            Ok((1, keys))
        }
        Some(Meant::Group { count, members }) => Ok((count, members_in(alloc, names, members)?)),
        None => Err(PolicyFault::Unknown),
    }
}

// `quorum NAME|none`.
fn quorum_line(alloc: Global, lines: &mut Lines, words: &[u8]) -> Result<(), PolicyFault>
    ensures { LineGives (quorum_line (lines_parts lines.old) (spaced_words words.now))
        (lines_parts lines.new) result }
{
    let Some((name, more)) = next_word(words) else {
        return Err(PolicyFault::Words);
    };
    if next_word(more).is_some() {
        return Err(PolicyFault::Words);
    }
    if lines.quorum.is_some() {
        return Err(PolicyFault::SecondQuorum);
    }
    let (count, keys) = quorum_of(alloc, &lines.names, name)?;
    lines.quorum = Some(count);
    lines.witnesses = keys;
    Ok(())
}

// What the words of a line say, the first of them and those behind it.
fn with_words<'a>(
    alloc: Global,
    lines: &mut Lines<'a>,
    word: &[u8],
    words: &'a [u8],
) -> Result<(), PolicyFault>
    ensures { LineGives (with_words (lines_parts lines.old) (word.now ∷ spaced_words words.now))
        (lines_parts lines.new) result }
{
    if word == b"log".as_slice() {
        log_line(alloc, lines, words)
    } else if word == b"witness".as_slice() {
        witness_line(alloc, lines, words)
    } else if word == b"group".as_slice() {
        group_line(alloc, lines, words)
    } else if word == b"quorum".as_slice() {
        quorum_line(alloc, lines, words)
    } else {
        Err(PolicyFault::Command)
    }
}

// What a line says.
fn with_line<'a>(alloc: Global, lines: &mut Lines<'a>, line: &'a [u8]) -> Result<(), PolicyFault>
    ensures { LineGives (with_line (lines_parts lines.old) line.now) (lines_parts lines.new)
        result }
{
    match next_word(uncommented(line)) {
        Some((word, words)) => with_words(alloc, lines, word, words),
        None => Ok(()),
    }
}

// What all lines say, and how many they are.
fn lines_of(alloc: Global, text: &[u8]) -> Result<(Lines<'_>, usize), PolicyFaultAt>
    ensures { SaysBy (λ all. (lines_parts all.0, all.1))
        (with_lines no_lines 0 (lines_in text.now)) result }
{
    let mut lines = Lines {
        log: None,
        names: Vec::new(alloc),
        quorum: None,
        witnesses: Vec::new(alloc),
    };
    let mut count = 0;
    let mut rest = text;
    'lines: while !rest.is_empty() {
        let (line, behind) = next_line(rest);
        count += 1;
        if let Err(why) = with_line(alloc, &mut lines, line) {
            return Err(PolicyFaultAt { line: count, why });
        }
        rest = behind;
    }
    Ok((lines, count))
}

/// Reads a policy file: `log KEY [URL]`, `witness NAME KEY [URL]`, `group NAME K|all|any MEMBER ..` and `quorum NAME|none`, a line each,
/// with spaces between the words, and comments behind `#`. A key is a verifier's. A group has witnesses alone, a name is used behind the
/// line that gives it, and an address is not read.
///
/// Errors: of the first line that is none, and there the first that applies: `Command`; `Words`; those of `Verifier::read`;
/// `SecondLog`, `SecondQuorum`; `Unknown`, `Nested`; `Count`; `Twice`. Of the whole file: `NoLog`; `NoQuorum`. `Memory` at any time.
pub fn read_policy(alloc: Global, text: &[u8]) -> Result<PolicyFile<'_>, PolicyFaultAt>
    ensures { SaysBy file_parts (read_policy text.now) result }
{
    let (lines, count) = lines_of(alloc, text)?;
    let Some(log) = lines.log else {
        return Err(PolicyFaultAt {
            line: count,
            why: PolicyFault::NoLog,
        });
    };
    let Some(quorum) = lines.quorum else {
        return Err(PolicyFaultAt {
            line: count,
            why: PolicyFault::NoQuorum,
        });
    };
    Ok(PolicyFile {
        log,
        witnesses: lines.witnesses,
        quorum,
    })
}
