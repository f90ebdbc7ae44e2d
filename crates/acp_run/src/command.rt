//! The program, over a reader and writers.

ghost use Rattle.std.specs.Prelude.{◌≡◌, ◌≢◌, ◌⊎◌, map, vec_items, true, false, [], None, IfSome, OnOk, OnErr, MatchResult};
ghost use Rattle.std.specs.Io.KnownBytes.{Appends, Keeps};
ghost use Rattle.acp_run.specs.Commands.{configuration_of, language_of, usage, stop_notice};
ghost use Rattle.acp_run.specs.Sessions.{AppendsFront, Halts, LosesFront, Serves, Stops};
ghost use Rattle.acp_run.specs.Steps.{LineStep};

use crate::run::run;
use crate::streams::{Input, Output};
use ark_trees::Sha256Strings;
use ark_trees::toy::Toy;
use std::alloc::Global;
use std::io;

/// The configurations that words behind the program's name can name.
#[derive(Clone, Copy)]
pub enum Configuration {
    Sha256,
    Toy,
}

/// Returns the configuration that the words name: one word alone does.
pub fn configuration_of(words: &[Vec<u8>]) -> Option<Configuration>
    ensures { result ≡ configuration_of (map vec_items words.now) }
{
    if words.len() != 1 {
        return None;
    }
    let word = words[0].as_slice();
    if word == b"sha256".as_slice() {
        Some(Configuration::Sha256)
    } else if word == b"toy".as_slice() {
        Some(Configuration::Toy)
    } else {
        None
    }
}

/// Runs the program on the words behind its name and returns its status: 0 where all lines were answered; 1, with
/// `acp: stopped` among the faults, where a call of the reader or of the writer failed or memory lacked before; 2, with the usage
/// there, for words that it does not know.
pub fn command<I: Input, O: Output, E: Output>(
    alloc: Global,
    words: &[Vec<u8>],
    lines: &mut I,
    replies: &mut O,
    faults: &mut E,
) -> u8
    ensures unknown { configuration_of (map vec_items words.now) ≡ None
        → (result ≡ 2) × (lines.new ≡ lines.old) × (replies.new ≡ replies.old) }
    ensures usage { configuration_of (map vec_items words.now) ≡ None
        → AppendsFront (E.contents faults.old) (E.contents faults.new) usage }
    ensures usage_whole { configuration_of (map vec_items words.now) ≡ None
        → E.has_failed faults.new ≡ false
        → Appends (E.contents faults.old) (E.contents faults.new) usage }
    ensures usage_sent { configuration_of (map vec_items words.now) ≡ None
        → E.has_failed faults.new ≡ false → E.unsent faults.new ≡ [] }

    ensures status { configuration_of (map vec_items words.now) ≢ None
        → result ≢ 0 → result ≡ 1 }
    ensures served { IfSome (configuration_of (map vec_items words.now))
        (λ configuration. result ≡ 0 → Serves (LineStep (language_of configuration))
        (I.remaining lines.old) (O.contents replies.old) (O.contents replies.new)) }
    ensures sent { configuration_of (map vec_items words.now) ≢ None
        → O.has_failed replies.new ≡ false → O.unsent replies.new ≡ [] }
    ensures well { configuration_of (map vec_items words.now) ≢ None → result ≡ 0
        → (I.has_failed lines.new ≡ false) × (O.has_failed replies.new ≡ false) }
    ensures quiet { result ≡ 0 → faults.new ≡ faults.old }

    ensures stopped { IfSome (configuration_of (map vec_items words.now))
        (λ configuration. result ≡ 1 → Stops (LineStep (language_of configuration))
        (I.remaining lines.old) (O.contents replies.old) (O.contents replies.new)) }
    ensures why { IfSome (configuration_of (map vec_items words.now)) (λ configuration. result ≡ 1
        → I.has_failed lines.new ≡ true ⊎ O.has_failed replies.new ≡ true
        ⊎ Halts (LineStep (language_of configuration)) (I.remaining lines.old)
        (O.contents replies.old)
        (O.contents replies.new)) }
    ensures notice { result ≡ 1
        → AppendsFront (E.contents faults.old) (E.contents faults.new) stop_notice }
    ensures notice_whole { result ≡ 1 → E.has_failed faults.new ≡ false
        → Appends (E.contents faults.old) (E.contents faults.new) stop_notice }
    ensures notice_sent { result ≡ 1 → E.has_failed faults.new ≡ false
        → E.unsent faults.new ≡ [] }
    ensures read { LosesFront (I.remaining lines.old) (I.remaining lines.new) }
{
    match configuration_of(words) {
        Some(Configuration::Sha256) => {
            let ended = run::<Sha256Strings, I, O>(alloc, &(), &(), lines, replies);
            status(ended, replies, faults)
        }
        Some(Configuration::Toy) => {
            let ended = run::<Toy, I, O>(alloc, &(), &(), lines, replies);
            status(ended, replies, faults)
        }
        None => {
            tell(faults, b"usage: acp sha256|toy\n");
            2
        }
    }
}

// The status of a session that ended so. Where it was cut short, what was answered before is sent off, if it can be.
fn status<O: Output, E: Output>(ended: io::Result<()>, replies: &mut O, faults: &mut E) -> u8
    ensures ended { MatchResult ended (λ _. result ≡ 0) (λ _. result ≡ 1) }
    ensures quiet { result ≡ 0 → (replies.new ≡ replies.old) × (faults.new ≡ faults.old) }
    ensures kept { Keeps (O.contents replies.old) (O.contents replies.new) }
    ensures failed { O.has_failed replies.old ≡ true → O.has_failed replies.new ≡ true }
    ensures sent { result ≡ 1 → O.has_failed replies.new ≡ false → O.unsent replies.new ≡ [] }
    ensures notice { result ≡ 1
        → AppendsFront (E.contents faults.old) (E.contents faults.new) stop_notice }
    ensures notice_whole { result ≡ 1 → E.has_failed faults.new ≡ false
        → Appends (E.contents faults.old) (E.contents faults.new) stop_notice }
    ensures notice_sent { result ≡ 1 → E.has_failed faults.new ≡ false
        → E.unsent faults.new ≡ [] }
{
    match ended {
        Ok(()) => 0,
        Err(_) => {
            send_rest(replies);
            tell(faults, b"acp: stopped\n");
            1
        }
    }
}

// Sends off what a session that was cut short has answered, unless a call of the writer failed.
fn send_rest<O: Output>(replies: &mut O)
    ensures kept { Keeps (O.contents replies.old) (O.contents replies.new) }
    ensures failed { O.has_failed replies.old ≡ true → O.has_failed replies.new ≡ true }
    ensures sent { O.has_failed replies.new ≡ false → O.unsent replies.new ≡ [] }
{
    if !replies.has_failed() {
        let _ = replies.send();
    }
}

// Writes a text whole and sends it off, unless a call of the writer failed.
fn tell<E: Output>(faults: &mut E, text: &[u8])
    ensures front { AppendsFront (E.contents faults.old) (E.contents faults.new) text.now }
    ensures whole { E.has_failed faults.new ≡ false
        → Appends (E.contents faults.old) (E.contents faults.new) text.now }
    ensures sent { E.has_failed faults.new ≡ false → E.unsent faults.new ≡ [] }
{
    if !faults.has_failed() {
        let _ = write_and_send(faults, text);
    }
}

// Writes a text whole and sends it off. Where that fails, a front of it was written.
fn write_and_send<E: Output>(faults: &mut E, text: &[u8]) -> io::Result<()>
    requires { E.has_failed faults.old ≡ false }
    ensures whole { OnOk result (Appends (E.contents faults.old) (E.contents faults.new) text.now) }
    ensures sent { OnOk result (E.unsent faults.new ≡ []) }
    ensures cut { OnErr result
        (AppendsFront (E.contents faults.old) (E.contents faults.new) text.now) }
    ensures failed { MatchResult result
        (λ _. E.has_failed faults.new ≡ false) (λ _. E.has_failed faults.new ≡ true) }
{
    faults.write(text)?;
    faults.send()
}
