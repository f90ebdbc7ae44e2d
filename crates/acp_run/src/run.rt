//! Sessions over a reader and a writer.

ghost use Rattle.std.specs.Prelude.{◌≡◌, ◌<◌, ◌⊎◌, length, true, false, [], IfOk, IfSome, OnOk, OnErr, MatchResult};
ghost use Rattle.std.specs.Io.BufRead.{DropsThrough, strip_last, take_through};
ghost use Rattle.std.specs.Io.KnownBytes.{Appends, IsAtEnd, Keeps};
ghost use Rattle.acp_run.specs.Sessions.{AppendsFront, Halts, HaltsFrom, LosesFront, Serves, ServesFrom, Stops, StopsFrom};
ghost use Rattle.acp_run.specs.Steps.{LineStep};

use crate::answering::{Answering, Session};
use crate::session::shell::Shell;
use crate::streams::{Input, Output};
use ark_merkle::{LeafParam, TwoToOneParam};
use std::alloc::Global;
use std::io::{self, ErrorKind};

/// Sends all replies off where the next line is not here yet, so that its read may wait.
fn send_before_waiting<I: Input, O: Output>(lines: &I, replies: &mut O) -> io::Result<()>
    requires { O.has_failed replies.old ≡ false }
    ensures kept { Keeps (O.contents replies.old) (O.contents replies.new) }
    ensures sent { OnOk result (I.HasLine lines.now ⊎ O.unsent replies.new ≡ []) }
    ensures failed { MatchResult result
        (λ _. O.has_failed replies.new ≡ false) (λ _. O.has_failed replies.new ≡ true) }
{
    if lines.has_line() {
        return Ok(());
    }
    replies.send()
}

/// Reads the next line whole, with its line feed if it has one; returns whether there is one.
fn read_line<I: Input, O: Output>(
    lines: &mut I,
    replies: &mut O,
    line: &mut Vec<u8>,
) -> io::Result<bool>
    requires reader { I.has_failed lines.old ≡ false }
    requires writer { O.has_failed replies.old ≡ false }
    ensures line { OnOk result (IfSome (I.remaining lines.old)
        (λ bytes. line.new.items ≡ take_through 10 bytes)) }
    ensures rest { OnOk result (DropsThrough (I.remaining lines.old) (I.remaining lines.new) 10) }
    ensures some { IfOk result (λ is_there. is_there ≡ true → 0 < length line.new.items) }
    ensures end { IfOk result (λ is_there. is_there ≡ false → IsAtEnd (I.remaining lines.old)) }
    ensures read { LosesFront (I.remaining lines.old) (I.remaining lines.new) }
    ensures kept { Keeps (O.contents replies.old) (O.contents replies.new) }
    ensures going { OnOk result
        ((I.has_failed lines.new ≡ false) × (O.has_failed replies.new ≡ false)) }
    ensures failed { OnErr result
        (I.has_failed lines.new ≡ true ⊎ O.has_failed replies.new ≡ true) }
{
    send_before_waiting(lines, replies)?;
    lines.read_line(replies, line)
}

/// Returns the line without the line feed at its end, if it has one.
fn without_line_feed(line: &[u8]) -> &[u8]
    ensures { result.now ≡ strip_last 10 line.now }
{
    match line.split_last() {
        Some((b'\n', front)) => front,
        _ => line,
    }
}

/// Answers each line that comes, from no tree on, until the input ends, over hashes with these parameters. The first fault of the
/// reader, of the writer or of memory ends it before.
///
/// Errors: an `io::Error` where a call of the reader or of the writer failed, or memory lacked for a reply.
pub fn run<C: Shell, I: Input, O: Output>(
    alloc: Global,
    leaf_parameters: &LeafParam<C>,
    pair_parameters: &TwoToOneParam<C>,
    lines: &mut I,
    replies: &mut O,
) -> io::Result<()>
    ensures served { OnOk result (Serves (LineStep (C.language leaf_parameters.now
        pair_parameters.now))
        (I.remaining lines.old) (O.contents replies.old) (O.contents replies.new)) }
    ensures sent { OnOk result (O.unsent replies.new ≡ []) }
    ensures well { OnOk result
        ((I.has_failed lines.new ≡ false) × (O.has_failed replies.new ≡ false)) }
    ensures stopped { OnErr result
        (Stops (LineStep (C.language leaf_parameters.now pair_parameters.now))
        (I.remaining lines.old)
        (O.contents replies.old) (O.contents replies.new)) }
    ensures why { OnErr result (I.has_failed lines.new ≡ true ⊎ O.has_failed replies.new ≡ true
        ⊎ Halts (LineStep (C.language leaf_parameters.now pair_parameters.now))
        (I.remaining lines.old)
        (O.contents replies.old) (O.contents replies.new)) }
    ensures read { LosesFront (I.remaining lines.old) (I.remaining lines.new) }
{
    if lines.has_failed() || replies.has_failed() {
        return Err(io::Error::from(ErrorKind::Other));
    }
    let mut session = Session::<C>::new(leaf_parameters, pair_parameters);
    let mut line = Vec::new(alloc);
    answer_all(alloc, &mut session, lines, replies, &mut line)
}

// Answers each line that comes until the input ends. The first fault ends it before.
fn answer_all<S: Answering, I: Input, O: Output>(
    alloc: Global,
    session: &mut S,
    lines: &mut I,
    replies: &mut O,
    line: &mut Vec<u8>,
) -> io::Result<()>
    requires sound { S.is_sound session.old }
    requires reader { I.has_failed lines.old ≡ false }
    requires writer { O.has_failed replies.old ≡ false }
    ensures served { OnOk result (ServesFrom (S.step (S.language session.old)) (S.state session.old)
        (I.remaining lines.old) (O.contents replies.old) (O.contents replies.new)) }
    ensures sent { OnOk result (O.unsent replies.new ≡ []) }
    ensures well { OnOk result
        ((I.has_failed lines.new ≡ false) × (O.has_failed replies.new ≡ false)) }
    ensures stopped { OnErr result (StopsFrom (S.step (S.language session.old))
        (S.state session.old) (I.remaining lines.old) (O.contents replies.old)
        (O.contents replies.new)) }
    ensures why { OnErr result (I.has_failed lines.new ≡ true ⊎ O.has_failed replies.new ≡ true
        ⊎ HaltsFrom (S.step (S.language session.old)) (S.state session.old) (S.lacks session.new)
        (I.remaining lines.old) (O.contents replies.old) (O.contents replies.new)) }
    ensures read { LosesFront (I.remaining lines.old) (I.remaining lines.new) }
{
    for _ in 0..u64::MAX {
        if !read_line(lines, replies, line)? {
            return replies.send();
        }
        let reply = session.answer(alloc, without_line_feed(line))?;
        replies.write_reply(&reply)?;
    }
    Err(io::Error::from(ErrorKind::Other))
}
