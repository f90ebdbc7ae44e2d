//! Where a session's lines come from, and where its replies go.

ghost use Rattle.std.specs.Prelude.{◌≡◌, ◌<◌, ◌⊎◌, ℕ, Bool, List, Option, [], length, true, false, IfOk, IfSome, OnOk, OnErr, MatchResult};
ghost use Rattle.std.specs.Io.BufRead.{DropsThrough, take_through};
ghost use Rattle.std.specs.Io.KnownBytes.{Appends, IsAtEnd, Keeps};
ghost use Rattle.acp_run.specs.Lines.{with_line_feed};
ghost use Rattle.acp_run.specs.Sessions.{AppendsFront, LosesFront};

use std::io;

/// What lines come from. After a call that failed no further one comes: each asks for that.
pub trait Input {
    // The bytes that are yet to be read, where they are known.
    ghost remaining: { Self → Option (List ℕ) };

    // A call failed.
    ghost has_failed: { Self → Bool };

    // The next line is here whole, so that its read does not wait.
    ghost HasLine: { Self → Type 0 };

    /// Returns whether a call failed.
    fn has_failed(&self) -> bool
        ensures { result ≡ has_failed self.now };

    /// Returns whether the next line is here whole. It may be where this returns `false`.
    fn has_line(&self) -> bool
        ensures { result ≡ true → HasLine self.now };

    /// Reads the next line whole, with its line feed if it has one; returns whether there is one. Where it may wait, all replies must
    /// have been sent off. The error is that of the reader, or a lack of memory for the line.
    fn read_line<O: Output>(&mut self, replies: &O, line: &mut Vec<u8>) -> io::Result<bool>
        requires going { has_failed self.old ≡ false }
        requires sent { HasLine self.old ⊎ O.unsent replies.now ≡ [] }
        ensures line { OnOk result
            (IfSome (remaining self.old) (λ bytes. line.new.items ≡ take_through 10 bytes)) }
        ensures rest { OnOk result (DropsThrough (remaining self.old) (remaining self.new) 10) }
        ensures some { IfOk result (λ is_there. is_there ≡ true → 0 < length line.new.items) }
        ensures end { IfOk result (λ is_there. is_there ≡ false → IsAtEnd (remaining self.old)) }
        ensures read { LosesFront (remaining self.old) (remaining self.new) }
        ensures failed { MatchResult result
            (λ _. has_failed self.new ≡ false) (λ _. has_failed self.new ≡ true) };
}

/// What takes replies, or faults. After a call that failed no further one comes: each asks for that.
pub trait Output {
    // The bytes that it holds, sent off or not, where they are known.
    ghost contents: { Self → Option (List ℕ) };

    // The last of the bytes that it holds, which are not sent off.
    ghost unsent: { Self → List ℕ };

    // A call failed.
    ghost has_failed: { Self → Bool };

    /// Returns whether a call failed.
    fn has_failed(&self) -> bool
        ensures { result ≡ has_failed self.now };

    /// Takes bytes whole. Where that fails, a front of them was taken.
    ///
    /// Errors: an `io::Error` of the writer. No further call may come.
    fn write(&mut self, bytes: &[u8]) -> io::Result<()>
        requires { has_failed self.old ≡ false }
        ensures whole { OnOk result (Appends (contents self.old) (contents self.new) bytes.now) }
        ensures cut { OnErr result
            (AppendsFront (contents self.old) (contents self.new) bytes.now) }
        ensures failed { MatchResult result
            (λ _. has_failed self.new ≡ false) (λ _. has_failed self.new ≡ true) };

    /// Takes a reply and a line feed. Where that fails, a front of them was taken.
    ///
    /// Errors: an `io::Error` of the writer. No further call may come.
    fn write_reply(&mut self, reply: &[u8]) -> io::Result<()>
        requires { has_failed self.old ≡ false }
        ensures whole { OnOk result (Appends (contents self.old) (contents self.new)
            (with_line_feed reply.now)) }
        ensures cut { OnErr result (AppendsFront (contents self.old) (contents self.new)
            (with_line_feed reply.now)) }
        ensures failed { MatchResult result
            (λ _. has_failed self.new ≡ false) (λ _. has_failed self.new ≡ true) };

    /// Sends off all that it holds.
    ///
    /// Errors: an `io::Error` of the writer, which leaves what it holds. No further call may come.
    fn send(&mut self) -> io::Result<()>
        requires { has_failed self.old ≡ false }
        ensures kept { Keeps (contents self.old) (contents self.new) }
        ensures sent { OnOk result (unsent self.new ≡ []) }
        ensures failed { MatchResult result
            (λ _. has_failed self.new ≡ false) (λ _. has_failed self.new ≡ true) };
}
