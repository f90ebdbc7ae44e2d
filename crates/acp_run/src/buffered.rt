//! Readers and writers of `std::io` as what a session reads and writes.

ghost use Rattle.std.specs.Prelude.{◌≡◌, ◌≤◌, [], length, take, true, false, is_some, None, IfErr, OnOk, OnErr, IfOk, IsErr, IsOk, MatchResult};
ghost use Rattle.std.specs.Io.Buffered.{reader_buffer, reader_remaining};
ghost use Rattle.std.specs.Io.KnownBytes.{Appends, Keeps, append_known};
ghost use Rattle.acp_run.specs.Lines.{HoldsLineFeed, with_line_feed};
ghost use Rattle.acp_run.specs.Sessions.{AppendsFront};
ghost use Rattle.acp_run.specs.Streams.{held_back};

use crate::streams::{Input, Output};
use memchr::memchr;
use std::alloc::{AllocError, Global};
use std::io::{self, BufRead, BufReader, ErrorKind, Read, Write};

// How many bytes of replies wait to be sent off together.
const CAPACITY: usize = 8192;

/// Lines from a reader.
#[derive(Drop)]
pub struct BufferedInput<R> {
    lines: BufReader<R>,
    has_failed: bool,
}

impl<R: Read> BufferedInput<R> {
    /// Takes a reader, of which no call has failed.
    pub fn new(lines: BufReader<R>) -> BufferedInput<R>
        ensures remaining { ⟦<Self as Input>⟧.remaining result ≡ reader_remaining R.remaining
            lines }
        ensures going { ⟦<Self as Input>⟧.has_failed result ≡ false }
    {
        BufferedInput {
            lines,
            has_failed: false,
        }
    }
}

impl<R: Read> Input for BufferedInput<R> {
    ghost remaining = { λ input. reader_remaining R.remaining input.lines };

    ghost has_failed = { λ input. input.has_failed };

    ghost HasLine = { λ input. HoldsLineFeed (reader_buffer input.lines) };

    fn has_failed(&self) -> bool {
        self.has_failed
    }

    fn has_line(&self) -> bool {
        memchr(b'\n', self.lines.buffer()).is_some()
    }

    fn read_line<O: Output>(&mut self, _replies: &O, line: &mut Vec<u8>) -> io::Result<bool> {
        line.clear();
        let read = self.lines.read_until(b'\n', line);
        self.has_failed = read.is_err();
        Ok(read? > 0)
    }
}

// How a write was cut short, and how many bytes were written before.
#[derive(Drop)]
struct Cut {
    written: usize,
    fault: io::Error,
}

/// A writer behind a buffer.
#[derive(Drop)]
pub struct BufferedOutput<W> {
    writer: W,
    buffer: Vec<u8>,
    // Where a call failed: how many of the buffer's bytes were written.
    failure: Option<usize>,
}

impl<W: Write> BufferedOutput<W> {
    /// Takes a writer, of which no call has failed, and allocates a buffer before it.
    ///
    /// Errors: an `io::Error` where memory lacks for the buffer; no clause says so.
    pub fn new(alloc: Global, writer: W) -> io::Result<BufferedOutput<W>>
    where
        W: Drop,
        ensures contents { IfOk result
            (λ output. Keeps (W.contents writer) (⟦<Self as Output>⟧.contents output)) }
        ensures sent { IfOk result (λ output. ⟦<Self as Output>⟧.unsent output ≡ []) }
        ensures going { IfOk result (λ output. ⟦<Self as Output>⟧.has_failed output ≡ false) }
    {
        let buffer = Vec::with_capacity(alloc, CAPACITY)?;
        Ok(BufferedOutput {
            writer,
            buffer,
            failure: None,
        })
    }

    /// Takes a writer, of which no call has failed, and sends each write off at once.
    pub fn direct(alloc: Global, writer: W) -> BufferedOutput<W>
        ensures contents { Keeps (W.contents writer) (⟦<Self as Output>⟧.contents result) }
        ensures sent { ⟦<Self as Output>⟧.unsent result ≡ [] }
        ensures going { ⟦<Self as Output>⟧.has_failed result ≡ false }
    {
        BufferedOutput {
            writer,
            buffer: Vec::new(alloc),
            failure: None,
        }
    }

    /// Gives the writer back. Where all was sent off and no call failed, it holds all.
    pub fn into_inner(self) -> W
        ensures { ⟦<Self as Output>⟧.unsent self ≡ [] → Keeps (⟦<Self as Output>⟧.contents self)
            (W.contents result) }
    {
        self.writer
    }

    // Whether the buffer takes so many more bytes without growing.
    fn has_room(&self, count: usize) -> bool {
        count <= self.buffer.capacity().saturating_sub(self.buffer.len())
    }

    // Puts bytes behind those in the buffer.
    fn keep(&mut self, bytes: &[u8]) -> Result<(), AllocError>
        requires { self.old.failure ≡ None }
        ensures whole { OnOk result (Appends (⟦<Self as Output>⟧.contents self.old)
            (⟦<Self as Output>⟧.contents self.new) bytes.now) }
        ensures kept { OnErr result (Keeps (⟦<Self as Output>⟧.contents self.old)
            (⟦<Self as Output>⟧.contents self.new)) }
        ensures failed { MatchResult result
            (λ _. self.new.failure ≡ None) (λ _. is_some self.new.failure ≡ true) }
    {
        match self.buffer.extend_from_slice(bytes) {
            Ok(()) => Ok(()),
            Err(fault) => {
                self.failure = Some(0);
                Err(fault)
            }
        }
    }

    // Puts a reply and a line feed behind the bytes in the buffer.
    fn keep_reply(&mut self, reply: &[u8]) -> Result<(), AllocError>
        requires { self.old.failure ≡ None }
        ensures whole { OnOk result (Appends (⟦<Self as Output>⟧.contents self.old)
            (⟦<Self as Output>⟧.contents self.new) (with_line_feed reply.now)) }
        ensures cut { OnErr result (AppendsFront (⟦<Self as Output>⟧.contents self.old)
            (⟦<Self as Output>⟧.contents self.new) (with_line_feed reply.now)) }
        ensures failed { MatchResult result
            (λ _. self.new.failure ≡ None) (λ _. is_some self.new.failure ≡ true) }
    {
        self.keep(reply)?;
        self.keep(b"\n")
    }

    // Writes bytes, with none in the buffer before them.
    fn pass(&mut self, bytes: &[u8]) -> io::Result<()>
        requires going { self.old.failure ≡ None }
        requires empty { self.old.buffer.items ≡ [] }
        ensures whole { OnOk result (Appends (⟦<Self as Output>⟧.contents self.old)
            (⟦<Self as Output>⟧.contents self.new) bytes.now) }
        ensures cut { OnErr result (AppendsFront (⟦<Self as Output>⟧.contents self.old)
            (⟦<Self as Output>⟧.contents self.new) bytes.now) }
        ensures failed { MatchResult result
            (λ _. self.new.failure ≡ None) (λ _. is_some self.new.failure ≡ true) }
    {
        match write_through(&mut self.writer, bytes) {
            Ok(()) => Ok(()),
            Err(cut) => {
                self.failure = Some(0);
                Err(cut.fault)
            }
        }
    }

    // Writes the buffer's bytes.
    fn pass_buffer(&mut self) -> io::Result<()>
        requires { self.old.failure ≡ None }
        ensures kept { Keeps (⟦<Self as Output>⟧.contents self.old)
            (⟦<Self as Output>⟧.contents self.new) }
        ensures sent { OnOk result (self.new.buffer.items ≡ []) }
        ensures failed { MatchResult result
            (λ _. self.new.failure ≡ None) (λ _. is_some self.new.failure ≡ true) }
    {
        match write_through(&mut self.writer, &self.buffer) {
            Ok(()) => {
                self.buffer.clear();
                Ok(())
            }
            Err(cut) => {
                self.failure = Some(cut.written);
                Err(cut.fault)
            }
        }
    }
}

impl<W: Write> Output for BufferedOutput<W> {
    ghost contents = { λ output.
        append_known (W.contents output.writer) (held_back output.failure output.buffer.items) };

    ghost unsent = { λ output. output.buffer.items };

    ghost has_failed = { λ output. is_some output.failure };

    fn has_failed(&self) -> bool {
        self.failure.is_some()
    }

    fn write(&mut self, bytes: &[u8]) -> io::Result<()> {
        if self.has_room(bytes.len()) {
            return as_io(self.keep(bytes));
        }
        self.pass_buffer()?;
        if self.has_room(bytes.len()) {
            return as_io(self.keep(bytes));
        }
        self.pass(bytes)
    }

    fn write_reply(&mut self, reply: &[u8]) -> io::Result<()> {
        if self.has_room(reply.len().saturating_add(1)) {
            return as_io(self.keep_reply(reply));
        }
        self.write(reply)?;
        self.write(b"\n")
    }

    fn send(&mut self) -> io::Result<()> {
        if self.buffer.is_empty() {
            return Ok(());
        }
        self.pass_buffer()
    }
}

// Returns the same as an `io::Result`, which takes a hundred bytes and so is made once.
#[inline(always)]
fn as_io(kept: Result<(), AllocError>) -> io::Result<()>
    ensures { MatchResult kept (λ _. IsOk result) (λ _. IsErr result) }
{
    match kept {
        Ok(()) => Ok(()),
        Err(fault) => Err(io::Error::from(fault)),
    }
}

// Writes bytes whole and flushes. A write that was interrupted is tried again; any other failure ends it.
fn write_through<W: Write>(writer: &mut W, bytes: &[u8]) -> Result<(), Cut>
    ensures whole { OnOk result (Appends (W.contents writer.old) (W.contents writer.new)
        bytes.now) }
    ensures cut { IfErr result (λ cut. Appends (W.contents writer.old) (W.contents writer.new)
        (take cut.written bytes.now)) }
{
    let mut written = 0;
    for _ in 0..u64::MAX {
        if written == bytes.len() {
            return writer.flush().map_err(|fault| Cut { written, fault });
        }
        match writer.write(&bytes[written..]) {
            Ok(0) => {
                let fault = io::Error::from(ErrorKind::WriteZero);
                return Err(Cut { written, fault });
            }
            Ok(more) => written += more,
            Err(fault) => {
                if fault.kind() != ErrorKind::Interrupted {
                    return Err(Cut { written, fault });
                }
            }
        }
    }
    let fault = io::Error::from(ErrorKind::Other);
    Err(Cut { written, fault })
}
