//! The digests of entries that are lines.

ghost use Rattle.std.specs.Prelude.{◌≡◌, ◌<◌, ◌≤◌, ◌∷◌, ◌++◌, ℕ, List, [], length, take, drop, map, IfOk, IsOkUnless, OnOk, MatchOption, Ok};
ghost use Rattle.ark_crh.specs.Ahead.{lent};
ghost use Rattle.ark_trees.specs.Rfc6962.{entry_hash};
ghost use Rattle.paxlog_run.specs.Entries.{lines_of};
ghost use Rattle.log_file.specs.Faults.{FileGivesBy};
ghost use Rattle.log_file.specs.declared.fault.Fault.TheVariants.{Memory};

use ark_crh::ArrayHash;
use ark_paths::runs::RUN;
use ark_trees::LogHasher;
use log_file::fault::Fault;
use memchr::memchr;
use std::alloc::Global;

/// What shows how far a long call is.
pub trait Progress {
    /// Shows how many bytes are done, and how many there are.
    fn show(&mut self, done: usize, all: usize);
}

// How many lines are hashed between two times that progress is shown: a multiple of those of a run.
const BETWEEN: usize = 65536;

/// Returns the first line, without its line feed, and what stands behind that; nothing where there is no byte.
fn line_and_rest(bytes: &[u8]) -> Option<(&[u8], &[u8])>
    ensures { MatchOption result ((length bytes.now ≡ 0) × (lines_of bytes.now ≡ []))
        (λ found. (lines_of bytes.now ≡ found.0.now ∷ lines_of found.1.now)
        × (length found.1.now < length bytes.now)) }
{
    if bytes.len() == 0 {
        return None;
    }
    match memchr(b'\n', bytes) {
        Some(end) => Some((&bytes[..end], &bytes[end + 1..])),
        None => Some((bytes, &[])),
    }
}

// Returns the first lines, a run of them, and what stands behind them.
fn next_lines(alloc: Global, bytes: &[u8]) -> Result<(Vec<&[u8]>, &[u8]), Fault>
    ensures lines { IfOk result (λ found.
        lines_of bytes.now ≡ lent found.0.items ++ lines_of found.1.now) }
    ensures more { IfOk result (λ found.
        0 < length bytes.now → length found.1.now < length bytes.now) }
    ensures run { IfOk result (λ found. length found.0.items ≤ 256) }
    ensures memory { IsOkUnless result Memory }
{
    let mut lines = Vec::with_capacity(alloc, RUN)?;
    let mut rest = bytes;
    'lines: for _ in 0..RUN {
        let Some((line, behind)) = line_and_rest(rest) else {
            break;
        };
        lines.push(line)?;
        rest = behind;
    }
    Ok((lines, rest))
}

// Puts the digests of entries behind others.
fn push_digests(digests: &mut Vec<[u8; 32]>, lines: &[&[u8]]) -> Result<(), Fault>
    requires { length lines.now ≤ 256 }
    ensures pushed { OnOk result (digests.new.items
        ≡ digests.old.items ++ map entry_hash (lent lines.now)) }
    ensures memory { IsOkUnless result Memory }
{
    let mut made = [[0u8; 32]; RUN];
    LogHasher::leaves(lines, &mut made[..lines.len()]);
    digests.extend_from_slice(&made[..lines.len()])?;
    Ok(())
}

/// Returns the digests of the entries that the lines of some bytes are, in their order.
///
/// A line ends before its line feed, the last perhaps with the bytes. The only error is `Memory`.
pub fn digests_of_lines<P: Progress>(
    alloc: Global,
    bytes: &[u8],
    progress: &mut P,
) -> Result<Vec<[u8; 32]>, Fault>
    ensures { let digests = map entry_hash (lines_of bytes.now) in
        FileGivesBy (λ all. all.items) (Ok digests) result }
{
    let mut digests = Vec::new(alloc);
    let mut rest = bytes;
    'runs: while !rest.is_empty() {
        let (lines, behind) = next_lines(alloc, rest)?;
        push_digests(&mut digests, &lines)?;
        rest = behind;
        if digests.len() % BETWEEN == 0 {
            progress.show(bytes.len().saturating_sub(rest.len()), bytes.len());
        }
    }
    Ok(digests)
}

/// Returns how many bytes the first whole lines have, with their line feeds, and how many lines these are, of so many at most.
///
/// A line is whole where its line feed is there, so that it is a line however the bytes go on.
pub fn whole_lines(bytes: &[u8], most: usize) -> (usize, usize)
    ensures inside { result.0 ≤ length bytes.now }

    // They are the first lines of all bytes that go on so.
    ensures lines { (more : List ℕ) → lines_of (bytes.now ++ more)
        ≡ lines_of (take result.0 bytes.now) ++ lines_of (drop result.0 bytes.now ++ more) }
    ensures count { length (lines_of (take result.0 bytes.now)) ≡ result.1 }
    ensures most { result.1 ≤ most }

    // Where they are fewer, no whole line is left.
    ensures all { result.1 < most → length (lines_of (drop result.0 bytes.now)) ≤ 1 }
{
    let mut end = 0;
    let mut count = 0;
    'lines: while count < most {
        let Some(at) = memchr(b'\n', &bytes[end..]) else {
            return (end, count);
        };
        end += at + 1;
        count += 1;
    }
    (end, count)
}
