//! For how long a command waits for another process, by the words at its end.

ghost use Rattle.std.specs.Prelude.{◌≡◌, ◌≤◌, map, vec_items, length, IfOk};
ghost use Rattle.paxlog_run.specs.Requests.{waiting_in, waits_at_end};

use crate::request::parts::number_word_at;
use crate::request::{Misuse, bytes_at};

/// How many words stand before those of a wait, and for how many seconds another process is waited for.
#[derive(Clone, Copy)]
pub struct Waiting {
    pub count: usize,
    pub seconds: usize,
}

// Whether the words of a command end with those of a wait, where it takes them.
fn waits_at_end(word: &[u8]) -> bool
    ensures { result ≡ waits_at_end word.now }
{
    word == b"checkpoint".as_slice()
        || word == b"tiles".as_slice()
        || word == b"cosign".as_slice()
        || word == b"recover".as_slice()
        || word == b"keep".as_slice()
        || word == b"keep-bundles".as_slice()
        || word == b"keep-files".as_slice()
        || word == b"follow".as_slice()
        || word == b"witness".as_slice()
}

/// Returns how many words stand before `--wait SECONDS` at their end, and the seconds: all and 0 where it stands there not, or
/// where the command takes none there. The error names the place of what is no number.
pub fn waiting_in(words: &[Vec<u8>]) -> Result<Waiting, Misuse>
    ensures waiting { result ≡ waiting_in (map vec_items words.now) }
    ensures inside { IfOk result (λ waiting. waiting.count ≤ length words.now) }
{
    let count = words.len();
    if 2 < count && waits_at_end(bytes_at(words, 0)) {
        if bytes_at(words, count - 2) == b"--wait".as_slice() {
            return Ok(Waiting {
                count: count - 2,
                seconds: number_word_at(words, count - 1)?,
            });
        }
    }
    Ok(Waiting { count, seconds: 0 })
}
