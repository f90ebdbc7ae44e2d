//! What is asked for by words about entries that are kept.

ghost use Rattle.std.specs.Prelude.{◌≡◌, map, vec_items};
ghost use Rattle.paxlog_run.specs.Requests.{from_in, keep_files_request, keep_request, word_before};

use crate::request::parts::{number_word_at, site_at, typed_at};
use crate::request::{Entries, Misuse, Request, Word, bytes_at};

/// How many words stand before those of a first index, and that index, where one is named.
#[derive(Clone, Copy)]
pub struct FromAt {
    pub count: usize,
    pub from: Option<usize>,
}

// How many words stand before `--from INDEX` at their end, and the index. The error names the place of what is no number.
fn from_in(words: &[Vec<u8>]) -> Result<FromAt, Misuse>
    ensures { result ≡ from_in (map vec_items words.now) }
{
    let count = words.len();
    if 2 < count {
        if bytes_at(words, count - 2) == b"--from".as_slice() {
            return Ok(FromAt {
                count: count - 2,
                from: Some(number_word_at(words, count - 1)?),
            });
        }
    }
    Ok(FromAt { count, from: None })
}

// The word at a place, if it is one of so many.
fn word_before(count: usize, place: usize) -> Option<Word>
    ensures { result ≡ word_before count place }
{
    if place < count {
        Some(typed_at(place))
    } else {
        None
    }
}

/// Returns that the entries of a file are to be kept, its lines or those of bundles.
pub fn keep_request(words: &[Vec<u8>], is_bundled: bool) -> Result<Request, Misuse>
    ensures { result ≡ keep_request (map vec_items words.now) is_bundled }
{
    let FromAt { count, from } = from_in(words)?;
    if count < 4 {
        return Err(Misuse::TooFew);
    }
    if 5 < count {
        return Err(Misuse::TooMany);
    }
    let file = typed_at(3);
    Ok(Request::Keep {
        site: site_at(word_before(count, 4)),
        entries: if is_bundled {
            Entries::Bundles(file)
        } else {
            Entries::Lines(file)
        },
        from,
    })
}

/// Returns that files are to be kept, each of which is an entry.
pub fn keep_files_request(words: &[Vec<u8>]) -> Result<Request, Misuse>
    ensures { result ≡ keep_files_request (map vec_items words.now) }
{
    let FromAt { count, from } = from_in(words)?;
    let is_named = bytes_at(words, 3) == b"--origin".as_slice();
    let first = if is_named { 5 } else { 3 };
    if count <= first {
        return Err(Misuse::TooFew);
    }
    Ok(Request::Keep {
        site: site_at(if is_named { Some(typed_at(4)) } else { None }),
        entries: Entries::Files { first, end: count },
        from,
    })
}
