//! What is asked for by words about appends, with their options.

ghost use Rattle.std.specs.Prelude.{◌≡◌, ◌≤◌, ◌+◌, map, vec_items, IfOk};
ghost use Rattle.paxlog_run.specs.Requests.{append_request, append_lines_request, files_at, option_more, options_in, publication_of, publish_more};

use crate::request::parts::{counted, digest_word_at, number_word_at, typed_at};
use crate::request::{After, Keyed, Misuse, Options, Publication, Request, Word, bytes_at};

/// What options say of where a log is published.
#[derive(Clone, Copy)]
pub struct PublishOptions {
    pub folder: Option<Word>,
    pub key_file: Option<Word>,
    pub origin: Option<Word>,
    pub every: Option<usize>,
}

/// What the options of an append say.
#[derive(Clone, Copy)]
pub struct OptionsAt {
    pub options: Options,
    pub publish: PublishOptions,
    /// The place of the words that stands behind them.
    pub place: usize,
}

// The same with an option more of where the log is published, if one stands at the place.
fn publish_more(words: &[Vec<u8>], at: OptionsAt) -> Result<OptionsAt, Misuse>
    requires { at.place ≤ 23 }
    ensures more { result ≡ publish_more (map vec_items words.now) at }
    ensures near { IfOk result (λ more. more.place ≤ at.place + 2) }
{
    let OptionsAt {
        options,
        publish,
        place,
    } = at;
    let PublishOptions {
        folder,
        key_file,
        origin,
        every,
    } = publish;
    let word = typed_at(place + 1);
    let publish = if bytes_at(words, place) == b"--publish".as_slice() {
        PublishOptions {
            folder: Some(word),
            key_file,
            origin,
            every,
        }
    } else if bytes_at(words, place) == b"--key".as_slice() {
        PublishOptions {
            folder,
            key_file: Some(word),
            origin,
            every,
        }
    } else if bytes_at(words, place) == b"--origin".as_slice() {
        PublishOptions {
            folder,
            key_file,
            origin: Some(word),
            every,
        }
    } else if bytes_at(words, place) == b"--every".as_slice() {
        PublishOptions {
            folder,
            key_file,
            origin,
            every: Some(number_word_at(words, place + 1)?),
        }
    } else {
        return Ok(at);
    };
    Ok(OptionsAt {
        options,
        publish,
        place: place + 2,
    })
}

// The same with one option more, if one stands at the place.
fn option_more(words: &[Vec<u8>], at: OptionsAt) -> Result<OptionsAt, Misuse>
    requires { at.place ≤ 23 }
    ensures more { result ≡ option_more (map vec_items words.now) at }
    ensures near { IfOk result (λ more. more.place ≤ at.place + 3) }
{
    let OptionsAt {
        options,
        publish,
        place,
    } = at;
    let Options {
        after,
        wait,
        batch,
        keep,
    } = options;
    if bytes_at(words, place) == b"--after".as_slice() {
        let after = After {
            size: number_word_at(words, place + 1)?,
            root: digest_word_at(words, place + 2)?,
        };
        Ok(OptionsAt {
            options: Options {
                after: Some(after),
                wait,
                batch,
                keep,
            },
            publish,
            place: place + 3,
        })
    } else if bytes_at(words, place) == b"--wait".as_slice() {
        Ok(OptionsAt {
            options: Options {
                after,
                wait: number_word_at(words, place + 1)?,
                batch,
                keep,
            },
            publish,
            place: place + 2,
        })
    } else if bytes_at(words, place) == b"--batch".as_slice() {
        let count = number_word_at(words, place + 1)?;
        if count == 0 {
            return Err(Misuse::NoLines(place + 1));
        }
        Ok(OptionsAt {
            options: Options {
                after,
                wait,
                batch: Some(count),
                keep,
            },
            publish,
            place: place + 2,
        })
    } else if bytes_at(words, place) == b"--keep".as_slice() {
        Ok(OptionsAt {
            options: Options {
                after,
                wait,
                batch,
                keep: Some(typed_at(place + 1)),
            },
            publish,
            place: place + 2,
        })
    } else {
        publish_more(words, at)
    }
}

// A place of files, or that behind it where `--` stands there.
fn files_at(words: &[Vec<u8>], place: usize) -> usize
    requires { place ≤ 26 }
    ensures files { result ≡ files_at (map vec_items words.now) place }
    ensures near { result ≤ place + 1 }
{
    if bytes_at(words, place) == b"--".as_slice() {
        place + 1
    } else {
        place
    }
}

// The options of an append, and the place of the files behind them.
fn options_in(words: &[Vec<u8>]) -> Result<OptionsAt, Misuse>
    ensures options { result ≡ options_in (map vec_items words.now) }
    ensures near { IfOk result (λ at. at.place ≤ 27) }
{
    let none = OptionsAt {
        options: Options {
            after: None,
            wait: 0,
            batch: None,
            keep: None,
        },
        publish: PublishOptions {
            folder: None,
            key_file: None,
            origin: None,
            every: None,
        },
        place: 2,
    };
    let one = option_more(words, none)?;
    let two = option_more(words, one)?;
    let three = option_more(words, two)?;
    let four = option_more(words, three)?;
    let five = option_more(words, four)?;
    let six = option_more(words, five)?;
    let seven = option_more(words, six)?;
    let OptionsAt {
        options,
        publish,
        place,
    } = option_more(words, seven)?;
    Ok(OptionsAt {
        options,
        publish,
        place: files_at(words, place),
    })
}

// Where a log is published, by its options.
fn publication_of(at: OptionsAt) -> Result<Option<Publication>, Misuse>
    ensures { result ≡ publication_of at }
{
    let PublishOptions {
        folder,
        key_file,
        origin,
        every,
    } = at.publish;
    let Some(folder) = folder else {
        return if key_file.is_none() && origin.is_none() && every.is_none() {
            Ok(None)
        } else {
            Err(Misuse::NotPublished)
        };
    };
    let Some(key_file) = key_file else {
        return Err(Misuse::NoKeyFile);
    };
    if at.options.batch.is_none() {
        return Err(Misuse::NotInBatches);
    }
    Ok(Some(Publication {
        folder,
        keyed: Keyed { key_file, origin },
        every: every.unwrap_or(0),
    }))
}

/// Returns the append of files that is asked for.
pub fn append_request(words: &[Vec<u8>]) -> Result<Request, Misuse>
    ensures { result ≡ append_request (map vec_items words.now) }
{
    let at = options_in(words)?;
    let options = at.options;
    if options.batch.is_some() {
        return Err(Misuse::NoBatches);
    }
    publication_of(at)?;
    let place = at.place;
    if place < words.len() {
        Ok(Request::Append {
            log: typed_at(1),
            options,
            files: place,
        })
    } else {
        Err(Misuse::TooFew)
    }
}

/// Returns the append of lines that is asked for.
pub fn append_lines_request(words: &[Vec<u8>]) -> Result<Request, Misuse>
    ensures { result ≡ append_lines_request (map vec_items words.now) }
{
    let at = options_in(words)?;
    let publication = publication_of(at)?;
    let place = at.place;
    counted(words, place + 1, place + 1)?;
    Ok(Request::AppendLines {
        log: typed_at(1),
        options: at.options,
        publication,
        file: typed_at(place),
    })
}
