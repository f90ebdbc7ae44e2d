//! What is asked for by words about logs in files, and about the command itself.

ghost use Rattle.std.specs.Prelude.{◌≡◌, map, vec_items};
ghost use Rattle.paxlog_run.specs.Requests.{asked_of_checks, asked_of_help, check_request, consistency_request, find_request, help_request, prove_request, recover_request, root_request, show_request, usage_request, verify_consistency_request, verify_request, version_request};

use crate::request::parts::{
    counted, digest_word_at, number_word_at, origin_at, size_at, typed_at,
};
use crate::request::signed::asked_of_checkpoints;
use crate::request::{Continuation, Inclusion, Misuse, Request};

/// Returns the root that is asked for.
pub fn root_request(words: &[Vec<u8>]) -> Result<Request, Misuse>
    ensures { result ≡ root_request (map vec_items words.now) }
{
    counted(words, 2, 3)?;
    Ok(Request::Root {
        log: typed_at(1),
        size: size_at(words, 2)?,
    })
}

/// Returns the inclusion proof that is asked for.
pub fn prove_request(words: &[Vec<u8>]) -> Result<Request, Misuse>
    ensures { result ≡ prove_request (map vec_items words.now) }
{
    counted(words, 3, 4)?;
    Ok(Request::Prove {
        log: typed_at(1),
        index: number_word_at(words, 2)?,
        size: size_at(words, 3)?,
    })
}

/// Returns the picture that is asked for.
pub fn show_request(words: &[Vec<u8>], is_image: bool) -> Result<Request, Misuse>
    ensures { result ≡ show_request (map vec_items words.now) is_image }
{
    counted(words, 3, 4)?;
    Ok(Request::Show {
        log: typed_at(1),
        index: number_word_at(words, 2)?,
        size: size_at(words, 3)?,
        is_image,
    })
}

// The consistency proof that is asked for.
fn consistency_request(words: &[Vec<u8>]) -> Result<Request, Misuse>
    ensures { result ≡ consistency_request (map vec_items words.now) }
{
    counted(words, 3, 4)?;
    Ok(Request::Consistency {
        log: typed_at(1),
        old_size: number_word_at(words, 2)?,
        size: size_at(words, 3)?,
    })
}

// The check of a log that is asked for.
fn check_request(words: &[Vec<u8>]) -> Result<Request, Misuse>
    ensures { result ≡ check_request (map vec_items words.now) }
{
    counted(words, 2, 2)?;
    Ok(Request::Check { log: typed_at(1) })
}

// The search for an entry that is asked for.
fn find_request(words: &[Vec<u8>]) -> Result<Request, Misuse>
    ensures { result ≡ find_request (map vec_items words.now) }
{
    counted(words, 3, 3)?;
    Ok(Request::Find {
        log: typed_at(1),
        file: typed_at(2),
    })
}

// The recovery that is asked for.
fn recover_request(words: &[Vec<u8>]) -> Result<Request, Misuse>
    ensures { result ≡ recover_request (map vec_items words.now) }
{
    counted(words, 2, 3)?;
    Ok(Request::Recover {
        log: typed_at(1),
        new: origin_at(words, 2),
    })
}

// The check of an inclusion proof that is asked for.
fn verify_request(words: &[Vec<u8>]) -> Result<Request, Misuse>
    ensures { result ≡ verify_request (map vec_items words.now) }
{
    counted(words, 6, 6)?;
    Ok(Request::Verify(Inclusion {
        root: digest_word_at(words, 1)?,
        size: number_word_at(words, 2)?,
        index: number_word_at(words, 3)?,
        file: typed_at(4),
        proof: typed_at(5),
    }))
}

// The check of a consistency proof that is asked for.
fn verify_consistency_request(words: &[Vec<u8>]) -> Result<Request, Misuse>
    ensures { result ≡ verify_consistency_request (map vec_items words.now) }
{
    counted(words, 6, 6)?;
    Ok(Request::VerifyConsistency(Continuation {
        old_size: number_word_at(words, 1)?,
        old_root: digest_word_at(words, 2)?,
        size: number_word_at(words, 3)?,
        root: digest_word_at(words, 4)?,
        proof: typed_at(5),
    }))
}

// The help that is asked for: on a command, where one is named.
fn help_request(words: &[Vec<u8>]) -> Result<Request, Misuse>
    ensures { result ≡ help_request (map vec_items words.now) }
{
    counted(words, 1, 2)?;
    Ok(Request::Help {
        command: origin_at(words, 1),
    })
}

// That the usage is asked for, by a word that stands alone.
fn usage_request(words: &[Vec<u8>]) -> Result<Request, Misuse>
    ensures { result ≡ usage_request (map vec_items words.now) }
{
    counted(words, 1, 1)?;
    Ok(Request::Help { command: None })
}

// That the version is asked for.
fn version_request(words: &[Vec<u8>]) -> Result<Request, Misuse>
    ensures { result ≡ version_request (map vec_items words.now) }
{
    counted(words, 1, 1)?;
    Ok(Request::Version)
}

// What is asked for by a word that is about the command itself, the first of all.
fn asked_of_help(word: &[u8], words: &[Vec<u8>]) -> Result<Request, Misuse>
    ensures { result ≡ asked_of_help word.now (map vec_items words.now) }
{
    if word == b"help".as_slice() {
        help_request(words)
    } else if word == b"--help".as_slice() || word == b"-h".as_slice() {
        usage_request(words)
    } else if word == b"--version".as_slice() {
        version_request(words)
    } else {
        asked_of_checkpoints(word, words)
    }
}

/// Returns what is asked for by a word that is about checks or none of logs' files, the first of all.
pub fn asked_of_checks(word: &[u8], words: &[Vec<u8>]) -> Result<Request, Misuse>
    ensures { result ≡ asked_of_checks word.now (map vec_items words.now) }
{
    if word == b"consistency".as_slice() {
        consistency_request(words)
    } else if word == b"check".as_slice() {
        check_request(words)
    } else if word == b"find".as_slice() {
        find_request(words)
    } else if word == b"recover".as_slice() {
        recover_request(words)
    } else if word == b"verify".as_slice() {
        verify_request(words)
    } else if word == b"verify-consistency".as_slice() {
        verify_consistency_request(words)
    } else {
        asked_of_help(word, words)
    }
}
