//! Words at their places: counted, and read as numbers, digests, options and origins.

ghost use Rattle.std.specs.Prelude.{◌≡◌, ◌+◌, ◌≤◌, map, vec_items};
ghost use Rattle.paxlog_run.specs.Places.{counted, digest_word_at, digest_in_hex, keyed_at, number_word_at, origin_at, signers_at, site_at, site_by, size_at, typed_at};

use crate::request::{Keyed, Misuse, Signers, Site, Word, bytes_at};
use decimals::decimal_number;

// The digest that a word spells in hexadecimal.
fn digest_in_hex(word: &[u8]) -> Option<[u8; 32]>
    ensures { result ≡ digest_in_hex word.now }
{
    let mut digest = [0; 32];
    match hex::decode_to_slice(word, &mut digest) {
        Ok(()) => Some(digest),
        Err(_) => None,
    }
}

/// Returns the word at a place.
pub fn typed_at(place: usize) -> Word
    ensures { result ≡ typed_at place }
{
    Word { place }
}

/// Returns the word at a place, if they are so many.
pub fn origin_at(words: &[Vec<u8>], place: usize) -> Option<Word>
    ensures { result ≡ origin_at (map vec_items words.now) place }
{
    if place < words.len() {
        Some(typed_at(place))
    } else {
        None
    }
}

/// Returns the number at a place of the words. The error names the place.
pub fn number_word_at(words: &[Vec<u8>], place: usize) -> Result<usize, Misuse>
    ensures { result ≡ number_word_at (map vec_items words.now) place }
{
    match decimal_number(bytes_at(words, place)) {
        Some(number) => Ok(number),
        None => Err(Misuse::NoNumber(place)),
    }
}

/// Returns the digest at a place of the words. The error names the place.
pub fn digest_word_at(words: &[Vec<u8>], place: usize) -> Result<[u8; 32], Misuse>
    ensures { result ≡ digest_word_at (map vec_items words.now) place }
{
    match digest_in_hex(bytes_at(words, place)) {
        Some(digest) => Ok(digest),
        None => Err(Misuse::NoDigest(place)),
    }
}

/// Returns the size at a place of the words, if they are so many. The error names the place.
pub fn size_at(words: &[Vec<u8>], place: usize) -> Result<Option<usize>, Misuse>
    ensures { result ≡ size_at (map vec_items words.now) place }
{
    if place < words.len() {
        Ok(Some(number_word_at(words, place)?))
    } else {
        Ok(None)
    }
}

/// Returns how many words there are with the command's own. The error says that they are too few or too many.
pub fn counted(words: &[Vec<u8>], least: usize, most: usize) -> Result<usize, Misuse>
    ensures { result ≡ counted (map vec_items words.now) least most }
{
    let count = words.len();
    if count < least {
        Err(Misuse::TooFew)
    } else if most < count {
        Err(Misuse::TooMany)
    } else {
        Ok(count)
    }
}

/// Who has to sign, and the place behind the words that say it.
#[derive(Clone, Copy)]
pub struct SignersAt {
    pub signers: Signers,
    pub next: usize,
}

/// Returns who has to sign, by the words at a place: `--policy FILE [--not-older-than SECONDS]`, or KEY.
pub fn signers_at(words: &[Vec<u8>], place: usize) -> SignersAt
    requires { place ≤ 2 }
    ensures signers { result ≡ signers_at (map vec_items words.now) place }
    ensures near { result.next ≤ place + 4 }
{
    if bytes_at(words, place) != b"--policy".as_slice() {
        SignersAt {
            signers: Signers::Key(typed_at(place)),
            next: place + 1,
        }
    } else if bytes_at(words, place + 2) == b"--not-older-than".as_slice() {
        SignersAt {
            signers: Signers::Lately {
                policy: typed_at(place + 1),
                seconds: typed_at(place + 3),
            },
            next: place + 4,
        }
    } else {
        SignersAt {
            signers: Signers::Policy(typed_at(place + 1)),
            next: place + 2,
        }
    }
}

/// Returns FOLDER, the word behind the command's own, with who has to sign and the origin.
pub fn site_by(signers: Signers, origin: Option<Word>) -> Site
    ensures { result ≡ site_by signers origin }
{
    Site {
        folder: typed_at(1),
        signers,
        origin,
    }
}

/// Returns FOLDER and KEY, the words behind the command's own, and the origin.
pub fn site_at(origin: Option<Word>) -> Site
    ensures { result ≡ site_at origin }
{
    site_by(Signers::Key(typed_at(2)), origin)
}

/// Returns the words behind the options at a place: one for a key, and behind it one for an origin, where there is one.
pub fn keyed_at(words: &[Vec<u8>], place: usize) -> Result<Keyed, Misuse>
    requires { place ≤ 8 }
    ensures { result ≡ keyed_at (map vec_items words.now) place }
{
    counted(words, place + 2, place + 4)?;
    if bytes_at(words, place) != b"--key".as_slice() {
        return Err(Misuse::NoKey(place));
    }
    let key_file = typed_at(place + 1);
    if words.len() == place + 2 {
        return Ok(Keyed {
            key_file,
            origin: None,
        });
    }
    if bytes_at(words, place + 2) != b"--origin".as_slice() {
        return Err(Misuse::NoOrigin(place + 2));
    }
    if words.len() == place + 3 {
        return Err(Misuse::TooFew);
    }
    Ok(Keyed {
        key_file,
        origin: Some(typed_at(place + 3)),
    })
}
