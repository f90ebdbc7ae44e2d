//! What the words behind the command's name ask for.

ghost use Rattle.std.specs.Prelude.{◌≡◌, [], get_or, map, vec_items};
ghost use Rattle.paxlog_run.specs.Requests.{asked_of_logs, request_of_words};

mod appends;
mod keeps;
mod parts;
mod signed;
mod unsigned;
mod waits;

use crate::request::appends::{append_lines_request, append_request};
pub use crate::request::parts::number_word_at;
use crate::request::unsigned::{asked_of_checks, prove_request, root_request, show_request};
pub use crate::request::waits::{Waiting, waiting_in};

/// A word that is asked about, by its place among the words; the command's own has place 0.
#[derive(Clone, Copy)]
pub struct Word {
    pub place: usize,
}

/// The size and the root that a log has to have, so that entries are appended to it.
#[derive(Clone, Copy)]
pub struct After {
    pub size: usize,
    pub root: [u8; 32],
}

/// How entries are to be appended.
#[derive(Clone, Copy)]
pub struct Options {
    /// The log after which they are appended; any where none is named.
    pub after: Option<After>,
    /// For how many seconds another process is waited for that has locked the file.
    pub wait: usize,
    /// How many lines are appended at once; all where no count is named. It is not 0.
    pub batch: Option<usize>,
    /// The folder that keeps the bytes of the entries, where one is named.
    pub keep: Option<Word>,
}

/// An inclusion proof that is to be checked.
#[derive(Clone, Copy)]
pub struct Inclusion {
    pub root: [u8; 32],
    pub size: usize,
    pub index: usize,
    pub file: Word,
    pub proof: Word,
}

/// A consistency proof that is to be checked.
#[derive(Clone, Copy)]
pub struct Continuation {
    pub old_size: usize,
    pub old_root: [u8; 32],
    pub size: usize,
    pub root: [u8; 32],
    pub proof: Word,
}

/// The file of a key that signs, and the origin, where one is named.
#[derive(Clone, Copy)]
pub struct Keyed {
    pub key_file: Word,
    pub origin: Option<Word>,
}

/// Where lines that are appended in batches are published.
#[derive(Clone, Copy)]
pub struct Publication {
    pub folder: Word,
    pub keyed: Keyed,
    /// How many milliseconds lie at least between two batches behind which it is published.
    pub every: usize,
}

/// Who has to sign a checkpoint.
#[derive(Clone, Copy)]
pub enum Signers {
    /// The key of the log.
    Key(Word),
    /// Who the policy file says.
    Policy(Word),
    /// Who the policy file says, its witnesses within so many seconds.
    Lately { policy: Word, seconds: Word },
}

/// The folder of a log's tiles, who has to sign its checkpoint, and the origin, where one is named.
#[derive(Clone, Copy)]
pub struct Site {
    pub folder: Word,
    pub signers: Signers,
    pub origin: Option<Word>,
}

/// The entries whose bytes are to be kept, and the words that say where they are.
#[derive(Clone, Copy)]
pub enum Entries {
    /// The lines of FILE.
    Lines(Word),
    /// The entries of FILE, each behind its length in two bytes, the highest first.
    Bundles(Word),
    /// Each word from a place on, before another, is a FILE that is an entry.
    Files { first: usize, end: usize },
}

/// For what the tiles of a folder are needed.
#[derive(Clone, Copy)]
pub enum Needed {
    /// STATE is to move on to the checkpoint.
    State(Word),
    /// The entry at an index is to be proved.
    Entry(usize),
}

/// What is asked for, with the words that say it.
#[derive(Clone, Copy)]
pub enum Request {
    Append {
        log: Word,
        options: Options,
        /// The place from which on each word is a FILE.
        files: usize,
    },
    AppendLines {
        log: Word,
        options: Options,
        /// Where the log is published behind its batches, if it is.
        publication: Option<Publication>,
        file: Word,
    },
    Root {
        log: Word,
        size: Option<usize>,
    },
    Prove {
        log: Word,
        index: usize,
        size: Option<usize>,
    },
    Show {
        log: Word,
        index: usize,
        size: Option<usize>,
        /// Whether as an image.
        is_image: bool,
    },
    Consistency {
        log: Word,
        old_size: usize,
        size: Option<usize>,
    },
    Check {
        log: Word,
    },
    /// Where in LOG the entry stands that FILE is.
    Find {
        log: Word,
        file: Word,
    },
    /// What of LOG is whole; NEW is made of it where it is named.
    Recover {
        log: Word,
        new: Option<Word>,
    },
    Verify(Inclusion),
    VerifyConsistency(Continuation),
    /// A new key, of a log or of a witness.
    Keygen {
        name: Word,
        key_file: Word,
        is_witness: bool,
    },
    Checkpoint {
        log: Word,
        keyed: Keyed,
    },
    VerifyCheckpoint {
        signers: Signers,
        file: Word,
        origin: Option<Word>,
    },
    Tiles {
        log: Word,
        folder: Word,
        keyed: Keyed,
    },
    /// Cosignatures of the folder's checkpoint, which files have: each word from a place on is a FILE.
    Cosign {
        site: Site,
        files: usize,
    },
    Audit {
        site: Site,
    },
    Keep {
        site: Site,
        entries: Entries,
        /// The index of the first of these entries; that of what is not kept yet, of all entries, where none is named.
        from: Option<usize>,
    },
    /// The names of the tiles that are missing.
    Needs {
        site: Site,
        needed: Needed,
    },
    Follow {
        site: Site,
        state: Word,
    },
    TileProof {
        site: Site,
        index: usize,
        /// Whether with the checkpoint, as a receipt.
        is_receipt: bool,
    },
    VerifyReceipt {
        signers: Signers,
        file: Word,
        receipt: Word,
        origin: Option<Word>,
    },
    Witness {
        site: Site,
        state: Word,
        key_file: Word,
    },
    /// What a witness replies to the request on standard input.
    WitnessRequest {
        signers: Signers,
        state: Word,
        keyed: Keyed,
    },
    /// The same of the logs that a file lists.
    WitnessLogs {
        logs: Word,
        key_file: Word,
    },
    /// How the command is used, or one of its commands.
    Help {
        command: Option<Word>,
    },
    Version,
}

/// Why words ask for nothing. A number is the place of the word that is wrong.
#[derive(Clone, Copy)]
pub enum Misuse {
    /// There is no word.
    Nothing,
    /// There is no such command.
    NoCommand(usize),
    /// A word lacks.
    TooFew,
    /// The command takes fewer words.
    TooMany,
    /// A number has to stand here.
    NoNumber(usize),
    /// A digest has to stand here.
    NoDigest(usize),
    /// A batch has one line at least.
    NoLines(usize),
    /// Files are appended at once, and not in batches.
    NoBatches,
    /// Only batches are published.
    NotInBatches,
    /// What is published is signed.
    NoKeyFile,
    /// An option of what is published stands alone.
    NotPublished,
    /// `--key` has to stand here.
    NoKey(usize),
    /// `--origin` has to stand here.
    NoOrigin(usize),
}

/// Returns the bytes of the word at a place; none where there is no word.
pub fn bytes_at(words: &[Vec<u8>], place: usize) -> &[u8]
    ensures { result.now ≡ get_or (map vec_items words.now) place [] }
{
    match words.get(place) {
        Some(word) => word,
        None => &[],
    }
}

// What is asked for by a word, the first of all.
fn asked_of_logs(word: &[u8], words: &[Vec<u8>]) -> Result<Request, Misuse>
    ensures { result ≡ asked_of_logs word.now (map vec_items words.now) }
{
    if word == b"append".as_slice() {
        append_request(words)
    } else if word == b"append-lines".as_slice() {
        append_lines_request(words)
    } else if word == b"root".as_slice() {
        root_request(words)
    } else if word == b"prove".as_slice() {
        prove_request(words)
    } else if word == b"show".as_slice() {
        show_request(words, false)
    } else if word == b"show-image".as_slice() {
        show_request(words, true)
    } else {
        asked_of_checks(word, words)
    }
}

/// Returns what the words ask for. The error says which word is wrong, and why.
pub fn request_of_words(words: &[Vec<u8>]) -> Result<Request, Misuse>
    ensures { result ≡ request_of_words (map vec_items words.now) }
{
    if 0 < words.len() {
        asked_of_logs(bytes_at(words, 0), words)
    } else {
        Err(Misuse::Nothing)
    }
}
