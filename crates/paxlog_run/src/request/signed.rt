//! What is asked for by words about checkpoints and tiles.

ghost use Rattle.std.specs.Prelude.{◌≡◌, map, vec_items};
ghost use Rattle.paxlog_run.specs.Requests.{asked_of_checkpoints, asked_of_followers, asked_of_tiles, audit_request, checkpoint_request, cosign_request, follow_request, keygen_request, needs_entry_request, needs_request, tile_proof_request, tiles_request, verify_checkpoint_request, verify_receipt_request, witness_logs_request, witness_reply_request, witness_request};

use crate::request::keeps::{keep_files_request, keep_request};
use crate::request::parts::{
    counted, keyed_at, number_word_at, origin_at, signers_at, site_by, typed_at,
};
use crate::request::{Keyed, Misuse, Needed, Request, bytes_at};

// The new key that is asked for.
fn keygen_request(words: &[Vec<u8>], is_witness: bool) -> Result<Request, Misuse>
    ensures { result ≡ keygen_request (map vec_items words.now) is_witness }
{
    counted(words, 3, 3)?;
    Ok(Request::Keygen {
        name: typed_at(1),
        key_file: typed_at(2),
        is_witness,
    })
}

// The checkpoint that is asked for.
fn checkpoint_request(words: &[Vec<u8>]) -> Result<Request, Misuse>
    ensures { result ≡ checkpoint_request (map vec_items words.now) }
{
    Ok(Request::Checkpoint {
        log: typed_at(1),
        keyed: keyed_at(words, 2)?,
    })
}

// The check of a checkpoint that is asked for.
fn verify_checkpoint_request(words: &[Vec<u8>]) -> Result<Request, Misuse>
    ensures { result ≡ verify_checkpoint_request (map vec_items words.now) }
{
    let at = signers_at(words, 1);
    counted(words, at.next + 1, at.next + 2)?;
    Ok(Request::VerifyCheckpoint {
        signers: at.signers,
        file: typed_at(at.next),
        origin: origin_at(words, at.next + 1),
    })
}

// The tiles that are asked for.
fn tiles_request(words: &[Vec<u8>]) -> Result<Request, Misuse>
    ensures { result ≡ tiles_request (map vec_items words.now) }
{
    Ok(Request::Tiles {
        log: typed_at(1),
        folder: typed_at(2),
        keyed: keyed_at(words, 3)?,
    })
}

// That cosignatures are to be joined.
fn cosign_request(words: &[Vec<u8>]) -> Result<Request, Misuse>
    ensures { result ≡ cosign_request (map vec_items words.now) }
{
    let at = signers_at(words, 2);
    if at.next < words.len() {
        Ok(Request::Cosign {
            site: site_by(at.signers, None),
            files: at.next,
        })
    } else {
        Err(Misuse::TooFew)
    }
}

// The audit that is asked for.
fn audit_request(words: &[Vec<u8>]) -> Result<Request, Misuse>
    ensures { result ≡ audit_request (map vec_items words.now) }
{
    let at = signers_at(words, 2);
    counted(words, at.next, at.next + 1)?;
    Ok(Request::Audit {
        site: site_by(at.signers, origin_at(words, at.next)),
    })
}

// That a state is to follow.
fn follow_request(words: &[Vec<u8>]) -> Result<Request, Misuse>
    ensures { result ≡ follow_request (map vec_items words.now) }
{
    let at = signers_at(words, 2);
    counted(words, at.next + 1, at.next + 2)?;
    Ok(Request::Follow {
        site: site_by(at.signers, origin_at(words, at.next + 1)),
        state: typed_at(at.next),
    })
}

// The names of tiles that are asked for, by which a state is to follow.
fn needs_request(words: &[Vec<u8>]) -> Result<Request, Misuse>
    ensures { result ≡ needs_request (map vec_items words.now) }
{
    let at = signers_at(words, 2);
    counted(words, at.next + 1, at.next + 2)?;
    Ok(Request::Needs {
        site: site_by(at.signers, origin_at(words, at.next + 1)),
        needed: Needed::State(typed_at(at.next)),
    })
}

// The names of tiles that are asked for, by which an entry is to be proved.
fn needs_entry_request(words: &[Vec<u8>]) -> Result<Request, Misuse>
    ensures { result ≡ needs_entry_request (map vec_items words.now) }
{
    let at = signers_at(words, 2);
    counted(words, at.next + 1, at.next + 2)?;
    Ok(Request::Needs {
        site: site_by(at.signers, origin_at(words, at.next + 1)),
        needed: Needed::Entry(number_word_at(words, at.next)?),
    })
}

// The inclusion proof by tiles that is asked for, as a receipt or alone.
fn tile_proof_request(words: &[Vec<u8>], is_receipt: bool) -> Result<Request, Misuse>
    ensures { result ≡ tile_proof_request (map vec_items words.now) is_receipt }
{
    let at = signers_at(words, 2);
    counted(words, at.next + 1, at.next + 2)?;
    Ok(Request::TileProof {
        site: site_by(at.signers, origin_at(words, at.next + 1)),
        index: number_word_at(words, at.next)?,
        is_receipt,
    })
}

// The check of a receipt that is asked for.
fn verify_receipt_request(words: &[Vec<u8>]) -> Result<Request, Misuse>
    ensures { result ≡ verify_receipt_request (map vec_items words.now) }
{
    let at = signers_at(words, 1);
    counted(words, at.next + 2, at.next + 3)?;
    Ok(Request::VerifyReceipt {
        signers: at.signers,
        file: typed_at(at.next),
        receipt: typed_at(at.next + 1),
        origin: origin_at(words, at.next + 2),
    })
}

// The witness's signature that is asked for.
fn witness_request(words: &[Vec<u8>]) -> Result<Request, Misuse>
    ensures { result ≡ witness_request (map vec_items words.now) }
{
    let at = signers_at(words, 2);
    let Keyed { key_file, origin } = keyed_at(words, at.next + 1)?;
    Ok(Request::Witness {
        site: site_by(at.signers, origin),
        state: typed_at(at.next),
        key_file,
    })
}

// The reply of a witness of the logs of a list that is asked for.
fn witness_logs_request(words: &[Vec<u8>]) -> Result<Request, Misuse>
    ensures { result ≡ witness_logs_request (map vec_items words.now) }
{
    counted(words, 5, 5)?;
    if bytes_at(words, 3) != b"--key".as_slice() {
        return Err(Misuse::NoKey(3));
    }
    Ok(Request::WitnessLogs {
        logs: typed_at(2),
        key_file: typed_at(4),
    })
}

// The reply of a witness that is asked for.
fn witness_reply_request(words: &[Vec<u8>]) -> Result<Request, Misuse>
    ensures { result ≡ witness_reply_request (map vec_items words.now) }
{
    if bytes_at(words, 1) == b"--logs".as_slice() {
        return witness_logs_request(words);
    }
    let at = signers_at(words, 1);
    Ok(Request::WitnessRequest {
        signers: at.signers,
        state: typed_at(at.next),
        keyed: keyed_at(words, at.next + 1)?,
    })
}

// What is asked for by a word that is about those who follow a log, the first of all.
#[tactic(auto, unfolding(crate::specs::Requests::asked_of_followers))]
fn asked_of_followers(word: &[u8], words: &[Vec<u8>]) -> Result<Request, Misuse>
    ensures { result ≡ asked_of_followers word.now (map vec_items words.now) }
{
    if word == b"follow".as_slice() {
        follow_request(words)
    } else if word == b"needs".as_slice() {
        needs_request(words)
    } else if word == b"needs-entry".as_slice() {
        needs_entry_request(words)
    } else if word == b"tile-proof".as_slice() {
        tile_proof_request(words, false)
    } else if word == b"receipt".as_slice() {
        tile_proof_request(words, true)
    } else if word == b"verify-receipt".as_slice() {
        verify_receipt_request(words)
    } else if word == b"witness".as_slice() {
        witness_request(words)
    } else if word == b"witness-request".as_slice() {
        witness_reply_request(words)
    } else {
        Err(Misuse::NoCommand(0))
    }
}

// What is asked for by a word that is about folders of tiles, the first of all.
#[tactic(auto, unfolding(crate::specs::Requests::asked_of_tiles))]
fn asked_of_tiles(word: &[u8], words: &[Vec<u8>]) -> Result<Request, Misuse>
    ensures { result ≡ asked_of_tiles word.now (map vec_items words.now) }
{
    if word == b"tiles".as_slice() {
        tiles_request(words)
    } else if word == b"cosign".as_slice() {
        cosign_request(words)
    } else if word == b"audit".as_slice() {
        audit_request(words)
    } else if word == b"keep".as_slice() {
        keep_request(words, false)
    } else if word == b"keep-bundles".as_slice() {
        keep_request(words, true)
    } else if word == b"keep-files".as_slice() {
        keep_files_request(words)
    } else {
        asked_of_followers(word, words)
    }
}

/// Returns what is asked for by a word that is about checkpoints or tiles, the first of all.
pub fn asked_of_checkpoints(word: &[u8], words: &[Vec<u8>]) -> Result<Request, Misuse>
    ensures { result ≡ asked_of_checkpoints word.now (map vec_items words.now) }
{
    if word == b"keygen".as_slice() {
        keygen_request(words, false)
    } else if word == b"keygen-witness".as_slice() {
        keygen_request(words, true)
    } else if word == b"checkpoint".as_slice() {
        checkpoint_request(words)
    } else if word == b"verify-checkpoint".as_slice() {
        verify_checkpoint_request(words)
    } else {
        asked_of_tiles(word, words)
    }
}
