//! Inclusion and consistency proofs of the log in a file of the caller's.

ghost use Rattle.std.specs.Prelude.{◌≡◌, ◌≢◌, ◌<◌, List, ℕ, length, pos, negsuc, IfErr, IfOk, OnOk, Err, Some};
ghost use Rattle.ark_paths.specs.Pair.{Digest};
ghost use Rattle.log_store.specs.Refused.{index_outcome, older_outcome};
ghost use Rattle.paxidore_calls.specs.Answer.{refusal_code};
ghost use Rattle.paxidore_calls.specs.KeptLog.{consistency_bytes, inclusion_bytes};
ghost use Rattle.paxidore_calls.specs.Layouts.{log_in, HasLog};
ghost use Rattle.paxidore_calls.specs.LogFiles.{AsksFirst, IsReason, StandsInFront, TellsWhy};
ghost use Rattle.paxidore_calls.specs.Plan.{HasRead};
ghost use Rattle.paxidore_calls.specs.declared.file_calls.not_done.NotDone.TheVariants.{More, Refusal};
ghost use Rattle.paxidore_calls.specs.declared.refused.Refused.TheVariants.{Room};

use crate::file_calls::{Pieces, code_of};
use paxidore_calls::file_calls::answers::{path_of, proof_of};
use paxidore_calls::file_calls::asked::{Asked, ask};
use paxidore_calls::file_calls::handed::hand_over_digests;
use paxidore_calls::file_calls::not_done::NotDone;
use std::alloc::Global;
use std::marker::Brand;

fn inclusion_in(
    alloc: Global,
    path: &mut [u8],
    path_len: &mut usize,
    places: &mut [[usize; 2]],
    places_len: &mut usize,
    file_len: usize,
    pieces: &[u8],
    index: usize,
    size: usize,
) -> Result<(), NotDone>
    ghost file: { List ℕ }
    ensures first { AsksFirst (result ≡ Err More) file_len places_len.old places_len.new
        places.old places.new }
    ensures path { HasRead file file_len places_len.old places.old pieces.now
        → (leaves : List Digest) → HasLog leaves file
        → OnOk result (StandsInFront (inclusion_bytes size index leaves) path.old path.new
        path_len.new) }
    ensures room_needed { HasRead file file_len places_len.old places.old pieces.now
        → (leaves : List Digest) → HasLog leaves file → places_len.old < length places.old
        → result ≡ Err (Refusal Room)
        → IfOk (inclusion_bytes size index leaves) (λ bytes. path_len.new ≡ length bytes) }
    ensures refused { HasRead file file_len places_len.old places.old pieces.now
        → let own = log_in file in
        IfErr result (IsReason own (index_outcome own (Some size) index)) }
    ensures kept { IfErr result (λ _. path.new ≡ path.old) }
    ensures uncounted { result ≢ Err (Refusal Room)
        → IfErr result (λ _. path_len.new ≡ path_len.old) }
{
    let asked = Asked::Inclusion(index, size);
    ask(alloc, asked, file_len, places, places_len, pieces)?;
    let read = &places[..*places_len];
    let proof = path_of::<Brand>(alloc, file_len, read, pieces, index, size)?;
    hand_over_digests(alloc, &proof.path, path, path_len)
}

/// Writes the bytes of the path of an index in the first `size` entries of the log of a file, and their count. Its own refusals:
/// those of the root, `E_INDEX`, `E_ROOM` for `path`.
#[unsafe(no_mangle)]
pub extern "C" fn paxidore_log_file_inclusion(
    alloc: Global,
    path: &mut [u8],
    path_len: &mut usize,
    pieces: &mut Pieces,
    size: usize,
    index: usize,
) -> i32
    ghost file: { List ℕ }
    ensures first { AsksFirst (result ≡ negsuc 9) pieces.old.file_len pieces.old.places_len
        pieces.new.places_len pieces.old.places.now pieces.new.places.now }
    ensures path { HasRead file pieces.old.file_len pieces.old.places_len pieces.old.places.now
        pieces.old.bytes.now → (leaves : List Digest) → HasLog leaves file → result ≡ pos 0
        → StandsInFront (inclusion_bytes size index leaves) path.old path.new
        path_len.new }

    // Where there is room for places, the buffer lacks it.
    ensures room_needed { HasRead file pieces.old.file_len pieces.old.places_len
        pieces.old.places.now
        pieces.old.bytes.now → (leaves : List Digest) → HasLog leaves file
        → pieces.old.places_len < length pieces.old.places.now → result ≡ refusal_code Room
        → IfOk (inclusion_bytes size index leaves) (λ bytes. path_len.new ≡ length bytes) }
    ensures refused { HasRead file pieces.old.file_len pieces.old.places_len pieces.old.places.now
        pieces.old.bytes.now
        → let own = log_in file in
        TellsWhy (IsReason own (index_outcome own (Some size) index)) result }
    ensures kept { result ≢ pos 0 → path.new ≡ path.old }
    ensures uncounted { result ≢ pos 0 → result ≢ refusal_code Room
        → path_len.new ≡ path_len.old }
    ensures lent { (pieces.new.places.ghost_name ≡ pieces.old.places.ghost_name)
        × (pieces.new.bytes.now ≡ pieces.old.bytes.now)
        × (pieces.new.file_len ≡ pieces.old.file_len) }
{
    code_of(inclusion_in(
        alloc,
        path,
        path_len,
        pieces.places,
        &mut pieces.places_len,
        pieces.file_len,
        pieces.bytes,
        index,
        size,
    ))
}

fn consistency_in(
    alloc: Global,
    proof: &mut [u8],
    proof_len: &mut usize,
    places: &mut [[usize; 2]],
    places_len: &mut usize,
    file_len: usize,
    pieces: &[u8],
    old_size: usize,
    size: usize,
) -> Result<(), NotDone>
    ghost file: { List ℕ }
    ensures first { AsksFirst (result ≡ Err More) file_len places_len.old places_len.new
        places.old places.new }
    ensures proof { HasRead file file_len places_len.old places.old pieces.now
        → (leaves : List Digest) → HasLog leaves file
        → OnOk result (StandsInFront (consistency_bytes old_size size leaves) proof.old proof.new
        proof_len.new) }
    ensures room_needed { HasRead file file_len places_len.old places.old pieces.now
        → (leaves : List Digest) → HasLog leaves file → places_len.old < length places.old
        → result ≡ Err (Refusal Room)
        → IfOk (consistency_bytes old_size size leaves) (λ bytes. proof_len.new ≡ length bytes) }
    ensures refused { HasRead file file_len places_len.old places.old pieces.now
        → let own = log_in file in
        IfErr result (IsReason own (older_outcome own (Some size) old_size)) }
    ensures kept { IfErr result (λ _. proof.new ≡ proof.old) }
    ensures uncounted { result ≢ Err (Refusal Room)
        → IfErr result (λ _. proof_len.new ≡ proof_len.old) }
{
    let asked = Asked::Consistency(old_size, size);
    ask(alloc, asked, file_len, places, places_len, pieces)?;
    let read = &places[..*places_len];
    let given = proof_of::<Brand>(alloc, file_len, read, pieces, old_size, size)?;
    hand_over_digests(alloc, &given.path, proof, proof_len)
}

/// Writes the bytes of the proof that the first `size` entries of the log of a file continue the first `old_size` ones, and
/// their count. Its own refusals: those of the root, `E_SIZE` also for the old size 0 and for one above the size, `E_ROOM` for
/// `proof`.
#[unsafe(no_mangle)]
pub extern "C" fn paxidore_log_file_consistency(
    alloc: Global,
    proof: &mut [u8],
    proof_len: &mut usize,
    pieces: &mut Pieces,
    old_size: usize,
    size: usize,
) -> i32
    ghost file: { List ℕ }
    ensures first { AsksFirst (result ≡ negsuc 9) pieces.old.file_len pieces.old.places_len
        pieces.new.places_len pieces.old.places.now pieces.new.places.now }
    ensures proof { HasRead file pieces.old.file_len pieces.old.places_len pieces.old.places.now
        pieces.old.bytes.now → (leaves : List Digest) → HasLog leaves file → result ≡ pos 0
        → StandsInFront (consistency_bytes old_size size leaves) proof.old proof.new
        proof_len.new }

    // Where there is room for places, the buffer lacks it.
    ensures room_needed { HasRead file pieces.old.file_len pieces.old.places_len
        pieces.old.places.now
        pieces.old.bytes.now → (leaves : List Digest) → HasLog leaves file
        → pieces.old.places_len < length pieces.old.places.now → result ≡ refusal_code Room
        → IfOk (consistency_bytes old_size size leaves) (λ bytes. proof_len.new ≡ length bytes) }
    ensures refused { HasRead file pieces.old.file_len pieces.old.places_len pieces.old.places.now
        pieces.old.bytes.now
        → let own = log_in file in
        TellsWhy (IsReason own (older_outcome own (Some size) old_size)) result }
    ensures kept { result ≢ pos 0 → proof.new ≡ proof.old }
    ensures uncounted { result ≢ pos 0 → result ≢ refusal_code Room
        → proof_len.new ≡ proof_len.old }
    ensures lent { (pieces.new.places.ghost_name ≡ pieces.old.places.ghost_name)
        × (pieces.new.bytes.now ≡ pieces.old.bytes.now)
        × (pieces.new.file_len ≡ pieces.old.file_len) }
{
    code_of(consistency_in(
        alloc,
        proof,
        proof_len,
        pieces.places,
        &mut pieces.places_len,
        pieces.file_len,
        pieces.bytes,
        old_size,
        size,
    ))
}
