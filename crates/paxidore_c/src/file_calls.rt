//! A log in a file of the caller's (RFC 6962 and RFC 9162, section 2.1): what is to be read of the file, and what is to be written.
//!
//! No call reads or writes the file. Each takes the pieces of it that the caller has read, or answers that others are to be read
//! first, and puts their places behind those of the ones that were read. What is to be written is handed over in steps, each a
//! place and a count of bytes. What the clauses say of a file holds of whichever file the pieces are of.
//!
//! The file may have its two slots in one sector or in two. The calls take it as the log's file that it is (`log_in`); places and steps
//! are those of the file itself, which stays as it lies.
//!
//! Each call but the check answers the first of `E_ROOM` where there is none for places, `E_LENGTHS` where the pieces have not as
//! many bytes as their places say, and `E_MORE`; then 0, or a refusal of its own; `E_MEMORY` in place of any. `E_MORE` writes places,
//! `E_ROOM` for a buffer the counts that are needed, and no other refusal anything.

ghost use Rattle.std.specs.Prelude.{◌≡◌, ◌≢◌, ◌⊎◌, ◌<◌, ◌≤◌, ◌+◌, ◌*◌, ◌^◌, List, ℕ, [], Bool, length, map, pos, negsuc, IfErr, OnOk, Ok, Err, Some};
ghost use Rattle.ark_paths.specs.Pair.{Digest};
ghost use Rattle.ark_trees.specs.Rfc6962.{entry_hash};
ghost use Rattle.log_file.specs.Faults.{log_size, of_first};
ghost use Rattle.log_file.specs.LogFile.{stored_in};
ghost use Rattle.merkle_log.specs.Kept.{front, Keeps};
ghost use Rattle.merkle_log.specs.Stored.{row_at};
ghost use Rattle.paxidore_calls.specs.Answer.{leaves_in, refusal_code};
ghost use Rattle.paxidore_calls.specs.Cut.{parts_by};
ghost use Rattle.paxidore_calls.specs.KeptLog.{log_root};
ghost use Rattle.paxidore_calls.specs.Layouts.{grown_size, log_in, HasLog, IsFirstLost};
ghost use Rattle.paxidore_calls.specs.LogFiles.{AsksFirst, IsReason, TellsWhy, call_code, check_code};
ghost use Rattle.paxidore_calls.specs.Plan.{Grows, HasRead, IsHanded, LeavesSteps};
ghost use Rattle.paxidore_calls.specs.declared.file_calls.not_done.NotDone.TheVariants.{HeadDamaged, More, Refusal};
ghost use Rattle.paxidore_calls.specs.declared.refused.Refused.TheVariants.{Room};

pub mod making;
pub mod proving;

use ark_trees::LogHasher;
use paxidore_calls::file_calls::answers::{root_of, size_of};
use paxidore_calls::file_calls::asked::{Asked, ask};
use paxidore_calls::file_calls::checked::log_laid;
use paxidore_calls::file_calls::grown::hand_over_growth;
use paxidore_calls::file_calls::handed::hand_over_steps;
use paxidore_calls::file_calls::not_done::NotDone;
use paxidore_calls::leaves::digests_of_leaves;
use std::alloc::Global;
use std::marker::Brand;

/// What a caller has read of a log's file, or is to read.
#[repr(C)]
pub struct Pieces<'a> {
    /// Where each piece begins, and how many bytes it has; behind them room for more.
    pub places: &'a mut [[usize; 2]],
    /// How many pieces there are.
    pub places_len: usize,
    /// The bytes of the pieces that were read, one behind the other.
    pub bytes: &'a [u8],
    /// How many bytes the file has.
    pub file_len: usize,
}

/// What a caller is to write to a log's file.
#[repr(C)]
pub struct Steps<'a> {
    /// Where each step begins, and how many bytes it writes.
    pub places: &'a mut [[usize; 2]],
    /// How many steps there are.
    pub places_len: usize,
    /// The bytes of the steps, one behind the other.
    pub bytes: &'a mut [u8],
    /// How many bytes they are.
    pub bytes_len: usize,
}

// The code of a call that was done, or was not.
fn code_of(done: Result<(), NotDone>) -> i32
    ensures code { result ≡ call_code done }
    ensures more { result ≡ negsuc 9 → done ≡ Err More }
    ensures asked { done ≡ Err More → result ≡ negsuc 9 }
    ensures done { result ≡ pos 0 → IfErr done (λ _. ⊥) }
    ensures room { result ≡ refusal_code Room → done ≡ Err (Refusal Room) }
    ensures head { result ≡ negsuc 12 → done ≡ Err HeadDamaged }
{
    match done {
        Ok(()) => 0,
        Err(not_done) => not_done.code(),
    }
}

fn size_in(
    alloc: Global,
    size: &mut usize,
    places: &mut [[usize; 2]],
    places_len: &mut usize,
    file_len: usize,
    pieces: &[u8],
) -> Result<(), NotDone>
    ghost file: { List ℕ }
    ensures first { AsksFirst (result ≡ Err More) file_len places_len.old places_len.new
        places.old places.new }
    ensures size { HasRead file file_len places_len.old places.old pieces.now
        → (leaves : List Digest) → HasLog leaves file
        → OnOk result (size.new ≡ length leaves) }
    ensures refused { HasRead file file_len places_len.old places.old pieces.now
        → IfErr result (IsReason (log_in file) (log_size (log_in file))) }
    ensures size_kept { IfErr result (λ _. size.new ≡ size.old) }
{
    ask(alloc, Asked::Size, file_len, places, places_len, pieces)?;
    *size = size_of::<Brand>(alloc, file_len, &places[..*places_len], pieces)?;
    Ok(())
}

/// Writes how many entries the log of a file has. Its own refusals: `E_NO_LOG`, `E_HEAD`, `E_SHORT`.
#[unsafe(no_mangle)]
pub extern "C" fn paxidore_log_file_size(
    alloc: Global,
    size: &mut usize,
    pieces: &mut Pieces,
) -> i32
    ghost file: { List ℕ }
    ensures first { AsksFirst (result ≡ negsuc 9) pieces.old.file_len pieces.old.places_len
        pieces.new.places_len pieces.old.places.now pieces.new.places.now }
    ensures size { HasRead file pieces.old.file_len pieces.old.places_len pieces.old.places.now
        pieces.old.bytes.now → (leaves : List Digest) → HasLog leaves file → result ≡ pos 0
        → size.new ≡ length leaves }
    ensures refused { HasRead file pieces.old.file_len pieces.old.places_len pieces.old.places.now
        pieces.old.bytes.now → TellsWhy (IsReason (log_in file) (log_size (log_in file))) result }
    ensures size_kept { result ≢ pos 0 → size.new ≡ size.old }
    ensures lent { (pieces.new.places.ghost_name ≡ pieces.old.places.ghost_name)
        × (pieces.new.bytes.now ≡ pieces.old.bytes.now)
        × (pieces.new.file_len ≡ pieces.old.file_len) }
{
    code_of(size_in(
        alloc,
        size,
        pieces.places,
        &mut pieces.places_len,
        pieces.file_len,
        pieces.bytes,
    ))
}

fn root_in(
    alloc: Global,
    root: &mut [u8; 32],
    places: &mut [[usize; 2]],
    places_len: &mut usize,
    file_len: usize,
    pieces: &[u8],
    size: usize,
) -> Result<(), NotDone>
    ghost file: { List ℕ }
    ensures first { AsksFirst (result ≡ Err More) file_len places_len.old places_len.new
        places.old places.new }
    ensures root { HasRead file file_len places_len.old places.old pieces.now
        → (leaves : List Digest) → HasLog leaves file
        → OnOk result ((size ≤ length leaves) × (log_root size leaves ≡ Ok root.new)) }
    ensures refused { HasRead file file_len places_len.old places.old pieces.now
        → IfErr result (IsReason (log_in file) (of_first (log_in file) (Some size) Ok)) }
    ensures root_kept { IfErr result (λ _. root.new ≡ root.old) }
{
    ask(
        alloc,
        Asked::Root(size),
        file_len,
        places,
        places_len,
        pieces,
    )?;
    *root = root_of::<Brand>(alloc, file_len, &places[..*places_len], pieces, size)?;
    Ok(())
}

/// Writes the root of the first `size` entries of the log of a file. Its own refusals: those of the size, `E_DAMAGED`, `E_SIZE` for
/// more than there are.
#[unsafe(no_mangle)]
pub extern "C" fn paxidore_log_file_root(
    alloc: Global,
    root: &mut [u8; 32],
    pieces: &mut Pieces,
    size: usize,
) -> i32
    ghost file: { List ℕ }
    ensures first { AsksFirst (result ≡ negsuc 9) pieces.old.file_len pieces.old.places_len
        pieces.new.places_len pieces.old.places.now pieces.new.places.now }
    ensures root { HasRead file pieces.old.file_len pieces.old.places_len pieces.old.places.now
        pieces.old.bytes.now → (leaves : List Digest) → HasLog leaves file → result ≡ pos 0
        → (size ≤ length leaves) × (log_root size leaves ≡ Ok root.new) }
    ensures refused { HasRead file pieces.old.file_len pieces.old.places_len pieces.old.places.now
        pieces.old.bytes.now
        → TellsWhy (IsReason (log_in file) (of_first (log_in file) (Some size) Ok)) result }
    ensures root_kept { result ≢ pos 0 → root.new ≡ root.old }
    ensures lent { (pieces.new.places.ghost_name ≡ pieces.old.places.ghost_name)
        × (pieces.new.bytes.now ≡ pieces.old.bytes.now)
        × (pieces.new.file_len ≡ pieces.old.file_len) }
{
    code_of(root_in(
        alloc,
        root,
        pieces.places,
        &mut pieces.places_len,
        pieces.file_len,
        pieces.bytes,
        size,
    ))
}

// What is to be read first for so many entries.
fn asked_for(count: usize) -> Asked {
    if count == 0 {
        Asked::Size
    } else {
        Asked::Growth
    }
}

fn append_in(
    alloc: Global,
    bytes: &mut [u8],
    bytes_len: &mut usize,
    steps: &mut [[usize; 2]],
    steps_len: &mut usize,
    size: &mut usize,
    places: &mut [[usize; 2]],
    places_len: &mut usize,
    file_len: usize,
    pieces: &[u8],
    entries: &[u8],
    lengths: &[usize],
) -> Result<(), NotDone>
    ghost file: { List ℕ }
    ensures first { AsksFirst (result ≡ Err More) file_len places_len.old places_len.new
        places.old places.new }
    ensures grows { HasRead file file_len places_len.old places.old pieces.now
        → (leaves : List Digest) → HasLog leaves file → 0 < length lengths.now
        → OnOk result ((xs : List (List ℕ)) × (leaves_in (parts_by entries.now lengths.now) ≡ Ok xs)
        × Grows leaves (map entry_hash xs) file bytes.old bytes.new bytes_len.new
        steps.old steps.new steps_len.new size.new) }
    ensures none { HasRead file file_len places_len.old places.old pieces.now
        → (leaves : List Digest) → HasLog leaves file → length lengths.now ≡ 0
        → OnOk result ((size.new ≡ length leaves)
        × IsHanded [] bytes.old bytes.new bytes_len.new steps.old steps.new steps_len.new) }
    ensures lost { HasRead file file_len places_len.old places.old pieces.now
        → IsFirstLost file → 0 < length lengths.now → OnOk result ⊥ }
    ensures refused { HasRead file file_len places_len.old places.old pieces.now
        → IfErr result (IsReason (log_in file) (grown_size file (length lengths.now))) }
    ensures left { IfErr result (λ why. LeavesSteps (why ≡ Refusal Room) bytes.old bytes.new
        bytes_len.old bytes_len.new steps.old steps.new steps_len.old steps_len.new) }
    ensures size_kept { IfErr result (λ _. size.new ≡ size.old) }
{
    let asked = asked_for(lengths.len());
    ask(alloc, asked, file_len, places, places_len, pieces)?;
    let read = &places[..*places_len];
    let digests = digests_of_leaves::<LogHasher>(alloc, entries, lengths)?;
    if !digests.is_empty() {
        return hand_over_growth::<Brand>(
            alloc, bytes, bytes_len, steps, steps_len, size, read, file_len, pieces, &digests,
        );
    }
    let own = size_of::<Brand>(alloc, file_len, read, pieces)?;
    hand_over_steps(alloc, &[], bytes, bytes_len, steps, steps_len)?;
    *size = own;
    Ok(())
}

/// Hands over what is to be written to the file of a log to append entries, and writes the new size. Its own refusals: `E_LENGTHS`;
/// `E_HEAD` where the first sector of a file with sectors is lost; those of the size, `E_DAMAGED`, `E_SIZE` for a new size of 2^63 and
/// above, `E_ROOM` for `bytes` and `steps`.
#[unsafe(no_mangle)]
pub extern "C" fn paxidore_log_file_append(
    alloc: Global,
    steps: &mut Steps,
    size: &mut usize,
    pieces: &mut Pieces,
    entries: &[u8],
    lengths: &[usize],
) -> i32
    ghost file: { List ℕ }
    ensures first { AsksFirst (result ≡ negsuc 9) pieces.old.file_len pieces.old.places_len
        pieces.new.places_len pieces.old.places.now pieces.new.places.now }

    // Of entries, the steps append the hashes to the log.
    ensures grows { HasRead file pieces.old.file_len pieces.old.places_len pieces.old.places.now
        pieces.old.bytes.now → (leaves : List Digest) → HasLog leaves file
        → 0 < length lengths.now → result ≡ pos 0
        → (xs : List (List ℕ)) × (leaves_in (parts_by entries.now lengths.now) ≡ Ok xs)
        × Grows leaves (map entry_hash xs) file
        steps.old.bytes.now steps.new.bytes.now steps.new.bytes_len
        steps.old.places.now steps.new.places.now steps.new.places_len
        size.new }

    // For none there is no step.
    ensures none { HasRead file pieces.old.file_len pieces.old.places_len pieces.old.places.now
        pieces.old.bytes.now → (leaves : List Digest) → HasLog leaves file
        → length lengths.now ≡ 0 → result ≡ pos 0 → (size.new ≡ length leaves)
        × IsHanded [] steps.old.bytes.now steps.new.bytes.now steps.new.bytes_len
        steps.old.places.now steps.new.places.now steps.new.places_len }

    // Nothing is appended to a file with sectors whose first one is lost.
    ensures lost { HasRead file pieces.old.file_len pieces.old.places_len pieces.old.places.now
        pieces.old.bytes.now → IsFirstLost file → 0 < length lengths.now → result ≢ pos 0 }
    ensures refused { HasRead file pieces.old.file_len pieces.old.places_len pieces.old.places.now
        pieces.old.bytes.now
        → TellsWhy (IsReason (log_in file) (grown_size file (length lengths.now))) result }
    ensures left { result ≢ pos 0 → LeavesSteps (result ≡ refusal_code Room) steps.old.bytes.now
        steps.new.bytes.now steps.old.bytes_len steps.new.bytes_len steps.old.places.now
        steps.new.places.now steps.old.places_len steps.new.places_len }
    ensures size_kept { result ≢ pos 0 → size.new ≡ size.old }
    ensures lent_steps { (steps.new.places.ghost_name ≡ steps.old.places.ghost_name)
        × (steps.new.bytes.ghost_name ≡ steps.old.bytes.ghost_name) }
    ensures lent { (pieces.new.places.ghost_name ≡ pieces.old.places.ghost_name)
        × (pieces.new.bytes.now ≡ pieces.old.bytes.now)
        × (pieces.new.file_len ≡ pieces.old.file_len) }
{
    code_of(append_in(
        alloc,
        steps.bytes,
        &mut steps.bytes_len,
        steps.places,
        &mut steps.places_len,
        size,
        pieces.places,
        &mut pieces.places_len,
        pieces.file_len,
        pieces.bytes,
        entries,
        lengths,
    ))
}

/// Returns whether each stored digest of a pair is the hash of its two, in the log whose file has these bytes.
///
/// Answers: 0 where it is, 1 where one is not; else `E_NO_LOG`, `E_HEAD`, `E_SHORT`.
#[unsafe(no_mangle)]
pub extern "C" fn paxidore_log_file_check(file: &[u8]) -> i32
    ensures answer { (sound : Bool) × (result ≡ check_code (log_size (log_in file.now)) sound) }

    // 0 says: the stored digests of the list of the leaves' own ones stand behind the head.
    ensures sound { result ≡ pos 0 → (size : ℕ) × (log_size (log_in file.now) ≡ Ok size)
        × (let digests = stored_in size (log_in file.now) in
        Keeps (row_at (front size digests) 0) digests) }

    // 1 says: those of no list of the log's size do.
    ensures damaged { result ≡ pos 1 → (leaves : List Digest)
        → log_size (log_in file.now) ≡ Ok (length leaves)
        → Keeps leaves (stored_in (length leaves) (log_in file.now)) → ⊥ }
{
    let log = match log_laid(file) {
        Ok(log) => log,
        Err(fault) => return NotDone::from(fault).code(),
    };
    if log.kept.is_sound() { 0 } else { 1 }
}
