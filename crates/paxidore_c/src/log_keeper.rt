//! Keepers of a transparency log of any size (RFC 6962 and RFC 9162, section 2.1), whose stored digests lie in memory of the
//! caller's.
//!
//! The stored digests are those of the log's complete subtrees, in the order in which they are completed: 2n less the count of
//! ones of n for n entries. They only grow. Where other digests are kept, each call answers all the same.

ghost use Rattle.std.specs.Prelude.{◌≡◌, ◌≢◌, ◌<◌, ◌≤◌, ◌++◌, ◌^◌, ℕ, List, [], length, map, take, drop, pos, nat_lt, if◌then◌else◌, true, false, Bool, IfOk, MatchOption, Ok};
ghost use Rattle.std.specs.List.{flat_map};
ghost use Rattle.ark_base.specs.Digits.{itself};
ghost use Rattle.ark_paths.specs.Pair.{Digest};
ghost use Rattle.ark_trees.specs.Rfc6962.{entry_hash, node_of};
ghost use Rattle.merkle_log.specs.Kept.{front, has_front, Keeps};
ghost use Rattle.merkle_log.specs.Received.{ShowsLogLeaf, consistency_length, inclusion_length};
ghost use Rattle.merkle_log.specs.Stored.{row_at, stored_count};
ghost use Rattle.paxidore_calls.specs.Answer.{GivesCode, CallGivesBy, Hands, done_code, refusal_code, verdict_code};
ghost use Rattle.paxidore_calls.specs.KeptLog.{appended, consistency_bytes, digest_hashes, digest_shown, if_inside, if_kept, if_older, inclusion_bytes, joined_count, kept_code, log_root, more_count, takes};
ghost use Rattle.paxidore_calls.specs.LogProofs.{proof_digests};
ghost use Rattle.paxidore_calls.specs.declared.refused.Refused.TheVariants.{Memory, Room, Size};

use ark_base::error::Error;
use ark_base::serialize::CanonicalItem;
use ark_paths::hasher::TreeHasher;
use ark_trees::LogHasher;
use merkle_log::kept::{Kept, can_stand_behind, is_size, join_kept, stored_count};
use merkle_log::path_lengths::{consistency_length, inclusion_length};
use merkle_log::verify_inclusion_bytes;
use paxidore_calls::buffer::hand_over_digests;
use paxidore_calls::leaves::digests_of_leaves;
use paxidore_calls::refused::{Refused, verdict_code};
use std::alloc::Global;

/// Returns how many digests a log of this size has stored; 0 for a size of 2^63 and above.
#[unsafe(no_mangle)]
pub extern "C" fn paxidore_log_kept(size: usize) -> usize
    ensures { result ≡ (if nat_lt size (2 ^ 63) then stored_count size else 0) }
{
    if is_size(size) { stored_count(size) } else { 0 }
}

/// Writes the root of the first `size` entries of a log to `root`: MTH(D[0:size]), and of none the SHA-256 of nothing.
///
/// Answers: 0; else `E_SIZE` for fewer digests than such a log has stored, which leaves `root` as before.
#[unsafe(no_mangle)]
pub extern "C" fn paxidore_log_root(root: &mut [u8; 32], kept: &[[u8; 32]], size: usize) -> i32
    ensures answer { result ≡ kept_code size kept.now }

    // Of a list of at least `size` leaf digests whose stored ones are kept, it is the root of the first.
    ensures root { result ≡ pos 0 → (leaves : List Digest) → size ≤ length leaves
        → Keeps leaves kept.now → log_root size leaves ≡ Ok root.new }
    ensures kept { result ≢ pos 0 → root.new ≡ root.old }
{
    match Kept::of(size, kept) {
        Some(kept) => {
            *root = kept.root();
            0
        }
        None => Refused::Size.code(),
    }
}

// Writes the bytes of the path of an index, by way of its digests.
fn hand_over_inclusion(
    kept: &Kept,
    index: usize,
    digests: &mut [[u8; 32]],
    path: &mut [u8],
    path_len: &mut usize,
) -> i32
    requires inside { index < kept.now.size }
    requires room { length digests.old ≡ inclusion_length kept.now.size index }
    ensures path { (leaves : List Digest) → kept.now.size ≤ length leaves
        → Keeps leaves kept.now.digests → Hands (inclusion_bytes kept.now.size index leaves)
        path.old path.new path_len.old path_len.new result }
    ensures given { (bytes : List ℕ)
        × Hands (Ok bytes) path.old path.new path_len.old path_len.new result }
    ensures no_memory { result ≢ refusal_code Memory }
{
    kept.write_inclusion_path(index, digests);
    hand_over_digests(digests, path, path_len)
}

/// Writes the bytes of the path of an index of the first `size` entries to the front of `path`, and their count.
///
/// Answers: 0; else the first of `E_SIZE`, `E_INDEX`, `E_ROOM`, which alone writes the count that is needed. Any other refusal
/// leaves both buffers as before.
#[unsafe(no_mangle)]
pub extern "C" fn paxidore_log_inclusion(
    path: &mut [u8],
    path_len: &mut usize,
    kept: &[[u8; 32]],
    size: usize,
    index: usize,
) -> i32
    // Of a list of at least `size` leaf digests whose stored ones are kept, they are those of PATH(index, D[0:size]).
    ensures path { (leaves : List Digest) → size ≤ length leaves → Keeps leaves kept.now
        → Hands (if_inside size index kept.now (inclusion_bytes size index leaves)) path.old
        path.new path_len.old path_len.new result }

    // Whatever is kept, some bytes are handed over.
    ensures given { (bytes : List ℕ)
        × (Hands (if_inside size index kept.now (Ok bytes)) path.old path.new path_len.old
        path_len.new result) }
    ensures no_memory { result ≢ refusal_code Memory }
{
    let Some(kept) = Kept::of(size, kept) else {
        return Refused::Size.code();
    };
    if index >= size {
        return Refused::Index.code();
    }
    let mut digests = [[0; 32]; 64];
    let length = inclusion_length(size as u64, index as u64) as usize;
    hand_over_inclusion(&kept, index, &mut digests[..length], path, path_len)
}

// Writes the bytes of the consistency proof of an old size, by way of its digests.
fn hand_over_consistency(
    kept: &Kept,
    old_size: usize,
    digests: &mut [[u8; 32]],
    proof: &mut [u8],
    proof_len: &mut usize,
) -> i32
    requires some { 0 < old_size }
    requires inside { old_size ≤ kept.now.size }
    requires room { length digests.old ≡ consistency_length old_size kept.now.size }
    ensures proof { (leaves : List Digest) → kept.now.size ≤ length leaves
        → Keeps leaves kept.now.digests → Hands (consistency_bytes old_size kept.now.size leaves)
        proof.old proof.new proof_len.old proof_len.new result }
    ensures given { (bytes : List ℕ)
        × Hands (Ok bytes) proof.old proof.new proof_len.old proof_len.new result }
    ensures no_memory { result ≢ refusal_code Memory }
{
    kept.write_consistency_path(old_size, digests);
    hand_over_digests(digests, proof, proof_len)
}

/// Writes the bytes of the proof that the first `size` entries continue the first `old_size` ones to the front of `proof`, and
/// their count.
///
/// Answers: 0; else the first of `E_SIZE`, also for the old size 0 and for one above the size, and `E_ROOM`, which alone writes
/// the count that is needed. Any other refusal leaves both buffers as before.
#[unsafe(no_mangle)]
pub extern "C" fn paxidore_log_consistency(
    proof: &mut [u8],
    proof_len: &mut usize,
    kept: &[[u8; 32]],
    old_size: usize,
    size: usize,
) -> i32
    // Of a list of at least `size` leaf digests whose stored ones are kept, they are those of PROOF(old_size, D[0:size]).
    ensures proof { (leaves : List Digest) → size ≤ length leaves → Keeps leaves kept.now
        → Hands (if_older old_size size kept.now (consistency_bytes old_size size leaves)) proof.old
        proof.new proof_len.old proof_len.new result }

    // Whatever is kept, some bytes are handed over.
    ensures given { (bytes : List ℕ)
        × (Hands (if_older old_size size kept.now (Ok bytes)) proof.old proof.new proof_len.old
        proof_len.new result) }
    ensures no_memory { result ≢ refusal_code Memory }
{
    let Some(kept) = Kept::of(size, kept) else {
        return Refused::Size.code();
    };
    if old_size == 0 || size < old_size {
        return Refused::Size.code();
    }
    let mut digests = [[0; 32]; 64];
    let length = consistency_length(old_size as u64, size as u64) as usize;
    hand_over_consistency(&kept, old_size, &mut digests[..length], proof, proof_len)
}

// Returns whether a log of this size takes so many leaves more: their sum is a size.
pub(crate) fn can_take(size: usize, count: usize) -> bool
    ensures { result ≡ takes size count }
{
    is_size(size.saturating_add(count))
}

// How many digests stand behind the stored ones for so many leaves more; `None` where the sum is no size.
pub(crate) fn more_count(size: usize, count: usize) -> Option<usize>
    requires { size < 2 ^ 63 }
    ensures { MatchOption result (takes size count ≡ false)
        (λ more. (takes size count ≡ true) × (more ≡ more_count size count)) }
{
    let grown = size.saturating_add(count);
    if !is_size(grown) {
        return None;
    }
    Some(stored_count(grown) - stored_count(size))
}

/// Writes to the front of `more` the digests to put behind the stored ones of a log of `size` entries for more entries, and how
/// many to `more_len`.
///
/// Answers: 0; else the first of `E_SIZE` for fewer digests than are stored and for a new size of 2^63 and above, `E_ROOM`,
/// which alone writes the count that is needed, `E_LENGTHS`; `E_MEMORY` in place of any. Each leaves `more` as before.
#[unsafe(no_mangle)]
pub extern "C" fn paxidore_log_append(
    alloc: Global,
    more: &mut [[u8; 32]],
    more_len: &mut usize,
    kept: &[[u8; 32]],
    size: usize,
    entries: &[u8],
    lengths: &[usize],
) -> i32
    ensures answer { GivesCode (done_code (appended size kept.now (length more.old) entries.now
        lengths.now)) result }

    // Of a list of `size` leaf digests whose stored ones are kept: these and `more` behind them are the stored digests of the
    // list with the entries' digests behind it.
    ensures grows { result ≡ pos 0
        → IfOk (appended size kept.now (length more.old) entries.now lengths.now)
        (λ xs. (leaves : List Digest) → length leaves ≡ size → Keeps leaves kept.now
        → Keeps (leaves ++ map entry_hash xs) (take (stored_count size) kept.now ++ take
        more_len.new more.new)) }
    ensures counted { result ≡ pos 0 → more_len.new ≡ more_count size (length lengths.now) }
    ensures behind { result ≡ pos 0 → drop more_len.new more.new ≡ drop more_len.new more.old }
    ensures room_needed { result ≡ refusal_code Room
        → more_len.new ≡ more_count size (length lengths.now) }
    ensures kept { result ≢ pos 0 → more.new ≡ more.old }
    ensures uncounted { result ≢ pos 0 → result ≢ refusal_code Room → more_len.new ≡ more_len.old }
{
    let Some(kept) = Kept::of(size, kept) else {
        return Refused::Size.code();
    };
    let Some(count) = more_count(size, lengths.len()) else {
        return Refused::Size.code();
    };
    if more.len() < count {
        *more_len = count;
        return Refused::Room.code();
    }
    match digests_of_leaves::<LogHasher>(alloc, entries, lengths) {
        Ok(digests) => {
            *more_len = merkle_log::kept::append_kept(&kept, &digests, more);
            0
        }
        Err(refused) => refused.code(),
    }
}

/// Writes to the front of `more` the digests to put behind the stored ones of a log of `size` entries for those of a part, whose own
/// `part_size` entries were hashed apart, and how many to `more_len`. They are those that an append of the entries writes.
///
/// Answers: 0; else the first of `E_SIZE` for fewer digests than are stored, of the log or of the part, for a new size of 2^63 and
/// above, and where no power of two that is at least `part_size` divides `size`, and `E_ROOM`, which alone writes the count that is
/// needed. Each leaves `more` as before.
#[unsafe(no_mangle)]
pub extern "C" fn paxidore_log_join(
    more: &mut [[u8; 32]],
    more_len: &mut usize,
    kept: &[[u8; 32]],
    size: usize,
    part: &[[u8; 32]],
    part_size: usize,
) -> i32
    ensures answer { result
        ≡ done_code (joined_count size kept.now part_size part.now (length more.old)) }

    // Of two lists of leaf digests, of `size` and of `part_size`, whose stored ones are kept: those of the log and `more` behind them
    // are the stored digests of the one list with the other behind it.
    ensures grows { (leaves entries : List Digest) → result ≡ pos 0 → length leaves ≡ size
        → length entries ≡ part_size → Keeps leaves kept.now → Keeps entries part.now
        → Keeps (leaves ++ entries) (take (stored_count size) kept.now ++ take
        more_len.new more.new) }
    ensures counted { result ≡ pos 0 → more_len.new ≡ more_count size part_size }
    ensures behind { result ≡ pos 0 → drop more_len.new more.new ≡ drop more_len.new more.old }
    ensures room_needed { result ≡ refusal_code Room → more_len.new ≡ more_count size part_size }
    ensures kept { result ≢ pos 0 → more.new ≡ more.old }
    ensures uncounted { result ≢ pos 0 → result ≢ refusal_code Room → more_len.new ≡ more_len.old }
    ensures no_memory { result ≢ refusal_code Memory }
{
    let Some(kept) = Kept::of(size, kept) else {
        return Refused::Size.code();
    };
    let Some(part) = Kept::of(part_size, part) else {
        return Refused::Size.code();
    };
    let Some(count) = more_count(size, part_size) else {
        return Refused::Size.code();
    };
    if !can_stand_behind(size, part_size) {
        return Refused::Size.code();
    }
    if count > more.len() {
        *more_len = count;
        return Refused::Room.code();
    }
    *more_len = join_kept(&kept, &part, more);
    0
}

/// Returns whether each stored digest of a pair is the hash of its two.
///
/// Answers: 0 where it is, 1 where one is not; else `E_SIZE` for fewer digests than a log of this size has stored.
#[unsafe(no_mangle)]
pub extern "C" fn paxidore_log_check(kept: &[[u8; 32]], size: usize) -> i32
    ensures answer { (holds : Bool) × (result ≡ verdict_code (if_kept size kept.now (Ok holds))) }

    // 0 says: the stored digests of the list of the leaves' own ones are kept.
    ensures sound { result ≡ pos 0 → Keeps (row_at (front size kept.now) 0) kept.now }

    // 1 says: those of no list of this size are kept.
    ensures damaged { result ≡ pos 1 → (leaves : List Digest) → length leaves ≡ size
        → Keeps leaves kept.now → ⊥ }
{
    match Kept::of(size, kept) {
        Some(kept) => { if kept.is_sound() { 0 } else { 1 } }
        None => Refused::Size.code(),
    }
}

// A log whose entries are given by their digests.
pub(crate) struct DigestHasher;

impl TreeHasher<[u8; 32], [u8; 32]> for DigestHasher {
    type Leaf = [u8; 32];

    ghost hashes = { λ _. digest_hashes };

    fn leaf(&self, _alloc: Global, leaf: &[u8; 32]) -> Result<[u8; 32], Error> {
        Ok(*leaf)
    }

    fn bottom(&self, alloc: Global, left: &[u8; 32], right: &[u8; 32]) -> Result<[u8; 32], Error> {
        LogHasher.bottom(alloc, left, right)
    }

    fn upper(&self, alloc: Global, left: &[u8; 32], right: &[u8; 32]) -> Result<[u8; 32], Error> {
        LogHasher.upper(alloc, left, right)
    }

    ghost decided = { λ _. record {
      leaf = λ _. tt;
      bottom = λ _ _. tt;
      upper = λ _ _. tt;
    } };
}

/// Returns whether the bytes of a path show the digest of an entry at an index of a log with this root and size.
///
/// Answers: 0 for a yes, 1 for another root; else the first of `E_INDEX`, `E_TRUNCATED`, `E_INVALID` for bytes of more
/// digests than such a path has; `E_MEMORY` in place of any.
#[unsafe(no_mangle)]
pub extern "C" fn paxidore_log_verify_inclusion_digest(
    alloc: Global,
    root: &[u8; 32],
    size: usize,
    index: usize,
    digest: &[u8; 32],
    path: &[u8],
) -> i32
    ensures answer { GivesCode (verdict_code (digest_shown root.now size index digest.now path.now))
        result }

    // 0 says: in every log with this root and size the digest stands at the index, or at some level the path's pair and that of
    // the log's tree differ and hash alike.
    ensures shows { result ≡ pos 0 → ShowsLogLeaf digest_hashes root.now size index digest.now
        (proof_digests (inclusion_length size index) path.now) }
{
    if index >= size {
        return Refused::Index.code();
    }
    let (size, index) = (size as u64, index as u64);
    verdict_code(verify_inclusion_bytes(alloc, &DigestHasher, root, size, index, digest, path))
}
