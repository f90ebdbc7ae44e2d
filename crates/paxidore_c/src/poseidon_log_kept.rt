//! Logs over circomlib's hash of two elements whose stored digests lie in memory of the caller's, as in `log_keeper`.

ghost use Rattle.std.specs.Prelude.{◌≡◌, ◌≢◌, ◌≤◌, ◌+◌, ◌++◌, ℕ, List, [], length, take, drop, pos, true, IfOk, Result, Ok};
ghost use Rattle.std.specs.List.{list_all};
ghost use Rattle.ark_paths.specs.Pair.{Digest};
ghost use Rattle.ark_sponge.specs.Permutation.{Parameters};
ghost use Rattle.circom.specs.Hash.{IsTableOf, SpellsTable, is_element, node_outcome};
ghost use Rattle.merkle_log.specs.Kept.{KeepsBy};
ghost use Rattle.merkle_log.specs.Log.{merkle_tree_hash};
ghost use Rattle.merkle_log.specs.Stored.{stored_count};
ghost use Rattle.paxidore_calls.specs.Answer.{GivesCode, CallGivesBy, Hands, done_code, refusal_code};
ghost use Rattle.paxidore_calls.specs.KeptLog.{more_count};
ghost use Rattle.paxidore_c.specs.PoseidonLog.{OrInvalid, appended_by, elements_appended, kept_path_given, kept_root_given, path_of_elements, root_of_elements};
ghost use Rattle.paxidore_calls.specs.declared.refused.Refused.TheVariants.{Room};
ghost use Rattle.paxidore_calls.specs.declared.refused.Refused.{Refused};

use crate::log_keeper::more_count;
use crate::poseidon_log::table_of_two;
use circom::{CircomTable, are_elements};
use merkle_log::kept::Kept;
use paxidore_calls::buffer::{bytes_of_path, hand_over};
use paxidore_calls::refused::Refused;
use std::alloc::Global;

// The root of the first elements of a kept log.
fn kept_root_of(
    alloc: Global,
    table: &[u8],
    kept: &[[u8; 32]],
    size: usize,
) -> Result<[u8; 32], Refused>
    ensures given { (inputs : ℕ) (c : Parameters) → SpellsTable inputs c table.now
        → (given : Result Digest Refused) × OrInvalid given
        × CallGivesBy (λ root. root) (kept_root_given inputs size kept.now given) result }
    ensures answer { (inputs : ℕ) (c : Parameters) → SpellsTable inputs c table.now
        → (leaves : List Digest) → size ≤ length leaves → KeepsBy (node_outcome c) leaves kept.now
        → CallGivesBy (λ root. root) (kept_root_given inputs size kept.now
        (root_of_elements c (take size leaves))) result }
    ensures root { (inputs : ℕ) (c : Parameters) → SpellsTable inputs c table.now
        → (leaves : List Digest) → size ≤ length leaves → KeepsBy (node_outcome c) leaves kept.now
        → IfOk result
        (λ root. merkle_tree_hash (node_outcome c) [] (take size leaves) ≡ Ok root) }
{
    let table = match table_of_two(alloc, table) {
        Ok(table) => table,
        Err(refused) => return Err(refused),
    };
    let kept = match Kept::of(size, kept) {
        Some(kept) => kept,
        None => return Err(Refused::Size),
    };
    if size == 0 {
        return Err(Refused::Size);
    }
    match circom::kept_log_root(&table, &kept) {
        Ok(root) => Ok(root),
        Err(refusal) => Err(Refused::from(refusal)),
    }
}

/// Writes the root of the first `size` elements of a log to `root`: MTH(D[0:size]).
///
/// Answers: 0; else the first of `E_COUNT` for a table of another count of inputs, `E_SIZE` for fewer digests than such a log has
/// stored and for no elements; `E_MEMORY` in place of any. Where other digests are kept, `E_INVALID` too for one that is not below
/// the modulus. A refusal leaves `root` as before.
#[unsafe(no_mangle)]
pub extern "C" fn paxidore_poseidon_log_root(
    alloc: Global,
    root: &mut [u8; 32],
    table: &[u8],
    kept: &[[u8; 32]],
    size: usize,
) -> i32
    // Of a list of at least `size` elements whose stored digests are kept, it is the root of the first.
    ensures answer { (inputs : ℕ) (c : Parameters) → SpellsTable inputs c table.now
        → (leaves : List Digest) → size ≤ length leaves → KeepsBy (node_outcome c) leaves kept.now
        → GivesCode (done_code (kept_root_given inputs size kept.now
        (root_of_elements c (take size leaves)))) result }
    ensures root { (inputs : ℕ) (c : Parameters) → SpellsTable inputs c table.now
        → (leaves : List Digest) → size ≤ length leaves → KeepsBy (node_outcome c) leaves kept.now
        → result ≡ pos 0 → merkle_tree_hash (node_outcome c) [] (take size leaves) ≡ Ok root.new }

    // Whatever is kept, some digest is given, or one that is hashed is no element.
    ensures given { (inputs : ℕ) (c : Parameters) → SpellsTable inputs c table.now
        → (given : Result Digest Refused) × OrInvalid given
        × GivesCode (done_code (kept_root_given inputs size kept.now given)) result }
    ensures kept { result ≢ pos 0 → root.new ≡ root.old }
{
    match kept_root_of(alloc, table, kept, size) {
        Ok(digest) => {
            *root = digest;
            0
        }
        Err(refused) => refused.code(),
    }
}

// The bytes of the path of an index in the first elements of a kept log.
fn kept_path_of(
    alloc: Global,
    table: &[u8],
    kept: &[[u8; 32]],
    size: usize,
    index: usize,
) -> Result<Vec<u8>, Refused>
    ensures given { (inputs : ℕ) (c : Parameters) → SpellsTable inputs c table.now
        → (given : Result (List ℕ) Refused) × OrInvalid given
        × CallGivesBy (λ bytes. bytes.items) (kept_path_given inputs size index kept.now given)
        result }
    ensures path { (inputs : ℕ) (c : Parameters) → SpellsTable inputs c table.now
        → (leaves : List Digest) → size ≤ length leaves → KeepsBy (node_outcome c) leaves kept.now
        → CallGivesBy (λ bytes. bytes.items) (kept_path_given inputs size index kept.now
        (path_of_elements c index (take size leaves))) result }
{
    let table = match table_of_two(alloc, table) {
        Ok(table) => table,
        Err(refused) => return Err(refused),
    };
    let kept = match Kept::of(size, kept) {
        Some(kept) => kept,
        None => return Err(Refused::Size),
    };
    if size == 0 {
        return Err(Refused::Size);
    }
    if index >= size {
        return Err(Refused::Index);
    }
    let path = match circom::inclusion_path(alloc, &table, &kept, index) {
        Ok(path) => path,
        Err(refusal) => return Err(Refused::from(refusal)),
    };
    bytes_of_path(alloc, &path)
}

/// Writes the bytes of the path of an index of the first `size` elements to the front of `path`, and their count.
///
/// Answers: 0; else the first of `E_COUNT` for a table of another count of inputs, `E_SIZE`, also for no elements, `E_INDEX`,
/// `E_ROOM`, which alone writes the count that is needed; `E_MEMORY` in place of any. Where other digests are kept, `E_INVALID` too, as in
/// `paxidore_poseidon_log_root`. Any other refusal leaves both buffers as before.
#[unsafe(no_mangle)]
pub extern "C" fn paxidore_poseidon_log_inclusion(
    alloc: Global,
    path: &mut [u8],
    path_len: &mut usize,
    table: &[u8],
    kept: &[[u8; 32]],
    size: usize,
    index: usize,
) -> i32
    // Of a list of at least `size` elements whose stored digests are kept, they are those of PATH(index, D[0:size]).
    ensures path { (inputs : ℕ) (c : Parameters) → SpellsTable inputs c table.now
        → (leaves : List Digest) → size ≤ length leaves → KeepsBy (node_outcome c) leaves kept.now
        → Hands (kept_path_given inputs size index kept.now
        (path_of_elements c index (take size leaves)))
        path.old path.new path_len.old path_len.new result }

    // Whatever is kept, some bytes are handed over, or a digest that is hashed is no element.
    ensures given { (inputs : ℕ) (c : Parameters) → SpellsTable inputs c table.now
        → (given : Result (List ℕ) Refused) × OrInvalid given
        × Hands (kept_path_given inputs size index kept.now given)
        path.old path.new path_len.old path_len.new result }
    ensures kept { result ≢ pos 0 → path.new ≡ path.old }
{
    hand_over(
        kept_path_of(alloc, table, kept, size, index),
        path,
        path_len,
    )
}

// Writes those digests by a table of two inputs, and returns the code.
fn append_elements(
    alloc: Global,
    more: &mut [[u8; 32]],
    more_len: &mut usize,
    table: &CircomTable,
    kept: &[[u8; 32]],
    size: usize,
    elements: &[[u8; 32]],
) -> i32
    requires { table.now.inputs ≡ 2 }
    ensures answer { (c : Parameters) → IsTableOf c table.now
        → (leaves : List Digest) → length leaves ≡ size → KeepsBy (node_outcome c) leaves kept.now
        → list_all is_element leaves ≡ true → GivesCode (done_code (appended_by size
        kept.now (length more.old) elements.now (Ok elements.now))) result }
    ensures grows { (c : Parameters) → IsTableOf c table.now
        → result ≡ pos 0 → (leaves : List Digest) → length leaves ≡ size
        → KeepsBy (node_outcome c) leaves kept.now
        → KeepsBy (node_outcome c) (leaves ++ elements.now)
        (take (stored_count size) kept.now ++ take more_len.new more.new) }
    ensures given { (given : Result (List Digest) Refused) × OrInvalid given
        × GivesCode (done_code (appended_by size kept.now (length more.old) elements.now given))
        result }
    ensures counted { result ≡ pos 0 → more_len.new ≡ more_count size (length elements.now) }
    ensures behind { result ≡ pos 0 → drop more_len.new more.new ≡ drop more_len.new more.old }
    ensures room_needed { result ≡ refusal_code Room
        → more_len.new ≡ more_count size (length elements.now) }
    ensures kept { result ≢ pos 0 → more.new ≡ more.old }
    ensures uncounted { result ≢ pos 0 → result ≢ refusal_code Room → more_len.new ≡ more_len.old }
{
    let kept = match Kept::of(size, kept) {
        Some(kept) => kept,
        None => return Refused::Size.code(),
    };
    let count = match more_count(size, elements.len()) {
        Some(count) => count,
        None => return Refused::Size.code(),
    };
    if more.len() < count {
        *more_len = count;
        return Refused::Room.code();
    }
    if !are_elements(elements) {
        return Refused::Invalid.code();
    }
    match circom::appended_digests(alloc, table, &kept, elements) {
        Ok(digests) => {
            *more_len = digests.len();
            more[..digests.len()].copy_from_slice(&digests);
            0
        }
        Err(refusal) => Refused::from(refusal).code(),
    }
}

/// Writes to the front of `more` the digests to put behind the stored ones of a log of `size` elements for more elements, and how
/// many to `more_len`.
///
/// Answers: 0; else the first of `E_COUNT` for a table of another count of inputs, `E_SIZE` for fewer digests than are stored and
/// for a new size of 2^63 and above, `E_ROOM`, which alone writes the count that is needed, `E_INVALID` for an element that is
/// not below the modulus; `E_MEMORY` in place of any. Where other digests are kept, `E_INVALID` too for one that is not below
/// the modulus. Each leaves `more` as before.
#[unsafe(no_mangle)]
pub extern "C" fn paxidore_poseidon_log_append(
    alloc: Global,
    more: &mut [[u8; 32]],
    more_len: &mut usize,
    table: &[u8],
    kept: &[[u8; 32]],
    size: usize,
    elements: &[[u8; 32]],
) -> i32
    // To a list of `size` elements whose stored digests are kept, elements are appended.
    ensures answer { (inputs : ℕ) (c : Parameters) → SpellsTable inputs c table.now
        → (leaves : List Digest) → length leaves ≡ size → KeepsBy (node_outcome c) leaves kept.now
        → list_all is_element leaves ≡ true → GivesCode (done_code (elements_appended inputs size
        kept.now (length more.old) elements.now (Ok elements.now))) result }

    // The stored ones and `more` behind them are the stored digests of the list with the elements behind it.
    ensures grows { (inputs : ℕ) (c : Parameters) → SpellsTable inputs c table.now
        → result ≡ pos 0 → (leaves : List Digest) → length leaves ≡ size
        → KeepsBy (node_outcome c) leaves kept.now
        → KeepsBy (node_outcome c) (leaves ++ elements.now)
        (take (stored_count size) kept.now ++ take more_len.new more.new) }

    // Whatever is kept, some digests are written, or one that is hashed is no element.
    ensures given { (inputs : ℕ) (c : Parameters) → SpellsTable inputs c table.now
        → (given : Result (List Digest) Refused) × OrInvalid given
        × GivesCode (done_code (elements_appended inputs size kept.now (length more.old)
        elements.now
        given)) result }
    ensures counted { result ≡ pos 0 → more_len.new ≡ more_count size (length elements.now) }
    ensures behind { result ≡ pos 0 → drop more_len.new more.new ≡ drop more_len.new more.old }
    ensures room_needed { result ≡ refusal_code Room
        → more_len.new ≡ more_count size (length elements.now) }
    ensures kept { result ≢ pos 0 → more.new ≡ more.old }
    ensures uncounted { result ≢ pos 0 → result ≢ refusal_code Room → more_len.new ≡ more_len.old }
{
    match table_of_two(alloc, table) {
        Ok(table) => append_elements(alloc, more, more_len, &table, kept, size, elements),
        Err(refused) => refused.code(),
    }
}
