//! An append: the digests, and then the size and the root, in one slot after the other.

ghost use Rattle.std.specs.Prelude.{◌≡◌, ◌≤◌, ◌<◌, ◌+◌, ◌^◌, ◌++◌, ℕ, Bool, List, [], true, Some, length, get_or, IfOk, IsOkUnless, Ok, OnOk};
ghost use Rattle.sha2.specs.Sha256.{sha256};
ghost use Rattle.ark_paths.specs.Pair.{Digest};
ghost use Rattle.ark_trees.specs.Rfc6962.{node_of};
ghost use Rattle.log_store.specs.Disk.{After, LeavesMore, LeavesOnly, TornTwice};
ghost use Rattle.log_store.specs.Store.{AreDurableBehind, IsDurable, IsDurableLog, IsGrowth, IsMidAppend, IsSettled};
ghost use Rattle.merkle_log.specs.Asked.{IsPeak};
ghost use Rattle.merkle_log.specs.Kept.{Keeps, stored_front};
ghost use Rattle.merkle_log.specs.Log.{merkle_tree_hash};
ghost use Rattle.merkle_log.specs.Stored.{row_at, stored_count};
ghost use Rattle.log_store.specs.Refused.{IsRefusedAfter, IsRefusedFor, OnFault};
ghost use Rattle.log_file.specs.Append.{appended_size, HasBehind};
ghost use Rattle.log_file.specs.declared.fault.Fault.TheVariants.{Memory};
ghost use Rattle.log_file.specs.Faults.{log_size};
ghost use Rattle.log_file.specs.LogFile.{file_end, slot_to_take, statement, stored_in, written, IsLogFile};

use crate::disk::Disk;
use crate::edge::{Edge, Whole, root_at};
use crate::log::read_log;
use crate::steps::write_durably;
use crate::stop::Stop;
use ark_base::serialize::CanonicalItem;
use log_file::fault::Fault;
use log_file::head::{START, front_of, next_slot, slot_of, statement_of};
use merkle_log::kept::{append_over, is_size, stored_count};
use std::alloc::Global;
use std::marker::{Brand, PhantomData};

// Returns the bytes of the digests to put behind the stored ones of a log whose peaks these are, for more leaves. They are made
// in a buffer. The disk has the list.
fn bytes_made<D: Disk, W: Whole>(
    alloc: Global,
    _disk: &D,
    size: usize,
    peaks: &[[u8; 32]; 64],
    digests: &[[u8; 32]],
    more: &mut [[u8; 32]],
) -> Result<Vec<u8>, Fault>
    requires size { W.whole.size ≡ size }
    requires whole { stored_count size ≤ length W.whole.digests }
    requires fits { size + length digests.now < 2 ^ 63 }
    requires room { stored_count (size + length digests.now) ≤ stored_count size + length more.old }
    requires peaks { (level place : ℕ) → IsPeak size level place
        → (level < 64) × (get_or peaks.now level [] ≡ get_or (row_at W.whole level) place []) }
    ensures bytes { (leaves : List Digest) → length leaves ≡ size → Keeps leaves W.whole.digests
        → IfOk result (λ bytes. HasBehind leaves (stored_front W.whole) digests.now bytes.items) }
    ensures memory { IsOkUnless result Memory }
{
    let edge = Edge::<W> {
        peaks,
        of: PhantomData,
    };
    let made = append_over(&edge, size, digests, more);
    let mut bytes = Vec::new(alloc);
    <[u8; 32]>::serialize_items(&more[..made], &mut bytes)?;
    Ok(bytes)
}

// The same. It makes the buffer.
fn bytes_over<D: Disk, W: Whole>(
    alloc: Global,
    _disk: &D,
    size: usize,
    peaks: &[[u8; 32]; 64],
    digests: &[[u8; 32]],
) -> Result<Vec<u8>, Fault>
    requires size { W.whole.size ≡ size }
    requires whole { stored_count size ≤ length W.whole.digests }
    requires fits { size + length digests.now < 2 ^ 63 }
    requires peaks { (level place : ℕ) → IsPeak size level place
        → (level < 64) × (get_or peaks.now level [] ≡ get_or (row_at W.whole level) place []) }
    ensures bytes { (leaves : List Digest) → length leaves ≡ size → Keeps leaves W.whole.digests
        → IfOk result (λ bytes. HasBehind leaves (stored_front W.whole) digests.now bytes.items) }
    ensures memory { IsOkUnless result Memory }
{
    let count = stored_count(size + digests.len()) - stored_count(size);
    let mut more = Vec::new(alloc);
    more.resize(count, [0u8; 32])?;
    bytes_made::<D, W>(alloc, _disk, size, peaks, digests, &mut more)
}

// Returns whether the digests of a log of this size end at a place of 64 bits.
fn is_near(size: usize) -> bool
    requires { size < 2 ^ 63 }
    ensures { result ≡ true → file_end size < 2 ^ 64 }
{
    stored_count(size) <= 576460752303423480
}

/// Appends entries with these digests, one at least, to the log of a file, and returns the new size. The log has to be durable,
/// so `make` or `rewrite_head` comes first, and again after an error. It reads the head and at most 128 digests.
///
/// Errors: those of `read_head`, `Damaged`, `Size` for a new size of over 63 bits, `Memory`, also for a size with more bytes
/// than a file has, after which nothing was written; the disk's refusal, after which the file is that of the log before or
/// after, but for the chance that `IsForged` names.
pub fn append<D: Disk>(
    alloc: Global,
    disk: &mut D,
    digests: &[[u8; 32]],
) -> Result<usize, Stop<D::Refusal>>
    requires { 0 < length digests.now }
    ensures obeys { D.Obeys disk.new → D.Obeys disk.old }
    ensures refused { let file = D.seen disk.old in
        let size = appended_size file (length digests.now) in
        D.Obeys disk.new → IsRefusedFor file size result }

    // Behind a fault nothing was written.
    ensures unwritten { D.Obeys disk.new → OnFault result ((D.seen disk.new ≡ D.seen disk.old)
        × ((left : List ℕ) → D.may_leave disk.new left → D.may_leave disk.old left)) }

    // Once it returned, the file is that of the log with the entries; and so it is if one of its two slots is lost.
    ensures acknowledged { D.Obeys disk.new → (leaves : List Digest)
        → IsLogFile leaves (D.seen disk.old)
        → OnOk result (IsSettled (leaves ++ digests.now) (D.seen disk.new)) }

    // And so is what a crash leaves.
    ensures durable { D.Obeys disk.new → (leaves : List Digest)
        → IsLogFile leaves (D.seen disk.old)
        → IsDurable (length leaves) (D.seen disk.old) (D.may_leave disk.old)
        → OnOk result (IsDurableLog (leaves ++ digests.now) (D.seen disk.new)
        (D.may_leave disk.new)) }
    ensures size { D.Obeys disk.new → (leaves : List Digest) → IsLogFile leaves (D.seen disk.old)
        → IfOk result (λ size. size ≡ length leaves + length digests.now) }

    ensures gives { let file = D.seen disk.old in D.Obeys disk.new
        → IfOk result (λ new_size. appended_size file (length digests.now) ≡ Ok new_size) }

    // A crash at any moment leaves the log as it was, or with the entries; or a slot is forged. It may take the slot that is being
    // written: the other one has the log as it was, or with the entries.
    ensures any_moment { D.Obeys disk.new → (leaves : List Digest)
        → IsLogFile leaves (D.seen disk.old)
        → IsDurable (length leaves) (D.seen disk.old) (D.may_leave disk.old)
        → LeavesOnly D.moment D.left_since disk.old disk.new
        (IsMidAppend leaves digests.now (D.seen disk.old)) }

    // Whatever it returned, so is what is read.
    ensures left { D.Obeys disk.new → (leaves : List Digest) → IsLogFile leaves (D.seen disk.old)
        → IsMidAppend leaves digests.now (D.seen disk.old) (D.seen disk.new) }

    // Of the log that is read then a crash leaves the digests: its head may be written again.
    ensures kept { D.Obeys disk.new → (leaves : List Digest) → IsLogFile leaves (D.seen disk.old)
        → IsDurable (length leaves) (D.seen disk.old) (D.may_leave disk.old)
        → AreDurableBehind leaves digests.now (D.seen disk.new) (D.may_leave disk.new) }
{
    let log = read_log(disk)?;
    let size = log.size.saturating_add(digests.len());
    if !is_size(size) {
        return Err(Stop::Fault(Fault::Size));
    }
    if !is_near(size) {
        return Err(Stop::Fault(Fault::Memory));
    }
    let bytes = match bytes_over::<D, Brand>(alloc, disk, log.size, &log.peaks, digests) {
        Ok(bytes) => bytes,
        Err(fault) => return Err(Stop::Fault(fault)),
    };
    let place = START + 32 * stored_count(log.size);
    match write_all(disk, place, &bytes, log.is_second_free, size) {
        Ok(()) => Ok(size),
        Err(refusal) => Err(Stop::Disk(refusal)),
    }
}

/// Appends as `append` does, where the log has this size and root.
///
/// Errors: `Other` where it has another, after which nothing was written; those of `append`.
pub fn append_after<D: Disk>(
    alloc: Global,
    disk: &mut D,
    size: usize,
    root: &[u8; 32],
    digests: &[[u8; 32]],
) -> Result<usize, Stop<D::Refusal>>
    requires { 0 < length digests.now }
    ensures obeys { D.Obeys disk.new → D.Obeys disk.old }
    ensures refused { let file = D.seen disk.old in D.Obeys disk.new → IsRefusedAfter file size
        root.now (appended_size file (length digests.now)) result }

    // Behind a fault nothing was written.
    ensures unwritten { D.Obeys disk.new → OnFault result ((D.seen disk.new ≡ D.seen disk.old)
        × ((left : List ℕ) → D.may_leave disk.new left → D.may_leave disk.old left)) }

    // Of every file: a slot has this size, and states this root or none.
    ensures after { D.Obeys disk.new → OnOk result ((log_size (D.seen disk.old) ≡ Ok size)
        × ((second : Bool) × (slot_to_take (D.seen disk.old) size root.now ≡ Some second))) }
    ensures log { D.Obeys disk.new → (leaves : List Digest) → IsLogFile leaves (D.seen disk.old)
        → OnOk result ((length leaves ≡ size)
        × (merkle_tree_hash node_of (sha256 []) leaves ≡ Ok root.now)) }
    ensures gives { let file = D.seen disk.old in D.Obeys disk.new
        → IfOk result (λ new_size. appended_size file (length digests.now) ≡ Ok new_size) }
    ensures acknowledged { D.Obeys disk.new → (leaves : List Digest)
        → IsLogFile leaves (D.seen disk.old)
        → OnOk result (IsSettled (leaves ++ digests.now) (D.seen disk.new)) }
    ensures durable { D.Obeys disk.new → (leaves : List Digest)
        → IsLogFile leaves (D.seen disk.old)
        → IsDurable (length leaves) (D.seen disk.old) (D.may_leave disk.old)
        → OnOk result (IsDurableLog (leaves ++ digests.now) (D.seen disk.new)
        (D.may_leave disk.new)) }
    ensures any_moment { D.Obeys disk.new → (leaves : List Digest)
        → IsLogFile leaves (D.seen disk.old)
        → IsDurable (length leaves) (D.seen disk.old) (D.may_leave disk.old)
        → LeavesOnly D.moment D.left_since disk.old disk.new
        (IsMidAppend leaves digests.now (D.seen disk.old)) }
    ensures left { D.Obeys disk.new → (leaves : List Digest) → IsLogFile leaves (D.seen disk.old)
        → IsMidAppend leaves digests.now (D.seen disk.old) (D.seen disk.new) }
    ensures kept { D.Obeys disk.new → (leaves : List Digest) → IsLogFile leaves (D.seen disk.old)
        → IsDurable (length leaves) (D.seen disk.old) (D.may_leave disk.old)
        → AreDurableBehind leaves digests.now (D.seen disk.new) (D.may_leave disk.new) }
{
    let log = read_log(disk)?;
    if !log.is(size, root) {
        return Err(Stop::Fault(Fault::Other));
    }
    append(alloc, disk, digests)
}

// Writes digests, and the statement of the root that they lead to where a slot ends that is free, and syncs. It returns the
// root of the log of this size.
fn write_behind<D: Disk>(
    disk: &mut D,
    place: usize,
    bytes: &[u8],
    slot_end: usize,
    size: usize,
) -> Result<[u8; 32], D::Refusal>
    requires fits { size < 2 ^ 63 }
    requires near { file_end size < 2 ^ 64 }
    requires apart { slot_end + 12 ≤ place }
    ensures obeys { D.Obeys disk.new → D.Obeys disk.old }
    ensures written { D.Obeys disk.new → place ≤ length (D.seen disk.old)
        → IfOk result (λ root. let file = written (D.seen disk.old) place bytes.now in
        D.seen disk.new ≡ written file slot_end (statement size root)) }
    ensures torn { D.Obeys disk.new → place ≤ length (D.seen disk.old)
        → TornTwice place bytes.now slot_end 12 (D.seen disk.old) (D.seen disk.new) }
    ensures root { D.Obeys disk.new → place ≤ length (D.seen disk.old) → (leaves : List Digest)
        → length leaves ≡ size → let file = written (D.seen disk.old) place bytes.now in
        file_end size ≤ length file → Keeps leaves (stored_in (length leaves) file)
        → IfOk result (λ root. merkle_tree_hash node_of (sha256 []) leaves ≡ Ok root) }
    ensures durable { D.Obeys disk.new → place ≤ length (D.seen disk.old)
        → IfOk result (λ root. LeavesMore (λ before left. left ≡ written
        (written before place bytes.now) slot_end (statement size root))
        (D.may_leave disk.old) (D.may_leave disk.new)) }
    ensures any_moment { D.Obeys disk.new → place ≤ length (D.seen disk.old)
        → LeavesOnly D.moment D.left_since disk.old disk.new
        (After (TornTwice place bytes.now slot_end 12) (D.may_leave disk.old)) }
{
    disk.write_at(place, bytes)?;
    let root = root_at(disk, size)?;
    disk.write_at(slot_end, &statement_of(size, &root))?;
    disk.sync()?;
    Ok(root)
}

// Writes digests, and then the size and the root to both slots, of which the first one is free.
fn write_all<D: Disk>(
    disk: &mut D,
    place: usize,
    bytes: &[u8],
    is_second_free: bool,
    size: usize,
) -> Result<(), D::Refusal>
    requires fits { size < 2 ^ 63 }
    requires near { file_end size < 2 ^ 64 }
    requires behind { 96 ≤ place }
    ensures obeys { D.Obeys disk.new → D.Obeys disk.old }
    ensures acknowledged { D.Obeys disk.new → (leaves more : List Digest)
        → IsGrowth leaves more (D.seen disk.old) bytes.now is_second_free
        → place ≡ file_end (length leaves) → size ≡ length (leaves ++ more)
        → OnOk result (IsSettled (leaves ++ more) (D.seen disk.new)) }
    ensures durable { D.Obeys disk.new → (leaves more : List Digest)
        → IsGrowth leaves more (D.seen disk.old) bytes.now is_second_free
        → place ≡ file_end (length leaves) → size ≡ length (leaves ++ more)
        → IsDurable (length leaves) (D.seen disk.old) (D.may_leave disk.old)
        → OnOk result (IsDurableLog (leaves ++ more) (D.seen disk.new) (D.may_leave disk.new)) }
    ensures any_moment { D.Obeys disk.new → (leaves more : List Digest)
        → IsGrowth leaves more (D.seen disk.old) bytes.now is_second_free
        → place ≡ file_end (length leaves) → size ≡ length (leaves ++ more)
        → IsDurable (length leaves) (D.seen disk.old) (D.may_leave disk.old)
        → LeavesOnly D.moment D.left_since disk.old disk.new
        (IsMidAppend leaves more (D.seen disk.old)) }
    ensures left { D.Obeys disk.new → (leaves more : List Digest)
        → IsGrowth leaves more (D.seen disk.old) bytes.now is_second_free
        → place ≡ file_end (length leaves) → size ≡ length (leaves ++ more)
        → IsMidAppend leaves more (D.seen disk.old) (D.seen disk.new) }
    ensures kept { D.Obeys disk.new → (leaves more : List Digest)
        → IsGrowth leaves more (D.seen disk.old) bytes.now is_second_free
        → place ≡ file_end (length leaves) → size ≡ length (leaves ++ more)
        → IsDurable (length leaves) (D.seen disk.old) (D.may_leave disk.old)
        → AreDurableBehind leaves more (D.seen disk.new) (D.may_leave disk.new) }
{
    let free = next_slot(is_second_free);
    let root = write_behind(disk, place, bytes, free + 20, size)?;
    write_durably(disk, free, &front_of(size))?;
    write_durably(disk, next_slot(!is_second_free), &slot_of(size, &root))
}
