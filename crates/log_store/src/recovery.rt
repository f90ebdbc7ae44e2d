//! What is sound of a damaged log's file, as a new file.

ghost use Rattle.std.specs.Prelude.{◌≡◌, ◌≤◌, ◌<◌, ◌+◌, ◌*◌, ◌^◌, ℕ, List, [], length, take, drop, replicate, unwrap_or, IfOk, OnOk, Ok};
ghost use Rattle.std.specs.Option.{option_map};
ghost use Rattle.sha2.specs.Sha256.{sha256};
ghost use Rattle.ark_paths.specs.Pair.{Digest};
ghost use Rattle.ark_trees.specs.Rfc6962.{node_of};
ghost use Rattle.merkle_log.specs.Log.{merkle_tree_hash};
ghost use Rattle.log_store.specs.Disk.{LeavesOnly};
ghost use Rattle.log_store.specs.Refused.{IsUnrecovered};
ghost use Rattle.log_store.specs.Sound.{HasStored};
ghost use Rattle.log_store.specs.Store.{IsAllFresh, IsNewFile, IsHeadless, IsSettled, LeavesJust};
ghost use Rattle.log_file.specs.LogFile.{file_end, slots_head, IsLogFile};

use crate::ahead::{PART, read_ahead};
use crate::disk::Disk;
use crate::edge::root_at;
use crate::sound::sound_front;
use crate::steps::write_head;
use crate::stop::Stop;
use log_file::fault::Fault;
use log_file::head::{START, has_title, head_bytes, slots_in};
use merkle_log::kept::stored_count;

/// What of a file can be recovered.
#[derive(Clone, Copy)]
pub struct Recovered {
    /// The size that a slot states; `None` where no slot is whole.
    pub stated: Option<usize>,
    /// How many entries, from the first one on, have stored digests that are those of a log: of the stated size at most.
    pub size: usize,
    /// Their root.
    pub root: [u8; 32],
}

// The size that a slot of a head states.
fn stated_in(head: &[u8; START]) -> Option<usize>
    ensures { result ≡ option_map (λ own. own.0) (slots_head head.now) }
{
    match slots_in(head) {
        Some(own) => Some(own.size),
        None => None,
    }
}

// A size that no log is above, where none is stated.
fn limit_of(stated: Option<usize>) -> usize
    ensures fits { result < 2 ^ 63 }
    ensures enough { (size : ℕ) → size < 2 ^ 63 → size ≤ unwrap_or stated size → size ≤ result }
    ensures stated { (size : ℕ) → size ≤ result → size ≤ unwrap_or stated size }
{
    match stated {
        Some(size) => size.min(9223372036854775807),
        None => 9223372036854775807,
    }
}

/// Returns what of a file can be recovered. It changes nothing.
///
/// Errors: `NoLog` where the file is shorter than 96 bytes, or has another title and no whole slot; the disk's refusal.
pub fn recoverable<D: Disk>(disk: &D) -> Result<Recovered, Stop<D::Refusal>>
    ensures stated { D.Obeys disk.now → IfOk result (λ found. found.stated
        ≡ option_map (λ head. head.0) (slots_head (D.seen disk.now))) }

    // The file has the stored digests of a log of this size and root.
    ensures sound { D.Obeys disk.now → IfOk result (λ found. (leaves : List Digest)
        × HasStored leaves (D.seen disk.now) × (length leaves ≡ found.size)
        × (merkle_tree_hash node_of (sha256 []) leaves ≡ Ok found.root)) }

    // It has those of no larger one, up to the size that a slot states.
    ensures longest { D.Obeys disk.now → IfOk result (λ found. (leaves : List Digest)
        → HasStored leaves (D.seen disk.now) → length leaves < 2 ^ 63
        → length leaves ≤ unwrap_or found.stated (length leaves) → length leaves ≤ found.size) }

    // Of the file of a log it is the log.
    ensures log { D.Obeys disk.now → (leaves : List Digest) → IsLogFile leaves (D.seen disk.now)
        → IfOk result (λ found. (found.size ≡ length leaves)
        × (merkle_tree_hash node_of (sha256 []) leaves ≡ Ok found.root)) }
    ensures refused { D.Obeys disk.now → IsUnrecovered (D.seen disk.now) result }
    ensures fits { IfOk result (λ found. found.size < 2 ^ 63) }
    ensures near { IfOk result (λ found. file_end found.size < 2 ^ 64) }
    ensures inside { D.Obeys disk.now → IfOk result (λ found.
        file_end found.size ≤ length (D.seen disk.now)) }
{
    let count = match disk.length() {
        Ok(count) => count,
        Err(refusal) => return Err(Stop::Disk(refusal)),
    };
    if count < START {
        return Err(Stop::Fault(Fault::NoLog));
    }
    let mut bytes = [0; START];
    if let Err(refusal) = disk.read_at(0, &mut bytes) {
        return Err(Stop::Disk(refusal));
    }
    let stated = stated_in(&bytes);
    if stated.is_none() && !has_title(&bytes) {
        return Err(Stop::Fault(Fault::NoLog));
    }
    let size = match sound_front(disk, (count - START) / 32, limit_of(stated)) {
        Ok(size) => size,
        Err(refusal) => return Err(Stop::Disk(refusal)),
    };
    match root_at(disk, size) {
        Ok(root) => Ok(Recovered { stated, size, root }),
        Err(refusal) => Err(Stop::Disk(refusal)),
    }
}

// Copies so many bytes behind the head to a file that has zeros in the place of a head, and syncs.
fn copy_parts<D: Disk>(disk: &D, new: &mut D, count: usize) -> Result<(), D::Refusal>
    requires { 96 + count < 2 ^ 64 }
    ensures obeys { D.Obeys new.new → D.Obeys new.old }
    ensures copied { D.Obeys new.new → D.Obeys disk.now → D.seen new.old ≡ replicate 96 0
        → 96 + count ≤ length (D.seen disk.now)
        → OnOk result (drop 96 (D.seen new.new) ≡ take count (drop 96 (D.seen disk.now))) }
    ensures durable { D.Obeys new.new → D.Obeys disk.now → D.seen new.old ≡ replicate 96 0
        → IsAllFresh (D.fresh new.old) (D.may_leave new.old) (D.seen new.old)
        → 96 + count ≤ length (D.seen disk.now)
        → OnOk result (LeavesJust (D.seen new.new) (D.may_leave new.new)) }

    // A crash at any moment leaves no head, if it left none before.
    ensures any_moment { D.Obeys new.new → D.seen new.old ≡ replicate 96 0
        → ((left : List ℕ) → D.may_leave new.old left → IsHeadless left)
        → LeavesOnly D.moment D.left_since new.old new.new IsHeadless }
{
    let mut part = [0; PART];
    let mut done = 0;
    'parts: while done < count {
        let more = (count - done).min(PART);
        read_ahead(disk, START + done, more, &mut part)?;
        new.write_at(START + done, &part[..more])?;
        done += more;
    }
    new.sync()
}

// The same, to a file that has no byte, or zeros alone in the place of a head.
fn copy_behind<D: Disk>(disk: &D, new: &mut D, count: usize) -> Result<(), D::Refusal>
    requires { 96 + count < 2 ^ 64 }
    ensures obeys { D.Obeys new.new → D.Obeys new.old }
    ensures copied { D.Obeys new.new → D.Obeys disk.now → IsNewFile (D.seen new.old)
        → 96 + count ≤ length (D.seen disk.now)
        → OnOk result (drop 96 (D.seen new.new) ≡ take count (drop 96 (D.seen disk.now))) }
    ensures durable { D.Obeys new.new → D.Obeys disk.now → IsNewFile (D.seen new.old)
        → LeavesJust (D.seen new.old) (D.may_leave new.old)
        → 96 + count ≤ length (D.seen disk.now)
        → OnOk result (LeavesJust (D.seen new.new) (D.may_leave new.new)) }

    // A crash at any moment leaves no head.
    ensures any_moment { D.Obeys new.new → IsNewFile (D.seen new.old)
        → LeavesJust (D.seen new.old) (D.may_leave new.old)
        → LeavesOnly D.moment D.left_since new.old new.new IsHeadless }
{
    let there = new.length()?;
    if there == 0 {
        new.write_at(0, &[0; START])?;
        return copy_parts(disk, new, count);
    }
    copy_parts(disk, new, count)
}

/// Writes what of a file can be recovered to another one, which has no byte, or 96 zeros alone, and syncs. The head is written
/// last, so that a new file that is not done is that of no log. The old file is only read.
///
/// Errors: those of `recoverable`; a refusal of one of the files.
pub fn recover<D: Disk>(disk: &D, new: &mut D) -> Result<Recovered, Stop<D::Refusal>>
    ensures obeys { D.Obeys new.new → D.Obeys new.old }

    // The new file is that of a log, whose digests are among those of the old one, and stays it if one of its slots is lost.
    ensures recovered { D.Obeys new.new → D.Obeys disk.now → IsNewFile (D.seen new.old)
        → IfOk result (λ found. (leaves : List Digest) × HasStored leaves (D.seen disk.now)
        × (length leaves ≡ found.size) × IsSettled leaves (D.seen new.new)) }

    // Of the file of a log it is that of the same log.
    ensures log { D.Obeys new.new → D.Obeys disk.now → IsNewFile (D.seen new.old)
        → (leaves : List Digest) → IsLogFile leaves (D.seen disk.now)
        → OnOk result (IsSettled leaves (D.seen new.new)) }
    ensures refused { D.Obeys disk.now → IsUnrecovered (D.seen disk.now) result }

    // Once it returned, a crash leaves what is read.
    ensures durable { D.Obeys new.new → D.Obeys disk.now → IsNewFile (D.seen new.old)
        → LeavesJust (D.seen new.old) (D.may_leave new.old)
        → OnOk result (LeavesJust (D.seen new.new) (D.may_leave new.new)) }

    // A crash at any moment leaves the file of no log, or of one whose digests are all among those of the old file.
    ensures any_moment { D.Obeys new.new → D.Obeys disk.now → IsNewFile (D.seen new.old)
        → LeavesJust (D.seen new.old) (D.may_leave new.old)
        → LeavesOnly D.moment D.left_since new.old new.new
        (λ left. (leaves : List Digest) → IsLogFile leaves left
        → HasStored leaves (D.seen disk.now)) }
{
    let found = recoverable(disk)?;
    if let Err(refusal) = copy_behind(disk, new, 32 * stored_count(found.size)) {
        return Err(Stop::Disk(refusal));
    }
    match write_head(new, &head_bytes(found.size, &found.root)) {
        Ok(()) => Ok(found),
        Err(refusal) => Err(Stop::Disk(refusal)),
    }
}
