//! The log of a file whose bytes are all there. They are not copied: the head of a file with sectors is put together.

ghost use Rattle.std.specs.Prelude.{◌≡◌, ◌≤◌, ◌+◌, ◌*◌, ◌++◌, length, take, drop, IfErr, IfOk, Ok, Err};
ghost use Rattle.std.specs.Simd.{first_chunks};
ghost use Rattle.log_file.specs.Faults.{log_size};
ghost use Rattle.log_file.specs.LogFile.{stored_in, title};
ghost use Rattle.log_store.specs.Sectors.{layout_in};
ghost use Rattle.merkle_log.specs.Kept.{front};
ghost use Rattle.paxidore_calls.specs.Layouts.{log_in};

use log_file::fault::Fault;
use log_file::file::LogFile;
use log_file::head::{START, TITLE, fault_without_head, head_in};
use log_store::{DIGESTS, Layout, SECTOR, layout_of_parts};
use merkle_log::kept::{Kept, is_size, stored_count};

// How a sector begins.
fn sector_from(file: &[u8], at: usize) -> [u8; 64]
    requires { at + 64 ≤ length file.now }
    ensures { result ≡ take 64 (drop at file.now) }
{
    let mut bytes = [0; 64];
    bytes.copy_from_slice(&file[at..at + 64]);
    bytes
}

// How a file lies that may have sectors.
fn layout_whole(file: &[u8]) -> Layout
    requires { 8192 ≤ length file.now }
    ensures { result ≡ layout_in file.now }
{
    let first = sector_from(file, 0);
    let second = sector_from(file, SECTOR);
    layout_of_parts(file.len(), &first, &second)
}

// The bytes of a slot.
fn slot_from(file: &[u8], at: usize) -> [u8; 32]
    requires { at + 32 ≤ length file.now }
    ensures { result ≡ take 32 (drop at file.now) }
{
    let mut slot = [0; 32];
    slot.copy_from_slice(&file[at..at + 32]);
    slot
}

// Two slots.
fn two_slots(first: &[u8; 32], second: &[u8; 32]) -> [u8; 64]
    ensures { result ≡ first.now ++ second.now }
{
    let mut slots = [0; 64];
    slots[..32].copy_from_slice(first);
    slots[32..].copy_from_slice(second);
    slots
}

// The title of a log's file, and two slots.
fn head_of_slots(first: &[u8; 32], second: &[u8; 32]) -> [u8; START]
    ensures { result ≡ title ++ (first.now ++ second.now) }
{
    let mut head = [0; START];
    head[..32].copy_from_slice(&TITLE);
    head[32..].copy_from_slice(&two_slots(first, second));
    head
}

// What stands behind both sectors.
fn behind_sectors(file: &[u8]) -> &[u8]
    requires { 8192 ≤ length file.now }
    ensures { result.now ≡ drop 8192 file.now }
{
    &file[DIGESTS..]
}

// So many digests.
fn digests_from(bytes: &[u8], count: usize) -> &[[u8; 32]]
    requires { 32 * count ≤ length bytes.now }
    ensures digests { result.now ≡ first_chunks 32 count bytes.now }
    ensures count { length result.now ≡ count }
{
    let (digests, _) = bytes[..32 * count].as_chunks::<32>();
    digests
}

// The log of a file that has this head, and these bytes behind it. Errors: as those of `log_in`.
fn log_with_head<'a>(head: &[u8; START], bytes: &'a [u8]) -> Result<LogFile<'a>, Fault>
    ensures size { IfOk result (λ log. log_size (head.now ++ bytes.now) ≡ Ok log.head.size) }
    ensures kept { IfOk result (λ log. log.kept
        ≡ front log.head.size (stored_in log.head.size (head.now ++ bytes.now))) }
    ensures refused { IfErr result (λ fault. log_size (head.now ++ bytes.now) ≡ Err fault) }
{
    let Some(found) = head_in(head) else {
        return Err(fault_without_head(head));
    };
    if !is_size(found.size) {
        return Err(Fault::Short);
    }
    let count = stored_count(found.size);
    if bytes.len() / 32 < count {
        return Err(Fault::Short);
    }
    Ok(LogFile {
        head: found,
        kept: Kept::new(found.size, digests_from(bytes, count)),
    })
}

/// Returns the log of a file that has these bytes.
///
/// Errors: `NoLog`; `HeadDamaged`; `Short`, also for a size of over 63 bits.
pub fn log_laid(file: &[u8]) -> Result<LogFile<'_>, Fault>
    ensures size { IfOk result (λ log. log_size (log_in file.now) ≡ Ok log.head.size) }
    ensures kept { IfOk result (λ log. log.kept
        ≡ front log.head.size (stored_in log.head.size (log_in file.now))) }
    ensures refused { IfErr result (λ fault. log_size (log_in file.now) ≡ Err fault) }
{
    if file.len() < DIGESTS {
        return log_file::file::log_in(file);
    }
    let layout = layout_whole(file);
    match layout {
        Layout::Dense => log_file::file::log_in(file),
        Layout::Apart => {
            let first = slot_from(file, 32);
            let second = slot_from(file, SECTOR + 32);
            let head = head_of_slots(&first, &second);
            log_with_head(&head, behind_sectors(file))
        }
        Layout::SecondAlone => {
            let alone = slot_from(file, SECTOR + 32);
            let part = head_of_slots(&[0; 32], &alone);
            log_with_head(&part, behind_sectors(file))
        }
        Layout::FirstAlone => unreachable!(),
    }
}
