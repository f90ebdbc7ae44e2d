//! The head of a log's file: its title, and two slots for its size and its root.

ghost use Rattle.std.specs.Prelude.{◌≡◌, ◌+◌, ◌≤◌, ◌++◌, ◌||◌, Option, length, take, drop};
ghost use Rattle.std.specs.Option.{option_map};
ghost use Rattle.std.specs.Int.{w64, to_le_bytes};
ghost use Rattle.std.specs.Str.{bytes_eq};
ghost use Rattle.sha2.specs.Sha256.{sha256};
ghost use Rattle.log_file.specs.Faults.{no_head};
ghost use Rattle.log_file.specs.LogFile.{file_head, first_word, larger, next_slot, no_statement, slot, slot_fits, slot_front, slot_size, slot_to_take, slots_head, statement, title};

use crate::fault::Fault;
use sha2::{Digest, Sha256};

/// How many bytes stand before the stored digests.
pub const START: usize = 96;

/// How the file of a log begins.
pub const TITLE: [u8; 32] = *b"paxidore log, digests of SHA-256";

/// What the head of a log's file says: the size, and the slot that takes the next one.
#[derive(Clone, Copy)]
pub struct FileHead {
    pub size: usize,
    /// Whether that is the second slot.
    pub is_second_next: bool,
}

/// Returns how a slot of a size begins: the size in eight bytes, the least first, and the first 12 bytes of their SHA-256.
pub fn front_of(size: usize) -> [u8; 20]
    ensures { result ≡ slot_front size }
{
    let word = size.to_le_bytes();
    let digest = Sha256::digest(word.as_slice());
    let mut front = [0; 20];
    front[..8].copy_from_slice(&word);
    front[8..].copy_from_slice(&digest[..12]);
    front
}

/// Returns how a slot ends that states a root: the first 12 bytes of the SHA-256 of the size's eight bytes and the root.
pub fn statement_of(size: usize, root: &[u8; 32]) -> [u8; 12]
    ensures { result ≡ statement size root.now }
{
    let mut bytes = [0; 40];
    bytes[..8].copy_from_slice(&size.to_le_bytes());
    bytes[8..].copy_from_slice(root);
    let digest = Sha256::digest(bytes.as_slice());
    let mut end = [0; 12];
    end.copy_from_slice(&digest[..12]);
    end
}

// Returns how a slot ends that states no root.
fn no_statement_of(size: usize) -> [u8; 12]
    ensures { result ≡ no_statement size }
{
    let word = size.to_le_bytes();
    let digest = Sha256::digest(word.as_slice());
    let mut end = [0; 12];
    end.copy_from_slice(&digest[12..24]);
    end
}

/// Returns the slot of a size and its root.
pub fn slot_of(size: usize, root: &[u8; 32]) -> [u8; 32]
    ensures { result ≡ slot size root.now }
{
    let mut slot = [0; 32];
    slot[..20].copy_from_slice(&front_of(size));
    slot[20..].copy_from_slice(&statement_of(size, root));
    slot
}

// A slot, twice.
fn twice(slot: &[u8; 32]) -> [u8; 64]
    ensures { result ≡ slot.now ++ slot.now }
{
    let mut slots = [0; 64];
    slots[..32].copy_from_slice(slot);
    slots[32..].copy_from_slice(slot);
    slots
}

/// Returns the head of the file of a log: the title, and twice the slot of its size and root.
pub fn head_bytes(size: usize, root: &[u8; 32]) -> [u8; START]
    ensures { result ≡ title ++ (slot size root.now ++ slot size root.now) }
{
    let mut head = [0; START];
    head[..32].copy_from_slice(&TITLE);
    head[32..].copy_from_slice(&twice(&slot_of(size, root)));
    head
}

// The number of the first eight bytes.
fn first_word(bytes: &[u8; 32]) -> usize
    ensures { result ≡ first_word bytes.now }
{
    let mut word = [0; 8];
    word.copy_from_slice(&bytes[..8]);
    usize::from_le_bytes(word)
}

// How a slot begins.
fn front_in(bytes: &[u8; 32]) -> [u8; 20]
    ensures { result ≡ take 20 bytes.now }
{
    let mut front = [0; 20];
    front.copy_from_slice(&bytes[..20]);
    front
}

// How a slot ends.
fn end_in(bytes: &[u8; 32]) -> [u8; 12]
    ensures { result ≡ drop 20 bytes.now }
{
    let mut end = [0; 12];
    end.copy_from_slice(&bytes[20..]);
    end
}

// The size that a slot has, where the slot is whole.
fn size_in_slot(bytes: &[u8; 32]) -> Option<usize>
    ensures { result ≡ slot_size bytes.now }
{
    let size = first_word(bytes);
    if front_in(bytes) == front_of(size) {
        Some(size)
    } else {
        None
    }
}

// Whether the end of a slot states this root, or none.
fn is_stated(end: &[u8; 12], size: usize, root: &[u8; 32]) -> bool
    ensures { result ≡ (bytes_eq end.now (statement size root.now)
        || bytes_eq end.now (no_statement size)) }
{
    *end == statement_of(size, root) || *end == no_statement_of(size)
}

// Whether a slot has this size, and states this root, or none.
fn slot_fits(bytes: &[u8; 32], size: usize, root: &[u8; 32]) -> bool
    ensures { result ≡ slot_fits bytes.now size root.now }
{
    front_in(bytes) == front_of(size) && is_stated(&end_in(bytes), size, root)
}

// The larger size, and the slot that has another.
fn larger(first: Option<usize>, second: Option<usize>) -> Option<FileHead>
    ensures { let seen = option_map (λ head. (head.size, head.is_second_next)) result in
        seen ≡ larger first second }
{
    let is_second_next = match (first, second) {
        (Some(size), Some(other)) => other <= size,
        (_, None) => true,
        (None, Some(_)) => false,
    };
    let size = if is_second_next { first? } else { second? };
    Some(FileHead {
        size,
        is_second_next,
    })
}

// The 32 bytes from a place on.
fn piece(bytes: &[u8], at: usize) -> [u8; 32]
    requires { at + 32 ≤ length bytes.now }
    ensures { result ≡ take 32 (drop at bytes.now) }
{
    let mut piece = [0; 32];
    piece.copy_from_slice(&bytes[at..at + 32]);
    piece
}

/// Returns whether the first 32 bytes are those of a log's file.
pub fn has_title(bytes: &[u8]) -> bool
    requires { 32 ≤ length bytes.now }
    ensures { result ≡ bytes_eq (take 32 bytes.now) title }
{
    piece(bytes, 0) == TITLE
}

/// Returns what the slots of a head say, whatever its title: the larger size of those that are whole. `None` where neither is.
pub fn slots_in(bytes: &[u8]) -> Option<FileHead>
    requires { 96 ≤ length bytes.now }
    ensures { let seen = option_map (λ head. (head.size, head.is_second_next)) result in
        seen ≡ slots_head bytes.now }
{
    larger(
        size_in_slot(&piece(bytes, 32)),
        size_in_slot(&piece(bytes, 64)),
    )
}

/// Returns the head of a log's file; `None` where the bytes are those of no log's. The larger size of the slots that are
/// whole is the log's.
pub fn head_in(bytes: &[u8]) -> Option<FileHead>
    ensures { let seen = option_map (λ head. (head.size, head.is_second_next)) result in
        seen ≡ file_head bytes.now }
{
    if bytes.len() < START {
        return None;
    }
    if !has_title(bytes) {
        return None;
    }
    slots_in(bytes)
}

/// Returns why bytes have no head: `HeadDamaged` where they begin as a log's file does, and else `NoLog`.
pub fn fault_without_head(bytes: &[u8]) -> Fault
    ensures { result ≡ no_head bytes.now }
{
    if bytes.len() < START {
        return Fault::NoLog;
    }
    if has_title(bytes) {
        Fault::HeadDamaged
    } else {
        Fault::NoLog
    }
}

/// Returns whether a slot of the head has this size, and states this root of it or none: `Some(true)` where the first one does,
/// so that the second one may take the next size; else `Some(false)` where the second one does. `None` says that the root is not
/// the one that the log had.
pub fn slot_to_take(head: &[u8], size: usize, root: &[u8; 32]) -> Option<bool>
    requires { 96 ≤ length head.now }
    ensures { result ≡ slot_to_take head.now size root.now }
{
    if slot_fits(&piece(head, 32), size, root) {
        return Some(true);
    }
    if slot_fits(&piece(head, 64), size, root) {
        return Some(false);
    }
    None
}

/// Returns where the slot stands that takes the next size: the second one or the first.
pub fn next_slot(is_second: bool) -> usize
    ensures { result ≡ next_slot is_second }
{
    if is_second { 64 } else { 32 }
}
