//! Messages of any lengths, each behind the same head or none.

ghost use Rattle.std.specs.Prelude.{◌≡◌, Option, ◌++◌, ◌+◌, ◌↔◌, ◌≤◌, IsTrue, length, map};
ghost use Rattle.std.specs.List.{All};
ghost use Rattle.sha2.specs.Sha256.{sha256};
ghost use Rattle.sha256_lanes.specs.Runs.{IsLong, IsShort, hash_behind, headed_hash};

use crate::long_texts::put_long_texts;
use crate::texts::put_texts;
use sha2::{Digest, Sha256};

// Whether a head and a tail make one block with their padding.
#[inline(always)]
fn is_short(head: &[u8], tail: &[u8]) -> bool
    ensures { IsTrue result ↔ (length head.now + length tail.now ≤ 55) }
{
    head.len() + tail.len() <= 55
}

// Whether a head and a tail make two blocks with their padding.
#[inline(always)]
fn is_long(head: &[u8], tail: &[u8]) -> bool
    ensures { IsTrue result ↔ ((56 ≤ length head.now + length tail.now)
        × (length head.now + length tail.now ≤ 119)) }
{
    let used = head.len() + tail.len();
    used >= 56 && used <= 119
}

// Whether all messages are short, behind the head.
#[inline(always)]
fn are_short(head: &[u8], messages: &[&[u8]]) -> bool
    ensures { IsTrue result → All (IsShort head.now) messages.now }
{
    'each: for place in 0..messages.len() {
        if !is_short(head, messages[place]) {
            return false;
        }
    }
    true
}

// Whether all messages are long, behind the head.
#[inline(always)]
fn are_long(head: &[u8], messages: &[&[u8]]) -> bool
    ensures { IsTrue result → All (IsLong head.now) messages.now }
{
    'each: for place in 0..messages.len() {
        if !is_long(head, messages[place]) {
            return false;
        }
    }
    true
}

/// Whether messages are hashed together: all have at most 55 bytes, or all have 56 to 119, the prefix counted.
pub fn go_together(prefix: Option<u8>, messages: &[&[u8]]) -> bool {
    let head: &[u8] = if prefix.is_some() { &[0] } else { &[] };
    are_short(head, messages) || are_long(head, messages)
}

/// Hashes a head followed by a tail.
pub fn digest_of(head: &[u8], tail: &[u8]) -> [u8; 32]
    ensures { result ≡ sha256 (head.now ++ tail.now) }
{
    let mut hasher = Sha256::new();
    hasher.update(head);
    hasher.update(tail);
    hasher.finalize()
}

// It is inlined so that the copy of a head of no bytes is none, and that of one byte a store.
#[inline(always)]
fn put_headed<const LANES: usize>(head: &[u8], messages: &[&[u8]], digests: &mut [[u8; 32]])
    requires lanes { LANES ≤ 8 }
    requires messages { length messages.now ≡ LANES }
    requires digests { length digests.old ≡ LANES }
    ensures { digests.new ≡ map (headed_hash head.now) messages.now }
{
    if are_short(head, messages) {
        put_texts::<LANES>(head, messages, digests);
    } else if are_long(head, messages) {
        put_long_texts::<LANES>(head, messages, digests);
    } else {
        'each: for place in 0..messages.len() {
            digests[place] = digest_of(head, messages[place]);
        }
    }
}

/// Writes the digests of so many messages as there are lanes, each behind the byte `prefix` if there is one. They are
/// hashed together where `go_together` says so.
pub fn put_messages<const LANES: usize>(
    prefix: Option<u8>,
    messages: &[&[u8]],
    digests: &mut [[u8; 32]],
)
    requires lanes { LANES ≤ 8 }
    requires messages { length messages.now ≡ LANES }
    requires digests { length digests.old ≡ LANES }
    ensures { digests.new ≡ map (hash_behind prefix) messages.now }
{
    match prefix {
        None => put_headed::<LANES>(&[], messages, digests),
        Some(byte) => put_headed::<LANES>(&[byte], messages, digests),
    }
}
