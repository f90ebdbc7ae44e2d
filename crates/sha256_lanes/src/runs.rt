//! Any number of messages, and of pairs of digests. Those that make whole groups are hashed together, the others one by
//! one: nothing outside this file knows how many messages a group has.
//!
//! A group has eight, which are two vectors' lanes where the processor is x86-64-v2. One of four comes behind them, and
//! two stand for a group of eight messages that do not go together.

ghost use Rattle.std.specs.Prelude.{◌≡◌, ◌++◌, ◌≤◌, length, map};
ghost use Rattle.sha2.specs.Sha256.{sha256};
ghost use Rattle.sha256_lanes.specs.Runs.{behind, hash_behind, pair_behind};

use crate::messages::{digest_of, go_together, put_messages};
use crate::pairs::put_plain_pairs;
use crate::prefixed_pairs::put_prefixed_pairs;
use sha2::{Digest, Sha256};

/// Hashes a message, behind the byte `prefix` if there is one.
#[inline]
pub fn digest_of_message(prefix: Option<u8>, message: &[u8]) -> [u8; 32]
    ensures { result ≡ sha256 (behind prefix message.now) }
{
    match prefix {
        None => Sha256::digest(message),
        Some(byte) => digest_of(&[byte], message),
    }
}

/// Hashes left followed by right, behind the byte `prefix` if there is one.
#[inline]
pub fn digest_of_pair(prefix: Option<u8>, left: &[u8], right: &[u8]) -> [u8; 32]
    ensures { result ≡ sha256 (behind prefix (left.now ++ right.now)) }
{
    let mut hasher = Sha256::new();
    if let Some(byte) = prefix {
        hasher.update([byte].as_slice());
    }
    hasher.update(left);
    hasher.update(right);
    hasher.finalize()
}

// Writes the digests of a group of messages, by halves where they do not go together.
fn put_eight_messages(prefix: Option<u8>, messages: &[&[u8]], digests: &mut [[u8; 32]])
    requires messages { length messages.now ≡ 8 }
    requires digests { length digests.old ≡ 8 }
    ensures { digests.new ≡ map (hash_behind prefix) messages.now }
{
    if go_together(prefix, messages) {
        put_messages::<8>(prefix, messages, digests);
    } else {
        put_messages::<4>(prefix, &messages[..4], &mut digests[..4]);
        put_messages::<4>(prefix, &messages[4..], &mut digests[4..]);
    }
}

/// Writes the digest of each message, behind the byte `prefix` if there is one.
pub fn digests_of_messages(prefix: Option<u8>, messages: &[&[u8]], digests: &mut [[u8; 32]])
    requires { length digests.old ≡ length messages.now }
    ensures { digests.new ≡ map (hash_behind prefix) messages.now }
{
    let groups = messages.len() / 8;
    'groups: for group in 0..groups {
        let first = 8 * group;
        put_eight_messages(
            prefix,
            &messages[first..first + 8],
            &mut digests[first..first + 8],
        );
    }
    let mut done = 8 * groups;
    if messages.len() - done >= 4 {
        put_messages::<4>(
            prefix,
            &messages[done..done + 4],
            &mut digests[done..done + 4],
        );
        done += 4;
    }
    'rest: for place in done..messages.len() {
        digests[place] = digest_of_message(prefix, messages[place]);
    }
}

// Writes the digests of a group of pairs.
fn put_pairs<const LANES: usize>(
    prefix: Option<u8>,
    couples: &[(&[u8; 32], &[u8; 32])],
    digests: &mut [[u8; 32]],
)
    requires lanes { LANES ≤ 8 }
    requires couples { length couples.now ≡ LANES }
    requires digests { length digests.old ≡ LANES }
    ensures { digests.new ≡ map (pair_behind prefix) couples.now }
{
    match prefix {
        None => put_plain_pairs::<LANES>(couples, digests),
        Some(byte) => put_prefixed_pairs::<LANES>(byte, couples, digests),
    }
}

/// Writes the digest of left followed by right of each pair, behind the byte `prefix` if there is one.
pub fn digests_of_pairs(
    prefix: Option<u8>,
    couples: &[(&[u8; 32], &[u8; 32])],
    digests: &mut [[u8; 32]],
)
    requires { length digests.old ≡ length couples.now }
    ensures { digests.new ≡ map (pair_behind prefix) couples.now }
{
    let groups = couples.len() / 8;
    'groups: for group in 0..groups {
        let first = 8 * group;
        put_pairs::<8>(
            prefix,
            &couples[first..first + 8],
            &mut digests[first..first + 8],
        );
    }
    let mut done = 8 * groups;
    if couples.len() - done >= 4 {
        put_pairs::<4>(
            prefix,
            &couples[done..done + 4],
            &mut digests[done..done + 4],
        );
        done += 4;
    }
    'rest: for place in done..couples.len() {
        let (left, right) = couples[place];
        digests[place] = digest_of_pair(prefix, left, right);
    }
}
