//! Entries and forks in memory, and the numbers that name them.

ghost use Rattle.std.specs.Prelude.{◌≡◌, ◌<◌, ◌+◌, ◌*◌, ◌++◌, length, replicate, set, take, IfOk, IfErr, OnErr};
ghost use Rattle.ark_base.specs.Digits.{number_of_bytes};
ghost use Rattle.kept_map.specs.KeptMap.{kept_digest, entry_in, left_at, right_at};
ghost use Rattle.kept_map.specs.Parts.{part_number, IsThere};
ghost use Rattle.kept_map.specs.declared.head.MapFault.TheVariants.{NoMap};

use crate::digests::put_digest;
use crate::head::MapFault;

/// What a number names.
#[derive(Clone, Copy, Debug, PartialEq, Eq)]
pub enum Part {
    /// No entry.
    Nothing,
    /// The entry at a place.
    Entry(usize),
    /// The fork at a place.
    Fork(usize),
}

/// Returns what a number names among the first entries and forks, so many of each. The error is that it names nothing there.
pub(crate) fn part_of(number: u64, entries: usize, forks: usize) -> Result<Part, MapFault>
    ensures number { IfOk result (λ part. part_number part ≡ number) }
    ensures among { IfOk result (λ part. IsThere entries forks part) }
    ensures none { OnErr result ((part : Part) → part_number part ≡ number
        → IsThere entries forks part → ⊥) }
    ensures fault { IfErr result (λ fault. fault ≡ NoMap) }
{
    if number == 0 {
        return Ok(Part::Nothing);
    }
    let place = ((number - 1) / 2) as usize;
    if number % 2 == 1 {
        if place < entries {
            return Ok(Part::Entry(place));
        }
        return Err(MapFault::NoMap);
    }
    if place < forks {
        return Ok(Part::Fork(place));
    }
    Err(MapFault::NoMap)
}

/// Returns the key of an entry.
pub(crate) fn key_at(entries: &[[u8; 64]], place: usize) -> [u8; 32]
    requires { place < length entries.now }
    ensures { result ≡ (entry_in entries.now place).key }
{
    let mut key = [0; 32];
    key.copy_from_slice(&entries[place][..32]);
    key
}

/// Returns the value of an entry.
pub(crate) fn value_at(entries: &[[u8; 64]], place: usize) -> [u8; 32]
    requires { place < length entries.now }
    ensures { result ≡ (entry_in entries.now place).value }
{
    let mut value = [0; 32];
    value.copy_from_slice(&entries[place][32..]);
    value
}

/// Returns the digest of a fork: 32 zeros, where it is not hashed yet.
pub(crate) fn kept_digest(forks: &[[u8; 48]], place: usize) -> [u8; 32]
    requires { place < length forks.now }
    ensures { result ≡ kept_digest forks.now place }
{
    let mut digest = [0; 32];
    digest.copy_from_slice(&forks[place][..32]);
    digest
}

// Reads a number of eight bytes, the least first.
fn read_number(bytes: &[u8]) -> u64
    requires { length bytes.now ≡ 8 }
    ensures { result ≡ number_of_bytes bytes.now }
{
    u64::from_le_bytes([
        bytes[0], bytes[1], bytes[2], bytes[3], bytes[4], bytes[5], bytes[6], bytes[7],
    ])
}

/// Returns the number of what stands on the left below a fork.
pub(crate) fn left_at(forks: &[[u8; 48]], place: usize) -> u64
    requires { place < length forks.now }
    ensures { result ≡ left_at forks.now place }
{
    read_number(&forks[place][32..40])
}

/// Returns the number of what stands on the right below a fork.
pub(crate) fn right_at(forks: &[[u8; 48]], place: usize) -> u64
    requires { place < length forks.now }
    ensures { result ≡ right_at forks.now place }
{
    read_number(&forks[place][40..])
}

/// Returns the number of an entry. Memory has at least as many bytes, so that the number fits.
pub(crate) fn number_of_entry(entries: &[[u8; 64]], place: usize) -> u64
    requires { place < length entries.now }
    ensures { result ≡ 2 * place + 1 }
{
    (entries[..place].as_flattened().len() / 32 + 1) as u64
}

// Returns the number of a fork. Memory has at least as many bytes, so that the number fits.
fn number_of_fork(forks: &[[u8; 48]], place: usize) -> u64
    requires { place < length forks.now }
    ensures { result ≡ 2 * place + 2 }
{
    (forks[..place + 1].as_flattened().len() / 24) as u64
}

/// Writes an entry behind so many, and returns its number.
pub(crate) fn push_entry(
    entries: &mut [[u8; 64]],
    count: &mut usize,
    key: &[u8; 32],
    value: &[u8; 32],
) -> u64
    requires room { count.old < length entries.old }
    ensures written { entries.new ≡ set entries.old count.old (key.now ++ value.now) }
    ensures count { count.new ≡ count.old + 1 }
    ensures number { result ≡ 2 * count.old + 1 }
{
    let mut entry = [0; 64];
    entry[..32].copy_from_slice(key);
    entry[32..].copy_from_slice(value);
    entries[*count] = entry;
    let number = number_of_entry(entries, *count);
    *count += 1;
    number
}

/// Writes a fork over what two numbers name behind so many, not hashed yet, and returns its number.
pub(crate) fn push_fork(forks: &mut [[u8; 48]], count: &mut usize, left: u64, right: u64) -> u64
    requires room { count.old < length forks.old }
    ensures before { take count.old forks.new ≡ take count.old forks.old }
    ensures digest { kept_digest forks.new count.old ≡ replicate 32 0 }
    ensures left { left_at forks.new count.old ≡ left }
    ensures right { right_at forks.new count.old ≡ right }
    ensures count { count.new ≡ count.old + 1 }
    ensures number { result ≡ 2 * count.old + 2 }
{
    let mut fork = [0; 48];
    fork[32..40].copy_from_slice(&left.to_le_bytes());
    fork[40..].copy_from_slice(&right.to_le_bytes());
    forks[*count] = fork;
    let number = number_of_fork(forks, *count);
    *count += 1;
    number
}

/// Writes a fork over what two numbers name behind so many, with its digest, and returns its number.
pub(crate) fn push_hashed(
    forks: &mut [[u8; 48]],
    count: &mut usize,
    digest: &[u8; 32],
    left: u64,
    right: u64,
) -> u64
    requires room { count.old < length forks.old }
    ensures before { take count.old forks.new ≡ take count.old forks.old }
    ensures digest { kept_digest forks.new count.old ≡ digest.now }
    ensures left { left_at forks.new count.old ≡ left }
    ensures right { right_at forks.new count.old ≡ right }
    ensures count { count.new ≡ count.old + 1 }
    ensures number { result ≡ 2 * count.old + 2 }
{
    let place = *count;
    let number = push_fork(forks, count, left, right);
    put_digest(forks, place, digest);
    number
}
