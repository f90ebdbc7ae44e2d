//! Bytes of a log's file that are read a part at a time, and digests that were read ahead.

ghost use Rattle.std.specs.Prelude.{◌≡◌, ◌≤◌, ◌<◌, ◌+◌, ◌*◌, ◌^◌, length, take, drop, IfOk, OnOk};
ghost use Rattle.log_store.specs.Sound.{IsAhead};

use crate::disk::Disk;
use crate::edge::read_digest;
use log_file::head::START;

/// How many bytes are read at once at most: those of 512 digests, among which are the 256 of a tile of the lowest level.
pub const PART: usize = 16384;

/// Reads so many bytes from a place on to the front of a part.
pub fn read_ahead<D: Disk>(
    disk: &D,
    at: usize,
    count: usize,
    part: &mut [u8; PART],
) -> Result<(), D::Refusal>
    requires { count ≤ 16384 }
    ensures { D.Obeys disk.now → at + count ≤ length (D.seen disk.now)
        → OnOk result (take count part.new ≡ take count (drop at (D.seen disk.now))) }
{
    disk.read_at(at, &mut part[..count])
}

/// Digests that were read ahead: so many, from a position of the log's list on.
#[derive(Drop)]
pub struct Ahead {
    pub start: usize,
    pub count: usize,
    pub bytes: [u8; PART],
}

/// Returns none.
pub fn none_ahead() -> Ahead
    ensures { result.count ≡ 0 }
{
    Ahead {
        start: 0,
        count: 0,
        bytes: [0; PART],
    }
}

/// Reads ahead from a position on, unless its digest was read ahead, of a list of so many digests that the file has behind its
/// head.
pub fn look_at<D: Disk>(
    ahead: &mut Ahead,
    disk: &D,
    position: usize,
    end: usize,
) -> Result<(), D::Refusal>
    requires before { position ≤ end }
    requires near { 96 + 32 * end < 2 ^ 64 }
    ensures fits { ahead.old.count ≤ 512 → OnOk result (ahead.new.count ≤ 512) }
    ensures ahead { D.Obeys disk.now → 96 + 32 * end ≤ length (D.seen disk.now)
        → IsAhead ahead.old.start ahead.old.count ahead.old.bytes (D.seen disk.now)
        → OnOk result (IsAhead ahead.new.start ahead.new.count ahead.new.bytes (D.seen disk.now)) }
{
    if position >= ahead.start && position - ahead.start < ahead.count {
        return Ok(());
    }
    let count = (end - position).min(512);
    read_ahead(disk, START + 32 * position, 32 * count, &mut ahead.bytes)?;
    ahead.start = position;
    ahead.count = count;
    Ok(())
}

// Returns the digest at a place of a part.
fn digest_of(part: &[u8; PART], at: usize) -> [u8; 32]
    requires { at + 32 ≤ 16384 }
    ensures { result ≡ take 32 (drop at part.now) }
{
    let mut digest = [0; 32];
    digest.copy_from_slice(&part[at..at + 32]);
    digest
}

/// Returns the digest at a position behind the head, which is read unless it was read ahead.
pub fn digest_in<D: Disk>(ahead: &Ahead, disk: &D, position: usize) -> Result<[u8; 32], D::Refusal>
    requires near { 96 + 32 * position < 2 ^ 64 }
    requires fits { ahead.now.count ≤ 512 }
    ensures { D.Obeys disk.now
        → IsAhead ahead.now.start ahead.now.count ahead.now.bytes (D.seen disk.now)
        → 96 + 32 * (position + 1) ≤ length (D.seen disk.now)
        → IfOk result (λ digest. digest ≡ take 32 (drop (96 + 32 * position) (D.seen disk.now))) }
{
    if position < ahead.start {
        return read_digest(disk, position);
    }
    let place = position - ahead.start;
    if place >= ahead.count {
        return read_digest(disk, position);
    }
    Ok(digest_of(&ahead.bytes, 32 * place))
}
