//! A log's file whose two slots lie in different sectors, as the disk of the file that a log's calls speak of.

ghost use Rattle.std.specs.Prelude.{◌≡◌, ◌⊎◌, ◌≤◌, ◌+◌, ◌-◌, ◌++◌, ℕ, List, true, false, length, take, drop, Some, IfOk, IfSome, OnOk, OnErr, replicate, if◌then◌else◌, Ok};
ghost use Rattle.log_store.specs.Disk.{AreApart, Elapses, LeavesMore, Leaves, Torn};
ghost use Rattle.log_store.specs.Sectors.{laid, laid_head, part_at, place_of, sector_title, title_in, IfPlace, HasSectors, IfStart, IsFresh, IsSpread, IsOnePart, LiesApart, LiesAt, Through};
ghost use Rattle.log_store.specs.declared.sectors.Layout.TheVariants.{Apart, Dense, FirstAlone, SecondAlone};
ghost use Rattle.log_file.specs.LogFile.{title, written};
ghost use Rattle.std.specs.Str.{bytes_eq};

use crate::disk::Disk;
use log_file::head::{START, TITLE, has_title};

/// How many bytes a sector has, and how far the two slots lie from one another.
pub const SECTOR: usize = 4096;

/// Where the digests begin of a file with sectors.
pub const DIGESTS: usize = 8192;

/// How a file with sectors begins, and the sector of its second slot.
pub const SECTOR_TITLE: [u8; 32] = *b"paxidore log of SHA-256, sectors";

/// How a log's file lies on its disk.
#[derive(Clone, Copy)]
pub enum Layout {
    /// Both slots lie in one sector, and the digests behind them, as older files have it.
    Dense,
    /// Each slot has a sector of its own.
    Apart,
    /// The same, and the sector of the second slot is not read.
    FirstAlone,
    /// The same, and the sector of the first slot is not read.
    SecondAlone,
}

/// Why a call on a log's file with sectors is refused.
#[derive(Drop)]
pub enum SectorRefusal<R: Drop> {
    /// The disk refused a call.
    Disk(R),
    /// The bytes are not of one part: the title and the first slot, the second slot, the digests.
    Place,
    /// The file has not both sectors.
    Short,
}

/// Returns whether a sector begins as one of a slot does.
pub fn is_titled(bytes: &[u8; 64]) -> bool
    ensures { result ≡ bytes_eq (take 32 bytes.now) sector_title }
{
    let mut own = [0; 32];
    own.copy_from_slice(&bytes[..32]);
    own == SECTOR_TITLE
}

// The title of the log's file.
fn title_of(bytes: &[u8; 64]) -> [u8; 32]
    ensures { result ≡ (if bytes_eq (take 32 bytes.now) sector_title then title
        else replicate 32 0) }
{
    if is_titled(bytes) { TITLE } else { [0; 32] }
}

/// Returns the slot of a sector, behind its title.
pub fn slot_behind_title(bytes: &[u8; 64]) -> [u8; 32]
    ensures { result ≡ drop 32 bytes.now }
{
    let mut slot = [0; 32];
    slot.copy_from_slice(&bytes[32..]);
    slot
}

/// Returns a title and a slot.
pub fn titled_slot(title: &[u8; 32], slot: &[u8; 32]) -> [u8; 64]
    ensures { result ≡ title.now ++ slot.now }
{
    let mut part = [0; 64];
    part[..32].copy_from_slice(title);
    part[32..].copy_from_slice(slot);
    part
}

// The title of the log's file, and the first slot.
fn first_part_of(bytes: &[u8; 64]) -> [u8; 64]
    ensures { result ≡ (if bytes_eq (take 32 bytes.now) sector_title then title
        else replicate 32 0) ++ drop 32 bytes.now }
{
    titled_slot(&title_of(bytes), &slot_behind_title(bytes))
}

// The title and the first slot of the log's file.
fn first_part<D: Disk>(disk: &D) -> Result<[u8; 64], SectorRefusal<D::Refusal>>
    ensures { D.Obeys disk.now → 64 ≤ length (D.seen disk.now) → IfOk result (λ part.
        part ≡ title_in (D.seen disk.now) ++ part_at 32 32 (D.seen disk.now)) }
{
    let mut bytes = [0; 64];
    match disk.read_at(0, &mut bytes) {
        Ok(()) => Ok(first_part_of(&bytes)),
        Err(refusal) => Err(SectorRefusal::Disk(refusal)),
    }
}

// The second slot of the log's file.
fn second_part<D: Disk>(disk: &D) -> Result<[u8; 32], SectorRefusal<D::Refusal>>
    ensures { D.Obeys disk.now → 4160 ≤ length (D.seen disk.now) → IfOk result (λ part.
        part ≡ part_at 4128 32 (D.seen disk.now)) }
{
    let mut bytes = [0; 32];
    match disk.read_at(SECTOR + 32, &mut bytes) {
        Ok(()) => Ok(bytes),
        Err(refusal) => Err(SectorRefusal::Disk(refusal)),
    }
}

// A title and two slots.
fn head_of_parts(first: &[u8; 64], second: &[u8; 32]) -> [u8; START]
    ensures { result ≡ first.now ++ second.now }
{
    let mut head = [0; START];
    head[..64].copy_from_slice(first);
    head[64..].copy_from_slice(second);
    head
}

// The title, and zeros in the place of the first slot.
fn unread_part() -> [u8; 64]
    ensures { result ≡ title ++ replicate 32 0 }
{
    titled_slot(&TITLE, &[0; 32])
}

// The head of the log's file.
fn laid_head_of<D: Disk>(disk: &D, layout: Layout) -> Result<[u8; START], SectorRefusal<D::Refusal>>
    ensures { D.Obeys disk.now → 8192 ≤ length (D.seen disk.now) → IfOk result (λ head.
        head ≡ laid_head layout (D.seen disk.now)) }
{
    match layout {
        Layout::Dense => {
            let mut head = [0; START];
            match disk.read_at(0, &mut head) {
                Ok(()) => Ok(head),
                Err(refusal) => Err(SectorRefusal::Disk(refusal)),
            }
        }
        Layout::Apart => Ok(head_of_parts(&first_part(disk)?, &second_part(disk)?)),
        Layout::FirstAlone => Ok(head_of_parts(&first_part(disk)?, &[0; 32])),
        Layout::SecondAlone => Ok(head_of_parts(&unread_part(), &second_part(disk)?)),
    }
}

// What is written of bytes at a place of the log's file.
#[derive(Clone, Copy)]
enum Own {
    // The same bytes, from this place on.
    At(usize),
    // These ones, at the start: a title and a slot.
    Start([u8; 64]),
    // Nothing: they are not of one part.
    Nowhere,
}

// The bytes of a title and a slot, of which the title is that of a log's file.
fn start_laid(bytes: &[u8]) -> Own
    ensures start { IfStart result (λ own. LiesApart 0 bytes.now 0 own) }
    ensures no_place { IfPlace result (λ _. ⊥) }
{
    if bytes.len() != 64 {
        return Own::Nowhere;
    }
    let mut own = [0; 64];
    own.copy_from_slice(bytes);
    if !has_title(&own) {
        return Own::Nowhere;
    }
    Own::Start(titled_slot(&SECTOR_TITLE, &slot_behind_title(&own)))
}

// Where bytes of a slot or of digests lie.
fn place_for(at: usize, count: usize) -> Option<usize>
    ensures { IfSome result (λ place. (32 ≤ at) × (place ≡ place_of at) × IsOnePart at count) }
{
    if at >= START {
        return at.checked_add(DIGESTS - START);
    }
    if at < 32 {
        return None;
    }
    let end = if at < 64 { 64 } else { START };
    if count > end - at {
        return None;
    }
    if at < 64 {
        Some(at)
    } else {
        Some(at + (SECTOR - 32))
    }
}

// What is written of bytes at a place of the log's file, as it lies on the disk.
fn own_of(layout: Layout, at: usize, bytes: &[u8]) -> Own
    ensures start { IfStart result (λ own. LiesAt layout at bytes.now 0 own) }
    ensures place { IfPlace result (λ place. LiesAt layout at bytes.now place bytes.now) }
{
    match layout {
        Layout::Dense => Own::At(at),
        Layout::Apart => {
            if at == 0 {
                return start_laid(bytes);
            }
            match place_for(at, bytes.len()) {
                Some(place) => Own::At(place),
                None => Own::Nowhere,
            }
        }
        Layout::FirstAlone => Own::Nowhere,
        Layout::SecondAlone => Own::Nowhere,
    }
}

/// Returns where the file has both sectors, if its layout has any that is written.
pub fn holds_sectors<D: Disk>(disk: &D, layout: Layout) -> Result<(), SectorRefusal<D::Refusal>>
    ensures { D.Obeys disk.now → OnOk result (HasSectors layout (D.seen disk.now)) }
{
    match layout {
        Layout::Apart => match disk.length() {
            Ok(count) if count >= DIGESTS => Ok(()),
            Ok(_) => Err(SectorRefusal::Short),
            Err(refusal) => Err(SectorRefusal::Disk(refusal)),
        },
        _ => Ok(()),
    }
}

// Writes bytes as they lie on the disk.
fn write_laid<D: Disk>(
    disk: &mut D,
    layout: Layout,
    place: usize,
    own: &[u8],
) -> Result<(), SectorRefusal<D::Refusal>>
    ensures obeys { D.Obeys disk.new → D.Obeys disk.old }
    ensures written { D.Obeys disk.new → (at : ℕ) (bytes : List ℕ)
        → LiesAt layout at bytes place own.now → at ≤ length (laid layout (D.seen disk.old))
        → OnOk result (laid layout (D.seen disk.new)
        ≡ written (laid layout (D.seen disk.old)) at bytes) }
    ensures torn { D.Obeys disk.new → (at : ℕ) (bytes : List ℕ)
        → LiesAt layout at bytes place own.now → at ≤ length (laid layout (D.seen disk.old))
        → Torn at bytes (laid layout (D.seen disk.old)) (laid layout (D.seen disk.new)) }
    ensures crash { D.Obeys disk.new → (at : ℕ) (bytes : List ℕ)
        → LiesAt layout at bytes place own.now → at ≤ length (laid layout (D.seen disk.old))
        → LeavesMore (Torn at bytes) (Through layout (D.may_leave disk.old))
        (Through layout (D.may_leave disk.new)) }
    ensures fresh { D.Obeys disk.new → (at : ℕ) (bytes : List ℕ)
        → LiesAt layout at bytes place own.now → at ≤ length (laid layout (D.seen disk.old))
        → OnOk result (D.fresh disk.new place own.now) }
    ensures apart { D.Obeys disk.new → (at : ℕ) (bytes : List ℕ)
        → LiesAt layout at bytes place own.now → at ≤ length (laid layout (D.seen disk.old))
        → (spot : ℕ) (earlier : List ℕ) → AreApart spot (length earlier) place (length own.now)
        → D.fresh disk.old spot earlier → D.fresh disk.new spot earlier }
    ensures time { D.Obeys disk.new → Elapses (D.moment disk.old) (D.moment disk.new)
        (D.left_since disk.old) (D.left_since disk.new) (D.may_leave disk.new) }
{
    if let Err(why) = holds_sectors(disk, layout) {
        return Err(why);
    }
    match disk.write_at(place, own) {
        Ok(()) => Ok(()),
        Err(refusal) => Err(SectorRefusal::Disk(refusal)),
    }
}

/// The disk of a log's file whose two slots may lie in different sectors, each with a title of its own. What it reads and writes
/// is the log's file, as its layout says. A write that is not of one part is refused, and so is each one where a sector is not
/// read.
#[derive(Drop)]
pub struct SectorDisk<D: Disk + Drop> {
    pub disk: D,
    pub layout: Layout,
}

impl<D: Disk + Drop> Disk for SectorDisk<D> {
    type Refusal = SectorRefusal<D::Refusal>;

    ghost Obeys = { λ own. D.Obeys own.disk };

    ghost seen = { λ own. laid own.layout (D.seen own.disk) };

    ghost may_leave = { λ own. Through own.layout (D.may_leave own.disk) };

    ghost fresh = { λ own at bytes. IsFresh own.layout (D.fresh own.disk) at bytes };

    ghost moment = { λ own. D.moment own.disk };

    ghost left_since = { λ own since. Through own.layout (D.left_since own.disk since) };

    ghost counts_now = { λ own since left before now.
        (now.0, D.counts_now own.disk since now.0 before now.1, now.2) };

    ghost only_now = { λ own left since. (since.0, D.only_now own.disk since.0 since.1, since.2) };

    fn length(&self) -> Result<usize, SectorRefusal<D::Refusal>> {
        match self.disk.length() {
            Ok(count) => Ok(laid_length(self.layout, count)),
            Err(refusal) => Err(SectorRefusal::Disk(refusal)),
        }
    }

    fn read_at(&self, at: usize, into: &mut [u8]) -> Result<(), SectorRefusal<D::Refusal>> {
        read_laid(&self.disk, self.layout, at, into)
    }

    fn write_at(&mut self, at: usize, bytes: &[u8]) -> Result<(), SectorRefusal<D::Refusal>> {
        match own_of(self.layout, at, bytes) {
            Own::At(place) => write_laid(&mut self.disk, self.layout, place, bytes),
            Own::Start(own) => write_laid(&mut self.disk, self.layout, 0, &own),
            Own::Nowhere => Err(SectorRefusal::Place),
        }
    }

    fn sync(&mut self) -> Result<(), SectorRefusal<D::Refusal>> {
        match self.disk.sync() {
            Ok(()) => Ok(()),
            Err(refusal) => Err(SectorRefusal::Disk(refusal)),
        }
    }
}

/// Returns whether both slots lie in one sector.
pub fn is_dense(layout: Layout) -> bool
    ensures dense { result ≡ true → layout ≡ Dense }
    ensures spread { result ≡ false → IsSpread layout }
{
    match layout {
        Layout::Dense => true,
        Layout::Apart => false,
        Layout::FirstAlone => false,
        Layout::SecondAlone => false,
    }
}

// How long the log's file is.
fn laid_length(layout: Layout, count: usize) -> usize
    ensures { (file : List ℕ) → count ≡ length file → result ≡ length (laid layout file) }
{
    if is_dense(layout) {
        return count;
    }
    START + count.saturating_sub(DIGESTS)
}

// Copies bytes of a head.
fn copy_head(head: &[u8; START], at: usize, into: &mut [u8])
    requires { at + length into.old ≤ 96 }
    ensures { into.new ≡ take (length into.old) (drop at head.now) }
{
    into.copy_from_slice(&head[at..at + into.len()]);
}

// Reads bytes of the log's file.
fn read_laid<D: Disk>(
    disk: &D,
    layout: Layout,
    at: usize,
    into: &mut [u8],
) -> Result<(), SectorRefusal<D::Refusal>>
    ensures { D.Obeys disk.now → at + length into.old ≤ length (laid layout (D.seen disk.now))
        → OnOk result (into.new
        ≡ take (length into.old) (drop at (laid layout (D.seen disk.now)))) }
{
    if is_dense(layout) {
        return read_piece(disk, at, into);
    }
    if at >= START {
        return read_behind(disk, at - START, into);
    }
    if into.len() > START - at {
        return Err(SectorRefusal::Place);
    }
    if let Err(why) = holds_sectors(disk, Layout::Apart) {
        return Err(why);
    }
    let head = laid_head_of(disk, layout)?;
    copy_head(&head, at, into);
    Ok(())
}

// Reads bytes of the file.
fn read_piece<D: Disk>(
    disk: &D,
    at: usize,
    into: &mut [u8],
) -> Result<(), SectorRefusal<D::Refusal>>
    ensures { D.Obeys disk.now → at + length into.old ≤ length (D.seen disk.now)
        → OnOk result (into.new ≡ take (length into.old) (drop at (D.seen disk.now))) }
{
    match disk.read_at(at, into) {
        Ok(()) => Ok(()),
        Err(refusal) => Err(SectorRefusal::Disk(refusal)),
    }
}

// Reads bytes of the digests, from a place behind their start on.
fn read_behind<D: Disk>(
    disk: &D,
    behind: usize,
    into: &mut [u8],
) -> Result<(), SectorRefusal<D::Refusal>>
    ensures { D.Obeys disk.now → behind + length into.old ≤ length (drop 8192 (D.seen disk.now))
        → OnOk result (into.new
        ≡ take (length into.old) (drop behind (drop 8192 (D.seen disk.now)))) }
{
    if into.len() == 0 {
        return Ok(());
    }
    match behind.checked_add(DIGESTS) {
        Some(place) => read_piece(disk, place, into),
        None => Err(SectorRefusal::Place),
    }
}
