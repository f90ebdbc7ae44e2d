//! What is to be written to a file before it is appended to: the two sectors of a new log, a sector that was lost, or the head again.

ghost use Rattle.std.specs.Prelude.{◌≡◌, ◌≢◌, ◌⊎◌, ◌≤◌, ◌<◌, ◌+◌, List, ℕ, [], length, take, drop, true, false, IfErr, IfOk, Err, Ok};
ghost use Rattle.std.specs.Str.{bytes_eq};
ghost use Rattle.ark_paths.specs.Pair.{Digest};
ghost use Rattle.log_file.specs.Faults.{log_size};
ghost use Rattle.log_file.specs.LogFile.{IsLogFile};
ghost use Rattle.log_store.specs.Healing.{IsNotOlder, IsReadAs};
ghost use Rattle.log_store.specs.Sectors.{layout_in, sectors_head, IsSpread};
ghost use Rattle.log_store.specs.Store.{new_head, IsPartOf};
ghost use Rattle.log_store.specs.declared.sectors.Layout.TheVariants.{Dense};
ghost use Rattle.paxidore_calls.specs.Layouts.{log_in, HasLog, IsFirstLost, IsIntact, IsLeftAlone, IsSameLog, SettlesApart};
ghost use Rattle.paxidore_calls.specs.LogFiles.{IsHeadReason, IsPlainReason};
ghost use Rattle.paxidore_calls.specs.Plan.{IsReadOf, IsStopped, carried};
ghost use Rattle.paxidore_calls.specs.declared.file_calls.not_done.NotDone.TheVariants.{HeadDamaged, More, Refusal};
ghost use Rattle.paxidore_calls.specs.declared.refused.Refused.TheVariants.{Memory, Room};

use crate::file_calls::laid::{laid_replay, steps_laid, writable_replay};
use crate::file_calls::not_done::NotDone;
use crate::file_calls::replay::{Halt, Held, Replay, Step};
use crate::refused::Refused;
use log_file::fault::Fault;
use log_store::{Disk, Layout, SECTOR, SectorDisk, SectorRefusal, Stop};
use std::alloc::Global;

// Puts a sync alone in the place of no step.
fn with_sync(alloc: Global, plan: Vec<Step>) -> Result<Vec<Step>, NotDone>
    ensures same { IfOk result (λ steps. (file : List ℕ)
        → carried steps.items file ≡ carried plan.items file) }
    ensures stopped { IfOk result (λ steps. (file left : List ℕ)
        → IsStopped steps.items file left → IsStopped plan.items file left) }
    ensures some { IfOk result (λ steps. 0 < length steps.items) }
    ensures refused { IfErr result (λ why. why ≡ Refusal Memory) }
    ensures done { result ≢ Err More }
    ensures room { result ≢ Err (Refusal Room) }
{
    if !plan.is_empty() {
        return Ok(plan);
    }
    let mut sync = Vec::new(alloc);
    sync.push(Step {
        at: 0,
        bytes: Vec::new(alloc),
    })?;
    Ok(sync)
}

// Why a call is not done that stopped where no log is needed: memory was refused, or what it asked for was not read.
fn plain_why(stop: Stop<SectorRefusal<Halt>>) -> NotDone
    ensures plain { IsPlainReason result }
    ensures head { result ≢ HeadDamaged }
    ensures done { result ≢ More }
    ensures room { result ≢ Refusal Room }
{
    match stop {
        Stop::Fault(Fault::Memory) => NotDone::Refusal(Refused::Memory),
        Stop::Fault(_) => NotDone::Refusal(Refused::Other),
        Stop::Disk(SectorRefusal::Disk(Halt::Memory)) => NotDone::Refusal(Refused::Memory),
        Stop::Disk(_) => NotDone::Refusal(Refused::Other),
    }
}

// The same, of a call on the file itself.
fn plain_halt(halt: Halt) -> NotDone
    ensures plain { IsPlainReason result }
    ensures head { result ≢ HeadDamaged }
    ensures done { result ≢ More }
    ensures room { result ≢ Refusal Room }
{
    plain_why(Stop::Disk(SectorRefusal::Disk(halt)))
}

// ---- the head again

// Returns what writes the head of a file again, as it is; or the one of no entries, where it has no more than a part of an older head.
fn remade_of<F: Held>(
    alloc: Global,
    file_len: usize,
    places: &[[usize; 2]],
    pieces: &[u8],
) -> Result<Vec<Step>, NotDone>
    requires places { places.now ≡ F.places }
    requires pieces { pieces.now ≡ F.pieces }
    requires bytes { file_len ≡ F.size }
    ensures kept { IsReadOf F.places F.pieces F.file → F.size ≡ length F.file
        → (leaves : List Digest) → HasLog leaves F.file
        → IfOk result (λ steps. IsSameLog F.file (carried steps.items F.file)) }

    // Wherever that stops, the log's file is as it is.
    ensures stopped { IsReadOf F.places F.pieces F.file → F.size ≡ length F.file
        → (leaves : List Digest) → HasLog leaves F.file
        → IfOk result (λ steps. (left : List ℕ) → IsStopped steps.items F.file left
        → IsSameLog F.file left) }
    ensures others { IsReadOf F.places F.pieces F.file → F.size ≡ length F.file
        → IsPartOf new_head (log_in F.file)
        ⊎ IfOk result (λ steps. IsSameLog F.file (carried steps.items F.file)) }
    ensures head { IsReadOf F.places F.pieces F.file → F.size ≡ length F.file
        → IfErr result (λ why. why ≡ HeadDamaged → IsFirstLost F.file) }
    ensures refused { IfErr result IsHeadReason }
    ensures some { IfOk result (λ steps. 0 < length steps.items) }
    ensures done { result ≢ Err More }
    ensures room { result ≢ Err (Refusal Room) }
{
    let mut own = writable_replay::<F>(alloc, file_len, places, pieces)?;
    let layout = own.layout;
    match log_store::make(&mut own) {
        Ok(()) => {
            let steps = steps_laid::<F>(own, layout)?;
            with_sync(alloc, steps)
        }
        Err(stop) => Err(NotDone::of_stop(stop)),
    }
}

// ---- a sector that is lost

// Whether both sectors begin alike.
fn begin_alike<D: Disk>(disk: &D) -> Result<bool, D::Refusal>
    ensures { D.Obeys disk.now → 8192 ≤ length (D.seen disk.now) → IfOk result (λ alike.
        alike ≡ bytes_eq (take 64 (D.seen disk.now)) (take 64 (drop 4096 (D.seen disk.now)))) }
{
    let mut first = [0; 64];
    disk.read_at(0, &mut first)?;
    let mut second = [0; 64];
    disk.read_at(SECTOR, &mut second)?;
    Ok(first == second)
}

// Whether a file that lies so has both sectors, with the same slot; an older one has none.
fn is_intact<D: Disk>(disk: &D, layout: Layout) -> Result<bool, D::Refusal>
    ensures intact { D.Obeys disk.now → layout ≡ layout_in (D.seen disk.now)
        → IfOk result (λ intact. intact ≡ true → IsIntact layout (D.seen disk.now)) }
    ensures broken { D.Obeys disk.now → layout ≡ layout_in (D.seen disk.now)
        → IfOk result (λ intact. intact ≡ false → IsIntact layout (D.seen disk.now) → ⊥) }
    ensures spread { IfOk result (λ intact. intact ≡ false → IsSpread layout) }
{
    match layout {
        Layout::Dense => Ok(true),
        Layout::Apart => begin_alike(disk),
        Layout::FirstAlone => Ok(false),
        Layout::SecondAlone => Ok(false),
    }
}

// Whether a log is read of a file.
fn reads_log<D: Disk>(disk: &D) -> Result<bool, Stop<D::Refusal>>
    ensures log { D.Obeys disk.now → (leaves : List Digest) → IsLogFile leaves (D.seen disk.now)
        → IfOk result (λ reads. reads ≡ true) }
    ensures sized { D.Obeys disk.now → IfOk result (λ reads. reads ≡ true
        → (size : ℕ) × (log_size (D.seen disk.now) ≡ Ok size)) }
{
    match log_store::root(disk, None) {
        Ok(_) => Ok(true),
        Err(Stop::Fault(Fault::Damaged)) => Ok(false),
        Err(Stop::Fault(Fault::NoLog)) => Ok(false),
        Err(Stop::Fault(Fault::HeadDamaged)) => Ok(false),
        Err(Stop::Fault(Fault::Short)) => Ok(false),
        Err(stop) => Err(stop),
    }
}

// Whether a sector of a file is lost, or has another slot, and its log is read.
fn is_to_heal<F: Held>(own: &SectorDisk<Replay<F>>) -> Result<bool, NotDone>
    requires nothing { own.now.disk.steps ≡ [] }
    ensures healable { IsReadOf F.places F.pieces F.file → F.size ≡ length F.file
        → own.now.layout ≡ layout_in F.file → (leaves : List Digest) → HasLog leaves F.file
        → IfOk result (λ heals. heals ≡ false → IsIntact (layout_in F.file) F.file) }
    ensures left { IsReadOf F.places F.pieces F.file → F.size ≡ length F.file
        → own.now.layout ≡ layout_in F.file
        → IfOk result (λ heals. heals ≡ true → IsLeftAlone F.file → ⊥) }
    ensures spread { IfOk result (λ heals. heals ≡ true → IsSpread own.now.layout) }
    ensures refused { IfErr result IsPlainReason }
    ensures head { result ≢ Err HeadDamaged }
    ensures done { result ≢ Err More }
    ensures room { result ≢ Err (Refusal Room) }
{
    match is_intact(&own.disk, own.layout) {
        Ok(true) => Ok(false),
        Ok(false) => match reads_log(own) {
            Ok(reads) => Ok(reads),
            Err(stop) => Err(plain_why(stop)),
        },
        Err(halt) => Err(plain_halt(halt)),
    }
}

// Puts a step in front that writes the bytes again with which a file begins.
fn with_start(alloc: Global, start: &[u8; 64], plan: Vec<Step>) -> Result<Vec<Step>, NotDone>
    ensures same { IfOk result (λ steps. (file : List ℕ) → 64 ≤ length file
        → start.now ≡ take 64 file → carried steps.items file ≡ carried plan.items file) }
    ensures stopped { IfOk result (λ steps. (file left : List ℕ) → 64 ≤ length file
        → start.now ≡ take 64 file → IsStopped steps.items file left
        → (left ≡ file) ⊎ IsStopped plan.items file left) }
    ensures some { IfOk result (λ steps. 0 < length steps.items) }
    ensures refused { IfErr result (λ why. why ≡ Refusal Memory) }
    ensures done { result ≢ Err More }
    ensures room { result ≢ Err (Refusal Room) }
{
    let mut steps = plan;
    let Ok(bytes) = Vec::from_slice(alloc, start) else {
        return Err(NotDone::Refusal(Refused::Memory));
    };
    steps.insert(0, Step { at: 0, bytes })?;
    Ok(steps)
}

// Returns what writes the sectors of a file again of which one is lost. Where only the second one is written, the first one has the log:
// its slot is written again before, since a sync of it may have been refused.
fn healed_of<F: Held>(alloc: Global, own: SectorDisk<Replay<F>>) -> Result<Vec<Step>, NotDone>
    requires nothing { own.disk.steps ≡ [] }
    requires start { own.disk.done ≡ 0 }
    requires spread { IsSpread own.layout }
    ensures healed { IsReadOf F.places F.pieces F.file → F.size ≡ length F.file
        → own.entry.layout ≡ layout_in F.file → (leaves : List Digest) → HasLog leaves F.file
        → IsNotOlder F.file
        → IfOk result (λ steps. SettlesApart leaves (carried steps.items F.file)) }
    ensures stopped { IsReadOf F.places F.pieces F.file → F.size ≡ length F.file
        → own.entry.layout ≡ layout_in F.file → (leaves : List Digest) → HasLog leaves F.file
        → IsNotOlder F.file
        → IfOk result (λ steps. (left : List ℕ) → IsStopped steps.items F.file left
        → IsReadAs leaves left) }
    ensures refused { IfErr result IsPlainReason }
    ensures head { result ≢ Err HeadDamaged }
    ensures some { IfOk result (λ steps. 0 < length steps.items) }
    ensures done { result ≢ Err More }
    ensures room { result ≢ Err (Refusal Room) }
{
    let mut own = own;
    let mut start = [0; 64];
    if let Err(halt) = own.disk.read_at(0, &mut start) {
        return Err(plain_halt(halt));
    }
    match log_store::heal(&mut own) {
        Ok(()) => {
            let plan = own.disk.into_steps();
            if plan.len() == 1 {
                with_start(alloc, &start, plan)
            } else {
                with_sync(alloc, plan)
            }
        }
        Err(stop) => Err(plain_why(stop)),
    }
}

// Returns what writes a lost sector of a file again, where its log is read; else the head.
fn mended_of<F: Held>(
    alloc: Global,
    file_len: usize,
    places: &[[usize; 2]],
    pieces: &[u8],
) -> Result<Vec<Step>, NotDone>
    requires places { places.now ≡ F.places }
    requires pieces { pieces.now ≡ F.pieces }
    requires bytes { file_len ≡ F.size }
    ensures same { IsReadOf F.places F.pieces F.file → F.size ≡ length F.file
        → (leaves : List Digest) → HasLog leaves F.file → IsIntact (layout_in F.file) F.file
        → IfOk result (λ steps. IsSameLog F.file (carried steps.items F.file)) }
    ensures healed { IsReadOf F.places F.pieces F.file → F.size ≡ length F.file
        → (leaves : List Digest) → HasLog leaves F.file → IsSpread (layout_in F.file)
        → (IsFirstLost F.file → IsNotOlder F.file)
        → IfOk result (λ steps. SettlesApart leaves (carried steps.items F.file)) }
    ensures stopped { IsReadOf F.places F.pieces F.file → F.size ≡ length F.file
        → (leaves : List Digest) → HasLog leaves F.file → (IsFirstLost F.file → IsNotOlder F.file)
        → IfOk result (λ steps. (left : List ℕ) → IsStopped steps.items F.file left
        → IsReadAs leaves left) }
    ensures others { IsReadOf F.places F.pieces F.file → F.size ≡ length F.file
        → IsLeftAlone F.file → IsPartOf new_head (log_in F.file)
        ⊎ IfOk result (λ steps. IsSameLog F.file (carried steps.items F.file)) }
    ensures head { IsReadOf F.places F.pieces F.file → F.size ≡ length F.file
        → IfErr result (λ why. why ≡ HeadDamaged → IsFirstLost F.file) }
    ensures refused { IfErr result IsHeadReason }
    ensures some { IfOk result (λ steps. 0 < length steps.items) }
    ensures done { result ≢ Err More }
    ensures room { result ≢ Err (Refusal Room) }
{
    let own = laid_replay::<F>(alloc, file_len, places, pieces)?;
    if is_to_heal::<F>(&own)? {
        return healed_of::<F>(alloc, own);
    }
    remade_of::<F>(alloc, file_len, places, pieces)
}

// ---- a new log

/// Returns what is to be written to a file before it is appended to: both sectors of a new log; a sector that was lost, where the log is
/// read of the other one; or the head again.
pub fn made_of<F: Held>(
    alloc: Global,
    file_len: usize,
    places: &[[usize; 2]],
    pieces: &[u8],
) -> Result<Vec<Step>, NotDone>
    requires places { places.now ≡ F.places }
    requires pieces { pieces.now ≡ F.pieces }
    requires bytes { file_len ≡ F.size }

    // An older log's file stays as it is.
    ensures same { IsReadOf F.places F.pieces F.file → F.size ≡ length F.file
        → (leaves : List Digest) → HasLog leaves F.file → layout_in F.file ≡ Dense
        → IfOk result (λ steps. IsSameLog F.file (carried steps.items F.file)) }

    // One in two sectors has both of them then, with the log.
    ensures healed { IsReadOf F.places F.pieces F.file → F.size ≡ length F.file
        → (leaves : List Digest) → HasLog leaves F.file → IsSpread (layout_in F.file)
        → (IsFirstLost F.file → IsNotOlder F.file)
        → IfOk result (λ steps. SettlesApart leaves (carried steps.items F.file)) }

    // A part of the two sectors of a log of no entries is completed.
    ensures completed { IsReadOf F.places F.pieces F.file → F.size ≡ length F.file
        → IsPartOf sectors_head F.file
        → IfOk result (λ steps. carried steps.items F.file ≡ sectors_head) }

    // Wherever the steps stop, a part of these sectors is one, and a log is the same.
    ensures part_stopped { IsReadOf F.places F.pieces F.file → F.size ≡ length F.file
        → IsPartOf sectors_head F.file
        → IfOk result (λ steps. (left : List ℕ) → IsStopped steps.items F.file left
        → IsPartOf sectors_head left) }
    ensures stopped { IsReadOf F.places F.pieces F.file → F.size ≡ length F.file
        → (leaves : List Digest) → HasLog leaves F.file → (IsFirstLost F.file → IsNotOlder F.file)
        → IsPartOf sectors_head F.file
        ⊎ IfOk result (λ steps. (left : List ℕ) → IsStopped steps.items F.file left
        → IsReadAs leaves left) }

    // What is a part of neither, and has no sector that is written again, stays as it is.
    ensures others { IsReadOf F.places F.pieces F.file → F.size ≡ length F.file
        → IsLeftAlone F.file → IsPartOf sectors_head F.file ⊎ IsPartOf new_head (log_in F.file)
        ⊎ IfOk result (λ steps. IsSameLog F.file (carried steps.items F.file)) }

    // Only where the first sector is lost the head counts as damaged.
    ensures head { IsReadOf F.places F.pieces F.file → F.size ≡ length F.file
        → IfErr result (λ why. why ≡ HeadDamaged → IsFirstLost F.file) }
    ensures refused { IfErr result IsHeadReason }
    ensures some { IfOk result (λ steps. 0 < length steps.items) }
    ensures done { result ≢ Err More }
    ensures room { result ≢ Err (Refusal Room) }
{
    let mut disk = Replay::<F>::new(alloc, file_len, places, pieces);
    match log_store::lay_out(&mut disk) {
        Ok(true) => with_sync(alloc, disk.into_steps()),
        Ok(false) => mended_of::<F>(alloc, file_len, places, pieces),
        Err(halt) => Err(plain_halt(halt)),
    }
}
