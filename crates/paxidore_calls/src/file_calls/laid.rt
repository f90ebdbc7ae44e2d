//! The log's file that a caller's file is, by what was read of it.

ghost use Rattle.std.specs.Prelude.{◌≡◌, ◌≢◌, ◌⊎◌, [], true, false, length, IfErr, IfOk, Err};
ghost use Rattle.log_store.specs.Sectors.{layout_in};
ghost use Rattle.log_store.specs.declared.sectors.Layout.TheVariants.{SecondAlone};
ghost use Rattle.paxidore_calls.specs.Layouts.{IsFirstLost};
ghost use Rattle.paxidore_calls.specs.Plan.{IsReadOf};
ghost use Rattle.paxidore_calls.specs.declared.file_calls.not_done.NotDone.TheVariants.{HeadDamaged, Refusal};
ghost use Rattle.paxidore_calls.specs.declared.refused.Refused.TheVariants.{Other};

use crate::file_calls::layouts::layout_on;
use crate::file_calls::not_done::NotDone;
use crate::file_calls::replay::{Held, Replay, Step};
use crate::refused::Refused;
use log_store::{Layout, SectorDisk};
use std::alloc::Global;

/// Returns the disk of the log's file that a file is, to which nothing is to be written so far. The error is `Other` where what tells
/// the layout was not read.
pub fn laid_replay<'a, F: Held>(
    alloc: Global,
    file_len: usize,
    places: &'a [[usize; 2]],
    pieces: &'a [u8],
) -> Result<SectorDisk<Replay<'a, F>>, NotDone>
    requires places { places.now ≡ F.places }
    requires pieces { pieces.now ≡ F.pieces }
    requires bytes { file_len ≡ F.size }
    ensures nothing { IfOk result (λ own. own.disk.steps ≡ []) }
    ensures start { IfOk result (λ own. own.disk.done ≡ 0) }
    ensures layout { IsReadOf F.places F.pieces F.file → F.size ≡ length F.file
        → IfOk result (λ own. own.layout ≡ layout_in F.file) }
    ensures refused { IfErr result (λ why. why ≡ Refusal Other) }
{
    let disk = Replay::<F>::new(alloc, file_len, places, pieces);
    match layout_on(&disk) {
        Ok(layout) => Ok(SectorDisk { disk, layout }),
        Err(_) => Err(NotDone::Refusal(Refused::Other)),
    }
}

// Whether the first sector is lost.
fn is_first_lost(layout: Layout) -> bool
    ensures lost { result ≡ true → layout ≡ SecondAlone }
    ensures there { result ≡ false → layout ≢ SecondAlone }
{
    match layout {
        Layout::SecondAlone => true,
        Layout::Dense => false,
        Layout::Apart => false,
        Layout::FirstAlone => false,
    }
}

/// Returns the same disk, where the file may be written: `HeadDamaged` where its first sector is lost.
pub fn writable_replay<'a, F: Held>(
    alloc: Global,
    file_len: usize,
    places: &'a [[usize; 2]],
    pieces: &'a [u8],
) -> Result<SectorDisk<Replay<'a, F>>, NotDone>
    requires places { places.now ≡ F.places }
    requires pieces { pieces.now ≡ F.pieces }
    requires bytes { file_len ≡ F.size }
    ensures nothing { IfOk result (λ own. own.disk.steps ≡ []) }
    ensures start { IfOk result (λ own. own.disk.done ≡ 0) }
    ensures layout { IsReadOf F.places F.pieces F.file → F.size ≡ length F.file
        → IfOk result (λ own. own.layout ≡ layout_in F.file) }
    ensures there { IfOk result (λ own. own.layout ≢ SecondAlone) }
    ensures lost { IsReadOf F.places F.pieces F.file → F.size ≡ length F.file
        → IfErr result (λ why. why ≡ HeadDamaged → IsFirstLost F.file) }
    ensures refused { IfErr result (λ why. (why ≡ Refusal Other) ⊎ (why ≡ HeadDamaged)) }
{
    let own = laid_replay::<F>(alloc, file_len, places, pieces)?;
    if is_first_lost(own.layout) {
        return Err(NotDone::HeadDamaged);
    }
    Ok(own)
}

// Whether two layouts are the same.
fn is_layout(layout: Layout, other: Layout) -> bool
    ensures { result ≡ true → layout ≡ other }
{
    match (layout, other) {
        (Layout::Dense, Layout::Dense) => true,
        (Layout::Apart, Layout::Apart) => true,
        _ => false,
    }
}

/// Returns what is to be written, and that the file lies as it did: no call makes it lie otherwise. The error is `Other`.
pub fn steps_laid<F: Held>(own: SectorDisk<Replay<F>>, layout: Layout) -> Result<Vec<Step>, NotDone>
    ensures steps { IfOk result (λ steps. steps.items ≡ own.entry.disk.steps) }
    ensures layout { IfOk result (λ _. own.entry.layout ≡ layout) }
    ensures refused { IfErr result (λ why. why ≡ Refusal Other) }
{
    if !is_layout(own.layout, layout) {
        return Err(NotDone::Refusal(Refused::Other));
    }
    Ok(own.disk.into_steps())
}
