//! An append to a log's file, handed over in steps.

ghost use Rattle.std.specs.Prelude.{◌≡◌, ◌≢◌, ◌<◌, List, length, Err, IfErr, OnOk};
ghost use Rattle.ark_paths.specs.Pair.{Digest};
ghost use Rattle.paxidore_calls.specs.Layouts.{grown_size, log_in, HasLog, IsFirstLost};
ghost use Rattle.paxidore_calls.specs.LogFiles.{IsReason};
ghost use Rattle.paxidore_calls.specs.Plan.{Grows, IsReadOf, LeavesSteps};
ghost use Rattle.paxidore_calls.specs.declared.file_calls.not_done.NotDone.TheVariants.{More, Refusal};
ghost use Rattle.paxidore_calls.specs.declared.refused.Refused.TheVariants.{Room};

use crate::file_calls::answers::growth_of;
use crate::file_calls::handed::hand_over_steps;
use crate::file_calls::not_done::NotDone;
use crate::file_calls::replay::Held;
use std::alloc::Global;

/// Hands over what is to be written to the file of a log for entries with these digests, one at least, and writes the new size.
pub fn hand_over_growth<F: Held>(
    alloc: Global,
    bytes: &mut [u8],
    bytes_len: &mut usize,
    steps: &mut [[usize; 2]],
    steps_len: &mut usize,
    size: &mut usize,
    places: &[[usize; 2]],
    file_len: usize,
    pieces: &[u8],
    digests: &[[u8; 32]],
) -> Result<(), NotDone>
    requires places { places.now ≡ F.places }
    requires pieces { pieces.now ≡ F.pieces }
    requires bytes { file_len ≡ F.size }
    requires some { 0 < length digests.now }

    // Where the pieces are those of the file of a log, the steps append these digests to it.
    ensures grows { IsReadOf F.places F.pieces F.file → F.size ≡ length F.file
        → (leaves : List Digest) → HasLog leaves F.file → OnOk result
        (Grows leaves digests.now F.file bytes.old bytes.new bytes_len.new steps.old steps.new
        steps_len.new size.new) }

    // Nothing is appended to a file whose first sector is lost.
    ensures lost { IsReadOf F.places F.pieces F.file → F.size ≡ length F.file
        → IsFirstLost F.file → OnOk result ⊥ }
    ensures refused { IsReadOf F.places F.pieces F.file → F.size ≡ length F.file
        → IfErr result (IsReason (log_in F.file) (grown_size F.file (length digests.now))) }
    ensures left { IfErr result (λ why. LeavesSteps (why ≡ Refusal Room) bytes.old bytes.new
        bytes_len.old bytes_len.new steps.old steps.new steps_len.old steps_len.new) }
    ensures kept { IfErr result (λ _. size.new ≡ size.old) }
    ensures done { result ≢ Err More }
{
    let growth = growth_of::<F>(alloc, file_len, places, pieces, digests)?;
    hand_over_steps(alloc, &growth.steps, bytes, bytes_len, steps, steps_len)?;
    *size = growth.size;
    Ok(())
}
