//! Steps and digests, in a caller's buffers.

ghost use Rattle.std.specs.Prelude.{◌≡◌, ◌≢◌, ◌⊎◌, ◌≤◌, ◌++◌, length, drop, Ok, Err, IfErr, IfOk, OnOk};
ghost use Rattle.std.specs.List.{flat_map};
ghost use Rattle.ark_base.specs.Digits.{itself};
ghost use Rattle.paxidore_calls.specs.Answer.{Hands};
ghost use Rattle.paxidore_calls.specs.LogFiles.{call_code};
ghost use Rattle.paxidore_calls.specs.Plan.{IsHanded, LeavesSteps, bytes_of_steps, places_of_steps};
ghost use Rattle.paxidore_calls.specs.declared.file_calls.not_done.NotDone.TheVariants.{More, Refusal};
ghost use Rattle.paxidore_calls.specs.declared.refused.Refused.TheVariants.{Memory, Room};

use crate::buffer::bytes_of_path;
use crate::file_calls::not_done::NotDone;
use crate::file_calls::replay::Step;
use crate::refused::Refused;
use std::alloc::Global;

// The bytes of steps, one behind the other, and their places and counts.
#[derive(Drop)]
struct Flat {
    bytes: Vec<u8>,
    places: Vec<[usize; 2]>,
}

// Puts the steps one behind the other.
fn flat_of(alloc: Global, plan: &[Step]) -> Result<Flat, NotDone>
    ensures bytes { IfOk result (λ flat. flat.bytes.items ≡ bytes_of_steps plan.now) }
    ensures places { IfOk result (λ flat. flat.places.items ≡ places_of_steps plan.now) }
    ensures refused { IfErr result (λ why. why ≡ Refusal Memory) }
{
    let mut bytes = Vec::new(alloc);
    let mut places = Vec::new(alloc);
    for step in plan {
        if bytes.extend_from_slice(&step.bytes).is_err() {
            return Err(NotDone::Refusal(Refused::Memory));
        }
        if places.push([step.at, step.bytes.len()]).is_err() {
            return Err(NotDone::Refusal(Refused::Memory));
        }
    }
    Ok(Flat { bytes, places })
}

// Writes bytes to the front of a buffer.
fn put_bytes(buffer: &mut [u8], bytes: &[u8])
    requires { length bytes.now ≤ length buffer.old }
    ensures { buffer.new ≡ bytes.now ++ drop (length bytes.now) buffer.old }
{
    buffer[..bytes.len()].copy_from_slice(bytes);
}

// Writes places to the front of a buffer.
fn put_places(buffer: &mut [[usize; 2]], places: &[[usize; 2]])
    requires { length places.now ≤ length buffer.old }
    ensures { buffer.new ≡ places.now ++ drop (length places.now) buffer.old }
{
    buffer[..places.len()].copy_from_slice(places);
}

/// Writes what is to be written to the fronts of the caller's buffers, with the counts. Errors: `Memory`; `Room` where one of them is
/// too short, which alone writes the counts that are needed. Both leave the buffers.
pub fn hand_over_steps(
    alloc: Global,
    plan: &[Step],
    bytes: &mut [u8],
    bytes_len: &mut usize,
    steps: &mut [[usize; 2]],
    steps_len: &mut usize,
) -> Result<(), NotDone>
    ensures handed { OnOk result (IsHanded plan.now bytes.old bytes.new bytes_len.new steps.old
        steps.new steps_len.new) }
    ensures left { IfErr result (λ why. LeavesSteps (why ≡ Refusal Room) bytes.old bytes.new
        bytes_len.old bytes_len.new steps.old steps.new steps_len.old steps_len.new) }
    ensures room_needed { result ≡ Err (Refusal Room)
        → (bytes_len.new ≡ length (bytes_of_steps plan.now))
        × (steps_len.new ≡ length (places_of_steps plan.now)) }
    ensures refused { IfErr result (λ why. (why ≡ Refusal Memory) ⊎ (why ≡ Refusal Room)) }
    ensures done { result ≢ Err More }
{
    let flat = flat_of(alloc, plan)?;
    *bytes_len = flat.bytes.len();
    *steps_len = flat.places.len();
    if bytes.len() < flat.bytes.len() || steps.len() < flat.places.len() {
        return Err(NotDone::Refusal(Refused::Room));
    }
    put_bytes(bytes, &flat.bytes);
    put_places(steps, &flat.places);
    Ok(())
}

/// Writes the bytes of digests to the front of the caller's buffer, with their count. Errors: `Memory`; `Room` where it is too short,
/// which alone writes the count that is needed. Both leave the buffer.
pub fn hand_over_digests(
    alloc: Global,
    digests: &[[u8; 32]],
    buffer: &mut [u8],
    count: &mut usize,
) -> Result<(), NotDone>
    ensures handed { Hands (Ok (flat_map itself digests.now)) buffer.old buffer.new count.old
        count.new (call_code result) }
    ensures refused { IfErr result (λ why. (why ≡ Refusal Memory) ⊎ (why ≡ Refusal Room)) }
    ensures done { result ≢ Err More }
{
    let bytes = bytes_of_path(alloc, digests)?;
    *count = bytes.len();
    if buffer.len() < bytes.len() {
        return Err(NotDone::Refusal(Refused::Room));
    }
    put_bytes(buffer, &bytes);
    Ok(())
}
