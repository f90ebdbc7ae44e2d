//! The bytes of states and of elements.

ghost use Rattle.std.specs.Prelude.{◌≡◌, ℕ, List, map, Result, Ok};
ghost use Rattle.ark_sponge.specs.Mode.{mode_index};
ghost use Rattle.paxidore_calls.specs.Answer.{CallGivesBy};
ghost use Rattle.paxidore_calls.specs.declared.refused.Refused.{Refused as Why};
ghost use Rattle.paxidore_calls.specs.Transcript.{elements_bytes, field_size, is_squeezing, Replaces, sponge_state_bytes};

use crate::refused::Refused;
use ark_base::serialize::CanonicalSerialize;
use ark_groups::ff::Field;
use ark_sponge::DuplexSpongeMode;
use ark_sponge::poseidon::{PoseidonSponge, SBox};
use std::alloc::Global;

// Returns the index of a sponge, and whether it squeezes.
fn index_and_squeezing(mode: DuplexSpongeMode) -> (usize, bool)
    ensures index { result.0 ≡ mode_index mode }
    ensures squeezes { result.1 ≡ is_squeezing mode }
{
    match mode {
        DuplexSpongeMode::Absorbing { next_absorb_index } => (next_absorb_index, false),
        DuplexSpongeMode::Squeezing { next_squeeze_index } => (next_squeeze_index, true),
    }
}

/// Returns the bytes of elements, one behind the other.
pub fn bytes_of_elements<F: Field>(alloc: Global, elements: &[F]) -> Result<Vec<u8>, Refused>
    ensures { let f = field_size F.MODULUS F.MODULUS_BIT_SIZE in
        let bytes = elements_bytes f (map F.value elements.now) in
        CallGivesBy (λ bytes. bytes.items) (Ok bytes) result }
{
    let mut bytes = Vec::new(alloc);
    F::serialize_items(elements, &mut bytes)?;
    Ok(bytes)
}

/// Returns the bytes of a sponge's state.
pub fn sponge_state_bytes<F: Field, S: SBox<F>>(
    alloc: Global,
    sponge: &PoseidonSponge<F, S>,
) -> Result<Vec<u8>, Refused>
    ensures { CallGivesBy (λ bytes. bytes.items)
        (Ok (sponge_state_bytes (field_size F.MODULUS F.MODULUS_BIT_SIZE) sponge.now)) result }
{
    let mut bytes = bytes_of_elements(alloc, sponge.state())?;
    index_and_squeezing(sponge.mode()).serialize(&mut bytes)?;
    Ok(bytes)
}

/// Writes the bytes over the front of `buffer`, where it has room for them; what refuses leaves it.
pub fn write_over(bytes: Result<Vec<u8>, Refused>, buffer: &mut [u8]) -> i32
    ensures { (outcome : Result (List ℕ) Why) → CallGivesBy (λ bytes. bytes.items) outcome bytes
        → Replaces outcome buffer.old buffer.new result }
{
    match bytes {
        Ok(bytes) => {
            if buffer.len() < bytes.len() {
                return Refused::Room.code();
            }
            buffer[..bytes.len()].copy_from_slice(&bytes);
            0
        }
        Err(refused) => refused.code(),
    }
}
