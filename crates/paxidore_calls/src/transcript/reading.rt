//! Sponges and elements that bytes spell.

ghost use Rattle.std.specs.Prelude.{◌≡◌, map, IfOk};
ghost use Rattle.paxidore_calls.specs.Answer.{CallGivesBy};
ghost use Rattle.paxidore_calls.specs.Transcript.{element_length, elements_filling, field_size, formed, mode_of, sponge_in, state_in, whole_of};

use crate::refused::Refused;
use crate::transcript::forms::ElementForm;
use crate::transcript::parameters::parameters_spelled;
use ark_base::error::Error;
use ark_base::serialize::{CanonicalDeserialize, rest_of};
use ark_groups::ff::Field;
use ark_sponge::DuplexSpongeMode;
use ark_sponge::poseidon::{PoseidonSponge, PoseidonSpongeState, SBox};
use std::alloc::Global;

/// Returns the value that the bytes spell, where nothing stands behind it.
pub fn read_whole<T: CanonicalDeserialize + Drop>(alloc: Global, bytes: &[u8]) -> Result<T, Refused>
    ensures given { CallGivesBy T.view (whole_of (T.reads bytes.now)) result }
    ensures spelled { IfOk result (λ value. T.has_spelling (T.view value)) }
{
    let (value, used) = T::deserialize(alloc, bytes)?;
    if used < bytes.len() {
        return Err(Refused::Invalid);
    }
    Ok(value)
}

/// Returns how many bytes an element takes.
pub fn element_length<F: Field>() -> usize
    ensures { result ≡ element_length (field_size F.MODULUS F.MODULUS_BIT_SIZE) }
{
    (F::MODULUS_BIT_SIZE as usize).div_ceil(8)
}

/// Returns the elements that fill the bytes.
pub fn elements_filling<F: Field>(alloc: Global, bytes: &[u8]) -> Result<Vec<F>, Refused>
    ensures { CallGivesBy (λ xs. map F.value xs.items)
        (elements_filling (field_size F.MODULUS F.MODULUS_BIT_SIZE) bytes.now) result }
{
    let len = element_length::<F>();
    if bytes.len() % len != 0 {
        return Err(Refused::Truncated);
    }
    let (elements, used) = F::read_items(alloc, (bytes.len() / len) as u64, bytes)?;
    if used < bytes.len() {
        return Err(Refused::Invalid);
    }
    Ok(elements)
}

// Returns the state of so many elements that the bytes spell.
fn state_spelled<F: Field>(
    alloc: Global,
    width: usize,
    bytes: &[u8],
) -> Result<PoseidonSpongeState<F>, Refused>
    ensures { CallGivesBy (λ state. state) (state_in (field_size F.MODULUS F.MODULUS_BIT_SIZE) width
        bytes.now) result }
{
    let (elements, used) = F::read_items(alloc, width as u64, bytes)?;
    let next = read_whole::<(usize, bool)>(alloc, rest_of(bytes, used))?;
    Ok(PoseidonSpongeState::new(elements, mode_of(next)))
}

// Returns what a sponge does next, by its index and whether it squeezes.
fn mode_of(next: (usize, bool)) -> DuplexSpongeMode
    ensures { result ≡ mode_of next }
{
    let (index, is_squeezing) = next;
    if is_squeezing {
        DuplexSpongeMode::Squeezing {
            next_squeeze_index: index,
        }
    } else {
        DuplexSpongeMode::Absorbing {
            next_absorb_index: index,
        }
    }
}

/// Returns the sponge that the bytes of parameters and of a state spell.
pub fn sponge_of<F: Field, S: SBox<F>, E: ElementForm<F>>(
    alloc: Global,
    parameters: &[u8],
    state: &[u8],
) -> Result<PoseidonSponge<F, S>, Refused>
    ensures { CallGivesBy (λ sponge. sponge) (sponge_in (formed F.MODULUS F.MODULUS_BIT_SIZE E.form)
        parameters.now state.now) result }
{
    let parameters = parameters_spelled::<F, E>(alloc, parameters)?;
    let width = parameters.rate() + parameters.capacity();
    let state = state_spelled::<F>(alloc, width, state)?;
    match PoseidonSponge::resumed(alloc, state, parameters) {
        Ok(sponge) => Ok(sponge),
        Err(Error::OutOfMemory) => Err(Refused::Memory),
        Err(_) => Err(Refused::Invalid),
    }
}
