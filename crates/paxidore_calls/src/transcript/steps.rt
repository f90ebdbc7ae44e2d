//! What a transcript absorbs and gives, over one field.

ghost use Rattle.std.specs.Prelude.{◌≡◌, length, IfOk};
ghost use Rattle.paxidore_calls.specs.Answer.{CallGivesBy};
ghost use Rattle.paxidore_calls.specs.Transcript.{begun, bytes_given, element_bytes_squeezed, formed, Squeezed, with_bytes, with_elements};

use crate::refused::Refused;
use crate::transcript::forms::ElementForm;
use crate::transcript::parameters::parameters_spelled;
use crate::transcript::reading::{element_length, elements_filling, sponge_of};
use crate::transcript::writing::{bytes_of_elements, sponge_state_bytes};
use ark_groups::ff::Field;
use ark_sponge::CryptographicSponge;
use ark_sponge::poseidon::{PoseidonSponge, SBox};
use std::alloc::Global;
use std::marker::Model;

/// Returns the state of a sponge that has absorbed nothing.
pub fn begun<F: Field, S: SBox<F>, E: ElementForm<F>>(
    alloc: Global,
    parameters: &[u8],
) -> Result<Vec<u8>, Refused>
    ensures { CallGivesBy (λ bytes. bytes.items)
        (begun parameters.now (formed F.MODULUS F.MODULUS_BIT_SIZE E.form)) result }
{
    let parameters = parameters_spelled::<F, E>(alloc, parameters)?;
    sponge_state_bytes(alloc, &PoseidonSponge::<F, S>::over(alloc, parameters)?)
}

/// Returns the state that has absorbed elements.
pub fn with_elements<F: Field, S: SBox<F>, E: ElementForm<F>>(
    alloc: Global,
    parameters: &[u8],
    state: &[u8],
    elements: &[u8],
) -> Result<Vec<u8>, Refused>
    ensures { CallGivesBy (λ bytes. bytes.items) (with_elements S.image parameters.now state.now
        elements.now (formed F.MODULUS F.MODULUS_BIT_SIZE E.form)) result }
{
    let mut sponge = sponge_of::<F, S, E>(alloc, parameters, state)?;
    let elements = elements_filling::<F>(alloc, elements)?;
    sponge.absorb_native(&elements);
    sponge_state_bytes(alloc, &sponge)
}

/// Returns the state that has absorbed bytes.
pub fn with_bytes<F: Field, S: SBox<F>, E: ElementForm<F>>(
    alloc: Global,
    parameters: &[u8],
    state: &[u8],
    text: &[u8],
) -> Result<Vec<u8>, Refused>
    ensures { CallGivesBy (λ bytes. bytes.items) (with_bytes S.image parameters.now state.now
        text.now
        (formed F.MODULUS F.MODULUS_BIT_SIZE E.form)) result }
{
    let mut sponge = sponge_of::<F, S, E>(alloc, parameters, state)?;
    let text = Vec::from_slice(alloc, text)?;
    sponge.absorb(&text)?;
    sponge_state_bytes(alloc, &sponge)
}

/// What squeezing gives, and the state that it leaves.
#[derive(Drop)]
pub struct Given {
    pub bytes: Vec<u8>,
    pub state: Vec<u8>,
}

impl Model for Given {
    ghost Value = { Squeezed };

    ghost view = { λ given. record { given = given.bytes.items; state = given.state.items } };
}

/// Returns the next elements as so many bytes, and the state behind them.
pub fn elements_squeezed<F: Field, S: SBox<F>, E: ElementForm<F>>(
    alloc: Global,
    parameters: &[u8],
    state: &[u8],
    count: usize,
) -> Result<Given, Refused>
    ensures given { CallGivesBy (λ given. given) (element_bytes_squeezed S.image parameters.now
        state.now
        count (formed F.MODULUS F.MODULUS_BIT_SIZE E.form)) result }
    ensures len { IfOk result (λ given. length given.given ≡ count) }
{
    let len = element_length::<F>();
    if count % len != 0 {
        return Err(Refused::Truncated);
    }
    let mut sponge = sponge_of::<F, S, E>(alloc, parameters, state)?;
    let mut elements = vec![in alloc; F::zero(); count / len]?;
    sponge.squeeze_into(&mut elements);
    let bytes = bytes_of_elements(alloc, &elements)?;
    let state = sponge_state_bytes(alloc, &sponge)?;
    Ok(Given { bytes, state })
}

/// Returns so many of the next bytes, and the state behind them.
pub fn bytes_given<F: Field, S: SBox<F>, E: ElementForm<F>>(
    alloc: Global,
    parameters: &[u8],
    state: &[u8],
    count: usize,
) -> Result<Given, Refused>
    ensures given { CallGivesBy (λ given. given) (bytes_given S.image parameters.now state.now count
        (formed F.MODULUS F.MODULUS_BIT_SIZE E.form)) result }
    ensures len { IfOk result (λ given. length given.given ≡ count) }
{
    let mut sponge = sponge_of::<F, S, E>(alloc, parameters, state)?;
    // The call tells the proof that the field has nine bits.
    let _known = sponge.parameters().rate();
    let bytes = sponge.squeeze_bytes(count)?;
    let state = sponge_state_bytes(alloc, &sponge)?;
    Ok(Given { bytes, state })
}
