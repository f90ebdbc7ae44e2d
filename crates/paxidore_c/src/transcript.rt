//! Transcripts: Poseidon's duplex sponge over a field that a number names, by the bytes of its parameters and of its state,
//! in memory of the caller's.

ghost use Rattle.std.specs.Prelude.{◌≡◌, ◌≢◌, ◌⊎◌, ◌≤◌, ◌++◌, ℕ, ◌+◌, List, length, drop, pos, Result, Ok, Err, IfErr, IfOk, IfSome, IsSome};
ghost use Rattle.ark_sponge.specs.ConfigBytes.{parameters_spelling};
ghost use Rattle.paxidore_calls.specs.Answer.{GivesCode, CallGivesBy, Hands, refusal_code};
ghost use Rattle.paxidore_calls.specs.declared.refused.Refused.{Refused as Why};
ghost use Rattle.paxidore_calls.specs.declared.refused.Refused.TheVariants.{Count, Invalid, Memory, Room};
ghost use Rattle.paxidore_calls.specs.Transcript.{HasReady, IsReadyField, Replaces, ServeAs, SpellReady, begun, bytes_given, element_bytes_squeezed, in_field, left_by, field_power, prepared_bytes, with_bytes, with_elements};

use ark_base::serialize::canonical_bytes;
use ark_groups::ff::{BabyBear, Field, Fp, Goldilocks};
use ark_poseidon_parameters::{Power, bls12_381_fr, bn254_fr};
use ark_sponge::poseidon::PoseidonConfig;
use ark_wide_fields::{Bls12_381Fr, Bn254Fr};
use paxidore_calls::buffer::hand_over;
use paxidore_calls::refused::Refused;
use paxidore_calls::transcript::forms::{Own, Scaled};
use paxidore_calls::transcript::parameters::prepared_bytes;
use paxidore_calls::transcript::steps::{
    Given, begun, bytes_given, elements_squeezed, with_bytes, with_elements,
};
use paxidore_calls::transcript::writing::write_over;
use std::alloc::Global;

// Calls a function over the field that a number names, with parameters as they stand in their bytes under this number;
// `Invalid` where it names none.
macro_rules! in_field {
    ($field:expr, $call:ident($($argument:expr),+)) => {
        match $field {
            1 => $call::<Fp<Goldilocks>, Power, Own>($($argument),+),
            2 => $call::<Fp<BabyBear>, Power, Own>($($argument),+),
            3 => $call::<Bls12_381Fr, Power, Own>($($argument),+),
            4 => $call::<Bn254Fr, Power, Own>($($argument),+),
            257 => $call::<Fp<Goldilocks>, Power, Own>($($argument),+),
            258 => $call::<Fp<BabyBear>, Power, Own>($($argument),+),
            259 => $call::<Bls12_381Fr, Power, Scaled>($($argument),+),
            260 => $call::<Bn254Fr, Power, Scaled>($($argument),+),
            _ => Err(Refused::Invalid),
        }
    };
}

// Returns the state of a transcript that has absorbed nothing.
fn begun_over(alloc: Global, field: u32, parameters: &[u8]) -> Result<Vec<u8>, Refused>
    ensures { CallGivesBy (λ bytes. bytes.items) (in_field field (begun parameters.now)) result }
{
    in_field!(field, begun(alloc, parameters))
}

/// Writes the state of a transcript that has absorbed nothing to the front of `state`, and its count of bytes to
/// `state_len`.
///
/// Answers: 0, or the first of `E_TRUNCATED` and `E_INVALID` for a number that names no field and for bytes that are no
/// parameters; `E_ROOM`, where `state_len` is what is needed; `E_MEMORY` in place of any.
#[unsafe(no_mangle)]
pub extern "C" fn paxidore_transcript_init(
    alloc: Global,
    state: &mut [u8],
    state_len: &mut usize,
    field: u32,
    parameters: &[u8],
) -> i32
    ensures { Hands (in_field field (begun parameters.now)) state.old state.new state_len.old
        state_len.new result }
{
    hand_over(begun_over(alloc, field, parameters), state, state_len)
}

// Returns the state that has absorbed elements.
fn with_elements_over(
    alloc: Global,
    field: u32,
    parameters: &[u8],
    state: &[u8],
    elements: &[u8],
) -> Result<Vec<u8>, Refused>
    ensures { CallGivesBy (λ bytes. bytes.items) (in_field field
        (λ f. with_elements (field_power f) parameters.now state.now elements.now f)) result }
{
    in_field!(field, with_elements(alloc, parameters, state, elements))
}

/// Absorbs elements, each as its canonical bytes.
///
/// Answers: 0, or the first of `E_TRUNCATED` and `E_INVALID` for the field, the parameters, the state and the elements, in
/// this order; `E_MEMORY` in place of any. `E_ROOM` where the state has less room than its own bytes, which never is.
#[unsafe(no_mangle)]
pub extern "C" fn paxidore_transcript_absorb(
    alloc: Global,
    state: &mut [u8],
    field: u32,
    parameters: &[u8],
    elements: &[u8],
) -> i32
    ensures { Replaces (in_field field
        (λ f. with_elements (field_power f) parameters.now state.old elements.now f)) state.old
        state.new
        result }
{
    write_over(
        with_elements_over(alloc, field, parameters, state, elements),
        state,
    )
}

// Returns the state that has absorbed bytes.
fn with_bytes_over(
    alloc: Global,
    field: u32,
    parameters: &[u8],
    state: &[u8],
    text: &[u8],
) -> Result<Vec<u8>, Refused>
    ensures { CallGivesBy (λ bytes. bytes.items) (in_field field
        (λ f. with_bytes (field_power f) parameters.now state.now text.now f)) result }
{
    in_field!(field, with_bytes(alloc, parameters, state, text))
}

/// Absorbs bytes: behind their length in eight bytes, in pieces of as many as fit below the modulus.
///
/// Answers: those of `paxidore_transcript_absorb` but for the elements.
#[unsafe(no_mangle)]
pub extern "C" fn paxidore_transcript_absorb_bytes(
    alloc: Global,
    state: &mut [u8],
    field: u32,
    parameters: &[u8],
    text: &[u8],
) -> i32
    ensures { Replaces (in_field field (λ f. with_bytes (field_power f) parameters.now state.old
        text.now
        f)) state.old state.new result }
{
    write_over(
        with_bytes_over(alloc, field, parameters, state, text),
        state,
    )
}

// Returns the next elements as so many bytes, and the state behind them.
fn elements_over(
    alloc: Global,
    field: u32,
    parameters: &[u8],
    state: &[u8],
    count: usize,
) -> Result<Given, Refused>
    ensures given { CallGivesBy (λ given. given) (in_field field
        (λ f. element_bytes_squeezed (field_power f) parameters.now state.now count f)) result }
    ensures len { IfOk result (λ given. length given.given ≡ count) }
{
    in_field!(field, elements_squeezed(alloc, parameters, state, count))
}

/// Fills `out` with the next elements, each as its canonical bytes. Filling no bytes begins to squeeze all the same.
///
/// Answers: 0, `E_TRUNCATED` where `out` has not the length of whole elements, or those of `paxidore_transcript_absorb`.
#[unsafe(no_mangle)]
pub extern "C" fn paxidore_transcript_squeeze(
    alloc: Global,
    out: &mut [u8],
    state: &mut [u8],
    field: u32,
    parameters: &[u8],
) -> i32
    ensures state { Replaces (left_by (in_field field
        (λ f. element_bytes_squeezed (field_power f) parameters.now state.old (length out.old) f)))
        state.old
        state.new result }
    ensures given { result ≡ pos 0
        → IfOk (in_field field (λ f. element_bytes_squeezed (field_power f) parameters.now state.old
        (length out.old) f)) (λ squeezed. out.new ≡ squeezed.given) }
    ensures kept { result ≢ pos 0 → out.new ≡ out.old }
{
    match elements_over(alloc, field, parameters, state, out.len()) {
        Ok(given) => write_given(given, out, state),
        Err(refused) => refused.code(),
    }
}

// Returns so many of the next bytes, and the state behind them.
fn bytes_squeezed_over(
    alloc: Global,
    field: u32,
    parameters: &[u8],
    state: &[u8],
    count: usize,
) -> Result<Given, Refused>
    ensures given { CallGivesBy (λ given. given) (in_field field
        (λ f. bytes_given (field_power f) parameters.now state.now count f)) result }
    ensures len { IfOk result (λ given. length given.given ≡ count) }
{
    in_field!(field, bytes_given(alloc, parameters, state, count))
}

/// Fills `out` with the next bytes: of each element the lowest ones that always lie below the modulus.
///
/// Answers: those of `paxidore_transcript_absorb`.
#[unsafe(no_mangle)]
pub extern "C" fn paxidore_transcript_squeeze_bytes(
    alloc: Global,
    out: &mut [u8],
    state: &mut [u8],
    field: u32,
    parameters: &[u8],
) -> i32
    ensures state { Replaces (left_by (in_field field
        (λ f. bytes_given (field_power f) parameters.now state.old (length out.old) f))) state.old
        state.new result }
    ensures given { result ≡ pos 0
        → IfOk (in_field field (λ f. bytes_given (field_power f) parameters.now state.old
        (length out.old)
        f)) (λ squeezed. out.new ≡ squeezed.given) }
    ensures kept { result ≢ pos 0 → out.new ≡ out.old }
{
    match bytes_squeezed_over(alloc, field, parameters, state, out.len()) {
        Ok(given) => write_given(given, out, state),
        Err(refused) => refused.code(),
    }
}

// Writes the state over the one before, where it has room for it, and what was given to `out`.
fn write_given(given: Given, out: &mut [u8], state: &mut [u8]) -> i32
    requires { length given.given ≡ length out.old }
    ensures state { (why : Result (List ℕ) Why) → why ≡ Ok given.state
        → Replaces why state.old state.new result }
    ensures given { result ≡ pos 0 → out.new ≡ given.given }
    ensures kept { result ≢ pos 0 → out.new ≡ out.old }
{
    let Given {
        bytes,
        state: after,
    } = given;
    if state.len() < after.len() {
        return Refused::Room.code();
    }
    state[..after.len()].copy_from_slice(&after);
    out.copy_from_slice(&bytes);
    0
}

// Returns the canonical bytes of parameters.
fn spelled<F: Field>(alloc: Global, found: Option<PoseidonConfig<F>>) -> Result<Vec<u8>, Refused>
    ensures spelled { IfOk result (λ bytes. IfSome found (λ c.
        bytes.items ≡ parameters_spelling F.MODULUS_BIT_SIZE c)) }
    ensures found { IfOk result (λ bytes. IsSome found) }
    ensures none { (IsSome found → ⊥) → result ≡ Err Count }
    ensures memory { IsSome found → IfErr result (λ refused. refused ≡ Memory) }
{
    match found {
        Some(parameters) => Ok(canonical_bytes(alloc, &parameters)?),
        None => Err(Refused::Count),
    }
}

// Returns the bytes of ready parameters over a field.
fn ready_over(alloc: Global, field: u32, rate: usize) -> Result<Vec<u8>, Refused>
    ensures ready { IfOk result (λ bytes. SpellReady field rate bytes.items) }
    ensures none { (IsReadyField field → ⊥)
        → CallGivesBy (λ bytes. bytes.items) (Err Invalid) result }
    ensures no_rate { IsReadyField field → ((2 ≤ rate) × (rate ≤ 8) → ⊥)
        → CallGivesBy (λ bytes. bytes.items) (Err Count) result }
    ensures memory { HasReady field rate → IfErr result (λ refused. refused ≡ Memory) }
{
    match field {
        3 => spelled(alloc, bls12_381_fr(alloc, rate)?),
        4 => spelled(alloc, bn254_fr(alloc, rate)?),
        _ => Err(Refused::Invalid),
    }
}

/// Writes the bytes of ready parameters to the front of `parameters`, and their count to `parameters_len`: those of a rate from
/// 2 to 8, with a capacity of one element, over a field of four words.
///
/// Answers: 0; `E_INVALID` for a number that names no such field; `E_COUNT` for another rate; `E_ROOM`, where `parameters_len` is
/// what is needed; `E_MEMORY` in place of any.
#[unsafe(no_mangle)]
pub extern "C" fn paxidore_transcript_ready_parameters(
    alloc: Global,
    parameters: &mut [u8],
    parameters_len: &mut usize,
    field: u32,
    rate: usize,
) -> i32
    // What is written are the bytes of such parameters.
    ensures ready { result ≡ pos 0 → (bytes : List ℕ) × SpellReady field rate bytes
        × (parameters.new ≡ bytes ++ drop (length bytes) parameters.old)
        × (parameters_len.new ≡ length bytes) }
    ensures none { (IsReadyField field → ⊥) → GivesCode (refusal_code Invalid) result }
    ensures no_rate { IsReadyField field → ((2 ≤ rate) × (rate ≤ 8) → ⊥)
        → GivesCode (refusal_code Count) result }
    ensures codes { HasReady field rate
        → (result ≡ pos 0) ⊎ (result ≡ refusal_code Room) ⊎ (result ≡ refusal_code Memory) }
    ensures kept { result ≢ pos 0 → parameters.new ≡ parameters.old }
{
    hand_over(ready_over(alloc, field, rate), parameters, parameters_len)
}

// Returns canonical bytes of parameters as prepared ones.
fn prepared_over(alloc: Global, field: u32, parameters: &[u8]) -> Result<Vec<u8>, Refused>
    ensures given { CallGivesBy (λ bytes. bytes.items) (in_field (field + 256)
        (prepared_bytes parameters.now)) result }
    ensures serve { IfOk result (λ bytes. ServeAs field parameters.now bytes.items) }
{
    match field {
        1 => prepared_bytes::<Fp<Goldilocks>, Own>(alloc, parameters),
        2 => prepared_bytes::<Fp<BabyBear>, Own>(alloc, parameters),
        3 => prepared_bytes::<Bls12_381Fr, Scaled>(alloc, parameters),
        4 => prepared_bytes::<Bn254Fr, Scaled>(alloc, parameters),
        _ => Err(Refused::Invalid),
    }
}

/// Writes prepared parameters to the front of `prepared`, and their count of bytes to `prepared_len`: canonical bytes of
/// parameters with each element of a field of four words as the number that it is kept as, so that a call reads it without
/// a product. A call takes them under the number of the field and 256.
///
/// Answers: 0, or the first of `E_TRUNCATED` and `E_INVALID` for a number that names no field and for bytes that are no
/// parameters; `E_ROOM`, where `prepared_len` is what is needed; `E_MEMORY` in place of any.
#[unsafe(no_mangle)]
pub extern "C" fn paxidore_transcript_prepare(
    alloc: Global,
    prepared: &mut [u8],
    prepared_len: &mut usize,
    field: u32,
    parameters: &[u8],
) -> i32
    ensures prepared { Hands (in_field (field + 256) (prepared_bytes parameters.now)) prepared.old
        prepared.new prepared_len.old prepared_len.new result }

    // Under the number of the field and 256 each call answers as under the number of the field.
    ensures serve { result ≡ pos 0 → (bytes : List ℕ) × ServeAs field parameters.now bytes
        × (prepared.new ≡ bytes ++ drop (length bytes) prepared.old)
        × (prepared_len.new ≡ length bytes) }
{
    hand_over(
        prepared_over(alloc, field, parameters),
        prepared,
        prepared_len,
    )
}
