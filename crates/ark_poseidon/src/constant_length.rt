//! The hash of halo2's domain `ConstantLength`, as Orchard has it.

ghost use Rattle.std.specs.Prelude.{◌≡◌, ◌+◌, ◌*◌, ◌%◌, ◌^◌, ◌≤◌, ◌<◌, ◌∷◌, [], map, length, Ok, vec_len};
ghost use Rattle.ark_base.specs.Outcome.{AnswersBy};
ghost use Rattle.ark_sponge.specs.Permutation.{sums, width, permutation};
ghost use Rattle.ark_poseidon.specs.ConstantLength.{constant_length_start, constant_length_outcome, state_adding};

use ark_base::error::{Error, Refusal};
use ark_groups::ff::Field;
use ark_sponge::poseidon::{PoseidonConfig, SBox};
use std::alloc::Global;

// Returns a count times 2^64.
fn count_mark<F: Field>(count: usize) -> F
    ensures { F.value result ≡ count * 2 ^ 64 % F.MODULUS }
{
    let half = F::from_u64(4294967296);
    F::from_u64(count as u64).mul(half.mul(half))
}

// Returns the state that a hash of so many elements begins with.
fn start_of<F: Field>(alloc: Global, rate: usize, count: usize) -> Result<Vec<F>, Error>
    ensures { AnswersBy (λ state. map F.value state.items)
        (Ok (constant_length_start F.MODULUS rate count)) result }
{
    let mut state = vec![in alloc; F::zero(); rate]?;
    state.push(count_mark::<F>(count))?;
    Ok(state)
}

// Adds each element of a block to the one of a state at its place.
fn add_block<F: Field>(state: &mut [F], block: &[F])
    requires { length block.now ≤ length state.old }
    ensures { map F.value state.new
        ≡ sums F.MODULUS (map F.value state.old) (map F.value block.now) }
{
    for (i, x) in block.iter().enumerate() {
        state[i] = state[i].add(*x);
    }
}

// Adds each block of the rate to the front of a state, and permutes it.
fn add_blocks<F: Field, S: SBox<F>>(
    parameters: &PoseidonConfig<F>,
    state: &mut [F],
    scratch: &mut [F],
    elements: &[F],
)
    requires width { length state.old ≡ width parameters.now }
    requires scratch { length scratch.old ≡ length state.old }
    ensures { map F.value state.new ≡ state_adding F.MODULUS
        (permutation F.MODULUS S.image parameters.now) parameters.now.rate
        (map F.value state.old) (map F.value elements.now) }
{
    let rate = parameters.rate();
    let mut rest = elements;
    while !rest.is_empty() {
        let (block, behind) = rest.split_at(rate.min(rest.len()));
        add_block(state, block);
        parameters.permute::<S>(state, scratch);
        rest = behind;
    }
}

/// Returns the hash of some elements, by the domain `ConstantLength` of halo2: over `PallasFp` and at `pasta_parameters`
/// that of Orchard.
///
/// Errors: `ParameterShape` for a capacity that is not one, `IncorrectInputLength` of no element; `OutOfMemory`.
pub fn constant_length_hash<F: Field, S: SBox<F>>(
    alloc: Global,
    parameters: &PoseidonConfig<F>,
    elements: &[F],
) -> Result<F, Error>
    ensures { AnswersBy (λ x. F.value x ∷ []) (constant_length_outcome F.MODULUS S.image
        parameters.now (map F.value elements.now)) result }
{
    if parameters.capacity() != 1 {
        return Err(Error::GenericError(Refusal::ParameterShape));
    }
    if elements.is_empty() {
        return Err(Error::IncorrectInputLength(0));
    }
    let mut state = start_of::<F>(alloc, parameters.rate(), elements.len())?;
    let mut scratch = vec![in alloc; F::zero(); state.len()]?;
    add_blocks::<F, S>(parameters, &mut state, &mut scratch, elements);
    Ok(state[0])
}
