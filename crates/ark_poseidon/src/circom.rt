//! The hash of circomlib: the first element of the permutation of a zero and the inputs.

ghost use Rattle.std.specs.Prelude.{◌≡◌, ◌+◌, ◌<◌, ◌^◌, ℕ, List, ◌∷◌, [], map, length, take, vec_len, IfOk, Ok, Err};
ghost use Rattle.ark_base.specs.Outcome.{AnswersBy};
ghost use Rattle.ark_base.specs.declared.error.Refusal.TheVariants.{SetupNotAvailable};
ghost use Rattle.ark_sponge.specs.Permutation.{width};
ghost use Rattle.ark_poseidon.specs.Circom.{circom_outcome, first_permuted};
ghost use Rattle.ark_poseidon.specs.Laws.{no_setup};

use ark_base::error::{Error, Refusal};
use ark_base::serialize::DigestItem;
use ark_crh::{CRHScheme, TwoToOneCRHScheme};
use ark_groups::ff::Field;
use ark_sponge::poseidon::{PoseidonConfig, SBox};
use rand::Rng;
use std::alloc::Global;
use std::marker::PhantomData;

/// The hash of as many elements as the parameters' rate says, as circomlib's template `Poseidon` has it: of 1 to 16 inputs at
/// `circom_parameters`, over BN254's scalar field. It is not the hash of `CRH`, which gives the element behind the capacity.
pub struct CircomCRH<F, S> {
    field: PhantomData<F>,
    sbox: PhantomData<S>,
}

/// The same of two elements, at parameters of rate 2.
pub struct CircomTwoToOneCRH<F, S> {
    field: PhantomData<F>,
    sbox: PhantomData<S>,
}

// A zero, and elements behind it.
fn state_of<F: Field>(alloc: Global, elements: &[F]) -> Result<Vec<F>, Error>
    ensures numbers { AnswersBy
        (λ state. map F.value state.items) (Ok (0 ∷ map F.value elements.now)) result }
    ensures count { IfOk result (λ state. vec_len state ≡ length elements.now + 1) }
{
    let mut state = Vec::with_capacity(alloc, elements.len().saturating_add(1))?;
    state.push(F::zero())?;
    state.extend_from_slice(elements)?;
    Ok(state)
}

// The first element of a state once it is permuted.
fn first_of_permuted<F: Field, S: SBox<F>>(
    alloc: Global,
    parameters: &PoseidonConfig<F>,
    mut state: Vec<F>,
) -> Result<F, Error>
    requires width { vec_len state ≡ width parameters.now }
    ensures { (elements : List ℕ) → map F.value state.items ≡ 0 ∷ elements
        → AnswersBy (λ x. F.value x ∷ [])
        (Ok (first_permuted F.MODULUS S.image parameters.now elements)) result }
{
    let mut scratch = vec![in alloc; F::zero(); state.len()]?;
    parameters.permute::<S>(&mut state, &mut scratch);
    match state.first() {
        Some(element) => Ok(*element),
        None => Ok(F::zero()),
    }
}

/// Returns the hash of elements.
///
/// Errors: `ParameterShape` for a capacity that is not one, `IncorrectInputLength` for another count than the rate;
/// `OutOfMemory`.
pub fn circom_hash<F: Field, S: SBox<F>>(
    alloc: Global,
    parameters: &PoseidonConfig<F>,
    elements: &[F],
) -> Result<F, Error>
    ensures { AnswersBy (λ x. F.value x ∷ [])
        (circom_outcome F.MODULUS S.image parameters.now (map F.value elements.now)) result }
{
    if parameters.capacity() != 1 {
        return Err(Error::GenericError(Refusal::ParameterShape));
    }
    if elements.len() != parameters.rate() {
        return Err(Error::IncorrectInputLength(elements.len()));
    }
    let state = state_of(alloc, elements)?;
    first_of_permuted::<F, S>(alloc, parameters, state)
}

impl<F: Field + DigestItem, S: SBox<F>> CRHScheme for CircomCRH<F, S> {
    ghost use Rattle.std.proofs.Common.{ap};
    ghost use Rattle.ark_poseidon.specs.Laws.{circom-decided, no_setup-decided};

    type Input = Vec<F>;

    type Output = F;

    type Parameters = PoseidonConfig<F>;

    ghost meaning = { λ parameters input.
        circom_outcome F.MODULUS S.image parameters (map F.value input.items) };

    ghost setup_outcome = { λ _. no_setup };

    ghost is_made = { λ _ _. ⊥ };

    /// Makes no parameters: the error is always `SetupNotAvailable`.
    fn setup<R: Rng>(_alloc: Global, _rng: &mut R) -> Result<PoseidonConfig<F>, Error>
        ensures { result ≡ Err (Error.GenericError SetupNotAvailable) }
    {
        Err(Error::GenericError(Refusal::SetupNotAvailable))
    }

    /// Acts as `circom_hash`.
    fn evaluate(alloc: Global, parameters: &PoseidonConfig<F>, input: &Vec<F>) -> Result<F, Error>
        ensures { AnswersBy (λ x. F.value x ∷ [])
            (circom_outcome F.MODULUS S.image parameters.now (map F.value input.now.items)) result }
    {
        circom_hash::<F, S>(alloc, parameters, input)
    }

    ghost meaning_decided = { λ c input.
        circom-decided F.MODULUS S.image c (map F.value input.items) };

    ghost setup_decided = { λ _. no_setup-decided };

    ghost made_alike = { λ _ p q made also. absurd made };

    ghost same_parameters = { λ p q same.
        ap (λ c input. circom_outcome F.MODULUS S.image c (map F.value input.items)) same };
}

// As `circom_hash` of the list of both.
fn circom_hash_of_two<F: Field, S: SBox<F>>(
    alloc: Global,
    parameters: &PoseidonConfig<F>,
    left: F,
    right: F,
) -> Result<F, Error>
    ensures { AnswersBy (λ x. F.value x ∷ []) (circom_outcome F.MODULUS S.image parameters.now
        (F.value left ∷ F.value right ∷ [])) result }
{
    if parameters.capacity() != 1 {
        return Err(Error::GenericError(Refusal::ParameterShape));
    }
    if parameters.rate() != 2 {
        return Err(Error::IncorrectInputLength(2));
    }
    let mut state = Vec::with_capacity(alloc, 3)?;
    state.push(F::zero())?;
    state.push(left)?;
    state.push(right)?;
    first_of_permuted::<F, S>(alloc, parameters, state)
}

impl<F: Field + DigestItem, S: SBox<F>> TwoToOneCRHScheme for CircomTwoToOneCRH<F, S> {
    ghost use Rattle.std.specs.Prelude.{◌++◌};
    ghost use Rattle.std.proofs.Common.{ap};
    ghost use Rattle.ark_poseidon.specs.Laws.{circom-decided, no_setup-decided};

    type Input = F;

    type Output = F;

    type Parameters = PoseidonConfig<F>;

    ghost evaluated = { λ c left right. circom_outcome F.MODULUS S.image c (left ++ right) };

    ghost compressed = { λ c left right. circom_outcome F.MODULUS S.image c (left ++ right) };

    ghost setup_outcome = { λ _. no_setup };

    ghost is_made = { λ _ _. ⊥ };

    /// Makes no parameters: the error is always `SetupNotAvailable`.
    fn setup<R: Rng>(_alloc: Global, _rng: &mut R) -> Result<PoseidonConfig<F>, Error>
        ensures { result ≡ Err (Error.GenericError SetupNotAvailable) }
    {
        Err(Error::GenericError(Refusal::SetupNotAvailable))
    }

    /// Acts as `compress`.
    fn evaluate(
        alloc: Global,
        parameters: &PoseidonConfig<F>,
        left: &F,
        right: &F,
    ) -> Result<F, Error>
        ensures { AnswersBy (λ x. F.value x ∷ []) (circom_outcome F.MODULUS S.image parameters.now
            (F.value left.now ∷ F.value right.now ∷ [])) result }
    {
        circom_hash_of_two::<F, S>(alloc, parameters, *left, *right)
    }

    /// Returns the hash of left and right, as `circom_hash` does of both.
    ///
    /// Errors: `ParameterShape` for a capacity that is not one, `IncorrectInputLength` for another rate than 2;
    /// `OutOfMemory`.
    fn compress(
        alloc: Global,
        parameters: &PoseidonConfig<F>,
        left: &F,
        right: &F,
    ) -> Result<F, Error>
        ensures { AnswersBy (λ x. F.value x ∷ []) (circom_outcome F.MODULUS S.image parameters.now
            (F.value left.now ∷ F.value right.now ∷ [])) result }
    {
        circom_hash_of_two::<F, S>(alloc, parameters, *left, *right)
    }

    ghost evaluated_decided = { λ c left right.
        circom-decided F.MODULUS S.image c (left ++ right) };

    ghost compressed_decided = { λ c left right.
        circom-decided F.MODULUS S.image c (left ++ right) };

    ghost setup_decided = { λ _. no_setup-decided };

    ghost made_alike = { λ _ p q made also. absurd made };

    ghost evaluated_same = { λ p q same.
        ap (λ c left right. circom_outcome F.MODULUS S.image c (left ++ right)) same };

    ghost compressed_same = { λ p q same.
        ap (λ c left right. circom_outcome F.MODULUS S.image c (left ++ right)) same };
}
