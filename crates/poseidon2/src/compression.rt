//! The hash of two elements that is a permutation cut short.

ghost use Rattle.std.specs.Prelude.{◌≡◌, ◌+◌, ◌-◌, ◌≤◌, ℕ, List, ◌∷◌, [], ◌++◌, map, length, take, replicate, vec_len, IfOk, IsOk, Ok, Err};
ghost use Rattle.ark_base.specs.Outcome.{AnswersBy};
ghost use Rattle.ark_base.specs.declared.error.Refusal.TheVariants.{SetupNotAvailable};
ghost use Rattle.poseidon2.specs.Permutation.{poseidon2_permutation};
ghost use Rattle.poseidon2.specs.Compression.{poseidon2_hash, setup_refused};

use crate::blocks::BlockMatrix;
use crate::config::Poseidon2Config;
use ark_base::error::{Error, Refusal};
use ark_base::serialize::DigestItem;
use ark_crh::TwoToOneCRHScheme;
use ark_groups::ff::Field;
use ark_sponge::poseidon::SBox;
use rand::Rng;
use std::alloc::Global;
use std::marker::PhantomData;

/// The hash of two elements: the first element of the permutation of left, right, and zeros behind them. So the authors'
/// code hashes two elements at a width of three, and so does Plonky3's `TruncatedPermutation` with chunks of one element.
pub struct Poseidon2TwoToOneCRH<F, S, B> {
    field: PhantomData<F>,
    sbox: PhantomData<S>,
    matrix: PhantomData<B>,
}

// Returns two elements with zeros behind them.
fn state_of<F: Field>(alloc: Global, left: F, right: F, width: usize) -> Result<Vec<F>, Error>
    requires { 2 ≤ width }
    ensures numbers { AnswersBy (λ state. map F.value state.items)
        (Ok (F.value left ∷ F.value right ∷ replicate (width - 2) 0)) result }
    ensures count { IfOk result (λ state. vec_len state ≡ width) }
{
    let mut state = vec![in alloc; F::zero(); width]?;
    state[0] = left;
    state[1] = right;
    Ok(state)
}

// Returns the first element of a state once it is permuted.
fn first_of_permuted<F: Field, S: SBox<F>, B: BlockMatrix<F>>(
    parameters: &Poseidon2Config<F>,
    state: &mut [F],
) -> F
    requires some { 1 ≤ length state.old }
    requires width { length state.old ≡ length parameters.now.diagonal }
    ensures { F.value result ∷ [] ≡ take 1 (poseidon2_permutation F.MODULUS S.image B.matrix
        parameters.now (map F.value state.old)) }
{
    parameters.permute::<S, B>(state);
    state[0]
}

// Returns the hash of two elements.
fn hash_of_two<F: Field, S: SBox<F>, B: BlockMatrix<F>>(
    alloc: Global,
    parameters: &Poseidon2Config<F>,
    left: F,
    right: F,
) -> Result<F, Error>
    ensures hash { AnswersBy (λ x. F.value x ∷ [])
        (poseidon2_hash F.MODULUS S.image B.matrix parameters.now
        (F.value left ∷ []) (F.value right ∷ [])) result }
    ensures three { length parameters.now.diagonal ≡ 3 → IsOk result }
{
    // This list shows that three elements fit in memory.
    let diagonal = parameters.diagonal();
    if diagonal.len() == 3 {
        let mut state = [left, right, F::zero()];
        return Ok(first_of_permuted::<F, S, B>(parameters, &mut state));
    }
    let mut state = state_of(alloc, left, right, parameters.width())?;
    Ok(first_of_permuted::<F, S, B>(parameters, &mut state))
}

impl<F: Field + DigestItem, S: SBox<F>, B: BlockMatrix<F>> TwoToOneCRHScheme
    for Poseidon2TwoToOneCRH<F, S, B> {
    ghost use Rattle.std.proofs.Common.{ap};
    ghost use Rattle.poseidon2.specs.Laws.Instances.{setup_refused-decided};

    type Input = F;

    type Output = F;

    type Parameters = Poseidon2Config<F>;

    ghost evaluated = { poseidon2_hash F.MODULUS S.image B.matrix };

    ghost compressed = { poseidon2_hash F.MODULUS S.image B.matrix };

    ghost setup_outcome = { λ _. setup_refused };

    ghost is_made = { λ _ _. ⊥ };

    /// Makes no parameters: the error is always `SetupNotAvailable`.
    fn setup<R: Rng>(_alloc: Global, _rng: &mut R) -> Result<Poseidon2Config<F>, Error>
        ensures { result ≡ Err (Error.GenericError SetupNotAvailable) }
    {
        Err(Error::GenericError(Refusal::SetupNotAvailable))
    }

    /// Acts as `compress`.
    fn evaluate(
        alloc: Global,
        parameters: &Poseidon2Config<F>,
        left: &F,
        right: &F,
    ) -> Result<F, Error>
        ensures hash { AnswersBy (λ x. F.value x ∷ [])
            (poseidon2_hash F.MODULUS S.image B.matrix parameters.now
            (F.value left.now ∷ []) (F.value right.now ∷ [])) result }

        // Three elements need no memory.
        ensures three { length parameters.now.diagonal ≡ 3 → IsOk result }
    {
        hash_of_two::<F, S, B>(alloc, parameters, *left, *right)
    }

    /// Returns the first element of the permutation of left, right, and zeros up to the width. It allocates nothing for a
    /// width of three; else the only error is `OutOfMemory`.
    fn compress(
        alloc: Global,
        parameters: &Poseidon2Config<F>,
        left: &F,
        right: &F,
    ) -> Result<F, Error>
        ensures hash { AnswersBy (λ x. F.value x ∷ [])
            (poseidon2_hash F.MODULUS S.image B.matrix parameters.now
            (F.value left.now ∷ []) (F.value right.now ∷ [])) result }

        // Three elements need no memory.
        ensures three { length parameters.now.diagonal ≡ 3 → IsOk result }
    {
        hash_of_two::<F, S, B>(alloc, parameters, *left, *right)
    }

    ghost evaluated_decided = { λ _ _ _. tt };

    ghost compressed_decided = { λ _ _ _. tt };

    ghost setup_decided = { λ _. setup_refused-decided };

    ghost made_alike = { λ _ p q made also. absurd made };

    ghost evaluated_same = { λ p q same. ap (poseidon2_hash F.MODULUS S.image B.matrix) same };

    ghost compressed_same = { λ p q same. ap (poseidon2_hash F.MODULUS S.image B.matrix) same };
}
