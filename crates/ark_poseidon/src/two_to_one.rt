//! The hash of two elements.

ghost use Rattle.std.specs.Prelude.{◌≡◌, ℕ, List, ◌∷◌, [], Ok, Err, IfOk, IfErr};
ghost use Rattle.ark_base.specs.Outcome.{AnswersBy};
ghost use Rattle.ark_base.specs.declared.error.Refusal.TheVariants.{SetupNotAvailable};
ghost use Rattle.ark_sponge.specs.Sponge.{poseidon_digest};
ghost use Rattle.ark_poseidon.specs.Digest.{digest_of_two};
ghost use Rattle.ark_poseidon.specs.Laws.{no_setup};

use ark_base::error::{Error, Refusal};
use ark_base::serialize::DigestItem;
use ark_crh::TwoToOneCRHScheme;
use ark_groups::ff::Field;
use ark_sponge::poseidon::digest::digest;
use ark_sponge::poseidon::{PoseidonConfig, SBox};
use rand::Rng;
use std::alloc::Global;
use std::marker::PhantomData;

/// The hash of two elements.
pub struct TwoToOneCRH<F, S> {
    field: PhantomData<F>,
    sbox: PhantomData<S>,
}

// The list of both.
fn list_of_two<F: Field>(alloc: Global, left: F, right: F) -> Result<Vec<F>, Error>
    ensures items { IfOk result (λ list. list.items ≡ left ∷ right ∷ []) }
    ensures refused { IfErr result (λ error. error ≡ Error.OutOfMemory) }
{
    let mut both = Vec::with_capacity(alloc, 2)?;
    both.push(left)?;
    both.push(right)?;
    Ok(both)
}

// As `compress`.
fn hash_of_two<F: Field, S: SBox<F>>(
    alloc: Global,
    parameters: &PoseidonConfig<F>,
    left: F,
    right: F,
) -> Result<F, Error>
    ensures in_turn { let x = F.value left ∷ [] in
        let y = F.value right ∷ [] in
        let digest = digest_of_two F.MODULUS S.image parameters.now x y in
        AnswersBy (λ x. F.value x ∷ []) (Ok digest) result }
    ensures as_list { AnswersBy
        (λ x. F.value x ∷ []) (Ok (poseidon_digest F.MODULUS S.image parameters.now
        (F.value left ∷ F.value right ∷ []))) result }
{
    let both = list_of_two(alloc, left, right)?;
    digest::<F, S>(alloc, parameters, &both)
}

impl<F: Field + DigestItem, S: SBox<F>> TwoToOneCRHScheme for TwoToOneCRH<F, S> {
    ghost use Rattle.std.proofs.Common.{ap};
    ghost use Rattle.ark_poseidon.specs.Laws.{no_setup-decided};

    type Input = F;

    type Output = F;

    type Parameters = PoseidonConfig<F>;

    ghost evaluated = { λ parameters left right.
        Ok (digest_of_two F.MODULUS S.image parameters left right) };

    ghost compressed = { λ parameters left right.
        Ok (digest_of_two F.MODULUS S.image parameters left right) };

    ghost setup_outcome = { λ _. no_setup };

    ghost is_made = { λ _ _. ⊥ };

    /// Makes no parameters: the error is always `SetupNotAvailable`.
    fn setup<R: Rng>(_alloc: Global, _rng: &mut R) -> Result<PoseidonConfig<F>, Error>
        ensures { result ≡ Err (Error.GenericError SetupNotAvailable) }
    {
        Err(Error::GenericError(Refusal::SetupNotAvailable))
    }

    /// Acts as `compress`.
    fn evaluate(
        alloc: Global,
        parameters: &PoseidonConfig<F>,
        left: &F,
        right: &F,
    ) -> Result<F, Error>
        ensures { let x = F.value left.now ∷ [] in
            let y = F.value right.now ∷ [] in
            let digest = digest_of_two F.MODULUS S.image parameters.now x y in
            AnswersBy (λ x. F.value x ∷ []) (Ok digest) result }
    {
        hash_of_two::<F, S>(alloc, parameters, *left, *right)
    }

    /// Returns the element that a new sponge gives once it has absorbed left and then right. The only error is
    /// `OutOfMemory`.
    fn compress(
        alloc: Global,
        parameters: &PoseidonConfig<F>,
        left: &F,
        right: &F,
    ) -> Result<F, Error>
        ensures in_turn { let x = F.value left.now ∷ [] in
            let y = F.value right.now ∷ [] in
            let digest = digest_of_two F.MODULUS S.image parameters.now x y in
            AnswersBy (λ x. F.value x ∷ []) (Ok digest) result }

        // It is `CRH::evaluate` of the list of both.
        ensures as_list { AnswersBy
            (λ x. F.value x ∷ []) (Ok (poseidon_digest F.MODULUS S.image parameters.now
            (F.value left.now ∷ F.value right.now ∷ []))) result }
    {
        hash_of_two::<F, S>(alloc, parameters, *left, *right)
    }

    ghost evaluated_decided = { λ _ _ _. tt };

    ghost compressed_decided = { λ _ _ _. tt };

    ghost setup_decided = { λ _. no_setup-decided };

    ghost made_alike = { λ _ p q made also. absurd made };

    ghost evaluated_same = { λ p q same.
        ap (λ c left right. Ok (digest_of_two F.MODULUS S.image c left right)) same };

    ghost compressed_same = { λ p q same.
        ap (λ c left right. Ok (digest_of_two F.MODULUS S.image c left right)) same };
}
