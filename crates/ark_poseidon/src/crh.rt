//! The hash of a list.

ghost use Rattle.std.specs.Prelude.{◌≡◌, ℕ, List, ◌∷◌, [], map, Ok, Err};
ghost use Rattle.ark_base.specs.Outcome.{AnswersBy};
ghost use Rattle.ark_base.specs.declared.error.Refusal.TheVariants.{SetupNotAvailable};
ghost use Rattle.ark_sponge.specs.Sponge.{poseidon_digest};
ghost use Rattle.ark_poseidon.specs.Laws.{no_setup};

use ark_base::error::{Error, Refusal};
use ark_base::serialize::DigestItem;
use ark_crh::CRHScheme;
use ark_groups::ff::Field;
use ark_sponge::poseidon::digest::digest;
use ark_sponge::poseidon::{PoseidonConfig, SBox};
use rand::Rng;
use std::alloc::Global;
use std::marker::PhantomData;

/// The hash of a list of elements.
pub struct CRH<F, S> {
    field: PhantomData<F>,
    sbox: PhantomData<S>,
}

impl<F: Field + DigestItem, S: SBox<F>> CRHScheme for CRH<F, S> {
    ghost use Rattle.std.proofs.Common.{ap};
    ghost use Rattle.ark_poseidon.specs.Laws.{no_setup-decided};

    type Input = Vec<F>;

    type Output = F;

    type Parameters = PoseidonConfig<F>;

    ghost meaning = { λ parameters input.
        Ok (poseidon_digest F.MODULUS S.image parameters (map F.value input.items)) };

    ghost setup_outcome = { λ _. no_setup };

    ghost is_made = { λ _ _. ⊥ };

    /// Makes no parameters: the error is always `SetupNotAvailable`.
    fn setup<R: Rng>(_alloc: Global, _rng: &mut R) -> Result<PoseidonConfig<F>, Error>
        ensures { result ≡ Err (Error.GenericError SetupNotAvailable) }
    {
        Err(Error::GenericError(Refusal::SetupNotAvailable))
    }

    /// Returns the element that a new sponge gives once it has absorbed the list. The only error is `OutOfMemory`.
    fn evaluate(alloc: Global, parameters: &PoseidonConfig<F>, input: &Vec<F>) -> Result<F, Error>
        ensures { AnswersBy (λ x. F.value x ∷ [])
            (Ok (poseidon_digest F.MODULUS S.image parameters.now (map F.value input.now.items)))
            result }
    {
        digest::<F, S>(alloc, parameters, input)
    }

    ghost meaning_decided = { λ _ _. tt };

    ghost setup_decided = { λ _. no_setup-decided };

    ghost made_alike = { λ _ p q made also. absurd made };

    ghost same_parameters = { λ p q same.
        ap (λ c input. Ok (poseidon_digest F.MODULUS S.image c (map F.value input.items))) same };
}
