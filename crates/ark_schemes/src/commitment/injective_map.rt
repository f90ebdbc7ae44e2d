//! The Pedersen commitment whose value is the image of an element under a map.

ghost use Rattle.std.specs.Prelude.{Ok};
ghost use Rattle.ark_pedersen.specs.Pedersen.{image_of};
ghost use Rattle.ark_schemes.specs.PedersenCommitments.{elements_in, drawn_elements, AreAllDrawn, pedersen_commitment};

use crate::commitment::CommitmentScheme;
use crate::commitment::pedersen::{Commitment, Parameters, Randomness, Window};
use ark_base::error::Error;
use ark_groups::ec::AdditiveGroup;
pub use ark_pedersen::injective_map::InjectiveMap;
use rand::Rng;
use std::alloc::Global;
use std::marker::PhantomData;

/// The map after the Pedersen commitment.
pub struct PedersenCommCompressor<C: AdditiveGroup, I: InjectiveMap<C>, W: Window> {
    compressor: PhantomData<I>,
    commitment: PhantomData<Commitment<C, W>>,
}

impl<C: AdditiveGroup, I: InjectiveMap<C>, W: Window> CommitmentScheme
    for PedersenCommCompressor<C, I, W> {
    ghost use Rattle.std.proofs.Common.{sym, ap, ◌∙◌};
    ghost use Rattle.ark_groups.specs.Laws.Fp.{number-alone};
    ghost use Rattle.ark_pedersen.specs.Laws.Pedersen.{image-decided};
    ghost use Rattle.ark_schemes.specs.Laws.Commitments.{pedersen_commitment-decided, drawn-alike};

    type Output = I::Output;

    type Parameters = Parameters<C>;

    type Randomness = Randomness<C>;

    ghost meaning = { λ parameters input randomness.
        let bits = C.ScalarField.MODULUS_BIT_SIZE in
        let commitment = pedersen_commitment C.group bits W.Window in
        let scalar = C.ScalarField.value randomness.0 in
        image_of I.image (commitment (elements_in parameters) input scalar) };

    ghost setup_outcome = { λ stream. Ok (drawn_elements C.draw W.Window stream).1 };

    ghost is_made = { λ stream parameters.
        let bits = C.ScalarField.MODULUS_BIT_SIZE in
        AreAllDrawn C.group C.draw bits W.Window stream (elements_in parameters) };

    /// Acts as `pedersen::Commitment::setup`.
    fn setup<R: Rng>(alloc: Global, rng: &mut R) -> Result<Parameters<C>, Error> {
        Commitment::<C, W>::setup(alloc, rng)
    }

    /// Returns the image of the Pedersen commitment.
    ///
    /// Errors: those of `pedersen::Commitment::commit`; those of the map; `OutOfMemory`.
    fn commit(
        alloc: Global,
        parameters: &Parameters<C>,
        input: &[u8],
        randomness: &Randomness<C>,
    ) -> Result<I::Output, Error> {
        let commitment = Commitment::<C, W>::commit(alloc, parameters, input, randomness)?;
        I::injective_map(alloc, &commitment)
    }

    ghost meaning_decided = { λ parameters input randomness.
        image-decided I.image _ I.image_decided
        (pedersen_commitment-decided C.group C.ScalarField.MODULUS_BIT_SIZE W.Window
        (elements_in parameters) input (C.ScalarField.value randomness.0)) };

    ghost setup_decided = { λ _. tt };

    ghost made_alike = { λ s p q.
        drawn-alike C.group C.draw C.ScalarField.MODULUS_BIT_SIZE W.Window s
        (elements_in p) (elements_in q) };

    ghost same_parameters = { λ p q same.
        ap (λ lists input randomness. image_of I.image
        (pedersen_commitment C.group C.ScalarField.MODULUS_BIT_SIZE W.Window
        lists input (C.ScalarField.value randomness.0))) same };

    ghost same_randomness = { λ p bytes r s same.
        ap (λ scalar. image_of I.image
        (pedersen_commitment C.group C.ScalarField.MODULUS_BIT_SIZE W.Window
        (elements_in p) bytes scalar))
        (number-alone C.ScalarField.MODULUS C.ScalarField.MODULUS_BIT_SIZE
        C.ScalarField.modulus_laws.digits _ _
        (C.ScalarField.Field.laws.below r.0) (C.ScalarField.Field.laws.below s.0)
        (sym (C.ScalarField.spelling_is r.0) ∙ ap C.ScalarField.spelling same
        ∙ C.ScalarField.spelling_is s.0)) };

    ghost equal_if_same = { I.equal_if_same };
}
