//! The Pedersen hash of one input over Jubjub.

use crate::jubjub_hashes::pedersen::parameters::PedersenParameters;
use ark_base::error::Error;
use ark_base::serialize::Numbered;
use ark_crh::CRHScheme;
use ark_groups::ec::AdditiveGroup;
use ark_pedersen::{CRH, Window};
use jubjub::Jubjub;
use rand::Rng;
use std::alloc::Global;
use std::marker::PhantomData;

/// The Pedersen hash of one input over Jubjub.
pub struct PedersenCRH<W: Window> {
    window: PhantomData<W>,
}

impl<W: Window> CRHScheme for PedersenCRH<W> {
    ghost use Rattle.std.proofs.Common.{sym, ap, ◌∙◌};
    ghost use Rattle.ark_pedersen.specs.Pedersen.{generators_in, pedersen_hash, seen_by};
    ghost use Rattle.ark_pedersen.specs.Laws.Pedersen.{seen-decided, pedersen-decided};

    type Input = Vec<u8>;

    type Output = Jubjub;

    type Parameters = PedersenParameters;

    ghost meaning = { λ p input. ⟦<CRH<Jubjub, W> as CRHScheme>⟧.meaning p.parameters input };

    ghost setup_outcome = { ⟦<CRH<Jubjub, W> as CRHScheme>⟧.setup_outcome };

    ghost is_made = { λ s p. ⟦<CRH<Jubjub, W> as CRHScheme>⟧.is_made s p.parameters };

    fn setup<R: Rng>(alloc: Global, rng: &mut R) -> Result<PedersenParameters, Error> {
        let parameters = <CRH<Jubjub, W> as CRHScheme>::setup(alloc, rng)?;
        Ok(PedersenParameters { parameters })
    }

    fn evaluate(
        alloc: Global,
        parameters: &PedersenParameters,
        input: &Vec<u8>,
    ) -> Result<Jubjub, Error> {
        <CRH<Jubjub, W> as CRHScheme>::evaluate(alloc, &parameters.parameters, input)
    }

    ghost meaning_decided = { λ p input.
        seen-decided _ _
        (pedersen-decided ⟦<Jubjub as AdditiveGroup>⟧.group W.Window
        (generators_in p.parameters) input.items) };

    ghost setup_decided = { λ _. tt };

    ghost made_alike = { λ s p q made also. made.1 ∙ sym also.1 };

    ghost same_parameters = { λ p q same.
        ap (λ lists input. seen_by ⟦<Jubjub as Numbered>⟧.numbers
        (pedersen_hash ⟦<Jubjub as AdditiveGroup>⟧.group W.Window lists input.items)) same };
}
