//! The Bowe-Hopwood hash of one input over Jubjub.

use crate::jubjub_hashes::bowe_hopwood::parameters::BoweHopwoodParameters;
use ark_base::error::Error;
use ark_bowe_hopwood::CRH;
use ark_crh::CRHScheme;
use ark_groups::ec::{AdditiveGroup, TECoordinates};
use ark_groups::ff::Field;
use ark_pedersen::Window;
use ark_wide_fields::Bls12_381Fr;
use jubjub::{Jubjub, JubjubFr};
use rand::Rng;
use std::alloc::Global;
use std::marker::PhantomData;

/// The Bowe-Hopwood hash of one input over Jubjub.
pub struct BoweHopwoodCRH<W: Window> {
    window: PhantomData<W>,
}

impl<W: Window> CRHScheme for BoweHopwoodCRH<W> {
    ghost use Rattle.std.specs.Prelude.{◌∷◌, []};
    ghost use Rattle.std.proofs.Common.{sym, ap, ◌∙◌};
    ghost use Rattle.ark_pedersen.specs.Pedersen.{lists_in, seen_by};
    ghost use Rattle.ark_pedersen.specs.Laws.Pedersen.{seen-decided};
    ghost use Rattle.ark_bowe_hopwood.specs.BoweHopwood.{bowe_hopwood_hash};
    ghost use Rattle.ark_bowe_hopwood.specs.Laws.BoweHopwood.{bowe_hopwood-decided, segments-decided};

    type Input = Vec<u8>;

    type Output = Bls12_381Fr;

    type Parameters = BoweHopwoodParameters;

    ghost meaning = { λ p input. ⟦<CRH<Jubjub, W> as CRHScheme>⟧.meaning p.parameters input };

    ghost setup_outcome = { ⟦<CRH<Jubjub, W> as CRHScheme>⟧.setup_outcome };

    ghost is_made = { λ s p. ⟦<CRH<Jubjub, W> as CRHScheme>⟧.is_made s p.parameters };

    fn setup<R: Rng>(alloc: Global, rng: &mut R) -> Result<BoweHopwoodParameters, Error> {
        let parameters = <CRH<Jubjub, W> as CRHScheme>::setup(alloc, rng)?;
        Ok(BoweHopwoodParameters { parameters })
    }

    fn evaluate(
        alloc: Global,
        parameters: &BoweHopwoodParameters,
        input: &Vec<u8>,
    ) -> Result<Bls12_381Fr, Error> {
        <CRH<Jubjub, W> as CRHScheme>::evaluate(alloc, &parameters.parameters, input)
    }

    ghost meaning_decided = { λ p input.
        seen-decided (λ x. x ∷ []) _
        (bowe_hopwood-decided ⟦<Jubjub as AdditiveGroup>⟧.group ⟦<Jubjub as TECoordinates>⟧.x
        W.Window (lists_in p.parameters.generators.items) input.items) };

    ghost setup_decided = { segments-decided ⟦<JubjubFr as Field>⟧.MODULUS
        ⟦<Jubjub as AdditiveGroup>⟧.draw W.Window };

    ghost made_alike = { λ s p q made also. made.1 ∙ sym also.1 };

    ghost same_parameters = { λ p q same.
        ap (λ lists input. seen_by (λ x. x ∷ [])
        (bowe_hopwood_hash ⟦<Jubjub as AdditiveGroup>⟧.group ⟦<Jubjub as TECoordinates>⟧.x
        W.Window lists input.items)) same };
}
