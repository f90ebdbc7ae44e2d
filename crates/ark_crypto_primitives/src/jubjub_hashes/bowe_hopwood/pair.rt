//! The Bowe-Hopwood hash of two inputs over Jubjub.

use crate::jubjub_hashes::bowe_hopwood::parameters::BoweHopwoodParameters;
use ark_base::error::Error;
use ark_base::serialize::DigestItem;
use ark_bowe_hopwood::TwoToOneCRH;
use ark_crh::TwoToOneCRHScheme;
use ark_groups::ec::{AdditiveGroup, TECoordinates};
use ark_groups::ff::Field;
use ark_pedersen::Window;
use ark_wide_fields::Bls12_381Fr;
use jubjub::{Jubjub, JubjubFr};
use rand::Rng;
use std::alloc::Global;
use std::marker::PhantomData;

/// The Bowe-Hopwood hash of two inputs over Jubjub, each of at most half of the windows' bits.
pub struct BoweHopwoodTwoToOneCRH<W: Window> {
    window: PhantomData<W>,
}

impl<W: Window> TwoToOneCRHScheme for BoweHopwoodTwoToOneCRH<W> {
    ghost use Rattle.std.specs.Prelude.{◌∷◌, []};
    ghost use Rattle.std.proofs.Common.{sym, ap, ◌∙◌};
    ghost use Rattle.ark_pedersen.specs.Pedersen.{lists_in, of_halves, seen_by};
    ghost use Rattle.ark_pedersen.specs.Laws.Pedersen.{seen-decided};
    ghost use Rattle.ark_bowe_hopwood.specs.BoweHopwood.{bowe_hopwood_hash};
    ghost use Rattle.ark_bowe_hopwood.specs.Laws.BoweHopwood.{bowe_hopwood_halves-decided, segments-decided};

    type Input = Vec<u8>;

    type Output = Bls12_381Fr;

    type Parameters = BoweHopwoodParameters;

    ghost evaluated = { λ p left right.
        ⟦<TwoToOneCRH<Jubjub, W> as TwoToOneCRHScheme>⟧.evaluated p.parameters left right };

    ghost compressed = { λ p left right.
        ⟦<TwoToOneCRH<Jubjub, W> as TwoToOneCRHScheme>⟧.compressed p.parameters left right };

    ghost setup_outcome = { ⟦<TwoToOneCRH<Jubjub, W> as TwoToOneCRHScheme>⟧.setup_outcome };

    ghost is_made = { λ s p.
        ⟦<TwoToOneCRH<Jubjub, W> as TwoToOneCRHScheme>⟧.is_made s p.parameters };

    fn setup<R: Rng>(alloc: Global, rng: &mut R) -> Result<BoweHopwoodParameters, Error> {
        let parameters = <TwoToOneCRH<Jubjub, W> as TwoToOneCRHScheme>::setup(alloc, rng)?;
        Ok(BoweHopwoodParameters { parameters })
    }

    fn evaluate(
        alloc: Global,
        parameters: &BoweHopwoodParameters,
        left: &Vec<u8>,
        right: &Vec<u8>,
    ) -> Result<Bls12_381Fr, Error> {
        let inner = &parameters.parameters;
        <TwoToOneCRH<Jubjub, W> as TwoToOneCRHScheme>::evaluate(alloc, inner, left, right)
    }

    fn compress(
        alloc: Global,
        parameters: &BoweHopwoodParameters,
        left: &Bls12_381Fr,
        right: &Bls12_381Fr,
    ) -> Result<Bls12_381Fr, Error> {
        let inner = &parameters.parameters;
        <TwoToOneCRH<Jubjub, W> as TwoToOneCRHScheme>::compress(alloc, inner, left, right)
    }

    ghost evaluated_decided = { λ p left right.
        seen-decided (λ x. x ∷ []) _
        (bowe_hopwood_halves-decided ⟦<Jubjub as AdditiveGroup>⟧.group ⟦<Jubjub as TECoordinates>⟧.x
        W.Window (lists_in p.parameters.generators.items)
        left right) };

    ghost compressed_decided = { λ p left right.
        seen-decided (λ x. x ∷ []) _
        (bowe_hopwood_halves-decided ⟦<Jubjub as AdditiveGroup>⟧.group ⟦<Jubjub as TECoordinates>⟧.x
        W.Window (lists_in p.parameters.generators.items)
        (⟦<Bls12_381Fr as DigestItem>⟧.bytes_of left)
        (⟦<Bls12_381Fr as DigestItem>⟧.bytes_of right)) };

    ghost setup_decided = { segments-decided ⟦<JubjubFr as Field>⟧.MODULUS
        ⟦<Jubjub as AdditiveGroup>⟧.draw W.Window };

    ghost made_alike = { λ s p q made also. made.1 ∙ sym also.1 };

    ghost evaluated_same = { λ p q same.
        ap (λ lists left right. seen_by (λ x. x ∷ [])
        (of_halves W.Window (bowe_hopwood_hash ⟦<Jubjub as AdditiveGroup>⟧.group
        ⟦<Jubjub as TECoordinates>⟧.x
        W.Window lists)
        left right)) same };

    ghost compressed_same = { λ p q same.
        ap (λ lists left right. seen_by (λ x. x ∷ [])
        (of_halves W.Window (bowe_hopwood_hash ⟦<Jubjub as AdditiveGroup>⟧.group
        ⟦<Jubjub as TECoordinates>⟧.x
        W.Window lists)
        (⟦<Bls12_381Fr as DigestItem>⟧.bytes_of left)
        (⟦<Bls12_381Fr as DigestItem>⟧.bytes_of right))) same };
}
