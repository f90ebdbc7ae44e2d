//! The Pedersen hash of two inputs over Jubjub.

use crate::jubjub_hashes::pedersen::parameters::PedersenParameters;
use ark_base::error::Error;
use ark_base::serialize::{DigestItem, Numbered};
use ark_crh::TwoToOneCRHScheme;
use ark_groups::ec::AdditiveGroup;
use ark_pedersen::{TwoToOneCRH, Window};
use jubjub::Jubjub;
use rand::Rng;
use std::alloc::Global;
use std::marker::PhantomData;

/// The Pedersen hash of two inputs over Jubjub, each of at most half of the windows' bits.
pub struct PedersenTwoToOneCRH<W: Window> {
    window: PhantomData<W>,
}

impl<W: Window> TwoToOneCRHScheme for PedersenTwoToOneCRH<W> {
    ghost use Rattle.std.proofs.Common.{sym, ap, ◌∙◌};
    ghost use Rattle.ark_pedersen.specs.Pedersen.{generators_in, pedersen_hash, of_halves, seen_by};
    ghost use Rattle.ark_pedersen.specs.Laws.Pedersen.{seen-decided, halves-decided};

    type Input = Vec<u8>;

    type Output = Jubjub;

    type Parameters = PedersenParameters;

    ghost evaluated = { λ p left right.
        ⟦<TwoToOneCRH<Jubjub, W> as TwoToOneCRHScheme>⟧.evaluated p.parameters left right };

    ghost compressed = { λ p left right.
        ⟦<TwoToOneCRH<Jubjub, W> as TwoToOneCRHScheme>⟧.compressed p.parameters left right };

    ghost setup_outcome = { ⟦<TwoToOneCRH<Jubjub, W> as TwoToOneCRHScheme>⟧.setup_outcome };

    ghost is_made = { λ s p.
        ⟦<TwoToOneCRH<Jubjub, W> as TwoToOneCRHScheme>⟧.is_made s p.parameters };

    fn setup<R: Rng>(alloc: Global, rng: &mut R) -> Result<PedersenParameters, Error> {
        let parameters = <TwoToOneCRH<Jubjub, W> as TwoToOneCRHScheme>::setup(alloc, rng)?;
        Ok(PedersenParameters { parameters })
    }

    fn evaluate(
        alloc: Global,
        parameters: &PedersenParameters,
        left: &Vec<u8>,
        right: &Vec<u8>,
    ) -> Result<Jubjub, Error> {
        let inner = &parameters.parameters;
        <TwoToOneCRH<Jubjub, W> as TwoToOneCRHScheme>::evaluate(alloc, inner, left, right)
    }

    fn compress(
        alloc: Global,
        parameters: &PedersenParameters,
        left: &Jubjub,
        right: &Jubjub,
    ) -> Result<Jubjub, Error> {
        let inner = &parameters.parameters;
        <TwoToOneCRH<Jubjub, W> as TwoToOneCRHScheme>::compress(alloc, inner, left, right)
    }

    ghost evaluated_decided = { λ p left right.
        seen-decided _ _
        (halves-decided ⟦<Jubjub as AdditiveGroup>⟧.group W.Window
        (generators_in p.parameters) left right) };

    ghost compressed_decided = { λ p left right.
        seen-decided _ _
        (halves-decided ⟦<Jubjub as AdditiveGroup>⟧.group W.Window
        (generators_in p.parameters)
        (⟦<Jubjub as DigestItem>⟧.bytes_of left) (⟦<Jubjub as DigestItem>⟧.bytes_of right)) };

    ghost setup_decided = { λ _. tt };

    ghost made_alike = { λ s p q made also. made.1 ∙ sym also.1 };

    ghost evaluated_same = { λ p q same.
        ap (λ lists left right. seen_by ⟦<Jubjub as Numbered>⟧.numbers
        (of_halves W.Window (pedersen_hash ⟦<Jubjub as AdditiveGroup>⟧.group W.Window lists)
        left right)) same };

    ghost compressed_same = { λ p q same.
        ap (λ lists left right. seen_by ⟦<Jubjub as Numbered>⟧.numbers
        (of_halves W.Window (pedersen_hash ⟦<Jubjub as AdditiveGroup>⟧.group W.Window lists)
        (⟦<Jubjub as DigestItem>⟧.bytes_of left) (⟦<Jubjub as DigestItem>⟧.bytes_of right))) same };
}
