//! The Pedersen hash of two inputs.

ghost use Rattle.std.specs.Prelude.{◌≡◌, ℕ, List, Ok, IfOk, OnOk, IfErr};
ghost use Rattle.ark_base.specs.Outcome.{Answers};
ghost use Rattle.ark_pedersen.specs.Pedersen.{lists_in, generators_in, doublings, AreGeneratorsOf};
ghost use Rattle.ark_pedersen.specs.Pedersen.{window_elements, AreDrawn};
ghost use Rattle.ark_pedersen.specs.Pedersen.{pedersen_hash, windows_hash, of_halves, seen_by};

use crate::{CRH, Parameters, Window, hash_halves};
use ark_base::error::Error;
use ark_base::serialize::{DigestItem, Duplicate, canonical_bytes};
use ark_crh::{CRHScheme, TwoToOneCRHScheme};
use ark_groups::ec::AdditiveGroup;
use rand::Rng;
use std::alloc::Global;
use std::marker::PhantomData;

/// The Pedersen hash of two inputs, each of at most half of the windows' bits.
pub struct TwoToOneCRH<C: AdditiveGroup, W: Window> {
    group: PhantomData<C>,
    window: PhantomData<W>,
}

impl<C: AdditiveGroup, W: Window> TwoToOneCRH<C, W> {
    /// Acts as `CRH::create_generators`.
    pub fn create_generators<R: Rng>(alloc: Global, rng: &mut R) -> Result<Vec<Vec<C>>, Error>
        ensures made { let stream = R.stream rng.old in
            IfOk result (λ made. AreDrawn C.group C.draw W.Window stream (lists_in made.items)) }
        ensures left { OnOk result
            (R.stream rng.new ≡ (window_elements C.draw W.Window (R.stream rng.old)).1) }
        ensures refused { IfErr result (λ error. error ≡ Error.OutOfMemory) }
    {
        CRH::<C, W>::create_generators(alloc, rng)
    }

    /// Acts as `CRH::generator_powers`.
    pub fn generator_powers<R: Rng>(
        alloc: Global,
        count: usize,
        rng: &mut R,
    ) -> Result<Vec<C>, Error>
        ensures made { let element = (C.draw (R.stream rng.old)).0 in
            IfOk result (λ list. list.items ≡ doublings C.group count element) }
        ensures left { OnOk result (R.stream rng.new ≡ (C.draw (R.stream rng.old)).1) }
        ensures refused { IfErr result (λ error. error ≡ Error.OutOfMemory) }
    {
        CRH::<C, W>::generator_powers(alloc, count, rng)
    }
}

impl<C: AdditiveGroup + DigestItem, W: Window> TwoToOneCRHScheme for TwoToOneCRH<C, W> {
    ghost use Rattle.std.proofs.Common.{sym, ap, ◌∙◌};
    ghost use Rattle.ark_pedersen.specs.Laws.Pedersen.{seen-decided, halves-decided};

    type Input = Vec<u8>;

    type Output = C;

    type Parameters = Parameters<C>;

    ghost evaluated = { λ parameters left right.
        let hash = pedersen_hash C.group W.Window (generators_in parameters) in
        seen_by C.numbers (of_halves W.Window hash left right) };

    ghost compressed = { λ parameters left right.
        let hash = pedersen_hash C.group W.Window (generators_in parameters) in
        seen_by C.numbers (of_halves W.Window hash (C.bytes_of left) (C.bytes_of right)) };

    ghost setup_outcome = { λ stream. Ok (window_elements C.draw W.Window stream).1 };

    ghost is_made = { λ stream parameters.
        AreDrawn C.group C.draw W.Window stream (generators_in parameters) };

    /// Acts as `CRH::setup`.
    fn setup<R: Rng>(alloc: Global, rng: &mut R) -> Result<Parameters<C>, Error> {
        <CRH<C, W> as CRHScheme>::setup(alloc, rng)
    }

    /// Returns the hash of left followed by right, with zeros behind them as far as two halves reach. It allocates
    /// nothing.
    ///
    /// Errors: `IncorrectInputLength` with right's bytes, where left has not as many, and with left's, where these have
    /// more bits than half of all the windows' bits; `ParameterShape`, where the generators are not a list for each
    /// window with an element for each of its bits.
    fn evaluate(
        _alloc: Global,
        parameters: &Parameters<C>,
        left: &Vec<u8>,
        right: &Vec<u8>,
    ) -> Result<C, Error>
        ensures exact { let hash = pedersen_hash C.group W.Window (generators_in parameters.now) in
            result ≡ of_halves W.Window hash left.now.items right.now.items }

        // Where the generators are those of elements, by the sum over the windows of the window's number times its element.
        ensures windows { let lists = generators_in parameters.now in
            (elements : List C) → AreGeneratorsOf C.group W.Window elements lists
            → let hash = windows_hash C.group W.Window elements in
            result ≡ of_halves W.Window hash left.now.items right.now.items }
    {
        hash_halves::<C, W>(&parameters.generators, left, right)
    }

    /// Returns the hash of the canonical bytes of two digests.
    ///
    /// Errors: those of `evaluate`; `OutOfMemory`.
    fn compress(alloc: Global, parameters: &Parameters<C>, left: &C, right: &C) -> Result<C, Error>
        ensures { let hash = pedersen_hash C.group W.Window (generators_in parameters.now) in
            let bytes : C → List ℕ = λ digest. C.spelling (C.view digest) in
            Answers (of_halves W.Window hash (bytes left.now) (bytes right.now)) result }
    {
        let left = canonical_bytes(alloc, left)?;
        let right = canonical_bytes(alloc, right)?;
        <TwoToOneCRH<C, W> as TwoToOneCRHScheme>::evaluate(alloc, parameters, &left, &right)
    }

    ghost evaluated_decided = { λ parameters left right.
        seen-decided C.numbers _
        (halves-decided C.group W.Window (generators_in parameters) left right) };

    ghost compressed_decided = { λ parameters left right.
        seen-decided C.numbers _
        (halves-decided C.group W.Window (generators_in parameters)
        (C.bytes_of left) (C.bytes_of right)) };

    ghost setup_decided = { λ _. tt };

    ghost made_alike = { λ s p q made also. made.1 ∙ sym also.1 };

    ghost evaluated_same = { λ p q same.
        ap (λ lists left right. seen_by C.numbers
        (of_halves W.Window (pedersen_hash C.group W.Window lists) left right)) same };

    ghost compressed_same = { λ p q same.
        ap (λ lists left right. seen_by C.numbers
        (of_halves W.Window (pedersen_hash C.group W.Window lists)
        (C.bytes_of left) (C.bytes_of right))) same };
}
