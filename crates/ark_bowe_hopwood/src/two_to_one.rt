//! The Bowe-Hopwood hash of two inputs.

ghost use Rattle.std.specs.Prelude.{◌≡◌, ◌∷◌, [], ℕ, List, IfOk, OnOk, IfErr};
ghost use Rattle.ark_base.specs.Outcome.{AnswersBy};
ghost use Rattle.ark_pedersen.specs.Pedersen.{lists_in, window_elements, of_halves, seen_by};
ghost use Rattle.ark_bowe_hopwood.specs.BoweHopwood.{TellsChunksApart};
ghost use Rattle.ark_bowe_hopwood.specs.BoweHopwood.{AreSegmentsOf, AreDrawnSegments, segments_outcome};
ghost use Rattle.ark_bowe_hopwood.specs.BoweHopwood.{bowe_hopwood_hash, segments_hash};

use crate::sums::hash_halves;
use crate::{CRH, Parameters};
use ark_base::error::Error;
use ark_base::serialize::{DigestItem, Duplicate, canonical_bytes};
use ark_crh::{CRHScheme, TwoToOneCRHScheme};
use ark_groups::ec::{AdditiveGroup, TECoordinates};
use ark_pedersen::Window;
use rand::Rng;
use std::alloc::Global;
use std::marker::PhantomData;

/// The Bowe-Hopwood hash of two inputs, each of at most half as many bits as there are chunks in all windows.
pub struct TwoToOneCRH<G: AdditiveGroup + TECoordinates, W: Window> {
    group: PhantomData<G>,
    window: PhantomData<W>,
}

impl<G: AdditiveGroup + TECoordinates, W: Window> TwoToOneCRH<G, W> {
    /// Acts as `CRH::create_generators`.
    pub fn create_generators<R: Rng>(alloc: Global, rng: &mut R) -> Result<Vec<Vec<G>>, Error>
        ensures made { let AreMade = AreDrawnSegments G.group G.draw W.Window (R.stream rng.old) in
            IfOk result (λ lists. AreMade (lists_in lists.items)) }
        ensures left { OnOk result
            (R.stream rng.new ≡ (window_elements G.draw W.Window (R.stream rng.old)).1) }
        ensures refused { IfErr result (λ error. error ≡ Error.OutOfMemory) }
    {
        CRH::<G, W>::create_generators(alloc, rng)
    }
}

impl<G: AdditiveGroup + TECoordinates, W: Window> TwoToOneCRHScheme for TwoToOneCRH<G, W>
where
    G::BaseField: DigestItem,
{
    ghost use Rattle.std.proofs.Common.{sym, ap, ◌∙◌};
    ghost use Rattle.ark_pedersen.specs.Laws.Pedersen.{seen-decided};
    ghost use Rattle.ark_bowe_hopwood.specs.Laws.BoweHopwood.{bowe_hopwood_halves-decided, segments-decided};

    type Input = Vec<u8>;

    type Output = G::BaseField;

    type Parameters = Parameters<G>;

    ghost evaluated = { λ parameters left right.
        let lists = lists_in parameters.generators.items in
        let hash = bowe_hopwood_hash G.group G.x W.Window lists in
        seen_by (λ x. x ∷ []) (of_halves W.Window hash left right) };

    ghost compressed = { λ parameters left right.
        let lists = lists_in parameters.generators.items in
        let hash = bowe_hopwood_hash G.group G.x W.Window lists in
        let bytes_of = G.BaseField.bytes_of in
        seen_by (λ x. x ∷ []) (of_halves W.Window hash (bytes_of left) (bytes_of right)) };

    ghost setup_outcome = { segments_outcome G.ScalarField.MODULUS G.draw W.Window };

    ghost is_made = { λ stream parameters.
        AreDrawnSegments G.group G.draw W.Window stream (lists_in parameters.generators.items) };

    /// Acts as `CRH::setup`.
    fn setup<R: Rng>(alloc: Global, rng: &mut R) -> Result<Parameters<G>, Error>
        ensures outcome { let left = R.stream rng.new in
            let outcome = segments_outcome G.ScalarField.MODULUS G.draw W.Window in
            AnswersBy (λ _. left) (outcome (R.stream rng.old)) result }
        ensures made { let AreMade = AreDrawnSegments G.group G.draw W.Window (R.stream rng.old) in
            IfOk result (λ parameters. AreMade (lists_in parameters.generators.items)) }
        ensures unique { OnOk result (TellsChunksApart G.ScalarField.MODULUS W.WINDOW_SIZE) }
    {
        <CRH<G, W> as CRHScheme>::setup(alloc, rng)
    }

    /// Returns the hash of left followed by right, with zeros behind them up to an eighth as many bytes as there are
    /// generators. It allocates nothing.
    ///
    /// Errors: `IncorrectInputLength` with right's bytes, where left has not as many, and with left's, where these have
    /// more bits than half as many as there are generators; `ParameterShape`, where the generators are not a list for
    /// each window with an element for each of its chunks.
    fn evaluate(
        _alloc: Global,
        parameters: &Parameters<G>,
        left: &Vec<u8>,
        right: &Vec<u8>,
    ) -> Result<G::BaseField, Error>
        ensures exact { let lists = lists_in parameters.now.generators.items in
            let hash = bowe_hopwood_hash G.group G.x W.Window lists in
            let halves = of_halves W.Window hash left.now.items right.now.items in
            seen_by G.BaseField.value result ≡ halves }

        // Where the generators are those of elements, by the sum over the segments of the segment's scalar times its element.
        ensures segments { let lists = lists_in parameters.now.generators.items in
            (elements : List G) → AreSegmentsOf G.group W.Window elements lists
            → let hash = segments_hash G.group G.x W.Window elements in
            let halves = of_halves W.Window hash left.now.items right.now.items in
            seen_by G.BaseField.value result ≡ halves }
    {
        hash_halves::<G, W>(&parameters.generators, left, right)
    }

    /// Returns the hash of the canonical bytes of two digests.
    ///
    /// Errors: those of `evaluate`; `OutOfMemory`.
    fn compress(
        alloc: Global,
        parameters: &Parameters<G>,
        left: &G::BaseField,
        right: &G::BaseField,
    ) -> Result<G::BaseField, Error>
        ensures { let lists = lists_in parameters.now.generators.items in
            let hash = bowe_hopwood_hash G.group G.x W.Window lists in
            let bytes : G.BaseField → List ℕ = λ x. G.BaseField.spelling (G.BaseField.view x) in
            let halves = of_halves W.Window hash (bytes left.now) (bytes right.now) in
            AnswersBy G.BaseField.value halves result }
    {
        let left = canonical_bytes(alloc, left)?;
        let right = canonical_bytes(alloc, right)?;
        hash_halves::<G, W>(&parameters.generators, &left, &right)
    }

    ghost evaluated_decided = { λ parameters left right.
        seen-decided (λ x. x ∷ []) _
        (bowe_hopwood_halves-decided G.group G.x W.Window (lists_in parameters.generators.items)
        left right) };

    ghost compressed_decided = { λ parameters left right.
        seen-decided (λ x. x ∷ []) _
        (bowe_hopwood_halves-decided G.group G.x W.Window (lists_in parameters.generators.items)
        (G.BaseField.bytes_of left) (G.BaseField.bytes_of right)) };

    ghost setup_decided = { segments-decided G.ScalarField.MODULUS G.draw W.Window };

    ghost made_alike = { λ s p q made also. made.1 ∙ sym also.1 };

    ghost evaluated_same = { λ p q same.
        ap (λ lists left right. seen_by (λ x. x ∷ [])
        (of_halves W.Window (bowe_hopwood_hash G.group G.x W.Window lists) left right)) same };

    ghost compressed_same = { λ p q same.
        ap (λ lists left right. seen_by (λ x. x ∷ [])
        (of_halves W.Window (bowe_hopwood_hash G.group G.x W.Window lists)
        (G.BaseField.bytes_of left) (G.BaseField.bytes_of right))) same };
}
