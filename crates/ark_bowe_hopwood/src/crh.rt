//! The Bowe-Hopwood hash of one input.

ghost use Rattle.std.specs.Prelude.{◌≡◌, ◌∷◌, [], ℕ, List, map, IfOk, OnOk, IfErr};
ghost use Rattle.ark_base.specs.Outcome.{AnswersBy};
ghost use Rattle.ark_pedersen.specs.Pedersen.{lists_in, window_elements, seen_by};
ghost use Rattle.ark_bowe_hopwood.specs.BoweHopwood.{sixteenfolds, TellsChunksApart};
ghost use Rattle.ark_bowe_hopwood.specs.BoweHopwood.{AreSegmentsOf, AreDrawnSegments, segments_outcome};
ghost use Rattle.ark_bowe_hopwood.specs.BoweHopwood.{bowe_hopwood_hash, segments_hash};

use crate::parameters::Parameters;
use crate::setup::is_fitting;
use crate::sums::hash_bytes;
use ark_base::error::{Error, Refusal};
use ark_base::serialize::DigestItem;
use ark_crh::CRHScheme;
use ark_groups::ec::{AdditiveGroup, TECoordinates};
use ark_groups::ff::Field;
use ark_pedersen::{Window, drawn_lists, lists_of};
use rand::Rng;
use std::alloc::Global;
use std::marker::PhantomData;

/// The Bowe-Hopwood hash of one input.
pub struct CRH<G: AdditiveGroup + TECoordinates, W: Window> {
    group: PhantomData<G>,
    window: PhantomData<W>,
}

impl<G: AdditiveGroup + TECoordinates, W: Window> CRH<G, W> {
    /// Returns a list for each window: an element that is drawn, then each sixteen times the one before, as many as the
    /// window has chunks. The only error is `OutOfMemory`.
    pub fn create_generators<R: Rng>(alloc: Global, rng: &mut R) -> Result<Vec<Vec<G>>, Error>
        ensures made { let AreMade = AreDrawnSegments G.group G.draw W.Window (R.stream rng.old) in
            IfOk result (λ lists. AreMade (lists_in lists.items)) }
        ensures left { OnOk result
            (R.stream rng.new ≡ (window_elements G.draw W.Window (R.stream rng.old)).1) }
        ensures refused { IfErr result (λ error. error ≡ Error.OutOfMemory) }
    {
        drawn_lists::<G, W, R>(alloc, 4, rng)
    }
}

/// Returns parameters of the elements of the windows: of each, it and its sixteenfolds, as many as a window has chunks.
///
/// The only error is `OutOfMemory`.
pub fn parameters_of<G: AdditiveGroup>(
    alloc: Global,
    size: usize,
    elements: &[G],
) -> Result<Parameters<G>, Error>
    ensures made { IfOk result (λ parameters.
        lists_in parameters.generators.items ≡ map (sixteenfolds G.group size) elements.now) }
    ensures refused { IfErr result (λ error. error ≡ Error.OutOfMemory) }
{
    Ok(Parameters {
        generators: lists_of(alloc, size, 4, elements)?,
    })
}

impl<G: AdditiveGroup + TECoordinates, W: Window> CRHScheme for CRH<G, W>
where
    G::BaseField: DigestItem,
{
    ghost use Rattle.std.proofs.Common.{sym, ap, ◌∙◌};
    ghost use Rattle.ark_pedersen.specs.Laws.Pedersen.{seen-decided};
    ghost use Rattle.ark_bowe_hopwood.specs.Laws.BoweHopwood.{bowe_hopwood-decided, segments-decided};

    type Input = Vec<u8>;

    type Output = G::BaseField;

    type Parameters = Parameters<G>;

    ghost meaning = { λ parameters input. let lists = lists_in parameters.generators.items in
        seen_by (λ x. x ∷ []) (bowe_hopwood_hash G.group G.x W.Window lists input.items) };

    ghost setup_outcome = { segments_outcome G.ScalarField.MODULUS G.draw W.Window };

    ghost is_made = { λ stream parameters.
        AreDrawnSegments G.group G.draw W.Window stream (lists_in parameters.generators.items) };

    /// Returns parameters of generators as `create_generators` makes them.
    ///
    /// The seed of `rng` may be known to all where a draw tells no logarithm, as over `Jubjub`; a label shows besides
    /// that nobody chose it (`bowe_hopwood_from_label`).
    ///
    /// Errors: `WindowTooLarge`, where four times the sum of the powers of 16 below a window's size passes half of the
    /// order less one; `OutOfMemory`.
    fn setup<R: Rng>(alloc: Global, rng: &mut R) -> Result<Parameters<G>, Error>
        ensures outcome { let left = R.stream rng.new in
            let outcome = segments_outcome G.ScalarField.MODULUS G.draw W.Window in
            AnswersBy (λ _. left) (outcome (R.stream rng.old)) result }
        ensures made { let AreMade = AreDrawnSegments G.group G.draw W.Window (R.stream rng.old) in
            IfOk result (λ parameters. AreMade (lists_in parameters.generators.items)) }

        // Two lists of chunks of one length, at most a window's, are equal where their scalars leave one remainder by the order.
        ensures unique { OnOk result (TellsChunksApart G.ScalarField.MODULUS W.WINDOW_SIZE) }
    {
        if !is_fitting(G::ScalarField::modulus(), W::WINDOW_SIZE) {
            return Err(Error::GenericError(Refusal::WindowTooLarge));
        }
        Ok(Parameters {
            generators: Self::create_generators(alloc, rng)?,
        })
    }

    /// Returns the first coordinate of the sum of the generators, each as often as the digit of its chunk of the input
    /// says. It allocates nothing.
    ///
    /// Errors: `IncorrectInputLength` with the input's bytes, where these have more bits than three for each generator;
    /// `ParameterShape`, where the generators are not a list for each window with an element for each of its chunks.
    fn evaluate(
        _alloc: Global,
        parameters: &Parameters<G>,
        input: &Vec<u8>,
    ) -> Result<G::BaseField, Error>
        ensures exact { let lists = lists_in parameters.now.generators.items in
            let hash = bowe_hopwood_hash G.group G.x W.Window lists in
            seen_by G.BaseField.value result ≡ hash input.now.items }

        // Where the generators are those of elements, by the sum over the segments of the segment's scalar times its element.
        ensures segments { let lists = lists_in parameters.now.generators.items in
            (elements : List G) → AreSegmentsOf G.group W.Window elements lists
            → let hash = segments_hash G.group G.x W.Window elements in
            seen_by G.BaseField.value result ≡ hash input.now.items }
    {
        hash_bytes::<G, W>(&parameters.generators, input)
    }

    ghost meaning_decided = { λ parameters input.
        seen-decided (λ x. x ∷ []) _
        (bowe_hopwood-decided G.group G.x W.Window (lists_in parameters.generators.items)
        input.items) };

    ghost setup_decided = { segments-decided G.ScalarField.MODULUS G.draw W.Window };

    ghost made_alike = { λ s p q made also. made.1 ∙ sym also.1 };

    ghost same_parameters = { λ p q same.
        ap (λ lists input. seen_by (λ x. x ∷ [])
        (bowe_hopwood_hash G.group G.x W.Window lists input.items)) same };
}
