//! The Pedersen hash of one input.

ghost use Rattle.std.specs.Prelude.{◌≡◌, ℕ, List, map, Ok, IfOk, OnOk, IfErr};
ghost use Rattle.ark_pedersen.specs.Pedersen.{lists_in, generators_in, doublings, AreGeneratorsOf};
ghost use Rattle.ark_pedersen.specs.Pedersen.{window_elements, AreDrawn};
ghost use Rattle.ark_pedersen.specs.Pedersen.{pedersen_hash, windows_hash, seen_by};

use crate::generators::{drawn_lists, iterates_of, lists_of};
use crate::parameters::Parameters;
use crate::sums::hash_bytes;
use crate::window::Window;
use ark_base::error::Error;
use ark_base::serialize::DigestItem;
use ark_crh::CRHScheme;
use ark_groups::ec::AdditiveGroup;
use rand::Rng;
use std::alloc::Global;
use std::marker::PhantomData;

/// The Pedersen hash of one input.
pub struct CRH<C: AdditiveGroup, W: Window> {
    group: PhantomData<C>,
    window: PhantomData<W>,
}

impl<C: AdditiveGroup, W: Window> CRH<C, W> {
    /// Returns a list for each window: an element that is drawn, then its doublings. The only error is `OutOfMemory`.
    pub fn create_generators<R: Rng>(alloc: Global, rng: &mut R) -> Result<Vec<Vec<C>>, Error>
        ensures made { let stream = R.stream rng.old in
            IfOk result (λ made. AreDrawn C.group C.draw W.Window stream (lists_in made.items)) }
        ensures left { OnOk result
            (R.stream rng.new ≡ (window_elements C.draw W.Window (R.stream rng.old)).1) }
        ensures refused { IfErr result (λ error. error ≡ Error.OutOfMemory) }
    {
        drawn_lists::<C, W, R>(alloc, 1, rng)
    }

    /// Returns an element that is drawn, then its doublings, `count` in all. The only error is `OutOfMemory`.
    pub fn generator_powers<R: Rng>(
        alloc: Global,
        count: usize,
        rng: &mut R,
    ) -> Result<Vec<C>, Error>
        ensures made { let element = (C.draw (R.stream rng.old)).0 in
            IfOk result (λ list. list.items ≡ doublings C.group count element) }
        ensures left { OnOk result (R.stream rng.new ≡ (C.draw (R.stream rng.old)).1) }
        ensures refused { IfErr result (λ error. error ≡ Error.OutOfMemory) }
    {
        let element = C::rand(rng);
        doublings_of(alloc, count, element)
    }
}

/// Returns an element, then its doublings, `count` in all. The only error is `OutOfMemory`.
pub fn doublings_of<C: AdditiveGroup>(
    alloc: Global,
    count: usize,
    element: C,
) -> Result<Vec<C>, Error>
    ensures made { IfOk result (λ list. list.items ≡ doublings C.group count element) }
    ensures refused { IfErr result (λ error. error ≡ Error.OutOfMemory) }
{
    iterates_of(alloc, count, 1, element)
}

/// Returns parameters of the elements of the windows: of each, it and its doublings, as many as a window has bits.
///
/// The only error is `OutOfMemory`.
pub fn parameters_of<C: AdditiveGroup>(
    alloc: Global,
    size: usize,
    elements: &[C],
) -> Result<Parameters<C>, Error>
    ensures made { IfOk result (λ parameters.
        generators_in parameters ≡ map (doublings C.group size) elements.now) }
    ensures refused { IfErr result (λ error. error ≡ Error.OutOfMemory) }
{
    Ok(Parameters {
        generators: lists_of(alloc, size, 1, elements)?,
    })
}

impl<C: AdditiveGroup + DigestItem, W: Window> CRHScheme for CRH<C, W> {
    ghost use Rattle.std.proofs.Common.{sym, ap, ◌∙◌};
    ghost use Rattle.ark_pedersen.specs.Laws.Pedersen.{seen-decided, pedersen-decided};

    type Input = Vec<u8>;

    type Output = C;

    type Parameters = Parameters<C>;

    ghost meaning = { λ parameters input.
        seen_by C.numbers (pedersen_hash C.group W.Window (generators_in parameters) input.items) };

    ghost setup_outcome = { λ stream. Ok (window_elements C.draw W.Window stream).1 };

    ghost is_made = { λ stream parameters.
        AreDrawn C.group C.draw W.Window stream (generators_in parameters) };

    /// Returns parameters of generators as `create_generators` makes them.
    ///
    /// The seed of `rng` may be known to all where a draw tells no logarithm, as over `Jubjub`; a label shows besides
    /// that nobody chose it (`pedersen_from_label`). Windows that pass the order are made all the same: `windows_fit`
    /// tests them. The only error is `OutOfMemory`.
    fn setup<R: Rng>(alloc: Global, rng: &mut R) -> Result<Parameters<C>, Error> {
        Ok(Parameters {
            generators: Self::create_generators(alloc, rng)?,
        })
    }

    /// Returns the sum of the generators at the set bits of the input. It allocates nothing.
    ///
    /// Errors: `IncorrectInputLength` with the input's bytes, where these have more bits than the windows;
    /// `ParameterShape`, where the generators are not a list for each window with an element for each of its bits.
    fn evaluate(_alloc: Global, parameters: &Parameters<C>, input: &Vec<u8>) -> Result<C, Error>
        ensures exact { let lists = generators_in parameters.now in
            result ≡ pedersen_hash C.group W.Window lists input.now.items }

        // Where the generators are those of elements, the sum over the windows of the window's number times its element.
        ensures windows { let lists = generators_in parameters.now in
            (elements : List C) → AreGeneratorsOf C.group W.Window elements lists
            → result ≡ windows_hash C.group W.Window elements input.now.items }
    {
        hash_bytes::<C, W>(&parameters.generators, input)
    }

    ghost meaning_decided = { λ parameters input.
        seen-decided C.numbers _
        (pedersen-decided C.group W.Window (generators_in parameters) input.items) };

    ghost setup_decided = { λ _. tt };

    ghost made_alike = { λ s p q made also. made.1 ∙ sym also.1 };

    ghost same_parameters = { λ p q same.
        ap (λ lists input. seen_by C.numbers
        (pedersen_hash C.group W.Window lists input.items)) same };
}
