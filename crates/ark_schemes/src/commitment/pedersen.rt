//! The Pedersen commitment.

ghost use Rattle.std.specs.Prelude.{◌≡◌, ℕ, ◌+◌, ◌-◌, ◌%◌, ◌<◌, ◌^◌, List, length, drop, Ok};
ghost use Rattle.ark_groups.specs.Bits.{bits_of_number};
ghost use Rattle.ark_groups.specs.Words.{number};
ghost use Rattle.ark_pedersen.specs.Pedersen.{pedersen_sum, seen_by};
ghost use Rattle.ark_schemes.specs.PedersenCommitments.{elements_in, AreOf, AreMade, drawn_elements, AreAllDrawn, pedersen_commitment};
ghost use Rattle.ark_schemes.specs.PedersenCommitments.{windows_commitment, sum_of, IsUnion};

mod binding;
mod parameters;
mod prepared;
mod randomness;

use crate::commitment::CommitmentScheme;
use ark_base::error::{Error, Refusal};
use ark_base::serialize::Canonical;
use ark_groups::ec::AdditiveGroup;
use ark_groups::ff::{Field, Words};
pub use ark_pedersen::Window;
use ark_pedersen::{CRH, sum_of_bytes};
pub use binding::opening_relation_of;
pub use parameters::Parameters;
pub use prepared::PreparedParameters;
use rand::Rng;
pub use randomness::Randomness;
use std::alloc::Global;
use std::marker::PhantomData;

/// The Pedersen hash of the input and, added to it, the randomness element as often as the randomness says.
pub struct Commitment<C: AdditiveGroup, W: Window> {
    group: PhantomData<C>,
    window: PhantomData<W>,
}

impl<C: AdditiveGroup, W: Window> CommitmentScheme for Commitment<C, W> {
    ghost use Rattle.std.proofs.Common.{sym, ap, ◌∙◌};
    ghost use Rattle.ark_groups.specs.Laws.Fp.{number-alone};
    ghost use Rattle.ark_pedersen.specs.Laws.Images.{bytes-Decides};
    ghost use Rattle.ark_pedersen.specs.Laws.Pedersen.{seen-decided};
    ghost use Rattle.ark_schemes.specs.Laws.Commitments.{pedersen_commitment-decided, drawn-alike};

    type Output = C;

    type Parameters = Parameters<C>;

    type Randomness = Randomness<C>;

    ghost meaning = { λ parameters input randomness.
        let bits = C.ScalarField.MODULUS_BIT_SIZE in
        let commitment = pedersen_commitment C.group bits W.Window in
        let scalar = C.ScalarField.value randomness.0 in
        seen_by (λ x. C.spelling (C.view x)) (commitment (elements_in parameters) input scalar) };

    ghost setup_outcome = { λ stream. Ok (drawn_elements C.draw W.Window stream).1 };

    ghost is_made = { λ stream parameters.
        let bits = C.ScalarField.MODULUS_BIT_SIZE in
        AreAllDrawn C.group C.draw bits W.Window stream (elements_in parameters) };

    /// Draws the randomness element and puts its doublings, one for each bit of the scalars' modulus; then the generators of the
    /// hash, as its `create_generators` makes them.
    ///
    /// The seed of `rng` may be known to all where a draw tells no logarithm, as over `Jubjub`. That of a randomness has
    /// to be secret: who knows it opens the commitment.
    ///
    /// The only error is `OutOfMemory`.
    fn setup<R: Rng>(alloc: Global, rng: &mut R) -> Result<Parameters<C>, Error> {
        let bits = C::ScalarField::MODULUS_BIT_SIZE as usize;
        Ok(Parameters {
            randomness_generator: CRH::<C, W>::generator_powers(alloc, bits, rng)?,
            generators: CRH::<C, W>::create_generators(alloc, rng)?,
        })
    }

    /// Returns the commitment. It allocates nothing.
    ///
    /// Errors: `IncorrectInputLength` with the input's bytes, where these have more bits than the windows;
    /// `ParameterShape`, where the generators are not a list for each window with an element for each of its bits, or
    /// the randomness's elements are not as many as the bits of the scalars' modulus.
    fn commit(
        _alloc: Global,
        parameters: &Parameters<C>,
        input: &[u8],
        randomness: &Randomness<C>,
    ) -> Result<C, Error>
        ensures exact { let bits = C.ScalarField.MODULUS_BIT_SIZE in
            let commitment = pedersen_commitment C.group bits W.Window in
            let scalar = C.ScalarField.value randomness.now.0 in
            result ≡ commitment (elements_in parameters.now) input.now scalar }

        // Where the generators are those of elements, the sum over the windows and the randomness element scalar times.
        ensures windows { let bits = C.ScalarField.MODULUS_BIT_SIZE in
            let scalar = C.ScalarField.value randomness.now.0 in
            (element : C) (elements : List C)
            → AreOf C.group bits W.Window element elements (elements_in parameters.now)
            → result ≡ windows_commitment C.group W.Window element elements input.now scalar }

        // Where `setup` made the parameters, the sum of the commitments to two inputs that together have the bits of this one,
        // under two scalars that make the randomness.
        ensures sums { let bits = C.ScalarField.MODULUS_BIT_SIZE in
            let lists = elements_in parameters.now in
            let value = C.ScalarField.value in
            let commitment = pedersen_commitment C.group bits W.Window lists in
            AreMade C.group bits W.Window lists
            → (left right : List ℕ) (r s : C.ScalarField) → IsUnion input.now left right
            → value randomness.now.0 ≡ (value r + value s) % C.ScalarField.MODULUS
            → result ≡ sum_of C.group (commitment left (value r)) (commitment right (value s)) }
    {
        commitment_of::<C, W>(parameters, input, randomness.0)
    }

    ghost meaning_decided = { λ parameters input randomness.
        seen-decided (λ x. C.spelling (C.view x)) _
        (pedersen_commitment-decided C.group C.ScalarField.MODULUS_BIT_SIZE W.Window
        (elements_in parameters) input (C.ScalarField.value randomness.0)) };

    ghost setup_decided = { λ _. tt };

    ghost made_alike = { λ s p q.
        drawn-alike C.group C.draw C.ScalarField.MODULUS_BIT_SIZE W.Window s
        (elements_in p) (elements_in q) };

    ghost same_parameters = { λ p q same.
        ap (λ lists input randomness. seen_by (λ x. C.spelling (C.view x))
        (pedersen_commitment C.group C.ScalarField.MODULUS_BIT_SIZE W.Window
        lists input (C.ScalarField.value randomness.0))) same };

    ghost same_randomness = { λ p bytes r s same.
        ap (λ scalar. seen_by (λ x. C.spelling (C.view x))
        (pedersen_commitment C.group C.ScalarField.MODULUS_BIT_SIZE W.Window
        (elements_in p) bytes scalar))
        (number-alone C.ScalarField.MODULUS C.ScalarField.MODULUS_BIT_SIZE
        C.ScalarField.modulus_laws.digits _ _
        (C.ScalarField.Field.laws.below r.0) (C.ScalarField.Field.laws.below s.0)
        (sym (C.ScalarField.spelling_is r.0) ∙ ap C.ScalarField.spelling same
        ∙ C.ScalarField.spelling_is s.0)) };

    ghost equal_if_same = { λ a b.
        bytes-Decides C.view C.has_spelling C.spelling C.reads C.Canonical.laws
        C.is_spelled C.same_view
        a b _ (C.AdditiveGroup.equal_if_same a b) };
}

// The commitment under a scalar.
fn commitment_of<C: AdditiveGroup, W: Window>(
    parameters: &Parameters<C>,
    input: &[u8],
    randomness: C::ScalarField,
) -> Result<C, Error>
    ensures { let bits = C.ScalarField.MODULUS_BIT_SIZE in
        let commitment = pedersen_commitment C.group bits W.Window in
        let scalar = C.ScalarField.value randomness in
        result ≡ commitment (elements_in parameters.now) input.now scalar }
{
    let hash = sum_of_bytes::<C, W>(&parameters.generators, input)?;
    if parameters.randomness_generator.len() != C::ScalarField::MODULUS_BIT_SIZE as usize {
        return Err(Error::GenericError(Refusal::ParameterShape));
    }
    let sum = add_number::<C>(hash, &parameters.randomness_generator, randomness.words());
    Ok(C::from_sum(sum))
}

// The sum with the elements at the set bits of a number.
fn add_number<C: AdditiveGroup>(sum: C::Sum, elements: &[C], added: Words) -> C::Sum
    requires { number added < 2 ^ length elements.now }
    ensures { let bits = bits_of_number 256 (number added) in
        C.total result ≡ C.group.plus (C.total sum) (pedersen_sum C.group elements.now bits) }
{
    let Words { w0, w1, w2, w3 } = added;
    let sum = add_set_bits::<C>(sum, elements, 0, w0);
    let sum = add_set_bits::<C>(sum, elements, 64, w1);
    let sum = add_set_bits::<C>(sum, elements, 128, w2);
    add_set_bits::<C>(sum, elements, 192, w3)
}

// The sum with the elements at the set bits of a word, whose lowest bit stands at this place.
fn add_set_bits<C: AdditiveGroup>(
    mut sum: C::Sum,
    elements: &[C],
    first: u8,
    mut word: u64,
) -> C::Sum
    requires { word < 2 ^ (length elements.now - first) }
    ensures { let more = pedersen_sum C.group (drop first elements.now) (bits_of_number 64 word) in
        C.total result ≡ C.group.plus (C.total sum) more }
{
    while word > 0 {
        sum = C::add_to_sum(
            sum,
            elements[first as usize + word.trailing_zeros() as usize],
        );
        word &= word - 1;
    }
    sum
}
