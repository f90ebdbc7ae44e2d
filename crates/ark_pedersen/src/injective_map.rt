//! Pedersen hashes whose digest is the image of an element under a map.

ghost use Rattle.std.specs.Prelude.{◌≡◌, ℕ, List, Ok, IsOkAnd};
ghost use Rattle.std.specs.Bool.{Decides};
ghost use Rattle.ark_base.specs.Outcome.{Outcome, AnswersBy, IsDecided};
ghost use Rattle.ark_base.specs.Digits.{bytes_for, bytes_of_number};
ghost use Rattle.ark_pedersen.specs.Pedersen.{generators_in, window_elements, AreDrawn, pedersen_hash, of_halves, seen_image};

use crate::{CRH, Parameters, TwoToOneCRH, Window, hash_bytes, hash_halves};
use ark_base::error::Error;
use ark_base::serialize::{CanonicalItem, DigestItem, Duplicate, canonical_bytes};
use ark_crh::{CRHScheme, TwoToOneCRHScheme};
use ark_groups::ec::{AdditiveGroup, TECoordinates, ToldByX};
use rand::Rng;
use std::alloc::Global;
use std::fmt::Debug;
use std::hash::Hash;
use std::marker::PhantomData;

/// A map of elements. That no two have one image is asked only by its user.
pub trait InjectiveMap<C> {
    type Output: Clone + Eq + Hash + Default + Debug + CanonicalItem;

    // The canonical bytes of an element's image, or the refusal of the element.
    ghost image: { C → Outcome (List ℕ) };

    /// Returns the image of an element.
    ///
    /// Errors: those of `image`, none of which is `OutOfMemory`; and `OutOfMemory`.
    fn injective_map(alloc: Global, ge: &C) -> Result<Self::Output, Error>
        ensures { let bytes : Self.Output → List ℕ =
            λ x. Self.Output.spelling (Self.Output.view x) in
            AnswersBy bytes (image ge.now) result };

    ghost image_decided: { (x : C) → IsDecided (image x) };

    // Two images are equal only when their canonical bytes are.
    ghost equal_if_same: { (a b : Self.Output)
        → let bytes : Self.Output → List ℕ =
        λ x. Self.Output.spelling (Self.Output.view x) in
        Decides (Self.Output.eq a b) (bytes a ≡ bytes b) };
}

/// The first coordinate.
pub struct TECompressor;

impl<C: AdditiveGroup + TECoordinates> InjectiveMap<C> for TECompressor {
    ghost use Rattle.ark_pedersen.specs.Laws.Images.{number_bytes-Decides};

    type Output = C::BaseField;

    ghost image = { λ x. Ok (bytes_of_number (bytes_for C.BaseField.MODULUS_BIT_SIZE) (C.x x)) };

    /// Returns the first coordinate. It allocates nothing.
    fn injective_map(_alloc: Global, ge: &C) -> Result<C::BaseField, Error>
        ensures { IsOkAnd result (λ x. C.BaseField.value x ≡ C.x ge.now) }
    {
        Ok(ge.x())
    }

    ghost image_decided = { λ x. tt };

    ghost equal_if_same = { λ a b.
        number_bytes-Decides C.BaseField.MODULUS C.BaseField.MODULUS_BIT_SIZE
        C.BaseField.modulus_laws.digits _ _
        (C.BaseField.Field.laws.below a) (C.BaseField.Field.laws.below b) _ _
        (C.BaseField.spelling_is a) (C.BaseField.spelling_is b) _
        (C.BaseField.equal_if_same a b) };
}

/// The map after the Pedersen hash of one input.
pub struct PedersenCRHCompressor<C: AdditiveGroup, I: InjectiveMap<C>, W: Window> {
    compressor: PhantomData<I>,
    crh: PhantomData<CRH<C, W>>,
}

impl<C: AdditiveGroup, I: InjectiveMap<C>, W: Window> CRHScheme for PedersenCRHCompressor<C, I, W>
where
    I::Output: DigestItem,
{
    ghost use Rattle.std.proofs.Common.{sym, ap, ◌∙◌};
    ghost use Rattle.ark_pedersen.specs.Laws.Pedersen.{seen_image-decided, pedersen-decided};

    type Input = Vec<u8>;

    type Output = I::Output;

    type Parameters = Parameters<C>;

    ghost meaning = { λ parameters input.
        let hash = pedersen_hash C.group W.Window (generators_in parameters) input.items in
        seen_image I.Output.numbers_of I.image hash };

    ghost setup_outcome = { λ stream. Ok (window_elements C.draw W.Window stream).1 };

    ghost is_made = { λ stream parameters.
        AreDrawn C.group C.draw W.Window stream (generators_in parameters) };

    /// Acts as `CRH::setup`.
    fn setup<R: Rng>(alloc: Global, rng: &mut R) -> Result<Parameters<C>, Error> {
        Ok(Parameters {
            generators: CRH::<C, W>::create_generators(alloc, rng)?,
        })
    }

    /// Returns the image of the Pedersen hash.
    ///
    /// Errors: those of `CRH::evaluate`; those of the map; `OutOfMemory`.
    fn evaluate(
        alloc: Global,
        parameters: &Parameters<C>,
        input: &Vec<u8>,
    ) -> Result<I::Output, Error> {
        let hash = hash_bytes::<C, W>(&parameters.generators, input)?;
        I::injective_map(alloc, &hash)
    }

    ghost meaning_decided = { λ parameters input.
        seen_image-decided I.Output.numbers_of I.image _ I.image_decided
        (pedersen-decided C.group W.Window (generators_in parameters) input.items) };

    ghost setup_decided = { λ _. tt };

    ghost made_alike = { λ s p q made also. made.1 ∙ sym also.1 };

    ghost same_parameters = { λ p q same.
        ap (λ lists input. seen_image I.Output.numbers_of I.image
        (pedersen_hash C.group W.Window lists input.items)) same };
}

/// The map after the Pedersen hash of two inputs.
pub struct PedersenTwoToOneCRHCompressor<C: AdditiveGroup, I: InjectiveMap<C>, W: Window> {
    compressor: PhantomData<I>,
    crh: PhantomData<TwoToOneCRH<C, W>>,
}

impl<C: AdditiveGroup, I: InjectiveMap<C>, W: Window> TwoToOneCRHScheme
    for PedersenTwoToOneCRHCompressor<C, I, W>
where
    I::Output: DigestItem,
{
    ghost use Rattle.std.proofs.Common.{sym, ap, ◌∙◌};
    ghost use Rattle.ark_pedersen.specs.Laws.Pedersen.{seen_image-decided, halves-decided};

    type Input = Vec<u8>;

    type Output = I::Output;

    type Parameters = Parameters<C>;

    ghost evaluated = { λ parameters left right.
        let hash = pedersen_hash C.group W.Window (generators_in parameters) in
        seen_image I.Output.numbers_of I.image (of_halves W.Window hash left right) };

    ghost compressed = { λ parameters left right.
        let hash = pedersen_hash C.group W.Window (generators_in parameters) in
        let whole = of_halves W.Window hash (I.Output.bytes_of left) (I.Output.bytes_of right) in
        seen_image I.Output.numbers_of I.image whole };

    ghost setup_outcome = { λ stream. Ok (window_elements C.draw W.Window stream).1 };

    ghost is_made = { λ stream parameters.
        AreDrawn C.group C.draw W.Window stream (generators_in parameters) };

    /// Acts as `TwoToOneCRH::setup`.
    fn setup<R: Rng>(alloc: Global, rng: &mut R) -> Result<Parameters<C>, Error> {
        Ok(Parameters {
            generators: TwoToOneCRH::<C, W>::create_generators(alloc, rng)?,
        })
    }

    /// Returns the image of the Pedersen hash of two inputs.
    ///
    /// Errors: those of `TwoToOneCRH::evaluate`; those of the map; `OutOfMemory`.
    fn evaluate(
        alloc: Global,
        parameters: &Parameters<C>,
        left: &Vec<u8>,
        right: &Vec<u8>,
    ) -> Result<I::Output, Error> {
        let hash = hash_halves::<C, W>(&parameters.generators, left, right)?;
        I::injective_map(alloc, &hash)
    }

    /// Returns the image of the Pedersen hash of the canonical bytes of two images.
    ///
    /// Errors: those of `evaluate`.
    fn compress(
        alloc: Global,
        parameters: &Parameters<C>,
        left: &I::Output,
        right: &I::Output,
    ) -> Result<I::Output, Error> {
        let left = canonical_bytes(alloc, left)?;
        let right = canonical_bytes(alloc, right)?;
        let hash = hash_halves::<C, W>(&parameters.generators, &left, &right)?;
        I::injective_map(alloc, &hash)
    }

    ghost evaluated_decided = { λ parameters left right.
        seen_image-decided I.Output.numbers_of I.image _ I.image_decided
        (halves-decided C.group W.Window (generators_in parameters) left right) };

    ghost compressed_decided = { λ parameters left right.
        seen_image-decided I.Output.numbers_of I.image _ I.image_decided
        (halves-decided C.group W.Window (generators_in parameters)
        (I.Output.bytes_of left) (I.Output.bytes_of right)) };

    ghost setup_decided = { λ _. tt };

    ghost made_alike = { λ s p q made also. made.1 ∙ sym also.1 };

    ghost evaluated_same = { λ p q same.
        ap (λ lists left right. seen_image I.Output.numbers_of I.image
        (of_halves W.Window (pedersen_hash C.group W.Window lists) left right)) same };

    ghost compressed_same = { λ p q same.
        ap (λ lists left right. seen_image I.Output.numbers_of I.image
        (of_halves W.Window (pedersen_hash C.group W.Window lists)
        (I.Output.bytes_of left) (I.Output.bytes_of right))) same };
}

/// States that two elements with one image under `TECompressor` are one, in a group whose elements their first
/// coordinate tells. So a compressed hash binds as the hash does.
pub fn images_tell_elements<C: AdditiveGroup + ToldByX>()
    ensures { (a b : C) → let image : C → List ℕ =
        λ x. bytes_of_number (bytes_for C.BaseField.MODULUS_BIT_SIZE) (C.x x) in
        image a ≡ image b → a ≡ b }
{}
