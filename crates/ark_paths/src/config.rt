//! What a tree is made of.

ghost use Rattle.std.specs.Prelude.{◌≡◌, ℕ, List, map, Ok};
ghost use Rattle.ark_base.specs.Outcome.{Outcome, AnswersBy, IsDecided};

use ark_absorb::Absorb;
use ark_base::error::Error;
use ark_base::serialize::{DigestItem, Numbered, canonical_bytes};
use ark_crh::{CRHScheme, TwoToOneCRHScheme};
use std::alloc::Global;
use std::fmt::Debug;
use std::hash::Hash;
use std::marker::PhantomData;

/// Makes an input of the pair hash of a leaf digest.
pub trait DigestConverter<From: DigestItem, To: Numbered> {
    ghost conversion: { List ℕ → Outcome (List ℕ) };

    /// Converts a leaf digest to a digest above. Errors: those of `conversion`, none of which is `OutOfMemory`; and
    /// `OutOfMemory`.
    fn convert(alloc: Global, item: From) -> Result<To, Error>
        ensures { AnswersBy To.numbers (conversion (From.numbers item)) result };

    ghost conversion_is_decided: { (x : List ℕ) → IsDecided (conversion x) };
}

/// The digest as it is.
#[derive(Drop)]
pub struct IdentityDigestConverter<T> {
    digest: PhantomData<T>,
}

impl<T: DigestItem> DigestConverter<T, T> for IdentityDigestConverter<T> {
    ghost conversion = { Ok };

    fn convert(_alloc: Global, item: T) -> Result<T, Error> {
        Ok(item)
    }

    ghost conversion_is_decided = { λ _. tt };
}

/// The digest's canonical bytes.
#[derive(Drop)]
pub struct ByteDigestConverter<T> {
    digest: PhantomData<T>,
}

impl<T: DigestItem> DigestConverter<T, Vec<u8>> for ByteDigestConverter<T> {
    ghost conversion = { λ numbers. Ok (T.bytes_of numbers) };

    fn convert(alloc: Global, item: T) -> Result<Vec<u8>, Error>
        ensures { AnswersBy (λ bytes. bytes.items) (Ok (T.spelling (T.view item))) result }
    {
        canonical_bytes(alloc, &item)
    }

    ghost conversion_is_decided = { λ _. tt };
}

/// The types of a tree: its leaves, its digests and its hashes.
pub trait Config {
    type Leaf: Drop;

    type LeafDigest: DigestItem + Debug + Hash;

    type LeafInnerDigestConverter: DigestConverter<
        Self::LeafDigest,
        <Self::TwoToOneHash as TwoToOneCRHScheme>::Input,
    >;

    type InnerDigest: DigestItem + Absorb + Debug + Hash;

    type LeafHash: CRHScheme<Input = Self::Leaf, Output = Self::LeafDigest>;

    type TwoToOneHash: TwoToOneCRHScheme<Output = Self::InnerDigest>;
}

/// The parameters of the leaf hash.
pub type LeafParam<P> = <<P as Config>::LeafHash as CRHScheme>::Parameters;

/// The parameters of the pair hash.
pub type TwoToOneParam<P> = <<P as Config>::TwoToOneHash as TwoToOneCRHScheme>::Parameters;
