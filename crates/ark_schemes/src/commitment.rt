//! Commitments.

ghost use Rattle.std.specs.Prelude.{◌≡◌, ℕ, List, IfOk};
ghost use Rattle.std.specs.Bool.{Decides};
ghost use Rattle.rand_core.specs.Stream.{Stream};
ghost use Rattle.ark_base.specs.Outcome.{Outcome, AnswersBy, IsDecided};

pub mod blake2s;
pub mod injective_map;
pub mod pedersen;

use ark_base::error::Error;
use ark_base::serialize::{CanonicalSerialize, Duplicate};
use ark_groups::ff::UniformRand;
use rand::Rng;
use std::alloc::Global;
use std::fmt::Debug;
use std::hash::Hash;

/// A way to commit to bytes under randomness.
pub trait CommitmentScheme {
    type Output: CanonicalSerialize + Clone + Default + Eq + Hash + Debug;

    type Parameters: Duplicate;

    type Randomness: CanonicalSerialize + Clone + Default + Eq + UniformRand + Debug;

    // The canonical bytes of the commitment to bytes under randomness, or their refusal.
    ghost meaning: { Self.Parameters → List ℕ → Self.Randomness → Outcome (List ℕ) };

    // What `setup` leaves of a stream once it has made parameters of it, or why it makes none.
    ghost setup_outcome: { Stream → Outcome Stream };

    // The parameters are those that `setup` makes of the stream.
    ghost is_made: { Stream → Self.Parameters → Type 0 };

    /// Makes parameters from what it draws.
    ///
    /// Errors: that of the scheme, where it has none to make; `OutOfMemory`.
    fn setup<R: Rng>(alloc: Global, rng: &mut R) -> Result<Self::Parameters, Error>
        ensures outcome { let left = R.stream rng.new in
            AnswersBy (λ _. left) (setup_outcome (R.stream rng.old)) result }
        ensures made { IfOk result (is_made (R.stream rng.old)) };

    /// Returns the commitment to bytes under randomness.
    ///
    /// Errors: those of `meaning`, none of which is `OutOfMemory`; and `OutOfMemory`.
    fn commit(
        alloc: Global,
        parameters: &Self::Parameters,
        input: &[u8],
        randomness: &Self::Randomness,
    ) -> Result<Self::Output, Error>
        ensures { let bytes : Self.Output → List ℕ =
            λ output. Self.Output.spelling (Self.Output.view output) in
            AnswersBy bytes (meaning parameters.now input.now randomness.now) result };

    ghost meaning_decided: { (p : Self.Parameters) (bytes : List ℕ) (r : Self.Randomness)
        → IsDecided (meaning p bytes r) };

    ghost setup_decided: { (s : Stream) → IsDecided (setup_outcome s) };

    // Parameters that are made of one stream are seen alike.
    ghost made_alike: { (s : Stream) (p q : Self.Parameters)
        → is_made s p → is_made s q → Self.Parameters.seen p ≡ Self.Parameters.seen q };

    // A copy of parameters commits as they do.
    ghost same_parameters: { (p q : Self.Parameters)
        → Self.Parameters.seen p ≡ Self.Parameters.seen q → meaning p ≡ meaning q };

    // Randomness that was written and read again commits as it did.
    ghost same_randomness: { (p : Self.Parameters) (bytes : List ℕ) (r s : Self.Randomness)
        → Self.Randomness.view r ≡ Self.Randomness.view s → meaning p bytes r ≡ meaning p bytes s };

    // Two outputs are equal only when their canonical bytes are.
    ghost equal_if_same: { (a b : Self.Output)
        → let bytes : Self.Output → List ℕ =
        λ output. Self.Output.spelling (Self.Output.view output) in
        Decides (Self.Output.eq a b) (bytes a ≡ bytes b) };
}
