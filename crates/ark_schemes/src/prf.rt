//! Pseudorandom functions.

ghost use Rattle.std.specs.Prelude.{◌≡◌, ℕ, List};
ghost use Rattle.std.specs.Bool.{Decides};
ghost use Rattle.ark_base.specs.Outcome.{Outcome, AnswersBy, IsDecided};

pub mod blake2s;
mod same;

use ark_base::error::Error;
use ark_base::serialize::{CanonicalDeserialize, CanonicalSerialize};
pub use blake2s::{Blake2s, Blake2s256, Blake2sWithParameterBlock};
pub use same::is_same_digest;
use std::fmt::Debug;
use std::hash::Hash;

/// A pseudorandom function: what it gives for an input depends on a secret seed.
pub trait PRF {
    type Input: CanonicalDeserialize + Default;

    type Output: CanonicalSerialize + Eq + Clone + Debug + Default + Hash;

    type Seed: CanonicalSerialize + CanonicalDeserialize + Clone + Default + Debug;

    // The canonical bytes of the output for a seed and an input, or their refusal.
    ghost meaning: { Self.Seed → Self.Input → Outcome (List ℕ) };

    /// Returns the output for a seed and an input.
    ///
    /// Errors: those of `meaning`, none of which is `OutOfMemory`; and `OutOfMemory`.
    fn evaluate(seed: &Self::Seed, input: &Self::Input) -> Result<Self::Output, Error>
        ensures { let bytes : Self.Output → List ℕ =
            λ output. Self.Output.spelling (Self.Output.view output) in
            AnswersBy bytes (meaning seed.now input.now) result };

    ghost decided: { (seed : Self.Seed) (input : Self.Input) → IsDecided (meaning seed input) };

    // Seeds and inputs that were written and read again give what they gave.
    ghost same_seed: { (s t : Self.Seed)
        → Self.Seed.view s ≡ Self.Seed.view t → meaning s ≡ meaning t };

    ghost same_input: { (s : Self.Seed) (x y : Self.Input)
        → Self.Input.view x ≡ Self.Input.view y → meaning s x ≡ meaning s y };

    // Two outputs are equal only when their canonical bytes are.
    ghost equal_if_same: { (a b : Self.Output)
        → let bytes : Self.Output → List ℕ =
        λ output. Self.Output.spelling (Self.Output.view output) in
        Decides (Self.Output.eq a b) (bytes a ≡ bytes b) };
}
