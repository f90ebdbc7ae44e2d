//! Groups whose order is a prime.

ghost use Rattle.std.specs.Prelude.{◌≡◌, ℕ, ◌%◌};
ghost use Rattle.ark_groups.specs.Group.{times};
ghost use Rattle.ark_groups.specs.Words.{number};

use crate::ec::AdditiveGroup;
use crate::ff::Words;

/// A group whose order is a prime: only zero has a smaller order.
pub trait PrimeOrderGroup: AdditiveGroup {
    /// Returns the order.
    fn order() -> Words
        ensures { number result ≡ Self.ScalarField.MODULUS };

    // An element that is zero when it is added n times is zero, or the order divides n.
    ghost prime_order: { (n : ℕ) (x : Self) → times Self.group n x ≡ Self.group.identity
        → (n % Self.ScalarField.MODULUS ≡ 0 → ⊥) → x ≡ Self.group.identity };
}
