//! Elements of fields as contracts see them.

ghost use Rattle.std.specs.Prelude.{ℕ};

use std::fmt::Debug;

/// A type whose values contracts see as numbers below a modulus.
///
/// Structs of elements, as parameters and sponges, ask for this alone: it is met at each type by one `impl`, where `Field` is
/// met by every `PrimeField`.
pub trait Valued: Copy + Debug {
    // The count of the modulus's binary digits.
    ghost bits: { ℕ };

    // The number that an element is.
    ghost value: { Self → ℕ };
}
