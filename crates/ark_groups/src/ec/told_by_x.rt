//! Groups of elements that their first coordinate tells.

ghost use Rattle.std.specs.Prelude.{◌≡◌};
ghost use Rattle.std.specs.Bool.{Decides};

use crate::ec::TECoordinates;

/// A group of elements that their first coordinate tells, so that a digest may be the first coordinate alone.
pub trait ToldByX: TECoordinates {
    /// Returns whether two elements are one, by their first coordinates alone.
    fn is_same_by_x(self, other: Self) -> bool
        ensures { Decides result (self ≡ other) };

    ghost told: { (a b : Self) → Self.x a ≡ Self.x b → a ≡ b };
}
