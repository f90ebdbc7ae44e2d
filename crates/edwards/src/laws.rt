//! Twisted Edwards curves -x^2 + y^2 = 1 + d x^2 y^2 over the numbers modulo a prime p, for any p where -1 is a square
//! and any d that is none. Each function is one theorem: its contract states it, and its body does nothing.

ghost use Rattle.edwards.specs.Curves.{SumsAreComplete, PointsAreAGroup};
ghost use Rattle.edwards.specs.Eighths.{EighthPowersTell};

/// States that no denominator of a sum is 0.
pub fn sums_are_complete()
    ensures { SumsAreComplete }
{}

/// States that the points are a commutative group.
pub fn points_are_a_group()
    ensures { PointsAreAGroup }
{}

/// States that, on a curve with a point of order 8, one power tells whether a point is 8 times a point.
pub fn eighth_powers_tell()
    ensures { EighthPowersTell }
{}
