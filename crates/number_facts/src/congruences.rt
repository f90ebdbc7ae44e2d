//! Identities of polynomials, and what follows from congruences by them.

ghost use Rattle.number_facts.specs.Polynomials.{SamePolynomialSameValue};
ghost use Rattle.number_facts.specs.Congruences.{FollowsFromSteps};

/// States that two expressions with one normal form have one value, whatever their unknowns are.
pub fn polynomials_agree()
    ensures { SamePolynomialSameValue }
{}

/// States that a congruence holds where multiples of given ones turn one side of it into the other.
pub fn congruence_follows()
    ensures { FollowsFromSteps }
{}
