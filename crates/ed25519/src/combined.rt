//! Sums of multiples of two points.

ghost use Rattle.std.specs.Prelude.{◌≡◌, ◌*◌, ◌%◌};
ghost use Rattle.ark_groups.specs.Words.{number};
ghost use Rattle.edwards.specs.Edwards.{Coordinates};
ghost use Rattle.edwards.specs.Extended.{Stands};
ghost use Rattle.ed25519.specs.Edwards25519.{p, d, IsOnEd25519};
ghost use Rattle.ed25519.specs.Values.{value};
ghost use Rattle.ed25519.specs.Combined.{combined};

use crate::moduli::{Ed25519Fp, Ed25519FpModulus};
use ark_groups::ff::Words;
use edwards::{Extended, sum_of_multiples_public};

/// Four coordinates of a point.
pub type Four = Extended<Ed25519FpModulus>;

/// Returns the sum of the multiples of two points by two public scalars, on which the time depends, by twice the
/// curve's coefficient.
pub fn sum_of_multiples(twice: Ed25519Fp, a: Four, m: Words, b: Four, n: Words) -> Four
    requires { value twice ≡ 2 * d % p }
    ensures { (s t : Coordinates) → IsOnEd25519 s → IsOnEd25519 t → Stands a s → Stands b t
        → Stands result (combined (number m) (number n) s t) }
{
    sum_of_multiples_public(twice, a, m, b, n)
}
