//! Points of small order.

ghost use Rattle.std.specs.Prelude.{◌≡◌};
ghost use Rattle.std.specs.Bool.{Decides};
ghost use Rattle.ed25519.specs.SmallOrder.{HasSmallOrder};

use crate::points::{curve_coefficient, point_of};
use ark_groups::ff::{Field, Words};
use edwards::{is_neutral, lifted, multiple};

/// Returns whether bytes are those of a point whose order divides 8. As a key, or as the first half of a signature, such a
/// point stands for no secret: libsodium refuses it, and RFC 8032 does not.
pub fn has_small_order(bytes: &[u8]) -> bool
    ensures { Decides result (HasSmallOrder bytes.now) }
{
    match point_of(bytes) {
        Some((x, y)) => {
            let eight = Words {
                w0: 8,
                w1: 0,
                w2: 0,
                w3: 0,
            };
            is_neutral(multiple(curve_coefficient().double(), lifted(x, y), eight))
        }
        None => false,
    }
}
