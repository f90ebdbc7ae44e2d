//! The entries from one key to another of a tree of which parts may be hidden.

ghost use Rattle.std.specs.Prelude.{◌≡◌, ◌<◌, ◌&&◌, false, true};
ghost use Rattle.merkle_map.specs.Map.{has_bit as has_bit_in};
ghost use Rattle.merkle_map.specs.Order.{next_seen, IsNextKnown, IsOnSide, IsOutside};
ghost use Rattle.merkle_map.specs.Parts.{shape};
ghost use Rattle.merkle_map.specs.Pruned.{FitsKeys};

use crate::key::{has_bit, is_key_below};
use crate::part::{Part, hidden};
use ark_base::error::Error;
use ark_base::serialize::DigestItem;

// Returns whether a key is below the first of two, or above the last.
fn is_outside(key: &[u8; 32], first: &[u8; 32], last: &[u8; 32]) -> bool
    ensures yes { result ≡ true → IsOutside first.now last.now key.now }
    ensures no { result ≡ false → ¬ IsOutside first.now last.now key.now }
{
    is_key_below(key, first) || is_key_below(last, key)
}

/// Returns whether a tree some levels below the root stands on a key's way, and the key goes on to this side.
pub fn turns(is_on: bool, key: &[u8; 32], level: usize, bit: bool) -> bool
    requires { level < 256 }
    ensures { result ≡ (is_on && has_bit_in bit level key.now) }
{
    if is_on {
        return has_bit(key, level, bit);
    }
    false
}

// Returns the first entry from one key to another of a tree some levels below the root, which may lie outside, or stand on the way of
// either key. The error is that the tree hides a part that may have it.
pub fn next_shown<D: DigestItem>(
    part: &Part<D>,
    level: usize,
    first: &[u8; 32],
    last: &[u8; 32],
    is_outside_all: bool,
    on_first: bool,
    on_last: bool,
) -> Result<Option<([u8; 32], [u8; 32])>, Error>
    requires { FitsKeys level (shape D.numbers part.now) }
    ensures { IsOnSide is_outside_all (IsNextKnown on_first on_last level first.now last.now
        (shape D.numbers part.now)) (next_seen result) }
{
    if is_outside_all {
        return Ok(None);
    }
    match part {
        Part::Empty => Ok(None),
        Part::One { entry } => {
            if is_outside(&entry.key, first, last) {
                return Ok(None);
            }
            Ok(Some((entry.key, entry.value)))
        }
        Part::Fork { sides } => {
            let below = turns(on_first, first, level, true);
            let above = turns(on_last, last, level, false);
            let next = level + 1;
            let found = next_shown(&sides.left, next, first, last, below, on_first, above)?;
            if found.is_some() {
                return Ok(found);
            }
            next_shown(&sides.right, next, first, last, above, below, on_last)
        }
        Part::Hidden { .. } => Err(hidden()),
    }
}
