//! Entries of tables, each of six couples of words, of which one is found under masks: all are read, and no branch and
//! no address depends on which it is.

ghost use Rattle.std.specs.Prelude.{◌≡◌, ℕ, ◌<◌, ◌∷◌, [], length, slice_index, bit_and, bit_or};
ghost use Rattle.ark_wide_fields.specs.Choices.{IsMask, ones};
ghost use Rattle.edwards.specs.Entries.{no_entry, AreMasksOf};

use ark_wide_fields::mask_in_place;
use std::simd::u64x2;

/// Twelve words, two by two.
pub type Entry = [[u64; 2]; 6];

/// Returns the masks of the numbers below 16: 64 ones for this number, else zeros. No compiler sees through the call,
/// so that what stands under the masks becomes no branch.
#[inline(never)]
pub fn masks_of(number: usize) -> [u64; 16]
    ensures { AreMasksOf number result }
{
    let mut masks = [0; 16];
    'numbers: for j in 0..16 {
        masks[j] = mask_in_place(j == number);
    }
    masks
}

#[inline(always)]
fn and(x: u64x2, y: u64x2) -> u64x2
    ensures { (j : ℕ) → j < 2 → slice_index result j ≡ bit_and (slice_index x j) (slice_index y j) }
{
    x & y
}

#[inline(always)]
fn or(x: u64x2, y: u64x2) -> u64x2
    ensures lanes { (j : ℕ) → j < 2
        → slice_index result j ≡ bit_or (slice_index x j) (slice_index y j) }
    ensures wide { length result ≡ 2 }
{
    x | y
}

// A couple of words with the bits of another where the mask is ones.
#[inline(always)]
fn couple_under(mask: u64, couple: &[u64; 2], so_far: u64x2) -> u64x2
    requires { IsMask mask }
    ensures first { mask ≡ ones → so_far ≡ 0 ∷ 0 ∷ [] → result ≡ couple.now }
    ensures second { mask ≡ 0 → result ≡ so_far }
{
    or(so_far, and(u64x2::from_array(*couple), u64x2::splat(mask)))
}

/// Returns the entry where the mask is ones and the other is blank; the other where the mask is 0.
#[inline(always)]
pub fn entry_under(mask: u64, entry: &Entry, so_far: &[u64x2; 6]) -> [u64x2; 6]
    requires { IsMask mask }
    ensures first { mask ≡ ones → so_far.now ≡ no_entry → result ≡ entry.now }
    ensures second { mask ≡ 0 → result ≡ so_far.now }
    ensures whole { length result ≡ 6 }
{
    [
        couple_under(mask, &entry[0], so_far[0]),
        couple_under(mask, &entry[1], so_far[1]),
        couple_under(mask, &entry[2], so_far[2]),
        couple_under(mask, &entry[3], so_far[3]),
        couple_under(mask, &entry[4], so_far[4]),
        couple_under(mask, &entry[5], so_far[5]),
    ]
}

/// Returns the words of an entry that was found.
#[inline(always)]
pub fn found_entry(found: &[u64x2; 6]) -> Entry
    ensures { result ≡ found.now }
{
    [
        found[0].to_array(),
        found[1].to_array(),
        found[2].to_array(),
        found[3].to_array(),
        found[4].to_array(),
        found[5].to_array(),
    ]
}
