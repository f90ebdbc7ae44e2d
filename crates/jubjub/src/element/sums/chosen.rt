//! The choice of one of many elements under masks: all are read, and no branch and no address depends on which it is.

ghost use Rattle.std.specs.Prelude.{◌≡◌, ℕ, ◌+◌, ◌-◌, ◌*◌, ◌%◌, ◌<◌, ◌≤◌, ◌∷◌, [], length};
ghost use Rattle.ark_wide_fields.specs.Choices.{IsMask, ones};
ghost use Rattle.edwards.specs.Entries.{couples, no_entry};
ghost use Rattle.jubjub.specs.Jubjub.{p};
ghost use Rattle.jubjub.specs.Tables.{montgomery_form, element_words, entry_at, signed_at, AreEntryWords, IsChosen};
ghost use Rattle.jubjub.specs.Values.{value};

use crate::element::Jubjub;
use ark_groups::ff::{Field, Words};
use ark_wide_fields::{Bls12_381Fr, element_under, mask_of};
use edwards::{Entry, entry_under, found_entry, masks_of};
use std::simd::u64x2;

/// What an element keeps: its coordinates, and 2 d x y.
#[derive(Clone, Copy)]
pub struct Chosen {
    /// The first coordinate.
    pub x: Bls12_381Fr,
    /// The second coordinate.
    pub y: Bls12_381Fr,
    /// 2 d x y, where d is the curve's coefficient.
    pub crossed: Bls12_381Fr,
}

// The words that an element keeps, two by two.
#[inline(always)]
fn words_in(element: &Jubjub) -> Entry
    ensures { result ≡ element_words element.now }
{
    let x = element.x.form_words();
    let y = element.y.form_words();
    let crossed = element.crossed.form_words();
    [
        [x.w0, x.w1],
        [x.w2, x.w3],
        [y.w0, y.w1],
        [y.w2, y.w3],
        [crossed.w0, crossed.w1],
        [crossed.w2, crossed.w3],
    ]
}

// The element of the field whose Montgomery form these four words are.
#[inline(always)]
fn from_form(low: &[u64; 2], high: &[u64; 2]) -> Bls12_381Fr
    requires { (n : ℕ) × (n < p) × (low.now ∷ high.now ∷ [] ≡ couples (montgomery_form n) []) }
    ensures { (n : ℕ) → n < p → low.now ∷ high.now ∷ [] ≡ couples (montgomery_form n) []
        → value result ≡ n }
{
    Bls12_381Fr::of_form_words(Words {
        w0: low[0],
        w1: low[1],
        w2: high[0],
        w3: high[1],
    })
}

// The elements of the field whose Montgomery forms an entry has.
#[inline(always)]
fn chosen_in(entry: &Entry) -> Chosen
    requires { (x y c : ℕ) × AreEntryWords entry.now x y c }
    ensures x { (x y c : ℕ) → AreEntryWords entry.now x y c → value result.x ≡ x }
    ensures y { (x y c : ℕ) → AreEntryWords entry.now x y c → value result.y ≡ y }
    ensures crossed { (x y c : ℕ) → AreEntryWords entry.now x y c → value result.crossed ≡ c }
{
    Chosen {
        x: from_form(&entry[0], &entry[1]),
        y: from_form(&entry[2], &entry[3]),
        crossed: from_form(&entry[4], &entry[5]),
    }
}

// The words of the multiple by the size of a digit, from the row that begins at a place and is read whole; none for 0.
fn entry_for(multiples: &[Jubjub], first: usize, size: usize) -> Entry
    requires inside { first + 16 ≤ length multiples.now }
    requires size { size ≤ 16 }
    ensures some { 0 < size → result ≡ element_words (entry_at multiples.now first size) }
    ensures none { size ≡ 0 → result ≡ no_entry }
{
    let masks = masks_of(size.wrapping_sub(1));
    let mut found = [u64x2::splat(0); 6];
    'entries: for j in 0..16 {
        found = entry_under(masks[j], &words_in(&multiples[first + j]), &found);
    }
    found_entry(&found)
}

// The multiple by the size of a digit, from the row that begins at a place.
fn multiple_at(multiples: &[Jubjub], first: usize, size: usize) -> Chosen
    requires inside { first + 16 ≤ length multiples.now }
    requires size { size ≤ 16 }
    ensures { IsChosen result (entry_at multiples.now first size) }
{
    let Chosen { x, y, crossed } = chosen_in(&entry_for(multiples, first, size));
    Chosen {
        x,
        y: element_under(mask_of(size == 0), Bls12_381Fr::one(), y),
        crossed,
    }
}

// The element where the first mask is ones and the second 0; its negative where the first is 0 and the second ones.
#[inline(always)]
fn signed_under(above: u64, below: u64, a: Bls12_381Fr) -> Bls12_381Fr
    requires above { IsMask above }
    requires below { IsMask below }
    requires apart { above ≡ ones → below ≡ 0 }
    ensures same { above ≡ ones → below ≡ 0 → value result ≡ value a }
    ensures negative { above ≡ 0 → below ≡ ones → value result ≡ (p - value a) % p }
{
    element_under(above, a, element_under(below, a.neg(), Bls12_381Fr::zero()))
}

/// Returns the multiple by a signed digit, from the row that begins at a place. Digits from 16 to 31 stand for those
/// below 0, 32 less.
pub fn signed_multiple_at(multiples: &[Jubjub], first: usize, digit: u64) -> Chosen
    requires inside { first + 16 ≤ length multiples.now }
    requires digit { digit < 32 }
    ensures { IsChosen result (signed_at multiples.now first digit) }
{
    let above = mask_of(digit < 16);
    let below = mask_of(digit >= 16);
    let size = digit - (2 * (digit % 16) & below);
    let Chosen { x, y, crossed } = multiple_at(multiples, first, size as usize);
    Chosen {
        x: signed_under(above, below, x),
        y,
        crossed: signed_under(above, below, crossed),
    }
}
