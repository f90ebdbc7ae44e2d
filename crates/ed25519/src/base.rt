//! Multiples of the base point. No branch and no address depends on the scalar.

ghost use Rattle.std.specs.Prelude.{◌≡◌, ℕ, ◌+◌, ◌-◌, ◌*◌, ◌/◌, ◌^◌, ◌<◌, [], get_or};
ghost use Rattle.ark_groups.specs.Group.{times};
ghost use Rattle.ark_groups.specs.Words.{number};
ghost use Rattle.ark_wide_fields.specs.Choices.{IsMask, ones};
ghost use Rattle.edwards.specs.Edwards.{Coordinates, neutral};
ghost use Rattle.edwards.specs.Entries.{no_entry, AreMasksOf};
ghost use Rattle.edwards.specs.Extended.{Stands};
ghost use Rattle.edwards.specs.Prepared.{IsPrepared};
ghost use Rattle.ed25519.specs.Edwards25519.{d, curve, base_point, IsOnEd25519};
ghost use Rattle.ed25519.specs.BaseTable.{prepared_words, multiples_row};
ghost use Rattle.ed25519.specs.Multiples.{every_fourth, IsPreparedEntry, IsBlankEntry};

use crate::base_table::{Row, base_row};
use crate::combined::Four;
use crate::moduli::Ed25519FpModulus;
use ark_groups::ff::Words;
use ark_wide_fields::{WideModulus, ZERO, of_form, words_under};
use edwards::{
    Entry, Prepared, doubled_twice, entry_under, found_entry, masks_of, plus_prepared, zero,
};
use std::simd::u64x2;

// Of a point y - x, y + x and 2 d x y, each in Montgomery form: times 2^256 modulo 2^255 - 19.
#[derive(Clone, Copy)]
struct Forms {
    less: Words,
    more: Words,
    cross: Words,
}

// The forms that an entry of a row has.
fn forms_at(entry: &Entry) -> Forms
    ensures form { (a : Coordinates) → entry.now ≡ prepared_words a → IsPreparedEntry result a }
    ensures blank { entry.now ≡ no_entry → IsBlankEntry result }
{
    Forms {
        less: Words {
            w0: entry[0][0],
            w1: entry[0][1],
            w2: entry[1][0],
            w3: entry[1][1],
        },
        more: Words {
            w0: entry[2][0],
            w1: entry[2][1],
            w2: entry[3][0],
            w3: entry[3][1],
        },
        cross: Words {
            w0: entry[4][0],
            w1: entry[4][1],
            w2: entry[5][0],
            w3: entry[5][1],
        },
    }
}

// The forms of zero.
fn forms_zero() -> Forms
    ensures { IsPreparedEntry result neutral }
{
    Forms {
        less: Ed25519FpModulus::ONE,
        more: Ed25519FpModulus::ONE,
        cross: ZERO,
    }
}

// The first where the mask is ones and the other is blank; the other where the mask is 0.
#[inline(always)]
fn forms_under(mask: u64, a: Forms, so_far: Forms) -> Forms
    requires { IsMask mask }
    ensures first { mask ≡ ones → IsBlankEntry so_far → (s : Coordinates) → IsPreparedEntry a s
        → IsPreparedEntry result s }
    ensures second { mask ≡ 0 → (s : Coordinates) → IsPreparedEntry so_far s
        → IsPreparedEntry result s }
{
    Forms {
        less: words_under(mask, a.less, so_far.less),
        more: words_under(mask, a.more, so_far.more),
        cross: words_under(mask, a.cross, so_far.cross),
    }
}

// The entry of a row for a digit, two words at a time, and none for 0. All of the row is read.
fn entry_of_digit(row: &Row, masks: &[u64; 16], digit: usize) -> Entry
    requires digit { digit < 16 }
    requires masks { AreMasksOf digit masks.now }
    ensures some { 0 < digit → result ≡ get_or row.now (digit - 1) [] }
    ensures none { digit ≡ 0 → result ≡ no_entry }
{
    let mut found = [u64x2::splat(0); 6];
    'entries: for j in 0..15 {
        found = entry_under(masks[j + 1], &row[j], &found);
    }
    found_entry(&found)
}

// The multiple of a point by a digit, from the row of its multiples, all of which is read.
fn forms_multiple(row: &Row, digit: usize) -> Forms
    requires { digit < 16 }
    ensures { (b : Coordinates) → IsOnEd25519 b → row.now ≡ multiples_row b
        → IsPreparedEntry result (times curve digit b) }
{
    let masks = masks_of(digit);
    let entry = entry_of_digit(row, &masks, digit);
    forms_under(masks[0], forms_zero(), forms_at(&entry))
}

// The point, prepared for a sum.
#[inline(always)]
fn prepared(e: Forms) -> Prepared<Ed25519FpModulus>
    requires { (a : Coordinates) × IsPreparedEntry e a }
    ensures { (a : Coordinates) → IsPreparedEntry e a → IsPrepared d result a }
{
    Prepared {
        less: of_form(e.less),
        more: of_form(e.more),
        cross: of_form(e.cross),
    }
}

// A number without its lowest four digits to base 16.
#[inline(always)]
fn without_four(a: Words) -> Words
    ensures { number result ≡ number a / 65536 }
{
    Words {
        w0: a.w0 / 65536 + a.w1 % 65536 * (1 << 48),
        w1: a.w1 / 65536 + a.w2 % 65536 * (1 << 48),
        w2: a.w2 / 65536 + a.w3 % 65536 * (1 << 48),
        w3: a.w3 / 65536,
    }
}

// A number without its lowest digit to base 16.
#[inline(always)]
fn without_one(a: Words) -> Words
    ensures number { number result ≡ number a / 16 }
    ensures fits { number a < 2 ^ 256 }
{
    Words {
        w0: a.w0 / 16 + a.w1 % 16 * (1 << 60),
        w1: a.w1 / 16 + a.w2 % 16 * (1 << 60),
        w2: a.w2 / 16 + a.w3 % 16 * (1 << 60),
        w3: a.w3 / 16,
    }
}

// The sum with the base point's multiple by every fourth digit of the scalar.
fn with_every_fourth(sum: Four, scalar: Words) -> Four
    ensures { (m : ℕ) → Stands sum (times curve m base_point)
        → Stands result (times curve (m + every_fourth 16 (number scalar)) base_point) }
{
    let mut so_far = sum;
    let mut rest = scalar;
    for i in 0..16 {
        let digit = (rest.w0 % 16) as usize;
        so_far = plus_prepared(so_far, prepared(forms_multiple(base_row(i), digit)));
        rest = without_four(rest);
    }
    so_far
}

// Sixteen times a multiple of the base point, and its multiple by every fourth digit of the scalar more.
fn moved_up(sum: Four, scalar: Words) -> Four
    ensures { (m : ℕ) → Stands sum (times curve m base_point)
        → Stands result (times curve (16 * m + every_fourth 16 (number scalar)) base_point) }
{
    with_every_fourth(doubled_twice(doubled_twice(sum)), scalar)
}

/// Returns the base point, added as often as the scalar says.
pub fn multiple_of_base(scalar: Words) -> Four
    ensures { Stands result (times curve (number scalar) base_point) }
{
    let second = without_one(scalar);
    let third = without_one(second);
    let sum = with_every_fourth(zero(), without_one(third));
    moved_up(moved_up(moved_up(sum, third), second), scalar)
}
