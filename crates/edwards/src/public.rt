//! Multiples of points by public scalars, on which the time depends.

ghost use Rattle.std.specs.Prelude.{◌≡◌, ℕ, ◌+◌, ◌*◌, ◌%◌, ◌<◌, ◌≤◌};
ghost use Rattle.ark_groups.specs.Group.{times};
ghost use Rattle.ark_groups.specs.Words.{number};
ghost use Rattle.edwards.specs.Edwards.{Coordinates, IsOnCurve, edwards, sum};
ghost use Rattle.edwards.specs.Curves.{IsComplete};
ghost use Rattle.edwards.specs.Laws.Points.{Point, points};
ghost use Rattle.edwards.specs.Cached.{AreOddMultiples, IsCached, signed_multiple};
ghost use Rattle.edwards.specs.Digits.{AreDigits, IsDigit, IsBlankFrom, added, taken, weighed};
ghost use Rattle.edwards.specs.Extended.{Stands, StandsApart};
ghost use Rattle.edwards.specs.Values.{value};

use crate::extended::{
    Cached, Extended, double_apart, doubled, doubled_of, opposite, plus_cached, plus_cached_apart,
    to_cached, whole, zero,
};
use crate::recoding::signed_digits;
use ark_groups::ff::Words;
use ark_wide_fields::{Fp256, WideModulus};

// The multiples of a point by 1, 3 .. 15, prepared for sums.
fn odd_multiples<M: WideModulus>(twice: Fp256<M>, a: Extended<M>) -> [Cached<M>; 8]
    ensures { (d : ℕ) (k : IsComplete (number M.P) d) → value twice ≡ 2 * d % number M.P
        → (s : Point (number M.P) d k) → Stands a s.at → AreOddMultiples d k s 8 result }
{
    let by = to_cached(twice, doubled(a));
    let mut last = a;
    let mut table = [to_cached(twice, a); 8];
    for i in 1..8 {
        last = plus_cached(last, by);
        table[i] = to_cached(twice, last);
    }
    table
}

// The multiple by a digit, by the table of a point.
#[inline(always)]
fn entry<M: WideModulus>(table: &[Cached<M>; 8], digit: usize) -> Cached<M>
    requires below { digit < 32 }
    requires odd { digit % 2 ≡ 1 }
    ensures { (d : ℕ) (k : IsComplete (number M.P) d) (s : Point (number M.P) d k)
        → AreOddMultiples d k s 8 table.now
        → IsCached d result (signed_multiple (number M.P) d k digit s).at }
{
    if digit < 16 {
        table[digit / 2]
    } else {
        opposite(table[(31 - digit) / 2])
    }
}

// The sum of a point and of the multiple of another by a digit.
#[inline(always)]
fn with_digit<M: WideModulus>(table: &[Cached<M>; 8], sum: Extended<M>, digit: u8) -> Extended<M>
    requires { IsDigit digit }
    ensures { (d : ℕ) (k : IsComplete (number M.P) d) (s q : Point (number M.P) d k)
        → AreOddMultiples d k s 8 table.now → Stands sum q.at
        → Stands result ((points (number M.P) d k).plus q
        (signed_multiple (number M.P) d k digit s)).at }
{
    if digit == 0 {
        sum
    } else {
        plus_cached(sum, entry(table, digit as usize))
    }
}

// The same, by three coordinates.
#[inline(always)]
fn with_last_digit<M: WideModulus>(
    table: &[Cached<M>; 8],
    sum: Extended<M>,
    digit: u8,
) -> Extended<M>
    requires { IsDigit digit }
    ensures { (d : ℕ) (k : IsComplete (number M.P) d) (s q : Point (number M.P) d k)
        → AreOddMultiples d k s 8 table.now → Stands sum q.at → StandsApart result
        ((points (number M.P) d k).plus q (signed_multiple (number M.P) d k digit s)).at }
{
    if digit == 0 {
        sum
    } else {
        plus_cached_apart(sum, entry(table, digit as usize))
    }
}

// Doubles a point, and adds the multiples of two others by a digit each. A double to which nothing is added takes no
// fourth coordinate, and neither does the last sum.
#[inline(always)]
fn add_digits<M: WideModulus>(
    first: &[Cached<M>; 8],
    second: &[Cached<M>; 8],
    sum: &mut Extended<M>,
    i: u8,
    j: u8,
)
    requires first { IsDigit i }
    requires second { IsDigit j }
    ensures { (d : ℕ) (k : IsComplete (number M.P) d) (s t q : Point (number M.P) d k)
        → AreOddMultiples d k s 8 first.now → AreOddMultiples d k t 8 second.now
        → StandsApart sum.old q.at
        → StandsApart sum.new (let group = points (number M.P) d k in
        group.plus (group.plus (group.plus q q) (signed_multiple (number M.P) d k i s))
        (signed_multiple (number M.P) d k j t)).at }
{
    if i == 0 && j == 0 {
        double_apart(sum);
        return;
    }
    let twice = doubled_of(sum);
    if j == 0 {
        *sum = with_last_digit(first, twice, i);
        return;
    }
    *sum = with_last_digit(second, with_digit(first, twice, i), j);
}

// The place behind the highest digit of two numbers that is not 0.
fn highest(m: &[u8; 257], n: &[u8; 257]) -> usize
    ensures within { result ≤ 257 }
    ensures first { IsBlankFrom result m.now }
    ensures second { IsBlankFrom result n.now }
{
    let mut i = 257;
    while i > 0 && m[i - 1] == 0 && n[i - 1] == 0 {
        i -= 1;
    }
    i
}

// The sum of the multiples of two points, by their tables and by the digits of the scalars.
fn by_digits<M: WideModulus>(
    first: &[Cached<M>; 8],
    m: &[u8; 257],
    second: &[Cached<M>; 8],
    n: &[u8; 257],
) -> Extended<M>
    requires first { AreDigits m.now }
    requires second { AreDigits n.now }
    ensures { (d : ℕ) (k : IsComplete (number M.P) d) (s t : Point (number M.P) d k)
        → AreOddMultiples d k s 8 first.now → AreOddMultiples d k t 8 second.now
        → (x y : ℕ) → x + weighed taken m.now ≡ weighed added m.now
        → y + weighed taken n.now ≡ weighed added n.now
        → Stands result (let group = points (number M.P) d k in
        group.plus (times group x s) (times group y t)).at }
{
    let mut sum = zero();
    let mut i = highest(m, n);
    while i > 0 {
        i -= 1;
        add_digits(first, second, &mut sum, m[i], n[i]);
    }
    whole(sum)
}

/// Returns the point, added as often as a public scalar says, by twice the curve's coefficient. The time depends on the
/// scalar, which may be any number of four words.
pub fn multiple_public<M: WideModulus>(
    twice: Fp256<M>,
    a: Extended<M>,
    scalar: Words,
) -> Extended<M>
    ensures { (d : ℕ) → IsComplete (number M.P) d → value twice ≡ 2 * d % number M.P
        → (s : Coordinates) → IsOnCurve (number M.P) d s → Stands a s
        → Stands result (times (edwards (number M.P) d) (number scalar) s) }
{
    let table = odd_multiples(twice, a);
    let nothing = Words {
        w0: 0,
        w1: 0,
        w2: 0,
        w3: 0,
    };
    by_digits(
        &table,
        &signed_digits(scalar),
        &table,
        &signed_digits(nothing),
    )
}

/// Returns the sum of two points, each added as often as a public scalar says, by twice the curve's coefficient. The
/// time depends on the scalars. It is shorter than that of two multiples: both are doubled at once.
pub fn sum_of_multiples_public<M: WideModulus>(
    twice: Fp256<M>,
    a: Extended<M>,
    m: Words,
    b: Extended<M>,
    n: Words,
) -> Extended<M>
    ensures { (d : ℕ) → IsComplete (number M.P) d → value twice ≡ 2 * d % number M.P
        → (s t : Coordinates) → IsOnCurve (number M.P) d s → IsOnCurve (number M.P) d t
        → Stands a s → Stands b t
        → Stands result (sum (number M.P) d (times (edwards (number M.P) d) (number m) s)
        (times (edwards (number M.P) d) (number n) t)) }
{
    let first = odd_multiples(twice, a);
    let second = odd_multiples(twice, b);
    by_digits(&first, &signed_digits(m), &second, &signed_digits(n))
}
