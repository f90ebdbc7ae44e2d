//! Tables of elements, by which they are multiplied in less time. No branch and no address depends on the scalar.

ghost use Rattle.std.specs.Prelude.{◌≡◌, ℕ, ◌+◌, ◌-◌, ◌*◌, ◌/◌, ◌%◌, ◌^◌, ◌<◌, ◌≤◌, ◌++◌, List, length, get_or, map, IfOk, IfErr, OnOk};
ghost use Rattle.ark_groups.specs.Group.{times};
ghost use Rattle.ark_groups.specs.Words.{number};
ghost use Rattle.jubjub.specs.declared.element.Jubjub.{Jubjub};
ghost use Rattle.jubjub.specs.Elements.{jubjub};
ghost use Rattle.jubjub.specs.Sums.{total};
ghost use Rattle.jubjub.specs.Tables.{row_of_multiples, rows_of, signed_at};

use crate::element::sums::chosen::{Chosen, signed_multiple_at};
use crate::element::sums::many::elements_of_sums;
use crate::element::{Jubjub, JubjubSum};
use crate::extended::plus_crossed;
use crate::fr::JubjubFr;
use ark_base::error::Error;
use ark_groups::ec::{AdditiveGroup, FixedBaseGroup};
use ark_groups::ff::{Field, Words};
use edwards::without_signed_digit;
use std::alloc::Global;
use std::marker::Model;

// How many signed digits to base 32 a scalar has.
const PLACES: usize = 51;

// How many multiples a row has: by 1 to the size of the largest digit.
const ENTRIES: usize = 16;

/// The multiples of an element by 1 to 16 at each of 51 places to base 32: 78,336 bytes. Contracts see the element.
#[derive(Drop)]
pub struct JubjubTable {
    multiples: Vec<Jubjub>,
}

impl Model for JubjubTable {
    ghost Value = { Jubjub };

    ghost view = { λ table. get_or table.multiples.items 0 jubjub.identity };

    ghost invariant = { λ table. table.multiples.items
        ≡ rows_of 51 (get_or table.multiples.items 0 jubjub.identity) };
}

// Puts a sum's multiples by 1 to 16 behind others, and returns its multiple by 32. The only error is `OutOfMemory`.
fn push_multiples(sums: &mut Vec<JubjubSum>, unit: JubjubSum) -> Result<JubjubSum, Error>
    ensures row { OnOk result (map total sums.new.items
        ≡ map total sums.old.items ++ row_of_multiples (total unit)) }
    ensures next { IfOk result (λ next. total next ≡ times jubjub 32 (total unit)) }
    ensures refused { IfErr result (λ error. error ≡ Error.OutOfMemory) }
{
    sums.push(unit)?;
    let mut last = unit;
    for _ in 1..ENTRIES {
        last = Jubjub::add_sums(last, unit);
        sums.push(last)?;
    }
    Ok(Jubjub::double_sum(last))
}

// Returns the multiples of an element by 1 to 16 at each place, as sums. The only error is `OutOfMemory`.
fn multiples_of(alloc: Global, element: Jubjub) -> Result<Vec<JubjubSum>, Error>
    ensures made { IfOk result (λ sums. map total sums.items ≡ rows_of 51 element) }
    ensures refused { IfErr result (λ error. error ≡ Error.OutOfMemory) }
{
    let mut sums = Vec::with_capacity(alloc, PLACES * ENTRIES)?;
    let mut unit = element.to_sum();
    for _ in 0..PLACES {
        unit = push_multiples(&mut sums, unit)?;
    }
    Ok(sums)
}

// The sum with the multiple by a signed digit, from the row that begins at a place.
fn plus_digit(sum: JubjubSum, multiples: &[Jubjub], first: usize, digit: u64) -> JubjubSum
    requires inside { first + 16 ≤ length multiples.now }
    requires digit { digit < 32 }
    ensures { total result ≡ jubjub.plus (total sum) (signed_at multiples.now first digit) }
{
    let Chosen { x, y, crossed } = signed_multiple_at(multiples, first, digit);
    JubjubSum::of(sum.twice, plus_crossed(sum.point, x, y, crossed))
}

// The multiple by a scalar, from the rows of an element.
fn multiple_by(multiples: &[Jubjub], scalar: Words) -> JubjubSum
    requires length { length multiples.now ≡ 816 }
    requires fits { number scalar < 2 ^ 252 }
    ensures { (x : Jubjub) → multiples.now ≡ rows_of 51 x
        → total result ≡ times jubjub (number scalar) x }
{
    let mut sum = Jubjub::zero().to_sum();
    let mut rest = scalar;
    for place in 0..PLACES {
        sum = plus_digit(sum, multiples, ENTRIES * place, rest.w0 % 32);
        rest = without_signed_digit(rest);
    }
    sum
}

/// A table takes 78,336 bytes, and some 5 million instructions to make.
impl FixedBaseGroup for Jubjub {
    type Table = JubjubTable;

    ghost base = { λ table. table };

    fn table(self, alloc: Global) -> Result<JubjubTable, Error> {
        Ok(JubjubTable {
            multiples: elements_of_sums(alloc, &multiples_of(alloc, self)?)?,
        })
    }

    fn mul_by_table(table: &JubjubTable, s: JubjubFr) -> Jubjub {
        Jubjub::from_sum(multiple_by(&table.multiples, s.words()))
    }
}
