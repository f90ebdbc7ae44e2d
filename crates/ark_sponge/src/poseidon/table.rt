//! Permutations by what they run by alone, and that as one list: a table.

ghost use Rattle.std.specs.Prelude.{◌≡◌, ◌+◌, ◌-◌, ◌*◌, ◌≤◌, ◌++◌, map, length, All, vec_len, IfOk, OnOk};
ghost use Rattle.std.specs.List.{flat_map};
ghost use Rattle.ark_base.specs.Digits.{itself};
ghost use Rattle.ark_sponge.specs.Table.{parts_in, rows_of, short_permutation, table_length};

mod shape;

use crate::poseidon::permutation::{SBox, apply_rounds};
use crate::poseidon::recurrence::Recurrence;
use ark_groups::ff::{Field, Valued};
pub use shape::TableShape;
use std::alloc::{AllocError, Global};
use std::marker::Model;

/// A permutation whose partial rounds are a recurrence: what it runs by, and nothing else.
#[derive(Drop)]
pub struct ShortPermutation<F: Valued> {
    alpha: u64,
    mds: Vec<Vec<F>>,
    first: Vec<Vec<F>>,
    partial: Recurrence<F>,
    last: Vec<Vec<F>>,
}

impl<F: Valued> Model for ShortPermutation<F> {
    ghost use Rattle.std.specs.Prelude.{◌≡◌, ◌≤◌, map, length, All, vec_len};
    ghost use Rattle.ark_sponge.specs.Table.{ShortParts};

    ghost Value = { ShortParts };

    ghost view = { λ t. record {
      alpha = t.alpha;
      mds = map (λ row. map F.value row.items) t.mds.items;
      first = map (λ row. map F.value row.items) t.first.items;
      partial = t.partial;
      last = map (λ row. map F.value row.items) t.last.items;
    } };

    ghost invariant = { λ t. All (λ row. vec_len row ≡ vec_len t.mds) t.mds.items
        × All (λ row. vec_len row ≡ vec_len t.mds) t.first.items
        × (length t.partial.output ≡ vec_len t.mds)
        × All (λ row. vec_len row ≡ vec_len t.mds) t.last.items };
}

/// Returns so many rows of so many elements that stand one behind the other.
pub fn rows_of<F: Field>(
    alloc: Global,
    list: &[F],
    width: usize,
    count: usize,
) -> Result<Vec<Vec<F>>, AllocError>
    requires { count * width ≤ length list.now }
    ensures rows { IfOk result (λ rows. map (λ row. map F.value row.items) rows.items
        ≡ rows_of width count (map F.value list.now)) }
    ensures widths { IfOk result (λ rows. All (λ row. vec_len row ≡ width) rows.items) }
    ensures count { IfOk result (λ rows. vec_len rows ≡ count) }
{
    let mut rows = Vec::with_capacity(alloc, count)?;
    let mut rest = list;
    for _ in 0..count {
        let (row, behind) = rest.split_at(width);
        rows.push(Vec::from_slice(alloc, row)?)?;
        rest = behind;
    }
    Ok(rows)
}

/// Puts rows behind a list, one behind the other.
pub fn push_rows<F: Field>(list: &mut Vec<F>, rows: &[Vec<F>]) -> Result<(), AllocError>
    ensures { OnOk result (map F.value list.new.items ≡ map F.value list.old.items
        ++ flat_map itself (map (λ row. map F.value row.items) rows.now)) }
{
    for row in rows {
        list.extend_from_slice(row)?;
    }
    Ok(())
}

impl<F: Field> ShortPermutation<F> {
    /// Returns the permutation that a table of this shape is.
    pub fn of_table(
        alloc: Global,
        shape: TableShape,
        table: &[F],
    ) -> Result<ShortPermutation<F>, AllocError>
        requires two { 2 ≤ shape.width }
        requires long { table_length shape ≤ length table.now }
        ensures value { IfOk result (λ short. short ≡ parts_in shape (map F.value table.now)) }
        ensures wide { IfOk result (λ short. length short.mds ≡ shape.width) }
    {
        let TableShape {
            alpha,
            width,
            before,
            behind,
        } = shape;
        let (_, mds) = table.split_at(before * width);
        let (_, last) = mds.split_at(width * width);
        let (_, partial) = last.split_at(behind * width);
        Ok(ShortPermutation {
            alpha,
            mds: rows_of(alloc, mds, width, width)?,
            first: rows_of(alloc, table, width, before)?,
            partial: Recurrence::of_list(alloc, width, partial)?,
            last: rows_of(alloc, last, width, behind)?,
        })
    }

    /// Returns how many elements a state has.
    pub fn width(&self) -> usize
        ensures { result ≡ length self.now.mds }
    {
        self.mds.len()
    }

    /// Permutes a state in place. `scratch` is written over.
    pub fn permute<S: SBox<F>>(&self, state: &mut [F], scratch: &mut [F])
        requires width { length state.old ≡ length self.now.mds }
        requires scratch { length scratch.old ≡ length state.old }
        ensures { map F.value state.new
            ≡ short_permutation F.MODULUS S.image self.now (map F.value state.old) }
    {
        let mds = self.mds.as_slice();
        let width = mds.len();
        apply_rounds::<F, S>(state, scratch, &self.first, mds, self.alpha, width);
        self.partial.apply::<S>(self.alpha, state, scratch);
        apply_rounds::<F, S>(state, scratch, &self.last, mds, self.alpha, width);
    }
}
