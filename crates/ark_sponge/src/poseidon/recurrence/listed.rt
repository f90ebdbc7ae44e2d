//! Recurrences as lists.

ghost use Rattle.std.specs.Prelude.{◌≡◌, ◌≤◌, ◌++◌, ℕ, List, map, length, IfOk, OnOk};
ghost use Rattle.ark_sponge.specs.Table.{recurrence_in, recurrence_length, IsListed};

use crate::poseidon::recurrence::Recurrence;
use crate::poseidon::table::{push_rows, rows_of};
use ark_groups::ff::Field;
use std::alloc::{AllocError, Global};

impl<F: Field> Recurrence<F> {
    /// Returns the recurrence that a list is, for a state of so many elements.
    pub fn of_list(alloc: Global, width: usize, list: &[F]) -> Result<Recurrence<F>, AllocError>
        requires two { 2 ≤ width }
        requires long { recurrence_length width ≤ length list.now }
        ensures value { IfOk result (λ r. r ≡ recurrence_in width (map F.value list.now)) }
        ensures wide { IfOk result (λ r. length r.output ≡ width) }
    {
        let n = width - 1;
        let (_, back) = list.split_at(n * n);
        let (_, rest) = back.split_at(n * n);
        let (output, rest) = rest.split_at(width);
        let (feedback, rest) = rest.split_at(n);
        let (offset, constants) = rest.split_at(width);
        let output = Vec::from_slice(alloc, output)?;
        let feedback = Vec::from_slice(alloc, feedback)?;
        let into = rows_of(alloc, list, n, n)?;
        let back = rows_of(alloc, back, n, n)?;
        let constants = Vec::from_slice(alloc, constants)?;
        let offset = Vec::from_slice(alloc, offset)?;
        Ok(Recurrence {
            output,
            feedback,
            into,
            back,
            constants,
            offset,
        })
    }

    /// Puts the recurrence behind a list, as a list that `of_list` takes.
    pub fn push_to(&self, list: &mut Vec<F>) -> Result<(), AllocError>
        ensures { OnOk result ((xs : List ℕ) × IsListed self.now xs
            × (map F.value list.new.items ≡ map F.value list.old.items ++ xs)) }
    {
        push_rows(list, &self.into)?;
        push_rows(list, &self.back)?;
        list.extend_from_slice(&self.output)?;
        list.extend_from_slice(&self.feedback)?;
        list.extend_from_slice(&self.offset)?;
        list.extend_from_slice(&self.constants)?;
        Ok(())
    }
}
