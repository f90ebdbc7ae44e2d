//! The table of parameters.

ghost use Rattle.std.specs.Prelude.{map, IfErr, IfOk, ◌≡◌, ◌⊎◌};
ghost use Rattle.ark_base.specs.declared.error.Error.TheVariants.{GenericError, OutOfMemory};
ghost use Rattle.ark_base.specs.declared.error.Refusal.TheVariants.{ParameterShape};
ghost use Rattle.ark_sponge.specs.Table.{IsTable, shape_of};

use crate::poseidon::config::PoseidonConfig;
use crate::poseidon::table::{TableShape, push_rows};
use ark_base::error::{Error, Refusal};
use ark_groups::ff::Field;
use std::alloc::Global;

impl<F: Field> PoseidonConfig<F> {
    /// Returns the counts of the parameters' table.
    pub fn table_shape(&self) -> TableShape
        ensures { result ≡ shape_of self.now }
    {
        let before = self.full_rounds / 2;
        TableShape {
            alpha: self.alpha,
            width: self.rate + self.capacity,
            before,
            behind: self.full_rounds - before,
        }
    }

    /// Returns a table by which `ShortPermutation` runs the same permutation.
    ///
    /// Errors: `ParameterShape` for parameters that are not `prepared`; `OutOfMemory`.
    pub fn table(&self, alloc: Global) -> Result<Vec<F>, Error>
        ensures made { IfOk result (λ table.
            IsTable F.MODULUS self.now (map F.value table.items)) }
        ensures refused { IfErr result (λ error.
            (error ≡ OutOfMemory) ⊎ (error ≡ GenericError ParameterShape)) }
    {
        let Some(recurrence) = &self.recurrence else {
            return Err(Error::GenericError(Refusal::ParameterShape));
        };
        let half = self.full_rounds / 2;
        let middle = half + self.partial_rounds;
        let mut table = Vec::new(alloc);
        push_rows(&mut table, &self.ark[..half])?;
        push_rows(&mut table, &self.mds)?;
        push_rows(&mut table, &self.ark[middle..])?;
        recurrence.push_to(&mut table)?;
        Ok(table)
    }
}
