//! Multiples of elements whose owner keeps a table of them.

ghost use Rattle.std.specs.Prelude.{◌≡◌, IfOk, IfErr};
ghost use Rattle.ark_groups.specs.Group.{times};

use crate::ec::AdditiveGroup;
use ark_base::error::Error;
use std::alloc::Global;

/// A group whose elements have tables, by which they are multiplied in less time.
pub trait FixedBaseGroup: AdditiveGroup {
    /// What an element's owner keeps for its multiples.
    type Table: Drop;

    // The element that a table is of.
    ghost base: { Self.Table → Self };

    /// Returns the element's table. The only error is `OutOfMemory`.
    fn table(self, alloc: Global) -> Result<Self::Table, Error>
        ensures made { IfOk result (λ table. base table ≡ self) }
        ensures refused { IfErr result (λ error. error ≡ Error.OutOfMemory) };

    /// Returns the table's element, added as often as the scalar says.
    fn mul_by_table(table: &Self::Table, s: Self::ScalarField) -> Self
        ensures { result ≡ times Self.group (Self.ScalarField.value s) (base table.now) };
}
