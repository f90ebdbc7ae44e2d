//! The fields of a multi-proof, in the order of its canonical bytes.

ghost use Rattle.std.specs.Prelude.{◌≡◌, ◌++◌, OnOk};
ghost use Rattle.ark_base.specs.Outcome.{LacksMemoryOnly};
ghost use Rattle.ark_base.specs.Reading.{Reads};
ghost use Rattle.ark_paths.specs.MultiPathBytes.{MultiFits, multi_path_spelling, multi_path_at, parts_of};

use ark_base::error::Error;
use ark_base::serialize::{CanonicalDeserialize, CanonicalItem, CanonicalSerialize};
use std::alloc::Global;

/// The siblings, the prefixes, the suffixes and the indexes.
pub type Parts<L, D> = (Vec<L>, (Vec<usize>, (Vec<Vec<D>>, Vec<usize>)));

/// Appends their canonical bytes. The only error is `OutOfMemory`, and it leaves `dest` as before.
pub fn serialize_parts<L: CanonicalItem, D: CanonicalItem>(
    siblings: &Vec<L>,
    prefixes: &Vec<usize>,
    suffixes: &Vec<Vec<D>>,
    indexes: &Vec<usize>,
    dest: &mut Vec<u8>,
) -> Result<(), Error>
    ensures spelled { OnOk result (MultiFits L.has_spelling D.has_spelling
        (parts_of L.view D.view siblings.now.items prefixes.now.items suffixes.now.items
        indexes.now.items)) }
    ensures appended { OnOk result (dest.new.items ≡ dest.old.items ++
        (multi_path_spelling L.spelling D.spelling (parts_of L.view D.view siblings.now.items
        prefixes.now.items suffixes.now.items indexes.now.items))) }
    ensures refused { LacksMemoryOnly result (dest.new.items ≡ dest.old.items) }
{
    (siblings, (prefixes, (suffixes, indexes))).serialize(dest)
}

/// Reads them, and the count of bytes that they take.
///
/// Errors: `SerializationError` with the first fault from the left, `OutOfMemory`.
pub fn read_parts<L: CanonicalItem, D: CanonicalItem>(
    alloc: Global,
    bytes: &[u8],
) -> Result<(Parts<L, D>, usize), Error>
    ensures { Reads (λ parts. parts_of L.view D.view parts.0.items parts.1.0.items parts.1.1.0.items
        parts.1.1.1.items) bytes.now (multi_path_at L.reads D.reads bytes.now) result }
{
    Parts::<L, D>::read(alloc, bytes)
}
