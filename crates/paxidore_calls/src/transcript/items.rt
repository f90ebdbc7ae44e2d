//! Items that stand one behind the other, each read in a way that a type names.

ghost use Rattle.std.specs.Prelude.{ℕ, ◌<◌, List, map};
ghost use Rattle.ark_base.specs.Reading.{Reading, Reads};
ghost use Rattle.ark_base.specs.Spelling.{items_at};

use ark_base::error::Error;
use ark_base::serialize::rest_of;
use std::alloc::Global;

/// A way to read an item.
pub trait ReadsItem<T> {
    ghost Value: { Type 0 };

    ghost view: { T → Value };

    ghost reads: { List ℕ → Reading Value };

    /// Reads an item, and the count of bytes that it takes.
    ///
    /// Errors: the first fault from the left; `OutOfMemory`.
    fn read_item(alloc: Global, bytes: &[u8]) -> Result<(T, usize), Error>
        ensures { Reads view bytes.now (reads bytes.now) result };
}

/// Reads `count` items of at least `least` bytes each, and the count of bytes that they take.
///
/// Room is allocated at once, for no more items than the bytes that remain could spell. Errors: the items' faults, one item
/// behind the other; `OutOfMemory`.
pub fn read_each_item<T: Drop, R: ReadsItem<T>>(
    alloc: Global,
    count: u64,
    least: usize,
    bytes: &[u8],
) -> Result<(Vec<T>, usize), Error>
    requires { 0 < least }
    ensures { let reading = items_at R.reads count bytes.now in
        Reads (λ items. map R.view items.items) bytes.now reading result }
{
    let most = (bytes.len() / least) as u64;
    let mut items = Vec::with_capacity(alloc, count.min(most) as usize)?;
    let mut used = 0;
    for _ in 0..count {
        let (item, more) = R::read_item(alloc, rest_of(bytes, used))?;
        items.push(item)?;
        used += more;
    }
    Ok((items, used))
}
