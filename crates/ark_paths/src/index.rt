//! Indexes of leaves, and sizes of trees.

ghost use Rattle.std.specs.Bool.{Decides};
ghost use Rattle.std.specs.Prelude.{◌≡◌, ◌<◌, ◌-◌, ◌^◌};
ghost use Rattle.ark_paths.specs.Index.{bit_at, log2, neighbour, IsTreeSize, is_tree_size};

/// Returns whether a bit of a number is set. Those past its 64 are not.
pub fn is_bit_set(n: usize, bit: usize) -> bool
    ensures { result ≡ bit_at n bit }
{
    bit < 64 && n >> bit & 1 == 1
}

/// Returns the place that differs in bit 0.
pub fn neighbour_of(place: usize) -> usize
    requires { neighbour place < 2 ^ 64 }
    ensures { result ≡ neighbour place }
{
    if is_bit_set(place, 0) {
        place - 1
    } else {
        place + 1
    }
}

/// Returns whether a tree can have this many leaves: a power of two above one. No tree has another size, so whoever
/// builds one of a stranger's leaves asks this first.
pub fn is_tree_size(size: usize) -> bool
    ensures decides { Decides result (IsTreeSize size) }
    ensures test { result ≡ is_tree_size size }
{
    size > 1 && size == 1 << size.ilog2()
}

/// Returns how many levels of a tree with this many leaves stand between the leaf digests and the root.
pub fn levels_between(size: usize) -> usize
    requires { IsTreeSize size }
    ensures { result ≡ log2 size - 1 }
{
    size.ilog2() as usize - 1
}
