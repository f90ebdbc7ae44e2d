//! Runs of hashes in a kept tree.

ghost use Rattle.std.specs.Prelude.{◌≡◌, ◌<◌, ◌≤◌, ◌+◌, ◌*◌, ℕ, [], get_or, length};
ghost use Rattle.kept_tree.specs.KeptTree.{AreInside};

use ark_crh::ArrayHash;

/// How many places a run has at most: as many digests lie on the stack.
pub const RUN: usize = 64;

/// Returns, in front, the hashes of the two digests below each of so many places from one on.
pub fn hashes_from<H: ArrayHash>(memory: &[[u8; 32]], first: usize, count: usize) -> [[u8; 32]; 64]
    requires run { count ≤ 64 }
    requires inside { 2 * (first + count) < length memory.now }
    ensures { (i : ℕ) → i < count → get_or result i []
        ≡ H.node_hash (get_or memory.now (2 * (first + i) + 1) [])
        (get_or memory.now (2 * (first + i) + 2) []) }
{
    let mut couples = [(&memory[0], &memory[0]); RUN];
    'couples: for n in 0..count {
        couples[n] = (&memory[2 * (first + n) + 1], &memory[2 * (first + n) + 2]);
    }
    let mut digests = [[0u8; 32]; RUN];
    H::nodes(&couples[..count], &mut digests[..count]);
    digests
}

/// Returns, in front, the hashes of the two digests below each of some places.
pub fn hashes_of<H: ArrayHash>(memory: &[[u8; 32]], places: &[usize]) -> [[u8; 32]; 64]
    requires run { length places.now ≤ 64 }
    requires some { 0 < length memory.now }
    requires inside { AreInside (length memory.now) places.now }
    ensures { (i : ℕ) → i < length places.now → get_or result i []
        ≡ H.node_hash (get_or memory.now (2 * get_or places.now i 0 + 1) [])
        (get_or memory.now (2 * get_or places.now i 0 + 2) []) }
{
    let mut couples = [(&memory[0], &memory[0]); RUN];
    let count = places.len();
    'couples: for n in 0..count {
        let place = places[n];
        couples[n] = (&memory[2 * place + 1], &memory[2 * place + 2]);
    }
    let mut digests = [[0u8; 32]; RUN];
    H::nodes(&couples[..count], &mut digests[..count]);
    digests
}
