//! The linear layers, in place: by additions, doublings and a product for each number of the diagonal.

ghost use Rattle.std.specs.Prelude.{◌≡◌, ◌==◌, true, ◌*◌, ◌≤◌, ◌%◌, ◌∷◌, [], length, map, sum, replicate};
ghost use Rattle.ark_sponge.specs.Permutation.{matrix_product};
ghost use Rattle.poseidon2.specs.Matrices.{external_matrix, internal_matrix, block_circulant};
ghost use Rattle.poseidon2.specs.Blocks.{front_blocks, row_times, column, sum_at};
ghost use Rattle.poseidon2.specs.Permutation.{is_width};

use crate::blocks::{BlockMatrix, Four, block_at, sum_of_blocks, write_block};
use ark_groups::ff::Field;

// Returns the sum of all elements.
fn total<F: Field>(state: &[F]) -> F
    ensures { F.value result ≡ sum (map F.value state.now) % F.MODULUS }
{
    let mut all = F::zero();
    for x in state {
        all = all.add(*x);
    }
    all
}

// Multiplies each of the first blocks by the matrix of four by four.
fn multiply_blocks<F: Field, B: BlockMatrix<F>>(state: &mut [F], blocks: usize)
    requires { 4 * blocks ≤ length state.old }
    ensures { map F.value state.new
        ≡ front_blocks (row_times F.MODULUS B.matrix) blocks (map F.value state.old) }
{
    for b in 0..blocks {
        let product = B::multiply(block_at(state, 4 * b));
        write_block(state, 4 * b, product);
    }
}

// Returns the sum of the first blocks, place by place.
fn columns<F: Field>(state: &[F], blocks: usize) -> Four<F>
    requires { 4 * blocks ≤ length state.now }
    ensures w0 { F.value result.w0 ≡ column 0 blocks (map F.value state.now) % F.MODULUS }
    ensures w1 { F.value result.w1 ≡ column 1 blocks (map F.value state.now) % F.MODULUS }
    ensures w2 { F.value result.w2 ≡ column 2 blocks (map F.value state.now) % F.MODULUS }
    ensures w3 { F.value result.w3 ≡ column 3 blocks (map F.value state.now) % F.MODULUS }
{
    let zero = F::zero();
    let mut all = Four {
        w0: zero,
        w1: zero,
        w2: zero,
        w3: zero,
    };
    for b in 0..blocks {
        all = sum_of_blocks(all, block_at(state, 4 * b));
    }
    all
}

// Adds four elements to each of the first blocks.
fn add_to_blocks<F: Field>(state: &mut [F], blocks: usize, s: Four<F>)
    requires { 4 * blocks ≤ length state.old }
    ensures { map F.value state.new ≡ front_blocks (sum_at F.MODULUS (F.value s.w0)
        (F.value s.w1) (F.value s.w2) (F.value s.w3)) blocks (map F.value state.old) }
{
    for b in 0..blocks {
        let sums = sum_of_blocks(block_at(state, 4 * b), s);
        write_block(state, 4 * b, sums);
    }
}

// Multiplies a state of so many blocks by the block circulant.
fn multiply_circulant<F: Field, B: BlockMatrix<F>>(state: &mut [F], blocks: usize)
    requires { length state.old ≡ 4 * blocks }
    ensures { map F.value state.new
        ≡ matrix_product F.MODULUS (block_circulant B.matrix blocks) (map F.value state.old) }
{
    multiply_blocks::<F, B>(state, blocks);
    let s = columns(state, blocks);
    add_to_blocks(state, blocks, s);
}

// Multiplies a state by ones with a diagonal added, by a product for each element.
fn multiply_diagonal<F: Field>(state: &mut [F], diagonal: &[F])
    requires { length diagonal.now ≡ length state.old }
    ensures { map F.value state.new ≡ matrix_product F.MODULUS
        (internal_matrix (map F.value diagonal.now)) (map F.value state.old) }
{
    let all = total(state);
    for (i, d) in diagonal.iter().enumerate() {
        state[i] = state[i].mul(*d).add(all);
    }
}

// Returns whether two elements are one number.
fn is_same<F: Field>(x: F, y: F) -> bool
    ensures { result ≡ (F.value x == F.value y) }
{
    x == y
}

// Returns whether a diagonal is 1, 1, 2.
fn is_short<F: Field>(diagonal: &[F]) -> bool
    ensures three { result ≡ true → length diagonal.now ≡ 3 }
    ensures numbers { result ≡ true
        → map F.value diagonal.now ≡ 1 ∷ 1 ∷ 2 % F.MODULUS ∷ [] }
{
    if diagonal.len() != 3 {
        return false;
    }
    let one = F::one();
    let two = one.double();
    is_same(diagonal[0], one) && is_same(diagonal[1], one) && is_same(diagonal[2], two)
}

// Multiplies a state of three elements by ones with the diagonal 1, 1, 2 added, without a product.
fn multiply_short<F: Field>(state: &mut [F])
    requires { length state.old ≡ 3 }
    ensures { map F.value state.new ≡ matrix_product F.MODULUS
        (internal_matrix (1 ∷ 1 ∷ 2 % F.MODULUS ∷ [])) (map F.value state.old) }
{
    let x = state[0];
    let y = state[1];
    let z = state[2];
    let both = x.add(y);
    let all = both.add(z);
    let twice = z.double();
    let first = x.add(all);
    let second = y.add(all);
    let third = twice.add(all);
    state[0] = first;
    state[1] = second;
    state[2] = third;
}

/// Multiplies a state by the internal matrix, which has a diagonal added to ones.
pub fn internal_layer<F: Field>(state: &mut [F], diagonal: &[F])
    requires { length diagonal.now ≡ length state.old }
    ensures { map F.value state.new ≡ matrix_product F.MODULUS
        (internal_matrix (map F.value diagonal.now)) (map F.value state.old) }
{
    if is_short(diagonal) {
        multiply_short(state);
    } else {
        multiply_diagonal(state, diagonal);
    }
}

// Adds the sum of a state to each of its elements: the product with ones to which ones are added as the diagonal.
fn add_total<F: Field>(state: &mut [F])
    ensures { map F.value state.new ≡ matrix_product F.MODULUS
        (internal_matrix (replicate (length state.old) 1)) (map F.value state.old) }
{
    let all = total(state);
    let width = state.len();
    for i in 0..width {
        state[i] = state[i].add(all);
    }
}

/// Multiplies a state of two or three elements, or of a multiple of four, by the external matrix.
pub fn external_layer<F: Field, B: BlockMatrix<F>>(state: &mut [F])
    requires { is_width (length state.old) ≡ true }
    ensures { map F.value state.new ≡ matrix_product F.MODULUS
        (external_matrix B.matrix (length state.old)) (map F.value state.old) }
{
    let width = state.len();
    if width < 4 {
        add_total(state);
    } else if width == 4 {
        multiply_blocks::<F, B>(state, 1);
    } else {
        multiply_circulant::<F, B>(state, width / 4);
    }
}
