//! The rounds of the permutation, in place.

ghost use Rattle.std.specs.Prelude.{◌≡◌, true, ◌<◌, length, map, All, vec_len};
ghost use Rattle.ark_sponge.specs.Permutation.{sums};
ghost use Rattle.poseidon2.specs.Matrices.{external_matrix, internal_matrix};
ghost use Rattle.poseidon2.specs.Permutation.{is_width, full_rounds, partial_round, partial_rounds};

use crate::blocks::BlockMatrix;
use crate::layers::{external_layer, internal_layer};
use ark_groups::ff::Field;
use ark_sponge::poseidon::SBox;

// Adds a row of constants, and applies the S-box to each element.
fn apply_images<F: Field, S: SBox<F>>(state: &mut [F], row: &[F], alpha: u64)
    requires { length row.now ≡ length state.old }
    ensures { map F.value state.new ≡ map (S.image alpha)
        (sums F.MODULUS (map F.value state.old) (map F.value row.now)) }
{
    for (i, x) in row.iter().enumerate() {
        state[i] = S::apply(alpha, state[i].add(*x));
    }
}

/// Runs a full round for each row of constants, over a state of two or three elements or of a multiple of four.
pub fn run_full_rounds<F: Field, S: SBox<F>, B: BlockMatrix<F>>(
    state: &mut [F],
    rows: &[Vec<F>],
    alpha: u64,
)
    requires width { is_width (length state.old) ≡ true }
    requires rows { All (λ row. vec_len row ≡ length state.old) rows.now }
    ensures { map F.value state.new ≡ full_rounds F.MODULUS (S.image alpha)
        (external_matrix B.matrix (length state.old))
        (map (λ row. map F.value row.items) rows.now) (map F.value state.old) }
{
    for row in rows {
        apply_images::<F, S>(state, row, alpha);
        external_layer::<F, B>(state);
    }
}

// Runs a partial round.
fn apply_partial_round<F: Field, S: SBox<F>>(
    state: &mut [F],
    constant: F,
    diagonal: &[F],
    alpha: u64,
)
    requires some { 0 < length state.old }
    requires diagonal { length diagonal.now ≡ length state.old }
    ensures { map F.value state.new ≡ partial_round F.MODULUS (S.image alpha)
        (internal_matrix (map F.value diagonal.now)) (map F.value state.old) (F.value constant) }
{
    state[0] = S::apply(alpha, state[0].add(constant));
    internal_layer(state, diagonal);
}

/// Runs a partial round for each constant.
pub fn run_partial_rounds<F: Field, S: SBox<F>>(
    state: &mut [F],
    constants: &[F],
    diagonal: &[F],
    alpha: u64,
)
    requires some { 0 < length state.old }
    requires diagonal { length diagonal.now ≡ length state.old }
    ensures { map F.value state.new ≡ partial_rounds F.MODULUS (S.image alpha)
        (internal_matrix (map F.value diagonal.now)) (map F.value constants.now)
        (map F.value state.old) }
{
    for constant in constants {
        apply_partial_round::<F, S>(state, *constant, diagonal, alpha);
    }
}
