//! The partial rounds as a linear recurrence: 2t - 1 products a round, where a state has t elements, in place of t^2.

ghost use Rattle.std.specs.Prelude.{◌≡◌, ◌-◌, ◌≤◌, ◌∷◌, [], ◌++◌, List, map, length, fold, drop, All, vec_len, IfSome};
ghost use Rattle.ark_sponge.specs.Permutation.{matrix_product};
ghost use Rattle.ark_sponge.specs.Recurrence.{on_tail, short_round, short_rounds};

mod listed;
pub mod making;
mod matrices;
mod search;

use crate::poseidon::config::{copy_of_rows, is_matrix};
use crate::poseidon::permutation::{SBox, add_row, multiply};
use ark_groups::ff::{Field, Valued};
use std::marker::Model;

/// What the partial rounds run by.
#[derive(Drop)]
pub struct Recurrence<F: Valued> {
    output: Vec<F>,
    feedback: Vec<F>,
    into: Vec<Vec<F>>,
    back: Vec<Vec<F>>,
    constants: Vec<F>,
    offset: Vec<F>,
}

impl<F: Valued> Model for Recurrence<F> {
    ghost use Rattle.std.specs.Prelude.{◌≡◌, ◌-◌, ◌≤◌, map, All, vec_len};
    ghost use Rattle.ark_sponge.specs.Recurrence.{ShortRounds};

    ghost Value = { ShortRounds };

    ghost view = { λ r. record {
      output = map F.value r.output.items;
      feedback = map F.value r.feedback.items;
      into = map (λ row. map F.value row.items) r.into.items;
      back = map (λ row. map F.value row.items) r.back.items;
      constants = map F.value r.constants.items;
      offset = map F.value r.offset.items;
    } };

    ghost invariant = { λ r. (2 ≤ vec_len r.output)
        × (vec_len r.feedback ≡ vec_len r.output - 1)
        × (vec_len r.into ≡ vec_len r.output - 1)
        × All (λ row. vec_len row ≡ vec_len r.output - 1) r.into.items
        × (vec_len r.back ≡ vec_len r.output - 1)
        × All (λ row. vec_len row ≡ vec_len r.output - 1) r.back.items
        × (vec_len r.offset ≡ vec_len r.output) };
}

// The first element, and the matrix times the others.
fn change_tail<F: Field>(matrix: &[Vec<F>], state: &[F], out: &mut [F])
    requires some { 1 ≤ length state.now }
    requires out { length out.old ≡ length state.now }
    requires rows { length matrix.now ≡ length state.now - 1 }
    requires columns { All (λ row. vec_len row ≡ length state.now - 1) matrix.now }
    ensures value { map F.value out.new
        ≡ on_tail (matrix_product F.MODULUS (map (λ row. map F.value row.items) matrix.now))
        (map F.value state.now) }
    ensures length { length out.new ≡ length out.old }
{
    out[0] = state[0];
    multiply(matrix, &state[1..], &mut out[1..]);
}

// The first element written over, and the others moved up by one: the second goes, and one comes behind the last.
fn shift<F: Field>(state: &mut [F], first: F, last: F)
    requires { 2 ≤ length state.old }
    ensures { state.new ≡ first ∷ (drop 2 state.old ++ last ∷ []) }
{
    let end = state.len() - 1;
    state.copy_within(2.., 1);
    state[end] = last;
    state[0] = first;
}

// One round.
fn turn<F: Field, S: SBox<F>>(
    state: &mut [F],
    constant: F,
    alpha: u64,
    output: &[F],
    feedback: &[F],
)
    requires two { 2 ≤ length state.old }
    requires output { length output.now ≡ length state.old }
    requires feedback { length feedback.now ≡ length state.old - 1 }
    ensures value { map F.value state.new
        ≡ short_round F.MODULUS (S.image alpha) (map F.value output.now) (map F.value feedback.now)
        (map F.value state.old) (F.value constant) }
    ensures length { length state.new ≡ length state.old }
{
    let image = S::apply(alpha, state[0].add(constant));
    state[0] = image;
    let first = F::sum_of_products(output, state);
    let last = image.add(F::sum_of_products(feedback, &state[1..]));
    shift(state, first, last);
}

// A round for each constant.
fn turn_all<F: Field, S: SBox<F>>(
    state: &mut [F],
    constants: &[F],
    alpha: u64,
    output: &[F],
    feedback: &[F],
)
    requires two { 2 ≤ length state.old }
    requires output { length output.now ≡ length state.old }
    requires feedback { length feedback.now ≡ length state.old - 1 }
    ensures value { map F.value state.new
        ≡ fold (short_round F.MODULUS (S.image alpha) (map F.value output.now)
        (map F.value feedback.now)) (map F.value state.old) (map F.value constants.now) }
    ensures length { length state.new ≡ length state.old }
{
    for constant in constants {
        turn::<F, S>(state, *constant, alpha, output, feedback);
    }
}

// A list once more.
fn copy_of_list<F: Field>(list: &Vec<F>) -> Option<Vec<F>>
    ensures { IfSome result (λ copy. copy.items ≡ list.now.items) }
{
    match Vec::from_slice(*list.allocator(), list) {
        Ok(copy) => Some(copy),
        Err(_) => None,
    }
}

// Rows once more.
fn copy_of_matrix<F: Field>(rows: &Vec<Vec<F>>) -> Option<Vec<Vec<F>>>
    ensures { IfSome result (λ copy. map (λ row. map F.value row.items) copy.items
        ≡ map (λ row. map F.value row.items) rows.now.items) }
{
    match copy_of_rows(rows) {
        Ok(copy) => Some(copy),
        Err(_) => None,
    }
}

impl<F: Field> Recurrence<F> {
    /// Returns a recurrence of these parts, if their lengths fit.
    pub fn of_parts(
        output: Vec<F>,
        feedback: Vec<F>,
        into: Vec<Vec<F>>,
        back: Vec<Vec<F>>,
        constants: Vec<F>,
        offset: Vec<F>,
    ) -> Option<Recurrence<F>>
        ensures { IfSome result (λ recurrence. recurrence ≡ record {
          output = map F.value output.items;
          feedback = map F.value feedback.items;
          into = map (λ row. map F.value row.items) into.items;
          back = map (λ row. map F.value row.items) back.items;
          constants = map F.value constants.items;
          offset = map F.value offset.items;
        }) }
    {
        let width = output.len();
        if width < 2 || feedback.len() != width - 1 || offset.len() != width {
            return None;
        }
        if !is_matrix(&into, width - 1, width - 1) || !is_matrix(&back, width - 1, width - 1) {
            return None;
        }
        Some(Recurrence {
            output,
            feedback,
            into,
            back,
            constants,
            offset,
        })
    }

    /// Returns the recurrence once more; `None` where memory is refused.
    pub fn copied(&self) -> Option<Recurrence<F>>
        ensures { IfSome result (λ copy. copy ≡ self.now) }
    {
        let output = copy_of_list(&self.output)?;
        let feedback = copy_of_list(&self.feedback)?;
        let into = copy_of_matrix(&self.into)?;
        let back = copy_of_matrix(&self.back)?;
        let constants = copy_of_list(&self.constants)?;
        let offset = copy_of_list(&self.offset)?;
        Recurrence::of_parts(output, feedback, into, back, constants, offset)
    }

    /// Runs all rounds over a state in place, with an S-box under an exponent. `scratch` is written over.
    pub fn apply<S: SBox<F>>(&self, alpha: u64, state: &mut [F], scratch: &mut [F])
        requires width { length state.old ≡ length self.now.output }
        requires scratch { length scratch.old ≡ length state.old }
        ensures { map F.value state.new
            ≡ short_rounds F.MODULUS (S.image alpha) self.now (map F.value state.old) }
    {
        change_tail(&self.into, state, scratch);
        turn_all::<F, S>(
            scratch,
            &self.constants,
            alpha,
            &self.output,
            &self.feedback,
        );
        change_tail(&self.back, scratch, state);
        add_row(state, &self.offset);
    }
}
