//! The recurrence of a matrix and of rows of constants, checked.

ghost use Rattle.std.specs.Prelude.{◌≡◌, ℕ, ◌-◌, ◌<◌, ◌≤◌, List, ◌∷◌, [], ◌++◌, true, map, length, drop, All, vec_len, IfOk, IfSome};
ghost use Rattle.ark_sponge.specs.Permutation.{matrix_product};
ghost use Rattle.ark_sponge.specs.Recurrence.{AreRounds, TakesBack, TurnsAlike, MovesOne, AreMoved};

use crate::poseidon::config::is_matrix;
use crate::poseidon::permutation::{add_row, multiply};
use crate::poseidon::recurrence::Recurrence;
use crate::poseidon::recurrence::matrices::{are_same, combination, is_same, product};
use crate::poseidon::recurrence::search::{Found, search};
use ark_groups::ff::Field;
use std::alloc::{AllocError, Global};

// The search takes the cube of this many products.
const MOST_WIDE: usize = 64;

// The rows of the identity.
fn unit_rows<F: Field>(alloc: Global, n: usize) -> Result<Vec<Vec<F>>, AllocError>
    ensures { IfOk result (λ rows. (xs : List ℕ) → length xs ≡ n → All (λ x. x < F.MODULUS) xs
        → matrix_product F.MODULUS (map (λ row. map F.value row.items) rows.items) xs ≡ xs) }
{
    let mut rows = Vec::new(alloc);
    for i in 0..n {
        let mut row = vec![in alloc; F::zero(); n]?;
        row[i] = F::one();
        rows.push(row)?;
    }
    Ok(rows)
}

// A row with an element before it.
fn with_head<F: Field>(alloc: Global, head: F, tail: &[F]) -> Result<Vec<F>, AllocError>
    ensures { IfOk result (λ row. row.items ≡ head ∷ tail.now) }
{
    let mut row = Vec::new(alloc);
    row.push(head)?;
    row.extend_from_slice(tail)?;
    Ok(row)
}

// The rows but the first behind a 0, and a last one behind a 1.
fn moved_up<F: Field>(alloc: Global, rows: &[Vec<F>], last: &[F]) -> Result<Vec<Vec<F>>, AllocError>
    requires { 1 ≤ length rows.now }
    ensures { IfOk result (λ moved. map (λ row. map F.value row.items) moved.items
        ≡ map (λ row. 0 ∷ row) (drop 1 (map (λ row. map F.value row.items) rows.now))
        ++ (1 ∷ map F.value last.now) ∷ []) }
{
    let mut moved = Vec::new(alloc);
    for row in &rows[1..] {
        moved.push(with_head(alloc, F::zero(), row)?)?;
    }
    moved.push(with_head(alloc, F::one(), last)?)?;
    Ok(moved)
}

// Whether a matrix takes back what another does.
fn takes_back<F: Field>(alloc: Global, back: &[Vec<F>], into: &[Vec<F>]) -> bool
    requires back { All (λ row. vec_len row ≡ length into.now) back.now }
    requires into { All (λ row. vec_len row ≡ length into.now) into.now }
    ensures { result ≡ true → TakesBack F.MODULUS (length into.now)
        (map (λ row. map F.value row.items) back.now)
        (map (λ row. map F.value row.items) into.now) }
{
    let n = into.len();
    let Ok(both) = product(alloc, back, into, n) else {
        return false;
    };
    let Ok(units) = unit_rows::<F>(alloc, n) else {
        return false;
    };
    are_same(&both, &units)
}

// Whether the window of what the matrix gives is what a round makes of the window.
fn turns_alike<F: Field>(
    alloc: Global,
    mds: &[Vec<F>],
    into: &[Vec<F>],
    output: &[F],
    feedback: &[F],
) -> bool
    requires some { 2 ≤ length mds.now }
    requires mds { All (λ row. vec_len row ≡ length mds.now) mds.now }
    requires rows { length into.now ≡ length mds.now - 1 }
    requires into { All (λ row. vec_len row ≡ length mds.now - 1) into.now }
    requires output { length output.now ≡ length mds.now }
    requires feedback { length feedback.now ≡ length mds.now - 1 }
    ensures { result ≡ true → TurnsAlike F.MODULUS (map (λ row. map F.value row.items) mds.now)
        (map (λ row. map F.value row.items) into.now)
        (map F.value output.now) (map F.value feedback.now) }
{
    let n = mds.len() - 1;
    let Ok(next) = product(alloc, into, &mds[1..], n + 1) else {
        return false;
    };
    let Ok(last) = combination(alloc, feedback, into, n) else {
        return false;
    };
    let Ok(first) = combination(alloc, &output[1..], into, n) else {
        return false;
    };
    let Ok(moved) = moved_up(alloc, into, &last) else {
        return false;
    };
    let top = mds[0].as_slice();
    if output[0] != top[0] {
        return false;
    }
    if !is_same(&first, &top[1..]) {
        return false;
    }
    are_same(&next, &moved)
}

// Adds a row of constants to an offset, and takes it through a round. Returns what stays before the round. `spare` is
// written over.
fn move_row<F: Field>(mds: &[Vec<F>], row: &[F], offset: &mut [F], spare: &mut [F]) -> F
    requires some { 1 ≤ length mds.now }
    requires mds { All (λ row. vec_len row ≡ length mds.now) mds.now }
    requires row { length row.now ≡ length mds.now }
    requires offset { length offset.old ≡ length mds.now }
    requires spare { length spare.old ≡ length mds.now }
    ensures moved { MovesOne F.MODULUS (map (λ row. map F.value row.items) mds.now)
        (map F.value row.now) (map F.value offset.old) (F.value result) (map F.value offset.new) }
    ensures offset { length offset.new ≡ length offset.old }
{
    add_row(offset, row);
    let constant = offset[0];
    offset[0] = F::zero();
    multiply(mds, offset, spare);
    offset.copy_from_slice(spare);
    constant
}

// One constant for each row, and the offset behind all.
fn moved_constants<F: Field>(
    alloc: Global,
    mds: &[Vec<F>],
    rows: &[Vec<F>],
) -> Result<(Vec<F>, Vec<F>), AllocError>
    requires some { 1 ≤ length mds.now }
    requires mds { All (λ row. vec_len row ≡ length mds.now) mds.now }
    requires rows { All (λ row. vec_len row ≡ length mds.now) rows.now }
    ensures moved { IfOk result (λ made. AreMoved F.MODULUS
        (map (λ row. map F.value row.items) mds.now)
        (map (λ row. map F.value row.items) rows.now)
        (map F.value made.0.items) (map F.value made.1.items)) }
    ensures length { IfOk result (λ made. vec_len made.1 ≡ length mds.now) }
{
    let mut offset = vec![in alloc; F::zero(); mds.len()]?;
    let mut spare = vec![in alloc; F::zero(); mds.len()]?;
    let mut constants = Vec::new(alloc);
    for row in rows {
        let constant = move_row(mds, row, &mut offset, &mut spare);
        constants.push(constant)?;
    }
    Ok((constants, offset))
}

// The recurrence of what was found and of moved constants, if what was found serves.
fn kept<F: Field>(
    alloc: Global,
    mds: &[Vec<F>],
    rows: &[Vec<F>],
    found: Found<F>,
    constants: Vec<F>,
    offset: Vec<F>,
) -> Option<Recurrence<F>>
    requires some { 2 ≤ length mds.now }
    requires mds { All (λ row. vec_len row ≡ length mds.now) mds.now }
    requires moved { AreMoved F.MODULUS (map (λ row. map F.value row.items) mds.now)
        (map (λ row. map F.value row.items) rows.now)
        (map F.value constants.items) (map F.value offset.items) }
    requires offset { vec_len offset ≡ length mds.now }
    ensures { IfSome result (λ recurrence. AreRounds F.MODULUS
        (map (λ row. map F.value row.items) mds.now)
        (map (λ row. map F.value row.items) rows.now) recurrence) }
{
    let n = mds.len() - 1;
    let Found {
        output,
        feedback,
        into,
        back,
    } = found;
    if output.len() != n + 1 || feedback.len() != n {
        return None;
    }
    if !is_matrix(&into, n, n) || !is_matrix(&back, n, n) {
        return None;
    }
    if !takes_back(alloc, &back, &into) || !turns_alike(alloc, mds, &into, &output, &feedback) {
        return None;
    }
    Some(Recurrence {
        output,
        feedback,
        into,
        back,
        constants,
        offset,
    })
}

/// Returns the recurrence that the partial rounds are, with a matrix and these rows of constants.
///
/// `None` where a state has fewer than two elements or more than 64, where there are fewer than four rounds, where no
/// recurrence was found, and where memory is refused.
pub fn recurrence_of<F: Field>(
    alloc: Global,
    mds: &[Vec<F>],
    rows: &[Vec<F>],
) -> Option<Recurrence<F>>
    requires mds { All (λ row. vec_len row ≡ length mds.now) mds.now }
    requires rows { All (λ row. vec_len row ≡ length mds.now) rows.now }
    ensures { IfSome result (λ recurrence. AreRounds F.MODULUS
        (map (λ row. map F.value row.items) mds.now)
        (map (λ row. map F.value row.items) rows.now) recurrence) }
{
    if mds.len() < 2 || mds.len() > MOST_WIDE || rows.len() < 4 {
        return None;
    }
    let Ok(found) = search(alloc, mds) else {
        return None;
    };
    let Ok((constants, offset)) = moved_constants(alloc, mds, rows) else {
        return None;
    };
    kept(alloc, mds, rows, found, constants, offset)
}
