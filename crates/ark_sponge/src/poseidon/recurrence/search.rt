//! Matrices that may turn the partial rounds into a recurrence, by elimination. Nothing is claimed of them: what they are
//! made for is checked afterwards, and they are kept only if it holds.

use ark_groups::ff::{Field, Words, halved};
use std::alloc::{AllocError, Global};

/// What a recurrence has besides constants.
#[derive(Drop)]
pub struct Found<F> {
    pub output: Vec<F>,
    pub feedback: Vec<F>,
    pub into: Vec<Vec<F>>,
    pub back: Vec<Vec<F>>,
}

// The element at an index, 0 past the end.
fn at<F: Field>(list: &[F], index: usize) -> F {
    match list.get(index) {
        Some(x) => *x,
        None => F::zero(),
    }
}

// The element of a row at an index, 0 past the ends.
fn entry<F: Field>(rows: &[Vec<F>], row: usize, column: usize) -> F {
    match rows.get(row) {
        Some(items) => at(items, column),
        None => F::zero(),
    }
}

// Writes an element at an index, nowhere past the end.
fn put<F: Field>(list: &mut [F], index: usize, x: F) {
    if index < list.len() {
        list[index] = x;
    }
}

// The power by the modulus less 2: the inverse where the modulus is a prime.
fn inverse<F: Field>(x: F) -> F {
    let mut product = F::one();
    let mut square = x;
    let mut rest = less_two(F::modulus());
    for _ in 0..256 {
        if rest.w0 % 2 == 1 {
            product = product.mul(square);
        }
        square = square.mul(square);
        rest = halved(rest);
    }
    product
}

// The number less 2, where its lowest word is not below 2.
fn less_two(words: Words) -> Words {
    Words {
        w0: words.w0.wrapping_sub(2),
        w1: words.w1,
        w2: words.w2,
        w3: words.w3,
    }
}

// The inverse of a square matrix, by elimination; some other matrix where it has none.
fn inverted<F: Field>(alloc: Global, rows: &[Vec<F>]) -> Result<Vec<Vec<F>>, AllocError> {
    let n = rows.len();
    let width = n.wrapping_mul(2);
    let mut table = Vec::new(alloc);
    for i in 0..n {
        for j in 0..n {
            table.push(entry(rows, i, j))?;
        }
        for j in 0..n {
            table.push(if i == j { F::one() } else { F::zero() })?;
        }
    }
    for i in 0..n {
        clear_column(&mut table, n, i);
    }
    let mut inverse = Vec::new(alloc);
    for i in 0..n {
        let mut row = Vec::new(alloc);
        for j in 0..n {
            let column = n.wrapping_add(j);
            row.push(at(&table, i.wrapping_mul(width).wrapping_add(column)))?;
        }
        inverse.push(row)?;
    }
    Ok(inverse)
}

// One step of the elimination, over a table of `n` rows twice as long: the column gets a one in its own row alone.
fn clear_column<F: Field>(table: &mut [F], n: usize, column: usize) {
    let width = n.wrapping_mul(2);
    let own = column.wrapping_mul(width);
    for i in column..n {
        if at(table, own.wrapping_add(column)) == F::zero() {
            add_multiple(table, width, i.wrapping_mul(width), own, F::one());
        }
    }
    let factor = inverse(at(table, own.wrapping_add(column)));
    for j in 0..width {
        let place = own.wrapping_add(j);
        put(table, place, at(table, place).mul(factor));
    }
    for i in 0..n {
        if i != column {
            let row = i.wrapping_mul(width);
            let factor = at(table, row.wrapping_add(column)).neg();
            add_multiple(table, width, own, row, factor);
        }
    }
}

// Adds a multiple of the row that begins at a place to the one at another.
fn add_multiple<F: Field>(table: &mut [F], width: usize, from: usize, to: usize, factor: F) {
    for j in 0..width {
        let more = at(table, from.wrapping_add(j)).mul(factor);
        let place = to.wrapping_add(j);
        put(table, place, at(table, place).add(more));
    }
}

// A row times the matrix that begins at a row and a column of another.
fn times<F: Field>(
    alloc: Global,
    row: &[F],
    rows: &[Vec<F>],
    top: usize,
    left: usize,
) -> Result<Vec<F>, AllocError> {
    let mut product = Vec::new(alloc);
    for j in 0..row.len() {
        let mut sum = F::zero();
        for (i, x) in row.iter().enumerate() {
            sum = sum.add(x.mul(entry(rows, top.wrapping_add(i), left.wrapping_add(j))));
        }
        product.push(sum)?;
    }
    Ok(product)
}

// The matrix without its first row and column, times a column.
fn times_column<F: Field>(
    alloc: Global,
    mds: &[Vec<F>],
    column: &[F],
) -> Result<Vec<F>, AllocError> {
    let mut product = Vec::new(alloc);
    for i in 0..column.len() {
        let mut sum = F::zero();
        for (j, x) in column.iter().enumerate() {
            sum = sum.add(x.mul(entry(mds, i.wrapping_add(1), j.wrapping_add(1))));
        }
        product.push(sum)?;
    }
    Ok(product)
}

// What the image adds to a window, after each count of rounds below `n`.
fn traces<F: Field>(alloc: Global, mds: &[Vec<F>], n: usize) -> Result<Vec<Vec<F>>, AllocError> {
    let mut rows = Vec::new(alloc);
    let mut column = Vec::new(alloc);
    for i in 0..n {
        column.push(entry(mds, i.wrapping_add(1), 0))?;
    }
    for _ in 0..n {
        let next = times_column(alloc, mds, &column)?;
        rows.push(column)?;
        column = next;
    }
    Ok(rows)
}

/// Returns matrices for `mds`, whatever they are good for.
pub fn search<F: Field>(alloc: Global, mds: &[Vec<F>]) -> Result<Found<F>, AllocError> {
    let n = mds.len().saturating_sub(1);
    // The first row of `into` sees nothing of an image until it leaves the window.
    let solved = inverted(alloc, &traces(alloc, mds, n)?)?;
    let mut row = Vec::new(alloc);
    for i in 0..n {
        row.push(entry(&solved, i, n.saturating_sub(1)))?;
    }
    let mut into = Vec::new(alloc);
    for _ in 0..n {
        let next = times(alloc, &row, mds, 1, 1)?;
        into.push(row)?;
        row = next;
    }
    let back = inverted(alloc, &into)?;
    let feedback = times(alloc, &row, &back, 0, 0)?;
    let mut first = Vec::new(alloc);
    for j in 0..n {
        first.push(entry(mds, 0, j.wrapping_add(1)))?;
    }
    let tail = times(alloc, &first, &back, 0, 0)?;
    let mut output = Vec::new(alloc);
    output.push(entry(mds, 0, 0))?;
    output.extend_from_slice(&tail)?;
    Ok(Found {
        output,
        feedback,
        into,
        back,
    })
}
