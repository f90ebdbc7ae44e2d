//! Parameters that are read from a table of hexadecimal digits, 64 an element.

ghost use Rattle.std.specs.Prelude.{◌≡◌, ◌+◌, ◌<◌, ◌≤◌, ◌^◌, All, vec_len, IfOk, IfErr, length};
ghost use Rattle.ark_poseidon_parameters.specs.Ready.{AreReady};

use ark_base::error::Error;
use ark_groups::ff::Field;
use ark_sponge::poseidon::PoseidonConfig;
use std::alloc::Global;

// The number that a hexadecimal digit is.
fn digit(digit: u8) -> u8
    ensures { result < 16 }
{
    match digit {
        b'0'..=b'9' => digit - b'0',
        b'a'..=b'f' => digit - b'a' + 10,
        _ => 0,
    }
}

// The element that 64 digits are, the highest first.
fn element<F: Field>(digits: &[u8]) -> F {
    let mut bytes = [0; 32];
    for i in 0..32.min(digits.len() / 2) {
        bytes[31 - i] = digit(digits[2 * i]) * 16 + digit(digits[2 * i + 1]);
    }
    F::from_le_bytes_mod_order(&bytes)
}

fn row<F: Field>(alloc: Global, digits: &[u8], width: usize) -> Result<Vec<F>, Error>
    ensures len { IfOk result (λ row. vec_len row ≡ width) }
    ensures refused { IfErr result (λ error. error ≡ Error.OutOfMemory) }
{
    let mut row = Vec::with_capacity(alloc, width)?;
    let mut rest = digits;
    for _ in 0..width {
        let (front, behind) = rest.split_at(rest.len().min(64));
        row.push(element(front))?;
        rest = behind;
    }
    Ok(row)
}

fn rows<F: Field>(
    alloc: Global,
    digits: &[u8],
    count: usize,
    width: usize,
) -> Result<Vec<Vec<F>>, Error>
    requires { width < 2 ^ 32 }
    ensures count { IfOk result (λ rows. vec_len rows ≡ count) }
    ensures widths { IfOk result (λ rows. All (λ row. vec_len row ≡ width) rows.items) }
    ensures refused { IfErr result (λ error. error ≡ Error.OutOfMemory) }
{
    let mut rows = Vec::with_capacity(alloc, count)?;
    let mut rest = digits;
    for _ in 0..count {
        let (front, behind) = rest.split_at(rest.len().min(64 * width));
        rows.push(row(alloc, front, width)?)?;
        rest = behind;
    }
    Ok(rows)
}

/// Returns parameters with a capacity of one element and eight full rounds, from a table of the rows of constants and
/// those of the matrix. The only error is `OutOfMemory`.
pub fn parameters<F: Field>(
    alloc: Global,
    table: &str,
    rate: usize,
    partial_rounds: usize,
    alpha: u64,
) -> Result<PoseidonConfig<F>, Error>
    requires field { 9 ≤ F.MODULUS_BIT_SIZE }
    requires some { 0 < rate }
    requires few { rate < 2 ^ 16 }
    requires rounds { partial_rounds < 2 ^ 16 }
    ensures ready { IfOk result (AreReady rate partial_rounds alpha) }
    ensures refused { IfErr result (λ error. error ≡ Error.OutOfMemory) }
{
    let width = rate + 1;
    let digits = table.as_bytes();
    let (constants, matrix) = digits.split_at(digits.len().min(64 * width * (8 + partial_rounds)));
    let ark = rows(alloc, constants, 8 + partial_rounds, width)?;
    let mds = rows(alloc, matrix, width, width)?;
    PoseidonConfig::new(8, partial_rounds, alpha, mds, ark, rate, 1)
}
