//! The multiples of the base point that signing adds up: 16 rows, each of the multiples by 1 to 15 of 65536 times the
//! point of the row before it. `tools/ed25519-table` writes them, and the proof computes them.

ghost use Rattle.std.specs.Prelude.{◌≡◌, ◌<◌};
ghost use Rattle.ed25519.specs.BaseTable.{four_rows_from, multiples_row, row_unit};

mod higher;
mod highest;
mod lower;
mod lowest;

/// The multiples of a point by 1 to 15, each as six couples of words: y - x, y + x and 2 d x y.
pub type Row = [[[u64; 2]; 6]; 15];

fn first_rows() -> &'static [Row; 4]
    ensures { result.now ≡ four_rows_from 0 }
{
    &lowest::ROWS
}

fn second_rows() -> &'static [Row; 4]
    ensures { result.now ≡ four_rows_from 64 }
{
    &lower::ROWS
}

fn third_rows() -> &'static [Row; 4]
    ensures { result.now ≡ four_rows_from 128 }
{
    &higher::ROWS
}

fn last_rows() -> &'static [Row; 4]
    ensures { result.now ≡ four_rows_from 192 }
{
    &highest::ROWS
}

/// Returns the row of the multiples of 65536^i times the base point.
pub fn base_row(i: usize) -> &'static Row
    requires { i < 16 }
    ensures { result.now ≡ multiples_row (row_unit i) }
{
    if i < 4 {
        &first_rows()[i]
    } else if i < 8 {
        &second_rows()[i - 4]
    } else if i < 12 {
        &third_rows()[i - 8]
    } else {
        &last_rows()[i - 12]
    }
}
