//! The counts of tables.

/// The counts of a table: the exponent of the S-box, how many elements a state has, and the full rounds before the partial
/// ones and behind them.
#[derive(Clone, Copy, Debug, PartialEq, Eq)]
pub struct TableShape {
    pub alpha: u64,
    pub width: usize,
    pub before: usize,
    pub behind: usize,
}
