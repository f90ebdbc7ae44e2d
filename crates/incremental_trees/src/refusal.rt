//! Why a call on an incremental tree is refused.

use ark_base::error::Error;

/// Why a call on an incremental tree is refused.
#[derive(Clone, Copy, Debug, PartialEq, Eq)]
pub enum TreeRefusal {
    /// A depth over 63 was asked for.
    TooDeep,
    /// All leaves of the tree are taken.
    Full,
    /// The hash refused a pair, or memory ran out.
    Hash(Error),
}
