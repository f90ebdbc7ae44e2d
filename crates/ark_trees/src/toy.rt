//! Trees of numbers below 257, whose digests can be reckoned by hand, and such trees whose pair hash returns errors.

mod numbers;
mod refusing;

pub use numbers::{Toy, ToyLeafHash, ToyPairHash};
pub use refusing::{Refusing, RefusingPairHash};
