//! What tests compare with and try, proved: the larger definitions of specs/ as plain, slow functions whose contracts are these definitions,
//! and types as a user writes them.
#![tactic(auto)]

pub mod blake2s;
pub mod bowe_hopwood;
mod digests;
pub mod groups;
mod keyed;
mod refusing;
mod salted;
pub mod trees;
mod weights;

pub use digests::{Ones, Refuses};
pub use keyed::{Keyed, KeyedLeafHash};
pub use refusing::Refusing;
pub use salted::{Salted, SaltedTree};
pub use weights::Weights;
