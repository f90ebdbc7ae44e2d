//! Twisted Edwards curves: what holds of their points, and their points over a field of four words, by four coordinates, for
//! each curve of `IsComplete`.
#![tactic(auto)]

mod entries;
mod extended;
mod field;
mod laws;
mod multiples;
mod prepared;
mod public;
mod recoding;

pub use entries::{Entry, entry_under, found_entry, masks_of};
pub use extended::{
    Extended, affine, affine_both, affine_by, doubled, doubled_twice, is_neutral, lifted, plus,
    plus_products, scale, zero,
};
pub use field::crossed_products;
pub use laws::{eighth_powers_tell, points_are_a_group, sums_are_complete};
pub use multiples::multiple;
pub use prepared::{Prepared, plus_prepared};
pub use public::{multiple_public, sum_of_multiples_public};
pub use recoding::without_signed_digit;
