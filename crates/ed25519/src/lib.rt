//! Ed25519 (RFC 8032, section 5.1): keys, signatures, and points of its curve as 32 bytes.
#![tactic(auto)]

mod base;
mod base_table;
mod combined;
mod laws;
mod many;
mod moduli;
mod numbers;
mod points;
mod roots;
mod signatures;
mod signing;
mod signing_key;
mod small_order;

pub use base::multiple_of_base;
pub use combined::{Four, sum_of_multiples};
pub use laws::{first_halves_decide, own_signatures_are_accepted, points_are_their_bytes};
pub use many::{Claim, verify_many};
pub use moduli::{Ed25519Fp, Ed25519FpModulus, Ed25519Fr, Ed25519FrModulus};
pub use numbers::{base_has_the_order, modulus_is_prime, order_is_prime, points_are_a_group};
pub use points::{abscissa, point_bytes, point_of};
pub use roots::root_of_ratio;
pub use signatures::{challenge_scalar, commitment, verify};
pub use signing::{multiple_bytes, public_key, sign};
pub use signing_key::SigningKey;
pub use small_order::has_small_order;
