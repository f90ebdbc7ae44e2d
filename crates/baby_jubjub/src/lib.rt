//! Baby Jubjub (ERC-2494), the curve over the scalar field of BN254 that circuits compute on, and EdDSA over it with
//! Poseidon, as circomlib and iden3 have it.
#![tactic(auto)]

mod blake512;
mod eddsa;
mod embedded;
mod fr;
mod keys;
mod laws;
mod packed;
mod point;
mod private;
mod signature;

pub use blake512::{blake512_of_32, blake512_of_64};
pub use eddsa::EddsaPoseidon;
pub use fr::{BabyJubjubFr, BabyJubjubFrModulus};
pub use keys::SigningKey;
pub use laws::{base8_has_the_order, order_is_prime, points_are_a_group, same_bytes_are_one_point};
pub use point::{Point, PointFault};
pub use private::PrivateKey;
pub use signature::{Signature, SignatureFault};
