//! Fields of four words: the numbers below a modulus of 193 to 255 bits, in Montgomery form.
//!
//! Only `InvertibleField` asks that a modulus is prime, for inverses and square roots. A modulus of 256 bits, as
//! secp256k1's, is not served: sums of two numbers below it take a fifth word.
#![tactic(auto)]

mod absorb;
mod batch;
mod certified;
mod choices;
mod fp256;
mod inversion;
mod moduli;
mod modulus;
mod montgomery;
mod powers;
mod prime;
mod words;

pub use batch::{NoInverses, batch_inverse};
pub use choices::{mask_in_place, mask_of, words_under};
pub use fp256::{Fp256, element_under, of_form, prime_inverse};
pub use moduli::{
    Bls12_381Fr, Bls12_381FrModulus, Bn254Fr, Bn254FrModulus, PallasFp, PallasFpModulus, VestaFp,
    VestaFpModulus,
};
pub use modulus::{PrimeModulus, WideModulus, byte_len};
pub use powers::{is_zero, power, squared};
pub use prime::{InvertibleField, inverse, quotient, root_of_quotient, square_root};
pub use words::{
    ZERO, highest_digit, is_below, is_nothing, is_odd, low_bits, plus, read_below, words_of,
};
