//! Fields: numbers below a modulus, with arithmetic modulo it. That the modulus is prime is used nowhere.

mod division;
mod field;
mod fp;
mod modulus;
mod parts;
mod prime_field;
mod product;
mod uniform;
mod valued;
mod words;

pub use field::Field;
pub use fp::Fp;
pub use modulus::{
    BabyBear, Goldilocks, KoalaBear, M7, M13, M61, M257, M65537, Mersenne31, Modulus,
};
pub use parts::{element_of_bits, is_same_field, push_low_bytes, same_element};
pub use prime_field::PrimeField;
pub use uniform::UniformRand;
pub use valued::Valued;
pub use words::{Words, halved, is_same_number, write_bytes};
