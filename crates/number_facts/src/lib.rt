//! Facts of numbers that other crates rest on. Each function is one theorem: its contract states it, and its body does
//! nothing.
#![tactic(auto)]

mod congruences;
mod primes;

pub use congruences::{congruence_follows, polynomials_agree};
pub use primes::{
    certified_has_square_roots, certified_is_prime, eulers_criterion, little_fermat,
    power_is_inverse, powers_are_all_units, primes_divide_a_factor, squaring_gives_powers,
};
