//! Default parameters of a field, as the Rust crate has them.

ghost use Rattle.std.specs.Prelude.{◌≡◌, ◌+◌, ℕ, Bool, true, false, Option, Some, None, IfErr, IfOk, IfSome, IsNone, MatchOption, Ok, Err};
ghost use Rattle.ark_base.specs.declared.error.Error.TheVariants.{GenericError};
ghost use Rattle.ark_base.specs.declared.error.Refusal.TheVariants.{ParameterShape};
ghost use Rattle.poseidon_grain.specs.Constants.{instance_of, counts_fit, AreParameters, IsMatrixRefused, IsParameterFault};
ghost use Rattle.poseidon_grain.specs.Defaults.{Counts};

use crate::parameters::poseidon_parameters;
use ark_base::error::Error;
use ark_sponge::poseidon::PoseidonConfig;
use ark_wide_fields::{Bls12_381Fr, InvertibleField};
use std::alloc::Global;

/// The counts of default parameters.
#[derive(Clone, Copy, Debug, PartialEq, Eq)]
pub struct PoseidonDefaultConfigEntry {
    /// The exponent of the S-box.
    pub alpha: u64,
    /// The count of full rounds.
    pub full_rounds: usize,
    /// The count of partial rounds.
    pub partial_rounds: usize,
}

/// A field with default parameters, for some rates.
pub trait PoseidonDefaultConfig: InvertibleField {
    // The counts of a rate: with few products, or with few rounds.
    ghost counts: { ℕ → Bool → Option Counts };

    /// Returns the counts of a rate: with few products, as constraints want it, or with few rounds (`optimized_for_weights`).
    /// `None` where the field has none.
    fn entry(rate: usize, optimized_for_weights: bool) -> Option<PoseidonDefaultConfigEntry>
        ensures some { IfSome result (λ e. counts rate optimized_for_weights ≡ Some (record {
          exponent = e.alpha;
          full = e.full_rounds;
          partial = e.partial_rounds;
        })) }
        ensures none { result ≡ None → counts rate optimized_for_weights ≡ None };
}

impl PoseidonDefaultConfig for Bls12_381Fr {
    ghost use Rattle.poseidon_grain.specs.Defaults.{bls12_381_fr_counts};

    ghost counts = { bls12_381_fr_counts };

    fn entry(rate: usize, optimized_for_weights: bool) -> Option<PoseidonDefaultConfigEntry> {
        if rate < 2 || rate > 8 {
            return None;
        }
        if optimized_for_weights {
            return Some(PoseidonDefaultConfigEntry {
                alpha: 257,
                full_rounds: 8,
                partial_rounds: 13,
            });
        }
        let partial_rounds = match rate {
            2 => 31,
            3 => 56,
            4 => 56,
            _ => 57,
        };
        Some(PoseidonDefaultConfigEntry {
            alpha: if rate == 2 { 17 } else { 5 },
            full_rounds: 8,
            partial_rounds,
        })
    }
}

/// Returns the default parameters of a rate, with a capacity of one element, over the first matrix of the Grain LFSR. `None`
/// where the field has none for this rate, or the matrix is refused.
///
/// Errors: those of `poseidon_parameters`.
pub fn get_default_poseidon_parameters<F: PoseidonDefaultConfig>(
    alloc: Global,
    rate: usize,
    optimized_for_weights: bool,
) -> Result<Option<PoseidonConfig<F>>, Error>
    ensures made { (n : Counts) → F.counts rate optimized_for_weights ≡ Some n
        → IfOk result (λ found. IfSome found (λ c.
        AreParameters (instance_of F.MODULUS F.MODULUS_BIT_SIZE (rate + 1) n.full n.partial 0)
        rate 1 n.exponent c)) }
    ensures none { F.counts rate optimized_for_weights ≡ None → result ≡ Ok None }

    // Where the field has counts, there are none only of a matrix that is refused.
    ensures matrix { (n : Counts) → F.counts rate optimized_for_weights ≡ Some n
        → IfOk result (λ found. IsNone found → IsMatrixRefused
        (instance_of F.MODULUS F.MODULUS_BIT_SIZE (rate + 1) n.full n.partial 0)) }
    ensures shape { (n : Counts) → F.counts rate optimized_for_weights ≡ Some n
        → counts_fit (rate + 1) n.full n.partial 0 ≡ false
        → result ≡ Err (GenericError ParameterShape) }
    ensures refused { (n : Counts) → F.counts rate optimized_for_weights ≡ Some n
        → counts_fit (rate + 1) n.full n.partial 0 ≡ true
        → IfErr result (IsParameterFault F.MODULUS_BIT_SIZE rate) }
{
    match F::entry(rate, optimized_for_weights) {
        Some(entry) => {
            poseidon_parameters::<F>(
                alloc,
                rate,
                1,
                entry.alpha,
                entry.full_rounds,
                entry.partial_rounds,
                0,
            )
        }
        None => Ok(None),
    }
}
