//! Parameters over fields of one word, as they are deployed.

ghost use Rattle.std.specs.Prelude.{◌≡◌, ℕ, ◌%◌, true, map, length, Ok};
ghost use Rattle.ark_base.specs.Outcome.{AnswersBy};
ghost use Rattle.poseidon_grain.specs.Constants.{counts_fit};
ghost use Rattle.poseidon2.specs.Permutation.{is_width};
ghost use Rattle.poseidon2.specs.Ready.{drawn_parameters};
ghost use Rattle.poseidon2.specs.Deployed.{goldilocks_outcome, baby_bear_outcome, koala_bear_outcome, risc_zero_outcome};

use crate::config::Poseidon2Config;
use crate::ready::poseidon2_parameters;
use ark_base::error::Error;
use ark_groups::ff::{BabyBear, Field, Fp, Goldilocks, KoalaBear};
use std::alloc::Global;

// Returns the elements of some numbers.
fn elements_of<F: Field>(alloc: Global, numbers: &[u64]) -> Result<Vec<F>, Error>
    ensures { AnswersBy (λ list. map F.value list.items)
        (Ok (map (λ n. n % F.MODULUS) numbers.now)) result }
{
    let mut list = Vec::with_capacity(alloc, numbers.len())?;
    for number in numbers {
        list.push(F::from_u64(*number))?;
    }
    Ok(list)
}

// Returns the parameters with eight full rounds whose diagonal less 1 is some numbers.
fn of_numbers<F: Field>(
    alloc: Global,
    alpha: u64,
    partial_rounds: usize,
    numbers: &[u64],
) -> Result<Poseidon2Config<F>, Error>
    requires width { is_width (length numbers.now) ≡ true }
    requires counts { counts_fit (length numbers.now) 8 partial_rounds 0 ≡ true }
    ensures { AnswersBy (λ c. c) (Ok (drawn_parameters F.MODULUS F.MODULUS_BIT_SIZE alpha 8
        partial_rounds (map (λ n. n % F.MODULUS) numbers.now))) result }
{
    let diagonal = elements_of::<F>(alloc, numbers)?;
    poseidon2_parameters(alloc, alpha, 8, partial_rounds, diagonal)
}

// `goldilocks_diagonal_8` of specs/Deployed.antt.
const GOLDILOCKS_8: [u64; 8] = [
    0xa98811a1fed4e3a5,
    0x1cc48b54f377e2a0,
    0xe40cd4f6c5609a26,
    0x11de79ebca97a4a3,
    0x9177c73d8b7e929c,
    0x2a6fe8085797e791,
    0x3de6e93329f8d5ad,
    0x3f7af9125da962fe,
];

// `goldilocks_diagonal_12` of specs/Deployed.antt.
const GOLDILOCKS_12: [u64; 12] = [
    0xc3b6c08e23ba9300,
    0xd84b5de94a324fb6,
    0x0d0c371c5b35b84f,
    0x7964f570e7188037,
    0x5daf18bbd996604b,
    0x6743bc47b9595257,
    0x5528b9362c59bb70,
    0xac45e25b7127b68b,
    0xa2077d7dfbb606b5,
    0xf3faac6faee378ae,
    0x0c6388b51545e883,
    0xd27dbb6944917b60,
];

// `risc_zero_diagonal` of specs/Deployed.antt.
const RISC_ZERO: [u64; 24] = [
    0x409133f0, 0x1667a8a1, 0x06a6c7b6, 0x6f53160e, 0x273b11d1, 0x03176c5d, 0x72f9bbf9, 0x73ceba91,
    0x5cdef81d, 0x01393285, 0x46daee06, 0x065d7ba6, 0x52d72d6f, 0x05dd05e0, 0x3bab4b63, 0x6ada3842,
    0x2fc5fbec, 0x770d61b0, 0x5715aae9, 0x03ef0e90, 0x75b6c770, 0x242adf5f, 0x00d0ca4c, 0x36c0e388,
];

// `baby_bear_diagonal_16` of specs/Deployed.antt.
const BABY_BEAR_16: [u64; 16] = [
    2013265919, 1, 2, 1006632961, 3, 4, 1006632960, 2013265918, 2013265917, 2005401601, 1509949441,
    1761607681, 2013265906, 7864320, 125829120, 15,
];

// `baby_bear_diagonal_24` of specs/Deployed.antt.
const BABY_BEAR_24: [u64; 24] = [
    2013265919, 1, 2, 1006632961, 3, 4, 1006632960, 2013265918, 2013265917, 2005401601, 1509949441,
    1761607681, 1887436801, 1997537281, 2009333761, 2013265906, 7864320, 503316480, 251658240,
    125829120, 62914560, 31457280, 15728640, 15,
];

// `koala_bear_diagonal_16` of specs/Deployed.antt.
const KOALA_BEAR_16: [u64; 16] = [
    2130706431, 1, 2, 1065353217, 3, 4, 1065353216, 2130706430, 2130706429, 2122383361, 1864368129,
    2130706306, 8323072, 266338304, 133169152, 127,
];

// `koala_bear_diagonal_24` of specs/Deployed.antt.
const KOALA_BEAR_24: [u64; 24] = [
    2130706431, 1, 2, 1065353217, 3, 4, 1065353216, 2130706430, 2130706429, 2122383361, 1598029825,
    1864368129, 1997537281, 2064121857, 2097414145, 2130706306, 8323072, 266338304, 133169152,
    66584576, 33292288, 16646144, 4161536, 127,
];

/// Returns the parameters of the authors' code (HorizenLabs/poseidon2), which Plonky3 has too, over Goldilocks for 8 or 12
/// elements: seventh powers, 8 full rounds and 22 partial ones. They go with `PaperMatrix`.
///
/// Errors: `IncorrectInputLength` with any other width; `OutOfMemory`.
pub fn goldilocks_poseidon2(
    alloc: Global,
    width: usize,
) -> Result<Poseidon2Config<Fp<Goldilocks>>, Error>
    ensures { AnswersBy (λ c. c) (goldilocks_outcome ⟦<Fp<Goldilocks> as Field>⟧.MODULUS
        ⟦<Fp<Goldilocks> as Field>⟧.MODULUS_BIT_SIZE width) result }
{
    match width {
        8 => of_numbers(alloc, 7, 22, &GOLDILOCKS_8),
        12 => of_numbers(alloc, 7, 22, &GOLDILOCKS_12),
        _ => Err(Error::IncorrectInputLength(width)),
    }
}

/// Returns Plonky3's parameters over BabyBear for 16 or 24 elements: seventh powers, 8 full rounds, and 13 or 21 partial
/// ones. They go with `CirculantMatrix`.
///
/// Errors: `IncorrectInputLength` with any other width; `OutOfMemory`.
pub fn baby_bear_poseidon2(
    alloc: Global,
    width: usize,
) -> Result<Poseidon2Config<Fp<BabyBear>>, Error>
    ensures { AnswersBy (λ c. c) (baby_bear_outcome ⟦<Fp<BabyBear> as Field>⟧.MODULUS
        ⟦<Fp<BabyBear> as Field>⟧.MODULUS_BIT_SIZE width) result }
{
    match width {
        16 => of_numbers(alloc, 7, 13, &BABY_BEAR_16),
        24 => of_numbers(alloc, 7, 21, &BABY_BEAR_24),
        _ => Err(Error::IncorrectInputLength(width)),
    }
}

/// Returns Plonky3's parameters over KoalaBear for 16 or 24 elements: third powers, 8 full rounds, and 20 or 23 partial
/// ones. They go with `CirculantMatrix`.
///
/// Errors: `IncorrectInputLength` with any other width; `OutOfMemory`.
pub fn koala_bear_poseidon2(
    alloc: Global,
    width: usize,
) -> Result<Poseidon2Config<Fp<KoalaBear>>, Error>
    ensures { AnswersBy (λ c. c) (koala_bear_outcome ⟦<Fp<KoalaBear> as Field>⟧.MODULUS
        ⟦<Fp<KoalaBear> as Field>⟧.MODULUS_BIT_SIZE width) result }
{
    match width {
        16 => of_numbers(alloc, 3, 20, &KOALA_BEAR_16),
        24 => of_numbers(alloc, 3, 23, &KOALA_BEAR_24),
        _ => Err(Error::IncorrectInputLength(width)),
    }
}

/// Returns the parameters of the authors' code and of RISC Zero over BabyBear for 24 elements: seventh powers, 8 full rounds
/// and 21 partial ones. They go with `PaperMatrix`. The only error is `OutOfMemory`.
pub fn risc_zero_poseidon2(alloc: Global) -> Result<Poseidon2Config<Fp<BabyBear>>, Error>
    ensures { AnswersBy (λ c. c) (risc_zero_outcome ⟦<Fp<BabyBear> as Field>⟧.MODULUS
        ⟦<Fp<BabyBear> as Field>⟧.MODULUS_BIT_SIZE) result }
{
    of_numbers(alloc, 7, 21, &RISC_ZERO)
}
