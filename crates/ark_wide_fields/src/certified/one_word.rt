//! Those of one word.

use crate::prime::InvertibleField;
use ark_groups::ff::{BabyBear, Field, Fp, Goldilocks, KoalaBear, M61, Mersenne31, Words};

impl InvertibleField for Fp<Goldilocks> {
    ghost use Rattle.ark_wide_fields.specs.Laws.Goldilocks.{half_odd_part, root, has_square_roots};

    ghost TWO_ADICITY = { 32 };

    const TWO_ADICITY: u32 = 32;

    ghost half_odd_part = { half_odd_part };

    ghost root = { root };

    fn half_odd_part() -> Words {
        Words {
            w0: 2147483647,
            w1: 0,
            w2: 0,
            w3: 0,
        }
    }

    fn root() -> Fp<Goldilocks> {
        Field::from_u64(1753635133440165772)
    }

    ghost roots = { has_square_roots };
}

impl InvertibleField for Fp<M61> {
    ghost use Rattle.ark_wide_fields.specs.Laws.M61.{half_odd_part, root, has_square_roots};

    ghost TWO_ADICITY = { 1 };

    const TWO_ADICITY: u32 = 1;

    ghost half_odd_part = { half_odd_part };

    ghost root = { root };

    fn half_odd_part() -> Words {
        Words {
            w0: 576460752303423487,
            w1: 0,
            w2: 0,
            w3: 0,
        }
    }

    fn root() -> Fp<M61> {
        Field::from_u64(2305843009213693950)
    }

    ghost roots = { has_square_roots };
}

impl InvertibleField for Fp<Mersenne31> {
    ghost use Rattle.ark_wide_fields.specs.Laws.Mersenne31.{half_odd_part, root, has_square_roots};

    ghost TWO_ADICITY = { 1 };

    const TWO_ADICITY: u32 = 1;

    ghost half_odd_part = { half_odd_part };

    ghost root = { root };

    fn half_odd_part() -> Words {
        Words {
            w0: 536870911,
            w1: 0,
            w2: 0,
            w3: 0,
        }
    }

    fn root() -> Fp<Mersenne31> {
        Field::from_u64(2147483646)
    }

    ghost roots = { has_square_roots };
}

impl InvertibleField for Fp<BabyBear> {
    ghost use Rattle.ark_wide_fields.specs.Laws.BabyBear.{half_odd_part, root, has_square_roots};

    ghost TWO_ADICITY = { 27 };

    const TWO_ADICITY: u32 = 27;

    ghost half_odd_part = { half_odd_part };

    ghost root = { root };

    fn half_odd_part() -> Words {
        Words {
            w0: 7,
            w1: 0,
            w2: 0,
            w3: 0,
        }
    }

    fn root() -> Fp<BabyBear> {
        Field::from_u64(440564289)
    }

    ghost roots = { has_square_roots };
}

impl InvertibleField for Fp<KoalaBear> {
    ghost use Rattle.ark_wide_fields.specs.Laws.KoalaBear.{half_odd_part, root, has_square_roots};

    ghost TWO_ADICITY = { 24 };

    const TWO_ADICITY: u32 = 24;

    ghost half_odd_part = { half_odd_part };

    ghost root = { root };

    fn half_odd_part() -> Words {
        Words {
            w0: 63,
            w1: 0,
            w2: 0,
            w3: 0,
        }
    }

    fn root() -> Fp<KoalaBear> {
        Field::from_u64(1791270792)
    }

    ghost roots = { has_square_roots };
}
