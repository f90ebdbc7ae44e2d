//! A field of four words of one's own: the numbers below 2^255 - 19.

ghost use Rattle.std.specs.Prelude.{refl};
ghost use Rattle.ark_crypto_primitives.specs.Words.{written_wide};

use ark_crypto_primitives::ff::{Fp256, WideModulus, Words};

/// The numbers below 2^255 - 19.
pub type Fp25519 = Fp256<Fp25519Modulus>;

/// The modulus of `Fp25519`.
pub struct Fp25519Modulus;

impl WideModulus for Fp25519Modulus {
    ghost P = { record {
      w0 = 18446744073709551597;
      w1 = 18446744073709551615;
      w2 = 18446744073709551615;
      w3 = 9223372036854775807;
    } };

    const P: Words = Words {
        w0: 18446744073709551597,
        w1: 18446744073709551615,
        w2: 18446744073709551615,
        w3: 9223372036854775807,
    };

    ghost BITS = { 255 };

    const BITS: u32 = 255;

    ghost INVERSE = { 9708812670373448219 };

    const INVERSE: u64 = 9708812670373448219;

    ghost ONE = { record {
      w0 = 38;
      w1 = 0;
      w2 = 0;
      w3 = 0;
    } };

    const ONE: Words = Words {
        w0: 38,
        w1: 0,
        w2: 0,
        w3: 0,
    };

    ghost SQUARE = { record {
      w0 = 1444;
      w1 = 0;
      w2 = 0;
      w3 = 0;
    } };

    const SQUARE: Words = Words {
        w0: 1444,
        w1: 0,
        w2: 0,
        w3: 0,
    };

    ghost laws = { written_wide refl };
}
