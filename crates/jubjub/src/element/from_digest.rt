//! Elements that are found in digests, as by Zcash's group hash (protocol specification, 5.4.9.5).

ghost use Rattle.jubjub.specs.Compressed.{found_in};

use crate::compressed::told;
use crate::element::Jubjub;
use crate::element::found::cleared_over;
use ark_groups::ec::FromDigest;
use ark_groups::ff::Field;
use ark_wide_fields::{Bls12_381Fr, is_below};

impl FromDigest for Jubjub {
    ghost found_in = { found_in };

    /// Returns 8 times the point that the bytes are the compressed bytes of. `None` where they are none of a point, or
    /// where that is zero.
    fn from_digest(digest: &[u8; 32]) -> Option<Jubjub> {
        let (y, odd) = told(digest);
        if is_below(y, Bls12_381Fr::modulus()) {
            cleared_over(Bls12_381Fr::from_words(y), odd)
        } else {
            None
        }
    }
}
