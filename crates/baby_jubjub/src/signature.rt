//! Signatures, and their 64 bytes.

ghost use Rattle.std.specs.Prelude.{◌≡◌, ◌≤◌, take, drop, Ok, Err, IfOk, IfErr};
ghost use Rattle.baby_jubjub.specs.declared.signature.Signature.{Signature};
ghost use Rattle.baby_jubjub.specs.Eddsa.{signature_bytes, IsSignatureFault};

use crate::fr::BabyJubjubFr;
use crate::point::{Point, PointFault};
use ark_groups::ff::Field;
use ark_wide_fields::{is_below, words_of};

/// Why 64 bytes are no signature's.
#[derive(Clone, Copy, PartialEq, Eq, Debug)]
pub enum SignatureFault {
    /// The first half is no point's.
    Point(PointFault),
    /// The number in the second half is the order or more.
    NotBelowOrder,
}

/// A signature: the point R, and the number S below the order.
#[derive(Clone, Copy, PartialEq, Eq, Debug)]
pub struct Signature {
    /// R.
    pub r8: Point,
    /// S.
    pub s: BabyJubjubFr,
}

impl Signature {
    /// Returns the 64 bytes, as circomlib's `packSignature`: those of the packed point, and 32 of the number, the least
    /// first.
    pub fn to_bytes(self) -> [u8; 64]
        ensures { result ≡ signature_bytes self }
    {
        let mut bytes = [0; 64];
        bytes[..32].copy_from_slice(self.r8.pack().as_slice());
        self.s.write_low_bytes(&mut bytes[32..]);
        bytes
    }

    /// Returns the signature with these bytes. No other bytes are a signature's.
    ///
    /// Errors: `Point` with the fault of the first half, then `NotBelowOrder`.
    pub fn from_bytes(bytes: &[u8; 64]) -> Result<Signature, SignatureFault>
        ensures ok { IfOk result (λ g. bytes.now ≡ signature_bytes g) }
        ensures own { (g : Signature) → bytes.now ≡ signature_bytes g → result ≡ Ok g }
        ensures err { IfErr result (λ fault. IsSignatureFault bytes.now fault) }
    {
        let (first, last) = bytes.split_at(32);
        let mut half = [0; 32];
        half.copy_from_slice(first);
        let r8 = match Point::unpack(&half) {
            Ok(point) => point,
            Err(fault) => return Err(SignatureFault::Point(fault)),
        };
        let s = words_of(last);
        if !is_below(s, BabyJubjubFr::modulus()) {
            return Err(SignatureFault::NotBelowOrder);
        }
        Ok(Signature {
            r8,
            s: BabyJubjubFr::from_words(s),
        })
    }
}
