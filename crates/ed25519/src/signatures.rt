//! Signatures.

ghost use Rattle.std.specs.Prelude.{◌≡◌};
ghost use Rattle.std.specs.Bool.{Decides};
ghost use Rattle.ark_groups.specs.Group.{times};
ghost use Rattle.ark_groups.specs.Words.{number};
ghost use Rattle.edwards.specs.Edwards.{negative};
ghost use Rattle.ed25519.specs.Edwards25519.{p, curve, base_point, IsOnEd25519};
ghost use Rattle.ed25519.specs.Spelling.{spelling};
ghost use Rattle.ed25519.specs.Points.{coordinates_of};
ghost use Rattle.ed25519.specs.Signatures.{challenge, IsSignature};
ghost use Rattle.ed25519.specs.Values.{value, scalar};

use crate::combined::sum_of_multiples;
use crate::moduli::{Ed25519Fp, Ed25519Fr};
use crate::points::{curve_coefficient, point_bytes, point_of};
use ark_groups::ff::{Field, Words};
use edwards::{affine, lifted};
use sha2::{Digest, Sha512};

/// Returns the challenge, modulo the order.
pub fn challenge_scalar(first: &[u8], key: &[u8], message: &[u8]) -> Ed25519Fr
    ensures { scalar result ≡ challenge first.now key.now message.now }
{
    let mut hasher = Sha512::new();
    hasher.update(first);
    hasher.update(key);
    hasher.update(message);
    Ed25519Fr::from_le_bytes_mod_order(hasher.finalize().as_slice())
}

/// Returns the first coordinate of the base point.
pub fn base_x() -> Ed25519Fp
    ensures { value result ≡ base_point.x }
{
    Ed25519Fp::from_words(Words {
        w0: 14507833142362363162,
        w1: 7578651490590762930,
        w2: 13881468655802702940,
        w3: 2407515759118799870,
    })
}

/// Returns the second coordinate of the base point.
pub fn base_y() -> Ed25519Fp
    ensures { value result ≡ base_point.y }
{
    Ed25519Fp::from_words(Words {
        w0: 7378697629483820632,
        w1: 7378697629483820646,
        w2: 7378697629483820646,
        w3: 7378697629483820646,
    })
}

/// Returns the bytes of S B - k A, where A is a point of the curve.
pub fn commitment(x: Ed25519Fp, y: Ed25519Fp, s: Words, k: Words) -> [u8; 32]
    requires { IsOnEd25519 (coordinates_of x y) }
    ensures { result ≡ spelling (curve.plus (times curve (number s) base_point)
        (times curve (number k) (negative p (coordinates_of x y)))) }
{
    let base = lifted(base_x(), base_y());
    let opposite = lifted(x.neg(), y);
    let sum = sum_of_multiples(curve_coefficient().double(), base, s, opposite, k);
    let (u, v) = affine(sum);
    point_bytes(u, v)
}

/// Returns whether it is a signature.
pub fn verify(key: &[u8], message: &[u8], signature: &[u8]) -> bool
    ensures { Decides result (IsSignature key.now message.now signature.now) }
{
    if signature.len() != 64 {
        return false;
    }
    let (first, last) = signature.split_at(32);
    match point_of(key) {
        Some((x, y)) => {
            let s = Ed25519Fr::from_le_bytes_mod_order(last);
            let mut canonical = [0; 32];
            s.write_low_bytes(&mut canonical);
            if canonical.as_slice() != last {
                return false;
            }
            let k = challenge_scalar(first, key, message);
            let bytes = commitment(x, y, s.words(), k.words());
            bytes.as_slice() == first
        }
        None => false,
    }
}
