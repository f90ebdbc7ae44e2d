//! Points as 32 bytes.

ghost use Rattle.std.specs.Prelude.{◌≡◌, ℕ, ◌*◌, ◌^◌, ◌≤◌, Err, Ok, IfOk, IfErr, IsNone, IfSome};
ghost use Rattle.std.specs.Int.{from_bool};
ghost use Rattle.ark_groups.specs.Words.{number};
ghost use Rattle.baby_jubjub.specs.declared.point.Point.{Point};
ghost use Rattle.baby_jubjub.specs.BabyJubjub.{p, IsOnBabyJubjub};
ghost use Rattle.baby_jubjub.specs.Packed.{packed_bytes, sign, second_in, sign_in, IsPointAt, IsPointFaultAt, IsPackedFault};
ghost use Rattle.baby_jubjub.specs.Points.{coordinates, coordinates_at};
ghost use Rattle.baby_jubjub.specs.Values.{value};

use crate::embedded::is_on_curve;
use crate::point::{Point, PointFault};
use ark_groups::ff::{Field, Words, write_bytes};
use ark_wide_fields::{
    Bn254Fr, ZERO, is_below, is_zero, low_bits, plus, prime_inverse, square_root, words_of,
};

// (p - 1) / 2.
const HALF: Words = Words {
    w0: 11669102379873075200,
    w1: 10671829228508198984,
    w2: 15863968012492123182,
    w3: 1743499133401485332,
};

// The bit of the sign.
const SIGN: Words = Words {
    w0: 0,
    w1: 0,
    w2: 0,
    w3: 1 << 63,
};

// Whether a first coordinate is above (p - 1) / 2.
fn is_negative(x: Bn254Fr) -> bool
    ensures { from_bool result ≡ sign (value x) }
{
    is_below(HALF, x.words())
}

// The bit 2^255 where a first coordinate is above (p - 1) / 2, else 0.
fn sign_of(x: Bn254Fr) -> Words
    ensures { number result ≡ 2 ^ 255 * sign (value x) }
{
    if is_negative(x) { SIGN } else { ZERO }
}

// The second coordinate that bytes say, and whether they say that the first is above (p - 1) / 2.
fn told(bytes: &[u8; 32]) -> (Words, bool)
    ensures y { number result.0 ≡ second_in bytes.now }
    ensures sign { from_bool result.1 ≡ sign_in bytes.now }
{
    let words = words_of(bytes);
    let negative = !is_below(words, SIGN);
    let Words { w0, w1, w2, w3 } = words;
    (low_bits(w0, w1, w2, w3, 63), negative)
}

// A first coordinate over y: a root of (1 - y^2) / (168700 - 168696 y^2). `None` where there is none.
fn first_over(y: Bn254Fr) -> Option<Bn254Fr>
    ensures some { IfSome result (λ x. IsOnBabyJubjub (coordinates_at x y)) }
    ensures none { IsNone result
        → (x : ℕ) → IsOnBabyJubjub (record { x = x; y = value y }) → ⊥ }
{
    let yy = y.mul(y);
    let numerator = Bn254Fr::one().sub(yy);
    let denominator = Bn254Fr::from_u64(168700).sub(Bn254Fr::from_u64(168696).mul(yy));
    let root = square_root(numerator.mul(prime_inverse(denominator)))?;
    if is_on_curve(root, y) {
        Some(root)
    } else {
        None
    }
}

// The point with this second coordinate, whose first one has this sign.
fn point_over(y: Bn254Fr, negative: bool) -> Result<Point, PointFault>
    ensures ok { IfOk result (λ q. IsPointAt (value y) (from_bool negative) (coordinates q)) }
    ensures err { IfErr result (λ fault. IsPointFaultAt (value y) (from_bool negative) fault) }
{
    match first_over(y) {
        Some(x) => {
            if is_negative(x) == negative {
                Ok(Point::of(x, y))
            } else if is_zero(x) {
                Err(PointFault::SignOfZero)
            } else {
                Ok(Point::of(x.neg(), y))
            }
        }
        None => Err(PointFault::NotOnCurve),
    }
}

impl Point {
    /// Returns the packed bytes, as circomlib's `packPoint`: 32 of the second coordinate, the least first, whose highest
    /// bit is set where the first coordinate is above (p - 1) / 2.
    pub fn pack(self) -> [u8; 32]
        ensures { result ≡ packed_bytes (coordinates self) }
    {
        let (sum, _) = plus(self.y().words(), sign_of(self.x()));
        let mut bytes = [0; 32];
        write_bytes(sum, &mut bytes);
        bytes
    }

    /// Returns the point with these packed bytes. No other bytes are a point's.
    ///
    /// Errors: `NotBelowModulus`, then `NotOnCurve` or `SignOfZero`.
    pub fn unpack(bytes: &[u8; 32]) -> Result<Point, PointFault>
        ensures ok { IfOk result (λ q. bytes.now ≡ packed_bytes (coordinates q)) }
        ensures own { (q : Point) → bytes.now ≡ packed_bytes (coordinates q) → result ≡ Ok q }
        ensures err { IfErr result (λ fault. IsPackedFault bytes.now fault) }

        // This is the first fault. No two of the others are there together.
        ensures first { p ≤ second_in bytes.now → result ≡ Err PointFault.NotBelowModulus }
    {
        let (y, negative) = told(bytes);
        if !is_below(y, Bn254Fr::modulus()) {
            return Err(PointFault::NotBelowModulus);
        }
        point_over(Bn254Fr::from_words(y), negative)
    }
}
