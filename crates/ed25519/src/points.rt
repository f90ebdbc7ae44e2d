//! Points as 32 bytes.

ghost use Rattle.std.specs.Prelude.{◌≡◌, ◌≢◌, ℕ, ◌+◌, ◌*◌, ◌%◌, ◌^◌, ◌<◌, IsNone, IfSome, length};
ghost use Rattle.std.specs.Int.{from_bool};
ghost use Rattle.ark_groups.specs.Words.{number};
ghost use Rattle.edwards.specs.Edwards.{Coordinates};
ghost use Rattle.ed25519.specs.Edwards25519.{p, d, IsOnEd25519};
ghost use Rattle.ed25519.specs.Spelling.{spelling};
ghost use Rattle.ed25519.specs.Points.{coordinates_of};
ghost use Rattle.ed25519.specs.Values.{value};

use crate::moduli::Ed25519Fp;
use crate::roots::root_of_ratio;
use ark_groups::ff::{Field, Words, write_bytes};
use ark_wide_fields::is_odd;

// The number y, with the lowest bit of x as bit 255.
fn marked(y: Words, x: Words) -> Words
    requires { number y < 2 ^ 255 }
    ensures { number result ≡ number y + 2 ^ 255 * (number x % 2) }
{
    Words {
        w0: y.w0,
        w1: y.w1,
        w2: y.w2,
        w3: y.w3 + x.w0 % 2 * (1 << 63),
    }
}

/// Returns the 32 bytes of a point.
pub fn point_bytes(x: Ed25519Fp, y: Ed25519Fp) -> [u8; 32]
    ensures { result ≡ spelling (coordinates_of x y) }
{
    let mut bytes = [0; 32];
    write_bytes(marked(y.words(), x.words()), &mut bytes);
    bytes
}

/// Returns the curve's coefficient.
pub fn curve_coefficient() -> Ed25519Fp
    ensures { value result ≡ d }
{
    Ed25519Fp::from_words(Words {
        w0: 8496970652267935907,
        w1: 31536524315187371,
        w2: 10144147576115030168,
        w3: 5909686906226998899,
    })
}

// What a number with bit 255 is modulo p, without that bit.
fn unmarked(n: Ed25519Fp, odd: bool) -> Ed25519Fp
    ensures { (m : ℕ) → m < p → value n ≡ (m + 2 ^ 255 * from_bool odd) % p → value result ≡ m }
{
    if odd {
        n.sub(Ed25519Fp::from_u64(19))
    } else {
        n
    }
}

// The root, or minus it, whichever has the parity.
fn root_of_parity(root: Ed25519Fp, odd: bool) -> Ed25519Fp
    ensures square { value result * value result % p ≡ value root * value root % p }
    ensures parity { (x : ℕ) → x < p → x * x % p ≡ value root * value root % p
        → x % 2 ≡ from_bool odd → value result ≡ x }
{
    if is_odd(root.words()) == odd {
        root
    } else {
        root.neg()
    }
}

/// Returns x of the point with this y, with the parity that is asked for; where x is 0, that. `None` where there is no
/// such point.
pub fn abscissa(y: Ed25519Fp, odd: bool) -> Option<Ed25519Fp>
    ensures on { IfSome result (λ x. IsOnEd25519 (coordinates_of x y)) }
    ensures parity { (a : Coordinates) → IsOnEd25519 a → a.y ≡ value y
        → a.x % 2 ≡ from_bool odd → IfSome result (λ x. value x ≡ a.x) }
    ensures none { IsNone result → (a : Coordinates) → IsOnEd25519 a → a.y ≢ value y }
{
    let yy = y.mul(y);
    let u = yy.sub(Ed25519Fp::one());
    let v = yy.mul(curve_coefficient()).add(Ed25519Fp::one());
    match root_of_ratio(u, v) {
        Some(root) => Some(root_of_parity(root, odd)),
        None => None,
    }
}

// The highest bit of 32 bytes: the parity of x, where they are a point's.
fn mark_of(bytes: &[u8]) -> bool
    requires { length bytes.now ≡ 32 }
    ensures { (a : Coordinates) → IsOnEd25519 a → bytes.now ≡ spelling a
        → a.x % 2 ≡ from_bool result }
{
    let byte = bytes[31];
    byte >= 128
}

/// Returns the point with these bytes. `None` where no point of the curve has them: another length, y that is the
/// modulus or more, no x, or x that is 0 beside a bit 255 that is 1.
pub fn point_of(bytes: &[u8]) -> Option<(Ed25519Fp, Ed25519Fp)>
    ensures some { IfSome result (λ a. bytes.now ≡ spelling (coordinates_of a.0 a.1)) }
    ensures on { IfSome result (λ a. IsOnEd25519 (coordinates_of a.0 a.1)) }
    ensures none { IsNone result → (a : Coordinates) → IsOnEd25519 a → bytes.now ≢ spelling a }
{
    if bytes.len() != 32 {
        return None;
    }
    let odd = mark_of(bytes);
    let y = unmarked(Ed25519Fp::from_le_bytes_mod_order(bytes), odd);
    match abscissa(y, odd) {
        Some(x) => {
            if point_bytes(x, y).as_slice() == bytes {
                Some((x, y))
            } else {
                None
            }
        }
        None => None,
    }
}
