//! Canonical bytes of coordinates.

ghost use Rattle.std.specs.Prelude.{◌≡◌};
ghost use Rattle.jubjub.specs.Spelling.{spelling};
ghost use Rattle.jubjub.specs.Values.{value};

use ark_groups::ff::Field;
use ark_wide_fields::Bls12_381Fr;

/// Returns 32 bytes of each coordinate, the first coordinate first, the least byte first.
pub fn bytes_of_point(x: Bls12_381Fr, y: Bls12_381Fr) -> [u8; 64]
    ensures { result ≡ spelling (record { x = value x; y = value y }) }
{
    let mut bytes = [0; 64];
    x.write_low_bytes(&mut bytes[..32]);
    y.write_low_bytes(&mut bytes[32..]);
    bytes
}
