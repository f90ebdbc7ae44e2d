//! The definitions of specs/ as plain, slow functions, for tests to compare with.

ghost use Rattle.std.specs.Prelude.{◌≡◌, ◌≤◌, length};
ghost use Rattle.ark_base.specs.Digits.{number_of_bytes};
ghost use Rattle.ark_groups.specs.Group.{times};

use ark_groups::ec::CurveGroup;

/// Returns the element, added so often.
pub fn times<C: CurveGroup>(count: u64, x: C) -> C
    ensures { result ≡ times C.group count x }
{
    let mut sum = C::zero();
    for _ in 0..count {
        sum = sum.add(x);
    }
    sum
}

/// Returns the number that bytes are, the least first.
pub fn number(bytes: &[u8]) -> u128
    requires { length bytes.now ≤ 16 }
    ensures { result ≡ number_of_bytes bytes.now }
{
    match bytes {
        [] => 0,
        [first, others @ ..] => *first as u128 + 256 * number(others),
    }
}
