//! Shamir's secret sharing: shares are values of a polynomial whose constant coefficient is the secret.

ghost use Rattle.std.specs.Prelude.{◌≡◌, ◌↔◌, ◌*◌, ◌%◌, ◌<◌, List, ◌∷◌, length, map, Err, IfOk, IfErr};
ghost use Rattle.ark_signatures.specs.SecretShares.{polynomial_value, share_weight, value_at_zero};
ghost use Rattle.ark_signatures.specs.SecretShares.{numbers_of_shares, share_places, AreSharesOf};
ghost use Rattle.ark_signatures.specs.SecretShares.{GiveSecret, IsWhyNoSecret};
ghost use Rattle.ark_signatures.specs.declared.secret_shares.NoShare.TheVariants.{NoCoefficients, ZeroPlace};

mod laws;

use ark_wide_fields::{InvertibleField, is_zero};
pub use laws::{each_secret_is_possible, one_polynomial_each, responses_are_shares};

/// A share: a place, and the value of the polynomial there.
#[derive(Clone, Copy, Debug, PartialEq, Eq)]
pub struct Share<F> {
    pub place: F,
    pub value: F,
}

/// The errors of `share_at`.
#[derive(Clone, Copy, Debug, PartialEq, Eq)]
pub enum NoShare {
    /// The polynomial has no coefficient.
    NoCoefficients,
    /// The place is 0, where the value is the secret itself.
    ZeroPlace,
}

/// The errors of `recover`: the first fault in the order of the shares.
#[derive(Clone, Copy, Debug, PartialEq, Eq)]
pub enum NoSecret {
    /// There is no share.
    NoShares,
    /// The share at this index has the place 0.
    ZeroPlace(usize),
    /// The shares at these two indices have the same place.
    SamePlace(usize, usize),
}

/// Returns the share at a place: the value there of the polynomial with these coefficients. The first coefficient is
/// the secret.
///
/// As many shares as there are coefficients give the secret. Fewer shares reveal nothing about it if the other
/// coefficients are drawn uniformly and stay unknown. The call does not branch on a coefficient if the field's
/// operations do not branch on their operands.
///
/// Errors: `NoCoefficients`; else `ZeroPlace`.
pub fn share_at<F: InvertibleField>(coefficients: &[F], place: F) -> Result<Share<F>, NoShare>
    ensures place { IfOk result (λ share. share.place ≡ place) }
    ensures value { IfOk result (λ share. F.value share.value
        ≡ polynomial_value F.MODULUS (map F.value coefficients.now) (F.value place)) }
    ensures no_coefficients { (result ≡ Err NoCoefficients) ↔ (length coefficients.now ≡ 0) }
    ensures zero_place { (result ≡ Err ZeroPlace)
        ↔ ((0 < length coefficients.now) × (F.value place ≡ 0)) }
{
    if coefficients.is_empty() {
        return Err(NoShare::NoCoefficients);
    }
    if is_zero(place) {
        return Err(NoShare::ZeroPlace);
    }
    let mut value = F::zero();
    for i in (0..coefficients.len()).rev() {
        value = coefficients[i].add(place.mul(value));
    }
    Ok(Share { place, value })
}

// Checks the places of shares. The error is the first fault.
fn check_places<F: InvertibleField>(shares: &[Share<F>]) -> Result<(), NoSecret>
    ensures ok { IfOk result (λ _. GiveSecret (share_places F.value shares.now)) }
    ensures refused { IfErr result (λ fault.
        IsWhyNoSecret (share_places F.value shares.now) fault) }
{
    if shares.is_empty() {
        return Err(NoSecret::NoShares);
    }
    for j in 0..shares.len() {
        let place = shares[j].place;
        if is_zero(place) {
            return Err(NoSecret::ZeroPlace(j));
        }
        for i in 0..j {
            if shares[i].place == place {
                return Err(NoSecret::SamePlace(i, j));
            }
        }
    }
    Ok(())
}

// Returns a share's value times its weight, as a fraction. The divisor is not 0. It depends on the places alone.
fn weighted_value<F: InvertibleField>(shares: &[Share<F>], share: Share<F>) -> (F, F)
    ensures fraction { F.value result.0 % F.MODULUS
        ≡ F.value share.value * share_weight F.MODULUS F.value shares.now share
        * F.value result.1 % F.MODULUS }
    ensures divisor { F.value result.1 ≡ 0 → ⊥ }
{
    let place = share.place;
    let mut numerator = share.value;
    let mut denominator = F::one();
    for other in shares {
        let there = other.place;
        if there != place {
            numerator = numerator.mul(there);
            denominator = denominator.mul(there.sub(place));
        }
    }
    (numerator, denominator)
}

/// Returns the value at 0 of the polynomial through the shares, by Lagrange's interpolation.
///
/// The value is the secret if the polynomial has at most as many coefficients as there are shares. With fewer shares
/// it is in general another number.
///
/// For n shares the call multiplies about 2 n^2 times. It inverts one number, which depends on the places alone. It
/// does not branch on a share's value if the field's operations do not branch on their operands.
///
/// Errors: `NoShares`; else the error of the first share whose place is 0 (`ZeroPlace`) or that of an earlier share
/// (`SamePlace`, with both indices).
pub fn recover<F: InvertibleField>(shares: &[Share<F>]) -> Result<F, NoSecret>
    ensures exact { IfOk result (λ secret. F.value secret
        ≡ value_at_zero F.MODULUS (numbers_of_shares F.value shares.now)) }

    // Shares of a polynomial with at most as many coefficients as there are shares give its first coefficient.
    ensures secret { (secret : F) (rest : List F) → length rest < length shares.now
        → AreSharesOf F.MODULUS (map F.value (secret ∷ rest)) (numbers_of_shares F.value shares.now)
        → IfOk result (λ found. found ≡ secret) }
    ensures accepted { IfOk result (λ _. GiveSecret (share_places F.value shares.now)) }
    ensures refused { IfErr result (λ fault.
        IsWhyNoSecret (share_places F.value shares.now) fault) }
{
    check_places(shares)?;
    let mut numerator = F::zero();
    let mut denominator = F::one();
    for share in shares {
        let (above, below) = weighted_value(shares, *share);
        numerator = numerator.mul(below).add(above.mul(denominator));
        denominator = denominator.mul(below);
    }
    Ok(numerator.mul(denominator.inverse_of_some()))
}
