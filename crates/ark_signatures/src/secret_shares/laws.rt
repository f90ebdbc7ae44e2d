//! What fewer shares leave open, and shares of responses. Each function is one theorem: its contract states it, and its
//! body does nothing.

ghost use Rattle.ark_signatures.specs.SecretShares.{EachSecretIsPossible, OnePolynomialEach};
ghost use Rattle.ark_signatures.specs.SecretShares.{ResponsesAreShares};

use ark_groups::ff::Field;
use ark_wide_fields::InvertibleField;

/// States that each secret is possible where a share is missing: some polynomial has it, and the shares.
pub fn each_secret_is_possible<F: InvertibleField>()
    ensures { EachSecretIsPossible F.MODULUS F.value }
{}

/// States that where one share is missing, a secret has one polynomial alone. So no secret is likelier than another.
pub fn one_polynomial_each<F: InvertibleField>()
    ensures { OnePolynomialEach F.MODULUS F.value }
{}

/// States that Schnorr's responses to shares are shares of the response to what is shared.
pub fn responses_are_shares<F: Field>()
    ensures { ResponsesAreShares F.MODULUS }
{}
