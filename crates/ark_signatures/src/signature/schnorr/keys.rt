//! Parameters, keys and signatures.

ghost use Rattle.std.specs.Prelude.{◌≡◌};
ghost use Rattle.ark_signatures.specs.Schnorr.{numbers_of, response};

use ark_base::error::Error;
use ark_base::serialize::{Canonical, CanonicalDeserialize, CanonicalItem, CanonicalSerialize};
use ark_groups::ec::AdditiveGroup;
use ark_groups::ff::Field;
use std::alloc::Global;

/// The element that public keys are multiples of, and what is digested before a point.
#[derive_where(Clone, Debug)]
#[derive(Drop)]
pub struct Parameters<C: AdditiveGroup> {
    pub generator: C,
    pub salt: [u8; 32],
}

/// The generator, as often as the secret key says.
pub type PublicKey<C> = C;

/// How often the generator is added. Its canonical bytes are the scalar's.
#[derive_where(Clone, Debug, Default)]
#[derive(Drop)]
pub struct SecretKey<C: AdditiveGroup>(pub C::ScalarField);

/// The response k - x e and the challenge e.
#[derive_where(Clone, Debug, Default)]
#[derive(Drop)]
pub struct Signature<C: AdditiveGroup> {
    pub prover_response: C::ScalarField,
    pub verifier_challenge: C::ScalarField,
}

impl<C: AdditiveGroup> Signature<C> {
    // The response k - x e to the challenge e, for the secret key x.
    pub(crate) fn answering(k: C::ScalarField, sk: &SecretKey<C>, e: C::ScalarField) -> Signature<C>
        ensures { let value = C.ScalarField.value in
            let answer = response C.ScalarField.MODULUS (value sk.now.0) (value k) (value e) in
            numbers_of value result ≡ (answer, value e) }
    {
        Signature {
            prover_response: k.sub(sk.0.mul(e)),
            verifier_challenge: e,
        }
    }
}

impl<C: AdditiveGroup> Canonical for SecretKey<C> {
    ghost Value = { ⟦<C::ScalarField as Canonical>⟧.Value };

    ghost view = { λ key. ⟦<C::ScalarField as Canonical>⟧.view key.0 };

    ghost has_spelling = { ⟦<C::ScalarField as Canonical>⟧.has_spelling };

    ghost spelling = { ⟦<C::ScalarField as Canonical>⟧.spelling };

    ghost reads = { ⟦<C::ScalarField as Canonical>⟧.reads };

    ghost laws = { ⟦<C::ScalarField as Canonical>⟧.laws };
}

impl<C: AdditiveGroup> CanonicalSerialize for SecretKey<C> {
    fn serialize(&self, dest: &mut Vec<u8>) -> Result<(), Error> {
        self.0.serialize(dest)
    }
}

impl<C: AdditiveGroup> CanonicalDeserialize for SecretKey<C> {
    fn read(alloc: Global, bytes: &[u8]) -> Result<(SecretKey<C>, usize), Error> {
        let (scalar, used) = C::ScalarField::read(alloc, bytes)?;
        Ok((SecretKey(scalar), used))
    }
}

impl<C: AdditiveGroup> CanonicalItem for SecretKey<C> {
    ghost LEAST = { ⟦<C::ScalarField as CanonicalItem>⟧.LEAST };

    const LEAST: usize = <C::ScalarField as CanonicalItem>::LEAST;

    ghost some = { C.ScalarField.CanonicalItem.some };

    ghost at_least = { C.ScalarField.CanonicalItem.at_least };
}

/// The canonical bytes of a signature are those of the response, and then of the challenge.
impl<C: AdditiveGroup> Canonical for Signature<C> {
    ghost Value = { ⟦<(C::ScalarField, C::ScalarField) as Canonical>⟧.Value };

    ghost view = { λ signature. ⟦<(C::ScalarField, C::ScalarField) as Canonical>⟧.view
        (signature.prover_response, signature.verifier_challenge) };

    ghost has_spelling = { ⟦<(C::ScalarField, C::ScalarField) as Canonical>⟧.has_spelling };

    ghost spelling = { ⟦<(C::ScalarField, C::ScalarField) as Canonical>⟧.spelling };

    ghost reads = { ⟦<(C::ScalarField, C::ScalarField) as Canonical>⟧.reads };

    ghost laws = { ⟦<(C::ScalarField, C::ScalarField) as Canonical>⟧.laws };
}

impl<C: AdditiveGroup> CanonicalSerialize for Signature<C> {
    fn serialize(&self, dest: &mut Vec<u8>) -> Result<(), Error> {
        (self.prover_response, self.verifier_challenge).serialize(dest)
    }
}

impl<C: AdditiveGroup> CanonicalDeserialize for Signature<C> {
    /// Errors: the response's fault, then the challenge's: `Truncated`, `InvalidData` of the modulus or more.
    fn read(alloc: Global, bytes: &[u8]) -> Result<(Signature<C>, usize), Error> {
        let (pair, used) = <(C::ScalarField, C::ScalarField)>::read(alloc, bytes)?;
        let (prover_response, verifier_challenge) = pair;
        let signature = Signature {
            prover_response,
            verifier_challenge,
        };
        Ok((signature, used))
    }
}
