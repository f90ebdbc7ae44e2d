//! The generator's multiples, with a table of the generator and without one.

ghost use Rattle.std.specs.Prelude.{◌≡◌, ℕ, List, IfOk, IfErr};
ghost use Rattle.ark_groups.specs.Group.{times};
ghost use Rattle.ark_signatures.specs.Schnorr.{parameters_of};

use crate::signature::SignatureScheme;
use crate::signature::schnorr::challenge::draw_nonce;
use crate::signature::schnorr::{Parameters, Schnorr, SecretKey, Signature};
use ark_base::error::Error;
use ark_groups::digest::ByteDigest;
use ark_groups::ec::{AdditiveGroup, FixedBaseGroup};
use ark_groups::ff::{Field, UniformRand};
use rand::Rng;
use std::alloc::Global;

/// What signing reads of parameters.
pub trait GeneratorMultiples<C: AdditiveGroup> {
    ghost generator: { Self → C };

    ghost salt: { Self → List ℕ };

    /// Returns the generator, added as often as the scalar says.
    fn generator_times(&self, k: C::ScalarField) -> C
        ensures { result ≡ times C.group (C.ScalarField.value k) (generator self.now) };

    /// Returns the salt.
    fn salt(&self) -> &[u8; 32]
        ensures { result.now ≡ salt self.now };
}

impl<C: AdditiveGroup> GeneratorMultiples<C> for Parameters<C> {
    ghost generator = { λ pp. pp.generator };

    ghost salt = { λ pp. pp.salt };

    fn generator_times(&self, k: C::ScalarField) -> C {
        self.generator.mul(k)
    }

    fn salt(&self) -> &[u8; 32] {
        &self.salt
    }
}

/// Parameters with a table of their generator, by which keys are made and messages are signed in less time.
#[derive(Drop)]
pub struct PreparedParameters<C: FixedBaseGroup> {
    salt: [u8; 32],
    table: C::Table,
}

impl<C: FixedBaseGroup> GeneratorMultiples<C> for PreparedParameters<C> {
    ghost generator = { λ pp. C.base pp.table };

    ghost salt = { λ pp. pp.salt };

    fn generator_times(&self, k: C::ScalarField) -> C {
        C::mul_by_table(&self.table, k)
    }

    fn salt(&self) -> &[u8; 32] {
        &self.salt
    }
}

impl<C: FixedBaseGroup> PreparedParameters<C> {
    /// Makes the table of the parameters' generator. The only error is `OutOfMemory`.
    pub fn new(alloc: Global, pp: &Parameters<C>) -> Result<PreparedParameters<C>, Error>
        ensures made { IfOk result (λ made. parameters_of C.base made ≡ pp.now) }
        ensures refused { IfErr result (λ error. error ≡ Error.OutOfMemory) }
    {
        Ok(PreparedParameters {
            salt: pp.salt,
            table: pp.generator.table(alloc)?,
        })
    }

    /// Draws the secret key x; the public key is x times the generator.
    pub fn keygen<R: Rng>(&self, rng: &mut R) -> (C, SecretKey<C>)
        ensures secret { result.1.0 ≡ (C.ScalarField.draw (R.stream rng.old)).0 }
        ensures public { let x = C.ScalarField.value result.1.0 in
            result.0 ≡ times C.group x ((parameters_of C.base self.now).generator) }
        ensures left { R.stream rng.new ≡ (C.ScalarField.draw (R.stream rng.old)).1 }
    {
        let x = C::ScalarField::rand(rng);
        (self.generator_times(x), SecretKey(x))
    }

    /// Signs the message as `Schnorr::sign` does under these parameters.
    ///
    /// Errors: those of `Schnorr::sign`.
    pub fn sign<D: ByteDigest, R: Rng>(
        &self,
        alloc: Global,
        sk: &SecretKey<C>,
        message: &[u8],
        rng: &mut R,
    ) -> Result<Signature<C>, Error>
        ensures { let gives = ⟦<Schnorr<C, D> as SignatureScheme>⟧.sign_gives in
            gives (parameters_of C.base self.now) sk.now message.now
            (R.stream rng.old) result (R.stream rng.new) }
    {
        let (k, e) = draw_nonce::<C, D, PreparedParameters<C>, R>(alloc, self, message, rng)?;
        Ok(Signature::answering(k, sk, e))
    }
}
