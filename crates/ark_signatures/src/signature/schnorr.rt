//! Schnorr signatures.

ghost use Rattle.std.specs.Prelude.{◌≡◌, ◌==◌, ℕ, List, Option, Ok, IfOk, IsOkAnd};
ghost use Rattle.ark_base.specs.Outcome.{Outcome, Answers, AnswersBy};
ghost use Rattle.ark_groups.specs.Group.{times};
ghost use Rattle.ark_signatures.specs.Schnorr.{signed, numbers_of, verified, IsValid, multiplier};
ghost use Rattle.ark_signatures.specs.Schnorr.{randomised_key, randomised};

mod bits;
mod challenge;
mod generator;
mod keys;

use crate::signature::SignatureScheme;
use ark_base::error::Error;
use ark_groups::digest::ByteDigest;
use ark_groups::ec::AdditiveGroup;
use ark_groups::ff::{Field, UniformRand};
pub use bits::bytes_to_bits;
use bits::multiplier;
pub use challenge::Challenges;
use challenge::{challenge_of, draw_nonce};
pub use generator::{GeneratorMultiples, PreparedParameters};
pub use keys::{Parameters, PublicKey, SecretKey, Signature};
use rand::Rng;
use std::alloc::Global;
use std::marker::PhantomData;

/// Schnorr signatures over a group and a digest.
pub struct Schnorr<C: AdditiveGroup, D: ByteDigest> {
    group: PhantomData<C>,
    digest: PhantomData<D>,
}

impl<C: AdditiveGroup, D: ByteDigest> SignatureScheme for Schnorr<C, D> {
    type Parameters = Parameters<C>;

    type PublicKey = PublicKey<C>;

    type SecretKey = SecretKey<C>;

    type Signature = Signature<C>;

    ghost setup_gives = { λ stream result left.
        let salt = ⟦<[u8; 32] as UniformRand>⟧.draw stream in
        let generator = C.draw salt.1 in
        (result ≡ Ok (record { generator = generator.0; salt = salt.0 })) × (left ≡ generator.1) };

    ghost keygen_gives = { λ pp stream result left.
        let x = (C.ScalarField.draw stream).0 in
        let key = times C.group (C.ScalarField.value x) pp.generator in
        (result ≡ Ok (key, record { 0 = x })) × (left ≡ (C.ScalarField.draw stream).1) };

    ghost sign_gives = { λ pp sk message stream result left.
        let value = C.ScalarField.value in
        let challenge : ℕ → Outcome (Option ℕ) = λ k.
        ⟦<C as Challenges<D>>⟧.challenge pp.salt message (times C.group k pp.generator) in
        let x = value sk.0 in
        let signature = signed C.ScalarField.draw value challenge C.ScalarField.MODULUS x stream in
        AnswersBy (λ s. (numbers_of value s, left)) signature result };

    ghost verify_gives = { λ pp pk message signature result.
        let challenge = ⟦<C as Challenges<D>>⟧.challenge pp.salt message in
        let numbers = numbers_of C.ScalarField.value signature in
        Answers (verified C.group challenge pp.generator pk numbers) result };

    ghost public_key_gives = { λ pp key bytes result.
        result ≡ Ok (randomised_key C.group pp.generator (multiplier bytes) key) };

    ghost signature_gives = { λ pp signature bytes result.
        let value = C.ScalarField.value in
        let numbers = numbers_of value signature in
        IsOkAnd result (λ new. numbers_of value new
        ≡ randomised C.ScalarField.MODULUS (multiplier bytes) numbers) };

    /// Draws the salt, then the generator. It returns no error. Its seed need not be secret; that of keys and nonces must.
    fn setup<R: Rng>(_alloc: Global, rng: &mut R) -> Result<Parameters<C>, Error> {
        let salt = <[u8; 32] as UniformRand>::rand(rng);
        let generator = C::rand(rng);
        Ok(Parameters { generator, salt })
    }

    /// Draws the secret key x; the public key is x times the generator. It returns no error.
    fn keygen<R: Rng>(
        _alloc: Global,
        pp: &Parameters<C>,
        rng: &mut R,
    ) -> Result<(C, SecretKey<C>), Error> {
        let x = C::ScalarField::rand(rng);
        Ok((pp.generator.mul(x), SecretKey(x)))
    }

    /// Draws k until the point k times the generator has a challenge e: k - x e and e, for the secret key x.
    ///
    /// Errors: the digest's at the first point that meets one; `DrawsExhausted` after 128 draws without a challenge;
    /// `OutOfMemory`.
    fn sign<R: Rng>(
        alloc: Global,
        pp: &Parameters<C>,
        sk: &SecretKey<C>,
        message: &[u8],
        rng: &mut R,
    ) -> Result<Signature<C>, Error>
        ensures exact { let value = C.ScalarField.value in
            let challenge : ℕ → Outcome (Option ℕ) = λ k. ⟦<C as Challenges<D>>⟧.challenge
            pp.now.salt message.now (times C.group k pp.now.generator) in
            let modulus = C.ScalarField.MODULUS in
            let x = value sk.now.0 in
            let left = R.stream rng.new in
            let stream = R.stream rng.old in
            let signature = signed C.ScalarField.draw value challenge modulus x stream in
            AnswersBy (λ s. (numbers_of value s, left)) signature result }

        // What it gives is valid under the public key, x times the generator.
        ensures valid { let value = C.ScalarField.value in
            let challenge = ⟦<C as Challenges<D>>⟧.challenge pp.now.salt message.now in
            let generator = pp.now.generator in
            let key = times C.group (value sk.now.0) generator in
            IfOk result (λ s. IsValid C.group challenge generator key (numbers_of value s)) }
    {
        let (k, e) = draw_nonce::<C, D, Parameters<C>, R>(alloc, pp, message, rng)?;
        Ok(Signature::answering(k, sk, e))
    }

    /// Returns whether e is the challenge of the point s times the generator plus e times the public key, for a
    /// signature (s, e); `false` where that point has none.
    ///
    /// Errors: the digest's at that point; `OutOfMemory`.
    fn verify(
        alloc: Global,
        pp: &Parameters<C>,
        pk: &C,
        message: &[u8],
        signature: &Signature<C>,
    ) -> Result<bool, Error> {
        let e = signature.verifier_challenge;
        let point = pp
            .generator
            .sum_of_multiples_public(signature.prover_response, *pk, e);
        Ok(
            match challenge_of::<C, D>(alloc, &pp.salt, &point, message)? {
                Some(found) => is_same(found, e),
                None => false,
            },
        )
    }

    /// Returns the key and m times the generator, where m is the number that the bytes multiply by. It allocates
    /// nothing and never fails.
    fn randomize_public_key(
        _alloc: Global,
        pp: &Parameters<C>,
        public_key: &C,
        randomness: &[u8],
    ) -> Result<C, Error> {
        let m = multiplier::<C::ScalarField>(randomness);
        Ok(public_key.add(pp.generator.mul(m)))
    }

    /// Returns (s - e m, e) of the signature (s, e), where m is the number that the bytes multiply by. It allocates
    /// nothing and never fails.
    fn randomize_signature(
        _alloc: Global,
        pp: &Parameters<C>,
        signature: &Signature<C>,
        randomness: &[u8],
    ) -> Result<Signature<C>, Error>
        ensures exact { let value = C.ScalarField.value in
            let m = multiplier randomness.now in
            let numbers = numbers_of value signature.now in
            IsOkAnd result (λ new.
            numbers_of value new ≡ randomised C.ScalarField.MODULUS m numbers) }

        // Under each key, made random by the same bytes, it is valid exactly where the signature was under the key, whatever
        // the message and the digest, refusals too.
        ensures alike { let value = C.ScalarField.value in
            let generator = pp.now.generator in
            let m = multiplier randomness.now in
            IsOkAnd result (λ new. (challenge : C → Outcome (Option ℕ)) (key : C)
            → verified C.group challenge generator
            (randomised_key C.group generator m key) (numbers_of value new)
            ≡ verified C.group challenge generator key (numbers_of value signature.now)) }
    {
        let e = signature.verifier_challenge;
        let m = multiplier::<C::ScalarField>(randomness);
        Ok(Signature {
            prover_response: signature.prover_response.sub(m.mul(e)),
            verifier_challenge: e,
        })
    }
}

// Whether two elements are one number.
fn is_same<F: Field>(x: F, y: F) -> bool
    ensures { result ≡ (F.value x == F.value y) }
{
    x == y
}
