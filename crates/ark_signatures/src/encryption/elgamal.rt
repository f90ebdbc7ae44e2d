//! ElGamal encryption.

ghost use Rattle.std.specs.Prelude.{◌≡◌, ℕ, Ok, IsOkAnd};
ghost use Rattle.ark_groups.specs.Group.{times};
ghost use Rattle.ark_signatures.specs.ElGamal.{encrypted, decrypted};

mod keys;

use crate::encryption::AsymmetricEncryptionScheme;
use ark_base::error::Error;
use ark_groups::ec::AdditiveGroup;
use ark_groups::ff::UniformRand;
use rand::Rng;
use std::alloc::Global;
use std::marker::PhantomData;

/// ElGamal encryption over a group.
pub struct ElGamal<C: AdditiveGroup> {
    group: PhantomData<C>,
}

/// The element that public keys are multiples of.
#[derive(Drop)]
pub struct Parameters<C: AdditiveGroup> {
    pub generator: C,
}

/// The generator, as often as the secret key says.
pub type PublicKey<C> = C;

/// How often the generator is added.
#[derive(Drop)]
pub struct SecretKey<C: AdditiveGroup>(pub C::ScalarField);

/// How often generator and public key are added in a ciphertext.
#[derive(Drop)]
pub struct Randomness<C: AdditiveGroup>(pub C::ScalarField);

/// A message.
pub type Plaintext<C> = C;

/// The generator as often as the randomness says; the message, and to it the public key as often.
pub type Ciphertext<C> = (C, C);

impl<C: AdditiveGroup> UniformRand for Randomness<C> {
    ghost draw = { λ stream.
        (record { 0 = (C.ScalarField.draw stream).0 }, (C.ScalarField.draw stream).1) };

    fn rand<R: Rng>(rng: &mut R) -> Randomness<C> {
        Randomness(C::ScalarField::rand(rng))
    }
}

impl<C: AdditiveGroup> AsymmetricEncryptionScheme for ElGamal<C> {
    type Parameters = Parameters<C>;

    type PublicKey = PublicKey<C>;

    type SecretKey = SecretKey<C>;

    type Randomness = Randomness<C>;

    type Plaintext = Plaintext<C>;

    type Ciphertext = Ciphertext<C>;

    ghost setup_gives = { λ stream result left.
        (result ≡ Ok (record { generator = (C.draw stream).0 })) × (left ≡ (C.draw stream).1) };

    ghost keygen_gives = { λ pp stream result left.
        let x = (C.ScalarField.draw stream).0 in
        let key = times C.group (C.ScalarField.value x) pp.generator in
        (result ≡ Ok (key, record { 0 = x })) × (left ≡ (C.ScalarField.draw stream).1) };

    ghost encrypt_gives = { λ pp pk message r result.
        result ≡ Ok (encrypted C.group pp.generator pk message (C.ScalarField.value r.0)) };

    ghost decrypt_gives = { λ pp sk ciphertext result.
        result ≡ Ok (decrypted C.group (C.ScalarField.value sk.0) ciphertext) };

    /// Draws the generator. It returns no error. Its seed need not be secret; that of keys and randomnesses must.
    fn setup<R: Rng>(_alloc: Global, rng: &mut R) -> Result<Parameters<C>, Error>
        ensures made { result ≡ Ok (record { generator = (C.draw (R.stream rng.old)).0 }) }
        ensures left { R.stream rng.new ≡ (C.draw (R.stream rng.old)).1 }
    {
        Ok(Parameters {
            generator: C::rand(rng),
        })
    }

    /// Draws the secret key x; the public key is x times the generator. It returns no error.
    fn keygen<R: Rng>(
        _alloc: Global,
        pp: &Parameters<C>,
        rng: &mut R,
    ) -> Result<(C, SecretKey<C>), Error>
        ensures keys { let x = (C.ScalarField.draw (R.stream rng.old)).0 in
            let key = times C.group (C.ScalarField.value x) pp.now.generator in
            result ≡ Ok (key, record { 0 = x }) }
        ensures left { R.stream rng.new ≡ (C.ScalarField.draw (R.stream rng.old)).1 }
    {
        let x = C::ScalarField::rand(rng);
        Ok((pp.generator.mul(x), SecretKey(x)))
    }

    /// Returns r times the generator, and the message plus r times the public key. It allocates nothing and never
    /// fails.
    fn encrypt(
        _alloc: Global,
        pp: &Parameters<C>,
        pk: &C,
        message: &C,
        r: &Randomness<C>,
    ) -> Result<(C, C), Error>
        ensures exact { let scalar = C.ScalarField.value r.now.0 in
            result ≡ Ok (encrypted C.group pp.now.generator pk.now message.now scalar) }

        // Where the public key is s times the generator, what s decrypts of it is the message.
        ensures decrypts { (s : ℕ) → pk.now ≡ times C.group s pp.now.generator
            → IsOkAnd result (λ ciphertext. decrypted C.group s ciphertext ≡ message.now) }
    {
        Ok((pp.generator.mul(r.0), message.add(pk.mul(r.0))))
    }

    /// Returns the second part less s times the first, for the secret key s. It allocates nothing and never fails.
    fn decrypt(
        _alloc: Global,
        _pp: &Parameters<C>,
        sk: &SecretKey<C>,
        ciphertext: &(C, C),
    ) -> Result<C, Error>
        ensures { result ≡ Ok (decrypted C.group (C.ScalarField.value sk.now.0) ciphertext.now) }
    {
        Ok(ciphertext.1.add(ciphertext.0.mul(sk.0).neg()))
    }
}
