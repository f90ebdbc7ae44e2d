//! Calls over Jubjub and Baby Jubjub, by a key of Ed25519, on digests and on the text of a key, exported to C so that `bindings/secrets-test` runs their machine code with the secrets marked as
//! undefined. They stand in no library that is handed out, and promise nothing beyond what they call.
#![tactic(auto)]

use ark_base::error::Error;
use ark_groups::ec::{AdditiveGroup, FixedBaseGroup};
use ark_groups::ff::Field;
use ark_schemes::commitment::CommitmentScheme;
use ark_schemes::commitment::pedersen::{Commitment, PreparedParameters, Randomness, Window};
use ark_schemes::from_label::pedersen_commitment_from_label;
use ark_schemes::prf::is_same_digest;
use ark_wide_fields::Bn254Fr;
use baby_jubjub::{EddsaPoseidon, PrivateKey};
use ed25519::SigningKey;
use jubjub::{Jubjub, JubjubFr};
use signed_notes::symbols::{bytes_of, word_of};
use std::alloc::Global;

fn scalar(bytes: &[u8; 32]) -> JubjubFr {
    JubjubFr::from_le_bytes_mod_order(bytes)
}

/// Writes the public key of a secret key, as `keygen` of Schnorr and of ElGamal makes it.
#[unsafe(no_mangle)]
pub extern "C" fn secret_key(key: &mut [u8; 64], secret: &[u8; 32]) {
    *key = AdditiveGroup::mul(Jubjub::generator(), scalar(secret)).to_bytes();
}

/// Writes the public key of a secret key, as Schnorr's parameters with a table of the generator make it. Returns 0, or 1
/// where memory is refused.
#[unsafe(no_mangle)]
pub extern "C" fn secret_key_by_table(alloc: Global, key: &mut [u8; 64], secret: &[u8; 32]) -> i32 {
    match Jubjub::generator().table(alloc) {
        Ok(table) => {
            *key = Jubjub::mul_by_table(&table, scalar(secret)).to_bytes();
            0
        }
        Err(_) => 1,
    }
}

/// Writes Schnorr's response k - x e for a nonce k, a secret key x and a challenge e.
#[unsafe(no_mangle)]
pub extern "C" fn secret_response(
    response: &mut [u8; 32],
    nonce: &[u8; 32],
    secret: &[u8; 32],
    challenge: &[u8; 32],
) {
    let answer = scalar(nonce).sub(scalar(secret).mul(scalar(challenge)));
    answer.write_low_bytes(response);
}

/// Writes the second part of ElGamal's ciphertext of the generator: it plus r times a public key, the generator's double.
#[unsafe(no_mangle)]
pub extern "C" fn secret_encrypted(part: &mut [u8; 64], randomness: &[u8; 32]) {
    let generator = Jubjub::generator();
    let key = generator.double();
    *part = generator
        .add(AdditiveGroup::mul(key, scalar(randomness)))
        .to_bytes();
}

/// Writes the generator's double less s times the generator, as ElGamal decrypts these two parts by a secret key s.
#[unsafe(no_mangle)]
pub extern "C" fn secret_decrypted(message: &mut [u8; 64], secret: &[u8; 32]) {
    let generator = Jubjub::generator();
    let shared = AdditiveGroup::mul(generator, scalar(secret));
    *message = generator.double().add(shared.neg()).to_bytes();
}

/// Writes the signature of no byte by the key that is made once of a seed.
#[unsafe(no_mangle)]
pub extern "C" fn secret_signature(signature: &mut [u8; 64], seed: &[u8; 32]) {
    *signature = SigningKey::of(*seed).sign(&[]);
}

/// Returns 1 where two digests are the same bytes, else 0.
#[unsafe(no_mangle)]
pub extern "C" fn secret_same_digest(a: &[u8; 32], b: &[u8; 32]) -> i32 {
    is_same_digest(a.as_slice(), b.as_slice()) as i32
}

/// Writes the Base64 of the 33 bytes of a key.
#[unsafe(no_mangle)]
pub extern "C" fn secret_key_word(word: &mut [u8; 44], bytes: &[u8; 33]) {
    *word = word_of(bytes);
}

/// Writes the 33 bytes of which a word is the Base64, and returns 1 where it is that of any, else 0.
#[unsafe(no_mangle)]
pub extern "C" fn secret_key_bytes(bytes: &mut [u8; 33], word: &[u8; 44]) -> i32 {
    let (own, is_whole) = bytes_of(word);
    *bytes = own;
    is_whole as i32
}

/// Writes the signature of 1 that circomlib makes by a private key. Returns 0, or 1 where memory is refused.
#[unsafe(no_mangle)]
pub extern "C" fn secret_eddsa(alloc: Global, signature: &mut [u8; 64], private: &[u8; 32]) -> i32 {
    match EddsaPoseidon::new(alloc) {
        Ok(eddsa) => {
            let key = PrivateKey::of(*private);
            *signature = eddsa.sign_private(&key, Bn254Fr::one()).to_bytes();
            0
        }
        Err(_) => 1,
    }
}

// A window of four bits.
struct OneWindow;

impl Window for OneWindow {
    ghost use Rattle.std.proofs.Common.{lit<};

    ghost WINDOW_SIZE = { 4 };

    const WINDOW_SIZE: usize = 4;

    ghost NUM_WINDOWS = { 1 };

    const NUM_WINDOWS: usize = 1;

    ghost some = { lit< tt };

    ghost fits = { lit< tt };
}

/// Writes the Pedersen commitment to no byte, by a table of the randomness element. Returns 0, or 1 where memory is
/// refused.
#[unsafe(no_mangle)]
pub extern "C" fn secret_commitment(
    alloc: Global,
    commitment: &mut [u8; 64],
    randomness: &[u8; 32],
) -> i32 {
    match committed_by_table(alloc, scalar(randomness)) {
        Ok(element) => {
            *commitment = element.to_bytes();
            0
        }
        Err(_) => 1,
    }
}

fn committed_by_table(alloc: Global, randomness: JubjubFr) -> Result<Jubjub, Error> {
    let parameters = pedersen_commitment_from_label::<Jubjub, OneWindow>(alloc, b"sealed__")?;
    let prepared = PreparedParameters::new(alloc, parameters)?;
    prepared.commit::<OneWindow>(&[], &Randomness(randomness))
}

/// Writes the same commitment without a table, which takes a branch and an address from each bit of the randomness. Returns 0,
/// or 1 where memory is refused.
#[unsafe(no_mangle)]
pub extern "C" fn planted_commitment(
    alloc: Global,
    commitment: &mut [u8; 64],
    randomness: &[u8; 32],
) -> i32 {
    match committed_by_bits(alloc, scalar(randomness)) {
        Ok(element) => {
            *commitment = element.to_bytes();
            0
        }
        Err(_) => 1,
    }
}

fn committed_by_bits(alloc: Global, randomness: JubjubFr) -> Result<Jubjub, Error> {
    let parameters = pedersen_commitment_from_label::<Jubjub, OneWindow>(alloc, b"sealed__")?;
    Commitment::<Jubjub, OneWindow>::commit(alloc, &parameters, &[], &Randomness(randomness))
}

/// Writes a multiple of the generator by the call for public scalars, which branches on the scalar.
#[unsafe(no_mangle)]
pub extern "C" fn planted_multiple(key: &mut [u8; 64], secret: &[u8; 32]) {
    *key = Jubjub::generator()
        .mul_public(scalar(secret).words())
        .to_bytes();
}
