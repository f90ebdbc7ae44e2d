//! EdDSA with Poseidon.

ghost use Rattle.std.specs.Prelude.{◌≡◌, ◌*◌, IfOk, IfErr};
ghost use Rattle.std.specs.Bool.{Decides};
ghost use Rattle.ark_groups.specs.Group.{times};
ghost use Rattle.ark_groups.specs.Words.{number};
ghost use Rattle.ark_sponge.specs.Permutation.{Parameters};
ghost use Rattle.poseidon_grain.specs.Constants.{IsMatrixFault};
ghost use Rattle.baby_jubjub.specs.BabyJubjub.{order, curve, base8};
ghost use Rattle.baby_jubjub.specs.Eddsa.{RunsPoseidon, eddsa_challenge, poseidon_instance, IsEddsaSignature, IsSignedWith};
ghost use Rattle.baby_jubjub.specs.Keys.{secret_of};
ghost use Rattle.baby_jubjub.specs.Points.{coordinates};
ghost use Rattle.baby_jubjub.specs.Private.{private_nonce, private_secret};
ghost use Rattle.baby_jubjub.specs.PrivateKeys.{private_bytes};
ghost use Rattle.baby_jubjub.specs.Values.{value, scalar_number};

use crate::embedded::twice_coefficient;
use crate::fr::BabyJubjubFr;
use crate::keys::{SigningKey, modulo_order};
use crate::point::Point;
use crate::private::PrivateKey;
use crate::signature::Signature;
use ark_base::error::Error;
use ark_groups::ff::{Field, UniformRand, Words};
use ark_poseidon_parameters::Power;
use ark_sponge::poseidon::ShortPermutation;
use ark_wide_fields::Bn254Fr;
use edwards::{doubled, doubled_twice, is_neutral, plus, sum_of_multiples_public};
use poseidon_grain::circom_parameters;
use rand::Rng;
use std::alloc::Global;
use std::marker::Model;

/// Signing and checking, with what circomlib's Poseidon of five inputs runs by.
#[derive(Drop)]
pub struct EddsaPoseidon {
    short: ShortPermutation<Bn254Fr>,
}

impl Model for EddsaPoseidon {
    ghost use Rattle.std.specs.Prelude.{◌≡◌, length};
    ghost use Rattle.ark_sponge.specs.Table.{ShortParts};

    ghost Value = { ShortParts };

    ghost view = { λ e. e.short };

    ghost invariant = { λ e. length e.short.mds ≡ 6 };
}

// Whether S Base8 is R and 8 hm times the key.
fn holds(s: Words, hm: Words, key: Point, r8: Point) -> bool
    ensures { Decides result (times curve (number s) base8
        ≡ curve.plus (coordinates r8) (times curve (8 * number hm) (coordinates key))) }
{
    let twice = twice_coefficient();
    let eight = doubled(doubled_twice(key.neg().embedded()));
    let left = sum_of_multiples_public(twice, Point::base8().embedded(), s, eight, hm);
    is_neutral(plus(twice, left, r8.neg().embedded()))
}

impl EddsaPoseidon {
    /// Makes the constants of the hash, which takes milliseconds.
    ///
    /// Errors: `OutOfMemory`; `ParameterShape` for a matrix that is refused, which this one is not.
    pub fn new(alloc: Global) -> Result<EddsaPoseidon, Error>
        ensures made { IfOk result (λ e. (c : Parameters) × RunsPoseidon c e) }
        ensures refused { IfErr result (IsMatrixFault poseidon_instance) }
    {
        let parameters = circom_parameters(alloc, 5)?;
        let table = match parameters.table(alloc) {
            Ok(table) => table,
            Err(_) => return Err(Error::OutOfMemory),
        };
        let short = ShortPermutation::of_table(alloc, parameters.table_shape(), &table)?;
        Ok(EddsaPoseidon { short })
    }

    // The hash of R, of the key and of a message.
    fn challenge(&self, r8: Point, key: Point, message: Bn254Fr) -> Bn254Fr
        ensures { (c : Parameters) → RunsPoseidon c self.now
            → value result ≡ eddsa_challenge c (coordinates r8) (coordinates key) (value message) }
    {
        let mut state = [Bn254Fr::zero(), r8.x(), r8.y(), key.x(), key.y(), message];
        let mut scratch = [Bn254Fr::zero(); 6];
        self.short.permute::<Power>(&mut state, &mut scratch);
        state[0]
    }

    /// Returns whether it is a signature of the message by the key. As circomlib, it takes any point of the curve as a
    /// key: under one whose multiple by 8 is zero each message has signatures. It allocates nothing.
    pub fn verify(&self, key: Point, message: Bn254Fr, signature: Signature) -> bool
        ensures { (c : Parameters) → RunsPoseidon c self.now
            → Decides result (IsEddsaSignature c (coordinates key) (value message)
            (coordinates signature.r8) (scalar_number signature.s)) }
    {
        let hm = self.challenge(signature.r8, key, message);
        holds(signature.s.words(), hm.words(), key, signature.r8)
    }

    /// Returns the signature of a message that a nonce makes. Whoever knows the nonce, or two signatures with one nonce,
    /// knows the secret. No branch and no address depends on either.
    pub fn sign_with_nonce(
        &self,
        key: &SigningKey,
        message: Bn254Fr,
        nonce: BabyJubjubFr,
    ) -> Signature
        ensures exact { (c : Parameters) → RunsPoseidon c self.now
            → IsSignedWith c (scalar_number nonce) (secret_of key.now) (value message)
            (coordinates result.r8) (scalar_number result.s) }
        ensures valid { (c : Parameters) → RunsPoseidon c self.now
            → IsEddsaSignature c (times curve (secret_of key.now) base8) (value message)
            (coordinates result.r8) (scalar_number result.s) }
    {
        let r8 = Point::base8().mul(nonce.words());
        let hm = modulo_order(self.challenge(r8, key.public_key(), message).words());
        let eight = hm.double().double().double();
        Signature {
            r8,
            s: nonce.add(eight.mul(key.secret())),
        }
    }

    /// Returns the signature that circomlib's `signPoseidon` makes: its nonce comes of the private key and of the message.
    pub fn sign_private(&self, key: &PrivateKey, message: Bn254Fr) -> Signature
        ensures exact { (c : Parameters) → RunsPoseidon c self.now
            → let bytes = private_bytes key.now in
            let nonce = private_nonce bytes (value message) in
            IsSignedWith c nonce (private_secret bytes) (value message)
            (coordinates result.r8) (scalar_number result.s) }
        ensures valid { (c : Parameters) → RunsPoseidon c self.now
            → let secret = private_secret (private_bytes key.now) in
            IsEddsaSignature c (times curve secret base8) (value message)
            (coordinates result.r8) (scalar_number result.s) }
    {
        self.sign_with_nonce(&key.signing_key(), message, key.nonce(message))
    }

    /// Draws the nonce and returns the signature of a message. The seed of the generator must be secret. It allocates nothing.
    pub fn sign<R: Rng>(&self, key: &SigningKey, message: Bn254Fr, rng: &mut R) -> Signature
        ensures exact { (c : Parameters) → RunsPoseidon c self.now
            → let nonce = (⟦<BabyJubjubFr as UniformRand>⟧.draw (R.stream rng.old)).0 in
            IsSignedWith c (scalar_number nonce) (secret_of key.now) (value message)
            (coordinates result.r8) (scalar_number result.s) }
        ensures valid { (c : Parameters) → RunsPoseidon c self.now
            → IsEddsaSignature c (times curve (secret_of key.now) base8) (value message)
            (coordinates result.r8) (scalar_number result.s) }
        ensures left { R.stream rng.new
            ≡ (⟦<BabyJubjubFr as UniformRand>⟧.draw (R.stream rng.old)).1 }
    {
        let nonce = <BabyJubjubFr as UniformRand>::rand(rng);
        self.sign_with_nonce(key, message, nonce)
    }
}
