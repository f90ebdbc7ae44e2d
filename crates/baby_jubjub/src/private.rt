//! circomlib's private keys. No branch and no address depends on the bytes.

ghost use Rattle.std.specs.Prelude.{◌≡◌, ◌+◌, ◌*◌, ◌/◌, ◌%◌, ◌^◌, ◌++◌, drop};
ghost use Rattle.ark_base.specs.Digits.{bytes_of_number};
ghost use Rattle.ark_groups.specs.Words.{number};
ghost use Rattle.baby_jubjub.specs.Blake512.{blake512};
ghost use Rattle.baby_jubjub.specs.Keys.{secret_of};
ghost use Rattle.baby_jubjub.specs.Private.{private_secret, private_nonce};
ghost use Rattle.baby_jubjub.specs.Values.{value, scalar_number};

use crate::blake512::{blake512_of_32, blake512_of_64};
use crate::fr::BabyJubjubFr;
use crate::keys::{SigningKey, eighth, modulo_order};
use ark_groups::ff::{Field, Words};
use ark_wide_fields::{Bn254Fr, words_of};

// The lowest three bits cleared, and of the highest two only the lower set.
fn pruned(a: Words) -> Words
    ensures { number result ≡ 2 ^ 254 + 8 * (number a / 8 % 2 ^ 251) }
{
    Words {
        w0: a.w0 / 8 * 8,
        w1: a.w1,
        w2: a.w2,
        w3: a.w3 % (1 << 62) + (1 << 62),
    }
}

// 32 bytes, and those of a number behind them.
fn with_message(prefix: &[u8; 32], message: Bn254Fr) -> [u8; 64]
    ensures { result ≡ prefix.now ++ bytes_of_number 32 (value message) }
{
    let mut bytes = [0; 64];
    bytes[..32].copy_from_slice(prefix.as_slice());
    message.write_low_bytes(&mut bytes[32..]);
    bytes
}

/// A private key of 32 bytes, with the secret number and the half of a digest that circomlib makes of it.
#[derive(Clone, Copy)]
pub struct PrivateKey {
    bytes: [u8; 32],
    key: SigningKey,
    prefix: [u8; 32],
    ghost key_is: { secret_of key ≡ private_secret bytes },
    ghost prefix_is: { prefix ≡ drop 32 (blake512 bytes) },
}

impl PrivateKey {
    ghost use Rattle.baby_jubjub.specs.PrivateKeys.{private_bytes};

    /// Makes what circomlib makes of a private key, by BLAKE-512.
    pub fn of(bytes: [u8; 32]) -> PrivateKey
        ensures { private_bytes result ≡ bytes }
    {
        let digest = blake512_of_32(&bytes);
        let (low, high) = digest.as_slice().split_at(32);
        let mut prefix = [0; 32];
        prefix.copy_from_slice(high);
        PrivateKey {
            bytes,
            key: SigningKey::of(modulo_order(eighth(pruned(words_of(low))))),
            prefix,
        }
    }

    /// Returns the secret number with its public key.
    pub fn signing_key(&self) -> SigningKey
        ensures { secret_of result ≡ private_secret (private_bytes self.now) }
    {
        self.key
    }

    /// Returns circomlib's nonce of a message, by BLAKE-512. It is as secret as the key.
    pub fn nonce(&self, message: Bn254Fr) -> BabyJubjubFr
        ensures { scalar_number result ≡ private_nonce (private_bytes self.now) (value message) }
    {
        let digest = blake512_of_64(&with_message(&self.prefix, message));
        BabyJubjubFr::from_le_bytes_mod_order(digest.as_slice())
    }
}
