//! A key of Jubjub in three shares: any two give it, and one tells nothing of it. Two holders sign without joining it.

ghost use Rattle.std.specs.Prelude.{◌≡◌, ◌∷◌, [], IfOk};
ghost use Rattle.ark_crypto_primitives.specs.Words.{numbers_of_shares, response, value_at_zero};

use ark_crypto_primitives::ec::jubjub::JubjubFr;
use ark_crypto_primitives::ff::{Field, UniformRand, Valued};
use ark_crypto_primitives::secret_shares::{NoSecret, NoShare, Share, recover, share_at};
use rand::Rng;

/// Returns three shares of a key. What the generator gives must stay unknown as the key does.
pub fn share_key<R: Rng>(key: JubjubFr, rng: &mut R) -> Result<[Share<JubjubFr>; 3], NoShare> {
    let coefficients = [key, JubjubFr::rand(rng)];
    let first = share_at(&coefficients, JubjubFr::from_u64(1))?;
    let second = share_at(&coefficients, JubjubFr::from_u64(2))?;
    let third = share_at(&coefficients, JubjubFr::from_u64(3))?;
    Ok([first, second, third])
}

/// Returns the key that two of its shares give.
pub fn key_of(one: Share<JubjubFr>, other: Share<JubjubFr>) -> Result<JubjubFr, NoSecret>
    ensures { IfOk result (λ key. ⟦<JubjubFr as Valued>⟧.value key
        ≡ value_at_zero ⟦<JubjubFr as Field>⟧.MODULUS
        (numbers_of_shares ⟦<JubjubFr as Valued>⟧.value (one ∷ other ∷ []))) }
{
    recover(&[one, other])
}

/// Returns a holder's part of Schnorr's response k - x e, of the shares of the key x and of a nonce k at one place.
///
/// Two parts give the response by `recover`, and neither key nor nonce was joined (`responses_are_shares`).
pub fn respond(key: Share<JubjubFr>, nonce: Share<JubjubFr>, challenge: JubjubFr) -> Share<JubjubFr>
    ensures place { result.place ≡ key.place }
    ensures value { ⟦<JubjubFr as Valued>⟧.value result.value
        ≡ response ⟦<JubjubFr as Field>⟧.MODULUS (⟦<JubjubFr as Valued>⟧.value key.value)
        (⟦<JubjubFr as Valued>⟧.value nonce.value) (⟦<JubjubFr as Valued>⟧.value challenge) }
{
    Share {
        place: key.place,
        value: nonce.value.sub(key.value.mul(challenge)),
    }
}
