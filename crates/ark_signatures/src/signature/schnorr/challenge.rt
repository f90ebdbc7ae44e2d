//! The challenge of a point.

ghost use Rattle.std.specs.Prelude.{ℕ, List, Option};
ghost use Rattle.std.specs.Option.{option_map};
ghost use Rattle.ark_base.specs.Outcome.{Outcome, AnswersBy};
ghost use Rattle.ark_groups.specs.Group.{times};
ghost use Rattle.ark_signatures.specs.Schnorr.{challenge_text, challenge_of, first_nonce};

use crate::signature::schnorr::generator::GeneratorMultiples;
use ark_base::error::{Error, Refusal};
use ark_base::serialize::CanonicalSerialize;
use ark_groups::digest::ByteDigest;
use ark_groups::ec::AdditiveGroup;
use ark_groups::ff::{Field, UniformRand};
use rand::Rng;
use std::alloc::Global;

/// How many scalars are drawn at most for one signature.
const DRAWS: u32 = 128;

/// A group whose points have challenges by a digest. Each group is one.
pub trait Challenges<D: ByteDigest>: AdditiveGroup {
    // The challenge of a point under a salt and a message: a scalar, or none, or the digest's refusal.
    ghost challenge: { List ℕ → List ℕ → Self → Outcome (Option ℕ) };
}

impl<C: AdditiveGroup, D: ByteDigest> Challenges<D> for C {
    ghost challenge = { λ salt message point.
        let text = challenge_text salt (C.spelling (C.view point)) message in
        challenge_of C.ScalarField.MODULUS C.ScalarField.MODULUS_BIT_SIZE (D.meaning text) };
}

/// Returns the challenge of a point: the scalar that the digest of the salt, of the point's canonical bytes and of the
/// message's gives, if it gives one.
///
/// Errors: the digest's; `OutOfMemory`.
pub fn challenge_of<C: AdditiveGroup, D: ByteDigest>(
    alloc: Global,
    salt: &[u8; 32],
    point: &C,
    message: &[u8],
) -> Result<Option<C::ScalarField>, Error>
    ensures { let challenge = ⟦<C as Challenges<D>>⟧.challenge salt.now message.now point.now in
        AnswersBy (option_map C.ScalarField.value) challenge result }
{
    let mut text = Vec::with_capacity(alloc, message.len().saturating_add(64))?;
    text.extend_from_slice(salt)?;
    point.serialize(&mut text)?;
    message.len().serialize(&mut text)?;
    text.extend_from_slice(message)?;
    let digest = D::digest(alloc, &text)?;
    Ok(C::ScalarField::from_random_bytes(&digest))
}

/// Returns the first scalar, drawn one after another, whose multiple of the generator has a challenge; and that
/// challenge.
///
/// Errors: the digest's at the first multiple that meets one; `DrawsExhausted` after 128 draws without a challenge;
/// `OutOfMemory`.
pub fn draw_nonce<C: AdditiveGroup, D: ByteDigest, P: GeneratorMultiples<C>, R: Rng>(
    alloc: Global,
    pp: &P,
    message: &[u8],
    rng: &mut R,
) -> Result<(C::ScalarField, C::ScalarField), Error>
    ensures { let value = C.ScalarField.value in
        let challenge : ℕ → Outcome (Option ℕ) = λ k.
        ⟦<C as Challenges<D>>⟧.challenge (P.salt pp.now) message.now
        (times C.group k (P.generator pp.now)) in
        let nonce = first_nonce C.ScalarField.draw value challenge 128 (R.stream rng.old) in
        let left = R.stream rng.new in
        AnswersBy (λ pair. record {
          number = value pair.0;
          challenge = value pair.1;
          left = left;
        }) nonce result }
{
    for _ in 0..DRAWS {
        let k = C::ScalarField::rand(rng);
        let point = pp.generator_times(k);
        if let Some(e) = challenge_of::<C, D>(alloc, pp.salt(), &point, message)? {
            return Ok((k, e));
        }
    }
    Err(Error::GenericError(Refusal::DrawsExhausted))
}
