//! A transcript of a protocol: who proves and who checks absorb the same messages, and squeeze the same challenges.

ghost use Rattle.std.specs.Prelude.{map};
ghost use Rattle.ark_crypto_primitives.specs.Words.{AnswersBy};
ghost use Rattle.examples.specs.Transcript.{given_behind};

use ark_crypto_primitives::Error;
use ark_crypto_primitives::ff::Field;
use ark_crypto_primitives::sponge::{Absorb, FieldBasedCryptographicSponge};

/// Absorbs a message, and returns the next challenge, an element of the sponge's own field.
///
/// Errors: `ForeignField` for a message with elements of another field, which leaves the transcript as before; `OutOfMemory`.
pub fn challenge_after<F: Field, S: FieldBasedCryptographicSponge<F>, A: Absorb>(
    transcript: &mut S,
    message: &A,
) -> Result<Vec<F>, Error>
    // The challenge, and the transcript behind it, are what the sponge gives that has absorbed the message.
    ensures given { let bytes = A.sponge_bytes message.now in
        let after = S.absorbed (S.value transcript.old) bytes (A.sponge_elements message.now) in
        AnswersBy (λ given. (map F.value given.items, S.value transcript.new))
        (given_behind after (λ sponge. S.native_given sponge 1)) result }
{
    transcript.absorb(message)?;
    transcript.squeeze_native_field_elements(1)
}
