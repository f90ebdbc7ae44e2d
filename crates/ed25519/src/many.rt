//! Many signatures at once.

ghost use Rattle.std.specs.Prelude.{IsNone, IfSome, length};
ghost use Rattle.ed25519.specs.Claims.{HoldBelow, FailsAt};

use crate::signatures::verify;

/// That a signature is one of a message under a key.
#[derive(Clone, Copy)]
pub struct Claim<'a> {
    /// The key.
    pub key: &'a [u8],
    /// The message.
    pub message: &'a [u8],
    /// The signature.
    pub signature: &'a [u8],
}

/// Returns the index of the first claim that does not hold. `None` where each holds.
pub fn verify_many(claims: &[Claim]) -> Option<usize>
    ensures none { IsNone result → HoldBelow claims.now (length claims.now) }
    ensures before { IfSome result (λ i. HoldBelow claims.now i) }
    ensures not { IfSome result (λ i. FailsAt claims.now i) }
{
    for (i, claim) in claims.iter().enumerate() {
        if !verify(claim.key, claim.message, claim.signature) {
            return Some(i);
        }
    }
    None
}
