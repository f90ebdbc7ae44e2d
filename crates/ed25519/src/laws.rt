//! What is proved of signatures. Each function is one theorem: its contract states it, and its body does nothing.

ghost use Rattle.std.specs.Prelude.{◌≡◌, ℕ, List, take};
ghost use Rattle.edwards.specs.Edwards.{Coordinates};
ghost use Rattle.ed25519.specs.Edwards25519.{IsOnEd25519};
ghost use Rattle.ed25519.specs.Spelling.{spelling};
ghost use Rattle.ed25519.specs.Signatures.{IsSignature, key_of, signature_of};

/// States that no two points have the same bytes.
pub fn points_are_their_bytes()
    ensures { (a b : Coordinates) → IsOnEd25519 a → IsOnEd25519 b
        → spelling a ≡ spelling b → a ≡ b }
{}

/// States that what RFC 8032 makes from a seed is a signature.
pub fn own_signatures_are_accepted()
    ensures { (seed message : List ℕ)
        → IsSignature (key_of seed) message (signature_of seed message) }
{}

/// States that no two signatures of one message by one key have the same first half.
pub fn first_halves_decide()
    ensures { (key message one other : List ℕ) → IsSignature key message one
        → IsSignature key message other → take 32 one ≡ take 32 other → one ≡ other }
{}
