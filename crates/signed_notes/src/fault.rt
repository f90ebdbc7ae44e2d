//! Why there is no answer.

ghost use Rattle.std.specs.Prelude.{◌≡◌};
ghost use Rattle.signed_notes.specs.declared.fault.Fault.TheVariants.{Memory};

use std::alloc::{AllocError, AllocFailed};

/// Why there is no answer.
#[derive(Clone, Copy, Debug, PartialEq, Eq)]
pub enum Fault {
    /// A request for memory was refused.
    Memory,
    /// A note has more than 1,000,000 bytes.
    TooLong,
    /// A text is not UTF-8, or has a control character below U+0020 other than a line feed.
    NotText,
    /// There is no empty line, or nothing stands behind the last one.
    NoSignatures,
    /// The last byte is not a line feed.
    Unfinished,
    /// A note has more than 100 signatures.
    TooMany,
    /// The line of a signature does not begin with an em dash and a space, or has no space behind the name.
    Line,
    /// A name is empty, is not UTF-8, or has white space, a plus sign or a control character.
    Name,
    /// The Base64 of RFC 4648 has another form, with its padding and without bits that are left over.
    Base64,
    /// A signature has no byte behind the hash of the key.
    Short,
    /// A key is not three parts with plus signs between them, a signer's behind `PRIVATE+KEY+`, or has not 32 bytes.
    Key,
    /// A key is of an algorithm that is not known, or not asked for.
    Algorithm,
    /// A key is of ECDSA with SHA-256, whose byte is 2.
    Ecdsa,
    /// A key is of tree heads of RFC 6962, whose byte is 5.
    TreeHead,
    /// The hash of a key is another, or is not eight digits in lower case.
    KeyHash,
    /// A signature that names a known key is none by it.
    BadSignature,
    /// No signature names a known key.
    UnknownKey,
    /// A checkpoint is of another origin.
    OtherOrigin,
    /// Fewer witnesses signed than are asked for.
    FewWitnesses,
    /// The first line of a checkpoint is empty, or no text.
    Origin,
    /// The size of a checkpoint is not a number below 2^64 in decimal without leading zeros.
    Size,
    /// The root of a checkpoint has not 32 bytes.
    Root,
    /// A line behind the root of a checkpoint is empty, is no text, or has no line feed.
    Extensions,
}

impl From<AllocError> for Fault {
    ghost from_gives = { λ _ fault. fault ≡ Memory };

    fn from(_refused: AllocError) -> Fault {
        Fault::Memory
    }
}

impl<T: Drop> From<AllocFailed<T>> for Fault {
    ghost from_gives = { λ _ fault. fault ≡ Memory };

    fn from(_refused: AllocFailed<T>) -> Fault {
        Fault::Memory
    }
}
