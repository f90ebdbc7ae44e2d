//! The bytes of replies.

ghost use Rattle.std.specs.Prelude.{◌≡◌, ◌++◌, ◌+◌, IfOk, OnOk, codes};
ghost use Rattle.std.specs.Fmt.{decimal};
ghost use Rattle.hex.specs.Hex.{encode_lower};
ghost use Rattle.acp_run.specs.Replies.{Refused, finding_reply, text};

use crate::session::hexadecimal::write_digits;
use ark_base::error::Error;
use ark_merkle::Binding;
use std::alloc::{AllocError, Global};

/// What bytes say that spell a path or a multi-proof.
#[derive(Drop)]
pub enum Finding {
    Trailing,
    Verdict(bool),
    Counted(bool, usize),
    Bound(Binding),
    Strict(usize),
}

/// Returns a reply of fixed text.
pub fn plain(alloc: Global, text: &[u8]) -> Result<Vec<u8>, AllocError>
    ensures { IfOk result (λ reply. reply.items ≡ text.now) }
{
    let mut reply = Vec::with_capacity(alloc, text.len())?;
    reply.extend_from_slice(text)?;
    Ok(reply)
}

/// Returns why a call was refused.
pub fn refused(alloc: Global, error: Error) -> Result<Vec<u8>, AllocError>
    ensures { IfOk result (λ reply. reply.items ≡ text (Refused error)) }
{
    let reply = match error {
        Error::IncorrectInputLength(length) => format!(in alloc; "refused length {length}")?,
        Error::NotPrimeOrder => format!(in alloc; "refused order")?,
        Error::GenericError(refusal) => format!(in alloc; "refused {refusal}")?,
        Error::SerializationError(fault) => format!(in alloc; "refused {fault}")?,
        Error::OutOfMemory => format!(in alloc; "refused memory")?,
    };
    Ok(reply.into_bytes())
}

/// Returns what was found, or why it was not.
pub fn finding_bytes(alloc: Global, finding: Result<Finding, Error>) -> Result<Vec<u8>, AllocError>
    ensures { IfOk result (λ reply. reply.items ≡ text (finding_reply finding)) }
{
    let reply = match finding {
        Ok(Finding::Trailing) => format!(in alloc; "refused trailing")?,
        Ok(Finding::Verdict(holds)) => format!(in alloc; "{holds}")?,
        Ok(Finding::Counted(holds, pairs)) => format!(in alloc; "{holds} {pairs}")?,
        Ok(Finding::Bound(Binding::Rejected)) => format!(in alloc; "rejected")?,
        Ok(Finding::Bound(Binding::Stands)) => format!(in alloc; "stands")?,
        Ok(Finding::Bound(Binding::Differs { level })) => format!(in alloc; "differs {level}")?,
        Ok(Finding::Strict(indexes)) => format!(in alloc; "strict {indexes}")?,
        Err(error) => return refused(alloc, error),
    };
    Ok(reply.into_bytes())
}

/// Returns the size of a new tree, and its height.
pub fn built(alloc: Global, size: usize, height: usize) -> Result<Vec<u8>, AllocError>
    ensures { IfOk result (λ reply.
        reply.items ≡ codes "tree " ++ (decimal size ++ (codes " height " ++ decimal height))) }
{
    Ok(format!(in alloc; "tree {size} height {height}")?.into_bytes())
}

/// Returns a word, and bytes in hexadecimal behind it.
pub fn with_hex(alloc: Global, word: &[u8], bytes: &[u8]) -> Result<Vec<u8>, AllocError>
    ensures { IfOk result (λ reply. reply.items ≡ word.now ++ encode_lower bytes.now) }
{
    let room = word.len().saturating_add(bytes.len().saturating_mul(2));
    let mut reply = Vec::with_capacity(alloc, room)?;
    reply.extend_from_slice(word)?;
    push_hex(&mut reply, bytes)?;
    Ok(reply)
}

/// Appends bytes in hexadecimal.
pub fn push_hex(dest: &mut Vec<u8>, bytes: &[u8]) -> Result<(), AllocError>
    ensures { OnOk result (dest.new.items ≡ dest.old.items ++ encode_lower bytes.now) }
{
    let start = dest.len();
    let Some(end) = bytes
        .len()
        .checked_mul(2)
        .and_then(|more| start.checked_add(more))
    else {
        return Err(AllocError);
    };
    dest.resize(end, 0)?;
    write_digits(bytes, &mut dest[start..]);
    Ok(())
}
