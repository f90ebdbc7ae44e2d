//! What is said of the log of a file, line by line.

ghost use Rattle.std.specs.Prelude.{◌≡◌, ◌++◌, ◌∷◌, Ok};
ghost use Rattle.std.specs.Fmt.{decimal};
ghost use Rattle.std.specs.List.{flat_map};
ghost use Rattle.ark_base.specs.Digits.{itself};
ghost use Rattle.log_file.specs.Faults.{FileGivesBy};
ghost use Rattle.paxlog_run.specs.Replies.{hex_line};

use ark_base::serialize::CanonicalItem;
use log_file::fault::Fault;
use std::alloc::Global;

/// Returns the line of a root: the count of entries in decimal, a space, and the root in hexadecimal. The only error is `Memory`.
pub fn line_of_root(alloc: Global, size: usize, root: &[u8; 32]) -> Result<Vec<u8>, Fault>
    ensures { let line = decimal size ++ 32 ∷ hex_line root.now in
        FileGivesBy (λ line. line.items) (Ok line) result }
{
    let hex = hex::encode(alloc, root.as_slice())?;
    Ok(format!(in alloc; "{size} {hex}\n")?.into_bytes())
}

// The bytes of digests, one behind the other.
fn path_bytes_of(alloc: Global, digests: &[[u8; 32]]) -> Result<Vec<u8>, Fault>
    ensures { FileGivesBy (λ bytes. bytes.items) (Ok (flat_map itself digests.now)) result }
{
    let mut bytes = Vec::new(alloc);
    <[u8; 32]>::serialize_items(digests, &mut bytes)?;
    Ok(bytes)
}

/// Returns the line of a proof: the bytes of its digests in hexadecimal. The only error is `Memory`.
pub fn line_of(alloc: Global, digests: &[[u8; 32]]) -> Result<Vec<u8>, Fault>
    ensures { let line = hex_line (flat_map itself digests.now) in
        FileGivesBy (λ line. line.items) (Ok line) result }
{
    let bytes = path_bytes_of(alloc, digests)?;
    let hex = hex::encode(alloc, bytes.as_slice())?;
    Ok(format!(in alloc; "{hex}\n")?.into_bytes())
}
