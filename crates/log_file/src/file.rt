//! A log, as the bytes of its file say it.

ghost use Rattle.std.specs.Prelude.{◌≡◌, ◌≤◌, ◌<◌, ◌+◌, ◌*◌, ◌^◌, drop, Some, Ok, Err, length, IfOk, IfErr};
ghost use Rattle.std.specs.Simd.{first_chunks};
ghost use Rattle.merkle_log.specs.Kept.{front};
ghost use Rattle.merkle_log.specs.Stored.{stored_count};
ghost use Rattle.log_file.specs.Faults.{log_size};
ghost use Rattle.log_file.specs.LogFile.{file_end, file_head, stored_in};

use crate::fault::Fault;
use crate::head::{FileHead, START, fault_without_head, head_in};
use merkle_log::kept::{Kept, is_size, stored_count};

/// The log of a file: its head, and its stored digests.
#[derive(Drop)]
pub struct LogFile<'a> {
    pub head: FileHead,
    pub kept: Kept<'a>,
}

// The first digests behind the head.
fn stored_in(bytes: &[u8], count: usize) -> &[[u8; 32]]
    requires { 96 + 32 * count ≤ length bytes.now }
    ensures digests { result.now ≡ first_chunks 32 count (drop 96 bytes.now) }
    ensures count { length result.now ≡ count }
{
    let (digests, _) = bytes[START..START + 32 * count].as_chunks::<32>();
    digests
}

/// Returns the log that the bytes of a file are. What stands behind the digests of its size does not count.
///
/// Errors: `NoLog`; `HeadDamaged`; `Short`, also for a size of over 63 bits.
pub fn log_in(bytes: &[u8]) -> Result<LogFile<'_>, Fault>
    ensures size { IfOk result (λ log. log_size bytes.now ≡ Ok log.head.size) }
    ensures head { IfOk result (λ log.
        file_head bytes.now ≡ Some (log.head.size, log.head.is_second_next)) }
    ensures kept { IfOk result (λ log.
        log.kept ≡ front log.head.size (stored_in log.head.size bytes.now)) }
    ensures count { IfOk result (λ log. length log.kept.digests ≡ stored_count log.head.size) }
    ensures fits { IfOk result (λ log. log.head.size < 2 ^ 63) }
    ensures inside { IfOk result (λ log. file_end log.head.size ≤ length bytes.now) }
    ensures refused { IfErr result (λ fault. log_size bytes.now ≡ Err fault) }
{
    let Some(head) = head_in(bytes) else {
        return Err(fault_without_head(bytes));
    };
    if !is_size(head.size) {
        return Err(Fault::Short);
    }
    let count = stored_count(head.size);
    if bytes.len().saturating_sub(START) / 32 < count {
        return Err(Fault::Short);
    }
    Ok(LogFile {
        head,
        kept: Kept::new(head.size, stored_in(bytes, count)),
    })
}
