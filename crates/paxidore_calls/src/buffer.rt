//! Bytes for a caller's buffer.

ghost use Rattle.std.specs.Prelude.{◌≡◌, ◌≢◌, ℕ, List, Result, Ok};
ghost use Rattle.std.specs.List.{flat_map};
ghost use Rattle.ark_base.specs.Digits.{itself};
ghost use Rattle.paxidore_calls.specs.Answer.{CallGivesBy, Hands, refusal_code};
ghost use Rattle.paxidore_calls.specs.declared.refused.Refused.{Refused};
ghost use Rattle.paxidore_calls.specs.declared.refused.Refused.TheVariants.{Memory};

use crate::refused::Refused;
use ark_base::serialize::CanonicalItem;
use std::alloc::Global;

/// Writes the bytes to the front of `buffer`, where it has room for them, with their count; what refuses leaves both.
pub fn hand_over(bytes: Result<Vec<u8>, Refused>, buffer: &mut [u8], count: &mut usize) -> i32
    ensures { (outcome : Result (List ℕ) Refused) → CallGivesBy (λ bytes. bytes.items) outcome bytes
        → Hands outcome buffer.old buffer.new count.old count.new result }
{
    match bytes {
        Ok(bytes) => {
            *count = bytes.len();
            if buffer.len() < bytes.len() {
                return Refused::Room.code();
            }
            buffer[..bytes.len()].copy_from_slice(&bytes);
            0
        }
        Err(refused) => refused.code(),
    }
}

/// Writes digests to the front of `buffer`, one behind the other, where it has room for them, with the count of their bytes. It
/// allocates nothing.
pub fn hand_over_digests(digests: &[[u8; 32]], buffer: &mut [u8], count: &mut usize) -> i32
    ensures handed { Hands (Ok (flat_map itself digests.now)) buffer.old buffer.new count.old
        count.new result }
    ensures no_memory { result ≢ refusal_code Memory }
{
    let bytes = digests.as_flattened();
    *count = bytes.len();
    if buffer.len() < bytes.len() {
        return Refused::Room.code();
    }
    buffer[..bytes.len()].copy_from_slice(bytes);
    0
}

/// Returns the bytes of digests, one behind the other. The only error is `Memory`.
pub fn bytes_of_path(alloc: Global, digests: &[[u8; 32]]) -> Result<Vec<u8>, Refused>
    ensures { CallGivesBy (λ bytes. bytes.items) (Ok (flat_map itself digests.now)) result }
{
    let mut bytes = Vec::new(alloc);
    <[u8; 32]>::serialize_items(digests, &mut bytes)?;
    Ok(bytes)
}
