//! Bundles: the entries of a tile of the lowest level (C2SP tlog-tiles).

ghost use Rattle.std.specs.Prelude.{◌≡◌, ◌≢◌, ◌<◌, ◌≤◌, ◌+◌, ◌^◌, ◌++◌, ℕ, List, length, IfSome, IsNone, OnOk};
ghost use Rattle.std.specs.Bool.{Decides};
ghost use Rattle.log_tiles.specs.Bundles.{entry_bytes, IsBundleOf};

use crate::following::are_same;
use ark_trees::digest_of_entry;
use std::alloc::AllocError;

/// The bytes of the longest entry that a bundle can have.
pub const LONGEST: usize = 65535;

/// Writes an entry behind other bytes: its length in two bytes, the highest first, and its bytes. The error is a lack of memory.
pub fn push_entry(entry: &[u8], bundle: &mut Vec<u8>) -> Result<(), AllocError>
    requires { length entry.now ≤ 65535 }
    ensures { OnOk result (bundle.new.items ≡ bundle.old.items ++ entry_bytes entry.now) }
{
    bundle.extend_from_slice(&(entry.len() as u16).to_be_bytes())?;
    bundle.extend_from_slice(entry)?;
    Ok(())
}

/// Returns the entry at the front of a bundle, and what stands behind it; nothing where the bytes end before it does.
pub fn first_entry(bytes: &[u8]) -> Option<(&[u8], &[u8])>
    ensures front { IfSome result (λ found. (length found.0.now ≤ 65535)
        × (bytes.now ≡ entry_bytes found.0.now ++ found.1.now)) }
    ensures none { IsNone result → (entry rest : List ℕ) → length entry ≤ 65535
        → bytes.now ≢ entry_bytes entry ++ rest }
{
    if bytes.len() < 2 {
        return None;
    }
    let (word, rest) = bytes.split_at(2);
    let mut two = [0; 2];
    two.copy_from_slice(word);
    let count = u16::from_be_bytes(two) as usize;
    if rest.len() < count {
        return None;
    }
    Some(rest.split_at(count))
}

/// Returns whether bytes are a bundle of entries that have these digests.
pub fn is_bundle(bytes: &[u8], digests: &[[u8; 32]]) -> bool
    ensures { Decides result (IsBundleOf digests.now bytes.now) }
{
    let mut rest = bytes;
    'digests: for digest in digests {
        let Some((entry, behind)) = first_entry(rest) else {
            return false;
        };
        if !are_same(&digest_of_entry(entry), digest) {
            return false;
        }
        rest = behind;
    }
    rest.is_empty()
}
