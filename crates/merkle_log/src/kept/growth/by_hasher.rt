//! The same growth by any hash of pairs, which may refuse: one pair at a time.

ghost use Rattle.std.specs.Prelude.{◌≡◌, ◌⊎◌, ◌<◌, ◌≤◌, ◌+◌, ◌^◌, ◌++◌, List, length, take, drop, IfOk, IfErr};
ghost use Rattle.ark_base.specs.declared.error.Error.TheVariants.{OutOfMemory};
ghost use Rattle.ark_paths.specs.Pair.{Digest};
ghost use Rattle.merkle_log.specs.Append.{Completes, RefusesCarry};
ghost use Rattle.merkle_log.specs.Asked.{Holding, IsPeak};
ghost use Rattle.merkle_log.specs.Kept.{KeepsBy, RefusesAppend, front, stored_front};
ghost use Rattle.merkle_log.specs.Stored.{row_at, stored_count};

use crate::kept::growth::{digest_among, put};
use crate::nodes::NodeHasher;
use crate::rows::Rows;

// Writes a digest, and behind it those of the places that it completes, to a buffer in which some stand already; returns how
// many stand then. A refusal may leave some of them.
fn complete_by<R: Rows<[u8; 32]>, H: NodeHasher<[u8; 32]>>(
    hasher: &mut H,
    rows: &R,
    first: usize,
    size: usize,
    digest: &[u8; 32],
    more: &mut [[u8; 32]],
    made: usize,
) -> Result<usize, H::Refusal>
    requires size { (R.stored rows.now).size ≡ first }
    requires stored { stored_count first ≤ length (R.stored rows.now).digests }
    requires held { Holding (R.Holds rows.now) 0 (IsPeak first) }
    requires longer { first ≤ size }
    requires whole { stored_count first + made ≡ stored_count size }
    requires fits { size < 2 ^ 63 }
    requires room { stored_count (size + 1) ≤ stored_count first + length more.old }
    ensures completed { IfOk result (λ at. Completes (H.hash hasher.old) size
        (stored_front (R.stored rows.now) ++ take made more.old) digest.now
        (stored_front (R.stored rows.now) ++ take at more.new)) }
    ensures whole { IfOk result (λ at. stored_count first + at ≡ stored_count (size + 1)) }
    ensures behind { IfOk result (λ at. drop at more.new ≡ drop at more.old) }
    ensures refused { let before = stored_front (R.stored rows.now) ++ take made more.old in
        IfErr result (λ refusal. (H.why refusal ≡ OutOfMemory)
        ⊎ RefusesCarry (H.hash hasher.old) (row_at (front size before)) digest.now
        (H.why refusal)) }
    ensures same { H.hash hasher.new ≡ H.hash hasher.old }
    ensures length { length more.new ≡ length more.old }
{
    let mut own = *digest;
    put(more, made, &own);
    let mut at = made + 1;
    let mut level = 0;
    let mut left = size;
    'odd: while left % 2 == 1 {
        own = hasher.node(digest_among(rows, first, more, level, left - 1), &own)?;
        put(more, at, &own);
        at += 1;
        left /= 2;
        level += 1;
    }
    Ok(at)
}

/// Writes to the front of `more` the digests that the rows of a log of this size lack for more leaves' digests; returns how many.
/// Behind them `more` stays. It asks for the complete subtrees into which the log's leaves fall, and allocates nothing.
///
/// A refusal is that of the first pair that is refused, and may leave some digests in `more`.
pub fn append_by<R: Rows<[u8; 32]>, H: NodeHasher<[u8; 32]>>(
    hasher: &mut H,
    rows: &R,
    size: usize,
    digests: &[[u8; 32]],
    more: &mut [[u8; 32]],
) -> Result<usize, H::Refusal>
    requires size { (R.stored rows.now).size ≡ size }
    requires stored { stored_count size ≤ length (R.stored rows.now).digests }
    requires held { Holding (R.Holds rows.now) 0 (IsPeak size) }
    requires fits { size + length digests.now < 2 ^ 63 }
    requires room { stored_count (size + length digests.now) ≤ stored_count size + length more.old }
    ensures count { IfOk result
        (λ made. stored_count size + made ≡ stored_count (size + length digests.now)) }

    // Those that are stored and those that are written are the stored digests of the longer list.
    ensures grows { IfOk result (λ made. (leaves : List Digest) → length leaves ≡ size
        → KeepsBy (H.hash hasher.old) leaves (R.stored rows.now).digests
        → KeepsBy (H.hash hasher.old) (leaves ++ digests.now)
        (stored_front (R.stored rows.now) ++ take made more.new)) }
    ensures behind { IfOk result (λ made. drop made more.new ≡ drop made more.old) }

    // The hash refuses a pair that one of the leaves completes.
    ensures refused { IfErr result (λ refusal. (H.why refusal ≡ OutOfMemory)
        ⊎ ((leaves : List Digest) → length leaves ≡ size
        → KeepsBy (H.hash hasher.old) leaves (R.stored rows.now).digests
        → RefusesAppend (H.hash hasher.old) leaves digests.now (H.why refusal))) }
    ensures same { H.hash hasher.new ≡ H.hash hasher.old }
    ensures length { length more.new ≡ length more.old }
{
    let mut made = 0;
    'leaves: for place in 0..digests.len() {
        made = complete_by(
            hasher,
            rows,
            size,
            size + place,
            &digests[place],
            more,
            made,
        )?;
    }
    Ok(made)
}
