//! The check of a multi-proof, by any hash of pairs.

ghost use Rattle.std.specs.Prelude.{◌≡◌, ◌<◌, ◌≤◌, ◌+◌, ◌-◌, ◌*◌, ◌^◌, length, IfOk, OnOk};
ghost use Rattle.merkle_log.specs.Append.{counted_after};
ghost use Rattle.merkle_log.specs.Given.{GivesBy};
ghost use Rattle.merkle_log.specs.Multi.{count_around, digest_known, known_hash, known_of, multi_pairs, known_verdict, pairs_around};

use crate::multi_parts::{count_below, have_counts, levels_above, middle_of};
use crate::nodes::NodeHasher;
use ark_base::serialize::DigestItem;
use ark_paths::digests::are_same;

// Returns the digest of a place: one that was hashed, or else the one that is known for it.
fn digest_known<'a, D: DigestItem>(
    indexes: &[usize],
    leaves: &'a [D],
    proof: &'a [D],
    hashed: &'a Option<D>,
) -> &'a D
    requires leaves { length leaves.now ≡ length indexes.now }
    requires proof { length indexes.now ≡ 0 → 0 < length proof.now }
    ensures { D.numbers result.now ≡ digest_known D.numbers
        (known_of D.numbers indexes.now leaves.now proof.now) hashed.now }
{
    match hashed {
        Some(digest) => digest,
        None => {
            if indexes.is_empty() {
                &proof[0]
            } else {
                &leaves[0]
            }
        }
    }
}

// Hashes a place from what is known below it: returns its digest, `None` where the first digest of the leaves or of the proof
// is its own, and how many digests of the proof were used. It recurs once a level.
fn hash_known<D: DigestItem, H: NodeHasher<D>>(
    hasher: &mut H,
    size: usize,
    level: usize,
    place: usize,
    indexes: &[usize],
    leaves: &[D],
    proof: &[D],
) -> Result<(Option<D>, usize), H::Refusal>
    requires level { level ≤ 64 }
    requires inside { place * 2 ^ level < size }
    requires leaves { length leaves.now ≡ length indexes.now }
    requires proof { count_around size level place indexes.now ≤ length proof.now }
    requires fits { length proof.now < 2 ^ 64 }
    requires counted { H.counted hasher.old < 2 ^ 64 }
    ensures hashed { let known = known_of D.numbers indexes.now leaves.now proof.now in
        GivesBy H.why (λ made. digest_known D.numbers known made.0)
        (known_hash (H.hash hasher.old) size level place known) result }
    ensures used { IfOk result (λ made. made.1 ≡ count_around size level place indexes.now) }
    ensures within { IfOk result (λ made. made.1 ≤ length proof.now) }
    ensures same { H.hash hasher.new ≡ H.hash hasher.old }
    ensures counts { OnOk result (H.counted hasher.new ≡ counted_after (H.counted hasher.old)
        (pairs_around size level place indexes.now)) }
{
    if indexes.is_empty() {
        return Ok((None, 1));
    }
    if level == 0 {
        return Ok((None, 0));
    }
    let below = level - 1;
    let bound = middle_of(below, place);
    if bound >= size {
        return hash_known(hasher, size, below, 2 * place, indexes, leaves, proof);
    }
    let count = count_below(bound, indexes);
    let (first, last) = (&indexes[..count], &indexes[count..]);
    let (left, used) = hash_known(
        hasher,
        size,
        below,
        2 * place,
        first,
        &leaves[..count],
        proof,
    )?;
    let rest = &proof[used..];
    let (right, more) = hash_known(
        hasher,
        size,
        below,
        2 * place + 1,
        last,
        &leaves[count..],
        rest,
    )?;
    let left_digest = digest_known(first, &leaves[..count], proof, &left);
    let right_digest = digest_known(last, &leaves[count..], rest, &right);
    Ok((Some(hasher.node(left_digest, right_digest)?), used + more))
}

/// Checks that digests stand at indexes of the log with this root and size, by a multi-proof.
///
/// The answer is false for no index, indexes that do not rise or are not below the size, and for another count of digests than the
/// indexes have or such a proof has.
pub fn are_shown<D: DigestItem, H: NodeHasher<D>>(
    hasher: &mut H,
    root: &D,
    size: usize,
    indexes: &[usize],
    leaves: &[D],
    proof: &[D],
) -> Result<bool, H::Refusal>
    requires { H.counted hasher.old < 2 ^ 64 }
    ensures answer { let known = known_of D.numbers indexes.now leaves.now proof.now in
        GivesBy H.why (λ shown. shown)
        (known_verdict (H.hash hasher.old) (D.numbers root.now) size known) result }

    // It hashes one pair fewer than the leaves and the proof have digests.
    ensures counts { let known = known_of D.numbers indexes.now leaves.now proof.now in
        OnOk result (H.counted hasher.new ≡ counted_after (H.counted hasher.old)
        (multi_pairs size known)) }
{
    if !have_counts(size, indexes, leaves.len(), proof.len()) {
        return Ok(false);
    }
    let (hashed, _) = hash_known(hasher, size, levels_above(size), 0, indexes, leaves, proof)?;
    Ok(are_same(digest_known(indexes, leaves, proof, &hashed), root))
}
