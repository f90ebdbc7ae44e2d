//! The multi-proofs that are read of a log's rows. They are written to a list of the caller's, which has as many places as they
//! have digests.

ghost use Rattle.std.specs.Prelude.{◌≡◌, ◌<◌, ◌≤◌, ◌+◌, ◌*◌, ◌^◌, ℕ, true, length, map, take, IfOk, Ok};
ghost use Rattle.ark_paths.specs.Pair.{Digest};
ghost use Rattle.merkle_log.specs.Edge.{all_of};
ghost use Rattle.merkle_log.specs.Given.{GivesBy};
ghost use Rattle.merkle_log.specs.Multi.{are_multi_indexes, count_around, HoldsAll, multi_length, multi_proof, place_hash, place_hashes, put_behind};
ghost use Rattle.merkle_log.specs.Stored.{row_at, IsStored};

use crate::multi_parts::{count_below, is_complete, levels_above, middle_of};
use crate::nodes::NodeHasher;
use crate::rows::Rows;
use ark_base::serialize::DigestItem;

// Returns the digest of a place of the first leaves: its row has it where the place is complete, and else it is hashed. It recurs
// once a level.
fn digest_at<D: DigestItem, R: Rows<D>, H: NodeHasher<D>>(
    hasher: &mut H,
    rows: &R,
    size: usize,
    level: usize,
    place: usize,
) -> Result<D, H::Refusal>
    requires level { level ≤ 64 }
    requires inside { place * 2 ^ level < size }
    requires within { size ≤ length (row_at (R.stored rows.now) 0) }
    requires held { HoldsAll (R.Holds rows.now) size }
    ensures digest { IsStored (H.hash hasher.old) (row_at (R.stored rows.now)) → (empty : Digest)
        → GivesBy H.why D.numbers (place_hash (H.hash hasher.old) empty level place
        (take size (row_at (R.stored rows.now) 0))) result }
    ensures same { H.hash hasher.new ≡ H.hash hasher.old }
{
    if is_complete(size, level, place) {
        return hasher.copied(rows.at(level, place));
    }
    let below = level - 1;
    let bound = middle_of(below, place);
    if bound >= size {
        return digest_at(hasher, rows, size, below, 2 * place);
    }
    let last = digest_at(hasher, rows, size, below, 2 * place + 1)?;
    hasher.node(rows.at(below, 2 * place), &last)
}

// Writes the digests around indexes below a place to the places of `proof` from `at` on, and returns the next place. It recurs
// once a level.
fn put_around<D: DigestItem, R: Rows<D>, H: NodeHasher<D>>(
    hasher: &mut H,
    rows: &R,
    size: usize,
    level: usize,
    place: usize,
    indexes: &[usize],
    proof: &mut [D],
    at: usize,
) -> Result<usize, H::Refusal>
    requires level { level ≤ 64 }
    requires inside { place * 2 ^ level < size }
    requires within { size ≤ length (row_at (R.stored rows.now) 0) }
    requires held { HoldsAll (R.Holds rows.now) size }
    requires room { at + count_around size level place indexes.now ≤ length proof.old }
    requires fits { length proof.old < 2 ^ 64 }
    ensures put { IsStored (H.hash hasher.old) (row_at (R.stored rows.now)) → (empty : Digest)
        → GivesBy H.why (λ next. map D.numbers (take next proof.new))
        (put_behind (map D.numbers (take at proof.old)) (place_hashes (H.hash hasher.old) empty
        level place indexes.now (take size (row_at (R.stored rows.now) 0)))) result }
    ensures next { IfOk result (λ next. next ≡ at + count_around size level place indexes.now) }
    ensures long { length proof.new ≡ length proof.old }
    ensures same { H.hash hasher.new ≡ H.hash hasher.old }
{
    if indexes.is_empty() {
        proof[at] = digest_at(hasher, rows, size, level, place)?;
        return Ok(at + 1);
    }
    if level == 0 {
        return Ok(at);
    }
    let below = level - 1;
    let bound = middle_of(below, place);
    if bound >= size {
        return put_around(hasher, rows, size, below, 2 * place, indexes, proof, at);
    }
    let count = count_below(bound, indexes);
    let first = &indexes[..count];
    let next = put_around(hasher, rows, size, below, 2 * place, first, proof, at)?;
    put_around(
        hasher,
        rows,
        size,
        below,
        2 * place + 1,
        &indexes[count..],
        proof,
        next,
    )
}

/// Writes the multi-proof of indexes of the first digests to `proof`. It asks for complete places, and hashes the pairs of the one
/// subtree in the proof that may be incomplete.
pub fn multi_proof_of<D: DigestItem, R: Rows<D>, H: NodeHasher<D>>(
    hasher: &mut H,
    rows: &R,
    size: usize,
    indexes: &[usize],
    proof: &mut [D],
) -> Result<(), H::Refusal>
    requires indexes { are_multi_indexes size indexes.now ≡ true }
    requires within { size ≤ length (row_at (R.stored rows.now) 0) }
    requires held { HoldsAll (R.Holds rows.now) size }
    requires room { length proof.old ≡ multi_length size indexes.now }
    ensures { IsStored (H.hash hasher.old) (row_at (R.stored rows.now)) → (empty : Digest)
        → GivesBy H.why (λ _. map D.numbers proof.new)
        (all_of (multi_proof (H.hash hasher.old) empty indexes.now
        (take size (row_at (R.stored rows.now) 0)))) result }
{
    put_around(hasher, rows, size, levels_above(size), 0, indexes, proof, 0)?;
    Ok(())
}
