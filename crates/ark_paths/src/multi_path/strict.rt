//! Strict multi-proofs: those with one spelling.

ghost use Rattle.std.specs.Prelude.{◌≡◌, ◌==◌, true, ◌+◌, ◌^◌, ◌++◌, ◌&&◌, ◌≤◌, ℕ, List, [], length, map, drop, take, nat_lt, IfOk, MatchResult, Ok, Some};
ghost use Rattle.std.specs.List.{list_all};
ghost use Rattle.ark_base.specs.declared.error.Error.TheVariants.{SerializationError as OfBytes};
ghost use Rattle.ark_base.specs.declared.error.SerializationError.TheVariants.{InvalidData};
ghost use Rattle.ark_base.specs.Outcome.{Answers, AnswersBy, IsMemory};
ghost use Rattle.ark_base.specs.Reading.{Spells, reading_outcome};
ghost use Rattle.ark_paths.specs.MultiPath.{MultiWay, decoded_paths, listed_way};
ghost use Rattle.ark_paths.specs.MultiPathStrict.{AreInOrder, are_rising, are_longest, is_strict, strict_reading};
ghost use Rattle.ark_paths.specs.Received.{provided};
ghost use Rattle.ark_paths.specs.Sharing.{shared_count};
ghost use Rattle.ark_paths.specs.Pair.{Digest};
ghost use Rattle.ark_paths.specs.Path.{Way};
ghost use Rattle.ark_paths.specs.Rows.{digests_of};

use crate::multi_path::MultiPath;
use crate::multi_path::places::{extend, first_length, is_sum};
use crate::views::Values;
use ark_base::error::{Error, SerializationError};
use ark_base::serialize::{Canonical, CanonicalDeserialize, DigestItem, Numbered};
use std::alloc::Global;

impl<P: Values> MultiPath<P> {
    /// Returns the strict multi-proof that the front of the bytes spells, and the count of bytes read. It is for
    /// whoever compares, signs or counts multi-proofs by their bytes: those that `deserialize` reads can spell the same
    /// paths in other bytes.
    ///
    /// Strict is a multi-proof with an index, four lists of one length, indexes that rise and are below 2^(k + 1) with
    /// k the first suffix's length, in which every place decodes and each prefix is the longest that its path has in
    /// common with the path before (0 at the first). Errors: those of `deserialize`, else `InvalidData`; `OutOfMemory`.
    pub fn read_strict(alloc: Global, bytes: &[u8]) -> Result<(MultiPath<P>, usize), Error>
        ensures within { IfOk result (λ read. read.1 ≤ length bytes.now) }

        // What the plain reader gives, where it is strict; else which refusal it is.
        ensures exact { AnswersBy (λ read. (P.multi_way read.0, drop read.1 bytes.now))
            (reading_outcome (strict_reading (P.multi_path_reading bytes.now))) result }

        ensures strict { IfOk result (λ read. is_strict (P.multi_way read.0) ≡ true) }

        // What is read is spelled so.
        ensures spelled { IfOk result (λ read.
            take read.1 bytes.now ≡ P.multi_path_bytes (P.multi_way read.0)) }

        // A strict multi-proof that a front of the bytes spells is read, whatever follows it.
        ensures only { (proof : _) (n : ℕ) → is_strict (P.multi_way proof) ≡ true
            → n ≤ length bytes.now → (Spells ⟦<MultiPath<P> as Canonical>⟧.has_spelling
            ⟦<MultiPath<P> as Canonical>⟧.spelling) (⟦<MultiPath<P> as Canonical>⟧.view proof)
            (take n bytes.now) → MatchResult result
            (λ read. (P.multi_way read.0 ≡ P.multi_way proof) × (read.1 ≡ n)) IsMemory }

        // Two strict multi-proofs of the same paths are the same, and so are their bytes.
        ensures one_spelling { (a b : MultiWay) → is_strict a ≡ true → is_strict b ≡ true
            → decoded_paths a ≡ decoded_paths b
            → (a ≡ b) × (P.multi_path_bytes a ≡ P.multi_path_bytes b) }

        // Paths of one length at rising indexes inside a tree of that height have a strict multi-proof.
        ensures each_has_one { (k : ℕ) (ways : List Way) → AreInOrder k ways
            → (proof : MultiWay) × (is_strict proof ≡ true)
            × (decoded_paths proof ≡ map Some ways) }
    {
        let (proof, used) = MultiPath::<P>::deserialize(alloc, bytes)?;
        proof.check_strict(alloc)?;
        Ok((proof, used))
    }

    // The refusal of a multi-proof that is not strict: `InvalidData`. `OutOfMemory`.
    fn check_strict(&self, alloc: Global) -> Result<(), Error>
        ensures { Answers (provided (is_strict (P.multi_way self.now)) (OfBytes InvalidData))
            result }
    {
        let is_strict = is_strict(
            alloc,
            &self.leaf_siblings_hashes,
            &self.auth_paths_prefix_lenghts,
            &self.auth_paths_suffixes,
            &self.leaf_indexes,
        )?;
        if is_strict {
            Ok(())
        } else {
            Err(Error::SerializationError(SerializationError::InvalidData))
        }
    }
}

// Whether the multi-proof of these lists is strict. The only refusal is `OutOfMemory`.
fn is_strict<S: Numbered, D: DigestItem>(
    alloc: Global,
    siblings: &[S],
    prefixes: &[usize],
    suffixes: &[Vec<D>],
    indexes: &[usize],
) -> Result<bool, Error>
    ensures { Answers (Ok (is_strict (listed_way S.numbers D.numbers siblings.now prefixes.now
        suffixes.now indexes.now))) result }
{
    if !are_as_many(siblings, prefixes, suffixes, indexes) {
        return Ok(false);
    }
    if !are_placed(indexes, first_length(suffixes)) {
        return Ok(false);
    }
    are_longest(alloc, prefixes, suffixes)
}

// Whether there is an index, and the lists are as long as that of the indexes.
fn are_as_many<S, D>(
    siblings: &[S],
    prefixes: &[usize],
    suffixes: &[Vec<D>],
    indexes: &[usize],
) -> bool
    ensures { result ≡ (nat_lt 0 (length indexes.now) && (length siblings.now == length indexes.now)
        && (length prefixes.now == length indexes.now) &&
        (length suffixes.now == length indexes.now)) }
{
    let count = indexes.len();
    count > 0 && siblings.len() == count && prefixes.len() == count && suffixes.len() == count
}

// Whether numbers rise.
fn are_rising(numbers: &[usize]) -> bool
    ensures { result ≡ are_rising numbers.now }
{
    for place in 1..numbers.len() {
        if numbers[place - 1] >= numbers[place] {
            return false;
        }
    }
    true
}

// Whether indexes rise, and are those of leaves in a tree whose paths have `len` digests.
fn are_placed(indexes: &[usize], len: usize) -> bool
    ensures { result ≡ (are_rising indexes.now && (list_all (λ index. nat_lt index (2 ^ (len + 1))))
        indexes.now) }
{
    are_rising(indexes) && are_inside(indexes, len)
}

// Whether all indexes are those of leaves in a tree whose paths have `len` digests.
fn are_inside(indexes: &[usize], len: usize) -> bool
    ensures { result ≡ list_all (λ index. nat_lt index (2 ^ (len + 1))) indexes.now }
{
    for index in indexes {
        if !is_inside(*index, len) {
            return false;
        }
    }
    true
}

// Whether an index is that of a leaf in such a tree. No power of two is computed, since it need not fit.
fn is_inside(index: usize, len: usize) -> bool
    ensures { result ≡ nat_lt index (2 ^ (len + 1)) }
{
    len >= 63 || index >> (len + 1) == 0
}

// Whether each place decodes, and takes from the path before as many first digests as the two have in common, whatever
// stands in the two other lists of the multi-proof. No digest is copied, and one is compared for each place.
fn are_longest<D: DigestItem>(
    alloc: Global,
    prefixes: &[usize],
    suffixes: &[Vec<D>],
) -> Result<bool, Error>
    requires { length prefixes.now ≡ length suffixes.now }
    ensures { (siblings : List Digest) (indexes : List ℕ) → length siblings ≡ length suffixes.now
        → length indexes ≡ length suffixes.now
        → let proof : MultiWay = record {
          siblings = siblings;
          prefixes = prefixes.now;
          suffixes = map (digests_of D.numbers) suffixes.now;
          indexes = indexes;
        } in
        Answers (Ok (are_longest [] prefixes.now (decoded_paths proof))) result }
{
    let mut above: Vec<&D> = Vec::new(alloc);
    for place in 0..suffixes.len() {
        let prefix = prefixes[place];
        let suffix = suffixes[place].as_slice();
        if !is_longest(&above, prefix, suffix, suffixes[0].len()) {
            return Ok(false);
        }
        extend(&mut above, prefix, suffix)?;
    }
    Ok(true)
}

// Whether a suffix and `prefix` first digests of the path before make a path of this length, and these are all that the two
// have in common.
fn is_longest<D: DigestItem>(before: &[&D], prefix: usize, suffix: &[D], len: usize) -> bool
    ensures { let given = map (λ x. D.numbers x.now) before.now in
        let digests = map D.numbers suffix.now in
        result ≡ ((prefix + length digests == len)
        && (prefix == shared_count given (take prefix given ++ digests))) }
{
    if !is_sum(len, prefix, suffix.len()) {
        return false;
    }
    if prefix >= before.len() {
        return prefix == before.len();
    }
    suffix.is_empty() || *before[prefix] != suffix[0]
}
