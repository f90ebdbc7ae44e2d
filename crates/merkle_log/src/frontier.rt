//! Frontiers: the roots of the complete trees of a list, which are all that its root and its growth need.

ghost use Rattle.std.specs.List.{flat_map};
ghost use Rattle.std.specs.Prelude.{◌≡◌, ◌⊎◌, ◌<◌, ◌≤◌, ◌+◌, ◌^◌, ◌%◌, ◌/◌, ◌++◌, ◌∷◌, ℕ, List, [], length, map, take, count_ones, IfOk, IfErr, OnOk, OnErr, Ok};
ghost use Rattle.ark_base.specs.declared.error.Error.TheVariants.{OutOfMemory};
ghost use Rattle.ark_base.specs.Outcome.{Answers, AnswersBy, Outcome};
ghost use Rattle.ark_base.specs.Spelling.{word};
ghost use Rattle.merkle_log.specs.Frontier.{FrontierValue, HasPeaks, IsFrontier, RefusesPeak, frontier_in, peaks_in};
ghost use Rattle.ark_paths.specs.Pair.{Digest};
ghost use Rattle.ark_paths.specs.Rows.{digests_of};
ghost use Rattle.merkle_log.specs.Log.{merkle_tree_hash};

use crate::digests::copy_of;
use crate::received::read_digests;
use ark_base::error::Error;
use ark_base::serialize::{CanonicalDeserialize, CanonicalSerialize, DigestItem};
use ark_paths::hasher::TreeHasher;
use std::alloc::Global;
use std::marker::Model;

/// The roots of the complete trees into which a list of digests falls, the largest first: at most 64 digests, whatever the
/// list's length.
#[derive(Drop)]
pub struct Frontier<D: DigestItem, T: TreeHasher<D, D>> {
    hasher: T,
    empty: D,
    pub(crate) size: u64,
    pub(crate) peaks: Vec<D>,
}

impl<D: DigestItem, T: TreeHasher<D, D>> Model for Frontier<D, T> {
    ghost Value = { FrontierValue T };

    ghost view = { λ frontier. record {
      hasher = frontier.hasher;
      empty = D.numbers frontier.empty;
      size = frontier.size;
      peaks = digests_of D.numbers frontier.peaks;
    } };

    ghost invariant = { λ frontier. length frontier.peaks.items ≡ count_ones frontier.size };
}

// What a digest behind a row of so many makes of the row's last peaks, and how many peaks are left before it.
fn merge<D: DigestItem, T: TreeHasher<D, D>>(
    alloc: Global,
    hasher: &T,
    peaks: &[D],
    size: u64,
    digest: D,
) -> Result<(usize, D), Error>
    requires count { length peaks.now ≡ count_ones size }
    requires fits { size + 1 < 2 ^ 64 }
    ensures merged { IfOk result (λ merged. (row : List (Outcome Digest)) → length row ≡ size
        → HasPeaks (T.hashes hasher.now).pair.upper row (map D.numbers peaks.now)
        → HasPeaks (T.hashes hasher.now).pair.upper (row ++ (Ok (D.numbers digest) ∷ []))
        (take merged.0 (map D.numbers peaks.now) ++ (D.numbers merged.1 ∷ []))) }
    ensures count { IfOk result (λ merged. merged.0 + 1 ≡ count_ones (size + 1)) }
    ensures within { IfOk result (λ merged. merged.0 ≤ length peaks.now) }
    ensures refused { IfErr result (λ error. (error ≡ OutOfMemory)
        ⊎ RefusesPeak (T.hashes hasher.now).pair.upper size (map D.numbers peaks.now)
        (D.numbers digest) error) }
{
    let mut last = digest;
    let mut left = peaks.len();
    let mut count = size;
    'odd: while count % 2 == 1 {
        left -= 1;
        last = hasher.upper(alloc, &peaks[left], &last)?;
        count /= 2;
    }
    Ok((left, last))
}

// Reads a count of digests and the roots of their complete trees.
fn read_counted_peaks<D: DigestItem>(alloc: Global, bytes: &[u8]) -> Result<(u64, Vec<D>), Error>
    ensures read { AnswersBy (λ read. (read.0, digests_of D.numbers read.1)) (peaks_in D.reads
        (λ value. D.numbers_of (D.spelling value)) bytes.now) result }
    ensures count { IfOk result (λ read. length read.1.items ≡ count_ones read.0) }
{
    let (size, used) = u64::deserialize(alloc, bytes)?;
    let peaks = read_digests(alloc, &bytes[used..], size.count_ones() as u64)?;
    Ok((size, peaks))
}

impl<D: DigestItem, T: TreeHasher<D, D>> Frontier<D, T> {
    /// Returns the frontier of no digests, whose root is given.
    pub fn new(alloc: Global, hasher: T, empty: D) -> Frontier<D, T>
        ensures { result ≡ record {
          hasher = hasher;
          empty = D.numbers empty;
          size = 0;
          peaks = [];
        } }
    {
        Frontier {
            hasher,
            empty,
            size: 0,
            peaks: Vec::new(alloc),
        }
    }

    /// Writes the canonical bytes: the count in eight bytes, the least first, and the roots, the largest tree's first.
    ///
    /// The only error is `OutOfMemory`.
    pub fn to_bytes(&self, alloc: Global) -> Result<Vec<u8>, Error>
        ensures written { IfOk result
            (λ written. written.items ≡ word self.now.size ++ flat_map D.bytes_of self.now.peaks) }
        ensures refused { IfErr result (λ error. error ≡ OutOfMemory) }

        // With the same hasher and root of no digests they are read again as this frontier.
        ensures again { IfOk result
            (λ written. frontier_in D.reads (λ value. D.numbers_of (D.spelling value))
            self.now.hasher self.now.empty written.items ≡ Ok self.now) }
    {
        let mut bytes = Vec::new(alloc);
        self.size.serialize(&mut bytes)?;
        D::serialize_items(&self.peaks, &mut bytes)?;
        Ok(bytes)
    }

    /// Returns how many digests there are.
    pub fn size(&self) -> u64
        ensures { result ≡ self.now.size }
    {
        self.size
    }

    /// Puts a digest behind the others.
    ///
    /// Errors, which leave the frontier as it was: that of the first pair that the hash refuses; `OutOfMemory`.
    pub fn append(&mut self, alloc: Global, digest: D) -> Result<(), Error>
        requires { self.old.size + 1 < 2 ^ 64 }

        // The frontier of a list of digests becomes that of the list with one more.
        ensures appended { let hash = (T.hashes self.old.hasher).pair.upper in
            OnOk result ((digests : List Digest)
            → IsFrontier hash digests self.old.size self.old.peaks
            → let more = digests ++ (D.numbers digest ∷ []) in
            IsFrontier hash more self.new.size self.new.peaks) }
        ensures hasher { self.new.hasher ≡ self.old.hasher }
        ensures empty { self.new.empty ≡ self.old.empty }
        ensures kept { OnErr result (self.new ≡ self.old) }
        ensures refused { IfErr result (λ error. (error ≡ OutOfMemory)
            ⊎ RefusesPeak (T.hashes self.old.hasher).pair.upper self.old.size self.old.peaks
            (D.numbers digest) error) }
    {
        self.append_subtree(alloc, 0, digest)
    }

    /// Puts a complete tree of 2 ^ level digests behind the others, by its root, whoever computed it.
    ///
    /// Errors, which leave the frontier as it was: that of the first pair that the hash refuses; `OutOfMemory`.
    pub fn append_subtree(&mut self, alloc: Global, level: u32, root: D) -> Result<(), Error>
        requires fits { self.old.size + 2 ^ level < 2 ^ 64 }
        requires aligned { self.old.size % 2 ^ level ≡ 0 }

        // The frontier of a list of digests becomes that of the list with those of the tree behind.
        ensures appended { let hash = (T.hashes self.old.hasher).pair.upper in
            OnOk result ((digests more : List Digest)
            → IsFrontier hash digests self.old.size self.old.peaks
            → length more ≡ 2 ^ level
            → merkle_tree_hash hash self.old.empty more ≡ Ok (D.numbers root)
            → IsFrontier hash (digests ++ more) self.new.size self.new.peaks) }
        ensures size { OnOk result (self.new.size ≡ self.old.size + 2 ^ level) }
        ensures hasher { self.new.hasher ≡ self.old.hasher }
        ensures empty { self.new.empty ≡ self.old.empty }
        ensures kept { OnErr result (self.new ≡ self.old) }
        ensures refused { IfErr result (λ error. (error ≡ OutOfMemory)
            ⊎ RefusesPeak (T.hashes self.old.hasher).pair.upper (self.old.size / 2 ^ level)
            self.old.peaks (D.numbers root) error) }
    {
        let (left, last) = merge(alloc, &self.hasher, &self.peaks, self.size >> level, root)?;
        self.peaks.reserve(1)?;
        self.peaks.truncate(left);
        self.peaks.push_reserved(last);
        self.size += 1 << level;
        Ok(())
    }

    /// Returns the root of the digests: MTH(D). Errors: that of the hash; `OutOfMemory`.
    pub fn root(&self, alloc: Global) -> Result<D, Error>
        ensures { let hash = (T.hashes self.now.hasher).pair.upper in
            (digests : List Digest) → IsFrontier hash digests self.now.size self.now.peaks
            → AnswersBy D.numbers (merkle_tree_hash hash self.now.empty digests) result }
    {
        if self.peaks.is_empty() {
            return copy_of(alloc, &self.empty);
        }
        fold_peaks(alloc, &self.hasher, &self.peaks)
    }
}

impl<D: DigestItem, T: TreeHasher<D, D> + Drop> Frontier<D, T> {
    /// Reads a frontier from the bytes that `to_bytes` writes. At most 64 digests are read.
    ///
    /// Errors: `Truncated` for bytes of fewer digests than the count has ones, `InvalidData` for more bytes, and for digests
    /// that are none; `OutOfMemory`. Whether some list has these roots is not known.
    pub fn from_bytes(
        alloc: Global,
        hasher: T,
        empty: D,
        bytes: &[u8],
    ) -> Result<Frontier<D, T>, Error>
        ensures { Answers (frontier_in D.reads (λ value. D.numbers_of (D.spelling value)) hasher
            (D.numbers empty) bytes.now) result }
    {
        let (size, peaks) = read_counted_peaks(alloc, bytes)?;
        Ok(Frontier {
            hasher,
            empty,
            size,
            peaks,
        })
    }
}

// The root of peaks, of which there is one at least.
fn fold_peaks<D: DigestItem, T: TreeHasher<D, D>>(
    alloc: Global,
    hasher: &T,
    peaks: &[D],
) -> Result<D, Error>
    requires { 0 < length peaks.now }
    ensures { (empty : Digest) (digests : List Digest) (size : ℕ)
        → IsFrontier (T.hashes hasher.now).pair.upper digests size (map D.numbers peaks.now)
        → AnswersBy D.numbers (merkle_tree_hash (T.hashes hasher.now).pair.upper empty digests)
        result }
{
    let mut left = peaks.len() - 1;
    let mut last = copy_of(alloc, &peaks[left])?;
    'left: while left > 0 {
        left -= 1;
        last = hasher.upper(alloc, &peaks[left], &last)?;
    }
    Ok(last)
}
