//! Proofs that come as bytes, in the hands of whoever has a root and the count of leaves alone.

ghost use Rattle.std.specs.Prelude.{◌≡◌, ◌==◌, ◌&&◌, nat_lt, true, Bool, ℕ, [], length, map, get_or, IfOk, IsOkUnless, Ok};
ghost use Rattle.std.specs.Str.{bytes_eq};
ghost use Rattle.ark_base.specs.declared.error.Error.TheVariants.{OutOfMemory};
ghost use Rattle.ark_base.specs.Outcome.{Answers, AnswersBy};
ghost use Rattle.ark_paths.specs.Index.{IsTreeSize};
ghost use Rattle.ark_paths.specs.MultiPath.{multi_verdict};
ghost use Rattle.ark_paths.specs.Received.{is_fit, received_multi_path, received_multi_verdict, received_path, received_verdict, ShowsLeaf, ShowsLeaves};

use crate::config::{LeafParam, TwoToOneParam};
use crate::hasher::ConfigHasher;
use crate::index::{is_tree_size, levels_between};
use crate::multi_path::MultiPath;
use crate::multi_path::levels::find_accepted;
use crate::multi_path::places::first_length;
use crate::path::Path;
use crate::views::Values;
use ark_base::error::{Error, SerializationError};
use ark_base::serialize::{CanonicalDeserialize, rest_of};
use std::alloc::Global;

// The refusals of a proof that was read, for a tree of this size.
fn is_fit(size: usize, behind: &[u8], above: usize, is_asked: bool) -> Result<(), Error>
    requires { IsTreeSize size }
    ensures { result ≡ is_fit size behind.now above is_asked }
{
    if !behind.is_empty() {
        return Err(Error::SerializationError(SerializationError::InvalidData));
    }
    if above != levels_between(size) {
        return Err(Error::IncorrectInputLength(above));
    }
    if !is_asked {
        return Err(Error::SerializationError(SerializationError::InvalidData));
    }
    Ok(())
}

// Whether an index is the one that was asked for, and below the size.
fn is_asked(own: usize, index: usize, size: usize) -> bool
    ensures { result ≡ ((own == index) && nat_lt index size) }
{
    own == index && index < size
}

impl<P: Values> Path<P> {
    /// Returns the path of an index in a tree of `size` leaves, which the bytes spell, all of them: for a client, who
    /// was sent the bytes and knows size and index.
    ///
    /// Errors, the first that applies: `IncorrectInputLength(size)` where the size is no power of two above one; the
    /// first fault of the bytes from the left, as `deserialize`; `InvalidData` where bytes are left;
    /// `IncorrectInputLength` with the length of `auth_path` where it is not the logarithm of the size less one;
    /// `InvalidData` where the path's own index is another one or not below the size; `OutOfMemory`.
    pub fn read_at(alloc: Global, bytes: &[u8], size: usize, index: usize) -> Result<Path<P>, Error>
        ensures { AnswersBy P.way (received_path size index (P.path_reading bytes.now)) result }
    {
        if !is_tree_size(size) {
            return Err(Error::IncorrectInputLength(size));
        }
        let (path, used) = Path::<P>::deserialize(alloc, bytes)?;
        let is_asked = is_asked(path.leaf_index, index, size);
        is_fit(size, rest_of(bytes, used), path.auth_path.len(), is_asked)?;
        Ok(path)
    }

    /// Returns whether the bytes of a path show a leaf at an index to whoever has the root of a tree of `size` leaves
    /// alone.
    ///
    /// Errors: those of `read_at`, then those of `verify`. Whoever keeps a root and is sent proofs takes this call:
    /// `verify` alone takes a path of any length and any index.
    pub fn verify_bytes(
        alloc: Global,
        leaf_parameters: &LeafParam<P>,
        pair_parameters: &TwoToOneParam<P>,
        root: &P::InnerDigest,
        size: usize,
        index: usize,
        bytes: &[u8],
        leaf: &P::Leaf,
    ) -> Result<bool, Error>
        ensures answer { Answers (received_verdict
            (P.hashes leaf_parameters.now pair_parameters.now) (P.InnerDigest.numbers root.now) size
            index leaf.now (P.path_reading bytes.now)) result }

        // In every tree with this root and size the leaf's digest stands at the index, or at some level the path's pair and
        // the tree's differ and hash alike.
        ensures bound { IfOk result (λ accepted. accepted ≡ true
            → ShowsLeaf (P.hashes leaf_parameters.now pair_parameters.now)
            (P.InnerDigest.numbers root.now) size index leaf.now (P.path_reading bytes.now)) }
    {
        let path = Path::<P>::read_at(alloc, bytes, size, index)?;
        path.verify(alloc, leaf_parameters, pair_parameters, root, leaf)
    }
}

// The refusals of a multi-proof that was read, of these suffixes and own indexes, where some indexes are asked for.
fn is_fit_for<D>(
    size: usize,
    behind: &[u8],
    suffixes: &[Vec<D>],
    own: &[usize],
    indexes: &[usize],
) -> Result<(), Error>
    requires { IsTreeSize size }
    ensures { result ≡ is_fit size behind.now
        (length (get_or (map (λ list. list.items) suffixes.now) 0 []))
        (bytes_eq own.now indexes.now) }
{
    is_fit(size, behind, first_length(suffixes), own == indexes)
}

impl<P: Values> MultiPath<P> {
    /// Returns the strict multi-proof of some indexes in a tree of `size` leaves, which the bytes spell, all of them:
    /// as `Path::read_at`, of many indexes at once, which rise.
    ///
    /// Errors, the first that applies: `IncorrectInputLength(size)` where the size is no power of two above one; those
    /// of `read_strict`; `InvalidData` where bytes are left; `IncorrectInputLength` with the length of the first suffix
    /// where it is not the logarithm of the size less one; `InvalidData` where the proof's own indexes are others;
    /// `OutOfMemory`.
    pub fn read_strict_at(
        alloc: Global,
        bytes: &[u8],
        size: usize,
        indexes: &[usize],
    ) -> Result<MultiPath<P>, Error>
        ensures { AnswersBy P.multi_way (received_multi_path size indexes.now
            (P.multi_path_reading bytes.now)) result }
    {
        if !is_tree_size(size) {
            return Err(Error::IncorrectInputLength(size));
        }
        let (proof, used) = MultiPath::<P>::read_strict(alloc, bytes)?;
        is_fit_for(
            size,
            rest_of(bytes, used),
            &proof.auth_paths_suffixes,
            &proof.leaf_indexes,
            indexes,
        )?;
        Ok(proof)
    }

    // Whether all leaves are found to be accepted, a level at a time. `false` says nothing of them. The only error is
    // `OutOfMemory`.
    fn is_found(
        &self,
        alloc: Global,
        leaf_parameters: &LeafParam<P>,
        pair_parameters: &TwoToOneParam<P>,
        root: &P::InnerDigest,
        leaves: &[P::Leaf],
    ) -> Result<bool, Error>
        ensures sound { let hashes = P.hashes leaf_parameters.now pair_parameters.now in
            IfOk result (λ found. found ≡ true → multi_verdict hashes.pair
            (map hashes.leaf leaves.now) (P.multi_way self.now) (P.InnerDigest.numbers root.now)
            ≡ Ok true) }
        ensures memory { IsOkUnless result OutOfMemory }
    {
        let hasher = ConfigHasher::<P>::new(leaf_parameters, pair_parameters);
        let found = find_accepted(
            alloc,
            &hasher,
            root,
            leaves,
            &self.leaf_siblings_hashes,
            &self.auth_paths_prefix_lenghts,
            &self.auth_paths_suffixes,
            &self.leaf_indexes,
        );
        match found {
            Ok(()) => Ok(true),
            Err(Error::OutOfMemory) => Err(Error::OutOfMemory),
            Err(_) => Ok(false),
        }
    }

    /// Returns whether the bytes of a strict multi-proof show leaves at these indexes, in their order, to whoever has
    /// the root of a tree of `size` leaves alone.
    ///
    /// Errors: those of `read_strict_at`, then those of `verify`. Leaves past the last index are ignored. The couples of
    /// a level are hashed together; where not all leaves are accepted so, it acts as `verify` from the first leaf on.
    pub fn verify_bytes(
        alloc: Global,
        leaf_parameters: &LeafParam<P>,
        pair_parameters: &TwoToOneParam<P>,
        root: &P::InnerDigest,
        size: usize,
        indexes: &[usize],
        bytes: &[u8],
        leaves: &[P::Leaf],
    ) -> Result<bool, Error>
        ensures answer { Answers (received_multi_verdict
            (P.hashes leaf_parameters.now pair_parameters.now) (P.InnerDigest.numbers root.now) size
            indexes.now leaves.now (P.multi_path_reading bytes.now)) result }

        // Each leaf's digest stands at its index, as in `Path::verify_bytes`.
        ensures bound { IfOk result (λ accepted. accepted ≡ true
            → ShowsLeaves (P.hashes leaf_parameters.now pair_parameters.now)
            (P.InnerDigest.numbers root.now) size indexes.now leaves.now
            (P.multi_path_reading bytes.now)) }
    {
        let proof = MultiPath::<P>::read_strict_at(alloc, bytes, size, indexes)?;
        if proof.is_found(alloc, leaf_parameters, pair_parameters, root, leaves)? {
            return Ok(true);
        }
        proof.verify(alloc, leaf_parameters, pair_parameters, root, leaves.iter())
    }
}
