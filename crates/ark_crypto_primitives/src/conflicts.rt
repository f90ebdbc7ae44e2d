//! Conflicts: two different leaves that are accepted at one index under one root of a tree over Pedersen's or a
//! Bowe-Hopwood hash.
//!
//! They give a relation among the elements of the hashes. Where nobody knows one, nobody can make a conflict.

ghost use Rattle.std.specs.Prelude.{◌≡◌, ◌≤◌, ◌^◌, ℕ, true, IfOk};
ghost use Rattle.ark_base.specs.Outcome.{Answers};
ghost use Rattle.ark_pedersen.specs.Pedersen.{generators_in};
ghost use Rattle.ark_crypto_primitives.specs.Conflicts.{shown_leaf, conflict_verdict};
ghost use Rattle.ark_crypto_primitives.specs.NodeConflicts.{NodeConflictsGiveRelations};
ghost use Rattle.ark_crypto_primitives.specs.TreeRelations.{digest_view, pedersen_tree};
ghost use Rattle.ark_crypto_primitives.specs.TreeRelations.{HaveWidth, PointConflictsGiveRelations};
ghost use Rattle.ark_crypto_primitives.specs.TreeRelations.{GivePedersenRelations};
ghost use Rattle.ark_crypto_primitives.specs.TreeRelations.{PedersenConflictsGiveRelations};
ghost use Rattle.ark_crypto_primitives.specs.TreeRelations.{BoweHopwoodConflictsGiveRelations};

use ark_absorb::Absorb;
use ark_base::error::Error;
use ark_base::serialize::{DigestItem, Numbered};
use ark_groups::ec::{AdditiveGroup, ToldByX};
use ark_groups::ff::Field;
use ark_paths::config::{ByteDigestConverter, Config};
use ark_paths::path::Path;
use ark_pedersen::injective_map::{
    InjectiveMap, PedersenCRHCompressor, PedersenTwoToOneCRHCompressor, TECompressor,
};
use ark_pedersen::{Parameters, Window};
use jubjub::{Jubjub, JubjubFr};
use std::alloc::Global;
use std::fmt::Debug;
use std::hash::Hash;
use std::marker::PhantomData;

/// Trees whose digests are the first coordinates of Pedersen hashes: of a leaf's bytes over the windows `W`, and of the
/// canonical bytes of two digests over the windows `V`.
pub struct CompressedTree<C: AdditiveGroup, W: Window, V: Window> {
    group: PhantomData<C>,
    leaf_windows: PhantomData<W>,
    pair_windows: PhantomData<V>,
}

impl<C: AdditiveGroup + ToldByX, W: Window, V: Window> Config for CompressedTree<C, W, V>
where
    C::BaseField: DigestItem + Absorb + Debug + Hash,
{
    type Leaf = Vec<u8>;

    type LeafDigest = C::BaseField;

    type LeafInnerDigestConverter = ByteDigestConverter<C::BaseField>;

    type InnerDigest = C::BaseField;

    type LeafHash = PedersenCRHCompressor<C, TECompressor, W>;

    type TwoToOneHash = PedersenTwoToOneCRHCompressor<C, TECompressor, V>;
}

/// States that a conflict in a tree over compressed Pedersen hashes gives a relation that is not trivial: among the elements
/// of the leaves' hash by the coefficients of the two leaves, or among those of the pairs' hash by the coefficients of the
/// pairs that both paths have at a level. Each number of a window stays below the order (`windows_fit`).
pub fn pedersen_trees_bind<C: AdditiveGroup + ToldByX, W: Window, V: Window>()
where
    C::BaseField: DigestItem,
    ensures { let order = C.ScalarField.MODULUS in
        let view = digest_view
        C.BaseField.numbers C.BaseField.numbers_of C.BaseField.bytes_of in
        PedersenConflictsGiveRelations C.group order W.Window V.Window
        ⟦<TECompressor as InjectiveMap<C>>⟧.image view }
{}

/// States the same of trees whose digests are the elements that Pedersen hashes are, where the canonical bytes of all
/// elements are as many.
pub fn point_trees_bind<C: AdditiveGroup + DigestItem, W: Window, V: Window>()
    ensures { let view = digest_view C.numbers C.numbers_of C.bytes_of in
        (width : ℕ) → HaveWidth view width
        → PointConflictsGiveRelations C.group C.ScalarField.MODULUS W.Window V.Window view }
{}

/// States the same of trees whose digests are elements of Jubjub, where nothing is left to ask: each has 64 canonical bytes.
pub fn jubjub_trees_bind<W: Window, V: Window>()
    ensures { let view = digest_view ⟦<Jubjub as Numbered>⟧.numbers
        ⟦<Jubjub as DigestItem>⟧.numbers_of ⟦<Jubjub as DigestItem>⟧.bytes_of in
        PointConflictsGiveRelations ⟦<Jubjub as AdditiveGroup>⟧.group
        ⟦<JubjubFr as Field>⟧.MODULUS W.Window V.Window view }
{
    point_trees_bind::<Jubjub, W, V>();
}

/// States the same of trees over Bowe-Hopwood hashes, whose coefficients are whole numbers, at parameters as `setup` makes
/// them: the order does not divide all of them.
pub fn bowe_hopwood_trees_bind<C: AdditiveGroup + ToldByX, W: Window, V: Window>()
where
    C::BaseField: DigestItem,
    ensures { let order = C.ScalarField.MODULUS in
        let view = digest_view
        C.BaseField.numbers C.BaseField.numbers_of C.BaseField.bytes_of in
        BoweHopwoodConflictsGiveRelations C.group order C.x W.Window V.Window view }
{}

/// States the same of trees of a fixed depth over the hash of two nodes and their level, as `verify_rising` checks their paths
/// with `NodeLevels`: two different leaves at one index under one root give a relation by the couples of nodes that both
/// ways have at a level. Numbers of the field have 255 bits, and the segments room for both nodes, as Sapling's.
pub fn node_trees_bind<C: AdditiveGroup + ToldByX, W: Window>()
    ensures { let order = C.ScalarField.MODULUS in
        C.BaseField.MODULUS ≤ 2 ^ 255
        → NodeConflictsGiveRelations C.BaseField.numbers C.group order C.x W.Window }
{}

/// Returns whether two leaves are in conflict: they differ and have one length, and their paths have one index and one
/// length and lead to the root.
///
/// Errors: that of `Path::verify` for the left leaf, then that for the right one; none where the leaves or the paths are
/// not so alike.
pub fn is_conflict<C: AdditiveGroup + ToldByX, W: Window, V: Window>(
    alloc: Global,
    leaf_parameters: &Parameters<C>,
    pair_parameters: &Parameters<C>,
    root: &C::BaseField,
    left: &Vec<u8>,
    left_path: &Path<CompressedTree<C, W, V>>,
    right: &Vec<u8>,
    right_path: &Path<CompressedTree<C, W, V>>,
) -> Result<bool, Error>
where
    C::BaseField: DigestItem + Absorb + Debug + Hash,
    ensures answer { let image = ⟦<TECompressor as InjectiveMap<C>>⟧.image in
        let view = digest_view
        C.BaseField.numbers C.BaseField.numbers_of C.BaseField.bytes_of in
        let tree = pedersen_tree C.group W.Window V.Window image view
        (generators_in leaf_parameters.now) (generators_in pair_parameters.now) in
        let p = left_path.now in
        let q = right_path.now in
        Answers (conflict_verdict tree (C.BaseField.numbers root.now)
        (shown_leaf left.now.items p.leaf_sibling_hash p.auth_path.items p.leaf_index)
        (shown_leaf right.now.items q.leaf_sibling_hash q.auth_path.items q.leaf_index)) result }

    // Leaves in conflict give a relation among the elements of the parameters.
    ensures relation { let image = ⟦<TECompressor as InjectiveMap<C>>⟧.image in
        let view = digest_view
        C.BaseField.numbers C.BaseField.numbers_of C.BaseField.bytes_of in
        let p = left_path.now in
        let q = right_path.now in
        IfOk result (λ found. found ≡ true
        → GivePedersenRelations C.group C.ScalarField.MODULUS W.Window V.Window image view
        (generators_in leaf_parameters.now) (generators_in pair_parameters.now)
        (shown_leaf left.now.items p.leaf_sibling_hash p.auth_path.items p.leaf_index)
        (shown_leaf right.now.items q.leaf_sibling_hash q.auth_path.items q.leaf_index)) }
{
    pedersen_trees_bind::<C, W, V>();
    verdict_of(
        alloc,
        leaf_parameters,
        pair_parameters,
        root,
        left,
        left_path,
        right,
        right_path,
    )
}

// Whether two leaves are in conflict.
fn verdict_of<C: AdditiveGroup + ToldByX, W: Window, V: Window>(
    alloc: Global,
    leaf_parameters: &Parameters<C>,
    pair_parameters: &Parameters<C>,
    root: &C::BaseField,
    left: &Vec<u8>,
    left_path: &Path<CompressedTree<C, W, V>>,
    right: &Vec<u8>,
    right_path: &Path<CompressedTree<C, W, V>>,
) -> Result<bool, Error>
where
    C::BaseField: DigestItem + Absorb + Debug + Hash,
    ensures { let image = ⟦<TECompressor as InjectiveMap<C>>⟧.image in
        let view = digest_view
        C.BaseField.numbers C.BaseField.numbers_of C.BaseField.bytes_of in
        let tree = pedersen_tree C.group W.Window V.Window image view
        (generators_in leaf_parameters.now) (generators_in pair_parameters.now) in
        let p = left_path.now in
        let q = right_path.now in
        Answers (conflict_verdict tree (C.BaseField.numbers root.now)
        (shown_leaf left.now.items p.leaf_sibling_hash p.auth_path.items p.leaf_index)
        (shown_leaf right.now.items q.leaf_sibling_hash q.auth_path.items q.leaf_index)) result }
{
    if left.len() != right.len()
        || left == right
        || left_path.leaf_index != right_path.leaf_index
        || left_path.auth_path.len() != right_path.auth_path.len()
    {
        return Ok(false);
    }
    Ok(
        left_path.verify(alloc, leaf_parameters, pair_parameters, root, left)?
            && right_path.verify(alloc, leaf_parameters, pair_parameters, root, right)?,
    )
}
