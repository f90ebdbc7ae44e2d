//! What contracts see of a configuration.

ghost use Rattle.std.specs.Prelude.{◌≡◌, ℕ, List, map, refl, Ok, Err};
ghost use Rattle.ark_base.specs.declared.error.SerializationError.{SerializationError};
ghost use Rattle.ark_base.specs.Reading.{Reading};
ghost use Rattle.ark_paths.specs.declared.multi_path.MultiPath.{MultiPath as OfMultiPath};
ghost use Rattle.ark_paths.specs.declared.path.Path.{Path as OfPath};
ghost use Rattle.ark_paths.specs.MultiPath.{MultiWay};
ghost use Rattle.ark_paths.specs.MultiPathBytes.{multi_bytes, multi_way_at, multi_way_of};
ghost use Rattle.ark_paths.specs.Laws.ByNumbers.{way_at-ok, way_at-err, multi_spelling-way, multi_way_at-ok, multi_way_at-err};
ghost use Rattle.ark_paths.specs.Laws.MultiPath.{multi_way_of-value};
ghost use Rattle.ark_paths.specs.Laws.Path.{way_of-value};
ghost use Rattle.ark_paths.specs.Pair.{HashPair, Hashes, pair_of};
ghost use Rattle.ark_paths.specs.Path.{Way};
ghost use Rattle.ark_paths.specs.PathBytes.{way_bytes, way_at, way_of};
ghost use Rattle.ark_paths.specs.Rows.{digests_of, rows_seen};
ghost use Rattle.ark_paths.specs.Tree.{Tree, HashedTree};

use crate::config::Config;
use crate::multi_path::MultiPath;
use crate::path::Path;
use ark_base::serialize::{Canonical, DigestItem, Numbered};

/// Hashes, trees and paths, as contracts see them. Each configuration has these views.
pub trait Views: Config {
    // What the hashes of pairs answer at some parameters.
    ghost pair: { Self.TwoToOneHash.Parameters → HashPair };

    // What all hashes answer at theirs.
    ghost hashes: { Self.LeafHash.Parameters → Self.TwoToOneHash.Parameters → Hashes Self.Leaf };

    // A tree with what its hashes answer in place of its parameters.
    ghost tree: { Tree Self.LeafHash.Parameters Self.TwoToOneHash.Parameters
        → HashedTree Self.Leaf };

    // A path by its numbers.
    ghost way: { OfPath Self Self.Leaf Self.LeafDigest Self.LeafInnerDigestConverter
        Self.InnerDigest Self.LeafHash Self.TwoToOneHash Self.LeafHash.Parameters
        Self.TwoToOneHash.Input Self.TwoToOneHash.Parameters → Way };

    // A multi-proof by its numbers.
    ghost multi_way: { OfMultiPath Self Self.Leaf Self.LeafDigest Self.LeafInnerDigestConverter
        Self.InnerDigest Self.LeafHash Self.TwoToOneHash Self.LeafHash.Parameters
        Self.TwoToOneHash.Input Self.TwoToOneHash.Parameters → MultiWay };

    // The canonical bytes of a path, and how they are read.
    ghost path_bytes: { Way → List ℕ };

    ghost path_reading: { List ℕ → Reading Way };

    // The canonical bytes of a multi-proof, and how they are read.
    ghost multi_path_bytes: { MultiWay → List ℕ };

    ghost multi_path_reading: { List ℕ → Reading MultiWay };

    // What each view is.
    ghost pair_is: { pair ≡ pair_of Self.LeafInnerDigestConverter.conversion
        Self.TwoToOneHash.evaluated Self.TwoToOneHash.compressed };

    ghost hashes_are: { hashes ≡ (λ l p. record {
      leaf = Self.LeafHash.meaning l;
      pair = pair_of
          Self.LeafInnerDigestConverter.conversion Self.TwoToOneHash.evaluated
          Self.TwoToOneHash.compressed p;
    }) };

    ghost tree_is: { tree ≡ (λ t. record {
      hashes = record {
        leaf = Self.LeafHash.meaning t.leaf_parameters;
        pair = pair_of Self.LeafInnerDigestConverter.conversion Self.TwoToOneHash.evaluated
            Self.TwoToOneHash.compressed t.pair_parameters;
      };
      leaves = t.leaves;
    }) };

    ghost way_is: { way ≡ (λ path. record {
      sibling = Self.LeafDigest.numbers path.leaf_sibling_hash;
      above = map Self.InnerDigest.numbers path.auth_path.items;
      index = path.leaf_index;
    }) };

    ghost multi_way_is: { multi_way ≡ (λ proof. record {
      siblings = digests_of Self.LeafDigest.numbers proof.leaf_siblings_hashes;
      prefixes = proof.auth_paths_prefix_lenghts.items;
      suffixes = rows_seen Self.InnerDigest.numbers proof.auth_paths_suffixes;
      indexes = proof.leaf_indexes.items;
    }) };
}

impl<P: Config> Views for P {
    ghost pair = { pair_of P.LeafInnerDigestConverter.conversion P.TwoToOneHash.evaluated
        P.TwoToOneHash.compressed };

    ghost hashes = { λ l p. record {
      leaf = P.LeafHash.meaning l;
      pair = pair_of P.LeafInnerDigestConverter.conversion P.TwoToOneHash.evaluated
          P.TwoToOneHash.compressed p;
    } };

    ghost tree = { λ t. record {
      hashes = record {
        leaf = P.LeafHash.meaning t.leaf_parameters;
        pair = pair_of P.LeafInnerDigestConverter.conversion P.TwoToOneHash.evaluated
            P.TwoToOneHash.compressed t.pair_parameters;
      };
      leaves = t.leaves;
    } };

    ghost way = { λ path. record {
      sibling = P.LeafDigest.numbers path.leaf_sibling_hash;
      above = map P.InnerDigest.numbers path.auth_path.items;
      index = path.leaf_index;
    } };

    ghost multi_way = { λ proof. record {
      siblings = digests_of P.LeafDigest.numbers proof.leaf_siblings_hashes;
      prefixes = proof.auth_paths_prefix_lenghts.items;
      suffixes = rows_seen P.InnerDigest.numbers proof.auth_paths_suffixes;
      indexes = proof.leaf_indexes.items;
    } };

    ghost path_bytes = { way_bytes P.LeafDigest.bytes_of P.InnerDigest.bytes_of };

    ghost path_reading = { way_at (λ digest. P.LeafDigest.numbers_of (P.LeafDigest.spelling digest))
        (λ digest. P.InnerDigest.numbers_of (P.InnerDigest.spelling digest))
        P.LeafDigest.reads P.InnerDigest.reads };

    ghost multi_path_bytes = { multi_bytes P.LeafDigest.bytes_of P.InnerDigest.bytes_of };

    ghost multi_path_reading = { multi_way_at
        (λ digest. P.LeafDigest.numbers_of (P.LeafDigest.spelling digest))
        (λ digest. P.InnerDigest.numbers_of (P.InnerDigest.spelling digest))
        P.LeafDigest.reads P.InnerDigest.reads };

    ghost pair_is = { refl };

    ghost hashes_are = { refl };

    ghost tree_is = { refl };

    ghost way_is = { refl };

    ghost multi_way_is = { refl };
}

/// What the canonical values of paths tell. Each configuration has these laws.
pub trait Values: Views {
    // The canonical value of a path forgets none of its numbers.
    ghost path_value_is: { Self.way ≡ (λ path. way_of
        (λ digest. Self.LeafDigest.numbers_of (Self.LeafDigest.spelling digest))
        (λ digest. Self.InnerDigest.numbers_of (Self.InnerDigest.spelling digest))
        (⟦<Path<Self> as Canonical>⟧.view path)) };

    // Where a path is read, its numbers are; a fault is the same for both.
    ghost path_is_read: { (bytes rest : List ℕ) (path : _)
        → ⟦<Path<Self> as Canonical>⟧.reads bytes
        ≡ Ok (⟦<Path<Self> as Canonical>⟧.view path, rest)
        → Self.path_reading bytes ≡ Ok (Self.way path, rest) };

    ghost path_fault_is: { (bytes : List ℕ) (fault : SerializationError)
        → ⟦<Path<Self> as Canonical>⟧.reads bytes ≡ Err fault
        → Self.path_reading bytes ≡ Err fault };

    // The canonical value of a multi-proof forgets none of its numbers.
    ghost multi_path_value_is: { Self.multi_way ≡ (λ proof. multi_way_of
        (λ digest. Self.LeafDigest.numbers_of (Self.LeafDigest.spelling digest))
        (λ digest. Self.InnerDigest.numbers_of (Self.InnerDigest.spelling digest))
        (⟦<MultiPath<Self> as Canonical>⟧.view proof)) };

    // Its canonical bytes are those of its numbers.
    ghost multi_path_bytes_are: { (proof : _) → ⟦<MultiPath<Self> as Canonical>⟧.spelling
        (⟦<MultiPath<Self> as Canonical>⟧.view proof)
        ≡ Self.multi_path_bytes (Self.multi_way proof) };

    // Where it is read, its numbers are; a fault is the same for both.
    ghost multi_path_is_read: { (bytes rest : List ℕ) (proof : _)
        → ⟦<MultiPath<Self> as Canonical>⟧.reads bytes
        ≡ Ok (⟦<MultiPath<Self> as Canonical>⟧.view proof, rest)
        → Self.multi_path_reading bytes ≡ Ok (Self.multi_way proof, rest) };

    ghost multi_path_fault_is: { (bytes : List ℕ) (fault : SerializationError)
        → ⟦<MultiPath<Self> as Canonical>⟧.reads bytes ≡ Err fault
        → Self.multi_path_reading bytes ≡ Err fault };
}

impl<P: Config> Values for P {
    ghost path_value_is = { λ i path. way_of-value P.LeafDigest.numbers P.LeafDigest.view
        (λ digest. P.LeafDigest.numbers_of (P.LeafDigest.spelling digest))
        P.LeafDigest.numbers_are P.InnerDigest.numbers P.InnerDigest.view
        (λ digest. P.InnerDigest.numbers_of (P.InnerDigest.spelling digest))
        P.InnerDigest.numbers_are path.leaf_sibling_hash path.auth_path.items path.leaf_index i };

    ghost path_is_read = { λ bytes rest path. way_at-ok P.LeafDigest.view P.InnerDigest.view
        P.LeafDigest.numbers P.InnerDigest.numbers
        path.leaf_sibling_hash path.auth_path.items path.leaf_index
        (λ digest. P.LeafDigest.numbers_of (P.LeafDigest.spelling digest))
        (λ digest. P.InnerDigest.numbers_of (P.InnerDigest.spelling digest))
        P.LeafDigest.numbers_are P.InnerDigest.numbers_are
        P.LeafDigest.reads P.InnerDigest.reads bytes rest };

    ghost path_fault_is = { λ bytes fault. way_at-err
        (λ digest. P.LeafDigest.numbers_of (P.LeafDigest.spelling digest))
        (λ digest. P.InnerDigest.numbers_of (P.InnerDigest.spelling digest))
        P.LeafDigest.reads P.InnerDigest.reads bytes fault };

    ghost multi_path_value_is = { λ i proof. multi_way_of-value P.LeafDigest.numbers
        P.LeafDigest.view (λ digest. P.LeafDigest.numbers_of (P.LeafDigest.spelling digest))
        P.LeafDigest.numbers_are P.InnerDigest.numbers P.InnerDigest.view
        (λ digest. P.InnerDigest.numbers_of (P.InnerDigest.spelling digest))
        P.InnerDigest.numbers_are proof.leaf_siblings_hashes.items
        proof.auth_paths_prefix_lenghts.items proof.auth_paths_suffixes.items
        proof.leaf_indexes.items i };

    ghost multi_path_bytes_are = { λ proof. multi_spelling-way P.LeafDigest.view
        P.InnerDigest.view P.LeafDigest.numbers P.InnerDigest.numbers
        proof.leaf_siblings_hashes.items proof.auth_paths_prefix_lenghts.items
        proof.auth_paths_suffixes.items proof.leaf_indexes.items
        P.LeafDigest.spelling P.LeafDigest.bytes_of P.InnerDigest.spelling P.InnerDigest.bytes_of
        P.LeafDigest.bytes_are P.InnerDigest.bytes_are };

    ghost multi_path_is_read = { λ bytes rest proof. multi_way_at-ok P.LeafDigest.view
        P.InnerDigest.view P.LeafDigest.numbers P.InnerDigest.numbers
        proof.leaf_siblings_hashes.items proof.auth_paths_prefix_lenghts.items
        proof.auth_paths_suffixes.items proof.leaf_indexes.items
        (λ digest. P.LeafDigest.numbers_of (P.LeafDigest.spelling digest))
        (λ digest. P.InnerDigest.numbers_of (P.InnerDigest.spelling digest))
        P.LeafDigest.numbers_are P.InnerDigest.numbers_are
        P.LeafDigest.reads P.InnerDigest.reads bytes rest };

    ghost multi_path_fault_is = { λ bytes fault. multi_way_at-err
        (λ digest. P.LeafDigest.numbers_of (P.LeafDigest.spelling digest))
        (λ digest. P.InnerDigest.numbers_of (P.InnerDigest.spelling digest))
        P.LeafDigest.reads P.InnerDigest.reads bytes fault };
}
