//! What a configuration of the program is.

ghost use Rattle.std.specs.Prelude.{◌≡◌, ◌++◌, IfOk, OnOk};
ghost use Rattle.std.specs.Option.{option_map};
ghost use Rattle.hex.specs.Hex.{encode_lower};
ghost use Rattle.acp_run.specs.Language.{Language};

use ark_base::serialize::Numbered;
use ark_crh::{CRHScheme, TwoToOneCRHScheme};
use ark_merkle::{Config, Views};
use std::alloc::{AllocError, Global};

/// A configuration with tokens for its leaves and digests.
pub trait Shell: Config {
    // What contracts see of it under some parameters of the leaf hash and of the pair hash.
    ghost language: { Self.LeafHash.Parameters → Self.TwoToOneHash.Parameters → Language };

    /// Returns the leaf that a token says, if it says one.
    ///
    /// The only error is `AllocError`.
    fn read_leaf(alloc: Global, token: &[u8]) -> Result<Option<Self::Leaf>, AllocError>
        ensures { IfOk result (λ leaf.
            (p : Self.LeafHash.Parameters) (q : Self.TwoToOneHash.Parameters)
            → option_map (Self.LeafHash.meaning p) leaf ≡ (language p q).leaf_outcome token.now) };

    /// Returns the digest that a token says, if it says one.
    ///
    /// The only error is `AllocError`.
    fn read_digest(alloc: Global, token: &[u8]) -> Result<Option<Self::LeafDigest>, AllocError>
        ensures { IfOk result (λ digest.
            (p : Self.LeafHash.Parameters) (q : Self.TwoToOneHash.Parameters)
            → option_map Self.LeafDigest.numbers digest ≡ (language p q).digest token.now) };

    /// Returns the bytes that a token says, if it says some.
    ///
    /// The only error is `AllocError`.
    fn read_bytes(alloc: Global, token: &[u8]) -> Result<Option<Vec<u8>>, AllocError>
        ensures { IfOk result (λ bytes.
            (p : Self.LeafHash.Parameters) (q : Self.TwoToOneHash.Parameters)
            → option_map (λ bytes. bytes.items) bytes ≡ (language p q).bytes token.now) };

    /// Appends the hexadecimal of a root's token bytes.
    ///
    /// The only error is `AllocError`; what `reply` then holds no clause says.
    fn show_root(root: &Self::InnerDigest, reply: &mut Vec<u8>) -> Result<(), AllocError>
        ensures { OnOk result ((p : Self.LeafHash.Parameters) (q : Self.TwoToOneHash.Parameters)
            → reply.new.items ≡ reply.old.items
            ++ encode_lower ((language p q).root_bytes (Self.InnerDigest.numbers root.now))) };

    // Pairs, paths and multi-proofs are those of the configuration.
    ghost language_is: { (p : Self.LeafHash.Parameters) (q : Self.TwoToOneHash.Parameters)
        → language p q ≡ record (language p q) {
          pair_hashes = ⟦<Self as Views>⟧.pair q;
          path_bytes = ⟦<Self as Views>⟧.path_bytes;
          path_reading = ⟦<Self as Views>⟧.path_reading;
          multi_path_bytes = ⟦<Self as Views>⟧.multi_path_bytes;
          multi_path_reading = ⟦<Self as Views>⟧.multi_path_reading;
        } };
}
