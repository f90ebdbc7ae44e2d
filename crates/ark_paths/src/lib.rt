//! Paths of Merkle trees over any lawful pair of hashes, and what they show of a tree.
#![tactic(auto)]

pub mod config;
pub mod digests;
pub mod hasher;
pub mod index;
pub mod multi_path;
pub mod pair;
pub mod path;
mod received;
pub mod runs;
pub mod views;

pub use config::{
    ByteDigestConverter, Config, DigestConverter, IdentityDigestConverter, LeafParam, TwoToOneParam,
};
pub use index::is_tree_size;
pub use multi_path::MultiPath;
pub use multi_path::hasher::{PairCount, PairHasher};
pub use path::Path;
pub use views::Views;
