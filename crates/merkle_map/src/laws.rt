//! Laws of roots, each in the contract of a call that does nothing.

ghost use Rattle.std.specs.Prelude.{◌≡◌, List};
ghost use Rattle.merkle_map.specs.Map.{Entry, HaveSame, IsMap, root_of_map};

use crate::hasher::{MapHasher, MapViews};
use ark_base::serialize::DigestItem;

/// States that two maps that have the same at each key have one root, however they came about.
pub fn root_is_of_the_map<D: DigestItem, H: MapViews<Input = [u8; 32], Output = D>>(
    _hasher: &MapHasher<H>,
)
    ensures { (a b : List Entry) → IsMap a → IsMap b → HaveSame a b
        → root_of_map (H.hashes _hasher.now) a ≡ root_of_map (H.hashes _hasher.now) b }
{}
