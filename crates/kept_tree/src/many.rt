//! Several leaf digests that are changed at once.

ghost use Rattle.std.specs.List.{All};
ghost use Rattle.std.specs.Prelude.{◌≡◌, ◌<◌, ◌≤◌, length, true};
ghost use Rattle.ark_paths.specs.Index.{log2};
ghost use Rattle.kept_tree.specs.KeptTree.{NoneIsBelow, AreInside, LevelHashed, PlacesHashed, RehashesAbove, is_tree_length, leaf_count};

use crate::path::levels_of;
use crate::runs::{RUN, hashes_of};
use ark_crh::ArrayHash;

// Writes the hash of the two digests below each of some places to it. None of the places stands below another.
fn hash_places<H: ArrayHash>(memory: &mut [[u8; 32]], places: &[usize])
    requires run { length places.now ≤ 64 }
    requires some { 0 < length memory.old }
    requires inside { AreInside (length memory.old) places.now }
    requires apart { NoneIsBelow places.now }
    ensures { PlacesHashed H.node_hash memory.old memory.new places.now }
{
    let digests = hashes_of::<H>(memory, places);
    'places: for n in 0..places.len() {
        memory[places[n]] = digests[n];
    }
}

// Writes the hashes on one level above the leaves of some indexes. What two neighbours in the list share is hashed once,
// and as many as a run holds go to the hash together.
fn hash_level<H: ArrayHash>(memory: &mut [[u8; 32]], indexes: &[usize], level: usize)
    requires size { is_tree_length (length memory.old) ≡ true }
    requires indexes { All (λ index. index < leaf_count (length memory.old)) indexes.now }
    requires low { 0 < level }
    requires high { level ≤ log2 (leaf_count (length memory.old)) }
    ensures { LevelHashed H.node_hash memory.old memory.new level indexes.now }
{
    let size = memory.len() / 2 + 1;
    let mut run = [0usize; RUN];
    let mut count = 0;
    'indexes: for index in indexes {
        let place = ((size + *index) >> level) - 1;
        if count == 0 || run[count - 1] != place {
            if count == RUN {
                hash_places::<H>(memory, &run[..count]);
                count = 0;
            }
            run[count] = place;
            count += 1;
        }
    }
    hash_places::<H>(memory, &run[..count]);
}

/// Writes the hashes above the leaf digests of some indexes, from the lowest level up. Where the indexes rise, each place
/// is hashed once.
pub fn rehash_above<H: ArrayHash>(memory: &mut [[u8; 32]], indexes: &[usize])
    requires size { is_tree_length (length memory.old) ≡ true }
    requires indexes { All (λ index. index < leaf_count (length memory.old)) indexes.now }
    ensures { RehashesAbove H.node_hash memory.old memory.new indexes.now }
{
    let levels = levels_of(memory) + 1;
    'levels: for level in 0..levels {
        hash_level::<H>(memory, indexes, level + 1);
    }
}
