//! The root of a map in memory, which is hashed once.

ghost use Rattle.std.specs.Prelude.{◌≡◌, ◌≤◌, take, length, Bool, IfErr, IfOk, IsOk, List, ℕ, Ok};
ghost use Rattle.kept_map.specs.Digests.{IsDigestAt, IsRehashed};
ghost use Rattle.kept_map.specs.KeptMap.{kept_hashes, KeepsMap, LaidAt};
ghost use Rattle.kept_map.specs.declared.head.Head.{Head};
ghost use Rattle.kept_map.specs.declared.head.MapFault.TheVariants.{NoMap};
ghost use Rattle.merkle_map.specs.Map.{root_of_map, Entry};
ghost use Rattle.merkle_map.specs.Tree.{Shape, StandsAt};

use crate::digests::{LEVELS, is_unhashed, put_digest};
use crate::hash::KeptHash;
use crate::head::{Head, MapFault};
use crate::nodes::{Part, kept_digest, left_at, part_of, right_at};

// Hashes what a number names some levels below the root, as far as no digest is there, and writes the digest of each fork.
// Errors: `NoMap`.
fn hash_at<H: KeptHash>(
    entries: &[[u8; 64]],
    forks: &mut [[u8; 48]],
    number: u64,
    count: usize,
    level: usize,
) -> Result<[u8; 32], MapFault>
    requires { count ≤ length forks.old }
    ensures digest { let h = kept_hashes H.leaf_hash H.node_hash H.nothing_hash in
        IfOk result (λ digest. IsDigestAt h entries.now forks.old number digest) }
    ensures forks { let h = kept_hashes H.leaf_hash H.node_hash H.nothing_hash in
        IsRehashed h entries.now forks.old forks.new }
    ensures found { let h = kept_hashes H.leaf_hash H.node_hash H.nothing_hash in
        (first : ℕ) (tree : Shape) (bits : List Bool)
        → LaidAt h (take first entries.now) forks.old count number tree → StandsAt bits tree
        → length bits ≡ level → IsOk result }
    ensures fault { IfErr result (λ fault. fault ≡ NoMap) }
{
    match part_of(number, entries.len(), count)? {
        Part::Nothing => Ok(H::nothing()),
        Part::Entry(place) => Ok(H::leaf(&entries[place])),
        Part::Fork(place) => {
            let kept = kept_digest(forks, place);
            if !is_unhashed(&kept) {
                return Ok(kept);
            }
            if level >= LEVELS {
                return Err(MapFault::NoMap);
            }
            let before = left_at(forks, place);
            let left = hash_at::<H>(entries, forks, before, place, level + 1)?;
            let behind = right_at(forks, place);
            let right = hash_at::<H>(entries, forks, behind, place, level + 1)?;
            let digest = H::node(&left, &right);
            put_digest(forks, place, &digest);
            Ok(digest)
        }
    }
}

/// Returns the root. It hashes what has no digest yet, and writes the digest of each fork that it hashes: so none is hashed twice,
/// unless its digest is 32 zeros.
///
/// The error is `NoMap`: the memory holds no map under the head. Some digests may be written then, and what is held under other
/// heads stays.
pub fn root<H: KeptHash>(
    entries: &[[u8; 64]],
    forks: &mut [[u8; 48]],
    head: &Head,
) -> Result<[u8; 32], MapFault>
    ensures root { let h = kept_hashes H.leaf_hash H.node_hash H.nothing_hash in
        IfOk result (λ digest. (xs : List Entry) → KeepsMap h entries.now forks.old head.now xs
        → root_of_map h xs ≡ Ok digest) }
    ensures found { let h = kept_hashes H.leaf_hash H.node_hash H.nothing_hash in
        (xs : List Entry) → KeepsMap h entries.now forks.old head.now xs → IsOk result }

    // What the memory holds under whichever head, it still holds.
    ensures kept { let h = kept_hashes H.leaf_hash H.node_hash H.nothing_hash in
        (other : Head) (xs : List Entry) → KeepsMap h entries.now forks.old other xs
        → KeepsMap h entries.now forks.new other xs }
    ensures fault { IfErr result (λ fault. fault ≡ NoMap) }
{
    if head.forks > forks.len() {
        return Err(MapFault::NoMap);
    }
    hash_at::<H>(entries, forks, head.top, head.forks, 0)
}
