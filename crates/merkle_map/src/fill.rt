//! The root of a tree that keeps digests, one fork behind the other.

ghost use Rattle.std.specs.Prelude.{◌≡◌};
ghost use Rattle.ark_base.specs.Outcome.{AnswersBy};
ghost use Rattle.merkle_map.specs.Kept.{IsKept};
ghost use Rattle.merkle_map.specs.Map.{MapHashes};
ghost use Rattle.merkle_map.specs.Parts.{shape};
ghost use Rattle.merkle_map.specs.Tree.{shape_digest};

use crate::hasher::{MapHasher, MapViews};
use crate::key::copy_digest;
use crate::part::{Part, Sides};
use ark_base::error::Error;
use ark_base::serialize::DigestItem;
use std::alloc::Global;

// Hashes a tree, as far as no digest is kept, and keeps the digest of each fork. Errors: as of `digest_of`.
pub fn fill<D: DigestItem, H: MapViews<Input = [u8; 32], Output = D>>(
    alloc: Global,
    hasher: &MapHasher<H>,
    part: &mut Part<D>,
) -> Result<D, Error>
    requires { IsKept D.numbers (H.hashes hasher.now) part.old }
    ensures digest { AnswersBy D.numbers (shape_digest (H.hashes hasher.now)
        (shape D.numbers part.old)) result }
    ensures same { shape D.numbers part.new ≡ shape D.numbers part.old }
    ensures kept { IsKept D.numbers (H.hashes hasher.now) part.new }
{
    match part {
        Part::Empty => hasher.nothing(alloc),
        Part::One { entry } => {
            let entry = &mut **entry;
            hasher.leaf(alloc, &entry.key, &entry.value)
        }
        Part::Fork { sides } => {
            let Sides {
                left,
                right,
                digest,
            } = &mut **sides;
            if let Some(digest) = digest {
                return copy_digest(alloc, digest);
            }
            let l = fill(alloc, hasher, left)?;
            let r = fill(alloc, hasher, right)?;
            let own = hasher.pair(alloc, &l, &r)?;
            let copy = copy_digest(alloc, &own)?;
            *digest = Some(copy);
            Ok(own)
        }
        Part::Hidden { digest } => {
            let digest = &mut **digest;
            copy_digest(alloc, digest)
        }
    }
}

// Forgets the digests that a tree keeps.
pub fn forget_in<D: DigestItem>(part: &mut Part<D>)
    ensures same { shape D.numbers part.new ≡ shape D.numbers part.old }
    ensures none { (h : MapHashes) → IsKept D.numbers h part.new }
{
    match part {
        Part::Empty => {}
        Part::One { .. } => {}
        Part::Fork { sides } => {
            let Sides {
                left,
                right,
                digest,
            } = &mut **sides;
            *digest = None;
            forget_in(left);
            forget_in(right);
        }
        Part::Hidden { .. } => {}
    }
}
