//! Trees with a hidden top, of which the digest takes no memory of its own.

ghost use Rattle.std.specs.Prelude.{◌≡◌, ◌++◌, [], false, true, map, IfErr, IfOk, OnErr, OnOk};
ghost use Rattle.ark_base.specs.Outcome.{AnswersBy, IsMemory};
ghost use Rattle.merkle_map.specs.Bytes.{itself, spelled, IsOf32};
ghost use Rattle.merkle_map.specs.Changes.{entry_of, known_at, tree_without, with_value};
ghost use Rattle.merkle_map.specs.Kept.{IsTopKept};
ghost use Rattle.merkle_map.specs.KeyProof.{behind_all, proof_at, seen_with};
ghost use Rattle.merkle_map.specs.Map.{MapHashes, put, without};
ghost use Rattle.merkle_map.specs.Order.{next_seen, IsNextKnown};
ghost use Rattle.merkle_map.specs.Parts.{found_seen, shape, top_shape};
ghost use Rattle.merkle_map.specs.Pruned.{pruned, FitsKeys};
ghost use Rattle.merkle_map.specs.Rows.{rows_behind, rows_of};
ghost use Rattle.merkle_map.specs.Shown.{Follows, FollowsBy};
ghost use Rattle.merkle_map.specs.Tree.{shape_digest, StandsAt};

use crate::bytes::{push_hidden, write_part};
use crate::fill::{fill, forget_in};
use crate::hasher::{MapHasher, MapViews};
use crate::key::copy_digest;
use crate::next::next_shown;
use crate::part::{Entry, Part, digest_of, find_entry, hidden};
use crate::proof::{End, climb_down};
use crate::prune::prune_in;
use crate::put::put_in;
use crate::remove::remove_from;
use crate::rows::push_tree_rows;
use crate::together::{FEW, fill_together};
use ark_base::error::Error;
use ark_base::serialize::DigestItem;
use std::alloc::Global;

/// A whole tree.
#[derive(Drop)]
pub enum Top<D> {
    /// A tree in its parts.
    Shown { part: Part<D> },
    /// A digest alone.
    Digest { digest: D },
}

// As `find`.
pub fn find_top<'a, D: DigestItem>(
    top: &'a Top<D>,
    key: &[u8; 32],
) -> Result<Option<&'a [u8; 32]>, Error>
    requires { StandsAt [] (top_shape D.numbers top.now) }
    ensures { known_at 0 key.now (top_shape D.numbers top.now)
        ≡ found_seen (λ value. value.now) result }
{
    match top {
        Top::Shown { part } => find_entry(part, 0, key),
        Top::Digest { .. } => Err(hidden()),
    }
}

// As `next_shown`.
pub fn next_top<D: DigestItem>(
    top: &Top<D>,
    first: &[u8; 32],
    last: &[u8; 32],
) -> Result<Option<([u8; 32], [u8; 32])>, Error>
    requires { FitsKeys 0 (top_shape D.numbers top.now) }
    ensures { IsNextKnown true true 0 first.now last.now (top_shape D.numbers top.now)
        (next_seen result) }
{
    match top {
        Top::Shown { part } => next_shown(part, 0, first, last, false, true, true),
        Top::Digest { .. } => Err(hidden()),
    }
}

// As `put_in`.
pub fn put_top<D: DigestItem>(
    alloc: Global,
    top: &mut Top<D>,
    key: &[u8; 32],
    value: [u8; 32],
) -> Result<(), Error>
    requires { StandsAt [] (top_shape D.numbers top.old) }
    ensures changed { AnswersBy (λ _. top_shape D.numbers top.new)
        (with_value 0 (entry_of key.now value) (top_shape D.numbers top.old)) result }
    ensures kept { OnErr result (top_shape D.numbers top.new ≡ top_shape D.numbers top.old) }
    ensures stands { StandsAt [] (top_shape D.numbers top.new) }
    ensures maps { OnOk result (Follows (put key.now value) (top_shape D.numbers top.old)
        (top_shape D.numbers top.new)) }
    ensures digests { (h : MapHashes) → IsTopKept D.numbers h top.old
        → IsTopKept D.numbers h top.new }
{
    match top {
        Top::Shown { part } => put_in(alloc, part, 0, Entry { key: *key, value }),
        Top::Digest { .. } => Err(hidden()),
    }
}

// As `remove_from`. The other error, which leaves the tree unchanged, is `OutOfMemory`.
pub fn remove_top<D: DigestItem, H: MapViews<Input = [u8; 32], Output = D>>(
    alloc: Global,
    hasher: &MapHasher<H>,
    top: &mut Top<D>,
    key: &[u8; 32],
) -> Result<(), Error>
    requires { StandsAt [] (top_shape D.numbers top.old) }
    ensures changed { AnswersBy (λ _. top_shape D.numbers top.new)
        (tree_without (H.hashes hasher.now).nothing key.now (top_shape D.numbers top.old)) result }
    ensures kept { OnErr result (top_shape D.numbers top.new ≡ top_shape D.numbers top.old) }
    ensures stands { StandsAt [] (top_shape D.numbers top.new) }
    ensures maps { OnOk result (FollowsBy (H.hashes hasher.now) (without key.now)
        (top_shape D.numbers top.old) (top_shape D.numbers top.new)) }
    ensures digests { (h : MapHashes) → IsTopKept D.numbers h top.old
        → IsTopKept D.numbers h top.new }
{
    match top {
        Top::Shown { part } => {
            let nothing = hasher.nothing(alloc)?;
            remove_from(&nothing, part, key)
        }
        Top::Digest { .. } => Err(hidden()),
    }
}

// As `digest_of`.
pub fn digest_of_top<D: DigestItem, H: MapViews<Input = [u8; 32], Output = D>>(
    alloc: Global,
    hasher: &MapHasher<H>,
    top: &Top<D>,
) -> Result<D, Error>
    requires { IsTopKept D.numbers (H.hashes hasher.now) top.now }
    ensures { AnswersBy D.numbers (shape_digest (H.hashes hasher.now)
        (top_shape D.numbers top.now)) result }
{
    match top {
        Top::Shown { part } => digest_of(alloc, hasher, part),
        Top::Digest { digest } => copy_digest(alloc, digest),
    }
}

// Hashes a tree, as far as no digest is kept, and keeps the digest of each fork; one fork behind the other, where the changes are
// few. Errors: as of `digest_of`.
pub fn fill_top<D: DigestItem, H: MapViews<Input = [u8; 32], Output = D>>(
    alloc: Global,
    hasher: &MapHasher<H>,
    top: &mut Top<D>,
    changes: usize,
) -> Result<D, Error>
    requires { IsTopKept D.numbers (H.hashes hasher.now) top.old }
    ensures digest { AnswersBy D.numbers (shape_digest (H.hashes hasher.now)
        (top_shape D.numbers top.old)) result }
    ensures same { top_shape D.numbers top.new ≡ top_shape D.numbers top.old }
    ensures kept { IsTopKept D.numbers (H.hashes hasher.now) top.new }
{
    match top {
        Top::Shown { part } => {
            if changes < FEW {
                return fill(alloc, hasher, part);
            }
            fill_together(alloc, hasher, part)
        }
        Top::Digest { digest } => copy_digest(alloc, digest),
    }
}

// Forgets the digests that a tree keeps.
pub fn forget_top<D: DigestItem>(top: &mut Top<D>)
    ensures same { top_shape D.numbers top.new ≡ top_shape D.numbers top.old }
    ensures none { (h : MapHashes) → IsTopKept D.numbers h top.new }
{
    match top {
        Top::Shown { part } => forget_in(part),
        Top::Digest { .. } => {}
    }
}

// As `prune_in`.
pub fn prune_top<D: DigestItem, H: MapViews<Input = [u8; 32], Output = D>>(
    alloc: Global,
    hasher: &MapHasher<H>,
    tops: bool,
    top: &Top<D>,
    keys: &[[u8; 32]],
) -> Result<Top<D>, Error>
    requires fits { FitsKeys 0 (top_shape D.numbers top.now) }
    requires kept { IsTopKept D.numbers (H.hashes hasher.now) top.now }
    ensures pruned { AnswersBy (top_shape D.numbers) (pruned (H.hashes hasher.now) tops false 0
        keys.now (top_shape D.numbers top.now)) result }
    ensures digests { IfOk result (λ new. (h : MapHashes) → IsTopKept D.numbers h new) }
{
    match top {
        Top::Shown { part } => {
            let part = prune_in(alloc, hasher, tops, false, part, 0, keys)?;
            Ok(Top::Shown { part })
        }
        Top::Digest { digest } => {
            let digest = copy_digest(alloc, digest)?;
            Ok(Top::Digest { digest })
        }
    }
}

// As `climb_down`.
pub fn climb_top<D: DigestItem, H: MapViews<Input = [u8; 32], Output = D>>(
    alloc: Global,
    hasher: &MapHasher<H>,
    top: &Top<D>,
    key: &[u8; 32],
    siblings: &mut Vec<D>,
) -> Result<End, Error>
    requires stands { StandsAt [] (top_shape D.numbers top.now) }
    requires kept { IsTopKept D.numbers (H.hashes hasher.now) top.now }
    ensures { AnswersBy (seen_with (map D.numbers siblings.new.items))
        (behind_all (map D.numbers siblings.old.items)
        (proof_at (H.hashes hasher.now) 0 key.now (top_shape D.numbers top.now))) result }
{
    match top {
        Top::Shown { part } => climb_down(alloc, hasher, part, 0, key, siblings),
        Top::Digest { .. } => Err(hidden()),
    }
}

// As `write_part`.
pub fn write_top(top: &Top<[u8; 32]>, dest: &mut Vec<u8>) -> Result<(), Error>
    ensures written { OnOk result (dest.new.items
        ≡ dest.old.items ++ spelled (top_shape itself top.now)) }
    ensures memory { IfErr result IsMemory }
    ensures sized { OnOk result (IsOf32 (top_shape itself top.now)) }
{
    match top {
        Top::Shown { part } => write_part(part, dest),
        Top::Digest { digest } => push_hidden(digest, dest),
    }
}

// As `push_tree_rows`.
pub fn push_rows_of_top<H: MapViews<Input = [u8; 32], Output = [u8; 32]>>(
    alloc: Global,
    hasher: &MapHasher<H>,
    top: &Top<[u8; 32]>,
    rows: &mut Vec<u8>,
) -> Result<[u8; 32], Error>
    requires { IsTopKept itself (H.hashes hasher.now) top.now }
    ensures { AnswersBy (λ digest. (digest, rows.new.items)) (rows_behind rows.old.items
        (rows_of (H.hashes hasher.now) (top_shape itself top.now))) result }
{
    match top {
        Top::Shown { part } => push_tree_rows(alloc, hasher, part, rows),
        Top::Digest { digest } => Ok(*digest),
    }
}

// Hashes a tree, as far as no digest is kept, and returns its digest and its rows; one fork behind the other, where the changes are
// few. Errors: those of the hashes, the lowest first, the left one among equals; `OutOfMemory`.
pub fn fill_rows<H: MapViews<Input = [u8; 32], Output = [u8; 32]>>(
    alloc: Global,
    hasher: &MapHasher<H>,
    top: &mut Top<[u8; 32]>,
    changes: usize,
) -> Result<([u8; 32], Vec<u8>), Error>
    requires { IsTopKept itself (H.hashes hasher.now) top.old }
    ensures rows { AnswersBy (λ made. (made.0, made.1.items)) (rows_of (H.hashes hasher.now)
        (top_shape itself top.old)) result }
    ensures digest { AnswersBy (λ made. made.0) (shape_digest (H.hashes hasher.now)
        (top_shape itself top.old)) result }
{
    fill_top(alloc, hasher, top, changes)?;
    let mut rows = Vec::new(alloc);
    let digest = push_rows_of_top(alloc, hasher, top, &mut rows)?;
    Ok((digest, rows))
}
