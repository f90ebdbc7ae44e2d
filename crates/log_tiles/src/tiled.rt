//! A log that is read of its tiles: the disk on which its file would lie.

ghost use Rattle.std.specs.Prelude.{◌≡◌, ◌<◌, ◌≤◌, ◌+◌, ◌*◌, ◌/◌, ◌%◌, ◌^◌, ◌++◌, ℕ, List, [], true, length, take, drop, get_or, IfOk, MatchOption, OnOk, Err, Ok};
ghost use Rattle.std.specs.List.{flat_map};
ghost use Rattle.std.specs.Bool.{Decides};
ghost use Rattle.sha2.specs.Sha256.{sha256};
ghost use Rattle.ark_base.specs.Digits.{itself};
ghost use Rattle.ark_paths.specs.Pair.{Digest};
ghost use Rattle.ark_trees.specs.Rfc6962.{node_of};
ghost use Rattle.log_tiles.specs.Audit.{with_rest, roots_in, row_in, rows_over, tile_at, tile_of, AreRoots, AreRowsOf, AreWholeTiles, IsWholeTile};
ghost use Rattle.log_tiles.specs.Tiled.{tiled_digests, tiled_file, HaveDigests};
ghost use Rattle.log_tiles.specs.Tiles.{row_length};
ghost use Rattle.log_tiles.specs.declared.tiled.Unread.TheVariants.{Place};
ghost use Rattle.log_tiles.specs.declared.tile.Tile.{Tile};
ghost use Rattle.merkle_log.specs.Asked.{IsPeak};
ghost use Rattle.merkle_log.specs.Log.{merkle_tree_hash};
ghost use Rattle.merkle_log.specs.Stored.{stored_count};
ghost use Rattle.merkle_log.specs.Walk.{index_up};

use crate::following::are_same;
use crate::growth::row_length;
use crate::halving::halved_root;
use crate::tile::{FULL, Tile, width_of};
use ark_crh::ArrayHash;
use ark_trees::LogHasher;
use log_file::head::{START, head_bytes};
use log_store::Disk;
use merkle_log::kept::stored_count;
use sha2::{Digest as _, Sha256};
use std::marker::Model;

/// The tiles of a log, wherever they lie.
///
/// What the clauses say holds where the tiles obey. Of files of the operating system nothing is known: that they obey is what
/// is left to trust.
pub trait Tiles {
    type Refusal: Drop;

    // Its reads do what is said of them.
    ghost Obeys: { Self → Type 0 };

    // The digests that a tile has.
    ghost has: { Self → Tile → List Digest };

    /// Reads digests of a tile from one of its places on, as many as there is room for. It refuses what the tile has not, and a
    /// tile that has not as many digests as its width says.
    fn read(&self, tile: Tile, from: usize, into: &mut [[u8; 32]]) -> Result<(), Self::Refusal>
        ensures whole { Obeys self.now → OnOk result (IsWholeTile (has self.now) tile) }
        ensures read { Obeys self.now → OnOk result
            (into.new ≡ take (length into.old) (drop from (has self.now tile))) };
}

/// Why nothing was read of a log's tiles.
#[derive(Drop)]
pub enum Unread<R: Drop> {
    /// A tile could not be read.
    Tile(R),
    /// What was asked for is no digest, and not the head.
    Place,
    /// A log of tiles is only read.
    ReadOnly,
}

// The root of a complete subtree and what stands behind it, if something does, under one digest.
fn joined_peak(peak: [u8; 32], last: &Option<[u8; 32]>) -> [u8; 32]
    ensures { result ≡ with_rest peak last.now }
{
    match last {
        Some(last) => LogHasher::node(&peak, last),
        None => peak,
    }
}

// Returns the leaf that completes the place whose digest stands at a position of the list of a log of this size: the last one
// before which no more digests are stored than stand before the position.
fn completing_leaf(size: usize, position: usize) -> usize
    requires fits { size < 2 ^ 57 }
    requires inside { position < stored_count size }
    ensures inside { result < size }
    ensures from { stored_count result ≤ position }
    ensures below { position < stored_count (result + 1) }
{
    let mut first = 0;
    let mut end = size;
    'halves: while end - first > 1 {
        let middle = first + (end - first) / 2;
        if stored_count(middle) <= position {
            first = middle;
        } else {
            end = middle;
        }
    }
    first
}

// Writes a digest to a place of a buffer.
fn put_digest_bytes(into: &mut [u8], at: usize, digest: &[u8; 32])
    requires { at + 32 ≤ length into.old }
    ensures { take (at + 32) into.new ≡ take at into.old ++ digest.now }
{
    into[at..at + 32].copy_from_slice(digest);
}

/// The log of a size and a root whose digests lie in tiles, as the file that it would have.
#[derive(Drop)]
pub struct TileDisk<T: Tiles + Drop> {
    tiles: T,
    size: usize,
    root: [u8; 32],
}

impl<T: Tiles + Drop> Model for TileDisk<T> {
    ghost use Rattle.std.specs.Prelude.{◌<◌, ◌^◌};
    ghost use Rattle.log_tiles.specs.Audit.{TiledValue};

    ghost Value = { TiledValue T };

    ghost view = { λ disk. record {
      tiles = disk.tiles;
      size = disk.size;
      root = disk.root;
    } };

    ghost invariant = { λ disk. disk.size < 2 ^ 57 };
}

impl<T: Tiles + Drop> TileDisk<T> {
    /// Takes the tiles of a log of this size and root; `None` for a size of 2^57 and above, whose file no disk has.
    pub fn new(tiles: T, size: usize, root: &[u8; 32]) -> Option<TileDisk<T>>
        ensures { MatchOption result (2 ^ 57 ≤ size)
            (λ disk. disk ≡ record { tiles = tiles; size = size; root = root.now }) }
    {
        if size >= 144_115_188_075_855_872 {
            return None;
        }
        Some(TileDisk {
            tiles,
            size,
            root: *root,
        })
    }

    /// Returns how many entries the log has.
    pub fn size(&self) -> usize
        ensures size { result ≡ self.now.size }
        ensures fits { result < 2 ^ 57 }
    {
        self.size
    }

    // Reads digests of the tile at an index, from one of its places on.
    fn read(
        &self,
        level: usize,
        index: usize,
        from: usize,
        into: &mut [[u8; 32]],
    ) -> Result<(), T::Refusal>
        ensures whole { T.Obeys self.now.tiles → OnOk result
            (IsWholeTile (T.has self.now.tiles) (tile_at self.now.size level index)) }
        ensures read { T.Obeys self.now.tiles → OnOk result (into.new ≡ take (length into.old)
            (drop from (T.has self.now.tiles (tile_at self.now.size level index)))) }
    {
        let width = width_of(self.size, level, index);
        let tile = Tile {
            level,
            index,
            width,
        };
        self.tiles.read(tile, from, into)
    }

    // Reads so many digests of the tile at an index to the front of a buffer.
    fn read_front(
        &self,
        level: usize,
        index: usize,
        from: usize,
        count: usize,
        into: &mut [[u8; 32]; FULL],
    ) -> Result<(), T::Refusal>
        requires { count ≤ 256 }
        ensures whole { T.Obeys self.now.tiles → OnOk result
            (IsWholeTile (T.has self.now.tiles) (tile_at self.now.size level index)) }
        ensures read { T.Obeys self.now.tiles → OnOk result (take count into.new ≡ take count
            (drop from (T.has self.now.tiles (tile_at self.now.size level index)))) }
    {
        self.read(level, index, from, &mut into[..count])
    }

    // Reads the digest of a complete place: the root of as many digests of one tile as stand below it.
    fn digest_of(&self, level: usize, place: usize) -> Result<[u8; 32], T::Refusal>
        requires { level < 64 }
        ensures whole { T.Obeys self.now.tiles → place < index_up level self.now.size
            → OnOk result (IsWholeTile (T.has self.now.tiles) (tile_of self.now.size level place)) }
        ensures digest { T.Obeys self.now.tiles → place < index_up level self.now.size
            → IfOk result (λ digest. digest ≡ get_or (rows_over (row_in (T.has self.now.tiles)
            self.now.size (level / 8)) (level % 8)) place []) }
    {
        // Its size has at most 57 bits, so that the product is not cut.
        let _ = &self.size;
        let mut digests = [[0; 32]; FULL];
        let count = 1usize << (level % 8);
        let first = place.saturating_mul(count);
        self.read_front(level / 8, first / FULL, first % FULL, count, &mut digests)?;
        Ok(halved_root(&mut digests, level % 8))
    }

    // Reads the root of a full tile.
    fn root_of_tile(&self, level: usize, index: usize) -> Result<[u8; 32], T::Refusal>
        ensures whole { T.Obeys self.now.tiles → OnOk result
            (IsWholeTile (T.has self.now.tiles) (tile_at self.now.size level index)) }
        ensures root { T.Obeys self.now.tiles → index < row_length level self.now.size / 256
            → IfOk result (λ root. root
            ≡ get_or (roots_in (T.has self.now.tiles) self.now.size level) index []) }
    {
        let mut digests = [[0; 32]; FULL];
        self.read(level, index, 0, &mut digests)?;
        Ok(halved_root(&mut digests, 8))
    }

    // Reads a digest of a level of tiles.
    fn digest_in(&self, level: usize, place: usize) -> Result<[u8; 32], T::Refusal>
        ensures { T.Obeys self.now.tiles → place < row_length level self.now.size
            → IfOk result (λ digest. digest
            ≡ get_or (row_in (T.has self.now.tiles) self.now.size level) place []) }
    {
        let mut digest = [[0; 32]];
        self.read(level, place / FULL, place % FULL, &mut digest)?;
        Ok(digest[0])
    }

    /// Returns whether the root of a full tile is the digest above it.
    pub fn is_below_its_root(&self, level: usize, index: usize) -> Result<bool, T::Refusal>
        requires { level < 64 }
        ensures whole { T.Obeys self.now.tiles → OnOk result
            (IsWholeTile (T.has self.now.tiles) (tile_at self.now.size level index)) }
        ensures root { T.Obeys self.now.tiles → index < row_length level self.now.size / 256
            → IfOk result (λ same. Decides same
            (get_or (row_in (T.has self.now.tiles) self.now.size (level + 1)) index []
            ≡ get_or (roots_in (T.has self.now.tiles) self.now.size level) index [])) }
    {
        let root = self.root_of_tile(level, index)?;
        Ok(are_same(&self.digest_in(level + 1, index)?, &root))
    }

    // Returns whether the root of each full tile of a level is the digest above it.
    fn is_level_hashed(&self, level: usize) -> Result<bool, T::Refusal>
        requires { level < 7 }
        ensures whole { T.Obeys self.now.tiles → result ≡ Ok true
            → AreWholeTiles (T.has self.now.tiles) self.now.size level }
        ensures roots { T.Obeys self.now.tiles → IfOk result (λ all. Decides all
            (AreRoots (T.has self.now.tiles) self.now.size level)) }
    {
        'tiles: for index in 0..row_length(level, self.size) / FULL {
            if !self.is_below_its_root(level, index)? {
                return Ok(false);
            }
        }
        Ok(true)
    }

    /// Returns whether the root of each full tile is the digest above it. It reads each full tile once.
    pub(crate) fn is_hashed(&self) -> Result<bool, T::Refusal>
        ensures whole { T.Obeys self.now.tiles → result ≡ Ok true → (level : ℕ) → level < 7
            → AreWholeTiles (T.has self.now.tiles) self.now.size level }
        ensures roots { T.Obeys self.now.tiles → IfOk result (λ all. Decides all
            ((level : ℕ) → level < 7 → AreRoots (T.has self.now.tiles) self.now.size level)) }
    {
        'levels: for level in 0..7 {
            if !self.is_level_hashed(level)? {
                return Ok(false);
            }
        }
        Ok(true)
    }

    /// Returns the root to which the digests at the right edge lead: those of the complete subtrees into which the entries fall.
    pub(crate) fn root(&self) -> Result<[u8; 32], T::Refusal>
        ensures whole { T.Obeys self.now.tiles → OnOk result
            ((level place : ℕ) → IsPeak self.now.size level place
            → IsWholeTile (T.has self.now.tiles) (tile_of self.now.size level place)) }
        ensures root { T.Obeys self.now.tiles → (leaves : List Digest)
            → AreRowsOf (T.has self.now.tiles) self.now.size leaves → length leaves ≡ self.now.size
            → IfOk result (λ root. merkle_tree_hash node_of (sha256 []) leaves ≡ Ok root) }
    {
        let mut last = None;
        let mut level = 0;
        let mut left = self.size();
        'levels: while left > 0 {
            if left % 2 == 1 {
                let peak = self.digest_of(level, left - 1)?;
                last = Some(joined_peak(peak, &last));
            }
            left /= 2;
            level += 1;
        }
        match last {
            Some(root) => Ok(root),
            None => Ok(Sha256::digest([].as_slice())),
        }
    }

    // Reads the digest at a position of the log's list.
    fn digest_at(&self, position: usize) -> Result<[u8; 32], Unread<T::Refusal>>
        ensures digest { T.Obeys self.now.tiles → IfOk result (λ digest. digest
            ≡ get_or (tiled_digests (T.has self.now.tiles) self.now.size) position []) }
        ensures place { result ≡ Err Place → stored_count self.now.size ≤ position }
    {
        let size = self.size();
        if stored_count(size) <= position {
            return Err(Unread::Place);
        }
        let leaf = completing_leaf(size, position);
        let level = position - stored_count(leaf);
        match self.digest_of(level, leaf >> level) {
            Ok(digest) => Ok(digest),
            Err(refusal) => Err(Unread::Tile(refusal)),
        }
    }

    // Reads the digests from a position of the log's list on, one behind the other.
    fn read_list(&self, position: usize, into: &mut [u8]) -> Result<(), Unread<T::Refusal>>
        requires { length into.old % 32 ≡ 0 }
        ensures { T.Obeys self.now.tiles → HaveDigests (T.has self.now.tiles) self.now.size
            → 32 * position + length into.old ≤ 32 * stored_count self.now.size
            → OnOk result (into.new ≡ take (length into.old) (drop (32 * position)
            (flat_map itself (tiled_digests (T.has self.now.tiles) self.now.size)))) }
    {
        // Its size has at most 57 bits, so that the sum is not cut.
        let _ = &self.size;
        'digests: for place in 0..into.len() / 32 {
            let digest = self.digest_at(position.saturating_add(place))?;
            put_digest_bytes(into, 32 * place, &digest);
        }
        Ok(())
    }
}

impl<T: Tiles + Drop> Disk for TileDisk<T> {
    type Refusal = Unread<T::Refusal>;

    ghost Obeys = { λ disk. T.Obeys disk.tiles × HaveDigests (T.has disk.tiles) disk.size };

    ghost seen = { λ disk. tiled_file (T.has disk.tiles) disk.size disk.root };

    ghost may_leave = { λ disk left. left ≡ tiled_file (T.has disk.tiles) disk.size disk.root };

    ghost fresh = { λ _ _ _. ⊥ };

    ghost moment = { λ _. 0 };

    ghost left_since = { λ disk _ left.
        left ≡ tiled_file (T.has disk.tiles) disk.size disk.root };

    ghost counts_now = { λ _ _ _ _ now. now };

    ghost only_now = { λ _ _ since. since };

    fn length(&self) -> Result<usize, Unread<T::Refusal>> {
        Ok(START + 32 * stored_count(self.size))
    }

    fn read_at(&self, at: usize, into: &mut [u8]) -> Result<(), Unread<T::Refusal>> {
        if at == 0 && into.len() == START {
            into.copy_from_slice(&head_bytes(self.size, &self.root));
            return Ok(());
        }
        if at < START || (at - START) % 32 != 0 || into.len() % 32 != 0 {
            return Err(Unread::Place);
        }
        self.read_list((at - START) / 32, into)
    }

    fn write_at(&mut self, _at: usize, _bytes: &[u8]) -> Result<(), Unread<T::Refusal>> {
        Err(Unread::ReadOnly)
    }

    fn sync(&mut self) -> Result<(), Unread<T::Refusal>> {
        Err(Unread::ReadOnly)
    }
}
