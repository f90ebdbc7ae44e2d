//! Logs in folders of tiles (C2SP tlog-tiles), as static file servers have them: the tiles of a log's file, and a log that is
//! read of tiles by whoever follows it.
#![tactic(auto)]

mod bundles;
mod by_proof;
mod folder;
mod follower;
mod following;
mod growth;
mod halving;
mod head_file;
mod laws;
mod names;
mod publication;
mod tile;
mod tiled;
mod unfollowed;

pub use bundles::{LONGEST, first_entry, is_bundle, push_entry};
pub use by_proof::{ProofFault, Unshown, continues_by, follow_by_proof};
pub use folder::{FileName, Folder};
pub use follower::{Unmoved, follow};
pub use following::{Head, audit, continues, prove_in_tiles};
pub use growth::{new_tiles, row_length};
pub use head_file::{HeadFile, HeldHead};
pub use laws::{accepted_are_of_one_log, quorums_meet, smaller_begins_larger, tiles_are_of_a_log};
pub use names::{bundle_name, tile_name};
pub use publication::{Unwritten, put_checkpoint, write_each};
pub use tile::{FULL, Tile, read_tile, width_of};
pub use tiled::{TileDisk, Tiles, Unread};
pub use unfollowed::Unfollowed;
