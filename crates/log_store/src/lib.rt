//! A log in a file: appends that a crash cannot lose once they returned, and roots and proofs, for which only what they ask for
//! is read, and which are checked.
//!
//! The file lies on a disk, whose calls may fail. A sync makes durable what was written since the last one that was refused, and a
//! crash may leave any bytes of the rest.
#![tactic(auto)]

mod again;
mod ahead;
pub mod disk;
mod edge;
mod finding;
mod growth;
mod head;
mod healing;
mod log;
mod made;
mod new_log;
mod opening;
mod proving;
mod recovery;
mod sectors;
mod sound;
mod spots;
mod steps;
mod stop;

pub use again::rewrite_head;
pub use ahead::{Ahead, digest_in, look_at, none_ahead};
pub use disk::Disk;
pub use edge::read_digest;
pub use finding::find;
pub use growth::{append, append_after};
pub use head::size;
pub use healing::heal;
pub use log::root;
pub use made::make;
pub use new_log::{lay_blank, lay_out};
pub use opening::{layout_of, layout_of_parts};
pub use proving::{ConsistencyProof, InclusionProof, consistency, prove};
pub use recovery::{Recovered, recover, recoverable};
pub use sectors::{DIGESTS, Layout, SECTOR, SECTOR_TITLE, SectorDisk, SectorRefusal};
pub use sound::check;
pub use stop::Stop;
