//! Configurations of trees, ready for use: SHA-256 (FIPS 180-4) over leaves that are byte strings; and trees of small numbers,
//! to be reckoned by hand.
#![tactic(auto)]

mod arrays;
mod rfc6962;
mod strings;
pub mod toy;

pub use arrays::{ArraySha256, Arrays, Sha256Arrays};
pub use rfc6962::{LogHasher, LogSha256, Sha256Log, digest_of_entry};
pub use strings::Sha256Strings;
