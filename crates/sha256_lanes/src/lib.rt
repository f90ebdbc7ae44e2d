//! SHA-256 (FIPS 180-4) of many messages, some of them together: a lane of a vector for each, of so many lanes as the
//! processor's vectors have.
//!
//! Each result is the digest that the kit's `sha2` gives: no caller can tell the two apart but by the time.
#![tactic(auto)]

mod constants;
mod lanes;
mod long_texts;
mod messages;
mod pairs;
mod prefixed_pairs;
mod runs;
mod states;
mod texts;

pub use runs::{digest_of_message, digest_of_pair, digests_of_messages, digests_of_pairs};
