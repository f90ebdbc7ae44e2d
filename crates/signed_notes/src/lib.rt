//! Signed notes (C2SP signed-note), as Go's golang.org/x/mod/sumdb/note has them.
#![tactic(auto)]

mod checkpoint;
mod cosignature;
mod counting;
mod cutting;
mod fault;
mod joining;
mod keys;
mod laws;
mod log_list;
mod logs_fault;
mod note;
mod opening;
mod policy_fault;
mod policy_file;
mod policy_words;
pub mod symbols;
mod texts;
mod verifying;
mod writing;

pub use checkpoint::Checkpoint;
pub use cosignature::{cosign, cosignature_of, sign_checkpoint};
pub use fault::Fault;
pub use joining::join_signatures;
pub use keys::{Algorithm, Cosigner, Signer, Verifier, key_hash};
pub use laws::{
    checkpoints_are_read_back, checkpoints_have_one_spelling, keys_are_read_back, keys_count_once,
    keys_have_one_spelling, listed_logs_are_found, notes_are_read_back, notes_are_written,
    notes_have_one_spelling,
};
pub use log_list::{ListedLog, log_of_origin, read_logs};
pub use logs_fault::{LogsFault, LogsFaultAt};
pub use note::{MOST_BYTES, MOST_SIGNATURES, Note, Signature, read};
pub use opening::{Policy, open_checkpoint};
pub use policy_fault::{PolicyFault, PolicyFaultAt};
pub use policy_file::{PolicyFile, read_policy};
pub use texts::{is_name, is_text};
pub use verifying::{Verified, sign_note, signature_of, verify};
pub use writing::{signature_line, write};
