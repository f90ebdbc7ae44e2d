//! Calls on a log in a file of the caller's (RFC 6962 and RFC 9162, section 2.1): which pieces of the file are to be read first, and
//! what is to be written.

pub mod answers;
pub mod asked;
pub mod asking;
pub mod checked;
pub mod grown;
pub mod handed;
pub mod laid;
pub mod layouts;
pub mod made;
pub mod not_done;
pub mod replay;
