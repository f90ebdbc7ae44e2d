//! A line of a session: its request, the reply to it and the tree behind it.

pub mod answer;
mod arguments;
mod changes;
mod checks;
mod hexadecimal;
mod proofs;
mod replies;
mod request;
mod sha256;
pub mod shell;
mod shows;
pub mod tokens;
mod toy;
