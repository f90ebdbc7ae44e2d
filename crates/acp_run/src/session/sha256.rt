//! Lines over the configuration `sha256`: trees of SHA-256, whose leaves and digests are bytes.

ghost use Rattle.std.specs.Prelude.{◌≡◌};
ghost use Rattle.acp_run.specs.Laws.Sha256.{language-sha};
ghost use Rattle.acp_run.specs.Sha256.{sha_language};

use crate::session::replies::push_hex;
use crate::session::shell::Shell;
use crate::session::tokens::some_bytes_of;
use ark_trees::Sha256Strings;
use std::alloc::{AllocError, Global};

impl Shell for Sha256Strings {
    ghost language = { λ _ _. sha_language };

    fn read_leaf(alloc: Global, token: &[u8]) -> Result<Option<Vec<u8>>, AllocError> {
        Self::read_bytes(alloc, token)
    }

    fn read_digest(alloc: Global, token: &[u8]) -> Result<Option<Vec<u8>>, AllocError> {
        Self::read_bytes(alloc, token)
    }

    fn read_bytes(alloc: Global, token: &[u8]) -> Result<Option<Vec<u8>>, AllocError> {
        if token == b"-".as_slice() {
            return Ok(Some(Vec::new(alloc)));
        }
        some_bytes_of(alloc, token)
    }

    fn show_root(root: &Vec<u8>, reply: &mut Vec<u8>) -> Result<(), AllocError> {
        push_hex(reply, root)
    }

    ghost language_is = { λ p q. language-sha };
}
