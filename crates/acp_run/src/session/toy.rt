//! Lines over the configuration `toy`.

ghost use Rattle.std.specs.Prelude.{◌≡◌, refl};
ghost use Rattle.acp_run.specs.Toy.{toy_language};

use crate::session::replies::push_hex;
use crate::session::shell::Shell;
use crate::session::tokens::{number_of_token, some_bytes_of};
use ark_base::error::Error;
use ark_base::serialize::CanonicalDeserialize;
use ark_groups::ff::{Field, Fp, M257, PrimeField};
use ark_trees::toy::Toy;
use std::alloc::{AllocError, Global};

impl Shell for Toy {
    ghost language = { λ _ _. toy_language };

    fn read_leaf(alloc: Global, token: &[u8]) -> Result<Option<u64>, AllocError> {
        number_of_token(alloc, token)
    }

    fn read_digest(alloc: Global, token: &[u8]) -> Result<Option<Fp<M257>>, AllocError> {
        let Some(bytes) = some_bytes_of(alloc, token)? else {
            return Ok(None);
        };
        match Fp::<M257>::deserialize(alloc, &bytes) {
            Ok((digest, used)) => {
                if used < bytes.len() {
                    return Ok(None);
                }
                Ok(Some(digest))
            }
            Err(Error::OutOfMemory) => Err(AllocError),
            Err(_) => Ok(None),
        }
    }

    fn read_bytes(alloc: Global, token: &[u8]) -> Result<Option<Vec<u8>>, AllocError> {
        some_bytes_of(alloc, token)
    }

    fn show_root(root: &Fp<M257>, reply: &mut Vec<u8>) -> Result<(), AllocError> {
        let value = PrimeField::value(*root);
        push_hex(reply, &[(value % 256) as u8, (value / 256 % 256) as u8])
    }

    ghost language_is = { λ p q. refl };
}
