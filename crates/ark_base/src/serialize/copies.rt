//! Copies of plain values.

ghost use Rattle.std.specs.Prelude.{ℕ, Bool, List};

use crate::error::Error;
use crate::serialize::{Duplicate, ReadBack};
use std::alloc::Global;

impl Duplicate for () {
    ghost Data = { Unit {0} };

    ghost seen = { λ x. x };

    fn duplicate(&self, _alloc: Global) -> Result<(), Error> {
        Ok(())
    }
}

impl ReadBack for () {
    ghost same_seen = { λ a b same. same };
}

impl Duplicate for bool {
    ghost Data = { Bool };

    ghost seen = { λ b. b };

    fn duplicate(&self, _alloc: Global) -> Result<bool, Error> {
        Ok(*self)
    }
}

impl ReadBack for bool {
    ghost same_seen = { λ a b same. same };
}

impl Duplicate for u64 {
    ghost Data = { ℕ };

    ghost seen = { λ n. n };

    fn duplicate(&self, _alloc: Global) -> Result<u64, Error> {
        Ok(*self)
    }
}

impl ReadBack for u64 {
    ghost same_seen = { λ a b same. same };
}

impl<const N: usize> Duplicate for [u8; N] {
    ghost Data = { List ℕ };

    ghost seen = { λ bytes. bytes };

    fn duplicate(&self, _alloc: Global) -> Result<[u8; N], Error> {
        Ok(*self)
    }
}

impl<const N: usize> ReadBack for [u8; N] {
    ghost same_seen = { λ a b same. same };
}

impl Duplicate for Vec<u8> {
    ghost Data = { List ℕ };

    ghost seen = { λ bytes. bytes.items };

    fn duplicate(&self, _alloc: Global) -> Result<Vec<u8>, Error> {
        Ok(self.clone()?)
    }
}

impl ReadBack for Vec<u8> {
    ghost use Rattle.ark_base.specs.Laws.Lists.{same_bytes};

    ghost same_seen = { λ a b. same_bytes a.items b.items };
}
