//! Elements as digests: their two coordinates.

ghost use Rattle.std.specs.Prelude.{◌∷◌, [], get_or, refl};
ghost use Rattle.jubjub.specs.Edwards.{Coordinates, neutral};
ghost use Rattle.jubjub.specs.Elements.{coordinates};
ghost use Rattle.jubjub.specs.Spelling.{spelling, coordinates_in, numbers_in};
ghost use Rattle.jubjub.specs.Laws.Digests.{same_digest, seen_alike, numbers_again};

use crate::element::Jubjub;
use ark_base::error::Error;
use ark_base::serialize::{DigestItem, Duplicate, Numbered, ReadBack};
use std::alloc::Global;

impl Numbered for Jubjub {
    ghost numbers = { λ x. numbers_in (coordinates x) };
}

impl Duplicate for Jubjub {
    ghost Data = { Coordinates };

    ghost seen = { coordinates };

    fn duplicate(&self, _alloc: Global) -> Result<Jubjub, Error> {
        Ok(*self)
    }
}

impl ReadBack for Jubjub {
    ghost same_seen = { λ x y same. same };
}

/// The blank one is zero.
impl DigestItem for Jubjub {
    ghost blank_numbers = { numbers_in neutral };

    ghost bytes_of = { λ numbers.
        spelling (record { x = get_or numbers 0 0; y = get_or numbers 1 0 }) };

    ghost numbers_of = { λ bytes. numbers_in (coordinates_in bytes) };

    fn blank(_alloc: Global) -> Jubjub {
        Jubjub::zero()
    }

    ghost equal_if_same = { same_digest };

    ghost seen_alike = { seen_alike };

    ghost bytes_are = { λ x. refl };

    ghost numbers_are = { numbers_again };
}
