//! What the permutation is set up with, and the permutation.

ghost use Rattle.std.specs.Prelude.{◌≡◌, ◌≤◌, true, map, length, All, vec_len, Ok};
ghost use Rattle.std.specs.List.{list_all};
ghost use Rattle.poseidon2.specs.Permutation.{is_width, are_wide, lawful_poseidon2, poseidon2_permutation};

mod bytes;

use crate::blocks::BlockMatrix;
use crate::layers::external_layer;
use crate::rounds::{run_full_rounds, run_partial_rounds};
use ark_base::error::{Error, Refusal};
use ark_groups::ff::{Field, Valued};
use ark_sponge::poseidon::SBox;
use std::marker::Model;

/// The parameters of a permutation: the exponent of the S-box, the constants of the rounds, and the diagonal of the internal
/// matrix less 1.
#[derive(Debug, Drop)]
pub struct Poseidon2Config<F: Valued> {
    alpha: u64,
    first: Vec<Vec<F>>,
    partial: Vec<F>,
    last: Vec<Vec<F>>,
    diagonal: Vec<F>,
}

impl<F: Valued> Model for Poseidon2Config<F> {
    ghost use Rattle.std.specs.Prelude.{◌≡◌, true, map, All, vec_len};
    ghost use Rattle.poseidon2.specs.Permutation.{Poseidon2Parameters, is_width};

    ghost Value = { Poseidon2Parameters };

    ghost view = { λ c. record {
      alpha = c.alpha;
      first = map (λ row. map F.value row.items) c.first.items;
      partial = map F.value c.partial.items;
      last = map (λ row. map F.value row.items) c.last.items;
      diagonal = map F.value c.diagonal.items;
    } };

    ghost invariant = { λ c. (is_width (vec_len c.diagonal) ≡ true)
        × All (λ row. vec_len row ≡ vec_len c.diagonal) c.first.items
        × All (λ row. vec_len row ≡ vec_len c.diagonal) c.last.items };
}

// Returns whether a state may have so many elements.
fn is_width(width: usize) -> bool
    ensures { result ≡ is_width width }
{
    width == 2 || width == 3 || (width > 3 && width % 4 == 0)
}

// Returns whether each row has so many elements.
fn are_wide<F: Field>(rows: &[Vec<F>], width: usize) -> bool
    ensures test { result ≡ are_wide width (map (λ row. map F.value row.items) rows.now) }
    ensures rows { result ≡ true → All (λ row. vec_len row ≡ width) rows.now }
{
    rows.iter().all(|row| row.len() == width)
}

impl<F: Field> Poseidon2Config<F> {
    /// Returns these parameters: the exponent `alpha` of the S-box, a row of constants in `first` and in `last` for each full
    /// round before and behind the partial ones, a constant in `partial` for each partial round, and the `diagonal` of the
    /// internal matrix less 1, as long as a state. It allocates nothing.
    ///
    /// Errors: `ParameterShape` for a diagonal whose length is neither 2 nor 3 nor a multiple of 4 above 0, and for a row of
    /// another length.
    pub fn new(
        alpha: u64,
        first: Vec<Vec<F>>,
        partial: Vec<F>,
        last: Vec<Vec<F>>,
        diagonal: Vec<F>,
    ) -> Result<Poseidon2Config<F>, Error>
        ensures { result ≡ lawful_poseidon2 (record {
          alpha = alpha;
          first = map (λ row. map F.value row.items) first.items;
          partial = map F.value partial.items;
          last = map (λ row. map F.value row.items) last.items;
          diagonal = map F.value diagonal.items;
        }) }
    {
        let width = diagonal.len();
        if !is_width(width) || !are_wide(&first, width) || !are_wide(&last, width) {
            return Err(Error::GenericError(Refusal::ParameterShape));
        }
        Ok(Poseidon2Config {
            alpha,
            first,
            partial,
            last,
            diagonal,
        })
    }

    /// Returns the exponent that the S-box takes.
    pub fn alpha(&self) -> u64
        ensures { result ≡ self.now.alpha }
    {
        self.alpha
    }

    /// Returns the constants of the full rounds before the partial ones, a row for each round.
    pub fn first(&self) -> &[Vec<F>]
        ensures { map (λ row. map F.value row.items) result.now ≡ self.now.first }
    {
        &self.first
    }

    /// Returns a constant for each partial round.
    pub fn partial(&self) -> &[F]
        ensures { map F.value result.now ≡ self.now.partial }
    {
        &self.partial
    }

    /// Returns the constants of the full rounds behind the partial ones, a row for each round.
    pub fn last(&self) -> &[Vec<F>]
        ensures { map (λ row. map F.value row.items) result.now ≡ self.now.last }
    {
        &self.last
    }

    /// Returns the diagonal of the internal matrix less 1.
    pub fn diagonal(&self) -> &[F]
        ensures { map F.value result.now ≡ self.now.diagonal }
    {
        &self.diagonal
    }

    /// Returns how many elements a state has.
    pub fn width(&self) -> usize
        ensures value { result ≡ length self.now.diagonal }
        ensures two { 2 ≤ result }

        // `new` takes these parameters.
        ensures lawful { lawful_poseidon2 self.now ≡ Ok self.now }
    {
        self.diagonal.len()
    }

    /// Permutes a state in place, with an S-box and a matrix of four by four. It allocates nothing.
    pub fn permute<S: SBox<F>, B: BlockMatrix<F>>(&self, state: &mut [F])
        requires { length state.old ≡ length self.now.diagonal }
        ensures { map F.value state.new
            ≡ poseidon2_permutation F.MODULUS S.image B.matrix self.now (map F.value state.old) }
    {
        let alpha = self.alpha;
        external_layer::<F, B>(state);
        run_full_rounds::<F, S, B>(state, &self.first, alpha);
        run_partial_rounds::<F, S>(state, &self.partial, &self.diagonal, alpha);
        run_full_rounds::<F, S, B>(state, &self.last, alpha);
    }
}
