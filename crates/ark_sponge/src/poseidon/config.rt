//! What a sponge is set up with.

ghost use Rattle.std.specs.Prelude.{◌≡◌, ℕ, ◌+◌, ◌^◌, ◌<◌, ◌≤◌, true, map, length, slice_range, All, vec_len, IsSome, IfSome, Ok};
ghost use Rattle.ark_base.specs.Outcome.{AnswersBy};
ghost use Rattle.ark_groups.specs.Field.{IsField};
ghost use Rattle.ark_sponge.specs.Permutation.{Parameters, width, permutation, poseidon_rounds, is_matrix, lawful_parameters};
ghost use Rattle.ark_sponge.specs.Recurrence.{AreRounds};

mod bytes;
mod table;

use crate::poseidon::permutation::{SBox, apply_rounds};
use crate::poseidon::recurrence::Recurrence;
use crate::poseidon::recurrence::making::recurrence_of;
use ark_base::error::{Error, Refusal};
use ark_base::serialize::Duplicate;
use ark_groups::ff::{Field, Valued};
use std::alloc::Global;
use std::fmt;
use std::marker::Model;

/// The constants of a permutation, and how its state is parted into rate and capacity.
#[derive(Drop)]
pub struct PoseidonConfig<F: Valued> {
    full_rounds: usize,
    partial_rounds: usize,
    alpha: u64,
    mds: Vec<Vec<F>>,
    ark: Vec<Vec<F>>,
    rate: usize,
    capacity: usize,
    recurrence: Option<Recurrence<F>>,
}

// The debug form has no tables, which say nothing more.
impl<F: Valued> fmt::Debug for PoseidonConfig<F> {
    fn fmt<W: fmt::Write>(&self, f: &mut fmt::Formatter<W>) -> fmt::Result {
        f.debug_struct("PoseidonConfig")
            .field("full_rounds", &self.full_rounds)
            .field("partial_rounds", &self.partial_rounds)
            .field("alpha", &self.alpha)
            .field("mds", &self.mds)
            .field("ark", &self.ark)
            .field("rate", &self.rate)
            .field("capacity", &self.capacity)
            .finish()
    }
}

impl<F: Valued> Model for PoseidonConfig<F> {
    ghost use Rattle.std.specs.Prelude.{◌≡◌, ℕ, ◌+◌, ◌/◌, ◌<◌, ◌≤◌, ◌^◌, map, slice_range, All, vec_len, IfSome};
    ghost use Rattle.ark_groups.specs.Field.{IsField};
    ghost use Rattle.ark_sponge.specs.Permutation.{Parameters};
    ghost use Rattle.ark_sponge.specs.Recurrence.{AreRounds};

    ghost Value = { Parameters };

    ghost view = { λ c. record {
      full_rounds = c.full_rounds;
      partial_rounds = c.partial_rounds;
      alpha = c.alpha;
      mds = map (λ row. map F.value row.items) c.mds.items;
      ark = map (λ row. map F.value row.items) c.ark.items;
      rate = c.rate;
      capacity = c.capacity;
    } };

    ghost invariant = { λ c. (0 < c.rate)
        × (c.rate + c.capacity < 2 ^ 64)
        × (c.full_rounds + c.partial_rounds < 2 ^ 64)
        × (vec_len c.mds ≡ c.rate + c.capacity)
        × All (λ row. vec_len row ≡ c.rate + c.capacity) c.mds.items
        × (vec_len c.ark ≡ c.full_rounds + c.partial_rounds)
        × All (λ row. vec_len row ≡ c.rate + c.capacity) c.ark.items
        × (9 ≤ F.bits)
        × IfSome c.recurrence (λ r. (p : ℕ) → IsField p F.value
        → AreRounds p (map (λ row. map F.value row.items) c.mds.items)
        (map (λ row. map F.value row.items)
        (slice_range c.ark.items (c.full_rounds / 2) (c.full_rounds / 2 + c.partial_rounds))) r) };
}

/// Returns whether there are `count` rows of `len` elements.
pub fn is_matrix<F: Field>(rows: &[Vec<F>], count: usize, len: usize) -> bool
    ensures test { result ≡ is_matrix count len (map (λ row. map F.value row.items) rows.now) }
    ensures count { result ≡ true → length rows.now ≡ count }
    ensures rows { result ≡ true → All (λ row. vec_len row ≡ len) rows.now }
{
    rows.len() == count && rows.iter().all(|row| row.len() == len)
}

// The recurrence of the partial rounds, whose constants are the rows of a range, if there is one.
fn recurrence_between<F: Field>(
    mds: &Vec<Vec<F>>,
    ark: &[Vec<F>],
    start: usize,
    end: usize,
) -> Option<Recurrence<F>>
    requires range { (start ≤ end) × (end ≤ length ark.now) }
    requires mds { All (λ row. vec_len row ≡ vec_len mds.now) mds.now.items }
    requires ark { All (λ row. vec_len row ≡ vec_len mds.now) ark.now }
    ensures { IfSome result (λ recurrence. (p : ℕ) → IsField p F.value
        → AreRounds p (map (λ row. map F.value row.items) mds.now.items)
        (map (λ row. map F.value row.items) (slice_range ark.now start end)) recurrence) }
{
    recurrence_of(*mds.allocator(), mds, &ark[start..end])
}

// The recurrence once more, if there is memory for it.
fn copy_of_recurrence<F: Field>(recurrence: &Option<Recurrence<F>>) -> Option<Recurrence<F>>
    ensures { IfSome result (λ copy. IfSome recurrence.now (λ found. copy ≡ found)
        × IsSome recurrence.now) }
{
    match recurrence {
        Some(found) => found.copied(),
        None => None,
    }
}

// Runs the partial rounds of these rows of constants: by their recurrence, if there is one.
fn run_partial_rounds<F: Field, S: SBox<F>>(
    recurrence: &Option<Recurrence<F>>,
    state: &mut [F],
    scratch: &mut [F],
    rows: &[Vec<F>],
    mds: &[Vec<F>],
    alpha: u64,
)
    requires recurrence { IfSome recurrence.now (λ found. AreRounds F.MODULUS
        (map (λ row. map F.value row.items) mds.now)
        (map (λ row. map F.value row.items) rows.now) found) }
    requires width { length scratch.old ≡ length state.old }
    requires some { 1 ≤ length state.old }
    requires rows { All (λ row. vec_len row ≡ length state.old) rows.now }
    requires mds { length mds.now ≡ length state.old }
    requires columns { All (λ row. vec_len row ≡ length state.old) mds.now }
    ensures { map F.value state.new
        ≡ poseidon_rounds F.MODULUS (S.image alpha) (map (λ row. map F.value row.items) mds.now)
        1 (map (λ row. map F.value row.items) rows.now) (map F.value state.old) }
{
    match recurrence {
        Some(found) => found.apply::<S>(alpha, state, scratch),
        None => apply_rounds::<F, S>(state, scratch, rows, mds, alpha, 1),
    }
}

impl<F: Field> PoseidonConfig<F> {
    /// Returns these parameters: `full_rounds` and `partial_rounds` rounds under the exponent `alpha` of the S-box, the
    /// matrix `mds` and the constants `ark` by rows, and a state of `rate` and `capacity` elements. They are `prepared`.
    ///
    /// Errors: `FieldTooSmall` over fewer than nine bits, `ZeroRate`, `ParameterShape` where `ark` has not a row for
    /// each round and `mds` for each element of the state, each as long as the state.
    pub fn new(
        full_rounds: usize,
        partial_rounds: usize,
        alpha: u64,
        mds: Vec<Vec<F>>,
        ark: Vec<Vec<F>>,
        rate: usize,
        capacity: usize,
    ) -> Result<PoseidonConfig<F>, Error>
        ensures { result ≡ lawful_parameters F.MODULUS_BIT_SIZE (record {
          full_rounds = full_rounds;
          partial_rounds = partial_rounds;
          alpha = alpha;
          mds = map (λ row. map F.value row.items) mds.items;
          ark = map (λ row. map F.value row.items) ark.items;
          rate = rate;
          capacity = capacity;
        }) }
    {
        match PoseidonConfig::plain(full_rounds, partial_rounds, alpha, mds, ark, rate, capacity) {
            Ok(parameters) => Ok(parameters.prepared()),
            Err(error) => Err(error),
        }
    }

    /// Returns the parameters of `new` without the tables of `prepared`. It allocates nothing.
    ///
    /// Errors: those of `new`.
    pub fn plain(
        full_rounds: usize,
        partial_rounds: usize,
        alpha: u64,
        mds: Vec<Vec<F>>,
        ark: Vec<Vec<F>>,
        rate: usize,
        capacity: usize,
    ) -> Result<PoseidonConfig<F>, Error>
        ensures { result ≡ lawful_parameters F.MODULUS_BIT_SIZE (record {
          full_rounds = full_rounds;
          partial_rounds = partial_rounds;
          alpha = alpha;
          mds = map (λ row. map F.value row.items) mds.items;
          ark = map (λ row. map F.value row.items) ark.items;
          rate = rate;
          capacity = capacity;
        }) }
    {
        if F::MODULUS_BIT_SIZE < 9 {
            return Err(Error::GenericError(Refusal::FieldTooSmall));
        }
        if rate == 0 {
            return Err(Error::GenericError(Refusal::ZeroRate));
        }
        let shape = Error::GenericError(Refusal::ParameterShape);
        let Some(rounds) = full_rounds.checked_add(partial_rounds) else {
            return Err(shape);
        };
        let Some(width) = rate.checked_add(capacity) else {
            return Err(shape);
        };
        if !is_matrix(&ark, rounds, width) || !is_matrix(&mds, width, width) {
            return Err(shape);
        }
        Ok(PoseidonConfig {
            full_rounds,
            partial_rounds,
            alpha,
            mds,
            ark,
            rate,
            capacity,
            recurrence: None,
        })
    }

    /// Returns these parameters with tables by which their partial rounds take fewer products: the same permutation in
    /// less time. Parameters of `new` have them, and copies of such; parameters that were read from bytes do not. There are
    /// none where memory is refused, for a state of fewer than three elements or more than 64, and for fewer than four
    /// partial rounds.
    pub fn prepared(mut self) -> PoseidonConfig<F>
        ensures { result ≡ self }
    {
        let half = self.full_rounds / 2;
        let middle = half + self.partial_rounds;
        self.recurrence = recurrence_between(&self.mds, &self.ark, half, middle);
        self
    }

    // The parameters with a copy of the tables of others that are the same.
    fn with_tables_of(mut self, other: &PoseidonConfig<F>) -> PoseidonConfig<F>
        requires { self ≡ other.now }
        ensures { result ≡ self }
    {
        self.recurrence = copy_of_recurrence(&other.recurrence);
        self
    }

    /// Returns the count of full rounds.
    pub fn full_rounds(&self) -> usize
        ensures { result ≡ self.now.full_rounds }
    {
        self.full_rounds
    }

    /// Returns the count of partial rounds.
    pub fn partial_rounds(&self) -> usize
        ensures { result ≡ self.now.partial_rounds }
    {
        self.partial_rounds
    }

    /// Returns the exponent that the S-box takes.
    pub fn alpha(&self) -> u64
        ensures { result ≡ self.now.alpha }
    {
        self.alpha
    }

    /// Returns the matrix, row by row.
    pub fn mds(&self) -> &[Vec<F>]
        ensures { map (λ row. map F.value row.items) result.now ≡ self.now.mds }
    {
        &self.mds
    }

    /// Returns the constants, a row for each round.
    pub fn ark(&self) -> &[Vec<F>]
        ensures { map (λ row. map F.value row.items) result.now ≡ self.now.ark }
    {
        &self.ark
    }

    /// Returns how many elements of a state are absorbed or given before it is permuted, one or more.
    pub fn rate(&self) -> usize
        ensures value { result ≡ self.now.rate }

        // `new` takes these parameters.
        ensures lawful { lawful_parameters F.MODULUS_BIT_SIZE self.now ≡ Ok self.now }
        ensures positive { 0 < result }
        ensures rows { length self.now.mds ≡ width self.now }
        ensures fits { result + self.now.capacity < 2 ^ 64 }
        ensures wide { 9 ≤ F.MODULUS_BIT_SIZE }
    {
        self.rate
    }

    /// Returns how many elements of a state, its first, are neither absorbed nor given.
    pub fn capacity(&self) -> usize
        ensures { result ≡ self.now.capacity }
    {
        self.capacity
    }

    /// Permutes a state in place. `scratch` is written over.
    pub fn permute<S: SBox<F>>(&self, state: &mut [F], scratch: &mut [F])
        requires width { length state.old ≡ width self.now }
        requires scratch { length scratch.old ≡ length state.old }
        ensures { map F.value state.new
            ≡ permutation F.MODULUS S.image self.now (map F.value state.old) }
    {
        let half = self.full_rounds / 2;
        let middle = half + self.partial_rounds;
        let width = self.rate + self.capacity;
        let ark = self.ark.as_slice();
        let mds = self.mds.as_slice();
        apply_rounds::<F, S>(state, scratch, &ark[..half], mds, self.alpha, width);
        let rows = &ark[half..middle];
        run_partial_rounds::<F, S>(&self.recurrence, state, scratch, rows, mds, self.alpha);
        apply_rounds::<F, S>(state, scratch, &ark[middle..], mds, self.alpha, width);
    }
}

/// Returns the rows once more.
pub fn copy_of_rows<F: Field>(rows: &Vec<Vec<F>>) -> Result<Vec<Vec<F>>, Error>
    ensures { AnswersBy (λ copy. map (λ row. map F.value row.items) copy.items)
        (Ok (map (λ row. map F.value row.items) rows.now.items)) result }
{
    Ok(rows.clone()?)
}

impl<F: Field> Duplicate for PoseidonConfig<F> {
    ghost Data = { Parameters };

    ghost seen = { λ parameters. parameters };

    fn duplicate(&self, _alloc: Global) -> Result<PoseidonConfig<F>, Error> {
        let mds = copy_of_rows(&self.mds)?;
        let ark = copy_of_rows(&self.ark)?;
        let copy = PoseidonConfig::plain(
            self.full_rounds,
            self.partial_rounds,
            self.alpha,
            mds,
            ark,
            self.rate(),
            self.capacity,
        )?;
        Ok(copy.with_tables_of(self))
    }
}
