//! How deployments hash with the permutation: two digests by a permutation cut short, lists by a sponge that pads nothing.

ghost use Rattle.std.specs.Prelude.{◌≡◌, ◌≤◌, ◌<◌, ◌+◌, map, length, take, IfOk, Ok, vec_len};
ghost use Rattle.ark_base.specs.Outcome.{AnswersBy};
ghost use Rattle.poseidon2.specs.Permutation.{poseidon2_permutation};
ghost use Rattle.poseidon2.specs.Modes.{both_and_zeros, compressed_digests, overwritten, padding_free_hash, state_overwriting};

use crate::blocks::BlockMatrix;
use crate::config::Poseidon2Config;
use ark_base::error::{Error, Refusal};
use ark_groups::ff::Field;
use ark_sponge::poseidon::SBox;
use std::alloc::Global;

// Puts elements in the place of the front of a state.
fn overwrite<F: Field>(state: &mut [F], block: &[F])
    requires { length block.now ≤ length state.old }
    ensures numbers { map F.value state.new
        ≡ overwritten (map F.value state.old) (map F.value block.now) }
    ensures length { length state.new ≡ length state.old }
{
    state[..block.len()].copy_from_slice(block);
}

// Puts each block of the rate in the place of the front of a state, and permutes it.
fn overwrite_blocks<F: Field, S: SBox<F>, B: BlockMatrix<F>>(
    parameters: &Poseidon2Config<F>,
    state: &mut [F],
    rate: usize,
    elements: &[F],
)
    requires width { length state.old ≡ length parameters.now.diagonal }
    requires some { 0 < rate }
    requires fits { rate ≤ length state.old }
    ensures state { map F.value state.new ≡ state_overwriting
        (poseidon2_permutation F.MODULUS S.image B.matrix parameters.now) rate
        (map F.value state.old) (map F.value elements.now) }
    ensures length { length state.new ≡ length state.old }
{
    let mut rest = elements;
    while !rest.is_empty() {
        let (block, behind) = rest.split_at(rate.min(rest.len()));
        overwrite(state, block);
        parameters.permute::<S, B>(state);
        rest = behind;
    }
}

// Returns left, right, and zeros up to the width.
fn both_and_zeros<F: Field>(
    alloc: Global,
    width: usize,
    left: &[F],
    right: &[F],
) -> Result<Vec<F>, Error>
    requires fits { length left.now + length right.now ≤ width }
    ensures numbers { AnswersBy (λ state. map F.value state.items)
        (Ok (both_and_zeros width (map F.value left.now) (map F.value right.now))) result }
    ensures count { IfOk result (λ state. vec_len state ≡ width) }
{
    let mut state = Vec::with_capacity(alloc, width)?;
    state.extend_from_slice(left)?;
    state.extend_from_slice(right)?;
    state.resize(width, F::zero())?;
    Ok(state)
}

// Returns the front of a state.
fn front_of<F: Field>(mut state: Vec<F>, count: usize) -> Vec<F>
    ensures { map F.value result.items ≡ take count (map F.value state.items) }
{
    state.truncate(count);
    state
}

impl<F: Field> Poseidon2Config<F> {
    /// Returns the hash of two digests of one length: as many elements of the front of the permutation of left, right and
    /// zeros, as Plonky3's `TruncatedPermutation` has it.
    ///
    /// Errors: `ParameterShape` for digests of two lengths, and for those that are longer together than a state;
    /// `OutOfMemory`.
    pub fn compress_digests<S: SBox<F>, B: BlockMatrix<F>>(
        &self,
        alloc: Global,
        left: &[F],
        right: &[F],
    ) -> Result<Vec<F>, Error>
        ensures { AnswersBy (λ digest. map F.value digest.items)
            (compressed_digests F.MODULUS S.image B.matrix self.now (map F.value left.now)
            (map F.value right.now)) result }
    {
        let width = self.width();
        let count = left.len();
        if count != right.len() || count > width / 2 {
            return Err(Error::GenericError(Refusal::ParameterShape));
        }
        let mut state = both_and_zeros(alloc, width, left, right)?;
        self.permute::<S, B>(&mut state);
        Ok(front_of(state, count))
    }

    /// Returns the hash of a list: the first `count` elements of the state, of zeros at first, once each block of `rate`
    /// elements was put in the place of its front and the state permuted, as Plonky3's `PaddingFreeSponge` has it. Hash
    /// only lists of one length: zeros behind a list may leave its hash as it is.
    ///
    /// Errors: `ParameterShape` for a rate of 0, and for a rate or a count that is longer than a state; `OutOfMemory`.
    pub fn hash_padding_free<S: SBox<F>, B: BlockMatrix<F>>(
        &self,
        alloc: Global,
        rate: usize,
        count: usize,
        elements: &[F],
    ) -> Result<Vec<F>, Error>
        ensures { AnswersBy (λ digest. map F.value digest.items)
            (padding_free_hash F.MODULUS S.image B.matrix self.now rate count
            (map F.value elements.now)) result }
    {
        let width = self.width();
        if rate == 0 || rate > width || count > width {
            return Err(Error::GenericError(Refusal::ParameterShape));
        }
        let mut state = vec![in alloc; F::zero(); width]?;
        overwrite_blocks::<F, S, B>(self, &mut state, rate, elements);
        Ok(front_of(state, count))
    }
}
