//! Commitments by a table of the randomness element.

ghost use Rattle.std.specs.Prelude.{◌≡◌, ℕ, ◌<◌, ◌⊎◌, List, IfOk, IfErr, IfSome, IsNone};
ghost use Rattle.ark_groups.specs.Group.{times};
ghost use Rattle.ark_pedersen.specs.Pedersen.{doublings};
ghost use Rattle.ark_schemes.specs.PedersenCommitments.{elements_in, elements_by_table, pedersen_commitment, IsDoublingFault};

use crate::commitment::pedersen::{Parameters, Randomness};
use ark_base::error::{Error, Refusal};
use ark_groups::ec::{AdditiveGroup, FixedBaseGroup};
use ark_groups::ff::Field;
use ark_pedersen::{Window, sum_of_bytes};
use std::alloc::Global;

/// Parameters with a table of the randomness element. No branch and no address of a commitment by them depends on the
/// randomness, where none of `mul_by_table` does.
#[derive(Drop)]
pub struct PreparedParameters<C: FixedBaseGroup> {
    generators: Vec<Vec<C>>,
    table: C::Table,
}

// Returns the element of which a list has the doublings.
fn doubled_element<C: AdditiveGroup>(elements: &[C], count: usize) -> Option<C>
    requires some { 0 < count }
    ensures some { IfSome result (λ element. elements.now ≡ doublings C.group count element) }
    ensures none { IsNone result
        → (element : C) → elements.now ≡ doublings C.group count element → ⊥ }
{
    if elements.len() != count {
        return None;
    }
    for i in 1..count {
        if elements[i] != elements[i - 1].double() {
            return None;
        }
    }
    Some(elements[0])
}

impl<C: FixedBaseGroup> PreparedParameters<C> {
    /// Makes the table of the randomness element of some parameters.
    ///
    /// Errors: `ParameterShape` where the randomness's elements are not one element and its doublings, one for each bit of
    /// the scalars' modulus; `OutOfMemory`.
    pub fn new(alloc: Global, parameters: Parameters<C>) -> Result<PreparedParameters<C>, Error>
        ensures made { let bits = C.ScalarField.MODULUS_BIT_SIZE in
            IfOk result (λ made. elements_by_table C.base C.group bits made
            ≡ elements_in parameters) }
        ensures refused { let bits = C.ScalarField.MODULUS_BIT_SIZE in
            IfErr result (IsDoublingFault C.group bits (elements_in parameters).randomness) }
    {
        let bits = C::ScalarField::MODULUS_BIT_SIZE as usize;
        match doubled_element(&parameters.randomness_generator, bits) {
            Some(element) => Ok(PreparedParameters {
                table: element.table(alloc)?,
                generators: parameters.generators,
            }),
            None => Err(Error::GenericError(Refusal::ParameterShape)),
        }
    }

    /// Returns the commitment that `Commitment::commit` returns under these parameters, by the table. It allocates nothing.
    ///
    /// Errors: those of `Commitment::commit`.
    pub fn commit<W: Window>(&self, input: &[u8], randomness: &Randomness<C>) -> Result<C, Error>
        ensures exact { let bits = C.ScalarField.MODULUS_BIT_SIZE in
            let commitment = pedersen_commitment C.group bits W.Window in
            let scalar = C.ScalarField.value randomness.now.0 in
            result ≡ commitment (elements_by_table C.base C.group bits self.now) input.now scalar }
    {
        let hash = sum_of_bytes::<C, W>(&self.generators, input)?;
        let blinding = C::mul_by_table(&self.table, randomness.0);
        Ok(C::from_sum(C::add_to_sum(hash, blinding)))
    }
}
