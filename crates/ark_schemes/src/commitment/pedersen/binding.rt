//! What two openings of one commitment give: a relation among its elements.

ghost use Rattle.std.specs.Prelude.{◌≡◌, ◌⊎◌, map, length, Err, IfErr, IfOk};
ghost use Rattle.ark_pedersen.specs.Binding.{relation_outcome, AreAllZero};
ghost use Rattle.ark_schemes.specs.CommitmentBinding.{IsCommitmentRelation};

use crate::commitment::pedersen::Randomness;
use ark_base::error::Error;
use ark_groups::ec::AdditiveGroup;
use ark_groups::ff::Field;
use ark_pedersen::{Window, relation_of};
use std::alloc::Global;

/// Returns the coefficients of the relation that two openings of one commitment give: first of the randomness element,
/// how much more the left randomness is than the right, then one for each window, as `relation_of` of the hash. Openings
/// with inputs of one length that differ have a coefficient that is not 0.
///
/// Errors: those of `relation_of`.
pub fn opening_relation_of<C: AdditiveGroup, W: Window>(
    alloc: Global,
    left: &[u8],
    left_randomness: &Randomness<C>,
    right: &[u8],
    right_randomness: &Randomness<C>,
) -> Result<Vec<C::ScalarField>, Error>
    ensures relation { IfOk result (λ found.
        let coefficients = map C.ScalarField.value found.items in
        IsCommitmentRelation C.group W.Window coefficients
        (record { input = left.now; randomness = C.ScalarField.value left_randomness.now.0 })
        (record { input = right.now; randomness = C.ScalarField.value right_randomness.now.0 })) }
    ensures some { IfOk result (λ found.
        AreAllZero (map C.ScalarField.value found.items) → length left.now ≡ length right.now
        → (left.now ≡ right.now)
        × (C.ScalarField.value left_randomness.now.0
        ≡ C.ScalarField.value right_randomness.now.0)) }
    ensures refused { let outcome = relation_outcome C.ScalarField.MODULUS W.Window in
        IfErr result (λ error. (error ≡ Error.OutOfMemory)
        ⊎ (outcome left.now right.now ≡ Err error)) }
{
    let mut found = relation_of::<C, W>(alloc, left, right)?;
    found.insert(0, left_randomness.0.sub(right_randomness.0))?;
    Ok(found)
}
