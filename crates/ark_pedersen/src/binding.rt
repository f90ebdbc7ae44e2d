//! What two inputs with one hash give: a relation among the elements of the windows.
//!
//! Where nobody knows a relation among the elements, nobody can make two such inputs.

ghost use Rattle.std.specs.Prelude.{◌≡◌, ◌<◌, ◌≤◌, ◌%◌, ◌^◌, ◌*◌, map, take, drop, length, IfOk, IfErr};
ghost use Rattle.ark_base.specs.Outcome.{AnswersBy};
ghost use Rattle.ark_groups.specs.Bits.{number_of_bits};
ghost use Rattle.ark_pedersen.specs.Pedersen.{bits_of_bytes};
ghost use Rattle.ark_pedersen.specs.Binding.{window_numbers, differences, windows_fit};
ghost use Rattle.ark_pedersen.specs.Binding.{relation_outcome, IsRelation, AreAllZero};
ghost use Rattle.ark_pedersen.specs.Binding.{CouplesGiveRelations, CoupleRelationsAreSome};
ghost use Rattle.ark_pedersen.specs.Binding.{RelationsGiveElements, RelationsTellElements};

use crate::bits::bytes_to_bits;
use crate::window::Window;
use ark_base::error::{Error, Refusal};
use ark_groups::ec::{AdditiveGroup, PrimeOrderGroup};
use ark_groups::ff::{Field, element_of_bits};
use std::alloc::Global;

/// Returns whether each number of a window stays below the group's order. Else two windows of bits can count alike.
pub fn windows_fit<C: AdditiveGroup, W: Window>() -> bool
    ensures { result ≡ windows_fit C.ScalarField.MODULUS W.Window }
{
    W::WINDOW_SIZE < C::ScalarField::MODULUS_BIT_SIZE as usize
}

// The number of a window of bits, modulo the field's modulus. Bits that are missing are 0.
fn window_number<F: Field>(bits: &[bool], place: usize, size: usize) -> F
    ensures { F.value result ≡ number_of_bits (take size (drop place bits.now)) % F.MODULUS }
{
    let first = place.min(bits.len());
    let last = first + size.min(bits.len() - first);
    element_of_bits(&bits[first..last])
}

/// Returns the coefficients of the relation that two inputs with one hash give, one for each window: how much more its
/// number is in the left input than in the right, modulo the order. Inputs of one length that differ have a coefficient
/// that is not 0.
///
/// Errors: `WindowTooLarge`, where a number of a window can pass the order; `IncorrectInputLength` with the bytes of the
/// left input, and then of the right, where these have more bits than the windows; `OutOfMemory`.
pub fn relation_of<C: AdditiveGroup, W: Window>(
    alloc: Global,
    left: &[u8],
    right: &[u8],
) -> Result<Vec<C::ScalarField>, Error>
    ensures exact { let outcome = relation_outcome C.ScalarField.MODULUS W.Window in
        AnswersBy (λ found. map C.ScalarField.value found.items)
        (outcome left.now right.now) result }
    ensures relation { IfOk result (λ found.
        let coefficients = map C.ScalarField.value found.items in
        IsRelation C.group W.Window coefficients left.now right.now) }
    ensures some { IfOk result (λ found.
        AreAllZero (map C.ScalarField.value found.items)
        → length left.now ≡ length right.now → left.now ≡ right.now) }
{
    coefficients_of::<C, W>(alloc, left, right)
}

// The coefficients of the relation.
fn coefficients_of<C: AdditiveGroup, W: Window>(
    alloc: Global,
    left: &[u8],
    right: &[u8],
) -> Result<Vec<C::ScalarField>, Error>
    ensures { let outcome = relation_outcome C.ScalarField.MODULUS W.Window in
        AnswersBy (λ found. map C.ScalarField.value found.items)
        (outcome left.now right.now) result }
{
    if !windows_fit::<C, W>() {
        return Err(Error::GenericError(Refusal::WindowTooLarge));
    }
    let most = W::WINDOW_SIZE * W::NUM_WINDOWS / 8;
    if left.len() > most {
        return Err(Error::IncorrectInputLength(left.len()));
    }
    if right.len() > most {
        return Err(Error::IncorrectInputLength(right.len()));
    }
    let left = bytes_to_bits(alloc, left)?;
    let right = bytes_to_bits(alloc, right)?;
    differences_of(alloc, &left, &right, W::WINDOW_SIZE, W::NUM_WINDOWS)
}

// Of each window, its number in the left bits less that in the right.
fn differences_of<F: Field>(
    alloc: Global,
    left: &[bool],
    right: &[bool],
    size: usize,
    count: usize,
) -> Result<Vec<F>, Error>
    requires { size * count < 2 ^ 64 }
    ensures made { IfOk result (λ found. map F.value found.items
        ≡ differences F.MODULUS (window_numbers size count left.now)
        (window_numbers size count right.now)) }
    ensures refused { IfErr result (λ error. error ≡ Error.OutOfMemory) }
{
    let mut found = Vec::with_capacity(alloc, count)?;
    for i in 0..count {
        let here = window_number::<F>(left, size * i, size);
        found.push(here.sub(window_number(right, size * i, size)))?;
    }
    Ok(found)
}

/// States that two couples of inputs with one hash give a relation among the elements of the windows, as a tree's nodes have
/// them: `TwoToOneCRH::evaluate`, and `compress` by the digests' canonical bytes. Under an injective map of the hash it is
/// the same. Couples of one length that differ have a coefficient that is not 0.
pub fn couples_bind<C: AdditiveGroup, W: Window>()
    ensures relation { CouplesGiveRelations C.group C.ScalarField.MODULUS W.Window }
    ensures some { CoupleRelationsAreSome C.ScalarField.MODULUS W.Window }
{}

/// States that a relation gives an element whose coefficient has an inverse modulo the order as a combination of the others.
/// Over two elements that is the logarithm of one to the base of the other.
pub fn relations_give_elements<C: AdditiveGroup>()
    ensures { RelationsGiveElements C.group C.ScalarField.MODULUS }
{}

/// States that in a group of prime order the others of a relation tell an element whose coefficient is not 0.
pub fn relations_tell_elements<C: PrimeOrderGroup>()
    ensures { RelationsTellElements C.group C.ScalarField.MODULUS }
{}
