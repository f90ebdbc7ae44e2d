//! The hash by a table.

ghost use Rattle.std.specs.Prelude.{◌≡◌, ◌+◌, ◌*◌, ◌≤◌, ◌∷◌, [], map, length, drop, get_or, MatchResult, Ok, Err};
ghost use Rattle.ark_poseidon.specs.Circom.{circom_outcome};
ghost use Rattle.ark_sponge.specs.Permutation.{Parameters};
ghost use Rattle.ark_sponge.specs.Table.{IsShortOf, short_permutation};
ghost use Rattle.circom.specs.Hash.{elements_hashed};

use crate::elements::{ByteOrder, read_elements};
use ark_base::error::Error;
use ark_groups::ff::Field;
use ark_sponge::poseidon::{SBox, ShortPermutation};

/// Returns circomlib's hash of the elements of a state behind its first, which is written over. It allocates nothing.
pub fn hash_state<F: Field, S: SBox<F>>(
    short: &ShortPermutation<F>,
    state: &mut [F],
    scratch: &mut [F],
) -> F
    requires wide { length state.old ≡ length short.now.mds }
    requires some { 1 ≤ length state.old }
    requires scratch { length scratch.old ≡ length state.old }
    ensures hash { (c : Parameters) → IsShortOf F.MODULUS c short.now → c.capacity ≡ 1
        → circom_outcome F.MODULUS S.image c (map F.value (drop 1 state.old))
        ≡ Ok (F.value result ∷ []) }
    ensures first { F.value result ≡ get_or (short_permutation F.MODULUS S.image short.now
        (0 ∷ map F.value (drop 1 state.old))) 0 0 }
{
    state[0] = F::zero();
    short.permute::<S>(state, scratch);
    state[0]
}

/// Returns circomlib's hash of so many elements that bytes are. The state and `scratch` are written over.
///
/// The only error is `InvalidData`, for an element that is not below the modulus.
pub fn hash_elements<F: Field, S: SBox<F>>(
    short: &ShortPermutation<F>,
    order: ByteOrder,
    inputs: &[u8],
    count: usize,
    state: &mut [F],
    scratch: &mut [F],
) -> Result<F, Error>
    requires count { length state.old ≡ count + 1 }
    requires inputs { length inputs.now ≡ 32 * count }
    requires wide { length state.old ≡ length short.now.mds }
    requires scratch { length scratch.old ≡ length state.old }
    ensures { (c : Parameters) → IsShortOf F.MODULUS c short.now → c.capacity ≡ 1
        → let hashed = elements_hashed F.MODULUS S.image c order count inputs.now in
        MatchResult result (λ x. hashed ≡ Ok (F.value x ∷ [])) (λ error. hashed ≡ Err error) }
{
    match read_elements(order, inputs, &mut state[1..]) {
        Ok(()) => Ok(hash_state::<F, S>(short, state, scratch)),
        Err(error) => Err(error),
    }
}
