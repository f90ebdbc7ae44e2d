//! The BLAKE2s commitment.

ghost use Rattle.std.specs.Prelude.{◌≡◌, Ok, refl};
ghost use Rattle.ark_schemes.specs.Commitments.{blake2s_commitment};
ghost use Rattle.ark_schemes.specs.Laws.Commitments.{blake2s_commitment-decided};

use crate::commitment::CommitmentScheme;
use crate::prf::Blake2s256;
use ark_base::error::{Error, Refusal};
use rand::Rng;
use std::alloc::Global;

/// The BLAKE2s digest of the input followed by 32 bytes of randomness.
pub struct Commitment;

impl CommitmentScheme for Commitment {
    ghost use Rattle.std.proofs.Common.{ap};
    ghost use Rattle.std.proofs.lemmas.Slice.Eq.{bytes_eq-Decides};

    type Output = [u8; 32];

    type Parameters = ();

    type Randomness = [u8; 32];

    ghost meaning = { λ _ bytes randomness. blake2s_commitment bytes randomness };

    ghost setup_outcome = { Ok };

    ghost is_made = { λ _ _. Unit {0} };

    /// Draws nothing.
    ///
    /// It returns no error and allocates nothing.
    fn setup<R: Rng>(_alloc: Global, rng: &mut R) -> Result<(), Error>
        ensures made { result ≡ Ok tt }
        ensures as_before { R.stream rng.new ≡ R.stream rng.old }
    {
        Ok(())
    }

    /// Returns the digest. It allocates nothing. The only error is `LengthOverflow`, where the length of the input with
    /// 32 does not fit 64 bits.
    fn commit(
        _alloc: Global,
        _parameters: &(),
        input: &[u8],
        randomness: &[u8; 32],
    ) -> Result<[u8; 32], Error>
        ensures { result ≡ blake2s_commitment input.now randomness.now }
    {
        if input.len().checked_add(randomness.len()).is_none() {
            return Err(Error::GenericError(Refusal::LengthOverflow));
        }
        let mut hasher = Blake2s256::new();
        hasher.update(input);
        hasher.update(randomness);
        Ok(hasher.finalize())
    }

    ghost meaning_decided = { λ _ bytes randomness. blake2s_commitment-decided bytes randomness };

    ghost setup_decided = { λ _. tt };

    ghost made_alike = { λ _ p q _ _. refl };

    ghost same_parameters = { λ p q same. refl };

    ghost same_randomness = { λ p bytes r s same. ap (blake2s_commitment bytes) same };

    ghost equal_if_same = { λ a b. bytes_eq-Decides a b };
}
