//! BLAKE2s (RFC 7693), with salt and personalization from the BLAKE2 specification.

ghost use Rattle.std.specs.Prelude.{◌≡◌, ◌+◌, ◌^◌, ◌<◌, ℕ, List, [], ◌++◌, length, Ok};
ghost use Rattle.ark_base.specs.Outcome.{AnswersBy};
ghost use Rattle.ark_schemes.specs.Blake2s.{blake2s, blake2s_with};
ghost use Rattle.ark_schemes.specs.Hashers.{HoldsText, AloneHoldsText};

pub mod compress;
pub(crate) mod hasher;
pub mod words;

use crate::prf::PRF;
use crate::prf::blake2s::hasher::Hasher;
use ark_base::error::Error;
use ark_groups::digest::ByteDigest;
use std::alloc::Global;

/// BLAKE2s with 32 bytes out, no key, no salt and no personalization (RFC 7693): the digest of a text that comes piece by piece,
/// or, by `ByteDigest`, at once.
#[derive(Drop)]
#[repr(C)]
pub struct Blake2s256 {
    hasher: Hasher,
}

impl Blake2s256 {
    /// Returns the hasher of the text of no bytes. It allocates nothing.
    pub fn new() -> Blake2s256
        ensures { HoldsText result [] }
    {
        Blake2s256 {
            hasher: Hasher::new(&[0; 8], &[0; 8]),
        }
    }

    /// Appends bytes to the text. It allocates nothing. A text of 2^64 bytes or more has no digest: none is promised.
    pub fn update(&mut self, input: &[u8])
        ensures text { (text : List ℕ) → length text + length input.now < 2 ^ 64
            → HoldsText self.old text → HoldsText self.new (text ++ input.now) }

        // Cut into other pieces, the text leaves the same hasher.
        ensures cut { (text : List ℕ) → length text + length input.now < 2 ^ 64
            → HoldsText self.old text → AloneHoldsText self.new (text ++ input.now) }
    {
        self.hasher.update(input);
    }

    /// Returns the digest of the text. It allocates nothing.
    pub fn finalize(self) -> [u8; 32]
        ensures { (text : List ℕ) → HoldsText self text → result ≡ blake2s text }
    {
        self.hasher.finalize()
    }
}

impl ByteDigest for Blake2s256 {
    ghost meaning = { λ bytes. Ok (blake2s bytes) };

    fn digest(alloc: Global, input: &[u8]) -> Result<Vec<u8>, Error> {
        let mut hasher = Blake2s256::new();
        hasher.update(input);
        Ok(Vec::from_array(alloc, hasher.finalize())?)
    }

    ghost decided = { λ _. tt };
}

/// BLAKE2s as a pseudorandom function: the digest of the seed followed by the input.
#[derive(Clone, Drop)]
pub struct Blake2s;

impl PRF for Blake2s {
    ghost use Rattle.std.proofs.lemmas.Slice.Eq.{bytes_eq-Decides};

    type Input = [u8; 32];

    type Output = [u8; 32];

    type Seed = [u8; 32];

    ghost meaning = { λ seed input. Ok (blake2s (seed ++ input)) };

    /// Returns the digest of the 64 bytes. It allocates nothing and never fails.
    fn evaluate(seed: &[u8; 32], input: &[u8; 32]) -> Result<[u8; 32], Error>
        ensures { result ≡ Ok (blake2s (seed.now ++ input.now)) }
    {
        let mut keyed = Blake2s256::new();
        keyed.update(seed);
        keyed.update(input);
        Ok(keyed.finalize())
    }

    ghost decided = { λ _ _. tt };

    ghost same_seed = { λ s t same. λ i input. Ok (blake2s (same i ++ input)) };

    ghost same_input = { λ s x y same. λ i. Ok (blake2s (s ++ same i)) };

    ghost equal_if_same = { λ a b. bytes_eq-Decides a b };
}

/// BLAKE2s with 32 bytes out and no key, with salt and personalization in its parameter block.
#[derive(Clone, Drop)]
pub struct Blake2sWithParameterBlock {
    /// Not used: the output always has 32 bytes.
    pub output_size: u8,
    /// Not used: there never is a key.
    pub key_size: u8,
    /// Bytes 16 to 23 of the parameter block.
    pub salt: [u8; 8],
    /// Bytes 24 to 31 of the parameter block.
    pub personalization: [u8; 8],
}

impl Blake2sWithParameterBlock {
    /// Returns the digest of the bytes. The only error is `OutOfMemory`.
    pub fn evaluate(&self, alloc: Global, input: &[u8]) -> Result<Vec<u8>, Error>
        ensures { let digest = blake2s_with self.now.salt self.now.personalization input.now in
            AnswersBy (λ bytes. bytes.items) (Ok digest) result }
    {
        let mut hasher = Hasher::new(&self.salt, &self.personalization);
        hasher.update(input);
        Ok(Vec::from_array(alloc, hasher.finalize())?)
    }
}
