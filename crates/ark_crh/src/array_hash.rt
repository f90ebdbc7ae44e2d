//! Hashes whose digests are arrays, and which refuse nothing.

ghost use Rattle.std.specs.Prelude.{◌≡◌, ℕ, List, length, map, Ok};
ghost use Rattle.ark_base.specs.Digits.{itself};
ghost use Rattle.ark_base.specs.Outcome.{AnswersBy};
ghost use Rattle.ark_crh.specs.Ahead.{HashesAhead, lent, lent_couples, of_bytes, of_couple, sure};

use ark_base::error::Error;
use std::alloc::Global;

/// Hashes leaves, and two digests of 32 bytes into one. It refuses nothing, and allocates nothing.
pub trait ArrayHash {
    // The digest of a leaf.
    ghost leaf_hash: { List ℕ → List ℕ };

    // The digest of two digests, left first.
    ghost node_hash: { List ℕ → List ℕ → List ℕ };

    /// Returns the digest of a leaf.
    fn leaf(leaf: &[u8]) -> [u8; 32]
        ensures { result ≡ leaf_hash leaf.now };

    /// Returns the digest of two digests, left first.
    fn node(left: &[u8; 32], right: &[u8; 32]) -> [u8; 32]
        ensures { result ≡ node_hash left.now right.now };

    /// Writes the digest of each leaf. A hash may make some of them together: by default it makes none so.
    fn leaves(leaves: &[&[u8]], digests: &mut [[u8; 32]])
        requires { length digests.old ≡ length leaves.now }
        ensures { digests.new ≡ map (λ leaf. leaf_hash leaf.now) leaves.now }
    {
        'each: for place in 0..leaves.len() {
            digests[place] = Self::leaf(leaves[place]);
        }
    }

    /// Writes the digest of each couple of digests, left first. A hash may make some of them together: by default it makes
    /// none so.
    fn nodes(couples: &[(&[u8; 32], &[u8; 32])], digests: &mut [[u8; 32]])
        requires { length digests.old ≡ length couples.now }
        ensures { digests.new ≡ map (λ couple. node_hash couple.0.now couple.1.now) couples.now }
    {
        'each: for place in 0..couples.len() {
            let (left, right) = couples[place];
            digests[place] = Self::node(left, right);
        }
    }
}

// The bytes of byte strings.
fn lend_bytes<'a>(alloc: Global, strings: &[&'a Vec<u8>]) -> Result<Vec<&'a [u8]>, Error>
    ensures { AnswersBy (λ run. lent run.items) (Ok (map (of_bytes itself) (lent strings.now)))
        result }
{
    let mut run = Vec::with_capacity(alloc, strings.len())?;
    'strings: for place in 0..strings.len() {
        run.push(strings[place].as_slice())?;
    }
    Ok(run)
}

/// Returns the digests of leaves, all of them. The only error is `OutOfMemory`.
pub fn leaf_digests<H: ArrayHash>(
    alloc: Global,
    leaves: &[&Vec<u8>],
) -> Result<Vec<[u8; 32]>, Error>
    ensures { HashesAhead itself (sure (of_bytes H.leaf_hash)) (lent leaves.now) result }
{
    let run = lend_bytes(alloc, leaves)?;
    let mut digests = vec![in alloc; [0u8; 32]; leaves.len()]?;
    H::leaves(&run, &mut digests);
    Ok(digests)
}

/// Returns the digests of couples, all of them. The only error is `OutOfMemory`.
pub fn node_digests<H: ArrayHash>(
    alloc: Global,
    couples: &[(&[u8; 32], &[u8; 32])],
) -> Result<Vec<[u8; 32]>, Error>
    ensures { HashesAhead itself (sure (of_couple H.node_hash)) (lent_couples itself couples.now)
        result }
{
    let mut digests = vec![in alloc; [0u8; 32]; couples.len()]?;
    H::nodes(couples, &mut digests);
    Ok(digests)
}
