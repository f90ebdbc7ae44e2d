//! Digests in the memory of forks.

ghost use Rattle.std.specs.Prelude.{◌≡◌, ◌<◌, ◌++◌, [], get_or, set, drop, length, replicate, true, false, Ok};
ghost use Rattle.std.specs.Str.{bytes_eq};
ghost use Rattle.kept_map.specs.KeptMap.{IsKeptFor};

/// How many forks stand above an entry at most: the bits of a key.
pub(crate) const LEVELS: usize = 256;

/// Returns whether a digest says that the fork is not hashed yet.
pub(crate) fn is_unhashed(digest: &[u8; 32]) -> bool
    ensures { result ≡ bytes_eq digest.now (replicate 32 0) }
{
    *digest == [0; 32]
}

/// Returns whether two digests are the same.
pub(crate) fn are_same_digests(a: &[u8; 32], b: &[u8; 32]) -> bool
    ensures { result ≡ bytes_eq a.now b.now }
{
    *a == *b
}

/// Returns whether what stands at a fork is its digest, or says that the fork is not hashed yet.
pub(crate) fn is_kept_for(kept: &[u8; 32], digest: &[u8; 32]) -> bool
    ensures yes { result ≡ true → IsKeptFor (Ok digest.now) kept.now }
    ensures no { result ≡ false → ¬ IsKeptFor (Ok digest.now) kept.now }
{
    is_unhashed(kept) || *kept == *digest
}

/// Writes the digest of a fork.
pub(crate) fn put_digest(forks: &mut [[u8; 48]], place: usize, digest: &[u8; 32])
    requires { place < length forks.old }
    ensures written { forks.new ≡ set forks.old place
        (digest.now ++ drop 32 (get_or forks.old place [])) }
    ensures size { length digest.now ≡ 32 }
{
    let mut fork = forks[place];
    fork[..32].copy_from_slice(digest);
    forks[place] = fork;
}
