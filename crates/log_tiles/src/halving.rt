//! The root of the digests of a tile.

ghost use Rattle.std.specs.Prelude.{◌≡◌, ◌≤◌, ◌*◌, ◌^◌, [], take, get_or};
ghost use Rattle.ark_trees.specs.Rfc6962.{node_hash};
ghost use Rattle.log_tiles.specs.Audit.{rows_over};
ghost use Rattle.merkle_log.specs.Frontier.{complete_pairs};

use crate::tile::FULL;
use ark_crh::ArrayHash;
use ark_trees::LogHasher;

// Writes the hashes of the first pairs, so many, to the front of another buffer. They are hashed together.
fn halve(below: &[[u8; 32]; FULL], into: &mut [[u8; 32]; FULL], count: usize)
    requires { count ≤ 128 }
    ensures { take count into.new ≡ complete_pairs node_hash (take (2 * count) below.now) }
{
    let mut couples = [(&below[0], &below[0]); FULL / 2];
    'pairs: for pair in 0..count {
        couples[pair] = (&below[2 * pair], &below[2 * pair + 1]);
    }
    LogHasher::nodes(&couples[..count], &mut into[..count]);
}

/// Returns the root of the first 2^height digests, of which the buffer keeps none.
pub fn halved_root(digests: &mut [[u8; 32]; FULL], height: usize) -> [u8; 32]
    requires { height ≤ 8 }
    ensures { result ≡ get_or (rows_over (take (2 ^ height) digests.old) height) 0 [] }
{
    let mut other = [[0; 32]; FULL];
    let mut left = height;
    'levels: while left > 1 {
        halve(digests, &mut other, 1usize << (left - 1));
        halve(&other, digests, 1usize << (left - 2));
        left -= 2;
    }
    if left == 0 {
        return digests[0];
    }
    halve(digests, &mut other, 1);
    other[0]
}
