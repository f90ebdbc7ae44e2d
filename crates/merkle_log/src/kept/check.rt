//! Whether what is kept is what a log has stored.

ghost use Rattle.std.specs.Prelude.{◌≡◌, ◌≢◌, ◌<◌, ◌+◌, ◌*◌, ◌^◌, true, false, length, Ok};
ghost use Rattle.ark_trees.specs.Rfc6962.{node_of};
ghost use Rattle.merkle_log.specs.Kept.{Keeps};
ghost use Rattle.merkle_log.specs.Stored.{row_at, row_pairs, IsStored};

use crate::kept::Kept;
use crate::kept::node::node;
use crate::rows::Rows;

// Whether each digest of a row, of which there are so many, is the hash of its two in the row below.
fn is_hashed(kept: &Kept, level: usize, count: usize) -> bool
    requires count { count ≡ length (row_at kept.now (level + 1)) }
    requires fits { level + 2 * count < 2 ^ 64 }
    ensures hashed { result ≡ true → row_pairs node_of (row_at kept.now level) ≡ Ok
        (row_at kept.now (level + 1)) }
    ensures damaged { result ≡ false → row_pairs node_of (row_at kept.now level) ≢ Ok
        (row_at kept.now (level + 1)) }
{
    'places: for place in 0..count {
        let own = node(kept.at(level, 2 * place), kept.at(level, 2 * place + 1));
        if own != *kept.at(level + 1, place) {
            return false;
        }
    }
    true
}

impl<'a> Kept<'a> {
    /// Returns whether each stored digest of a pair is the hash of its two.
    pub fn is_sound(&self) -> bool
        // Then the stored digests of the list of the leaves' own ones stand in front.
        ensures sound { result ≡ true → Keeps (row_at self.now 0) self.now.digests }
        ensures damaged { result ≡ false → IsStored node_of (row_at self.now) → ⊥ }
    {
        let mut level = 0;
        let mut count = self.size();
        'levels: while count > 1 {
            if !is_hashed(self, level, count / 2) {
                return false;
            }
            count /= 2;
            level += 1;
        }
        true
    }
}
