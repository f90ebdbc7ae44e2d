//! What says which map lies in memory.

ghost use Rattle.std.specs.Prelude.{◌≡◌, ℕ, [], List};
ghost use Rattle.kept_map.specs.KeptMap.{KeepsMap};
ghost use Rattle.merkle_map.specs.Map.{MapHashes};

/// Which map lies in memory: the number of its top, and how many entries and forks are there.
///
/// 0 is the number of nothing, 2 k + 1 that of the entry at k, 2 k + 2 that of the fork at k.
#[repr(C)]
#[derive(Clone, Copy, Debug, PartialEq, Eq)]
pub struct Head {
    pub top: u64,
    pub entries: usize,
    pub forks: usize,
}

/// Why memory is not changed, or gives no answer.
#[derive(Clone, Copy, Debug, PartialEq, Eq)]
pub enum MapFault {
    /// There is no room: a change asks for an entry and 256 forks, a copy for what the map has.
    Room,
    /// The memory holds no map under this head.
    NoMap,
}

/// Returns the head of the empty map.
pub fn empty() -> Head
    ensures empty { (h : MapHashes) (entries forks : List (List ℕ))
        → KeepsMap h entries forks result [] }
{
    Head {
        top: 0,
        entries: 0,
        forks: 0,
    }
}
