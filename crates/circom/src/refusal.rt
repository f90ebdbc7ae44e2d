//! Why a call on a log is refused.

use std::alloc::{AllocError, AllocFailed};

/// Why a call on a log is refused.
#[derive(Clone, Copy, Debug, PartialEq, Eq)]
pub enum NodeRefusal {
    /// A digest that is hashed is no element: it is not below the modulus.
    Element,
    /// A request for memory was refused.
    Memory,
}

/// A digest that is hashed is no element: it is not below the modulus. It is the only refusal of a call that asks for no memory.
#[derive(Clone, Copy, Debug, PartialEq, Eq)]
pub struct NoElement;

impl From<NoElement> for NodeRefusal {
    ghost use Rattle.std.specs.Prelude.{◌≡◌};
    ghost use Rattle.circom.specs.declared.refusal.NodeRefusal.TheVariants.{Element};

    ghost from_gives = { λ _ refusal. refusal ≡ Element };

    fn from(_refused: NoElement) -> NodeRefusal {
        NodeRefusal::Element
    }
}

impl From<AllocError> for NodeRefusal {
    ghost use Rattle.std.specs.Prelude.{◌≡◌};
    ghost use Rattle.circom.specs.declared.refusal.NodeRefusal.TheVariants.{Memory};

    ghost from_gives = { λ _ refusal. refusal ≡ Memory };

    fn from(_refused: AllocError) -> NodeRefusal {
        NodeRefusal::Memory
    }
}

impl<T: Drop> From<AllocFailed<T>> for NodeRefusal {
    ghost use Rattle.std.specs.Prelude.{◌≡◌};
    ghost use Rattle.circom.specs.declared.refusal.NodeRefusal.TheVariants.{Memory};

    ghost from_gives = { λ _ refusal. refusal ≡ Memory };

    fn from(_refused: AllocFailed<T>) -> NodeRefusal {
        NodeRefusal::Memory
    }
}
