//! Why a view doesn't continue a chain.

ghost use Rattle.std.specs.Prelude.{◌≡◌};

use std::alloc::{AllocError, AllocFailed};

/// Why [`Chain::declare`](crate::Chain::declare) refuses a view.
#[derive(Clone, Copy, Debug, PartialEq, Eq)]
pub enum ChainFault {
    /// The view's number isn't the one behind the last.
    NotNext,
    /// The view has no member.
    Empty,
    /// This member left the chain before, or a later incarnation of its node was in it.
    Returned { node: u16, inc: u64 },
    Memory,
}

impl<T: Drop> From<AllocFailed<T>> for ChainFault {
    ghost use Rattle.view_reconcile.specs.declared.chain_fault.ChainFault.TheVariants.{Memory};

    ghost from_gives = { λ _ e. e ≡ Memory };

    fn from(_: AllocFailed<T>) -> ChainFault {
        ChainFault::Memory
    }
}
