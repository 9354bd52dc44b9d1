//! Why a node isn't opened.

use cluster_rules::HaltCause;
use std::alloc::AllocError;

/// Why a node didn't open.
#[derive(Clone, Copy, Debug, PartialEq, Eq)]
pub enum StartFault {
    /// The log wasn't recovered.
    Halted(HaltCause),
    /// Out of memory.
    Memory,
}

impl From<AllocError> for StartFault {
    ghost use Rattle.std.specs.Prelude.{◌≡◌};
    ghost use Rattle.single_node.specs.declared.fault.StartFault.TheVariants as start;

    ghost from_gives = { λ _ gives. gives ≡ start.Memory };

    fn from(_: AllocError) -> StartFault {
        StartFault::Memory
    }
}
