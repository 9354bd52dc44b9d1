ghost use Rattle.std.specs.Prelude.{◌≡◌};
ghost use Rattle.registry_states.specs.declared.fault.StateFault.TheVariants.{Memory};

use std::alloc::{AllocError, AllocFailed};

/// Why bytes give no registry.
#[derive(Clone, Copy, Debug, PartialEq, Eq)]
pub enum StateFault {
    /// They spell none; the first field at fault starts here.
    Bad { place: usize },
    Memory,
}

impl From<AllocError> for StateFault {
    ghost from_gives = { λ _ fault. fault ≡ Memory };

    fn from(_: AllocError) -> StateFault {
        StateFault::Memory
    }
}

impl<T: Drop> From<AllocFailed<T>> for StateFault {
    ghost from_gives = { λ _ fault. fault ≡ Memory };

    fn from(_: AllocFailed<T>) -> StateFault {
        StateFault::Memory
    }
}
