ghost use Rattle.std.specs.Prelude.{◌≡◌};
ghost use Rattle.clus_names.specs.declared.units_fault.UnitsFault.TheVariants.{Memory};

use std::alloc::{AllocError, AllocFailed};

/// Why bytes are no units' text.
#[derive(Clone, Copy, Debug, PartialEq, Eq)]
pub enum UnitsFault {
    /// The first byte at fault, or the text's length where it ends too early.
    Bad { place: usize },
    Memory,
}

impl From<AllocError> for UnitsFault {
    ghost from_gives = { λ _ fault. fault ≡ Memory };

    fn from(_: AllocError) -> UnitsFault {
        UnitsFault::Memory
    }
}

impl<T: Drop> From<AllocFailed<T>> for UnitsFault {
    ghost from_gives = { λ _ fault. fault ≡ Memory };

    fn from(_: AllocFailed<T>) -> UnitsFault {
        UnitsFault::Memory
    }
}
