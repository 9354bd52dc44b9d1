ghost use Rattle.std.specs.Prelude.{◌≡◌};
ghost use Rattle.clus_names.specs.declared.fault.NameFault.TheVariants.{Memory};

use std::alloc::{AllocError, AllocFailed};

/// Why units are no name, or no text of a path.
#[derive(Clone, Copy, Debug, PartialEq, Eq)]
pub enum NameFault {
    /// The whole has more than 1,023 units.
    TooLong,
    /// A part has no unit.
    EmptyPart,
    /// A part has more than 255 units.
    PartTooLong,
    Memory,
}

impl From<AllocError> for NameFault {
    ghost from_gives = { λ _ fault. fault ≡ Memory };

    fn from(_: AllocError) -> NameFault {
        NameFault::Memory
    }
}

impl<T: Drop> From<AllocFailed<T>> for NameFault {
    ghost from_gives = { λ _ fault. fault ≡ Memory };

    fn from(_: AllocFailed<T>) -> NameFault {
        NameFault::Memory
    }
}
