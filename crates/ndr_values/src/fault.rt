//! Why a value could not be read.

ghost use Rattle.std.specs.Prelude.{◌≡◌};
ghost use Rattle.ndr_values.specs.declared.fault.ReadFault.TheVariants.{Ndr, Memory};

use std::alloc::{AllocError, AllocFailed};

/// The first check that fails. The place is where the field at fault starts, counted from the
/// stub's first byte.
#[derive(Clone, Copy, Debug, PartialEq, Eq)]
pub enum NdrFault {
    /// The field passes the end of the stub.
    Short { place: usize },
    /// The offset of a string isn't 0.
    BadOffset { place: usize },
    /// A string has more units than its maximum.
    BadCount { place: usize },
    /// A string doesn't end in a unit 0. The place is that of its last unit, or of the count of its
    /// units where it has none.
    NoEnd { place: usize },
}

/// Why a value that takes memory could not be read.
#[derive(Clone, Copy, Debug, PartialEq, Eq)]
pub enum ReadFault {
    Ndr(NdrFault),
    Memory,
}

impl From<NdrFault> for ReadFault {
    ghost from_gives = { λ fault made. made ≡ Ndr fault };

    fn from(fault: NdrFault) -> ReadFault {
        ReadFault::Ndr(fault)
    }
}

impl From<AllocError> for ReadFault {
    ghost from_gives = { λ _ made. made ≡ Memory };

    fn from(_: AllocError) -> ReadFault {
        ReadFault::Memory
    }
}

impl<T: Drop> From<AllocFailed<T>> for ReadFault {
    ghost from_gives = { λ _ made. made ≡ Memory };

    fn from(_: AllocFailed<T>) -> ReadFault {
        ReadFault::Memory
    }
}
