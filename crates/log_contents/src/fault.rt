ghost use Rattle.std.specs.Prelude.{◌≡◌};
ghost use Rattle.log_contents.specs.declared.fault.ContentsFault.TheVariants.{Memory};

use std::alloc::{AllocError, AllocFailed};

/// Why a log has no contents.
#[derive(Clone, Copy, Debug, PartialEq, Eq)]
pub enum ContentsFault {
    /// A part isn't what it has to be; the first such part starts here in the image.
    Bad { place: u64 },
    Memory,
}

impl From<AllocError> for ContentsFault {
    ghost from_gives = { λ _ fault. fault ≡ Memory };

    fn from(_: AllocError) -> ContentsFault {
        ContentsFault::Memory
    }
}

impl<T: Drop> From<AllocFailed<T>> for ContentsFault {
    ghost from_gives = { λ _ fault. fault ≡ Memory };

    fn from(_: AllocFailed<T>) -> ContentsFault {
        ContentsFault::Memory
    }
}
