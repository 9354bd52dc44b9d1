ghost use Rattle.std.specs.Prelude.{◌≡◌};
ghost use Rattle.hive_text.specs.declared.text_fault.TextFault.TheVariants.{Memory};

use std::alloc::{AllocError, AllocFailed};

/// Why a text gives no registry.
#[derive(Clone, Copy, Debug, PartialEq, Eq)]
pub enum TextFault {
    /// The first byte of the first line at fault, or the text's length where lines are missing.
    Bad { place: usize },
    Memory,
}

impl From<AllocError> for TextFault {
    ghost from_gives = { λ _ fault. fault ≡ Memory };

    fn from(_: AllocError) -> TextFault {
        TextFault::Memory
    }
}

impl<T: Drop> From<AllocFailed<T>> for TextFault {
    ghost from_gives = { λ _ fault. fault ≡ Memory };

    fn from(_: AllocFailed<T>) -> TextFault {
        TextFault::Memory
    }
}
