//! What the calls on a log answer where they refuse.
ghost use Rattle.std.specs.Prelude.{◌≡◌};

use disk_core::DiskFault;
use std::alloc::{AllocError, AllocFailed};

/// Why a log wasn't opened.
#[derive(Clone, Copy, Debug, PartialEq, Eq)]
pub enum OpenFault {
    /// A call of the disk failed.
    Failed,
    /// The disk holds a greater fencing token.
    Fenced { held: u32 },
    /// There is no log.
    Blank,
    /// What stands at that place of the image is at fault.
    BadImage { place: u64 },
    /// Out of memory.
    Memory,
}

/// Why a log wasn't written. It must be opened again.
#[derive(Clone, Copy, Debug, PartialEq, Eq)]
pub enum AppendFault {
    /// A call of the disk failed.
    Failed,
    /// The disk holds a greater fencing token.
    Fenced { held: u32 },
}

impl From<DiskFault> for OpenFault {
    ghost use Rattle.quorum_log.specs.Faults.{open_fault};

    ghost from_gives = { λ fault gives. gives ≡ open_fault fault };

    fn from(fault: DiskFault) -> OpenFault {
        match fault {
            DiskFault::Failed => OpenFault::Failed,
            DiskFault::Fenced { held } => OpenFault::Fenced { held },
        }
    }
}

impl From<DiskFault> for AppendFault {
    ghost use Rattle.quorum_log.specs.Faults.{append_fault};

    ghost from_gives = { λ fault gives. gives ≡ append_fault fault };

    fn from(fault: DiskFault) -> AppendFault {
        match fault {
            DiskFault::Failed => AppendFault::Failed,
            DiskFault::Fenced { held } => AppendFault::Fenced { held },
        }
    }
}

impl From<AllocError> for OpenFault {
    ghost use Rattle.quorum_log.specs.declared.fault.OpenFault.TheVariants.{Memory};

    ghost from_gives = { λ _ gives. gives ≡ Memory };

    fn from(_: AllocError) -> OpenFault {
        OpenFault::Memory
    }
}

impl<T: Drop> From<AllocFailed<T>> for OpenFault {
    ghost use Rattle.quorum_log.specs.declared.fault.OpenFault.TheVariants.{Memory};

    ghost from_gives = { λ _ gives. gives ≡ Memory };

    fn from(_: AllocFailed<T>) -> OpenFault {
        OpenFault::Memory
    }
}
