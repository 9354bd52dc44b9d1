//! Why a log isn't recovered, and why a record isn't added to it.
ghost use Rattle.std.specs.Prelude.{◌≡◌};
ghost use Rattle.record_log.specs.Faults.{contents_fault, record_fault};
ghost use Rattle.record_log.specs.declared.fault.AddFault.TheVariants as adding;
ghost use Rattle.record_log.specs.declared.fault.RecordFault.TheVariants as recovering;

use log_contents::ContentsFault;
use quorum_log::{AppendFault, OpenFault};
use std::alloc::AllocError;

/// Why a log wasn't recovered.
#[derive(Clone, Copy, Debug, PartialEq, Eq)]
pub enum RecordFault {
    /// A call of the disk failed.
    Failed,
    /// The disk holds a greater fencing token.
    Fenced { held: u32 },
    /// What stands at that place of the image is at fault. On a blank disk it is the first byte.
    Image { place: u64 },
    /// Out of memory.
    Memory,
}

/// Why a log wasn't written. It must be recovered again.
#[derive(Clone, Copy, Debug, PartialEq, Eq)]
pub enum AddFault {
    /// The checkpoint failed, and no record was added.
    Checkpoint(AppendFault),
    /// The append failed: the log has the record or doesn't.
    Append(AppendFault),
    /// Out of memory, before any call of the disk.
    Memory,
}

impl From<OpenFault> for RecordFault {
    ghost from_gives = { λ fault gives. gives ≡ record_fault fault };

    fn from(fault: OpenFault) -> RecordFault {
        match fault {
            OpenFault::Failed => RecordFault::Failed,
            OpenFault::Fenced { held } => RecordFault::Fenced { held },
            OpenFault::Blank => RecordFault::Image { place: 0 },
            OpenFault::BadImage { place } => RecordFault::Image { place },
            OpenFault::Memory => RecordFault::Memory,
        }
    }
}

impl From<ContentsFault> for RecordFault {
    ghost from_gives = { λ fault gives. gives ≡ contents_fault fault };

    fn from(fault: ContentsFault) -> RecordFault {
        match fault {
            ContentsFault::Bad { place } => RecordFault::Image { place },
            ContentsFault::Memory => RecordFault::Memory,
        }
    }
}

impl From<AllocError> for RecordFault {
    ghost from_gives = { λ _ gives. gives ≡ recovering.Memory };

    fn from(_: AllocError) -> RecordFault {
        RecordFault::Memory
    }
}

impl From<AllocError> for AddFault {
    ghost from_gives = { λ _ gives. gives ≡ adding.Memory };

    fn from(_: AllocError) -> AddFault {
        AddFault::Memory
    }
}
