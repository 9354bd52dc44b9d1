//! How a run over the log ends.

ghost use Rattle.std.specs.Prelude.{◌≡◌};
ghost use Rattle.single_server.specs.Endings.{ended_at, ended_by, ended_from};

use cluster_rules::HaltCause;
use disk_core::DiskFault;
use single_node::StartFault;

/// How a run over the log ended.
#[derive(Clone, Copy, Debug, PartialEq, Eq)]
pub enum Ended {
    /// All was served and written.
    Done,
    /// The input could not be read, or no connection be accepted.
    ReadFault,
    /// The output could not be written.
    WriteFault,
    /// A call of the disk failed.
    DiskFault,
    /// Memory ran out.
    NoMemory,
    /// The log is at fault at that place of its image.
    BadLog { place: u64 },
    /// The disk holds a greater fencing token than the run's, which is 1.
    Fenced { held: u32 },
}

impl Ended {
    /// Why a node that halted ended the run.
    pub(crate) fn by_halt(cause: HaltCause) -> Ended
        ensures { result ≡ ended_by cause }
    {
        match cause {
            HaltCause::Disk => Ended::DiskFault,
            HaltCause::Fenced { held } => Ended::Fenced { held },
            HaltCause::Image { place } => Ended::BadLog { place },
        }
    }

    /// Why a node that didn't start ended it.
    pub(crate) fn at_start(fault: StartFault) -> Ended
        ensures { result ≡ ended_at fault }
    {
        match fault {
            StartFault::Halted(cause) => Ended::by_halt(cause),
            StartFault::Memory => Ended::NoMemory,
        }
    }

    /// Why a call of the disk ended it.
    pub(crate) fn by_disk(fault: DiskFault) -> Ended
        ensures { result ≡ ended_from fault }
    {
        match fault {
            DiskFault::Failed => Ended::DiskFault,
            DiskFault::Fenced { held } => Ended::Fenced { held },
        }
    }
}
