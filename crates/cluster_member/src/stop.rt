//! Why a node stops.

ghost use Rattle.std.specs.Prelude.{◌≡◌};
ghost use Rattle.cluster_member.specs.Logging.{cause_of, stop_for, stop_of};

use cluster_rules::HaltCause;
use quorum_log::AppendFault;
use record_log::{AddFault, RecordFault};
use std::alloc::AllocError;

/// Why a node stops. It isn't used again.
#[derive(Clone, Copy, Debug, PartialEq, Eq)]
pub enum Stop {
    Halted(HaltCause),
    /// Out of memory.
    Memory,
}

impl From<AllocError> for Stop {
    ghost use Rattle.cluster_member.specs.declared.stop.Stop.TheVariants.{Memory};

    ghost from_gives = { λ _ stop. stop ≡ Memory };

    fn from(_: AllocError) -> Stop {
        Stop::Memory
    }
}

impl From<AddFault> for Stop {
    ghost from_gives = { λ fault stop. stop ≡ stop_of fault };

    fn from(fault: AddFault) -> Stop {
        match fault {
            AddFault::Checkpoint(fault) => Stop::Halted(cause_of(fault)),
            AddFault::Append(fault) => Stop::Halted(cause_of(fault)),
            AddFault::Memory => Stop::Memory,
        }
    }
}

impl From<RecordFault> for Stop {
    ghost from_gives = { λ fault stop. stop ≡ stop_for fault };

    fn from(fault: RecordFault) -> Stop {
        match fault {
            RecordFault::Failed => Stop::Halted(HaltCause::Disk),
            RecordFault::Fenced { held } => Stop::Halted(HaltCause::Fenced { held }),
            RecordFault::Image { place } => Stop::Halted(HaltCause::Image { place }),
            RecordFault::Memory => Stop::Memory,
        }
    }
}

fn cause_of(fault: AppendFault) -> HaltCause
    ensures { result ≡ cause_of fault }
{
    match fault {
        AppendFault::Failed => HaltCause::Disk,
        AppendFault::Fenced { held } => HaltCause::Fenced { held },
    }
}
