ghost use Rattle.std.specs.Prelude.{◌≡◌};

use crate::script_fault::ScriptFault;
use cluster_script::LineFault;
use cluster_worlds::StepFault;
use std::alloc::{AllocError, AllocFailed};

/// Why a line isn't played.
#[derive(Clone, Copy, Debug, PartialEq, Eq)]
pub(crate) enum Stop {
    Bad(ScriptFault),
    Memory,
}

impl From<AllocError> for Stop {
    ghost use Rattle.script_player.specs.declared.stop.Stop.TheVariants.{Memory};

    ghost from_gives = { λ _ stop. stop ≡ Memory };

    fn from(_: AllocError) -> Stop {
        Stop::Memory
    }
}

impl<T: Drop> From<AllocFailed<T>> for Stop {
    ghost use Rattle.script_player.specs.declared.stop.Stop.TheVariants.{Memory};

    ghost from_gives = { λ _ stop. stop ≡ Memory };

    fn from(_: AllocFailed<T>) -> Stop {
        Stop::Memory
    }
}

impl From<StepFault> for Stop {
    ghost use Rattle.script_player.specs.Stops.{stop_of_step};

    ghost from_gives = { λ fault stop. stop ≡ stop_of_step fault };

    fn from(fault: StepFault) -> Stop {
        match fault {
            StepFault::BadEvent(cause) => Stop::Bad(ScriptFault::Event(cause)),
            StepFault::Memory => Stop::Memory,
        }
    }
}

impl From<LineFault> for Stop {
    ghost use Rattle.script_player.specs.Stops.{stop_of_line};

    ghost from_gives = { λ fault stop. stop ≡ stop_of_line fault };

    fn from(fault: LineFault) -> Stop {
        match fault {
            LineFault::Column(column) => Stop::Bad(ScriptFault::Column(column)),
            LineFault::Memory => Stop::Memory,
        }
    }
}
