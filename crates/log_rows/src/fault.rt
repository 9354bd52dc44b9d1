use disk_core::DiskFault;
use quorum_log::{AppendFault, OpenFault};
use row_words::RowFault;
use std::alloc::{AllocError, AllocFailed};
use std::num::ParseIntError;

/// Why a row isn't played to its end.
#[derive(Debug, Drop)]
pub(crate) enum PlayFault {
    /// It is no row, or asks for what isn't there.
    Bad,
    Memory,
    /// The log answered so.
    Answered(OpenFault),
}

impl From<PlayFault> for RowFault {
    fn from(fault: PlayFault) -> RowFault {
        match fault {
            PlayFault::Memory => RowFault::Memory,
            _ => RowFault::Bad,
        }
    }
}

impl From<AllocError> for PlayFault {
    fn from(_: AllocError) -> PlayFault {
        PlayFault::Memory
    }
}

impl<T: Drop> From<AllocFailed<T>> for PlayFault {
    fn from(_: AllocFailed<T>) -> PlayFault {
        PlayFault::Memory
    }
}

impl From<ParseIntError> for PlayFault {
    fn from(_: ParseIntError) -> PlayFault {
        PlayFault::Bad
    }
}

impl From<RowFault> for PlayFault {
    fn from(fault: RowFault) -> PlayFault {
        match fault {
            RowFault::Bad => PlayFault::Bad,
            RowFault::Memory => PlayFault::Memory,
        }
    }
}

impl From<OpenFault> for PlayFault {
    fn from(fault: OpenFault) -> PlayFault {
        match fault {
            OpenFault::Memory => PlayFault::Memory,
            _ => PlayFault::Answered(fault),
        }
    }
}

impl From<AppendFault> for PlayFault {
    fn from(fault: AppendFault) -> PlayFault {
        match fault {
            AppendFault::Failed => PlayFault::Answered(OpenFault::Failed),
            AppendFault::Fenced { held } => PlayFault::Answered(OpenFault::Fenced { held }),
        }
    }
}

impl From<DiskFault> for PlayFault {
    fn from(fault: DiskFault) -> PlayFault {
        PlayFault::Answered(OpenFault::from(fault))
    }
}
