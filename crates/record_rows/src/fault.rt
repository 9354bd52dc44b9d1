use disk_core::DiskFault;
use quorum_log::OpenFault;
use record_log::{AddFault, RecordFault};
use row_words::RowFault;
use std::alloc::{AllocError, AllocFailed};
use std::num::ParseIntError;

/// Why a row isn't played to its end.
#[derive(Debug, Drop)]
pub(crate) enum PlayFault {
    /// It is no row, or asks for what isn't there.
    Bad,
    Memory,
    /// The disk or the log answered so.
    Refused(RecordFault),
    /// No record was added, or it isn't known.
    NotAdded(AddFault),
}

impl From<PlayFault> for RowFault {
    fn from(fault: PlayFault) -> RowFault {
        match fault {
            PlayFault::Memory => RowFault::Memory,
            _ => RowFault::Bad,
        }
    }
}

impl From<AllocError> for PlayFault {
    fn from(_: AllocError) -> PlayFault {
        PlayFault::Memory
    }
}

impl<T: Drop> From<AllocFailed<T>> for PlayFault {
    fn from(_: AllocFailed<T>) -> PlayFault {
        PlayFault::Memory
    }
}

impl From<ParseIntError> for PlayFault {
    fn from(_: ParseIntError) -> PlayFault {
        PlayFault::Bad
    }
}

impl From<RowFault> for PlayFault {
    fn from(fault: RowFault) -> PlayFault {
        match fault {
            RowFault::Bad => PlayFault::Bad,
            RowFault::Memory => PlayFault::Memory,
        }
    }
}

impl From<update_records::RecordFault> for PlayFault {
    fn from(fault: update_records::RecordFault) -> PlayFault {
        match fault {
            update_records::RecordFault::Bad { .. } => PlayFault::Bad,
            update_records::RecordFault::Memory => PlayFault::Memory,
        }
    }
}

impl From<RecordFault> for PlayFault {
    fn from(fault: RecordFault) -> PlayFault {
        match fault {
            RecordFault::Memory => PlayFault::Memory,
            _ => PlayFault::Refused(fault),
        }
    }
}

impl From<OpenFault> for PlayFault {
    fn from(fault: OpenFault) -> PlayFault {
        PlayFault::from(RecordFault::from(fault))
    }
}

impl From<DiskFault> for PlayFault {
    fn from(fault: DiskFault) -> PlayFault {
        PlayFault::from(OpenFault::from(fault))
    }
}

impl From<AddFault> for PlayFault {
    fn from(fault: AddFault) -> PlayFault {
        match fault {
            AddFault::Memory => PlayFault::Memory,
            _ => PlayFault::NotAdded(fault),
        }
    }
}
