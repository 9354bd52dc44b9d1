use hex::FromHexError;
use std::alloc::{AllocError, AllocFailed};
use std::num::ParseIntError;

/// Why a row isn't played.
#[derive(Debug, Drop)]
pub enum RowFault {
    /// It is no row, or asks for what isn't there.
    Bad,
    Memory,
}

impl From<AllocError> for RowFault {
    fn from(_: AllocError) -> RowFault {
        RowFault::Memory
    }
}

impl<T: Drop> From<AllocFailed<T>> for RowFault {
    fn from(_: AllocFailed<T>) -> RowFault {
        RowFault::Memory
    }
}

impl From<ParseIntError> for RowFault {
    fn from(_: ParseIntError) -> RowFault {
        RowFault::Bad
    }
}

impl From<FromHexError> for RowFault {
    fn from(error: FromHexError) -> RowFault {
        match error {
            FromHexError::OutOfMemory => RowFault::Memory,
            _ => RowFault::Bad,
        }
    }
}
