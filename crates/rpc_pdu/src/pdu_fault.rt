ghost use Rattle.std.specs.Prelude.{◌≡◌};
ghost use Rattle.rpc_pdu.specs.declared.pdu_fault.PduFault.TheVariants.{BadLength, Memory};

use std::alloc::{AllocError, AllocFailed};
use wire_fields::Short;

/// Why bytes are no PDU: the first check that they fail.
#[derive(Clone, Copy, Debug, PartialEq, Eq)]
pub enum PduFault {
    /// The protocol isn't version 5.0 or 5.1.
    BadVersion,
    /// No PDU of a connection has this type.
    BadType,
    /// The integers are neither little-endian nor big-endian.
    BadRep,
    /// The fragment or its body has another length than it says.
    BadLength,
    /// The fragment has an authentication verifier.
    HasAuth,
    /// The flags don't go with the type.
    BadFlags,
    /// Memory ran out.
    Memory,
}

impl From<Short> for PduFault {
    ghost from_gives = { λ _ e. e ≡ BadLength };

    fn from(_: Short) -> PduFault {
        PduFault::BadLength
    }
}

impl From<AllocError> for PduFault {
    ghost from_gives = { λ _ e. e ≡ Memory };

    fn from(_: AllocError) -> PduFault {
        PduFault::Memory
    }
}

impl<T: Drop> From<AllocFailed<T>> for PduFault {
    ghost from_gives = { λ _ e. e ≡ Memory };

    fn from(_: AllocFailed<T>) -> PduFault {
        PduFault::Memory
    }
}
