ghost use Rattle.std.specs.Prelude.{◌≡◌};
ghost use Rattle.clusapi_stubs.specs.Inputs.{fault_of};
ghost use Rattle.clusapi_stubs.specs.declared.fault.InFault.TheVariants.{Ndr};

use ndr_values::{NdrFault, ReadFault};

/// Why a stub could not be read.
#[derive(Clone, Copy, Debug, PartialEq, Eq)]
pub enum InFault {
    /// No method has this operation number.
    Opnum,
    /// The first check that fails, with the place of its field.
    Ndr(NdrFault),
    Memory,
}

impl From<NdrFault> for InFault {
    ghost from_gives = { λ fault made. made ≡ Ndr fault };

    fn from(fault: NdrFault) -> InFault {
        InFault::Ndr(fault)
    }
}

impl From<ReadFault> for InFault {
    ghost from_gives = { λ fault made. made ≡ fault_of fault };

    fn from(fault: ReadFault) -> InFault {
        match fault {
            ReadFault::Ndr(fault) => InFault::Ndr(fault),
            ReadFault::Memory => InFault::Memory,
        }
    }
}
