ghost use Rattle.std.specs.Prelude.{◌≡◌};
ghost use Rattle.clusapi_methods.specs.Calls.{fault_status};

use clusapi_stubs::InFault;

/// No method has this number (C706, appendix E: `nca_op_rng_error`).
const OP_RANGE_ERROR: u32 = 0x1C01_0002;

/// The stub is no encoding of the parameters (`RPC_X_BAD_STUB_DATA`).
const BAD_STUB_DATA: u32 = 1783;

/// The status of the fault that answers a call whose parameters weren't read. None where memory ran out.
pub fn fault_status(fault: &InFault) -> Option<u32>
    ensures { result ≡ fault_status fault.now }
{
    match fault {
        InFault::Opnum => Some(OP_RANGE_ERROR),
        InFault::Ndr(_) => Some(BAD_STUB_DATA),
        InFault::Memory => None,
    }
}
